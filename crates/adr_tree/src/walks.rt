//! Walks up the tree, by parents as they were written.

ghost use Rattle.std.specs.Prelude.{◌≡◌, false, if◌then◌else◌};
ghost use Rattle.std.specs.Option.{option_copied};
ghost use Rattle.adr_model.specs.Place.{named_before};
ghost use Rattle.adr_law_tree.specs.Closing.{closing};
ghost use Rattle.adr_law_tree.specs.Opening.{climbs, comes_to, first_breaker};
ghost use Rattle.adr_tree.specs.Slots.{looks, flagged};

use crate::slots::{flag, slot};
use adr_update::{Node, is_fixed, is_same};
use adr_values::Guid;
use std::collections::BTreeMap;

/// The live object of a GUID that isn't fixed.
fn at(slots: &BTreeMap<Guid, Option<Node>>, guid: Guid) -> Option<&Node>
    ensures { option_copied result ≡ looks slots.now guid }
{
    if is_fixed(guid) {
        None
    } else {
        slot(slots, guid)
    }
}

fn is_breaker(flags: &BTreeMap<Guid, bool>, node: &Node) -> bool
    ensures { result ≡ flagged flags.now node.now }
{
    flag(flags, node.object().guid)
}

/// Who breaks the loop that a new object closes.
pub(crate) fn closing<'a>(
    slots: &'a BTreeMap<Guid, Option<Node>>,
    flags: &BTreeMap<Guid, bool>,
    new: &'a Node,
    steps: usize,
) -> Option<&'a Node>
    ensures { option_copied result
        ≡ closing (looks slots.now) (flagged flags.now) new.now.object.guid steps new.now.parent new.now }
{
    let mut best = new;
    let mut guid = new.parent();
    let mut left = steps;
    while left > 0 {
        left -= 1;
        if is_same(guid, new.object().guid) {
            return Some(best);
        }
        let Some(node) = at(slots, guid) else {
            return None;
        };
        if is_breaker(flags, node) {
            return None;
        }
        best = younger(best, node);
        guid = node.parent();
    }
    None
}

fn named_before(node: &Node, other: &Node) -> bool
    ensures { result ≡ named_before node.now other.now }
{
    let by_stamp = node.stamp().cmp(&other.stamp());
    by_stamp
        .then(node.object().guid.cmp(&other.object().guid))
        .is_lt()
}

/// The younger of two names, the first where they are of one age.
pub(crate) fn younger<'a>(best: &'a Node, node: &'a Node) -> &'a Node
    ensures { result.now ≡ (if named_before best.now node.now then node.now else best.now) }
{
    if named_before(best, node) { node } else { best }
}

/// The first object on the way up that breaks a loop.
pub(crate) fn first_breaker<'a>(
    slots: &'a BTreeMap<Guid, Option<Node>>,
    flags: &BTreeMap<Guid, bool>,
    from: Guid,
    steps: usize,
) -> Option<&'a Node>
    ensures { option_copied result ≡ first_breaker (looks slots.now) (flagged flags.now) steps from }
{
    let mut guid = from;
    let mut left = steps;
    while left > 0 {
        left -= 1;
        let Some(node) = at(slots, guid) else {
            return None;
        };
        if is_breaker(flags, node) {
            return Some(node);
        }
        guid = node.parent();
    }
    None
}

/// Whether the way up comes to a GUID.
pub(crate) fn comes_to(
    slots: &BTreeMap<Guid, Option<Node>>,
    target: Guid,
    from: Guid,
    steps: usize,
) -> bool
    ensures { result ≡ comes_to (looks slots.now) target steps from }
{
    let mut guid = from;
    let mut left = steps;
    while left > 0 {
        left -= 1;
        if is_same(guid, target) {
            return true;
        }
        let Some(node) = at(slots, guid) else {
            return false;
        };
        guid = node.parent();
    }
    false
}

/// Whether an object of a GUID is met going up. The walk goes round no loop twice.
pub(crate) fn climbs(
    slots: &BTreeMap<Guid, Option<Node>>,
    flags: &BTreeMap<Guid, bool>,
    target: Guid,
    from: Guid,
    steps: usize,
) -> bool
    ensures { result ≡ climbs (looks slots.now) (flagged flags.now) target false steps from }
{
    let mut guid = from;
    let mut seen = false;
    let mut left = steps;
    while left > 0 {
        left -= 1;
        let Some(node) = at(slots, guid) else {
            return false;
        };
        if is_same(node.object().guid, target) {
            return true;
        }
        let breaks = is_breaker(flags, node);
        if breaks && seen {
            return false;
        }
        seen = breaks || seen;
        guid = node.parent();
    }
    false
}
