//! Who breaks a loop of parents, where one object comes or goes.

ghost use Rattle.std.specs.Prelude.{◌≡◌, ◌||◌, ◌&&◌, not, None, Some, false, true, IfSome, IsSome, if◌then◌else◌};
ghost use Rattle.std.specs.Bool.{OnFalse};
ghost use Rattle.std.specs.Option.{option_and_then, option_map_or};
ghost use Rattle.std.specs.BTreeMap.{get};
ghost use Rattle.adr_values.specs.Order.{identifier_order};
ghost use Rattle.adr_model.specs.Place.{Node as Defined, node_at};
ghost use Rattle.adr_model.specs.Update.{Identifier, same_identifier};
ghost use Rattle.adr_tree.specs.Children.{HasNoChild, closed_by, opened_by};
ghost use Rattle.adr_tree.specs.Hints.{AreHinted};
ghost use Rattle.adr_tree.specs.Slots.{IsTidy, KeepsPlaces, flag_at, seen, slot_at};

use crate::hints::Hint;
use crate::slots::{flag, set_flag, slot};
use crate::walks::{closing, comes_to, first_breaker};
use adr_update::{Node, is_fixed, is_same};
use adr_values::Guid;
use std::collections::{BTreeMap, BTreeSet};
use std::ops::Bound;

/// Whether the object of a hint is there and has the parent.
fn is_child(slots: &BTreeMap<Guid, Option<Node>>, hint: &Hint, parent: Guid) -> bool
    ensures { OnFalse result ((m : Defined) → slot_at slots.now m.object.guid ≡ Some m
        → hint.now.guid ≡ Some m.object.guid → same_identifier m.parent parent ≡ false) }
{
    let Some(guid) = hint.guid else {
        return false;
    };
    match slot(slots, guid) {
        Some(node) => is_same(node.parent(), parent),
        None => false,
    }
}

/// Whether a GUID is the parent of an object that is there, as parents were written. Hints of objects that aren't there yet,
/// or any more, are passed over.
fn is_parent(slots: &BTreeMap<Guid, Option<Node>>, hints: &BTreeSet<Hint>, guid: Guid) -> bool
    requires tidy { IsTidy slots.now }
    requires hinted { AreHinted (seen slots.now.entries) hints.now }
    ensures { OnFalse result ((m : Defined) → node_at (seen slots.now.entries) m.object.guid ≡ Some m
        → same_identifier m.parent guid ≡ false) }
{
    let start = Hint {
        parent: guid,
        number: None,
        guid: None,
    };
    for hint in hints.range((Bound::Included(start), Bound::Unbounded)) {
        if !start.begins_run_of(hint) {
            return false;
        }
        if is_child(slots, hint, guid) {
            return true;
        }
    }
    false
}

/// Whether an object is the parent of one that is there, or its own.
pub(crate) fn has_child(
    slots: &BTreeMap<Guid, Option<Node>>,
    hints: &BTreeSet<Hint>,
    node: &Node,
) -> bool
    requires tidy { IsTidy slots.now }
    requires hinted { AreHinted (seen slots.now.entries) hints.now }
    ensures { OnFalse result (HasNoChild (seen slots.now.entries) node.now) }
{
    let guid = node.object().guid;
    if is_same(node.parent(), guid) {
        return true;
    }
    is_parent(slots, hints, guid)
}

/// The same of an object, if there is one.
pub(crate) fn has_child_if(
    slots: &BTreeMap<Guid, Option<Node>>,
    hints: &BTreeSet<Hint>,
    node: &Option<Node>,
) -> bool
    requires tidy { IsTidy slots.now }
    requires hinted { AreHinted (seen slots.now.entries) hints.now }
    ensures { IfSome node.now (λ x. OnFalse result (HasNoChild (seen slots.now.entries) x)) }
{
    match node {
        Some(node) => has_child(slots, hints, node),
        None => false,
    }
}

/// The GUID of the object that breaks the loop that a new object closes.
fn closer(
    slots: &BTreeMap<Guid, Option<Node>>,
    flags: &BTreeMap<Guid, bool>,
    new: &Node,
) -> Option<Guid>
    ensures { result ≡ closed_by slots.now flags.now new.now }
{
    if is_fixed(new.object().guid) {
        return None;
    }
    match closing(slots, flags, new, slots.len()) {
        Some(node) => Some(node.object().guid),
        None => None,
    }
}

/// The same, where nobody breaks one if the new object is nobody's parent.
pub(crate) fn closer_if(
    slots: &BTreeMap<Guid, Option<Node>>,
    flags: &BTreeMap<Guid, bool>,
    is_parent: bool,
    new: &Node,
) -> Option<Guid>
    ensures { result ≡ (if is_parent then closed_by slots.now flags.now new.now else None) }
{
    if is_parent {
        closer(slots, flags, new)
    } else {
        None
    }
}

/// The GUID of the object that broke the loop of an object that goes.
fn opener(
    slots: &BTreeMap<Guid, Option<Node>>,
    flags: &BTreeMap<Guid, bool>,
    old: &Node,
) -> Option<Guid>
    ensures { result ≡ opened_by slots.now flags.now old.now }
{
    let guid = old.object().guid;
    if is_fixed(guid) {
        return None;
    }
    if flag(flags, guid) {
        return Some(guid);
    }
    match first_breaker(slots, flags, old.parent(), slots.len()) {
        None => None,
        Some(node) => {
            let breaker = node.object().guid;
            if comes_to(slots, breaker, node.parent(), slots.len()) {
                None
            } else {
                Some(breaker)
            }
        }
    }
}

/// The same, where nobody broke one if the object was nobody's parent.
pub(crate) fn opener_if(
    slots: &BTreeMap<Guid, Option<Node>>,
    flags: &BTreeMap<Guid, bool>,
    is_parent: bool,
    old: &Option<Node>,
) -> Option<Guid>
    ensures { result
        ≡ (if is_parent then option_and_then (λ x. opened_by slots.now flags.now x) old.now else None) }
{
    if !is_parent {
        return None;
    }
    match old {
        Some(old) => opener(slots, flags, old),
        None => None,
    }
}

/// Sets the flag of an object, if one is named.
pub(crate) fn set(flags: &mut BTreeMap<Guid, bool>, breaker: Option<Guid>)
    requires { IfSome breaker (λ h. IsSome (get identifier_order flags.old h)) }
    ensures flag { (g : Identifier) → flag_at flags.new g
        ≡ (option_map_or (λ h. same_identifier h g) breaker false || flag_at flags.old g) }
    ensures more { KeepsPlaces flags.old flags.new }
{
    match breaker {
        Some(guid) => set_flag(flags, guid, true),
        None => {}
    }
}

/// Clears the flag of a GUID.
fn clear_flag(flags: &mut BTreeMap<Guid, bool>, guid: Guid)
    ensures flag { (g : Identifier) → flag_at flags.new g
        ≡ (flag_at flags.old g && not (same_identifier guid g)) }
    ensures more { KeepsPlaces flags.old flags.new }
{
    if flag(flags, guid) {
        set_flag(flags, guid, false);
    }
}

/// Clears the flag of an object, if one is named.
pub(crate) fn clear(flags: &mut BTreeMap<Guid, bool>, breaker: Option<Guid>)
    ensures flag { (g : Identifier) → flag_at flags.new g
        ≡ (flag_at flags.old g && not (option_map_or (λ h. same_identifier h g) breaker false)) }
    ensures more { KeepsPlaces flags.old flags.new }
{
    match breaker {
        Some(guid) => clear_flag(flags, guid),
        None => {}
    }
}
