//! Whether a place stands under an object that is not there.

ghost use Rattle.std.specs.Prelude.{◌≡◌, length};
ghost use Rattle.std.specs.List.{list_any};
ghost use Rattle.std.specs.Option.{option_copied};
ghost use Rattle.adr_model.specs.Place.{upward};
ghost use Rattle.adr_model.specs.Store.{updates_of};
ghost use Rattle.adr_model.specs.Update.{same_identifier};
ghost use Rattle.adr_model.specs.Write.{nodes_held};
ghost use Rattle.adr_law_tree.specs.Walk.{climb, free};

use adr_state::{Node, Rows, is_same};
use adr_update::is_fixed;
use adr_values::Guid;

/// The live object of a GUID that isn't fixed.
fn free(rows: &Rows, guid: Guid) -> Option<&Node>
    ensures { option_copied result ≡ free (nodes_held (updates_of rows.now)) guid }
{
    if is_fixed(guid) {
        None
    } else {
        rows.node(guid)
    }
}

/// Whether the parent of an object that is met going up is a GUID, within so many steps.
fn climbs_to(rows: &Rows, from: Guid, target: Guid, steps: usize) -> bool
    ensures { result
        ≡ list_any (λ n. same_identifier n.parent target) (climb (free (nodes_held (updates_of rows.now))) steps from) }
{
    let mut guid = from;
    let mut left = steps;
    while left > 0 {
        left -= 1;
        let Some(node) = free(rows, guid) else {
            return false;
        };
        if is_same(node.parent(), target) {
            return true;
        }
        guid = node.parent();
    }
    false
}

/// Whether an object that is met going up from a place, which it may be itself, has a GUID as its parent, as that was
/// written. No object of that GUID needs to be live. As a loop of parents has no end, the walk goes up by no more steps than
/// there are objects.
pub fn is_named_above(rows: &Rows, place: Guid, guid: Guid) -> bool
    ensures { let nodes = nodes_held (updates_of rows.now) in
        result ≡ list_any (λ n. same_identifier n.parent guid) (upward nodes (length nodes) place) }
{
    rows.are_rising();
    climbs_to(rows, place, guid, rows.objects())
}
