//! The numbers of a change: its USN, its vectors and how many cursors and marks there come to be.

ghost use Rattle.std.specs.Prelude.{◌≡◌, length};
ghost use Rattle.adr_values.specs.Vector.{at, at_most};
ghost use Rattle.adr_model.specs.Change.{after, with_mark};
ghost use Rattle.adr_law_calls.specs.Tested.{are_in_order, comes_after};

use adr_overlay::len_after;
use adr_state::{CURSOR_LIMIT, Change, MARK_LIMIT, State, is_same};
use adr_values::{Guid, seen_by_both};

/// Whether a state is up, and a change at its USN or above it.
pub(crate) fn comes_after(state: &State, change: &Change) -> bool
    ensures { result ≡ comes_after state.now change.now }
{
    !state.mode().is_quarantined() && state.usn() <= change.usn()
}

/// Whether the vectors of a change fit the state: no more of its own writes is joined than the change brings, no more is
/// purged than was seen, and there are few enough cursors and marks.
pub(crate) fn are_in_order(state: &State, change: &Change) -> bool
    ensures { result ≡ are_in_order state.now change.now }
{
    let cursors = len_after(
        state.vector(),
        Some(change.joined()),
        state.inv(),
        change.usn(),
    );
    change.joined().at(state.inv()) <= change.usn()
        && is_purged_within(state, change)
        && cursors as u64 <= CURSOR_LIMIT
        && len_marks(state, change) as u64 <= MARK_LIMIT
}

/// How many partners there come to be of whom a mark is kept.
fn len_marks(state: &State, change: &Change) -> usize
    ensures { result ≡ length (with_mark change.now.mark state.now.store.marks) }
{
    match change.mark() {
        Some((partner, _)) => state.marks().len_with(partner),
        None => state.marks().len(),
    }
}

/// Whether no more is purged than will have been seen.
fn is_purged_within(state: &State, change: &Change) -> bool
    ensures { result ≡ at_most change.now.purged (after state.now change.now).store.vector }
{
    for (inv, usn) in change.purged().cursors() {
        if seen_after(state, change, *inv) < *usn {
            return false;
        }
    }
    true
}

/// How much of an incarnation will have been seen.
fn seen_after(state: &State, change: &Change, inv: Guid) -> u64
    ensures { result ≡ at (after state.now change.now).store.vector inv }
{
    let seen = seen_by_both(state.vector(), change.joined(), inv);
    if is_same(inv, state.inv()) {
        seen.max(change.usn())
    } else {
        seen
    }
}
