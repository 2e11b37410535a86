//! The number of the schema that a change leaves.

ghost use Rattle.std.specs.Prelude.{◌≡◌, ◌==◌, ◌||◌};
ghost use Rattle.adr_law_calls.specs.Tested.{is_upgraded};

use adr_state::{Change, State};

/// The schema that an upgrade leaves.
const UPGRADED: u32 = 2;

/// Whether a change is that of an upgrade.
fn is_upgraded(state: &State, change: &Change) -> bool
    ensures { result ≡ is_upgraded state.now change.now }
{
    change.usn() == state.usn()
        && !change.mode().is_quarantined()
        && change.schema().number() == UPGRADED
        && change.mark().is_none()
        && change.joined().cursors().is_empty()
        && change.times().is_empty()
        && change.purged().cursors().is_empty()
        && change.removed().is_empty()
        && change.writes().is_empty()
}

/// Whether a change leaves the schema of the state, or is that of an upgrade.
pub(crate) fn keeps_schema(state: &State, change: &Change) -> bool
    ensures { result ≡ ((change.now.schema == state.now.store.schema) || is_upgraded state.now change.now) }
{
    change.schema().number() == state.schema().number() || is_upgraded(state, change)
}
