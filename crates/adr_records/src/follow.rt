//! The whole change.

ghost use Rattle.std.specs.Prelude.{◌≡◌, ◌↔◌, IfOk, IsTrue};
ghost use Rattle.adr_model.specs.Formed.{IsFormed};
ghost use Rattle.adr_law_calls.specs.Follow.{CanFollow, HasKnownClasses};
ghost use Rattle.adr_model.specs.Spelled.{IsSpelledChange};
ghost use Rattle.adr_law_calls.specs.Tested.{can_follow, writes_pass};

use crate::numbers::{are_in_order, comes_after};
use crate::removed::are_removable;
use crate::schema::keeps_schema;
use crate::touched::are_touched_formed;
use crate::writes::may_follow_in_turn;
use adr_law_calls::changes_are_tested;
use adr_overlay::Overlay;
use adr_state::{Change, State};
use adr_values::NoMemory;
use std::alloc::Global;

/// Whether a change that was read can follow a state. The time that it takes goes by what the change writes, not by what
/// the state holds.
pub fn can_follow(alloc: Global, state: &State, change: &Change) -> Result<bool, NoMemory>
    ensures told { IfOk result (λ can. can ≡ can_follow state.now change.now) }

    // So the state after it is formed, and its classes are known.
    ensures follows { IfOk result (λ can. IsFormed state.now → HasKnownClasses state.now
        → IsSpelledChange state.now.store.usn change.now → IsTrue can ↔ CanFollow state.now change.now) }
{
    changes_are_tested();
    passes(alloc, state, change)
}

/// The test of a change.
fn passes(alloc: Global, state: &State, change: &Change) -> Result<bool, NoMemory>
    ensures { IfOk result (λ can. can ≡ can_follow state.now change.now) }
{
    if !comes_after(state, change) {
        return Ok(false);
    }
    if !keeps_schema(state, change) {
        return Ok(false);
    }
    if !are_in_order(state, change) {
        return Ok(false);
    }
    let mut told = Overlay::new(alloc, state.rows().table());
    writes_pass(alloc, state, &mut told, change)
}

/// Whether the writes of a change may follow on the state's rows, its removals may, and what it touches is formed then.
fn writes_pass(
    alloc: Global,
    state: &State,
    told: &mut Overlay,
    change: &Change,
) -> Result<bool, NoMemory>
    requires { told.old ≡ state.now.store.rows }
    ensures { IfOk result (λ pass. pass ≡ writes_pass state.now change.now) }
{
    let schema = state.schema();
    if !may_follow_in_turn(alloc, schema, state.vector(), told, change.writes())? {
        return Ok(false);
    }
    if !are_removable(told, state.purged(), change) {
        return Ok(false);
    }
    are_touched_formed(alloc, change.schema(), told, change)
}
