//! Where the object may come to stand.

ghost use Rattle.std.specs.Prelude.{◌≡◌};
ghost use Rattle.std.specs.Result.{result_err};
ghost use Rattle.adr_model.specs.Store.{updates_of};
ghost use Rattle.adr_model.specs.Write.{nodes_held};
ghost use Rattle.adr_origin.specs.Telling.{Tells};
ghost use Rattle.adr_revival.specs.Parts.{loop_refusal, place_refusal};

use crate::climbing::is_named_above;
use crate::revival::Revival;
use adr_call::{Failure, WriteRefusal};
use adr_checks::check_name;
use adr_origin::{State, check_name_free, check_parent, check_schema, check_superior};
use adr_values::Guid;
use std::alloc::Global;

/// Tests that the object would not come to stand under itself: no object on the way up from the parent names it as its own
/// parent. As it isn't live, it isn't met there.
fn check_no_loop(state: &State, guid: Guid, parent: Guid) -> Result<(), WriteRefusal>
    ensures { result_err result ≡ loop_refusal (nodes_held (updates_of state.now.store.rows)) guid parent }
{
    if is_named_above(state.rows(), parent, guid) {
        Err(WriteRefusal::WouldLoop)
    } else {
        Ok(())
    }
}

/// Tests that an object of a class may stand under its parent by its name.
pub fn check_place(
    alloc: Global,
    state: &State,
    class: u16,
    revival: &Revival<'_>,
) -> Result<(), Failure<WriteRefusal>>
    ensures { Tells result (place_refusal state.now class revival.now.guid revival.now.parent revival.now.text.now) }
{
    check_schema(check_name(revival.text.as_str()))?;
    check_parent(state, revival.parent)?;
    check_no_loop(state, revival.guid, revival.parent)?;
    check_superior(state, class, revival.parent)?;
    check_name_free(alloc, state, revival.parent, revival.text)
}
