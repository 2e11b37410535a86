//! Adding an object.

ghost use Rattle.std.specs.Prelude.{◌≡◌, ◌<◌, ◌≤◌, Ok, Err, IfOk, IsErrOf, OnOk};
ghost use Rattle.std.specs.Result.{result_err};
ghost use Rattle.adr_call.specs.declared.refusal.WriteRefusal.{WriteRefusal};
ghost use Rattle.adr_values.specs.Numbered.{numbered};
ghost use Rattle.adr_model.specs.Store.{updates_of};
ghost use Rattle.adr_model.specs.Write.{AddObject, add_refusal, nodes_held, rows_written, usn_limit, write};
ghost use Rattle.adr_origin.specs.Parts.{object_refusal, place_refusal, room_refusal};
ghost use Rattle.adr_origin.specs.Telling.{Tells};

use crate::NoMemory;
use crate::checks::{
    check_cursors, check_guid, check_mode, check_objects, check_schema, check_usn,
};
use crate::new_object::{NewObject, new_rows};
use crate::placing::{check_name_free, check_parent, check_superior};
use crate::stamps::{first_stamp, next_object, own_change};
use adr_call::{Failure, WriteRefusal};
use adr_checks::check_name;
use adr_state::{Change, Item, State};
use adr_values::Unit;
use std::alloc::Global;

/// What a client's adding an object makes of a controller at a time in seconds: the change, or why it is refused, first
/// in order (MS-ADTS, add operation; the refusals and their order are this project's own). The controller stays as it
/// is.
pub fn add(
    alloc: Global,
    state: &State,
    object: &NewObject<'_>,
    now: u64,
) -> Result<Change, Failure<WriteRefusal>>
    ensures ok { let added = AddObject object.now.guid object.now.class object.now.parent object.now.text.now object.now.values.now in
        IfOk result (λ change. write state.now added now ≡ Ok change) }
    ensures within { IfOk result (λ change. change.usn ≤ usn_limit) }
    ensures refused { let added = AddObject object.now.guid object.now.class object.now.parent object.now.text.now object.now.values.now in
        (refusal : WriteRefusal) → IsErrOf result (Failure.Refused refusal) → write state.now added now ≡ Err refusal }
{
    check_add(alloc, state, object)?;
    let item = new_item(alloc, state, object, now)?;
    Ok(own_change(alloc, state, item)?)
}

/// Tests that an object may be added.
fn check_add(
    alloc: Global,
    state: &State,
    object: &NewObject<'_>,
) -> Result<(), Failure<WriteRefusal>>
    ensures told { Tells result (add_refusal state.now object.now.guid object.now.class object.now.parent object.now.text.now object.now.values.now) }
    ensures room { OnOk result (state.now.store.usn < usn_limit) }
{
    check_object(state, object)?;
    check_place(alloc, state, object)?;
    check_room(state)?;
    Ok(())
}

/// Tests that an object may be added wherever it is to stand.
fn check_object(state: &State, object: &NewObject<'_>) -> Result<(), WriteRefusal>
    ensures { result_err result
        ≡ object_refusal state.now object.now.guid object.now.class object.now.text.now object.now.values.now }
{
    check_mode(state.mode())?;
    check_guid(state.rows(), object.guid)?;
    check_schema(state.schema().check_add(object.class, object.values))?;
    check_schema(check_name(object.text.as_str()))
}

/// Tests that an object may stand under its parent by its name.
fn check_place(
    alloc: Global,
    state: &State,
    object: &NewObject<'_>,
) -> Result<(), Failure<WriteRefusal>>
    ensures { Tells result (place_refusal (numbered state.now.store.schema) (nodes_held (updates_of state.now.store.rows)) object.now.class object.now.parent object.now.text.now) }
{
    check_parent(state, object.parent)?;
    check_superior(state, object.class, object.parent)?;
    check_name_free(alloc, state, object.parent, object.text)
}

/// Tests that there is room for one more object.
fn check_room(state: &State) -> Result<(), WriteRefusal>
    ensures told { result_err result ≡ room_refusal state.now }
    ensures room { OnOk result (state.now.store.usn < usn_limit) }
{
    check_usn(state.usn())?;
    check_objects(state.rows())?;
    check_cursors(state)
}

/// The new object with its rows, under the next update sequence number.
fn new_item(
    alloc: Global,
    state: &State,
    object: &NewObject<'_>,
    now: u64,
) -> Result<Item, NoMemory>
    requires { state.now.store.usn < usn_limit }
    ensures { let added = AddObject object.now.guid object.now.class object.now.parent object.now.text.now object.now.values.now in
        IfOk result (λ item. item ≡ rows_written state.now added now) }
{
    let oid = next_object(state, object.guid);
    let stamp = first_stamp(state, now);
    let rows = new_rows(alloc, &oid, &stamp, object)?;
    Ok(Item::new(Unit::Object(oid), rows))
}
