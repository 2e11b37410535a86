//! Deleting an object.

ghost use Rattle.std.specs.Prelude.{◌≡◌, ◌<◌, ◌≤◌, Err, Ok, IfOk, IsErrOf, IsSome, OnOk};
ghost use Rattle.std.specs.Result.{result_err};
ghost use Rattle.adr_call.specs.declared.refusal.WriteRefusal.{WriteRefusal};
ghost use Rattle.adr_model.specs.Place.{node_at};
ghost use Rattle.adr_model.specs.Store.{updates_of};
ghost use Rattle.adr_model.specs.Write.{Delete, delete_refusal, nodes_held, rows_written, usn_limit, write};

use crate::NoMemory;
use crate::checks::{check_live, check_usn};
use crate::placing::check_no_child;
use crate::stamps::{next_item, object_of, own_change};
use adr_call::{Failure, WriteRefusal};
use adr_state::{Change, DELETED, Item, State};
use adr_values::{Content, Guid};
use std::alloc::Global;

/// What a client's deleting an object makes of a controller at a time in seconds: the change, or why it is refused,
/// first in order (MS-ADTS, delete operation; the refusals and their order are this project's own). The controller
/// stays as it is.
pub fn delete(
    alloc: Global,
    state: &State,
    guid: Guid,
    now: u64,
) -> Result<Change, Failure<WriteRefusal>>
    ensures ok { IfOk result (λ change. write state.now (Delete guid) now ≡ Ok change) }
    ensures within { IfOk result (λ change. change.usn ≤ usn_limit) }
    ensures refused { (refusal : WriteRefusal) → IsErrOf result (Failure.Refused refusal)
        → write state.now (Delete guid) now ≡ Err refusal }
{
    check_delete(state, guid)?;
    let item = dead_item(alloc, state, guid, now)?;
    Ok(own_change(alloc, state, item)?)
}

/// Tests that an object may be deleted.
fn check_delete(state: &State, guid: Guid) -> Result<(), WriteRefusal>
    ensures told { result_err result ≡ delete_refusal state.now guid }
    ensures room { OnOk result (state.now.store.usn < usn_limit) }
    ensures live { OnOk result (IsSome (node_at (nodes_held (updates_of state.now.store.rows)) guid)) }
{
    check_live(state, guid)?;
    check_no_child(state, guid)?;
    check_usn(state.usn())
}

/// The object with the row that says that it is dead, under the next update sequence number.
fn dead_item(alloc: Global, state: &State, guid: Guid, now: u64) -> Result<Item, NoMemory>
    requires usn { state.now.store.usn < usn_limit }
    requires live { IsSome (node_at (nodes_held (updates_of state.now.store.rows)) guid) }
    ensures { IfOk result (λ item. item ≡ rows_written state.now (Delete guid) now) }
{
    let object = object_of(state, guid);
    next_item(alloc, state, &object, DELETED, Content::Dead, now)
}
