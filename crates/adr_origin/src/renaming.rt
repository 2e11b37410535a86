//! Renaming an object, and moving it.

ghost use Rattle.std.specs.Prelude.{◌≡◌, ◌<◌, ◌≤◌, ◌≢◌, Err, Ok, IfOk, IsErrOf, OnOk};
ghost use Rattle.std.specs.Result.{result_err};
ghost use Rattle.adr_call.specs.declared.refusal.WriteRefusal.{WriteRefusal};
ghost use Rattle.adr_values.specs.Numbered.{numbered};
ghost use Rattle.adr_model.specs.Store.{row_held, updates_of};
ghost use Rattle.adr_model.specs.Update.{RowOf, name_attr};
ghost use Rattle.adr_model.specs.Write.{Rename, nodes_held, object_of, rename_refusal, usn_limit, version_limit, version_of, write};
ghost use Rattle.adr_origin.specs.LiveParts.{moved_refusal, named_refusal, row_refusal};
ghost use Rattle.adr_origin.specs.Telling.{Tells};

use crate::checks::{check_live, check_schema, check_usn, check_version};
use crate::new_object::name_content;
use crate::placing::{NewName, check_new_name, check_no_loop, check_parent, check_superior};
use crate::stamps::{class_of, next_item, object_of, own_change};
use adr_call::{Failure, WriteRefusal};
use adr_checks::check_name;
use adr_state::{Change, Key, NAME, State};
use adr_values::{Guid, Oid, Text};
use std::alloc::Global;

/// What a client's giving an object a name and a parent makes of a controller at a time in seconds: the change, or why
/// it is refused, first in order (MS-ADTS, modify DN operation; the refusals and their order are this project's own).
/// The parent may be the one that it has. The controller stays as it is.
pub fn rename(
    alloc: Global,
    state: &State,
    guid: Guid,
    parent: Guid,
    text: &Text,
    now: u64,
) -> Result<Change, Failure<WriteRefusal>>
    ensures ok { IfOk result (λ change. write state.now (Rename guid parent text.now) now ≡ Ok change) }
    ensures within { IfOk result (λ change. change.usn ≤ usn_limit) }
    ensures refused { (refusal : WriteRefusal) → IsErrOf result (Failure.Refused refusal)
        → write state.now (Rename guid parent text.now) now ≡ Err refusal }
{
    let new = NewName { guid, parent, text };
    check_rename(alloc, state, &new)?;
    let name = name_content(alloc, text, parent)?;
    let object = object_of(state, guid);
    let item = next_item(alloc, state, &object, NAME, name, now)?;
    Ok(own_change(alloc, state, item)?)
}

/// Tests that an object may be given a name and a parent.
fn check_rename(
    alloc: Global,
    state: &State,
    name: &NewName<'_>,
) -> Result<(), Failure<WriteRefusal>>
    ensures told { Tells result (rename_refusal state.now name.now.guid name.now.parent name.now.text.now) }
    ensures room { OnOk result (state.now.store.usn < usn_limit) }
    ensures version { let object = object_of (nodes_held (updates_of state.now.store.rows)) name.now.guid in
        OnOk result (version_of (row_held state.now.store.rows (RowOf object name_attr)) ≢ version_limit) }
{
    check_named(state, name.guid, name.text)?;
    check_moved(alloc, state, name)?;
    check_row(state, &object_of(state, name.guid), NAME)?;
    Ok(())
}

/// Tests that an object is live and that it may have a name.
fn check_named(state: &State, guid: Guid, text: &Text) -> Result<(), WriteRefusal>
    ensures { result_err result ≡ named_refusal state.now guid text.now }
{
    check_live(state, guid)?;
    check_schema(check_name(text.as_str()))
}

/// Tests that an object may come to stand under a parent by a name.
fn check_moved(
    alloc: Global,
    state: &State,
    name: &NewName<'_>,
) -> Result<(), Failure<WriteRefusal>>
    ensures { Tells result (moved_refusal (numbered state.now.store.schema) (nodes_held (updates_of state.now.store.rows)) name.now.guid name.now.parent name.now.text.now) }
{
    check_parent(state, name.parent)?;
    check_no_loop(state, name.guid, name.parent)?;
    check_superior(state, class_of(state, name.guid), name.parent)?;
    check_new_name(alloc, state, name)
}

/// Tests that a row of an object can be written once more.
fn check_row(state: &State, object: &Oid, attr: u16) -> Result<(), WriteRefusal>
    ensures told { result_err result ≡ row_refusal state.now object.now attr }
    ensures room { OnOk result (state.now.store.usn < usn_limit) }
    ensures version { OnOk result (version_of (row_held state.now.store.rows (RowOf object.now attr))
        ≢ version_limit) }
{
    let key = Key::Row {
        object: *object,
        attr,
    };
    check_version(state.rows().row(key), attr)?;
    check_usn(state.usn())
}
