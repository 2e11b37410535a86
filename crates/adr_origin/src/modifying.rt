//! Modifying an object.

ghost use Rattle.std.specs.Prelude.{◌≡◌, ◌<◌, ◌≤◌, Err, Ok, IfOk, IsErrOf, OnOk};
ghost use Rattle.std.specs.Result.{result_err};
ghost use Rattle.adr_call.specs.declared.refusal.WriteRefusal.{WriteRefusal};
ghost use Rattle.adr_model.specs.Store.{updates_of};
ghost use Rattle.adr_model.specs.Write.{Modify, modify_refusal, nodes_held, object_of, of_object, usn_limit, write};
ghost use Rattle.adr_origin.specs.LiveParts.{given_refusal, rows_refusal};
ghost use Rattle.adr_origin.specs.NextRows.{next_rows, versions_refusal};

use crate::NoMemory;
use crate::checks::{check_live, check_schema, check_usn, check_version};
use crate::stamps::{class_of, next_row, object_of, own_change};
use adr_call::{Failure, WriteRefusal};
use adr_state::{Change, Item, Key, Rows, State, Update};
use adr_values::{Assignments, Content, Guid, Oid, Unit};
use std::alloc::Global;

/// What a client's giving an object values makes of a controller at a time in seconds: the change, or why it is
/// refused, first in order (MS-ADTS, modify operation; the refusals and their order are this project's own). The values
/// of an attribute take the place of those that it has, and none leave it without. The controller stays as it is.
pub fn modify(
    alloc: Global,
    state: &State,
    guid: Guid,
    values: &Assignments,
    now: u64,
) -> Result<Change, Failure<WriteRefusal>>
    ensures ok { IfOk result (λ change. write state.now (Modify guid values.now) now ≡ Ok change) }
    ensures within { IfOk result (λ change. change.usn ≤ usn_limit) }
    ensures refused { (refusal : WriteRefusal) → IsErrOf result (Failure.Refused refusal)
        → write state.now (Modify guid values.now) now ≡ Err refusal }
{
    check_modify(state, guid, values)?;
    let object = object_of(state, guid);
    let item = modified_item(alloc, state, &object, values, now)?;
    Ok(own_change(alloc, state, item)?)
}

/// Tests that an object may be given values.
fn check_modify(state: &State, guid: Guid, values: &Assignments) -> Result<(), WriteRefusal>
    ensures told { result_err result ≡ modify_refusal state.now guid values.now }
    ensures room { OnOk result (state.now.store.usn < usn_limit) }
    ensures versions { let object = object_of (nodes_held (updates_of state.now.store.rows)) guid in
        OnOk result (versions_refusal state.now.store.rows object values.now ≡ None) }
{
    check_given(state, guid, values)?;
    check_rows(state, &object_of(state, guid), values)
}

/// Tests that an object is live and that the schema allows the values.
fn check_given(state: &State, guid: Guid, values: &Assignments) -> Result<(), WriteRefusal>
    ensures { result_err result ≡ given_refusal state.now guid values.now }
{
    check_live(state, guid)?;
    let class = class_of(state, guid);
    check_schema(state.schema().check_modify(class, values))
}

/// Tests that the rows of the attributes that are given values can be written.
fn check_rows(state: &State, object: &Oid, values: &Assignments) -> Result<(), WriteRefusal>
    ensures told { result_err result ≡ rows_refusal state.now object.now values.now }
    ensures room { OnOk result (state.now.store.usn < usn_limit) }
    ensures versions { OnOk result (versions_refusal state.now.store.rows object.now values.now ≡ None) }
{
    check_versions(state.rows(), object, values)?;
    check_usn(state.usn())
}

/// Tests that the versions of the rows of the attributes that are given values can rise.
fn check_versions(rows: &Rows, object: &Oid, values: &Assignments) -> Result<(), WriteRefusal>
    ensures { result_err result ≡ versions_refusal rows.now object.now values.now }
{
    'attributes: for (attr, _) in values.entries() {
        let key = Key::Row {
            object: *object,
            attr: *attr,
        };
        check_version(rows.row(key), *attr)?;
    }
    Ok(())
}

/// The rows of the attributes that are given values, rising, each one version on.
fn next_rows(
    alloc: Global,
    state: &State,
    object: &Oid,
    values: &Assignments,
    now: u64,
) -> Result<Vec<Update>, NoMemory>
    requires usn { state.now.store.usn < usn_limit }
    requires versions { versions_refusal state.now.store.rows object.now values.now ≡ None }
    ensures { IfOk result (λ rows. rows.items ≡ next_rows state.now now object.now values.now) }
{
    let mut rows = Vec::new(alloc);
    'attributes: for (attr, list) in values.entries() {
        let content = Content::Values(list.copy(alloc)?);
        rows.push(next_row(state, object, *attr, content, now))?;
    }
    Ok(rows)
}

/// The object with the rows of the attributes that are given values, under the next update sequence number.
fn modified_item(
    alloc: Global,
    state: &State,
    object: &Oid,
    values: &Assignments,
    now: u64,
) -> Result<Item, NoMemory>
    requires usn { state.now.store.usn < usn_limit }
    requires versions { versions_refusal state.now.store.rows object.now values.now ≡ None }
    ensures { IfOk result (λ item. item ≡ of_object object.now (next_rows state.now now object.now values.now)) }
{
    let rows = next_rows(alloc, state, object, values, now)?;
    Ok(Item::new(Unit::Object(*object), rows))
}
