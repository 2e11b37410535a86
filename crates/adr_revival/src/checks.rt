//! The tests that a revival has to pass, each with its refusal, apart from where the object is to stand.

ghost use Rattle.std.specs.Prelude.{◌≡◌, ◌+◌, ◌≤◌, IfOk, OnOk, is_some, nat_lt};
ghost use Rattle.std.specs.Bool.{then_some};
ghost use Rattle.std.specs.Result.{result_err};
ghost use Rattle.adr_call.specs.declared.refusal.Table.TheVariants.{Links as links};
ghost use Rattle.adr_call.specs.declared.refusal.WriteRefusal.TheVariants.{BirthThere as birth_there, SchemaMismatch as schema_mismatch, StillLive as still_live};
ghost use Rattle.adr_model.specs.Place.{node_at};
ghost use Rattle.adr_model.specs.Store.{updates_of};
ghost use Rattle.adr_model.specs.Write.{full_refusal, link_limit, links_in, names_object, nodes_held, usn_limit, usn_refusal};
ghost use Rattle.adr_origin.specs.Telling.{Tells};
ghost use Rattle.adr_revival.specs.Parts.{held_refusal, room_refusal, start_refusal};

use crate::NoMemory;
use crate::archive::Archive;
use adr_call::{Failure, Table, WriteRefusal};
use adr_origin::{State, check_cursors, check_mode, check_not_fixed, check_objects, next_object};
use adr_state::{LINK_LIMIT, Rows, USN_LIMIT};
use adr_values::{Guid, Oid};
use std::alloc::Global;

/// Tests that the controller has no earlier schema than the image.
fn check_schema_number(mine: u32, theirs: u32) -> Result<(), WriteRefusal>
    ensures { result_err result ≡ then_some (nat_lt mine theirs) (schema_mismatch mine theirs) }
{
    if mine < theirs {
        Err(WriteRefusal::SchemaMismatch { mine, theirs })
    } else {
        Ok(())
    }
}

/// Tests what is wrong whatever the image shows.
pub fn check_start(state: &State, archive: &Archive, guid: Guid) -> Result<(), WriteRefusal>
    ensures { result_err result ≡ start_refusal state.now archive.now.schema guid }
{
    check_mode(state.mode())?;
    check_not_fixed(guid)?;
    check_schema_number(state.schema().number(), archive.schema())
}

/// Tests that a GUID has no live object.
fn check_not_live(rows: &Rows, guid: Guid) -> Result<(), WriteRefusal>
    ensures { result_err result
        ≡ then_some (is_some (node_at (nodes_held (updates_of rows.now)) guid)) (still_live guid) }
{
    if rows.node(guid).is_some() {
        Err(WriteRefusal::StillLive { guid })
    } else {
        Ok(())
    }
}

/// Whether a row is one of an object, or a link from or to it.
fn names_object(alloc: Global, rows: &Rows, object: &Oid) -> Result<bool, NoMemory>
    ensures { IfOk result (λ named. named ≡ names_object rows.now object.now) }
{
    if !rows.rows_of(alloc, object)?.as_slice().is_empty() {
        return Ok(true);
    }
    if !rows.links_from(alloc, object)?.as_slice().is_empty() {
        return Ok(true);
    }
    Ok(!rows.links_to(alloc, object)?.as_slice().is_empty())
}

/// Tests that nothing is held of an object that is to be new.
fn check_birth(alloc: Global, rows: &Rows, object: &Oid) -> Result<(), Failure<WriteRefusal>>
    ensures { Tells result (then_some (names_object rows.now object.now) (birth_there object.now.guid)) }
{
    if names_object(alloc, rows, object)? {
        Err(Failure::Refused(WriteRefusal::BirthThere { guid: object.guid }))
    } else {
        Ok(())
    }
}

/// Tests that a GUID has no live object, and that nothing is held of the one that is to be new under it.
pub fn check_held(alloc: Global, state: &State, guid: Guid) -> Result<(), Failure<WriteRefusal>>
    requires { state.now.store.usn ≤ usn_limit }
    ensures { Tells result (held_refusal state.now guid) }
{
    check_not_live(state.rows(), guid)?;
    let object = next_object(state, guid);
    check_birth(alloc, state.rows(), &object)
}

/// Tests that there is a number for the object and one for each of its links.
fn check_usns(usn: u64, count: usize) -> Result<(), WriteRefusal>
    ensures told { result_err result ≡ usn_refusal (usn + 1 + count) }
    ensures room { OnOk result (usn + 1 + count ≤ usn_limit) }
{
    if usn < USN_LIMIT && count as u64 <= USN_LIMIT - 1 - usn {
        Ok(())
    } else {
        Err(WriteRefusal::UsnLimit)
    }
}

/// Tests that there is room for so many more link rows.
fn check_links(rows: &Rows, count: usize) -> Result<(), WriteRefusal>
    ensures { result_err result ≡ full_refusal links link_limit (links_in rows.now + count) }
{
    let held = rows.links() as u64;
    if held <= LINK_LIMIT && count as u64 <= LINK_LIMIT - held {
        Ok(())
    } else {
        Err(WriteRefusal::Full {
            table: Table::Links,
            limit: LINK_LIMIT,
        })
    }
}

/// Tests that there is room for one more object with so many links.
pub fn check_room(state: &State, count: usize) -> Result<(), WriteRefusal>
    ensures told { result_err result ≡ room_refusal state.now count }
    ensures room { OnOk result (state.now.store.usn + 1 + count ≤ usn_limit) }
{
    check_usns(state.usn(), count)?;
    check_objects(state.rows())?;
    check_links(state.rows(), count)?;
    check_cursors(state)
}
