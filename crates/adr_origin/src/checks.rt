//! The tests that a write has to pass, each with its refusal.

ghost use Rattle.std.specs.Prelude.{◌≡◌, ◌≢◌, ◌==◌, ◌||◌, ◌+◌, ◌<◌, IsSome, OnOk, false, length};
ghost use Rattle.std.specs.Option.{option_copied, option_map};
ghost use Rattle.std.specs.Result.{result_err};
ghost use Rattle.adr_call.specs.declared.refusal.WriteRefusal.TheVariants.{GuidThere as guid_there, Quarantined as quarantined, Schema as breaks_schema, VersionLimit as at_version_limit};
ghost use Rattle.adr_call.specs.declared.refusal.Table.TheVariants.{Objects as objects};
ghost use Rattle.adr_values.specs.First.{first_of};
ghost use Rattle.adr_model.specs.Live.{objects_of};
ghost use Rattle.adr_model.specs.Place.{is_fixed, node_at};
ghost use Rattle.adr_model.specs.Serve.{is_quarantined};
ghost use Rattle.adr_model.specs.Store.{updates_of};
ghost use Rattle.adr_model.specs.Write.{cursor_refusal, fixed_refusal, full_refusal, holds_guid, live_refusals, nodes_held, object_limit, object_refusal, usn_limit, usn_refusal, version_limit, version_of};
ghost use Rattle.std.specs.Bool.{then_some};
ghost use Rattle.adr_change.specs.Mode.{mode_of};

use crate::stamps::version_of;
use adr_call::{Table, WriteRefusal};
use adr_state::{CURSOR_LIMIT, Held, Mode, OBJECT_LIMIT, Rows, State, USN_LIMIT, VERSION_LIMIT};
use adr_update::is_fixed;
use adr_values::{Guid, SchemaRefusal};

/// Tests that a controller takes writes.
pub fn check_mode(mode: Mode) -> Result<(), WriteRefusal>
    ensures { result_err result ≡ then_some (is_quarantined (mode_of mode)) quarantined }
{
    if mode.is_quarantined() {
        Err(WriteRefusal::Quarantined)
    } else {
        Ok(())
    }
}

/// Tests that a GUID is free.
pub fn check_guid(rows: &Rows, guid: Guid) -> Result<(), WriteRefusal>
    ensures { result_err result
        ≡ then_some (is_fixed guid || holds_guid (updates_of rows.now) guid) (guid_there guid) }
{
    if is_fixed(guid) || rows.holds_guid(guid) {
        Err(WriteRefusal::GuidThere { guid })
    } else {
        Ok(())
    }
}

/// Tests that a GUID isn't that of the root or of LostAndFound.
pub fn check_not_fixed(guid: Guid) -> Result<(), WriteRefusal>
    ensures { result_err result ≡ fixed_refusal guid }
{
    if is_fixed(guid) {
        Err(WriteRefusal::Fixed { guid })
    } else {
        Ok(())
    }
}

/// Tests that there is a live object of a GUID.
pub fn check_object(state: &State, guid: Guid) -> Result<(), WriteRefusal>
    ensures told { result_err result
        ≡ object_refusal (updates_of state.now.store.rows) (nodes_held (updates_of state.now.store.rows)) guid }
    ensures live { OnOk result (IsSome (node_at (nodes_held (updates_of state.now.store.rows)) guid)) }
{
    if state.rows().node(guid).is_some() {
        return Ok(());
    }
    if state.rows().holds_guid(guid) {
        Err(WriteRefusal::Deleted { guid })
    } else {
        Err(WriteRefusal::NoObject { guid })
    }
}

/// Tests that a controller takes writes, and that a GUID is that of a live object, but not of the root or of LostAndFound.
pub fn check_live(state: &State, guid: Guid) -> Result<(), WriteRefusal>
    ensures told { result_err result ≡ first_of (live_refusals state.now guid) }
    ensures free { OnOk result (is_fixed guid ≡ false) }
    ensures live { OnOk result (IsSome (node_at (nodes_held (updates_of state.now.store.rows)) guid)) }
{
    check_mode(state.mode())?;
    check_not_fixed(guid)?;
    check_object(state, guid)
}

/// A test of the schema as a test of a write.
pub fn check_schema(tested: Result<(), SchemaRefusal>) -> Result<(), WriteRefusal>
    ensures { result_err result ≡ option_map breaks_schema (result_err tested) }
{
    tested.map_err(WriteRefusal::Schema)
}

/// Tests that the version of a row can rise, if it's held.
pub fn check_version(held: Option<&Held>, attr: u16) -> Result<(), WriteRefusal>
    ensures told { result_err result
        ≡ then_some (version_of (option_copied held.entry) == version_limit) (at_version_limit attr) }
    ensures room { OnOk result (version_of (option_copied held.entry) ≢ version_limit) }
{
    if version_of(held) == VERSION_LIMIT {
        Err(WriteRefusal::VersionLimit { attr })
    } else {
        Ok(())
    }
}

/// Tests that the update sequence number can rise.
pub fn check_usn(usn: u64) -> Result<(), WriteRefusal>
    ensures told { result_err result ≡ usn_refusal (usn + 1) }
    ensures room { OnOk result (usn < usn_limit) }
{
    if usn < USN_LIMIT {
        Ok(())
    } else {
        Err(WriteRefusal::UsnLimit)
    }
}

/// Tests that there is room for one more object.
pub fn check_objects(rows: &Rows) -> Result<(), WriteRefusal>
    ensures { result_err result
        ≡ full_refusal objects object_limit (length (objects_of (updates_of rows.now)) + 1) }
{
    if (rows.objects() as u64) < OBJECT_LIMIT {
        Ok(())
    } else {
        Err(WriteRefusal::Full {
            table: Table::Objects,
            limit: OBJECT_LIMIT,
        })
    }
}

/// Tests that there is room for the own cursor, which may be a new one.
pub fn check_cursors(state: &State) -> Result<(), WriteRefusal>
    requires { state.now.store.usn < usn_limit }
    ensures { result_err result ≡ cursor_refusal state.now }
{
    if state.vector().is_full_for(state.inv(), state.usn() + 1) {
        Err(WriteRefusal::Full {
            table: Table::Cursors,
            limit: CURSOR_LIMIT,
        })
    } else {
        Ok(())
    }
}
