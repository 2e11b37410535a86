//! The bodies of a journal's records are written.

ghost use Rattle.std.specs.Prelude.{◌≡◌, ◌++◌, ◌<◌, ◌^◌, All, IfOk, OnOk, length};
ghost use Rattle.std.specs.List.{flat_map};
ghost use Rattle.adr_wire.specs.Composites.{oid};
ghost use Rattle.adr_wire.specs.Fields.{u32};
ghost use Rattle.adr_image.specs.Body.{mark_if};
ghost use Rattle.adr_image.specs.Changes.{AreShort, IsShortChange, change_bytes, unit_bytes, update_bytes, written_bytes};
ghost use Rattle.adr_image.specs.Stored.{image_version};
ghost use Rattle.adr_image.specs.Written.{IsShortSaid};

use crate::decoding::VERSION;
use crate::encoding::{write_kept, write_told};
use adr_change::{Change, PartnerMark};
use adr_update::{NoMemory, Update, Written};
use adr_values::{Guid, Oid, Unit};
use adr_wire::Writer;
use std::alloc::Global;

/// Room for the body of most changes, in bytes.
const CHANGE_ROOM: usize = 512;

/// Writes an update, but not the unit that it is of.
fn write_update(writer: &mut Writer, update: &Update) -> Result<(), NoMemory>
    requires { IsShortSaid update.now.said }
    ensures { OnOk result (writer.new ≡ writer.old ++ update_bytes update.now) }
{
    write_told(writer, &update.key(), &update.stamp(), update.said())
}

/// Writes updates, one behind the other.
fn write_updates(writer: &mut Writer, updates: &[Update]) -> Result<(), NoMemory>
    requires { All (λ update. IsShortSaid update.said) updates.now }
    ensures { OnOk result (writer.new ≡ writer.old ++ flat_map update_bytes updates.now) }
{
    for update in updates {
        write_update(writer, update)?;
    }
    Ok(())
}

/// Writes rows of a unit, behind the kind that says what it is.
pub fn write_item(writer: &mut Writer, unit: &Unit, rows: &[Update]) -> Result<(), NoMemory>
    requires { AreShort rows.now }
    ensures { OnOk result (writer.new ≡ writer.old ++ unit_bytes unit.now rows.now) }
{
    match unit {
        Unit::Object(object) => {
            writer.write_u8(&1)?;
            writer.write_oid(object)?;
            writer.write_u16(&(rows.len() as u16))?;
            write_updates(writer, rows)
        }
        Unit::Link(_) => {
            writer.write_u8(&2)?;
            write_updates(writer, rows)
        }
    }
}

/// Writes what is written under one local USN.
fn write_written(writer: &mut Writer, written: &Written) -> Result<(), NoMemory>
    requires { AreShort written.now.item.rows }
    ensures { OnOk result (writer.new ≡ writer.old ++ written_bytes written.now) }
{
    writer.write_usn(&written.local())?;
    let item = written.item();
    write_item(writer, &item.unit(), item.rows())
}

/// Writes a count, and what is written, one local USN behind the other.
fn write_writes(writer: &mut Writer, writes: &[Written]) -> Result<(), NoMemory>
    requires few { length writes.now < 2 ^ 32 }
    requires short { All (λ written. AreShort written.item.rows) writes.now }
    ensures { OnOk result (writer.new
        ≡ writer.old ++ (u32 (length writes.now) ++ flat_map written_bytes writes.now)) }
{
    writer.write_u32(&(writes.len() as u32))?;
    for written in writes {
        write_written(writer, written)?;
    }
    Ok(())
}

/// Writes a count, and objects, one behind the other.
fn write_removed(writer: &mut Writer, removed: &[Oid]) -> Result<(), NoMemory>
    requires { length removed.now < 2 ^ 32 }
    ensures { OnOk result (writer.new
        ≡ writer.old ++ (u32 (length removed.now) ++ flat_map oid removed.now)) }
{
    writer.write_u32(&(removed.len() as u32))?;
    for object in removed {
        writer.write_oid(object)?;
    }
    Ok(())
}

/// Writes whether there is a mark, and the mark.
fn write_mark_if(writer: &mut Writer, mark: &Option<(Guid, PartnerMark)>) -> Result<(), NoMemory>
    ensures { OnOk result (writer.new ≡ writer.old ++ mark_if mark.now) }
{
    match mark {
        None => writer.write_flag(&false),
        Some(mark) => {
            writer.write_flag(&true)?;
            write_kept(writer, mark)
        }
    }
}

/// Writes a change in the version that is written.
fn write_change(writer: &mut Writer, change: &Change) -> Result<(), NoMemory>
    requires { IsShortChange change.now }
    ensures { OnOk result (writer.new ≡ writer.old ++ change_bytes image_version change.now) }
{
    writer.write_usn0(&change.usn())?;
    writer.write_flag(&change.mode().is_quarantined())?;
    writer.write_u32(&change.schema().number())?;
    write_mark_if(writer, &change.mark())?;
    writer.write_timed(VERSION, change.joined(), change.times())?;
    writer.write_vector(change.purged())?;
    write_removed(writer, change.removed())?;
    write_writes(writer, change.writes())
}

/// Writes a change as the body of a record.
pub fn encode_change(alloc: Global, change: &Change) -> Result<Vec<u8>, NoMemory>
    requires { IsShortChange change.now }
    ensures { IfOk result (λ bytes. bytes.items ≡ change_bytes image_version change.now) }
{
    let mut writer = Writer::with_room(alloc, CHANGE_ROOM)?;
    write_change(&mut writer, change)?;
    Ok(writer.into_bytes())
}
