//! Refusals of requests.

ghost use Rattle.std.specs.Prelude.{◌≡◌, ◌++◌, Ok, IfErr, IfOk, OnOk};
ghost use Rattle.adr_wire.specs.Reading.{Tells};
ghost use Rattle.adr_wire.specs.Fields as spelled;
ghost use Rattle.adr_wire.specs.Headed.{Ends, IsRefusedSo};
ghost use Rattle.adr_packet.specs.Refusals as form;

use crate::refusal::Refusal;
use adr_call::ServeRefusal;
use adr_cycle::NoMemory;
use adr_values::Guid;
use adr_wire::{
    DecodeRefusal, Failure, Malformed, Reader, WireRefusal, Writer, malformed, open_message,
};
use std::alloc::Global;

/// The bytes with which a refusal begins.
const MAGIC: [u8; 4] = [65, 68, 82, 70];

/// The version of the refusals that are read and written.
const VERSION: u16 = 1;

/// The number of the table of a full log.
const LOG_TABLE: u8 = 5;

/// An incarnation, and two numbers.
fn read_shown(reader: &mut Reader<'_>) -> Result<(Guid, (u64, u64)), WireRefusal>
    ensures { Tells result reader.new (form.shown_at reader.old) }
{
    let inv = reader.read_id()?;
    let first = reader.read_u64()?;
    let second = reader.read_u64()?;
    Ok((inv, (first, second)))
}

/// The numbers of a mark, in the order of the refusal.
fn read_marked(reader: &mut Reader<'_>) -> Result<(u64, (u64, u64)), WireRefusal>
    ensures { Tells result reader.new (form.marked_at reader.old) }
{
    let prop = reader.read_u64()?;
    let obj = reader.read_u64()?;
    let seen = reader.read_u64()?;
    Ok((prop, (obj, seen)))
}

/// The table of a full log.
fn read_table(reader: &mut Reader<'_>) -> Result<u8, WireRefusal>
    ensures { Tells result reader.new (form.table_at reader.old) }
{
    let place = reader.place();
    let table = reader.read_u8()?;
    if table != LOG_TABLE {
        return Err(Failure::Refused(Malformed { place }));
    }
    Ok(table)
}

fn read_wrong_controller(reader: &mut Reader<'_>) -> Result<Refusal, WireRefusal>
    ensures { Tells result reader.new (form.told_at 0 30 reader.old) }
{
    let mine = reader.read_id()?;
    let asked = reader.read_id()?;
    Ok(Refusal::Serve(ServeRefusal::WrongController { mine, asked }))
}

fn read_schema_mismatch(reader: &mut Reader<'_>) -> Result<Refusal, WireRefusal>
    ensures { Tells result reader.new (form.told_at 0 31 reader.old) }
{
    let mine = reader.read_u32()?;
    let theirs = reader.read_u32()?;
    Ok(Refusal::Serve(ServeRefusal::SchemaMismatch { mine, theirs }))
}

fn read_too_old(reader: &mut Reader<'_>) -> Result<Refusal, WireRefusal>
    ensures { Tells result reader.new (form.told_at 0 32 reader.old) }
{
    let (inv, (purged, has)) = read_shown(reader)?;
    Ok(Refusal::Serve(ServeRefusal::TooOld { inv, purged, has }))
}

fn read_rolled_back(reader: &mut Reader<'_>) -> Result<Refusal, WireRefusal>
    ensures { Tells result reader.new (form.told_at 0 33 reader.old) }
{
    let (inv, (mine, shown)) = read_shown(reader)?;
    Ok(Refusal::Serve(ServeRefusal::RolledBack { inv, mine, shown }))
}

fn read_bad_mark(reader: &mut Reader<'_>) -> Result<Refusal, WireRefusal>
    ensures { Tells result reader.new (form.told_at 0 34 reader.old) }
{
    let (prop, (obj, seen)) = read_marked(reader)?;
    Ok(Refusal::Serve(ServeRefusal::BadMark { prop, obj, seen }))
}

fn read_log_full(reader: &mut Reader<'_>) -> Result<Refusal, WireRefusal>
    ensures { Tells result reader.new (form.told_at 0 22 reader.old) }
{
    read_table(reader)?;
    let limit = reader.read_u64()?;
    Ok(Refusal::LogFull { limit })
}

/// What stands behind the version of a refusal.
#[tactic(auto, unfolding(crate::specs::Refusals::refusal_at))]
fn read_fields(reader: &mut Reader<'_>) -> Result<Refusal, WireRefusal>
    ensures { Tells result reader.new (form.refusal_at reader.old) }
{
    let place = reader.place();
    match reader.read_u8()? {
        23 => Ok(Refusal::Serve(ServeRefusal::Quarantined)),
        30 => read_wrong_controller(reader),
        31 => read_schema_mismatch(reader),
        32 => read_too_old(reader),
        33 => read_rolled_back(reader),
        34 => read_bad_mark(reader),
        22 => read_log_full(reader),
        _ => Err(Failure::Refused(Malformed { place })),
    }
}

/// What stands behind the version, to the end.
fn read_to_end(reader: &mut Reader<'_>) -> Result<Refusal, WireRefusal>
    ensures { Ends result (form.refusal_at reader.old) }
{
    let refusal = read_fields(reader)?;
    reader.end()?;
    Ok(refusal)
}

/// Reads a refusal. `Malformed` names the first byte of the field that breaks its form.
pub fn decode_refusal(bytes: &[u8]) -> Result<Refusal, Failure<DecodeRefusal>>
    ensures read { IfOk result (λ refusal. form.decoded_refusal bytes.now ≡ Ok refusal) }
    ensures refused { IfErr result (IsRefusedSo (form.decoded_refusal bytes.now)) }
{
    let mut reader = open_message(bytes, &MAGIC, VERSION)?;
    match read_to_end(&mut reader) {
        Ok(refusal) => Ok(refusal),
        Err(refusal) => Err(malformed(refusal)),
    }
}

fn number_of(refusal: &Refusal) -> u8
    ensures { result ≡ form.number_of refusal.now }
{
    match refusal {
        Refusal::Serve(ServeRefusal::Quarantined) => 23,
        Refusal::Serve(ServeRefusal::WrongController { .. }) => 30,
        Refusal::Serve(ServeRefusal::SchemaMismatch { .. }) => 31,
        Refusal::Serve(ServeRefusal::TooOld { .. }) => 32,
        Refusal::Serve(ServeRefusal::RolledBack { .. }) => 33,
        Refusal::Serve(ServeRefusal::BadMark { .. }) => 34,
        Refusal::LogFull { .. } => 22,
    }
}

/// Writes an incarnation, and two numbers.
fn write_shown(writer: &mut Writer, inv: &Guid, first: &u64, second: &u64) -> Result<(), NoMemory>
    ensures { OnOk result (writer.new ≡ writer.old ++ (spelled.id inv.now ++ (spelled.u64 first.now ++ spelled.u64 second.now))) }
{
    writer.write_id(inv)?;
    writer.write_u64(first)?;
    writer.write_u64(second)
}

/// Writes what stands behind the number.
fn write_told(writer: &mut Writer, refusal: &Refusal) -> Result<(), NoMemory>
    ensures { OnOk result (writer.new ≡ writer.old ++ form.told refusal.now) }
{
    match refusal {
        Refusal::Serve(ServeRefusal::Quarantined) => Ok(()),
        Refusal::Serve(ServeRefusal::WrongController { mine, asked }) => {
            writer.write_id(mine)?;
            writer.write_id(asked)
        }
        Refusal::Serve(ServeRefusal::SchemaMismatch { mine, theirs }) => {
            writer.write_u32(mine)?;
            writer.write_u32(theirs)
        }
        Refusal::Serve(ServeRefusal::TooOld { inv, purged, has }) => {
            write_shown(writer, inv, purged, has)
        }
        Refusal::Serve(ServeRefusal::RolledBack { inv, mine, shown }) => {
            write_shown(writer, inv, mine, shown)
        }
        Refusal::Serve(ServeRefusal::BadMark { prop, obj, seen }) => {
            writer.write_u64(prop)?;
            writer.write_u64(obj)?;
            writer.write_u64(seen)
        }
        Refusal::LogFull { limit } => {
            writer.write_u8(&LOG_TABLE)?;
            writer.write_u64(limit)
        }
    }
}

/// Writes what stands behind the version of a refusal.
fn write_fields(writer: &mut Writer, refusal: &Refusal) -> Result<(), NoMemory>
    ensures { OnOk result (writer.new ≡ writer.old ++ form.fields refusal.now) }
{
    writer.write_u8(&number_of(refusal))?;
    write_told(writer, refusal)
}

/// The bytes of a refusal.
pub fn encode_refusal(alloc: Global, refusal: &Refusal) -> Result<Vec<u8>, NoMemory>
    ensures { IfOk result (λ bytes. bytes.items ≡ form.refusal_bytes refusal.now) }
{
    let mut writer = Writer::new(alloc);
    writer.write_head(&MAGIC, &VERSION)?;
    write_fields(&mut writer, refusal)?;
    Ok(writer.into_bytes())
}
