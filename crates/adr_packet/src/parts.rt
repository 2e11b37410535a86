//! What requests and replies are made of.

ghost use Rattle.std.specs.Prelude.{◌≡◌, ◌++◌, OnOk};
ghost use Rattle.std.specs.Option.{option_copied, option_map};
ghost use Rattle.adr_wire.specs.Optional.{if_there, if_there_at};
ghost use Rattle.adr_wire.specs.Reading.{Gives, Tells};
ghost use Rattle.adr_wire.specs.Timed.{timed, timed_at};
ghost use Rattle.adr_packet.specs.Parts as parts;

use adr_cycle::{Mark, NoMemory, Vector};
use adr_values::{Guid, Times};
use adr_wire::{Reader, WireRefusal, Writer};
use std::alloc::Global;

/// Who asks, who is asked, and of which incarnation.
#[tactic(auto, unfolding(crate::specs::Parts::parties_at))]
pub fn read_parties(reader: &mut Reader<'_>) -> Result<(Guid, (Guid, Guid)), WireRefusal>
    ensures { Tells result reader.new (parts.parties_at reader.old) }
{
    let dest = reader.read_id()?;
    let source = reader.read_id()?;
    let inv = reader.read_id()?;
    Ok((dest, (source, inv)))
}

pub fn write_parties(
    writer: &mut Writer,
    dest: Guid,
    source: Guid,
    inv: Guid,
) -> Result<(), NoMemory>
    ensures { OnOk result (writer.new ≡ writer.old ++ parts.parties (dest, (source, inv))) }
{
    writer.write_id(&dest)?;
    writer.write_id(&source)?;
    writer.write_id(&inv)
}

/// From where to where a reply reaches.
#[tactic(auto, unfolding(crate::specs::Parts::reach_at))]
pub fn read_reach(reader: &mut Reader<'_>) -> Result<(Mark, Mark), WireRefusal>
    ensures { Tells result reader.new (parts.reach_at reader.old) }
{
    let from = reader.read_ordered_mark()?;
    let to = reader.read_ordered_mark()?;
    Ok((from, to))
}

pub fn write_reach(writer: &mut Writer, from: Mark, to: Mark) -> Result<(), NoMemory>
    ensures { OnOk result (writer.new ≡ writer.old ++ parts.reach (from, to)) }
{
    writer.write_mark(&from)?;
    writer.write_mark(&to)
}

/// The vector of a last reply, and its times.
#[tactic(auto, unfolding(adr_wire::specs::Optional::if_there_at))]
pub fn read_last(
    reader: &mut Reader<'_>,
    alloc: Global,
    version: u16,
) -> Result<Option<(Vector, Times)>, WireRefusal>
    ensures { Gives result reader.new (if_there_at (timed_at version) reader.old) }
{
    if !reader.read_flag()? {
        return Ok(None);
    }
    let told = reader.read_timed(alloc, version)?;
    Ok(Some(told))
}

pub fn write_last(
    writer: &mut Writer,
    version: u16,
    last: Option<&Vector>,
    times: &Times,
) -> Result<(), NoMemory>
    ensures { OnOk result (writer.new
        ≡ writer.old ++ if_there (timed version) (option_map (λ v. (v, times.now)) (option_copied last.entry))) }
{
    match last {
        None => writer.write_flag(&false),
        Some(vector) => {
            writer.write_flag(&true)?;
            writer.write_timed(version, vector, times)
        }
    }
}
