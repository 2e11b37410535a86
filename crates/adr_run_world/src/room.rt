//! Room for the lines of answers. It is made before a turn does anything, so that no line wants memory behind what was done.

ghost use Rattle.std.specs.Prelude.{◌≡◌, ◌+◌, ◌≤◌, OnOk, IfOk, length, vec_len, vec_capacity};
ghost use Rattle.adr_run_world.specs.Room.{names_room, parties_room, room_beside};

use adr_answers::name_of;
use adr_call::{Event, Exchange};
use adr_values::{NoMemory, Text};
use std::alloc::Global;

/// The most bytes of an answer's line beside a name, where the answer is no report.
const ROOM_BESIDE: usize = 450;

fn push_name(out: &mut Vec<u8>, name: &Text) -> Result<(), NoMemory>
    ensures { OnOk result (vec_len out.new ≡ vec_len out.old + length name.now) }
{
    out.extend_from_slice(name.items())?;
    Ok(())
}

fn push_both(out: &mut Vec<u8>, dest: &Text, source: &Text) -> Result<(), NoMemory>
    ensures { OnOk result (vec_len out.new ≡ vec_len out.old + (length dest.now + length source.now)) }
{
    push_name(out, dest)?;
    push_name(out, source)
}

/// Adds the names that the answers to pulls may have.
fn push_parties(out: &mut Vec<u8>, name: &Text, what: &Exchange) -> Result<(), NoMemory>
    ensures { OnOk result (vec_len out.new ≡ vec_len out.old + parties_room name.now what.now) }
{
    match what {
        Exchange::Pull { source, .. } => push_both(out, name, source),
        Exchange::Cycle { source, .. } => push_both(out, name, source),
        Exchange::Ring { .. } => Ok(()),
    }
}

/// Adds the names that the answers to a line may have.
fn push_names(out: &mut Vec<u8>, event: &Event) -> Result<(), NoMemory>
    ensures { OnOk result (vec_len out.new ≡ vec_len out.old + names_room event.now) }
{
    match event {
        Event::Time { .. } => Ok(()),
        Event::Goes { name, what } => push_parties(out, name, what),
        _ => push_name(out, name_of(event)),
    }
}

/// Room for the line of each answer, but for reports and the answer of a ring. The names that answers may have stand in it.
pub fn room_for(alloc: Global, event: &Event) -> Result<Vec<u8>, NoMemory>
    ensures { IfOk result (λ room. names_room event.now + room_beside ≤ vec_capacity room) }
{
    let mut room = Vec::new(alloc);
    push_names(&mut room, event)?;
    room.reserve(ROOM_BESIDE)?;
    Ok(room)
}
