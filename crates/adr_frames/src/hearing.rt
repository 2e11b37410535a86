//! From bytes to frames.

ghost use Rattle.std.specs.Prelude.{◌≡◌, ◌<◌, ◌≤◌, IfOk, IsErrOf, OnOk};
ghost use Rattle.adr_outside.specs.Calls.{CountsLine};
ghost use Rattle.adr_wire.specs.Reading.{Tells};
ghost use Rattle.adr_frames.specs.Frames.{IsFrameLength, length_at};
ghost use Rattle.adr_frames.specs.Hearing.{Hears, HearsBody, IfFrame, IsPartReceived};

use crate::receiving::receive_at_most;
use crate::saying::FRAME_LIMIT;
use adr_io::Fault;
use adr_outside::Net;
use adr_values::Failure;
use adr_wire::{Malformed, Reader, WireRefusal};
use std::alloc::Global;

/// What comes next in a connection.
#[derive(Drop)]
pub enum Heard {
    /// Nothing: the peer has ended it, behind a whole frame or before the first.
    Over,
    /// No whole frame. What stands behind can't be told.
    Broken,
    /// A frame's bytes, at least one: its kind, and what stands behind the kind.
    Frame(Vec<u8>),
}

/// Reads the length of a frame.
fn read_length(reader: &mut Reader<'_>) -> Result<u32, WireRefusal>
    ensures { Tells result reader.new (length_at reader.old) }
{
    let place = reader.place();
    let length = reader.read_u32()?;
    if length >= 1 && length <= FRAME_LIMIT {
        return Ok(length);
    }
    Err(Failure::Refused(Malformed { place }))
}

/// Receives so many bytes as a frame. Where the peer's end comes before, the connection is broken.
fn hear_body<N: Net>(alloc: Global, net: &mut N, wanted: usize) -> Result<Heard, Fault>
    ensures heard { IfOk result (λ heard. HearsBody wanted heard (N.traffic net.old) (N.traffic net.new)) }
    ensures exactly { IfOk result (λ heard. IfFrame heard (λ n. n ≡ wanted)) }
    ensures part { IsPartReceived (N.traffic net.old) (N.traffic net.new) }
    ensures counts { CountsLine N.Net net.old net.new result }
{
    let bytes = receive_at_most(alloc, net, wanted)?;
    if bytes.len() < wanted {
        return Ok(Heard::Broken);
    }
    Ok(Heard::Frame(bytes))
}

/// Receives the next frame of the open connection. Where the connection is broken or a fault comes, a part of it may
/// have been received.
pub fn hear<N: Net>(alloc: Global, net: &mut N) -> Result<Heard, Fault>
    ensures heard { IfOk result (λ heard. Hears heard (N.traffic net.old) (N.traffic net.new)) }
    ensures limit { IfOk result (λ heard. IfFrame heard IsFrameLength) }
    ensures part { IsPartReceived (N.traffic net.old) (N.traffic net.new) }
    ensures counts { CountsLine N.Net net.old net.new result }
{
    let head = receive_at_most(alloc, net, 4)?;
    if head.is_empty() {
        return Ok(Heard::Over);
    }
    let mut reader = Reader::new(&head);
    let length = match read_length(&mut reader) {
        Ok(length) => length,
        Err(_) => return Ok(Heard::Broken),
    };
    hear_body(alloc, net, length as usize)
}
