//! Answers, written.

ghost use Rattle.std.specs.Prelude.{◌≡◌, ◌<◌, ◌≤◌, All, OnErr, OnOk, IsErrOf, flat_map, vec_capacity};
ghost use Rattle.adr_io.specs.Told.{Adds, AddsFront};
ghost use Rattle.adr_answers.specs.Line.{line};
ghost use Rattle.adr_answers.specs.Room.{IsWithin, MayWant};
ghost use Rattle.adr_answers.specs.Whole.{AddsFirstLines};

use crate::lines::push_line;
use adr_call::Answer;
use adr_io::{Fault, Sink};

/// Writes the lines of answers, one write each, and makes each in this room. Where memory is wanting, no line is written in
/// part. Where the room is enough for each line, and none is a report's, memory can be wanting in the sink alone.
pub fn tell<K: Sink>(room: &mut Vec<u8>, answers: &[Answer], sink: &mut K) -> Result<(), Fault>
    ensures told { OnOk result (Adds (K.written sink.old) (K.written sink.new) (flat_map line answers.now)) }
    ensures front { OnErr result (AddsFront (K.written sink.old) (K.written sink.new) (flat_map line answers.now)) }
    ensures short { IsErrOf result Fault.NoMemory → AddsFirstLines (K.written sink.old) (K.written sink.new) answers.now }
    ensures within { All (IsWithin (vec_capacity room.old)) answers.now → IsErrOf result Fault.NoMemory → MayWant K.keeps (K.faults sink.old) }
    ensures never_falls { K.faults sink.old ≤ K.faults sink.new }
    ensures failed { IsErrOf result Fault.Failed → K.faults sink.old < K.faults sink.new }
    ensures not_counted { OnOk result (K.faults sink.new ≡ K.faults sink.old) }
{
    for answer in answers {
        room.clear();
        push_line(room, answer)?;
        sink.write(room.as_slice())?;
    }
    Ok(())
}
