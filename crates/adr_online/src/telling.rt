//! The lines of a server.

ghost use Rattle.std.specs.Prelude.{◌≡◌, ◌<◌, ◌≤◌, IfErr, IfOk, IsErrOf, OnErr, OnOk, ◌⊎◌};
ghost use Rattle.adr_io.specs.Told.{Adds, AddsFront};
ghost use Rattle.adr_online.specs.Lines.{connection_line, end_word};

use crate::ended::Stop;
use adr_answers::push_number_behind;
use adr_io::{Fault, Sink};
use adr_session::{End, Served};
use adr_token::push;
use adr_values::NoMemory;
use std::alloc::Global;

/// The word for how a connection ended.
fn end_word(end: End) -> &'static [u8]
    ensures { result.now ≡ end_word end }
{
    match end {
        End::Hung => b"end".as_slice(),
        End::Malformed => b"malformed".as_slice(),
        End::Fault => b"fault".as_slice(),
        End::Limit => b"limit".as_slice(),
    }
}

/// The line of the connection of a number, from 1 on.
#[tactic(auto, unfolding(crate::specs::Lines::connection_line))]
fn connection_line(alloc: Global, number: u32, served: Served) -> Result<Vec<u8>, NoMemory>
    ensures { IfOk result (λ line. line.items ≡ connection_line number served.messages served.end) }
{
    let mut line = Vec::new(alloc);
    push_number_behind(&mut line, b"connection ", u64::from(number))?;
    push_number_behind(&mut line, b": ", u64::from(served.messages))?;
    push(&mut line, b" ")?;
    push(&mut line, end_word(served.end))?;
    push(&mut line, b"\n")?;
    Ok(line)
}

/// Writes the line of the connection of a number.
pub(crate) fn tell<S: Sink>(
    alloc: Global,
    number: u32,
    served: Served,
    sink: &mut S,
) -> Result<(), Stop>
    ensures told { OnOk result (Adds (S.written sink.old) (S.written sink.new) (connection_line number served.messages served.end)) }
    ensures front { OnErr result (AddsFront (S.written sink.old) (S.written sink.new)
        (connection_line number served.messages served.end)) }
    ensures only { IfErr result (λ stop. (stop ≡ Stop.Write) ⊎ (stop ≡ Stop.NoMemory)) }
    ensures unwritten { IsErrOf result Stop.NoMemory → S.written sink.new ≡ S.written sink.old }
    ensures never_falls { S.faults sink.old ≤ S.faults sink.new }
    ensures write { IsErrOf result Stop.Write → S.faults sink.old < S.faults sink.new }
    ensures write_ends { S.faults sink.old < S.faults sink.new → IsErrOf result Stop.Write }
{
    let Ok(line) = connection_line(alloc, number, served) else {
        return Err(Stop::NoMemory);
    };
    match sink.write(&line) {
        Ok(()) => Ok(()),
        Err(Fault::Failed) => Err(Stop::Write),
        Err(Fault::NoMemory) => Err(Stop::NoMemory),
    }
}
