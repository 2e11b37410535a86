//! A client's lines, sent over a connection.

ghost use Rattle.std.specs.Prelude.{◌≡◌, ◌&&◌, ◌++◌, ◌∷◌, ◌⊎◌, ◌<◌, ◌≤◌, true, false, IfErr, IfSome, IsErrOf, Ok, OnErr, OnOk, codes};
ghost use Rattle.adr_io.specs.Told.{Adds, AddsFront};
ghost use Rattle.adr_outside.specs.Traffic.{Traffic};
ghost use Rattle.adr_schedule.specs.Commands.{is_passed as defined};
ghost use Rattle.adr_pull.specs.Counted.{CountsSent};
ghost use Rattle.adr_pull.specs.Sending.{IsAt, Place, Said, Sends, TakesLine, exchange as exchanged, spoken};
ghost use Rattle.adr_pull.specs.Told.{HasDone};

use crate::answering::answer_in;
use crate::exchanging::exchange;
use crate::fault::SendFault;
use adr_frames::{LINE, framed};
use adr_io::{Fault, Sink};
use adr_outside::Net;
use adr_schedule::{first_line, is_passed};
use std::alloc::Global;

/// Sends a line as a frame, and hears the one that is due.
fn say_line<N: Net>(alloc: Global, line: &[u8], net: &mut N) -> Result<Vec<u8>, SendFault>
    ensures said { IfSome (N.traffic net.old) (λ t.
        Said (λ v. v.items) t (4 ∷ line.now) result (N.traffic net.new)) }
    ensures never_falls { N.lines net.old ≤ N.lines net.new }
    ensures link { IsErrOf result SendFault.Link → N.lines net.old < N.lines net.new }
    ensures no_other { (IsErrOf result SendFault.Link → ⊥) → N.lines net.new ≡ N.lines net.old }
    ensures not_write { IsErrOf result SendFault.Write → ⊥ }
    ensures doors { N.doors net.new ≡ N.doors net.old }
{
    let message = framed(alloc, LINE, line)?;
    match exchange(alloc, net, &message) {
        Ok(Some(bytes)) => Ok(bytes),
        Ok(None) => Err(SendFault::BadPeer),
        Err(Fault::Failed) => Err(SendFault::Link),
        Err(Fault::NoMemory) => Err(SendFault::NoMemory),
    }
}

/// Writes an answer as a line.
fn tell<S: Sink>(alloc: Global, answer: &[u8], sink: &mut S) -> Result<(), SendFault>
    ensures told { OnOk result (Adds (S.written sink.old) (S.written sink.new) (answer.now ++ codes "\n")) }
    ensures front { OnErr result (AddsFront (S.written sink.old) (S.written sink.new) (answer.now ++ codes "\n")) }
    ensures only { IfErr result (λ fault. (fault ≡ SendFault.Write) ⊎ (fault ≡ SendFault.NoMemory)) }
    ensures never_falls { S.faults sink.old ≤ S.faults sink.new }
    ensures write { IsErrOf result SendFault.Write → S.faults sink.old < S.faults sink.new }
{
    let mut line = Vec::from_slice(alloc, answer)?;
    line.extend_from_slice(b"\n")?;
    match sink.write(&line) {
        Ok(()) => Ok(()),
        Err(Fault::Failed) => Err(SendFault::Write),
        Err(Fault::NoMemory) => Err(SendFault::NoMemory),
    }
}

/// Sends a line, and writes its answer as a line. Whether it was accepted.
fn take_line<N: Net, S: Sink>(
    alloc: Global,
    line: &[u8],
    net: &mut N,
    sink: &mut S,
) -> Result<bool, SendFault>
    ensures takes { (t : Traffic) (p : Place) → IsAt t p (N.traffic net.old) (S.written sink.old)
        → TakesLine t p (exchanged line.now p) result (N.traffic net.new) (S.written sink.new) }
    ensures counts { CountsSent N.Net S.Sink net.old net.new sink.old sink.new result }
{
    let bytes = say_line(alloc, line, net)?;
    let Some((answer, accepted)) = answer_in(line, &bytes) else {
        return Err(SendFault::BadPeer);
    };
    tell(alloc, answer, sink)?;
    Ok(accepted)
}

/// Takes a line that says something. One that says nothing counts as accepted.
fn take_if_said<N: Net, S: Sink>(
    alloc: Global,
    line: &[u8],
    net: &mut N,
    sink: &mut S,
) -> Result<bool, SendFault>
    ensures passed { defined line.now ≡ true
        → (result ≡ Ok true) × (N.traffic net.new ≡ N.traffic net.old) × (S.written sink.new ≡ S.written sink.old) }
    ensures takes { defined line.now ≡ false → (t : Traffic) (p : Place) → IsAt t p (N.traffic net.old) (S.written sink.old)
        → TakesLine t p (exchanged line.now p) result (N.traffic net.new) (S.written sink.new) }
    ensures counts { CountsSent N.Net S.Sink net.old net.new sink.old sink.new result }
{
    if is_passed(line) {
        return Ok(true);
    }
    take_line(alloc, line, net, sink)
}

fn both(one: bool, other: bool) -> bool
    ensures { result ≡ (one && other) }
{
    one && other
}

/// Sends each line of a text that says something over the open connection, one after the other, and writes each answer as a
/// line. Whether all were accepted; a line that is refused doesn't end it. It doesn't hang up.
pub fn send<N: Net, S: Sink>(
    alloc: Global,
    text: &[u8],
    net: &mut N,
    sink: &mut S,
) -> Result<bool, SendFault>
    // From wherever connection and lines stand, as far as they tell it.
    ensures sends { (t : Traffic) (p : Place) → p.accepted ≡ true → IsAt t p (N.traffic net.old) (S.written sink.old)
        → Sends (λ q. IsAt t q (N.traffic net.new) (S.written sink.new)) (HasDone t (N.traffic net.new) (S.written sink.new)) p
        (spoken text.now) result }

    // Each fault of the outside comes where its count rose, and no count falls.
    ensures counts { CountsSent N.Net S.Sink net.old net.new sink.old sink.new result }
{
    let mut rest = text;
    let mut all = true;
    'lines: while rest.len() > 0 {
        let (line, after) = first_line(rest);
        let accepted = take_if_said(alloc, line, net, sink)?;
        all = both(all, accepted);
        rest = after;
    }
    Ok(all)
}
