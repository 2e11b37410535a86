//! `send`: a client's lines are sent to a node.

ghost use Rattle.std.specs.Prelude.{◌≡◌, ◌⊎◌, ◌<◌, ◌≤◌};
ghost use Rattle.adr_pull.specs.Sending.{spoken};
ghost use Rattle.adr_online.specs.Dialled.{IsAt, Post, outside_of};
ghost use Rattle.adr_online.specs.Sends.{Sends, SendsFrom, SendsText, TellsFault, ended};

use crate::checking::fault_in;
use crate::dialling::{Unconnected, connect};
use crate::ended::Sent;
use adr_io::{Fault, Sink, Source, read_at_most};
use adr_outside::Net;
use adr_pull::SendFault;
use adr_schedule::{ScheduleFault, TEXT_LIMIT, fault_line};
use std::alloc::Global;

/// How the lines were sent.
fn ended(sent: Result<bool, SendFault>) -> Sent
    ensures { result ≡ ended sent }
{
    match sent {
        Ok(true) => Sent::Done,
        Ok(false) => Sent::Refused,
        Err(SendFault::Write) => Sent::WriteFault,
        Err(SendFault::Link) => Sent::LinkFault,
        Err(SendFault::NoMemory) => Sent::NoMemory,
        Err(SendFault::BadPeer) => Sent::BadPeer,
    }
}

/// Writes the line of a text's fault.
fn tell_fault<K: Sink>(alloc: Global, fault: ScheduleFault, sink: &mut K) -> Sent
    ensures tells { TellsFault K.Sink fault sink.old sink.new result }
    ensures write_fault { result ≡ Sent.WriteFault → K.faults sink.old < K.faults sink.new }
    ensures sink_later { K.faults sink.old ≤ K.faults sink.new }
{
    let Ok(line) = fault_line(alloc, fault) else {
        return Sent::NoMemory;
    };
    match sink.write(&line) {
        Ok(()) => Sent::BadText,
        Err(Fault::Failed) => Sent::WriteFault,
        Err(Fault::NoMemory) => Sent::NoMemory,
    }
}

/// Connects to a port, sends the lines of a text and writes their answers, and hangs up.
fn send_lines<N: Net, K: Sink>(
    alloc: Global,
    port: u16,
    text: &[u8],
    net: &mut N,
    sink: &mut K,
) -> Sent
    ensures sends { (p : Post) → IsAt p (outside_of N.Net K.Sink net.old sink.old)
        → SendsFrom p (spoken text.now) result (outside_of N.Net K.Sink net.new sink.new) }
    ensures text { result ≡ Sent.BadText → ⊥ }
    ensures read { result ≡ Sent.ReadFault → ⊥ }
    ensures write_fault { result ≡ Sent.WriteFault → K.faults sink.old < K.faults sink.new }
    ensures link_fault { result ≡ Sent.LinkFault → (N.doors net.old < N.doors net.new) ⊎ (N.lines net.old < N.lines net.new) }
    ensures sink_later { K.faults sink.old ≤ K.faults sink.new }
    ensures doors_later { N.doors net.old ≤ N.doors net.new }
    ensures lines_later { N.lines net.old ≤ N.lines net.new }
    ensures doors_only { (result ≡ Sent.LinkFault → ⊥) → N.doors net.new ≡ N.doors net.old }
    ensures lines_only { (result ≡ Sent.LinkFault → ⊥) → N.lines net.new ≡ N.lines net.old }
{
    match connect(port, net) {
        Ok(()) => {}
        Err(Unconnected::Link) => return Sent::LinkFault,
        Err(Unconnected::NoMemory) => return Sent::NoMemory,
    }
    let sent = adr_pull::send(alloc, text, net, sink);
    net.hang_up();
    ended(sent)
}

/// Sends a text, or tells its fault.
fn send_text<N: Net, K: Sink>(
    alloc: Global,
    port: u16,
    text: &[u8],
    net: &mut N,
    sink: &mut K,
) -> Sent
    ensures { SendsText N.Net K.Sink text.now net.old net.new sink.old sink.new result }
{
    match fault_in(alloc, text) {
        Ok(None) => send_lines(alloc, port, text, net, sink),
        Ok(Some(fault)) => tell_fault(alloc, fault, sink),
        Err(_) => Sent::NoMemory,
    }
}

/// Sends each line that is read to the node at a port of this machine, one after the other, and writes each answer as a
/// line. All lines are looked at before a connection is made. A line that is refused doesn't end it.
pub fn send<S: Source, N: Net, K: Sink>(
    alloc: Global,
    port: u16,
    source: &mut S,
    net: &mut N,
    sink: &mut K,
) -> Sent
    ensures { Sends S.Source N.Net K.Sink source.old source.new net.old net.new sink.old sink.new result }
{
    match read_at_most(alloc, source, TEXT_LIMIT + 1) {
        Ok(text) => send_text(alloc, port, &text, net, sink),
        Err(Fault::Failed) => Sent::ReadFault,
        Err(Fault::NoMemory) => Sent::NoMemory,
    }
}
