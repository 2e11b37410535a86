//! The commands over a network.

ghost use Rattle.std.specs.Prelude.{◌≡◌, ◌⊎◌, ◌<◌, ◌≤◌};
ghost use Rattle.adr_cmd.specs.Online.{PullsSo, SendsSo, ServesSo, status_of_pull, status_of_send, status_of_server};

use adr_call::Text;
use adr_disk::Disk;
use adr_io::{Sink, Source};
use adr_online::{Online, Pulled, Sent, pull, send, serve};
use adr_outside::{Clock, Net};
use std::alloc::Global;

/// The status of a server.
fn served(how: Online) -> u8
    ensures status { result ≡ status_of_server how }
    ensures write { result ≡ 5 → how ≡ Online.WriteFault }
    ensures disk { result ≡ 6 → how ≡ Online.DiskFault }
    ensures link { result ≡ 7 → how ≡ Online.LinkFault }
    ensures clock { result ≡ 12 → how ≡ Online.ClockFault }
    ensures others { (result ≡ 2) ⊎ ((result ≡ 4) ⊎ (result ≡ 13)) → ⊥ }
{
    match how {
        Online::Done => 0,
        Online::WriteFault => 5,
        Online::DiskFault => 6,
        Online::LinkFault => 7,
        Online::NoMemory => 8,
        Online::Damaged { .. } => 10,
        Online::ClockFault => 12,
    }
}

/// The status of a pull.
fn pulled(how: Pulled) -> u8
    ensures status { result ≡ status_of_pull how }
    ensures write { result ≡ 5 → how ≡ Pulled.WriteFault }
    ensures disk { result ≡ 6 → how ≡ Pulled.DiskFault }
    ensures link { result ≡ 7 → how ≡ Pulled.LinkFault }
    ensures others { (result ≡ 2) ⊎ ((result ≡ 4) ⊎ ((result ≡ 12) ⊎ (result ≡ 13))) → ⊥ }
{
    match how {
        Pulled::Done => 0,
        Pulled::WriteFault => 5,
        Pulled::DiskFault => 6,
        Pulled::LinkFault => 7,
        Pulled::NoMemory => 8,
        Pulled::Refused => 9,
        Pulled::Damaged { .. } => 10,
        Pulled::MoreWaiting => 11,
        Pulled::BadPeer => 14,
    }
}

/// The status of a client's lines.
fn sent(how: Sent) -> u8
    ensures status { result ≡ status_of_send how }
    ensures read { result ≡ 4 → how ≡ Sent.ReadFault }
    ensures write { result ≡ 5 → how ≡ Sent.WriteFault }
    ensures link { result ≡ 7 → how ≡ Sent.LinkFault }
    ensures others { (result ≡ 2) ⊎ ((result ≡ 6) ⊎ ((result ≡ 12) ⊎ (result ≡ 13))) → ⊥ }
{
    match how {
        Sent::Done => 0,
        Sent::BadText => 3,
        Sent::ReadFault => 4,
        Sent::WriteFault => 5,
        Sent::LinkFault => 7,
        Sent::NoMemory => 8,
        Sent::Refused => 9,
        Sent::BadPeer => 14,
    }
}

/// Serves so many connections at a port from the controller on the disk of this name, and answers the status. The disk
/// comes back.
pub(crate) fn serve_at<D: Disk, N: Net, C: Clock, K: Sink>(
    alloc: Global,
    name: &Text,
    port: u16,
    count: u32,
    disk: D,
    net: &mut N,
    clock: &mut C,
    sink: &mut K,
) -> (u8, D)
    ensures serves { ServesSo D.Disk N.Net C.Clock K.Sink count
        (record { disk = disk; net = net.old; clock = clock.old; sink = sink.old })
        (record { disk = result.1; net = net.new; clock = clock.new; sink = sink.new }) result.0 }
    ensures write_fault { result.0 ≡ 5 → K.faults sink.old < K.faults sink.new }
    ensures disk_fault { result.0 ≡ 6 → D.faults disk < D.faults result.1 }
    ensures link_fault { result.0 ≡ 7 → N.doors net.old < N.doors net.new }
    ensures clock_fault { result.0 ≡ 12 → C.faults clock.old < C.faults clock.new }
    ensures others { (result.0 ≡ 2) ⊎ ((result.0 ≡ 4) ⊎ (result.0 ≡ 13)) → ⊥ }
    ensures sink_faults { K.faults sink.old ≤ K.faults sink.new }
    ensures disk_faults { D.faults disk ≤ D.faults result.1 }
    ensures net_doors { N.doors net.old ≤ N.doors net.new }
    ensures net_lines { N.lines net.old ≤ N.lines net.new }
    ensures clock_faults { C.faults clock.old ≤ C.faults clock.new }
{
    let (how, disk) = serve(alloc, name, port, count, disk, net, clock, sink);
    (served(how), disk)
}

/// Has the controller on the disk of this name pull a cycle from the node at a port, and answers the status. The disk comes
/// back.
pub(crate) fn pull_from<D: Disk, N: Net, K: Sink>(
    alloc: Global,
    name: &Text,
    port: u16,
    disk: D,
    net: &mut N,
    sink: &mut K,
) -> (u8, D)
    ensures pulls { PullsSo D.Disk N.Net K.Sink name.now
        (record { disk = disk; net = net.old; sink = sink.old })
        (record { disk = result.1; net = net.new; sink = sink.new }) result.0 }
    ensures write_fault { result.0 ≡ 5 → K.faults sink.old < K.faults sink.new }
    ensures disk_fault { result.0 ≡ 6 → D.faults disk < D.faults result.1 }
    ensures link_fault { result.0 ≡ 7 → (N.doors net.old < N.doors net.new) ⊎ (N.lines net.old < N.lines net.new) }
    ensures others { (result.0 ≡ 2) ⊎ ((result.0 ≡ 4) ⊎ ((result.0 ≡ 12) ⊎ (result.0 ≡ 13))) → ⊥ }
    ensures sink_faults { K.faults sink.old ≤ K.faults sink.new }
    ensures disk_faults { D.faults disk ≤ D.faults result.1 }
    ensures net_doors { N.doors net.old ≤ N.doors net.new }
    ensures net_lines { N.lines net.old ≤ N.lines net.new }
{
    let (how, disk) = pull(alloc, name, port, disk, net, sink);
    (pulled(how), disk)
}

/// Sends the lines that are read to the node at a port, and answers the status.
pub(crate) fn send_to<S: Source, N: Net, K: Sink>(
    alloc: Global,
    port: u16,
    source: &mut S,
    net: &mut N,
    sink: &mut K,
) -> u8
    ensures sends { SendsSo S.Source N.Net K.Sink source.old source.new net.old net.new sink.old sink.new result }
    ensures read_fault { result ≡ 4 → S.faults source.old < S.faults source.new }
    ensures unwritten { result ≡ 4 → sink.new ≡ sink.old }
    ensures write_fault { result ≡ 5 → K.faults sink.old < K.faults sink.new }
    ensures link_fault { result ≡ 7 → (N.doors net.old < N.doors net.new) ⊎ (N.lines net.old < N.lines net.new) }
    ensures others { (result ≡ 2) ⊎ ((result ≡ 6) ⊎ ((result ≡ 12) ⊎ (result ≡ 13))) → ⊥ }
    ensures source_faults { S.faults source.old ≤ S.faults source.new }
    ensures sink_faults { K.faults sink.old ≤ K.faults sink.new }
    ensures net_doors { N.doors net.old ≤ N.doors net.new }
    ensures net_lines { N.lines net.old ≤ N.lines net.new }
{
    sent(send(alloc, port, source, net, sink))
}
