//! `serve`: the controller on a disk answers connections.

ghost use Rattle.std.specs.Prelude.{◌≡◌, IsSome};
ghost use Rattle.adr_law_controller.specs.Keeping.{KeepsLog};
ghost use Rattle.adr_node.specs.Seen.{of_disk};
ghost use Rattle.adr_online.specs.Goes.{CallsDoor, ServesSo};
ghost use Rattle.adr_online.specs.Serves.{Serves, ServesOn, online_of, unserved};

use crate::connecting::{called, serve_all};
use crate::ended::{Online, Stop};
use adr_call::Text;
use adr_controller::{Controller, Keeper};
use adr_disk::Disk;
use adr_io::Sink;
use adr_law_controller::logs_keep;
use adr_node::{Unbegun, begin};
use adr_outside::{Clock, Net};
use std::alloc::Global;

/// How a server ended.
fn ended(served: Result<(), Stop>) -> Online
    ensures { result ≡ online_of served }
{
    match served {
        Ok(()) => Online::Done,
        Err(Stop::Write) => Online::WriteFault,
        Err(Stop::Disk) => Online::DiskFault,
        Err(Stop::Link) => Online::LinkFault,
        Err(Stop::Clock) => Online::ClockFault,
        Err(Stop::NoMemory) => Online::NoMemory,
    }
}

/// Listens at a port.
fn listen<N: Net>(port: u16, net: &mut N) -> Result<(), Stop>
    ensures stays { N.traffic net.new ≡ N.traffic net.old }
    ensures calls { CallsDoor N.Net net.old net.new result }
{
    called(net.listen(port))
}

/// How a command ends that had no controller to begin with.
fn unserved(why: Unbegun) -> Online
    ensures { result ≡ unserved why }
{
    match why {
        Unbegun::Damaged { place } => Online::Damaged { place },
        Unbegun::WriteFault => Online::WriteFault,
        Unbegun::DiskFault => Online::DiskFault,
        Unbegun::NoMemory => Online::NoMemory,
    }
}

/// Listens at a port, and serves so many connections.
fn serve_up<K: Keeper, N: Net, C: Clock, S: Sink>(
    alloc: Global,
    port: u16,
    count: u32,
    controller: &mut Controller<K>,
    net: &mut N,
    clock: &mut C,
    sink: &mut S,
) -> Result<(), Stop>
    requires up { IsSome controller.old.state }
    requires log { KeepsLog K.Keeper }
    ensures { ServesSo K.Keeper N.Net C.Clock S.Sink count
        (record { controller = controller.old; net = net.old; clock = clock.old; sink = sink.old })
        (record { controller = controller.new; net = net.new; clock = clock.new; sink = sink.new }) result }
{
    let _ = controller.state();
    listen(port, net)?;
    serve_all(alloc, controller, count, net, clock, sink)
}

/// Listens at a port, and serves so many connections from a controller that was begun with. Its keeper comes back.
fn serve_from<K: Keeper, N: Net, C: Clock, S: Sink>(
    alloc: Global,
    port: u16,
    count: u32,
    mut controller: Controller<K>,
    net: &mut N,
    clock: &mut C,
    sink: &mut S,
) -> (Online, K)
    requires up { IsSome controller.state }
    requires log { KeepsLog K.Keeper }
    ensures { ServesOn K.Keeper N.Net C.Clock S.Sink count
        (record { controller = controller; net = net.old; clock = clock.old; sink = sink.old })
        result.1 net.new clock.new sink.new result.0 }
{
    let served = serve_up(alloc, port, count, &mut controller, net, clock, sink);
    let _ = controller.state();
    (ended(served), controller.into_keeper())
}

/// Starts the controller on the disk of this name, listens at a port of this machine, and serves so many connections, one
/// after the other. For each it writes a line. The disk is attached, and comes back. A fault of a connection's line ends
/// that connection alone; one of the disk or the clock ends the server.
pub fn serve<D: Disk, N: Net, C: Clock, S: Sink>(
    alloc: Global,
    name: &Text,
    port: u16,
    count: u32,
    disk: D,
    net: &mut N,
    clock: &mut C,
    sink: &mut S,
) -> (Online, D)
    ensures { Serves (of_disk D.Disk) N.Net C.Clock S.Sink count
        (record { disk = disk; net = net.old; clock = clock.old; sink = sink.old })
        (record { disk = result.1; net = net.new; clock = clock.new; sink = sink.new }) result.0 }
{
    logs_keep::<D>();
    match begin(alloc, name, disk, sink) {
        Ok(controller) => {
            let (ended, journal) = serve_from(alloc, port, count, controller, net, clock, sink);
            (ended, journal.into_disk())
        }
        Err((why, disk)) => (unserved(why), disk),
    }
}
