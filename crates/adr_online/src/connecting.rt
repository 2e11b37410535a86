//! One connection after the other.

ghost use Rattle.std.specs.Prelude.{◌≡◌, IfSome, IsSome, OnOk};
ghost use Rattle.adr_outside.specs.Traffic.{Opens};
ghost use Rattle.adr_law_controller.specs.Keeping.{KeepsLog};
ghost use Rattle.adr_online.specs.Served.{called, stopped};
ghost use Rattle.adr_online.specs.Goes.{Answers, CallsDoor, ServesOne, ServesSo};

use crate::ended::Stop;
use crate::telling::tell;
use adr_io::{Fault, Sink};
use adr_outside::{Clock, Net};
use adr_session::{Controller, Keeper, ServeFault, Served, serve_one};
use std::alloc::Global;

/// What a call of a door comes to.
pub(crate) fn called(door: Result<(), Fault>) -> Result<(), Stop>
    ensures { result ≡ called door }
{
    match door {
        Ok(()) => Ok(()),
        Err(Fault::Failed) => Err(Stop::Link),
        Err(Fault::NoMemory) => Err(Stop::NoMemory),
    }
}

/// Opens the next connection.
fn accept<N: Net>(net: &mut N) -> Result<(), Stop>
    ensures opens { OnOk result (IfSome (N.traffic net.old) (λ before. Opens before (N.traffic net.new))) }
    ensures calls { CallsDoor N.Net net.old net.new result }
{
    called(net.accept())
}

/// How a connection ended that was hung up, or why the server stops.
fn stopped(served: Result<Served, ServeFault>) -> Result<Served, Stop>
    ensures { result ≡ stopped served }
{
    match served {
        Ok(served) => Ok(served),
        Err(ServeFault::Disk) => Err(Stop::Disk),
        Err(ServeFault::Clock) => Err(Stop::Clock),
        Err(ServeFault::NoMemory) => Err(Stop::NoMemory),
    }
}

/// Answers the messages of the open connection until it ends, and hangs it up.
fn answer_all<K: Keeper, N: Net, C: Clock>(
    alloc: Global,
    controller: &mut Controller<K>,
    net: &mut N,
    clock: &mut C,
) -> Result<Served, Stop>
    requires up { IsSome controller.old.state }
    requires log { KeepsLog K.Keeper }
    ensures { Answers K.Keeper N.Net C.Clock controller.old controller.new net.old net.new clock.old clock.new result }
{
    let served = serve_one(alloc, controller, net, clock);
    net.hang_up();
    stopped(served)
}

/// Accepts the connection of this number, answers its messages, hangs it up, and writes its line.
fn serve_next<K: Keeper, N: Net, C: Clock, S: Sink>(
    alloc: Global,
    controller: &mut Controller<K>,
    number: u32,
    net: &mut N,
    clock: &mut C,
    sink: &mut S,
) -> Result<(), Stop>
    requires up { IsSome controller.old.state }
    requires log { KeepsLog K.Keeper }
    ensures { ServesOne K.Keeper N.Net C.Clock S.Sink number
        (record { controller = controller.old; net = net.old; clock = clock.old; sink = sink.old })
        (record { controller = controller.new; net = net.new; clock = clock.new; sink = sink.new }) result }
{
    let _ = controller.state();
    accept(net)?;
    let served = answer_all(alloc, controller, net, clock)?;
    tell(alloc, number, served, sink)
}

/// Serves so many connections, one after the other.
pub(crate) fn serve_all<K: Keeper, N: Net, C: Clock, S: Sink>(
    alloc: Global,
    controller: &mut Controller<K>,
    count: u32,
    net: &mut N,
    clock: &mut C,
    sink: &mut S,
) -> Result<(), Stop>
    requires up { IsSome controller.old.state }
    requires log { KeepsLog K.Keeper }
    ensures { ServesSo K.Keeper N.Net C.Clock S.Sink count
        (record { controller = controller.old; net = net.old; clock = clock.old; sink = sink.old })
        (record { controller = controller.new; net = net.new; clock = clock.new; sink = sink.new }) result }
{
    let _ = controller.state();
    for done in 0..count {
        serve_next(alloc, controller, done + 1, net, clock, sink)?;
    }
    Ok(())
}
