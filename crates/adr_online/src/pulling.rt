//! `pull`: the controller on a disk takes what a partner has and it lacks.

ghost use Rattle.std.specs.Prelude.{◌≡◌, ◌⊎◌, ◌↔◌, ◌<◌, ◌≤◌, IfSome, IsSome};
ghost use Rattle.adr_disk.specs.Disk.{LeavesOnly};
ghost use Rattle.adr_model.specs.Store.{State as Defined};
ghost use Rattle.adr_law_journal.specs.Areas.{Found};
ghost use Rattle.adr_controller.specs.Running.{IsInOrder};
ghost use Rattle.adr_law_controller.specs.Keeping.{KeepsLog, Stands};
ghost use Rattle.adr_pull.specs.Told.{HasFallen};
ghost use Rattle.adr_node.specs.Seen.{of_disk};
ghost use Rattle.adr_online.specs.Dialled.{IsAt, Post, outside_of};
ghost use Rattle.adr_online.specs.Pulls.{FindsPulled, Pulls, PullsFrom, PullsOn, as_pulled, unpulled};

use crate::dialling::{Unconnected, connect};
use crate::ended::Pulled;
use adr_call::Text;
use adr_controller::{Controller, Keeper};
use adr_disk::Disk;
use adr_io::Sink;
use adr_law_controller::logs_keep;
use adr_node::{Unbegun, begin};
use adr_outside::Net;
use adr_pull::PullFault;
use std::alloc::Global;

/// How a cycle ended.
fn ended(pulled: Result<(), PullFault>) -> Pulled
    ensures { result ≡ as_pulled pulled }
{
    match pulled {
        Ok(()) => Pulled::Done,
        Err(PullFault::Write) => Pulled::WriteFault,
        Err(PullFault::Disk) => Pulled::DiskFault,
        Err(PullFault::Link) => Pulled::LinkFault,
        Err(PullFault::NoMemory) => Pulled::NoMemory,
        Err(PullFault::Refused) => Pulled::Refused,
        Err(PullFault::MoreWaiting) => Pulled::MoreWaiting,
        Err(PullFault::BadPeer) => Pulled::BadPeer,
    }
}

/// How a command ends that had no controller to begin with.
fn unpulled(why: Unbegun) -> Pulled
    ensures { result ≡ unpulled why }
{
    match why {
        Unbegun::Damaged { place } => Pulled::Damaged { place },
        Unbegun::WriteFault => Pulled::WriteFault,
        Unbegun::DiskFault => Pulled::DiskFault,
        Unbegun::NoMemory => Pulled::NoMemory,
    }
}

/// Connects to a port, pulls a cycle, and hangs up.
fn pull_up<K: Keeper, N: Net, S: Sink>(
    alloc: Global,
    name: &Text,
    port: u16,
    controller: &mut Controller<K>,
    net: &mut N,
    sink: &mut S,
) -> Pulled
    requires up { IsSome controller.old.state }
    requires log { KeepsLog K.Keeper }
    ensures pulls { (f : Found Defined) (p : Post) → Stands K.Keeper f controller.old
        → IsAt p (outside_of N.Net S.Sink net.old sink.old)
        → PullsFrom (λ g. Stands K.Keeper g controller.new)
        (λ a b. HasFallen K.Keeper a.stands.state b.stands.state controller.new) name.now f p result
        (outside_of N.Net S.Sink net.new sink.new) }
    ensures any_moment { (f : Found Defined) (p : Post) → Stands K.Keeper f controller.old
        → IsAt p (outside_of N.Net S.Sink net.old sink.old)
        → IfSome (K.told controller.old.keeper) (λ _.
        LeavesOnly K.moment K.left_since controller.old.keeper controller.new.keeper
        (λ s. K.may_leave controller.old.keeper s ⊎ FindsPulled name.now f p s)) }
    ensures in_order { IsInOrder K.Keeper controller.new }
    ensures told { IsSome (K.told controller.new.keeper) ↔ IsSome (K.told controller.old.keeper) }
    ensures write { result ≡ Pulled.WriteFault → S.faults sink.old < S.faults sink.new }
    ensures disk { result ≡ Pulled.DiskFault → K.faults controller.old.keeper < K.faults controller.new.keeper }
    ensures link { result ≡ Pulled.LinkFault
        → (N.doors net.old < N.doors net.new) ⊎ (N.lines net.old < N.lines net.new) }
    ensures sink_never_falls { S.faults sink.old ≤ S.faults sink.new }
    ensures disk_never_falls { K.faults controller.old.keeper ≤ K.faults controller.new.keeper }
    ensures doors_never_fall { N.doors net.old ≤ N.doors net.new }
    ensures lines_never_fall { N.lines net.old ≤ N.lines net.new }
    ensures doors_only { (result ≡ Pulled.LinkFault → ⊥) → N.doors net.new ≡ N.doors net.old }
    ensures lines_only { (result ≡ Pulled.LinkFault → ⊥) → N.lines net.new ≡ N.lines net.old }
{
    let _ = controller.state();
    match connect(port, net) {
        Ok(()) => {}
        Err(Unconnected::Link) => return Pulled::LinkFault,
        Err(Unconnected::NoMemory) => return Pulled::NoMemory,
    }
    let pulled = adr_pull::pull(alloc, controller, name, net, sink);
    net.hang_up();
    let _ = controller.state();
    ended(pulled)
}

/// Connects to a port, pulls a cycle into a controller that was begun with, and hangs up. Its keeper comes back.
fn pull_into<K: Keeper, N: Net, S: Sink>(
    alloc: Global,
    name: &Text,
    port: u16,
    mut controller: Controller<K>,
    net: &mut N,
    sink: &mut S,
) -> (Pulled, K)
    requires up { IsSome controller.state }
    requires log { KeepsLog K.Keeper }
    ensures { PullsOn K.Keeper N.Net S.Sink name.now controller result.1 net.old net.new sink.old sink.new result.0 }
{
    let ended = pull_up(alloc, name, port, &mut controller, net, sink);
    (ended, controller.into_keeper())
}

/// Starts the controller on the disk of this name, connects to a port of this machine, and takes a cycle of the node there:
/// it sends requests for at most 1,000 items each and takes the replies, at most 1,000,000, until one is the last. For each
/// it writes the line of a delivery. The disk is attached, and comes back.
pub fn pull<D: Disk, N: Net, S: Sink>(
    alloc: Global,
    name: &Text,
    port: u16,
    disk: D,
    net: &mut N,
    sink: &mut S,
) -> (Pulled, D)
    ensures { Pulls (of_disk D.Disk) N.Net S.Sink name.now
        (record { disk = disk; net = net.old; sink = sink.old })
        (record { disk = result.1; net = net.new; sink = sink.new }) result.0 }
{
    logs_keep::<D>();
    match begin(alloc, name, disk, sink) {
        Ok(controller) => {
            let (ended, journal) = pull_into(alloc, name, port, controller, net, sink);
            (ended, journal.into_disk())
        }
        Err((why, disk)) => (unpulled(why), disk),
    }
}
