//! A connection is served.

ghost use Rattle.std.specs.Prelude.{◌≡◌, ◌⊎◌, ◌<◌, ◌≤◌, IfOk, IfSome, IsErrOf, IsSome};
ghost use Rattle.adr_disk.specs.Disk.{LeavesOnly};
ghost use Rattle.adr_outside.specs.Traffic.{Traffic};
ghost use Rattle.adr_session.specs.Talk.{Point};
ghost use Rattle.adr_law_controller.specs.Keeping.{KeepsLog};
ghost use Rattle.adr_session.specs.Told.{EndsByFault, FindsBehind, IsAt, LeavesBehind, Serves};

use crate::ending::{End, ServeFault, Served};
use crate::turning::take_turn;
use adr_controller::{Controller, Keeper};
use adr_outside::{Clock, Net};
use std::alloc::Global;

/// The most messages of a connection.
const MESSAGE_LIMIT: u32 = 1_000_000;

/// Answers the messages of the open connection, one after the other, until it ends, and doesn't hang it up. A message
/// that met a fault of the disk or of the clock isn't answered. Behind such a fault, and where memory is wanting, the
/// connection is to be hung up.
pub fn serve_one<K: Keeper, N: Net, C: Clock>(
    alloc: Global,
    controller: &mut Controller<K>,
    net: &mut N,
    clock: &mut C,
) -> Result<Served, ServeFault>
    requires up { IsSome controller.old.state }
    requires log { KeepsLog K.Keeper }

    // The next connection may be served.
    ensures up { IfOk result (λ _. IsSome controller.new.state) }

    // From wherever node, connection and clock stand, as far as they tell it.
    ensures serves { (t : Traffic) (p : Point)
        → IsAt K.Keeper t p controller.old (N.traffic net.old) (C.moments clock.old)
        → Serves K.Keeper t p result controller.new (N.traffic net.new) (C.moments clock.new) }

    // A start finds the node behind some of the messages, whenever a crash comes, and behind all that were answered
    // from then on.
    ensures any_moment { (t : Traffic) (p : Point)
        → IsAt K.Keeper t p controller.old (N.traffic net.old) (C.moments clock.old)
        → IfSome (K.told controller.old.keeper) (λ _.
        LeavesOnly K.moment K.left_since controller.old.keeper controller.new.keeper (FindsBehind p)) }
    ensures left { (t : Traffic) (p : Point)
        → IsAt K.Keeper t p controller.old (N.traffic net.old) (C.moments clock.old)
        → IfSome (K.told controller.old.keeper) (λ _.
        LeavesBehind K.Keeper t p result controller.new (N.traffic net.new) (C.moments clock.new)) }
    ensures told { IsSome (K.told controller.old.keeper) → IsSome (K.told controller.new.keeper) }

    ensures disk { IsErrOf result ServeFault.Disk → K.faults controller.old.keeper < K.faults controller.new.keeper }
    ensures disk_never_falls { K.faults controller.old.keeper ≤ K.faults controller.new.keeper }
    ensures clock { IsErrOf result ServeFault.Clock → C.faults clock.old < C.faults clock.new }
    ensures clock_never_falls { C.faults clock.old ≤ C.faults clock.new }
    ensures no_clock_fault { IsErrOf result ServeFault.Clock ⊎ (C.faults clock.new ≡ C.faults clock.old) }

    // A call of a line fails only where that ends the connection.
    ensures fault { EndsByFault result → N.lines net.old < N.lines net.new }
    ensures no_fault { EndsByFault result ⊎ (N.lines net.new ≡ N.lines net.old) }
    ensures doors { N.doors net.new ≡ N.doors net.old }
{
    let _ = controller.state();
    for messages in 0..MESSAGE_LIMIT {
        if let Some(end) = take_turn(alloc, controller, net, clock)? {
            return Ok(Served { messages, end });
        }
    }
    Ok(Served {
        messages: MESSAGE_LIMIT,
        end: End::Limit,
    })
}
