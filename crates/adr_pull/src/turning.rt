//! One request of a cycle.

ghost use Rattle.std.specs.Prelude.{◌≡◌, ◌↔◌, ◌<◌, ◌≤◌, IfOk, IfSome, IsErrOf, IsSome};
ghost use Rattle.adr_disk.specs.Disk.{LeavesOnly};
ghost use Rattle.adr_outside.specs.Traffic.{Traffic};
ghost use Rattle.adr_pull.specs.Counted.{CountsAll};
ghost use Rattle.adr_pull.specs.Fetch.{Point, ends_of, turn};
ghost use Rattle.adr_law_controller.specs.Keeping.{KeepsLog};
ghost use Rattle.adr_pull.specs.Told.{FindsNear, IsAt, IsEnd, TakesTurn};

use crate::came::Came;
use crate::fault::PullFault;
use crate::reacting::react;
use crate::talking::ask;
use crate::telling::tell;
use adr_controller::{Controller, Keeper};
use adr_io::Sink;
use adr_outside::Net;
use adr_values::{Guid, Text};
use std::alloc::Global;

/// Whether a cycle is over behind what came.
fn is_over(came: &Came) -> Result<bool, PullFault>
    ensures { IsEnd (ends_of came.now) result }
{
    match came {
        Came::Took { last, .. } => Ok(*last),
        Came::Declined(_) => Err(PullFault::Refused),
    }
}

/// Sends one request, takes what comes, and writes its line. Whether the cycle is over.
pub(crate) fn take_turn<K: Keeper, N: Net, S: Sink>(
    alloc: Global,
    controller: &mut Controller<K>,
    name: &Text,
    partner: Guid,
    net: &mut N,
    sink: &mut S,
) -> Result<bool, PullFault>
    requires up { IsSome controller.old.state }
    requires log { KeepsLog K.Keeper }
    ensures up { IfOk result (λ _. IsSome controller.new.state) }
    ensures turn { (t : Traffic) (p : Point) → IsAt K.Keeper t p controller.old (N.traffic net.old) (S.written sink.old)
        → TakesTurn K.Keeper t p (turn name.now partner p) result controller.new (N.traffic net.new) (S.written sink.new) }
    ensures any_moment { (t : Traffic) (p : Point) → IsAt K.Keeper t p controller.old (N.traffic net.old) (S.written sink.old)
        → IfSome (K.told controller.old.keeper) (λ _.
        LeavesOnly K.moment K.left_since controller.old.keeper controller.new.keeper
        (FindsNear p (turn name.now partner p).0)) }
    ensures counts { CountsAll K.Keeper N.Net S.Sink controller.old controller.new net.old net.new sink.old sink.new result }
{
    let _ = controller.state();
    let bytes = ask(alloc, controller, partner, net)?;
    let came = react(alloc, controller, &bytes)?;
    tell(alloc, name, &came, sink)?;
    is_over(&came)
}
