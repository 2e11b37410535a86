//! A cycle.

ghost use Rattle.std.specs.Prelude.{◌≡◌, ◌↔◌, ◌<◌, ◌≤◌, IfSome, IsErrOf, IsSome};
ghost use Rattle.adr_disk.specs.Disk.{Among, LeavesOnly};
ghost use Rattle.adr_outside.specs.Traffic.{Traffic};
ghost use Rattle.adr_pull.specs.Counted.{CountsAll};
ghost use Rattle.adr_pull.specs.Fetch.{Point, exchange_limit, fetch, pulled, reply_limit};
ghost use Rattle.adr_law_controller.specs.Keeping.{KeepsLog};
ghost use Rattle.adr_pull.specs.Told.{Fallen, FindsBehind, FindsTold, Goes, HasDone, IsAt, Up};

use crate::fault::PullFault;
use crate::talking::meet;
use crate::turning::take_turn;
use adr_controller::{Controller, Keeper};
use adr_io::Sink;
use adr_outside::Net;
use adr_values::{Guid, Text};
use std::alloc::Global;

/// The most replies of a cycle.
const REPLY_LIMIT: u32 = 1_000_000;

/// Sends requests to a partner, one after the other, and takes what comes, until a reply is the last.
fn fetch<K: Keeper, N: Net, S: Sink>(
    alloc: Global,
    controller: &mut Controller<K>,
    name: &Text,
    partner: Guid,
    net: &mut N,
    sink: &mut S,
) -> Result<(), PullFault>
    requires up { IsSome controller.old.state }
    requires log { KeepsLog K.Keeper }
    ensures goes { (t : Traffic) (p : Point) → IsAt K.Keeper t p controller.old (N.traffic net.old) (S.written sink.old)
        → Goes (Up K.Keeper controller.new) (Fallen K.Keeper controller.new) (HasDone t (N.traffic net.new) (S.written sink.new))
        (λ n. fetch name.now partner n p) reply_limit result }
    ensures any_moment { (t : Traffic) (p : Point) → IsAt K.Keeper t p controller.old (N.traffic net.old) (S.written sink.old)
        → IfSome (K.told controller.old.keeper) (λ _.
        LeavesOnly K.moment K.left_since controller.old.keeper controller.new.keeper
        (FindsBehind (λ n. fetch name.now partner n p) reply_limit)) }
    ensures counts { CountsAll K.Keeper N.Net S.Sink controller.old controller.new net.old net.new sink.old sink.new result }
{
    let _ = controller.state();
    for turn in 0..REPLY_LIMIT {
        let over = take_turn(alloc, controller, name, partner, net, sink)?;
        if over {
            return Ok(());
        }
    }
    Err(PullFault::MoreWaiting)
}

/// Pulls a cycle over the open connection: asks who is there, and then sends requests for at most 1,000 items each and takes
/// the replies, until one is the last. It writes the line of a delivery under this name for each reply that is taken, and
/// for a refusal of the partner or of the controller the refusal alone. A full log refuses too. It doesn't hang up.
pub fn pull<K: Keeper, N: Net, S: Sink>(
    alloc: Global,
    controller: &mut Controller<K>,
    name: &Text,
    net: &mut N,
    sink: &mut S,
) -> Result<(), PullFault>
    requires up { IsSome controller.old.state }
    requires log { KeepsLog K.Keeper }

    // From wherever node, connection and lines stand, as far as they tell it.
    ensures pulls { (t : Traffic) (p : Point) → IsAt K.Keeper t p controller.old (N.traffic net.old) (S.written sink.old)
        → Goes (Up K.Keeper controller.new) (Fallen K.Keeper controller.new) (HasDone t (N.traffic net.new) (S.written sink.new))
        (λ n. pulled name.now n p) exchange_limit result }

    // A start finds the node behind some of the replies, whenever a crash comes; and behind the call, each reply whose
    // line was written is kept.
    ensures any_moment { (t : Traffic) (p : Point) → IsAt K.Keeper t p controller.old (N.traffic net.old) (S.written sink.old)
        → IfSome (K.told controller.old.keeper) (λ _.
        LeavesOnly K.moment K.left_since controller.old.keeper controller.new.keeper
        (FindsBehind (λ n. pulled name.now n p) exchange_limit)) }
    ensures left { (t : Traffic) (p : Point) → IsAt K.Keeper t p controller.old (N.traffic net.old) (S.written sink.old)
        → IfSome (K.told controller.old.keeper) (λ _.
        Among (FindsTold (λ n. pulled name.now n p) exchange_limit (S.written sink.new)) (K.may_leave controller.new.keeper)) }

    // Each fault of the outside comes where its count rose, and no count falls.
    ensures counts { CountsAll K.Keeper N.Net S.Sink controller.old controller.new net.old net.new sink.old sink.new result }
{
    let _ = controller.state();
    let partner = meet(alloc, net)?;
    let fetched = fetch(alloc, controller, name, partner, net, sink);
    let _ = controller.state();
    fetched
}
