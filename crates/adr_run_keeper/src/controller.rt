//! A controller over a keeper under a plan.

ghost use Rattle.std.specs.Prelude.{◌≡◌, true, false, Option, Some, None, IfOk};
ghost use Rattle.adr_disk.specs.Disk.{Keeps};
ghost use Rattle.adr_model.specs.Change.{Change as Changes};
ghost use Rattle.adr_disk.specs.declared.memory.Mishap.TheVariants.{Fails, Stops};
ghost use Rattle.adr_model.specs.Replica.{Book, Pending, Replica};
ghost use Rattle.adr_law_journal.specs.Replicas.{Has, committed, read_found, safe_found};
ghost use Rattle.adr_run_keeper.specs.Planned.{left_found, Same};
ghost use Rattle.adr_controller.specs.declared.refusal.Hindrance.{Hindrance};
ghost use Rattle.adr_controller.specs.Did.{Ran};
ghost use Rattle.adr_run_keeper.specs.Goes.{GoesAs};

use crate::planned::PlannedKeeper;
use adr_controller::Controller;
use adr_disk::Crash;
use adr_journal::Keeper;
use adr_values::NoMemory;
use std::alloc::Global;

/// Lets so many writes and syncs of its disk pass, and crashes within the next.
#[tactic(auto, using(crate::proofs::Orders::still_in_order))]
pub fn stop_after<K: PlannedKeeper>(controller: &mut Controller<K>, calls: u32, how: Crash)
    ensures plan { K.plan controller.new.keeper ≡ Some (record { calls = calls; mishap = Stops how }) }
    ensures same { Same K.read K.safe K.torn K.is_failed controller.old.keeper controller.new.keeper }
    ensures running { K.has_stopped controller.new.keeper ≡ K.has_stopped controller.old.keeper }
    ensures keeps { Keeps K.told K.may_leave K.moment K.left_since controller.old.keeper controller.new.keeper }
    ensures counted { K.faults controller.new.keeper ≡ K.faults controller.old.keeper }
    ensures stays { controller.new ≡ record controller.old { keeper = controller.new.keeper } }
{
    controller.attend(|keeper| keeper.stop_after(calls, how));
}

/// Lets so many writes and syncs of its disk pass, and fails the next, which changes nothing.
#[tactic(auto, using(crate::proofs::Orders::still_in_order))]
pub fn fail_after<K: PlannedKeeper>(controller: &mut Controller<K>, calls: u32)
    ensures plan { K.plan controller.new.keeper ≡ Some (record { calls = calls; mishap = Fails }) }
    ensures same { Same K.read K.safe K.torn K.is_failed controller.old.keeper controller.new.keeper }
    ensures running { K.has_stopped controller.new.keeper ≡ K.has_stopped controller.old.keeper }
    ensures keeps { Keeps K.told K.may_leave K.moment K.left_since controller.old.keeper controller.new.keeper }
    ensures counted { K.faults controller.new.keeper ≡ K.faults controller.old.keeper }
    ensures stays { controller.new ≡ record controller.old { keeper = controller.new.keeper } }
{
    controller.attend(|keeper| keeper.fail_after(calls));
}

/// Crashes now, and drops a plan. It is down from then on.
pub fn crash<K: PlannedKeeper>(controller: &mut Controller<K>, how: Crash)
    ensures read { let was = controller.old.keeper in
        K.read controller.new.keeper ≡ left_found how (K.read was) (K.safe was) (K.torn was) }
    ensures safe { K.safe controller.new.keeper ≡ K.read controller.new.keeper }
    ensures torn { K.torn controller.new.keeper ≡ K.read controller.new.keeper }
    ensures plan { K.plan controller.new.keeper ≡ None }
    ensures down { controller.new ≡ record { keeper = controller.new.keeper; state = None; down = true } }
    ensures stopped { K.has_stopped controller.new.keeper ≡ true }
    ensures counted { K.faults controller.new.keeper ≡ K.faults controller.old.keeper }
{
    controller.stop();
    controller.attend(|keeper| keeper.crash(how));
}

/// Whether its disk has crashed and was not revived.
pub fn is_stopped<K: PlannedKeeper>(controller: &Controller<K>) -> bool
    ensures { result ≡ K.has_stopped controller.now.keeper }
{
    controller.keeper().is_stopped()
}

/// Ends a crash of its disk, and keeps a plan that was set after it. The controller is as down or failed as before.
pub fn revive<K: PlannedKeeper>(controller: &mut Controller<K>)
    requires { controller.old.state ≡ None }
    ensures plan { K.plan controller.new.keeper ≡ K.plan controller.old.keeper }
    ensures same { Same K.read K.safe K.torn K.is_failed controller.old.keeper controller.new.keeper }
    ensures running { K.has_stopped controller.new.keeper ≡ false }
    ensures keeps { Keeps K.told K.may_leave K.moment K.left_since controller.old.keeper controller.new.keeper }
    ensures counted { K.faults controller.new.keeper ≡ K.faults controller.old.keeper }
    ensures stays { controller.new ≡ record controller.old { keeper = controller.new.keeper } }
{
    controller.attend(|keeper| keeper.revive());
}

/// A copy of the bytes on its disk.
pub fn bytes<K: PlannedKeeper>(
    alloc: Global,
    controller: &Controller<K>,
) -> Result<Vec<u8>, NoMemory>
    ensures { IfOk result (λ bytes. K.found_in bytes.items ≡ K.read controller.now.keeper) }
{
    controller.keeper().bytes(alloc)
}

/// What a commit of a controller asks of its keeper takes what is read, what is safe and the plan where a commit takes a
/// replica.
#[tactic(none)]
pub fn commits_go_as_planned<K: PlannedKeeper>()
    ensures { (old new : K) (c : Changes) (how : Option Hindrance) (book : Book) (r : Replica) (p : Pending)
        → K.is_at old (safe_found r) → K.is_failed old ≡ false → K.can_follow r.safe c
        → K.has_stopped old ≡ false → read_found r ≡ safe_found r → Has K.read K.safe K.torn K.plan old r
        → p.change ≡ c → Ran ⟦<K as Keeper>⟧ old r.safe c how new
        → GoesAs (Has K.read K.safe K.torn K.plan) K.has_stopped how r (committed book r p) new }
{}
