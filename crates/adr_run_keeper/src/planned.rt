//! A keeper under a plan.

ghost use Rattle.std.specs.Prelude.{◌≡◌, ℕ, List, Bool, true, false, Option, Some, None, Ok, IfOk};
ghost use Rattle.adr_disk.specs.Disk.{Keeps};
ghost use Rattle.adr_model.specs.Store.{State as Defined};
ghost use Rattle.adr_model.specs.Change.{Change as Changes};
ghost use Rattle.adr_disk.specs.declared.memory.Mishap.TheVariants.{Fails, Stops};
ghost use Rattle.adr_disk.specs.declared.memory.Plan.{Plan};
ghost use Rattle.adr_model.specs.Replica.{Replica, Pending, Book};
ghost use Rattle.adr_law_journal.specs.Areas.{Found, Started};
ghost use Rattle.adr_law_journal.specs.Replicas.{read_found, safe_found, Has, committed, started};
ghost use Rattle.adr_run_keeper.specs.Planned.{left_found, Same, CommitsAs, StartsAs};
ghost use Rattle.adr_journal.specs.declared.keeper.KeeperRefusal.{KeeperRefusal as Refusal};
ghost use Rattle.adr_journal.specs.declared.keeper.StartRefusal.{StartRefusal as Refused};

use adr_disk::Crash;
use adr_journal::Keeper;
use adr_values::NoMemory;
use std::alloc::Global;

/// A keeper for which a crash or a failed call can be planned.
pub trait PlannedKeeper: Keeper {
    /// What a start would find: now, after a crash that loses the unsynced, and after one that tears it.
    ghost read: { Self → Started Defined };

    ghost safe: { Self → Started Defined };

    ghost torn: { Self → Started Defined };

    /// What the next writes and syncs meet.
    ghost plan: { Self → Option Plan };

    /// Whether its disk has crashed and was not revived.
    ghost has_stopped: { Self → Bool };

    /// What a start would find in these bytes.
    ghost found_in: { List ℕ → Started Defined };

    /// Lets so many writes and syncs pass, and crashes within the next.
    fn stop_after(&mut self, calls: u32, how: Crash)
        ensures plan { plan self.new ≡ Some (record { calls = calls; mishap = Stops how }) }
        ensures same { Same read safe torn Self.is_failed self.old self.new }
        ensures running { has_stopped self.new ≡ has_stopped self.old }
        ensures at { (f : Found Defined) → Self.is_at self.old f → Self.is_at self.new f }
        ensures keeps { Keeps Self.told Self.may_leave Self.moment Self.left_since self.old self.new }
        ensures counted { Self.faults self.new ≡ Self.faults self.old };

    /// Lets so many writes and syncs pass, and fails the next, which changes nothing.
    fn fail_after(&mut self, calls: u32)
        ensures plan { plan self.new ≡ Some (record { calls = calls; mishap = Fails }) }
        ensures same { Same read safe torn Self.is_failed self.old self.new }
        ensures running { has_stopped self.new ≡ has_stopped self.old }
        ensures at { (f : Found Defined) → Self.is_at self.old f → Self.is_at self.new f }
        ensures keeps { Keeps Self.told Self.may_leave Self.moment Self.left_since self.old self.new }
        ensures counted { Self.faults self.new ≡ Self.faults self.old };

    /// Crashes now, and drops a plan.
    fn crash(&mut self, how: Crash)
        ensures read { read self.new ≡ left_found how (read self.old) (safe self.old) (torn self.old) }
        ensures safe { safe self.new ≡ read self.new }
        ensures torn { torn self.new ≡ read self.new }
        ensures failed { Self.is_failed self.new ≡ Self.is_failed self.old }
        ensures plan { plan self.new ≡ None }
        ensures stopped { has_stopped self.new ≡ true }
        ensures counted { Self.faults self.new ≡ Self.faults self.old };

    /// Whether its disk has crashed and was not revived.
    fn is_stopped(&self) -> bool
        ensures { result ≡ has_stopped self.now };

    /// Ends a crash, and keeps a plan that was set after it.
    fn revive(&mut self)
        ensures plan { plan self.new ≡ plan self.old }
        ensures same { Same read safe torn Self.is_failed self.old self.new }
        ensures running { has_stopped self.new ≡ false }
        ensures at { (f : Found Defined) → Self.is_at self.old f → Self.is_at self.new f }
        ensures keeps { Keeps Self.told Self.may_leave Self.moment Self.left_since self.old self.new }
        ensures counted { Self.faults self.new ≡ Self.faults self.old };

    /// A copy of the bytes on its disk.
    fn bytes(&self, alloc: Global) -> Result<Vec<u8>, NoMemory>
        ensures { IfOk result (λ bytes. found_in bytes.items ≡ read self.now) };

    /// What a start would find is told.
    ghost tells_read: { (k : Self) → Self.told k ≡ Some (read k) };

    /// A keeper that stands for something has it whatever a crash does.
    ghost keeps_it: { (k : Self) (f : Found Defined) → Self.is_at k f → Self.is_failed k ≡ false
        → (read k ≡ Ok f) × (safe k ≡ Ok f) × (torn k ≡ Ok f) };

    /// Without a plan no call of a format fails.
    ghost formats_unplanned: { (k new : Self) (e : Option Refusal) → has_stopped k ≡ false → plan k ≡ None
        → Self.formats k e new → (plan new ≡ None) × (has_stopped new ≡ false) × (e ≡ Some Refusal.DiskFault → ⊥) };

    /// What makes ready for a commit meets no plan.
    ghost prepares_unmet: { (k new : Self) (e : Option Refusal) (r : Replica) → has_stopped k ≡ false → Has read safe torn plan k r
        → Self.prepares k e new
        → Has read safe torn plan new r × (has_stopped new ≡ false) × (e ≡ Some Refusal.DiskFault → ⊥) };

    /// A commit does to what is read, to what is safe and to the plan what it does to a replica.
    ghost commits_as_planned: { (k new : Self) (c : Changes) (e : Option Refusal) (book : Book) (r : Replica) (p : Pending)
        → Self.is_at k (safe_found r) → Self.is_failed k ≡ false → Self.is_prepared k r.safe c → Self.can_follow r.safe c
        → has_stopped k ≡ false → read_found r ≡ safe_found r → Has read safe torn plan k r → p.change ≡ c
        → Self.commits k c e new → CommitsAs (Has read safe torn plan) has_stopped e (committed book r p) new };

    /// And so does a start.
    ghost starts_as_planned: { (k new : Self) (e : Option Refused) (book : Book) (r : Replica)
        → has_stopped k ≡ false → Has read safe torn plan k r
        → Self.starts k e new → StartsAs (Has read safe torn plan) has_stopped e r (started book r) new };
}
