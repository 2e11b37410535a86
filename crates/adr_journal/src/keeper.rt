//! What keeps a state.

ghost use Rattle.std.specs.Prelude.{◌≡◌, ◌⊎◌, ◌↔◌, ℕ, ◌+◌, ◌-◌, ◌^◌, ◌≤◌, ◌<◌, max, length, if◌then◌else◌, Bool, List, true, false, Option, IsSome, Ok, IfOk, IfErr, OnOk, OnErr, IsErrOf, IfSome, ⊤};
ghost use Rattle.adr_disk.specs.Disk.{Among, Keeps, LeavesOnly};
ghost use Rattle.adr_model.specs.Store.{State as Defined};
ghost use Rattle.adr_model.specs.Change.{Change as Changes, after};
ghost use Rattle.adr_model.specs.Lengths.{Log, new_log, area_fits, change_fits, is_due, image_bytes, image_length, change_length};
ghost use Rattle.adr_law_journal.specs.Areas.{Found, found, Started};
ghost use Rattle.adr_law_journal.specs.Kept.{FindsEither};
ghost use Rattle.adr_journal.specs.Ended.{ended, ended_start, found_after, IsNewOrNone, IsDamageOf, StillReads};
ghost use Rattle.adr_journal.specs.declared.keeper.KeeperRefusal.{KeeperRefusal as Refusal};
ghost use Rattle.adr_journal.specs.declared.keeper.StartRefusal.{StartRefusal as Refused};

use adr_state::{Change, LOG_LIMIT, State};
use std::alloc::AllocError;
use thiserror::Error;

/// Why a state was not formatted, or a change not committed.
#[derive(Clone, Copy, Debug, Error)]
pub enum KeeperRefusal {
    /// A call of the disk failed.
    #[error("disk")]
    DiskFault,
    /// One failed before, and no start has succeeded since.
    #[error("failed")]
    Failed,
    /// The log would end beyond its limit, or an image or a record would be too long for its length.
    #[error("Full table=Log limit={}", LOG_LIMIT)]
    Full,
    #[error("no memory")]
    NoMemory,
}

impl From<AllocError> for KeeperRefusal {
    ghost use Rattle.std.specs.Prelude.{◌≡◌};
    ghost use Rattle.adr_journal.specs.declared.keeper.KeeperRefusal.TheVariants.{NoMemory as no_memory};

    ghost from_gives = { λ _ e. e ≡ no_memory };

    fn from(_e: AllocError) -> KeeperRefusal {
        KeeperRefusal::NoMemory
    }
}

/// Why a keeper was not started.
#[derive(Clone, Copy, Debug, Error)]
pub enum StartRefusal {
    /// A call of the disk failed.
    #[error("disk")]
    DiskFault,
    /// The bytes are no log; the place of the first fault, in bytes.
    #[error("damaged at byte {place}")]
    Damaged {
        place: u64,
    },
    #[error("no memory")]
    NoMemory {
        /// Whether the sync that a start begins with was made before.
        settled: bool,
    },
}

/// What keeps a state, so that a start finds it after a crash.
pub trait Keeper {
    /// How many calls of its disk have failed so far.
    ghost faults: { Self → ℕ };

    /// Whether one failed since the last format or start.
    ghost is_failed: { Self → Bool };

    /// It has no log: its disk, where it tells its bytes, has none, and a crash leaves none.
    ghost is_empty: { Self → Type 0 };

    /// It was formatted or started, and while it isn't failed, it stands for this.
    ghost is_at: { Self → Found Defined → Type 0 };

    /// It is ready to commit this change of this state.
    ghost is_prepared: { Self → Defined → Changes → Type 0 };

    /// What a start would find, where it is told; what one may find after a crash now, and after one at that moment or
    /// later.
    ghost told: { Self → Option (Started Defined) };

    ghost may_leave: { Self → Started Defined → Type 0 };

    ghost moment: { Self → ℕ };

    ghost left_since: { Self → ℕ → Started Defined → Type 0 };

    /// Which state may be formatted, which change may follow a state, and what every state that is kept is.
    ghost can_begin: { Defined → Type 0 };

    ghost can_follow: { Defined → Changes → Type 0 };

    ghost is_formed: { Defined → Type 0 };

    /// How long its disk has become, where that is told: it had so many bytes when it was first started, 0 where it was
    /// formatted, and no image and no record that was written or found is longer than these.
    ghost is_within: { Self → ℕ → ℕ → ℕ → Type 0 };

    /// The bytes of its disk, where they are told.
    ghost content: { Self → Option (List ℕ) };

    /// What a call did, where it is told to the last: from a keeper, by a call that ended so, to a keeper.
    ghost formats: { Self → Option Refusal → Self → Type 0 } = { λ _ _ _. ⊤ };

    ghost prepares: { Self → Option Refusal → Self → Type 0 } = { λ _ _ _. ⊤ };

    ghost commits: { Self → Changes → Option Refusal → Self → Type 0 } = { λ _ _ _ _. ⊤ };

    ghost starts: { Self → Option Refused → Self → Type 0 } = { λ _ _ _. ⊤ };

    /// Begins to keep a state. It is full where the log would end beyond its limit, or the image would be too long for the
    /// field that tells its length.
    fn format(&mut self, state: &State) -> Result<(), KeeperRefusal>
        requires empty { is_empty self.old }
        requires begins { can_begin state.now }
        ensures ok { OnOk result (is_at self.new (found state.now (new_log state.now))) }
        ensures up { OnOk result (is_failed self.new ≡ false) }
        ensures refused { OnErr result (IsErrOf result KeeperRefusal.DiskFault
            ⊎ (IsErrOf result KeeperRefusal.Full ⊎ IsErrOf result KeeperRefusal.NoMemory)) }
        ensures full { IsErrOf result KeeperRefusal.Full
            → (self.new ≡ self.old) × (area_fits (new_log state.now) state.now.store ≡ false) }
        ensures fits { OnOk result (area_fits (new_log state.now) state.now.store ≡ true) }
        ensures fits_too { IsErrOf result KeeperRefusal.DiskFault
            → area_fits (new_log state.now) state.now.store ≡ true }
        ensures fault { IsErrOf result KeeperRefusal.DiskFault
            → (faults self.old < faults self.new) × (is_failed self.new ≡ true) }
        ensures no_memory { IsErrOf result KeeperRefusal.NoMemory
            → Keeps told may_leave moment left_since self.old self.new }
        ensures unwritten { IsErrOf result KeeperRefusal.NoMemory → content self.new ≡ content self.old }
        ensures again { IsErrOf result KeeperRefusal.NoMemory → is_empty self.new }
        ensures later { faults self.old ≤ faults self.new }
        ensures told { IsSome (told self.new) ↔ IsSome (told self.old) }

        // Whatever it answers, what a start finds after a crash at any moment of the call, and after one from then on.
        ensures any_moment { IfSome (told self.old) (λ _.
            LeavesOnly moment left_since self.old self.new (IsNewOrNone state.now)) }
        ensures left { IfSome (told self.old) (λ _. Among (IsNewOrNone state.now) (may_leave self.new)) }
        ensures within { OnOk result (is_within self.new 0 (image_length state.now.store) 0) }
        ensures formats { formats self.old (ended result) self.new };

    /// Makes ready to commit a change of the state that it stands for: all that can be refused, but for a fault, is
    /// refused here. Nothing changes of what a start finds. It is full where the log would end beyond its limit, or
    /// what is to be written would be too long for the field that tells its length.
    fn prepare(&mut self, state: &State, change: &Change) -> Result<(), KeeperRefusal>
        requires { (log : Log) × is_at self.old (found state.now log) × (is_failed self.old ≡ false → can_follow state.now change.now) }
        ensures prepared { OnOk result (is_prepared self.new state.now change.now) }
        ensures up { OnOk result (is_failed self.new ≡ false) }
        ensures at { (f : Found Defined) → is_at self.old f → is_at self.new f }
        ensures keeps { Keeps told may_leave moment left_since self.old self.new }
        ensures later { faults self.old ≤ faults self.new }
        ensures failed { IsErrOf result KeeperRefusal.Failed ↔ (is_failed self.old ≡ true) }
        ensures full { IsErrOf result KeeperRefusal.Full → (log : Log) → is_at self.old (found state.now log)
            → (is_failed self.old ≡ false) × (change_fits log state.now.store change.now ≡ false) }
        ensures fits { OnOk result ((log : Log) → is_at self.old (found state.now log)
            → change_fits log state.now.store change.now ≡ true) }
        ensures fits_too { IsErrOf result KeeperRefusal.DiskFault → (log : Log) → is_at self.old (found state.now log)
            → change_fits log state.now.store change.now ≡ true }
        ensures stays_failed { IsErrOf result KeeperRefusal.Failed → self.new ≡ self.old }
        ensures stays_full { IsErrOf result KeeperRefusal.Full → self.new ≡ self.old }
        ensures fault { IsErrOf result KeeperRefusal.DiskFault
            → (faults self.old < faults self.new) × (is_failed self.new ≡ true) }
        ensures no_memory { IsErrOf result KeeperRefusal.NoMemory → is_failed self.new ≡ is_failed self.old }
        ensures within { (file image longest : ℕ) → is_within self.old file image longest → is_within self.new file image longest }
        ensures prepares { prepares self.old (ended result) self.new };

    /// Commits the change that it is ready for, which is said of each that it may be. Only the disk can fail.
    fn commit(&mut self) -> Result<(), KeeperRefusal>
        requires up { is_failed self.old ≡ false }
        requires prepared { (f : Found Defined) × (c : Changes) × is_at self.old f × is_prepared self.old f.state c × can_follow f.state c }
        ensures ok { OnOk result ((f : Found Defined) (c : Changes) → is_at self.old f → is_prepared self.old f.state c
            → can_follow f.state c → is_at self.new (found_after f c)) }
        ensures up { OnOk result (is_failed self.new ≡ false) }
        ensures err { OnErr result ((f : Found Defined) → is_at self.old f → is_at self.new f) }
        ensures fault { OnErr result (IsErrOf result KeeperRefusal.DiskFault
            × (faults self.old < faults self.new) × (is_failed self.new ≡ true)) }
        ensures later { faults self.old ≤ faults self.new }
        ensures told { IsSome (told self.new) ↔ IsSome (told self.old) }

        // Whatever it answers, what a start finds after a crash at any moment of the call, and after one from then on.
        // A checkpoint within the call moves the log, and leaves the state.
        ensures any_moment { (f : Found Defined) (c : Changes) → is_at self.old f → is_prepared self.old f.state c
            → can_follow f.state c → IfSome (told self.old) (λ _.
            LeavesOnly moment left_since self.old self.new (FindsEither f.state (after f.state c))) }
        ensures left { (f : Found Defined) (c : Changes) → is_at self.old f → is_prepared self.old f.state c
            → can_follow f.state c → IfSome (told self.old) (λ _.
            Among (FindsEither f.state (after f.state c)) (may_leave self.new)) }
        ensures within { (f : Found Defined) (c : Changes) → is_at self.old f → is_prepared self.old f.state c
            → can_follow f.state c → (file image longest : ℕ) → is_within self.old file image longest
            → is_within self.new file (max image (if is_due f.log c then image_length f.state.store else 0)) (max longest (5 + change_length c)) }
        ensures commits { (f : Found Defined) (c : Changes) → is_at self.old f → is_prepared self.old f.state c
            → can_follow f.state c → commits self.old c (ended result) self.new };

    /// Finds the state that is kept.
    fn start(&mut self) -> Result<State, StartRefusal>
        ensures ok { IfOk result (λ s. (log : Log) × is_at self.new (found s log) × IfSome (told self.old) (λ t. t ≡ Ok (found s log))) }
        ensures formed { IfOk result is_formed }
        ensures up { OnOk result (is_failed self.new ≡ false) }
        ensures damaged { IfErr result (λ e. IsDamageOf e (told self.old)) }
        ensures fault { IsErrOf result StartRefusal.DiskFault
            → (faults self.old < faults self.new) × (is_failed self.new ≡ true) }
        ensures uncounted { IsErrOf result (StartRefusal.NoMemory false) → faults self.old ≡ 2 ^ 64 - 1 }
        ensures stays { OnErr result (IsErrOf result StartRefusal.DiskFault ⊎ (is_failed self.new ≡ is_failed self.old)) }
        ensures still { IfErr result (λ e. StillReads told may_leave moment left_since e self.old self.new) }

        // But for a fault of its disk, its bytes are what they were.
        ensures unwritten { IsErrOf result StartRefusal.DiskFault ⊎ (content self.new ≡ content self.old) }
        ensures later { faults self.old ≤ faults self.new }
        ensures told { IsSome (told self.new) ↔ IsSome (told self.old) }

        // After a crash at any moment of the call, a start finds what one might have found before it.
        ensures any_moment { LeavesOnly moment left_since self.old self.new (may_leave self.old) }
        ensures left { Among (may_leave self.old) (may_leave self.new) }
        ensures within { (file image longest : ℕ) → is_within self.old file image longest → is_within self.new file image longest }

        // Where its bytes are told, a bound begins with the log that was found.
        ensures within_found { IfOk result (λ s. (log : Log) → is_at self.new (found s log)
            → IfSome (content self.new) (λ bytes. is_within self.new (length bytes) (image_bytes log) 0)) }
        ensures starts { starts self.old (ended_start result) self.new };

    /// What a start would find of a keeper that isn't failed, now and after a crash, is what it stands for.
    ghost tells: { (k : Self) (f : Found Defined) → is_at k f → is_failed k ≡ false → IfSome (told k) (λ t. t ≡ Ok f) };

    ghost leaves: { (k : Self) (f : Found Defined) (t : Started Defined)
        → is_at k f → is_failed k ≡ false → IsSome (told k) → may_leave k t → t ≡ Ok f };

    /// A crash now may leave what is there, and since this moment there is nothing else.
    ghost honest: { (k : Self) → IfSome (told k) (may_leave k) };

    ghost only_now: { (k : Self) (t : Started Defined) → left_since k (moment k) t → may_leave k t };
}
