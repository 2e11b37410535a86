//! What a planned mishap does to a log on a disk in memory.

ghost use Rattle.std.specs.Prelude.{◌≡◌, ℕ, ◌+◌, ◌<◌, ◌^◌, not, List, [], ◌∷◌, ◌++◌, length, true, false, Some, None};
ghost use Rattle.adr_io.specs.declared.Fault.TheVariants.{Failed as failed_call};
ghost use Rattle.adr_disk.specs.Disk.{Only, Syncs};
ghost use Rattle.adr_disk.specs.Memory.{DiskState, read_of, IsImage, Does};
ghost use Rattle.adr_model.specs.Store.{State};
ghost use Rattle.adr_model.specs.Lengths.{Log, is_due, checkpointed};
ghost use Rattle.adr_model.specs.Replica.{Pending, Replica, Book, went, logs_of_checkpoint};
ghost use Rattle.adr_law_journal.specs.Log.{record_of};
ghost use Rattle.adr_law_journal.specs.Areas.{IsFree, TellsArea, other_log};
ghost use Rattle.adr_law_journal.specs.Kept.{Layout, starts, Rests};
ghost use Rattle.adr_law_journal.specs.Commits.{Commits, Checkpoints};
ghost use Rattle.adr_law_journal.specs.Due.{TwoRuns};
ghost use Rattle.adr_law_journal.specs.Planned.{Leads, IsReadyToCommit, IsNextArea};
ghost use Rattle.adr_law_journal.specs.Replicas.{IsOn, CommitLeads, StartLeads};

/// Whatever the plan, the calls of a commit leave on a disk what the moves of a commit leave of a replica: what a start
/// would find, what is safe, the plan, and how the controller stands. They are the four of its record; or, where a
/// checkpoint is due, its five and then the four, or as many of the five as come before a fault.
#[tactic(none)]
pub fn a_commit_goes_as_planned()
    ensures plain { (l : Layout (List ℕ × List ℕ) State) (book : Book) (r : Replica) (p : Pending) (old new : DiskState) (body : List ℕ)
        → IsReadyToCommit l r p body old → is_due r.device.safe_log p.change ≡ false
        → (Commits Does r.device.safe_log.log_end (record_of body) old None new → CommitLeads l book r p new None)
        × (Commits Does r.device.safe_log.log_end (record_of body) old (Some failed_call) new → CommitLeads l book r p new (Some failed_call)) }
    ensures checkpointed { (l : Layout (List ℕ × List ℕ) State) (book : Book) (r : Replica) (p : Pending) (old mid new : DiskState) (body written : List ℕ)
        → IsReadyToCommit l r p body old → IsNextArea l r written → is_due r.device.safe_log p.change ≡ true
        → let log = checkpointed r.device.safe_log r.safe.store in Checkpoints Does log.place written log.second old None mid
        → (Commits Does log.log_end (record_of body) mid None new → CommitLeads l book r p new None)
        × (Commits Does log.log_end (record_of body) mid (Some failed_call) new → CommitLeads l book r p new (Some failed_call)) }
    ensures checkpoint_failed { (l : Layout (List ℕ × List ℕ) State) (book : Book) (r : Replica) (p : Pending) (old new : DiskState) (body written : List ℕ)
        → IsReadyToCommit l r p body old → IsNextArea l r written → is_due r.device.safe_log p.change ≡ true
        → let log = checkpointed r.device.safe_log r.safe.store in Checkpoints Does log.place written log.second old (Some failed_call) new
        → CommitLeads l book r p new (Some failed_call) }
{}

/// Whatever the plan, the calls of a checkpoint leave on a disk in memory the logs that the definitions say.
#[tactic(none)]
pub fn a_checkpoint_goes_as_planned()
    ensures { (l : Layout (List ℕ × List ℕ) State) (s : State) (log : Log) (place version : ℕ) (image : List ℕ) (old new : DiskState)
        → old.stopped ≡ false → Rests l s log (read_of old.held.surface) → Only (read_of old.held.surface) (IsImage old.held.surface)
        → IsFree log place (length image + 1) → TellsArea (l.area l.told) place image version s → place < 2 ^ 64
        → (Checkpoints Does place (image ++ 0 ∷ []) (not log.second) old None new
        → Leads (starts l) s (logs_of_checkpoint log (other_log log place version (length image)) (went old.plan 5)) (went old.plan 5) None new)
        × (Checkpoints Does place (image ++ 0 ∷ []) (not log.second) old (Some failed_call) new
        → Leads (starts l) s (logs_of_checkpoint log (other_log log place version (length image)) (went old.plan 5)) (went old.plan 5) (Some failed_call) new) }
{}

/// How the four calls of a record go behind the five of a checkpoint is how the last four of nine go.
#[tactic(none)]
pub fn two_runs_of_calls_are_one()
    ensures { TwoRuns }
{}

/// Whatever the plan, the sync of a start leaves on a disk what the moves of a start leave of a replica.
#[tactic(none)]
pub fn a_start_goes_as_planned()
    ensures { (l : Layout (List ℕ × List ℕ) State) (book : Book) (r : Replica) (old new : DiskState)
        → old.stopped ≡ false → IsOn l r old
        → (Does old Syncs None new → StartLeads l book r new None)
        × (Does old Syncs (Some failed_call) new → StartLeads l book r new (Some failed_call)) }
{}
