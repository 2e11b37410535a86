//! What a crash leaves of a batch: of several records that one gate of a log opens.
//!
//! All records of a batch but the first stand behind gates that are written open. The first one's gate stays closed until
//! all are on the disk, and then it alone is written. So a start finds none of the batch or all of it, and the bytes are
//! those of as many commits, one behind the other.
//!
//! The laws stand on those of `adr_law_journal`, which say the same of one record. The crate's functions have no code: each
//! contract is a law. It knows nothing of who gathers records, or when.
#![tactic(auto)]

ghost use Rattle.std.specs.Prelude.{◌≡◌, ◌⊎◌, ◌+◌, ℕ, List, [], ◌∷◌};
ghost use Rattle.adr_disk.specs.Disk.{put, Torn};
ghost use Rattle.adr_model.specs.Store.{State};
ghost use Rattle.adr_model.specs.Lengths.{Log};
ghost use Rattle.adr_law_journal.specs.Log.{open_gate};
ghost use Rattle.adr_law_journal.specs.Kept.{Layout, Rests};
ghost use Rattle.adr_law_group.specs.Batch.{Follows, IsHeld, IsStaged, OneMoreRecord, batch_of, log_behind_all};

/// A commit of several records writes twice, each time with a sync behind it: all of them, with open gates between them
/// and a closed one behind the last, where a log at rest ends; and then the first gate. Whatever a crash leaves of the
/// second write, the log is as it was or has all of the records.
#[tactic(none)]
pub fn batches_are_there_or_not()
    ensures staged { (l : Layout (List ℕ × List ℕ) State) (s : State) (log : Log) (body : List ℕ) (more : List (List ℕ)) (there : List ℕ)
        → Rests l s log there → IsStaged (l.area l.told) l.following l.front s log body more (put there log.log_end (batch_of body more)) }
    ensures second { (l : Layout (List ℕ × List ℕ) State) (s t : State) (log : Log) (gate : ℕ) (body : List ℕ) (more : List (List ℕ)) (there left : List ℕ)
        → gate + 1 ≡ log.log_end → IsStaged (l.area l.told) l.following l.front s log body more there
        → Follows (l.following log.version) s (body ∷ more) t
        → Torn gate 1 there left → Rests l s log left ⊎ Rests l t (log_behind_all log (body ∷ more)) left }
    ensures opened { (l : Layout (List ℕ × List ℕ) State) (s t : State) (log : Log) (gate : ℕ) (body : List ℕ) (more : List (List ℕ)) (there : List ℕ)
        → gate + 1 ≡ log.log_end → IsStaged (l.area l.told) l.following l.front s log body more there
        → Follows (l.following log.version) s (body ∷ more) t
        → Rests l t (log_behind_all log (body ∷ more)) (put there gate (open_gate ∷ [])) }
{}

/// Whatever is written behind the closed gate of a log at rest, and whatever a crash leaves of that, the log is as it was.
/// Then the gate alone is written: whatever a crash leaves of that, the log is as it was, or the bytes are those that were
/// to be written, to the last.
#[tactic(none)]
pub fn a_gate_holds_what_is_behind()
    ensures first { (l : Layout (List ℕ × List ℕ) State) (s : State) (log : Log) (gate n : ℕ) (there left : List ℕ)
        → IsHeld (l.area l.told) l.following l.front s log gate there → Torn (gate + 1) n there left
        → IsHeld (l.area l.told) l.following l.front s log gate left }
    ensures second { (l : Layout (List ℕ × List ℕ) State) (s : State) (log : Log) (gate : ℕ) (there left : List ℕ)
        → IsHeld (l.area l.told) l.following l.front s log gate there → Torn gate 1 there left
        → IsHeld (l.area l.told) l.following l.front s log gate left ⊎ (left ≡ put there gate (open_gate ∷ [])) }
{}

/// Records that are gathered make the bytes that they make one by one.
#[tactic(none)]
pub fn gathered_records_are_one_by_one()
    ensures { OneMoreRecord }
{}
