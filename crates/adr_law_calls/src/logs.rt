//! What a log says of the rows that stood at a USN, and what it goes on saying as it grows.

ghost use Rattle.std.specs.Prelude.{◌≡◌, ◌⊎◌, ◌≤◌, ℕ, List};
ghost use Rattle.adr_values.specs.declared.stamp.Oid.{Oid};
ghost use Rattle.adr_values.specs.declared.mark.Mark.{Mark};
ghost use Rattle.adr_model.specs.Member.{Member, Each};
ghost use Rattle.adr_model.specs.Update.{Update};
ghost use Rattle.adr_model.specs.Reflects.{Knowledge};
ghost use Rattle.adr_model.specs.Store.{Held, no_mark};
ghost use Rattle.adr_model.specs.Change.{Change, held_of, rows_after};
ghost use Rattle.adr_model.specs.LocalLog.{LocalLog, last_usn, rows_at, IsBoundary, Follows, IsKept, IsOrdered, SameUnit, IsBelow, WatermarkHolds};
ghost use Rattle.adr_model.specs.Replica.{with_change};
ghost use Rattle.adr_law_calls.specs.Units.{IsAccountedFor};
ghost use Rattle.adr_law_calls.specs.Logs.{IsUnitWithin, at_moment};
ghost use Rattle.adr_model.specs.LocalLog.{first_log};

/// What a change leaves of rows: a row behind it was written by it or stood before it, and a row
/// that stood before it still stands, or a row of its unit was written in its place, or its whole
/// unit is gone.
#[tactic(none)]
pub fn changes_account_for_rows()
    ensures from { (removed : List Oid) (writes rows : List Held)
        → Each (λ x. Member x writes ⊎ Member x rows) (rows_after removed writes rows) }
    ensures units { (removed : List Oid) (writes rows : List Held)
        → Each (λ x. IsAccountedFor writes x (rows_after removed writes rows)) rows }
{}

/// USNs in a log that is well kept. Nothing is split by the last USN, or by 0.
#[tactic(none)]
pub fn logs_are_bounded()
    ensures local { (h : LocalLog) (usn : ℕ) → IsKept h
        → Each (λ x. (1 ≤ x.local) × (x.local ≤ usn)) (rows_at h usn) }
    ensures all_read { (h : LocalLog) (usn : ℕ) → IsKept h → last_usn h ≤ usn
        → rows_at h usn ≡ rows_at h (last_usn h) }
    ensures last_is_boundary { (h : LocalLog) (usn : ℕ) → IsKept h → last_usn h ≤ usn → IsBoundary h usn }
    ensures first_is_boundary { (h : LocalLog) → IsKept h → IsBoundary h 0 }
{}

/// A log begins, and goes on by a change that follows: it stays well kept, and what it said of
/// earlier USNs it still says.
#[tactic(none)]
pub fn logs_go_on()
    ensures begins { (usn : ℕ) (rows : List Held) → Each (λ x. (1 ≤ x.local) × (x.local ≤ usn)) rows
        → IsKept (first_log usn rows) }
    ensures kept { (h : LocalLog) (c : Change) → IsKept h → Follows (last_usn h) c → IsKept (with_change h c) }
    ensures rows { (h : LocalLog) (c : Change) (usn : ℕ) → Follows (last_usn h) c → usn ≤ last_usn h
        → rows_at (with_change h c) usn ≡ rows_at h usn }
    ensures boundaries { (h : LocalLog) (c : Change) (usn : ℕ) → Follows (last_usn h) c → usn ≤ last_usn h → IsBoundary h usn
        → IsBoundary (with_change h c) usn }
    ensures now { (h : LocalLog) (c : Change) → IsKept h → Follows (last_usn h) c
        → rows_at (with_change h c) c.usn ≡ rows_after c.removed (held_of c.writes) (rows_at h (last_usn h)) }
{}

/// What later rows keep of those at a boundary: a row written at or before the boundary stood there, and a
/// unit with no row behind the boundary has all the rows that it had there. So what a mark leaves out
/// of later rows it left out at its own moment.
#[tactic(none)]
pub fn later_rows_keep_a_boundary()
    ensures rows { (h : LocalLog) (boundary later : ℕ) → IsKept h → IsBoundary h boundary → boundary ≤ later
        → Each (λ x. x.local ≤ boundary → Member x (rows_at h boundary)) (rows_at h later) }
    ensures units { (h : LocalLog) (boundary later : ℕ) → IsKept h → IsBoundary h boundary → boundary ≤ later
        → Each (λ x. IsUnitWithin (rows_at h later) x boundary
        → Each (λ y. SameUnit y x → Member y (rows_at h later)) (rows_at h boundary)) (rows_at h later) }
    ensures below { (h : LocalLog) (m : Mark) (later : ℕ) → IsKept h → IsBoundary h m.seen → IsOrdered m
        → m.seen ≤ later
        → Each (λ x. IsBelow (rows_at h later) m x
        → Member x (rows_at h m.seen) × IsBelow (rows_at h m.seen) m x) (rows_at h later) }
{}

/// What a mark says of its source stays true of each later moment, and a mark of which nothing
/// was read says nothing.
#[tactic(none)]
pub fn marks_move_on()
    ensures later { (issued : List Update) (k : Knowledge) (h : LocalLog) (m : Mark) (later : ℕ) → IsKept h
        → IsBoundary h m.seen → IsOrdered m → m.seen ≤ later → WatermarkHolds issued k h m
        → WatermarkHolds issued k h (at_moment m later) }
    ensures unread { (issued : List Update) (k : Knowledge) (h : LocalLog) → IsKept h
        → WatermarkHolds issued k h no_mark }
{}
