//! What the moves of a controller between its two states keep: a change begins, settles, or is
//! forgotten.

ghost use Rattle.std.specs.Prelude.{◌≡◌, ◌≢◌, Some};
ghost use Rattle.adr_model.specs.Change.{after};
ghost use Rattle.adr_model.specs.Replica.{Pending, change_of, Up, Replica, Book, Begin, Settle, Forget, moved};
ghost use Rattle.adr_model.specs.Sound.{IsSoundBook, IsSoundState, IsSoundCall, IsSettled, IsSoundReplica};
ghost use Rattle.adr_law_calls.specs.Settling.{MaySettle, HasSettled};

/// A controller whose call begins is sound while it isn't up; one that forgets is sound and has
/// nothing to settle. A kept call that settles leaves a later book, and book and controller are
/// sound, where the change may be recorded and the state after it is sound.
#[tactic(none)]
pub fn moves_keep_what_is_sound()
    ensures begin { (book : Book) (r : Replica) (p : Pending) → IsSoundState book r.safe → IsSoundCall book p.call
        → change_of r.safe p.call ≡ Some p.change → r.standing ≢ Up
        → IsSoundReplica book (moved (book, r) (Begin p)).1 }
    ensures forget { (book : Book) (r : Replica) → IsSoundReplica book r
        → IsSoundReplica book (moved (book, r) Forget).1 × IsSettled (moved (book, r) Forget).1 }
    ensures settle { (book : Book) (r : Replica) (p : Pending) → IsSoundBook book → r.kept ≡ Some p
        → r.read ≡ after r.safe p.change → MaySettle book r p → HasSettled book (moved (book, r) Settle) }
    ensures idle { (book : Book) (r : Replica) → IsSettled r → IsSoundReplica book r
        → ((moved (book, r) Settle).0 ≡ book) × IsSoundReplica book (moved (book, r) Settle).1 }
{}
