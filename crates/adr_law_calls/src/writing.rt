//! Originating writes.

ghost use Rattle.std.specs.Prelude.{◌≡◌, ℕ, Ok};
ghost use Rattle.adr_model.specs.Store.{State};
ghost use Rattle.adr_model.specs.Change.{Change};
ghost use Rattle.adr_model.specs.Write.{Write, write};
ghost use Rattle.adr_model.specs.Given.{IsWellGiven};
ghost use Rattle.adr_model.specs.Replica.{Book, ToWrite, issued_by};
ghost use Rattle.adr_model.specs.Sound.{IsSoundBook, IsSoundState};
ghost use Rattle.adr_law_calls.specs.Later.{MayIssue};
ghost use Rattle.adr_law_calls.specs.Settling.{Leaves};

/// A sound state that writes what a client can send: the change issues what it may, and leaves what a
/// sound state needs.
#[tactic(none)]
pub fn writes_leave_sound_states()
    ensures { (book : Book) (s : State) (w : Write) (now : ℕ) (c : Change) → IsSoundBook book → IsSoundState book s
        → IsWellGiven w → write s w now ≡ Ok c
        → MayIssue book c (issued_by (ToWrite w now) c) × Leaves book s (record { call = ToWrite w now; change = c }) }
{}
