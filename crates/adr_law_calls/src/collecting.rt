//! Collecting tombstones.

ghost use Rattle.std.specs.Prelude.{◌≡◌, ℕ, Ok};
ghost use Rattle.adr_model.specs.Store.{State};
ghost use Rattle.adr_model.specs.Change.{Change};
ghost use Rattle.adr_model.specs.LocalLog.{Follows};
ghost use Rattle.adr_model.specs.Collect.{collect};
ghost use Rattle.adr_model.specs.Replica.{Book, ToCollect};
ghost use Rattle.adr_model.specs.Sound.{last_of, IsSoundBook, IsSoundState};
ghost use Rattle.adr_law_calls.specs.Settling.{Leaves};

/// A sound state that collects: the change follows in its log, and leaves what a sound state needs.
#[tactic(none)]
pub fn collections_leave_sound_states()
    ensures { (book : Book) (s : State) (now lifetime : ℕ) (c : Change) → IsSoundBook book → IsSoundState book s
        → collect s now lifetime ≡ Ok c
        → Follows (last_of book s.inv) c × Leaves book s (record { call = ToCollect now lifetime; change = c }) }
{}
