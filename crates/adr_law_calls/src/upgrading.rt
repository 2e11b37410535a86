//! Changing over to schema 2.

ghost use Rattle.std.specs.Prelude.{◌≡◌, Ok};
ghost use Rattle.adr_model.specs.Store.{State};
ghost use Rattle.adr_model.specs.Change.{Change};
ghost use Rattle.adr_model.specs.LocalLog.{Follows};
ghost use Rattle.adr_model.specs.Upgrade.{upgrade};
ghost use Rattle.adr_model.specs.Replica.{Book, ToUpgrade};
ghost use Rattle.adr_model.specs.Sound.{last_of, IsSoundBook, IsSoundState};
ghost use Rattle.adr_law_calls.specs.Settling.{Leaves};

/// A sound state that changes over: the change follows in its log, and leaves what a sound state needs.
#[tactic(none)]
pub fn upgrades_leave_sound_states()
    ensures { (book : Book) (s : State) (c : Change) → IsSoundBook book → IsSoundState book s → upgrade s ≡ Ok c
        → Follows (last_of book s.inv) c × Leaves book s (record { call = ToUpgrade; change = c }) }
{}
