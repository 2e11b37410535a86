//! A controller over its keeper.

ghost use Rattle.std.specs.Prelude.{◌≡◌, ◌⊎◌, ◌↔◌, ◌-◌, ◌^◌, ◌≤◌, ◌<◌, ℕ, true, false, Option, Some, None, Ok, IfOk, IfErr, IfSome, IsErrOf, IsSome, OnErr, OnOk, MatchOption};
ghost use Rattle.std.specs.Fn.{FnOnceReturnsAtMut};
ghost use Rattle.std.specs.Option.{ForSome};
ghost use Rattle.adr_disk.specs.Disk.{Among, LeavesOnly};
ghost use Rattle.adr_model.specs.Store.{State as Defined};
ghost use Rattle.adr_model.specs.Change.{Change as Changes};
ghost use Rattle.adr_model.specs.Lengths.{area_fits, image_length, new_log};
ghost use Rattle.adr_law_journal.specs.Areas.{found};
ghost use Rattle.adr_journal.specs.Ended.{ended_start, IsNewOrNone, IsDamageOf, StillReads};
ghost use Rattle.adr_controller.specs.Running.{IsInOrder, IsStarted};
ghost use Rattle.adr_controller.specs.Able.{CanCommit};
ghost use Rattle.adr_controller.specs.Ended.{call_hindrance, handed_back, hindrance_of, keeper_of};
ghost use Rattle.adr_controller.specs.Did.{Calls, Commits, IsMade, KeepsAll};

use crate::keeping::keep;
use crate::refusal::{CallRefusal, Hindrance};
use adr_journal::{Keeper, KeeperRefusal, StartRefusal};
use adr_state::{Change, State};
use adr_values::NoMemory;
use std::marker::Model;

/// A keeper with the state that it stands for; none while the controller is stopped, or its keeper failed.
#[derive(Drop)]
pub struct Controller<K: Keeper> {
    pub(crate) keeper: K,
    pub(crate) state: Option<State>,
    pub(crate) down: bool,
}

impl<K: Keeper> Model for Controller<K> {
    ghost use Rattle.adr_controller.specs.Running.{Running, IsInOrder};

    ghost Value = { Running K };

    ghost view = { λ c. record { keeper = c.keeper; state = c.state; down = c.down } };

    ghost invariant = { λ c. IsInOrder K.Keeper (record { keeper = c.keeper; state = c.state; down = c.down }) };
}

/// Lets go of a state in memory.
pub(crate) fn forget(state: &mut Option<State>)
    ensures { state.new ≡ None }
{
    drop(state.take());
}

impl<K: Keeper> Controller<K> {
    /// Formats a keeper with a state, which a controller then has. A keeper that couldn't be formatted comes back. It is
    /// full where the log would end beyond its limit, or the image would be too long.
    pub fn format(mut keeper: K, state: State) -> Result<Controller<K>, (KeeperRefusal, K)>
        requires empty { K.is_empty keeper }
        requires begins { K.can_begin state }
        requires formed { K.is_formed state }
        ensures ok { IfOk result (λ c. (c.state ≡ Some state) × (c.down ≡ false)
            × K.is_at c.keeper (found state (new_log state))) }
        ensures refused { IfErr result (λ e. (e.0 ≡ KeeperRefusal.DiskFault)
            ⊎ ((e.0 ≡ KeeperRefusal.Full) ⊎ (e.0 ≡ KeeperRefusal.NoMemory))) }
        ensures full { IfErr result (λ e. e.0 ≡ KeeperRefusal.Full
            → (e.1 ≡ keeper) × (area_fits (new_log state) state.store ≡ false)) }
        ensures fits { OnOk result (area_fits (new_log state) state.store ≡ true) }
        ensures fits_too { IfErr result (λ e. e.0 ≡ KeeperRefusal.DiskFault
            → area_fits (new_log state) state.store ≡ true) }
        ensures fault { IfErr result (λ e. e.0 ≡ KeeperRefusal.DiskFault
            → (K.faults keeper < K.faults e.1) × (K.is_failed e.1 ≡ true)) }
        ensures no_memory { IfErr result (λ e. e.0 ≡ KeeperRefusal.NoMemory
            → KeepsAll K.Keeper keeper e.1) }
        ensures unwritten { IfErr result (λ e. e.0 ≡ KeeperRefusal.NoMemory
            → K.content e.1 ≡ K.content keeper) }

        // But for a fault of its disk, a keeper that comes back is empty still.
        ensures again { IfErr result (λ e. (e.0 ≡ KeeperRefusal.DiskFault) ⊎ K.is_empty e.1) }
        ensures later { K.faults keeper ≤ K.faults (keeper_of result) }
        ensures told { IsSome (K.told (keeper_of result)) ↔ IsSome (K.told keeper) }

        // Whatever it answers, what a start finds after a crash at any moment of the call, and after one from then on.
        ensures any_moment { IfSome (K.told keeper) (λ _.
            LeavesOnly K.moment K.left_since keeper (keeper_of result) (IsNewOrNone state)) }
        ensures left { IfSome (K.told keeper) (λ _.
            Among (IsNewOrNone state) (K.may_leave (keeper_of result))) }
        ensures within { IfOk result (λ c. K.is_within c.keeper 0 (image_length state.store) 0) }
        ensures formats { K.formats keeper (handed_back result) (keeper_of result) }
    {
        match keeper.format(&state) {
            Ok(()) => Ok(Controller {
                keeper,
                state: Some(state),
                down: false,
            }),
            Err(refusal) => {
                drop(state);
                Err((refusal, keeper))
            }
        }
    }

    /// Starts a keeper, whose state a controller then has. A keeper that couldn't be started comes back.
    pub fn resume(mut keeper: K) -> Result<Controller<K>, (StartRefusal, K)>
        ensures ok { IfOk result (λ c. IsStarted K.Keeper keeper c) }
        ensures damaged { IfErr result (λ e. IsDamageOf e.0 (K.told keeper)) }
        ensures fault { IfErr result (λ e.
            e.0 ≡ StartRefusal.DiskFault → K.faults keeper < K.faults e.1) }
        ensures uncounted { IfErr result (λ e. e.0 ≡ StartRefusal.NoMemory false
            → K.faults keeper ≡ 2 ^ 64 - 1) }
        ensures still { IfErr result (λ e.
            StillReads K.told K.may_leave K.moment K.left_since e.0 keeper e.1) }

        // But for a fault of its disk, its bytes are what they were.
        ensures unwritten { (handed_back result ≡ Some StartRefusal.DiskFault)
            ⊎ (K.content (keeper_of result) ≡ K.content keeper) }
        ensures later { K.faults keeper ≤ K.faults (keeper_of result) }
        ensures told { IsSome (K.told (keeper_of result)) ↔ IsSome (K.told keeper) }

        // After a crash at any moment of the call, a start finds what one might have found before it.
        ensures any_moment { let kept = keeper_of result in
            LeavesOnly K.moment K.left_since keeper kept (K.may_leave keeper) }
        ensures left { Among (K.may_leave keeper) (K.may_leave (keeper_of result)) }
        ensures within { (file image longest : ℕ) → K.is_within keeper file image longest
            → K.is_within (keeper_of result) file image longest }
        ensures starts { K.starts keeper (handed_back result) (keeper_of result) }
    {
        match keeper.start() {
            Ok(state) => Ok(Controller {
                keeper,
                state: Some(state),
                down: false,
            }),
            Err(refusal) => Err((refusal, keeper)),
        }
    }

    /// Starts the controller again. Where that fails, it is as down or failed as before.
    pub fn start(&mut self) -> Result<(), StartRefusal>
        requires { (self.old.down ≡ true) ⊎ (self.old.state ≡ None) }
        ensures ok { OnOk result (IsStarted K.Keeper self.old.keeper self.new) }
        ensures err { OnErr result ((self.new.state ≡ None) × (self.new.down ≡ self.old.down)) }
        ensures damaged { IfErr result (λ e. IsDamageOf e (K.told self.old.keeper)) }
        ensures fault { IsErrOf result StartRefusal.DiskFault
            → K.faults self.old.keeper < K.faults self.new.keeper }
        ensures uncounted { IsErrOf result (StartRefusal.NoMemory false)
            → K.faults self.old.keeper ≡ 2 ^ 64 - 1 }
        ensures still { IfErr result (λ e.
            StillReads K.told K.may_leave K.moment K.left_since e self.old.keeper self.new.keeper) }

        // But for a fault of its disk, its bytes are what they were.
        ensures unwritten { IsErrOf result StartRefusal.DiskFault
            ⊎ (K.content self.new.keeper ≡ K.content self.old.keeper) }
        ensures later { K.faults self.old.keeper ≤ K.faults self.new.keeper }
        ensures told { IsSome (K.told self.new.keeper) ↔ IsSome (K.told self.old.keeper) }

        // After a crash at any moment of the call, a start finds what one might have found before it.
        ensures any_moment { let before = K.may_leave self.old.keeper in
            LeavesOnly K.moment K.left_since self.old.keeper self.new.keeper before }
        ensures left { Among (K.may_leave self.old.keeper) (K.may_leave self.new.keeper) }
        ensures within { (file image longest : ℕ) → K.is_within self.old.keeper file image longest
            → K.is_within self.new.keeper file image longest }
        ensures starts { K.starts self.old.keeper (ended_start result) self.new.keeper }
    {
        match self.keeper.start() {
            Ok(state) => {
                drop(self.state.replace(state));
                self.down = false;
                Ok(())
            }
            Err(refusal) => Err(refusal),
        }
    }

    /// Stops the controller, which lets go of the state in memory.
    pub fn stop(&mut self)
        ensures { self.new ≡ record { keeper = self.old.keeper; state = None; down = true } }
    {
        forget(&mut self.state);
        self.down = true;
    }

    /// Its keeper.
    pub fn keeper(&self) -> &K
        ensures { result.now ≡ self.now.keeper }
    {
        &self.keeper
    }

    /// Has something done to its keeper that leaves the controller in order, as whoever rehearses faults does.
    pub fn attend<A: FnOnce(&mut K)>(&mut self, act: A)
        requires callable { A.IsAlwaysCallable act }
        requires in_order { (keeper : K) → FnOnceReturnsAtMut A.FnOnce act self.old.keeper tt keeper
            → IsInOrder K.Keeper self.old → IsInOrder K.Keeper (record self.old { keeper = keeper }) }
        ensures acted { FnOnceReturnsAtMut A.FnOnce act self.old.keeper tt self.new.keeper }
        ensures stays { self.new ≡ record self.old { keeper = self.new.keeper } }
    {
        act(&mut self.keeper);
    }

    /// The state; none while the controller is down or failed.
    pub fn state(&self) -> Option<&State>
        ensures state { MatchOption result (self.now.state ≡ None) (λ s. self.now.state ≡ Some s.now) }
        ensures in_order { IsInOrder K.Keeper self.now }
    {
        self.state.as_ref()
    }

    /// Whether it was stopped, and not started since.
    pub fn is_down(&self) -> bool
        ensures { result ≡ self.now.down }
    {
        self.down
    }

    /// Its keeper, without the controller.
    pub fn into_keeper(self) -> K
        ensures { result ≡ self.keeper }
    {
        let Controller { keeper, state, .. } = self;
        drop(state);
        keeper
    }

    /// The state, or what keeps the controller from answering.
    pub(crate) fn running(&self) -> Result<&State, Hindrance>
        ensures ok { IfOk result (λ s.
            (self.now.state ≡ Some s.now) × (self.now.down ≡ false) × K.is_formed s.now) }
        ensures err { IfErr result (λ h.
            ((h ≡ Hindrance.Down) × (self.now.down ≡ true) × (self.now.state ≡ None))
            ⊎ ((h ≡ Hindrance.Failed) × (self.now.down ≡ false) × (self.now.state ≡ None))) }
        ensures in_order { IsInOrder K.Keeper self.now }
    {
        if self.down {
            return Err(Hindrance::Down);
        }
        match &self.state {
            Some(state) => Ok(state),
            None => Err(Hindrance::Failed),
        }
    }

    /// Commits a change of the state, to the keeper and in memory.
    pub(crate) fn commit(&mut self, change: Change) -> Result<(), Hindrance>
        requires { ForSome self.old.state (λ s. CanCommit K.Keeper s change) }
        ensures down { (hindrance_of result ≡ Some Hindrance.Down) ↔ (self.old.down ≡ true) }
        ensures failed { (hindrance_of result ≡ Some Hindrance.Failed)
            ↔ ((self.old.down ≡ false) × (self.old.state ≡ None)) }
        ensures stays { self.old.state ≡ None → self.new ≡ self.old }
        ensures commits { (s : Defined) → self.old.state ≡ Some s
            → Commits K.Keeper s change self.old self.new (hindrance_of result) }
    {
        if self.down {
            return Err(Hindrance::Down);
        }
        let Some(state) = &mut self.state else {
            return Err(Hindrance::Failed);
        };
        match keep(&mut self.keeper, state, change) {
            Ok(()) => Ok(()),
            Err(Hindrance::DiskFault) => {
                forget(&mut self.state);
                Err(Hindrance::DiskFault)
            }
            Err(hindrance) => Err(hindrance),
        }
    }

    /// Commits the change that a call makes of the state, and gives the call's answer, which is told before. Where that
    /// wanted memory, nothing is committed.
    pub(crate) fn conclude<T: Copy, R>(
        &mut self,
        change: Change,
        told: Result<T, NoMemory>,
    ) -> Result<T, CallRefusal<R>>
        requires { ForSome self.old.state (λ s. CanCommit K.Keeper s change) }
        ensures told { IfOk result (λ answer. told ≡ Ok answer) }
        ensures not_refused { (refusal : R) → IsErrOf result (CallRefusal.Refused refusal) → ⊥ }
        ensures calls { (changes : Defined → Option Changes) → IsMade K.Keeper changes self.old change
            → Calls K.Keeper changes self.old self.new (call_hindrance result) }
    {
        let answer = told?;
        self.commit(change)?;
        Ok(answer)
    }
}
