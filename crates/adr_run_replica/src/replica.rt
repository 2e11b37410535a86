//! A controller of a run.

ghost use Rattle.std.specs.Prelude.{◌≡◌, ◌≢◌, ◌⊎◌, ◌<◌, Some, Ok, Err, OnErr, IfErr, IfOk, IfSome, true, false, OnOk, IsErrOf};
ghost use Rattle.adr_wire.specs.Headed.{is_version};
ghost use Rattle.adr_wire.specs.Ranges.{IsId};
ghost use Rattle.adr_model.specs.Spelled.{IsSpelledReply};
ghost use Rattle.adr_law_recorded.specs.Typed.{IsTypedCall};
ghost use Rattle.adr_law_recorded.specs.Ranged.{IsRangedReply, IsRangedRequest};
ghost use Rattle.adr_model.specs.Lengths.{area_fits, new_log};
ghost use Rattle.adr_disk.specs.declared.memory.Mishap.TheVariants.{Fails, Stops};
ghost use Rattle.adr_model.specs.Replica.{Down as stands_down, Failed as stands_failed, Up as stands_up, on_new_disk};
ghost use Rattle.adr_model.specs.Serve.{ask, serve};
ghost use Rattle.adr_model.specs.Store.{empty_state};
ghost use Rattle.adr_model.specs.Take.{take};
ghost use Rattle.adr_model.specs.World.{World as Defined, after_call, after_serve, after_take, nothing, starts, stays, stops, where_up};
ghost use Rattle.adr_model.specs.Client.{IsWellAsked, call_meant, done};
ghost use Rattle.adr_records.specs.Logged.{IsLogged, MayBegin};
ghost use Rattle.adr_run_replica.specs.Led.{IsDone, IsUndone, Leads, LeadsAt, synced};
ghost use Rattle.adr_run_replica.specs.Past.{noting};

use crate::hindered::{hindered, hindrance_in, hindrance_of_start, settle};
use crate::keepers::goes_as_planned;
use crate::past::{Ahead, KeptCall, Past};
use crate::told::Deed;
use adr_call::{Call, Outcome};
use adr_controller::{CallRefusal, Controller, Keeper, KeeperRefusal, StartRefusal};
use adr_cycle::{Reply, Request};
use adr_disk::Crash;
use adr_journal::Journal;
use adr_law_recorded::{
    collections_are_recorded, logged_states_fit, new_controllers_may_begin,
    quarantines_are_recorded, recorded_changes_leave_logged_states, replies_are_in_range,
    requests_are_in_range, taken_replies_are_recorded, upgrades_are_recorded, writes_are_recorded,
};
use adr_outcome::{sent, serve_refused, take_refused, unsent};
use adr_records::Records;
use adr_run_disk::MemDisk;
use adr_run_keeper::{self as rehearsal, PlannedKeeper};
use adr_state::State;
use adr_values::{Guid, NoMemory, Text};
use std::alloc::{AllocError, Global};
use std::marker::Model;

/// A controller under the name that a line gave it, on a journal in memory. What only proofs see of it is the call that
/// is on its disk and isn't safe.
pub struct Replica {
    pub(crate) name: Text,
    pub(crate) dsa: Guid,
    pub(crate) controller: Controller<Journal<MemDisk, Records>>,
    pub(crate) kept: KeptCall,
}

impl Drop for Replica {
    fn drop(self) {
        let Replica {
            name: _name,
            dsa: _,
            controller: _controller,
            kept: _kept,
        } = self;
    }
}

impl Model for Replica {
    ghost use Rattle.adr_model.specs.Replica.{Replica as Defined};
    ghost use Rattle.adr_run_replica.specs.Held.{IsHeld, seen};

    ghost Value = { Defined };

    ghost view = { λ r. seen ⟦<Journal<MemDisk, Records> as PlannedKeeper>⟧.read ⟦<Journal<MemDisk, Records> as PlannedKeeper>⟧.safe
        ⟦<Journal<MemDisk, Records> as PlannedKeeper>⟧.plan r.name r.controller r.kept };

    ghost invariant = { λ r. IsHeld ⟦<Journal<MemDisk, Records> as PlannedKeeper>⟧.read ⟦<Journal<MemDisk, Records> as PlannedKeeper>⟧.safe
        ⟦<Journal<MemDisk, Records> as PlannedKeeper>⟧.torn ⟦<Journal<MemDisk, Records> as PlannedKeeper>⟧.plan
        ⟦<Journal<MemDisk, Records> as PlannedKeeper>⟧.has_stopped r.name r.dsa r.controller r.kept };
}

impl Replica {
    /// A new, empty controller on a new disk.
    pub fn new(alloc: Global, name: Text, dsa: Guid, inv: Guid) -> Result<Replica, NoMemory>
        requires dsa { IsId dsa }
        requires inv { IsId inv }
        ensures { IfOk result (λ made. made ≡ on_new_disk name (empty_state dsa inv)) }
    {
        new_controllers_may_begin();
        match Replica::on_new_disk(alloc, name, State::first(alloc, dsa, inv)) {
            Ok(made) => Ok(made),
            // An empty controller fits on a disk.
            Err(KeeperRefusal::Full) => unreachable!(),
            // A disk without a plan doesn't fail.
            Err(_) => Err(AllocError),
        }
    }

    /// A controller on a new disk that begins with a state. It is full where a disk has no room for its log.
    pub(crate) fn on_new_disk(
        alloc: Global,
        name: Text,
        state: State,
    ) -> Result<Replica, KeeperRefusal>
        requires { MayBegin state }
        ensures made { IfOk result (λ made. made ≡ on_new_disk name state) }
        ensures fits { OnOk result (area_fits (new_log state) state.store ≡ true) }
        ensures full { IsErrOf result KeeperRefusal.Full → area_fits (new_log state) state.store ≡ false }
    {
        let dsa = state.dsa();
        let controller = match Controller::format(rehearsal::in_memory(alloc), state) {
            Ok(controller) => controller,
            Err((refusal, journal)) => {
                drop(journal);
                return Err(refusal);
            }
        };
        goes_as_planned(&controller);
        Ok(Replica {
            name,
            dsa,
            controller,
            kept: KeptCall::none(),
        })
    }

    /// The name that a line gave it.
    pub fn name(&self) -> &Text
        ensures { result.now ≡ self.now.name }
    {
        &self.name
    }

    /// Its identifier, also while it is down.
    pub fn dsa(&self) -> Guid
        ensures { result ≡ self.now.safe.dsa }
    {
        self.dsa
    }

    /// Its state, or what is answered while it is down or failed.
    pub fn state(&self) -> Result<&State, Outcome>
        ensures up { IfOk result (λ state. (self.now.standing ≡ stands_up) × (state.now ≡ self.now.safe) × IsLogged state.now) }
        ensures other { IfErr result (λ outcome.
            ((self.now.standing ≡ stands_down) × (outcome ≡ Outcome.Down))
            ⊎ ((self.now.standing ≡ stands_failed) × (outcome ≡ Outcome.Failed))) }
    {
        goes_as_planned(&self.controller);
        if self.controller.is_down() {
            return Err(Outcome::Down);
        }
        match self.controller.state() {
            Some(state) => Ok(state),
            None => Err(Outcome::Failed),
        }
    }

    /// Does what a client calls for at a time in seconds.
    pub fn call(
        &mut self,
        alloc: Global,
        past: &mut Past,
        what: &Call,
        now: u64,
    ) -> Result<Outcome, NoMemory>
        requires given { IsWellAsked what.now }
        requires typed { IsTypedCall what.now }
        ensures called { let call = call_meant what.now now in
            IfOk result (λ outcome. Leads self.old past.old (λ w. where_up (stays w) self.old.standing (after_call w self.old call (done self.old.safe call))) self.new past.new outcome) }
        ensures err { OnErr result (IsUndone self.old past.old self.new past.new) }
        ensures name { self.new.name ≡ self.old.name }
        ensures given { past.new.given ≡ past.old.given }
    {
        let ahead = Ahead::of(
            past,
            &Deed::Calls {
                replica: &*self,
                what,
                now,
            },
        );
        goes_as_planned(&self.controller);
        recorded_changes_leave_logged_states();
        logged_states_fit();
        writes_are_recorded();
        collections_are_recorded();
        upgrades_are_recorded();
        let made = self.controller.call(alloc, what, now);
        let how = hindrance_in(&made);
        let stopped = settle(&mut self.controller, &mut self.kept, past, ahead, how);
        match made {
            Ok(outcome) => Ok(outcome),
            Err(CallRefusal::Refused(outcome)) => Ok(outcome),
            Err(CallRefusal::Hindered(hindrance)) => hindered(hindrance, stopped),
        }
    }

    /// What it asks a partner of this identifier in a version, at most `max` items in one reply.
    pub fn ask(
        &self,
        alloc: Global,
        partner: Guid,
        max: u32,
        version: u16,
    ) -> Result<(Outcome, Option<Request>), NoMemory>
        requires version { is_version version ≡ true }
        ensures asked { IfOk result (λ sent. (w : Defined) → where_up (nothing w) self.now.standing (w, Outcome.Ok, Some (ask self.now.safe partner max version)) ≡ (w, sent.0, sent.1)) }
        ensures ranged { IfOk result (λ sent. IfSome sent.1 IsRangedRequest) }
    {
        goes_as_planned(&self.controller);
        requests_are_in_range();
        match self.controller.ask(alloc, partner, max, version) {
            Ok(request) => Ok((Outcome::Ok, Some(request))),
            // Asking calls no disk, so that none stopped within it.
            Err(hindrance) => Ok((hindered(hindrance, false)?, None)),
        }
    }

    /// What a request is answered at a time in seconds.
    pub fn serve(
        &mut self,
        alloc: Global,
        past: &mut Past,
        request: &Request,
        now: u64,
    ) -> Result<(Outcome, Option<Reply>), NoMemory>
        requires { IsRangedRequest request.now }
        ensures served { IfOk result (λ sent. LeadsAt now self.old past.old (λ w. where_up (nothing w) self.old.standing (after_serve w self.old (serve self.old.safe request.now w.time))) self.new past.new sent.0 sent.1) }
        ensures spelled { IfOk result (λ sent. IfSome sent.1 (λ reply. IsSpelledReply reply × IsRangedReply reply)) }
        ensures err { OnErr result (IsUndone self.old past.old self.new past.new) }
        ensures name { self.new.name ≡ self.old.name }
        ensures given { past.new.given ≡ past.old.given }
    {
        let sent = self.answer(alloc, past, request, now)?;
        past.note(&sent.1, now);
        Ok(sent)
    }

    /// What a request is answered, before the reply is noted.
    fn answer(
        &mut self,
        alloc: Global,
        past: &mut Past,
        request: &Request,
        now: u64,
    ) -> Result<(Outcome, Option<Reply>), NoMemory>
        requires { IsRangedRequest request.now }
        ensures served { IfOk result (λ sent. LeadsAt now self.old past.old (λ w. where_up (nothing w) self.old.standing (after_serve w self.old (serve self.old.safe request.now w.time))) self.new (noting past.new now sent.1) sent.0 sent.1) }
        ensures spelled { IfOk result (λ sent. IfSome sent.1 (λ reply. IsSpelledReply reply × IsRangedReply reply)) }
        ensures err { OnErr result (IsUndone self.old past.old self.new past.new) }
        ensures name { self.new.name ≡ self.old.name }
        ensures given { past.new.given ≡ past.old.given }
    {
        let ahead = Ahead::of(
            past,
            &Deed::Serves {
                replica: &*self,
                request,
            },
        );
        goes_as_planned(&self.controller);
        recorded_changes_leave_logged_states();
        logged_states_fit();
        quarantines_are_recorded();
        replies_are_in_range();
        let made = self.controller.serve(alloc, request, now);
        let how = hindrance_in(&made);
        let stopped = settle(&mut self.controller, &mut self.kept, past, ahead, how);
        match made {
            Ok(reply) => sent(reply),
            Err(CallRefusal::Refused(refusal)) => Ok((serve_refused(refusal), None)),
            Err(CallRefusal::Hindered(hindrance)) => unsent(hindered(hindrance, stopped)),
        }
    }

    /// Takes a reply.
    pub fn take(
        &mut self,
        alloc: Global,
        past: &mut Past,
        reply: &Reply,
    ) -> Result<Outcome, NoMemory>
        requires spelled { IsSpelledReply reply.now }
        requires ranged { IsRangedReply reply.now }
        ensures taken { IfOk result (λ outcome. Leads self.old past.old (λ w. where_up (stays w) self.old.standing (after_take w self.old reply.now (take self.old.safe reply.now))) self.new past.new outcome) }
        ensures err { OnErr result (IsUndone self.old past.old self.new past.new) }
        ensures name { self.new.name ≡ self.old.name }
        ensures given { past.new.given ≡ past.old.given }
    {
        let ahead = Ahead::of(
            past,
            &Deed::Takes {
                replica: &*self,
                reply,
            },
        );
        goes_as_planned(&self.controller);
        recorded_changes_leave_logged_states();
        logged_states_fit();
        taken_replies_are_recorded();
        quarantines_are_recorded();
        let made = self.controller.take(alloc, reply);
        let how = hindrance_in(&made);
        let stopped = settle(&mut self.controller, &mut self.kept, past, ahead, how);
        match made {
            Ok(taken) => Ok(Outcome::Took {
                items: taken.items,
                wrote: taken.wrote,
                usn: taken.usn,
            }),
            Err(CallRefusal::Refused(refusal)) => Ok(take_refused(refusal)),
            Err(CallRefusal::Hindered(hindrance)) => hindered(hindrance, stopped),
        }
    }

    /// Lets so many writes and syncs of its disk pass, and crashes within the next.
    pub fn stop_after(&mut self, calls: u32, how: Crash)
        ensures { self.new ≡ record self.old { device = record self.old.device { plan = Some (record { calls = calls; mishap = Stops how }) } } }
    {
        rehearsal::stop_after(&mut self.controller, calls, how);
    }

    /// Lets so many writes and syncs of its disk pass, and fails the next, which changes nothing.
    pub fn fail_after(&mut self, calls: u32)
        ensures { self.new ≡ record self.old { device = record self.old.device { plan = Some (record { calls = calls; mishap = Fails }) } } }
    {
        rehearsal::fail_after(&mut self.controller, calls);
    }

    /// Stops it, and drops a plan. What its disk wasn't told to sync is kept.
    pub fn stop(&mut self, past: &mut Past)
        ensures stopped { Leads self.old past.old (λ w. stops w self.old) self.new past.new Outcome.Ok }
        ensures name { self.new.name ≡ self.old.name }
        ensures given { past.new.given ≡ past.old.given }
    {
        let ahead = Ahead::of(past, &Deed::Stops(&*self));
        rehearsal::crash(&mut self.controller, Crash::Kept);
        *past = ahead.past;
        self.kept = ahead.kept;
    }

    /// Starts it, unless it is up.
    pub fn start(&mut self, past: &mut Past) -> Result<Outcome, NoMemory>
        ensures started { IfOk result (λ outcome. Leads self.old past.old (λ w. starts w self.old self.old.standing) self.new past.new outcome) }

        // Where memory is wanted behind the sync that a start begins with, the sync stands.
        ensures err { OnErr result (IsUndone self.old past.old self.new past.new
            ⊎ ((self.old.standing ≢ stands_up) × IsDone self.old past.old (λ w. synced w self.old) self.new past.new)) }
        ensures name { self.new.name ≡ self.old.name }
        ensures given { past.new.given ≡ past.old.given }
    {
        if self.controller.state().is_some() {
            return Ok(Outcome::Up);
        }
        let ahead = Ahead::of(past, &Deed::Starts(&*self));
        rehearsal::revive(&mut self.controller);
        goes_as_planned(&self.controller);
        let started = self.controller.start();
        let how = hindrance_of_start(&started);
        let stopped = settle(&mut self.controller, &mut self.kept, past, ahead, how);
        match started {
            Ok(()) => Ok(Outcome::Ok),
            Err(StartRefusal::DiskFault) if stopped => Ok(Outcome::Stopped),
            Err(StartRefusal::DiskFault) => Ok(Outcome::Disk),
            Err(StartRefusal::NoMemory { .. }) => Err(AllocError),
            Err(StartRefusal::Damaged { .. }) => unreachable!(),
        }
    }
}
