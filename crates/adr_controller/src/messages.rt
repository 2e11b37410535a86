//! Messages between controllers.

ghost use Rattle.std.specs.Prelude.{◌≡◌, ◌↔◌, ◌≤◌, true, false, Some, None, Ok, Err, IfOk, IfErr, IsErrOf, IsSome, length};
ghost use Rattle.std.specs.Option.{ForSome};
ghost use Rattle.adr_call.specs.declared.refusal.ServeRefusal.{ServeRefusal};
ghost use Rattle.adr_call.specs.declared.refusal.TakeRefusal.{TakeRefusal};
ghost use Rattle.adr_model.specs.Store.{State as Defined};
ghost use Rattle.adr_model.specs.Change.{Change as Changes, after};
ghost use Rattle.adr_model.specs.Collect.{quarantine};
ghost use Rattle.adr_model.specs.Serve.{ask, serve};
ghost use Rattle.adr_model.specs.Take.{take};
ghost use Rattle.adr_model.specs.Write.{usn_limit};
ghost use Rattle.adr_cycle.specs.ReplyRefused.{refusal_before};
ghost use Rattle.adr_controller.specs.Able.{AllFollow, CanCommit, quarantine_in, reply_shows, request_shows, served_in, taken_in};
ghost use Rattle.adr_controller.specs.Ended.{call_hindrance, hindrance_in, hindrance_of};
ghost use Rattle.adr_controller.specs.Did.{Calls};

use crate::controller::Controller;
use crate::refusal::{CallRefusal, Hindrance};
use adr_call::{Failure, ServeRefusal, TakeRefusal};
use adr_cycle::{Reply, Request, ask, count, serve, take};
use adr_journal::Keeper;
use adr_state::{Change, Mode, State, Times, Vector};
use adr_values::{Guid, NoMemory};
use std::alloc::Global;

/// What comes of a reply that was taken: how many items it had, how many of them were written, and the USN then.
#[derive(Clone, Copy)]
pub struct Taken {
    pub items: u32,
    pub wrote: u32,
    pub usn: u64,
}

/// What is told of a reply whose change is this.
fn told_of(reply: &Reply, change: &Change) -> Result<Taken, NoMemory>
    ensures { IfOk result (λ taken.
        taken ≡ record {
          items = length reply.now.items;
          wrote = length change.now.writes;
          usn = change.now.usn;
        }) }
{
    Ok(Taken {
        items: count(reply.items().len())?,
        wrote: count(change.writes().len())?,
        usn: change.usn(),
    })
}

/// Whether a refused request shows that the controller was put back.
fn request_shows(refusal: &ServeRefusal) -> bool
    ensures { result ≡ request_shows refusal.now }
{
    matches!(refusal, ServeRefusal::RolledBack { .. })
}

/// Whether a refused reply shows that the controller was put back.
fn reply_shows(refusal: &TakeRefusal) -> bool
    ensures { result ≡ reply_shows refusal.now }
{
    matches!(refusal, TakeRefusal::RolledBack { .. })
}

/// The change of a controller that is quarantined.
fn quarantine(alloc: Global, state: &State) -> Change
    ensures { result ≡ quarantine state.now }
{
    Change::new(
        state.usn(),
        Mode::Quarantined,
        state.schema(),
        None,
        Vector::new(alloc),
        Times::new(alloc),
        Vector::new(alloc),
        Vec::new(alloc),
        Vec::new(alloc),
    )
}

impl<K: Keeper> Controller<K> {
    /// Quarantines the controller, which is up, if it was shown that it was put back.
    fn quarantine_if(&mut self, alloc: Global, put_back: bool) -> Result<(), Hindrance>
        requires up { IsSome self.old.state }
        requires follows { ForSome self.old.state (λ s.
            put_back ≡ true → CanCommit K.Keeper s (quarantine s)) }
        ensures unshown { put_back ≡ false → hindrance_of result ≡ None }
        ensures calls { Calls K.Keeper (quarantine_in put_back) self.old self.new (hindrance_of result) }
    {
        let state = self.running()?;
        if !put_back {
            return Ok(());
        }
        let change = quarantine(alloc, state);
        self.commit(change)
    }

    /// Refuses a message. A controller that the refusal shows to be put back is quarantined before.
    fn refuse<R: Copy>(&mut self, alloc: Global, refusal: R, put_back: bool) -> CallRefusal<R>
        requires up { IsSome self.old.state }
        requires follows { ForSome self.old.state (λ s.
            put_back ≡ true → CanCommit K.Keeper s (quarantine s)) }
        ensures refused { (r : R) → result ≡ CallRefusal.Refused r → r ≡ refusal }
        ensures unshown { put_back ≡ false → result ≡ CallRefusal.Refused refusal }
        ensures calls { Calls K.Keeper (quarantine_in put_back) self.old self.new (hindrance_in result) }
    {
        match self.quarantine_if(alloc, put_back) {
            Ok(()) => CallRefusal::Refused(refusal),
            Err(hindrance) => CallRefusal::Hindered(hindrance),
        }
    }

    /// What it asks a partner: the changes behind the mark that it has of the partner, at most `max` items in one reply,
    /// in a version of the protocol.
    pub fn ask(
        &self,
        alloc: Global,
        partner: Guid,
        max: u32,
        version: u16,
    ) -> Result<Request, Hindrance>
        ensures ok { IfOk result (λ request.
            (s : Defined) × (self.now.state ≡ Some s) × (request ≡ ask s partner max version)) }
        ensures down { (hindrance_of result ≡ Some Hindrance.Down) ↔ (self.now.down ≡ true) }
        ensures failed { (hindrance_of result ≡ Some Hindrance.Failed)
            ↔ ((self.now.down ≡ false) × (self.now.state ≡ None)) }
        ensures up { (s : Defined) → self.now.state ≡ Some s
            → IfErr result (λ hindrance. hindrance ≡ Hindrance.NoMemory) }
    {
        let state = self.running()?;
        match ask(alloc, state, partner, max, version) {
            Ok(request) => Ok(request),
            Err(_) => Err(Hindrance::NoMemory),
        }
    }

    /// What a request is answered at a time in seconds. A controller that shows that it was put back is quarantined
    /// before it refuses.
    pub fn serve(
        &mut self,
        alloc: Global,
        request: &Request,
        now: u64,
    ) -> Result<Reply, CallRefusal<ServeRefusal>>
        requires follows { AllFollow K.Keeper (served_in request.now now) }
        ensures served { IfOk result (λ reply.
            (s : Defined) → self.old.state ≡ Some s → serve s request.now now ≡ Ok reply) }
        ensures refused { (s : Defined) (refusal : ServeRefusal) → self.old.state ≡ Some s
            → IsErrOf result (CallRefusal.Refused refusal) → serve s request.now now ≡ Err refusal }

        // Want of memory never stands for a refusal. One that shows that it was put back is answered behind the quarantine.
        ensures exact { (s : Defined) (refusal : ServeRefusal) → self.old.state ≡ Some s
            → request_shows refusal ≡ false → serve s request.now now ≡ Err refusal
            → IsErrOf result (CallRefusal.Refused refusal) }
        ensures put_back { (s : Defined) (refusal : ServeRefusal) → self.old.state ≡ Some s
            → IsErrOf result (CallRefusal.Refused refusal) → request_shows refusal ≡ true
            → self.new.state ≡ Some (after s (quarantine s)) }
        ensures calls { Calls K.Keeper (served_in request.now now) self.old self.new (call_hindrance result) }
    {
        let state = self.running()?;
        match serve(alloc, state, request, now) {
            Ok(reply) => Ok(reply),
            Err(Failure::NoMemory) => Err(CallRefusal::Hindered(Hindrance::NoMemory)),
            Err(Failure::Refused(refusal)) => {
                let put_back = request_shows(&refusal);
                Err(self.refuse(alloc, refusal, put_back))
            }
        }
    }

    /// Takes a reply. A controller that finds that it was put back is quarantined before it refuses.
    pub fn take(&mut self, alloc: Global, reply: &Reply) -> Result<Taken, CallRefusal<TakeRefusal>>
        requires usn { ForSome self.old.state (λ s. s.store.usn ≤ usn_limit) }
        requires follows { AllFollow K.Keeper (taken_in reply.now) }
        ensures taken { IfOk result (λ taken. (s : Defined) → self.old.state ≡ Some s
            → (c : Changes) × (take s reply.now ≡ Ok c)
            × (taken ≡ record { items = length reply.now.items; wrote = length c.writes; usn = c.usn })) }
        ensures refused { (s : Defined) (refusal : TakeRefusal) → self.old.state ≡ Some s
            → IsErrOf result (CallRefusal.Refused refusal) → take s reply.now ≡ Err refusal }

        // Want of memory never stands for a refusal that comes before the items are looked at. One that shows that it
        // was put back is answered behind the quarantine.
        ensures before { (s : Defined) (refusal : TakeRefusal) → self.old.state ≡ Some s
            → reply_shows refusal ≡ false → refusal_before s reply.now ≡ Some refusal
            → IsErrOf result (CallRefusal.Refused refusal) }
        ensures put_back { (s : Defined) (refusal : TakeRefusal) → self.old.state ≡ Some s
            → IsErrOf result (CallRefusal.Refused refusal) → reply_shows refusal ≡ true
            → self.new.state ≡ Some (after s (quarantine s)) }
        ensures calls { Calls K.Keeper (taken_in reply.now) self.old self.new (call_hindrance result) }
    {
        let state = self.running()?;
        match take(alloc, state, reply) {
            Ok(change) => {
                let told = told_of(reply, &change);
                self.conclude(change, told)
            }
            Err(Failure::NoMemory) => Err(CallRefusal::Hindered(Hindrance::NoMemory)),
            Err(Failure::Refused(refusal)) => {
                let put_back = reply_shows(&refusal);
                Err(self.refuse(alloc, refusal, put_back))
            }
        }
    }
}
