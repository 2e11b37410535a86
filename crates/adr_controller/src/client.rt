//! What a client has a controller do.

ghost use Rattle.std.specs.Prelude.{◌≡◌, Some, IfOk, IsErrOf};
ghost use Rattle.adr_call.specs.declared.outcome.Outcome.{Outcome as Told};
ghost use Rattle.adr_model.specs.Client.{call_meant, done};
ghost use Rattle.adr_model.specs.Refused.{collect_refused, upgrade_refused, write_refused};
ghost use Rattle.adr_model.specs.Store.{State as Defined};
ghost use Rattle.adr_controller.specs.Able.{AllFollow, called_in};
ghost use Rattle.adr_controller.specs.Ended.{as_told, call_hindrance};
ghost use Rattle.adr_controller.specs.Did.{Calls};

use crate::controller::Controller;
use crate::refusal::CallRefusal;
use adr_call::{Call, CollectRefusal, Outcome, UpgradeRefusal, WriteRefusal};
use adr_journal::Keeper;
use adr_outcome::{collect_refused, upgrade_refused, write_refused};
use std::alloc::Global;

/// What is answered to a write.
fn written(made: Result<u64, CallRefusal<WriteRefusal>>) -> Result<Outcome, CallRefusal<Outcome>>
    ensures { result ≡ as_told (λ usn. Outcome.Usn usn) write_refused made }
{
    match made {
        Ok(usn) => Ok(Outcome::Usn(usn)),
        Err(CallRefusal::Refused(refusal)) => Err(CallRefusal::Refused(write_refused(refusal))),
        Err(CallRefusal::Hindered(hindrance)) => Err(CallRefusal::Hindered(hindrance)),
    }
}

/// What is answered to a collection.
fn collected(
    made: Result<u32, CallRefusal<CollectRefusal>>,
) -> Result<Outcome, CallRefusal<Outcome>>
    ensures { result ≡ as_told (λ removed. Outcome.Removed removed) collect_refused made }
{
    match made {
        Ok(removed) => Ok(Outcome::Removed(removed)),
        Err(CallRefusal::Refused(refusal)) => Err(CallRefusal::Refused(collect_refused(refusal))),
        Err(CallRefusal::Hindered(hindrance)) => Err(CallRefusal::Hindered(hindrance)),
    }
}

/// What is answered to a change-over to schema 2.
fn changed_over(
    made: Result<(), CallRefusal<UpgradeRefusal>>,
) -> Result<Outcome, CallRefusal<Outcome>>
    ensures { result ≡ as_told (λ _. Outcome.Ok) upgrade_refused made }
{
    match made {
        Ok(()) => Ok(Outcome::Ok),
        Err(CallRefusal::Refused(refusal)) => Err(CallRefusal::Refused(upgrade_refused(refusal))),
        Err(CallRefusal::Hindered(hindrance)) => Err(CallRefusal::Hindered(hindrance)),
    }
}

impl<K: Keeper> Controller<K> {
    /// Does what a client calls for at a time in seconds. It answers the outcome, or the outcome that tells the refusal.
    pub fn call(
        &mut self,
        alloc: Global,
        what: &Call,
        now: u64,
    ) -> Result<Outcome, CallRefusal<Outcome>>
        requires follows { AllFollow K.Keeper (called_in what.now now) }
        ensures told { IfOk result (λ outcome. (s : Defined) → self.old.state ≡ Some s → outcome ≡ (done s (call_meant what.now now)).0) }
        ensures refused { (s : Defined) (outcome : Told) → self.old.state ≡ Some s
            → IsErrOf result (CallRefusal.Refused outcome) → outcome ≡ (done s (call_meant what.now now)).0 }
        ensures calls { Calls K.Keeper (called_in what.now now) self.old self.new (call_hindrance result) }
    {
        match what {
            Call::Write(what) => written(self.write(alloc, what, now)),
            Call::Collect { lifetime } => collected(self.collect(alloc, now, *lifetime)),
            Call::Upgrade => changed_over(self.upgrade(alloc)),
        }
    }
}
