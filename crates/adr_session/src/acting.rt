//! A client's call is done, and told.

ghost use Rattle.std.specs.Prelude.{◌≡◌, ℕ, List, IfOk, IsSome, Some};
ghost use Rattle.adr_call.specs.declared.refusal.Table.TheVariants.{Log};
ghost use Rattle.adr_model.specs.Lengths.{log_limit};
ghost use Rattle.adr_model.specs.Refused.{full};
ghost use Rattle.adr_call.specs.declared.call.Call.{Call as Did};
ghost use Rattle.adr_model.specs.Client.{call_meant, done};
ghost use Rattle.adr_session.specs.Lines.{IsAlwaysGiven};
ghost use Rattle.adr_session.specs.Made.{Makes, Tells};
ghost use Rattle.adr_session.specs.Talk.{did, told};
ghost use Rattle.adr_law_controller.specs.Keeping.{KeepsLog};

use crate::ending::ServeFault;
use adr_answers::push_nameless;
use adr_call::{Call, Outcome, Table};
use adr_controller::{CallRefusal, Controller, Hindrance, Keeper};
use adr_frames::OUTCOME;
use adr_outcome::full;
use adr_state::LOG_LIMIT;
use adr_values::NoMemory;
use std::alloc::Global;

/// What is told of a call that was hindered: a full log is. A controller that has no state in memory tells nothing.
fn outcome_of(hindrance: Hindrance) -> Result<Outcome, ServeFault>
    ensures { (call : Did) (said : List ℕ) → Tells (told call) said (told call (full Log log_limit)) (Some hindrance) result }
{
    match hindrance {
        Hindrance::Full => Ok(full(Table::Log, LOG_LIMIT)),
        Hindrance::NoMemory => Err(ServeFault::NoMemory),
        Hindrance::DiskFault | Hindrance::Down | Hindrance::Failed => Err(ServeFault::Disk),
    }
}

/// A call at a moment in seconds, and what is told of it.
fn done<K: Keeper>(
    alloc: Global,
    controller: &mut Controller<K>,
    call: &Call,
    now: u64,
) -> Result<Outcome, ServeFault>
    requires up { IsSome controller.old.state }
    requires log { KeepsLog K.Keeper }
    requires given { IsAlwaysGiven call.now }
    ensures { Makes (told call.now) K.Keeper (λ f. did f call.now (done f.state (call_meant call.now now)))
        controller.old controller.new result }
{
    let _ = controller.state();
    match controller.call(alloc, call, now) {
        Ok(outcome) => Ok(outcome),
        Err(CallRefusal::Refused(outcome)) => Ok(outcome),
        Err(CallRefusal::Hindered(hindrance)) => outcome_of(hindrance),
    }
}

/// The frame that tells what came of a call.
fn tell(alloc: Global, call: &Call, outcome: &Outcome) -> Result<Vec<u8>, NoMemory>
    ensures { IfOk result (λ bytes. bytes.items ≡ told call.now outcome.now) }
{
    let mut bytes = Vec::from_slice(alloc, &[OUTCOME])?;
    push_nameless(&mut bytes, call.verb().word(), outcome)?;
    Ok(bytes)
}

/// Does a call at a moment in seconds, and tells what came of it. What is told was committed.
pub(crate) fn act<K: Keeper>(
    alloc: Global,
    controller: &mut Controller<K>,
    call: &Call,
    now: u64,
) -> Result<Vec<u8>, ServeFault>
    requires up { IsSome controller.old.state }
    requires log { KeepsLog K.Keeper }
    requires given { IsAlwaysGiven call.now }
    ensures { Makes (λ v. v.items) K.Keeper (λ f. did f call.now (done f.state (call_meant call.now now)))
        controller.old controller.new result }
{
    let outcome = done(alloc, controller, call, now)?;
    Ok(tell(alloc, call, &outcome)?)
}
