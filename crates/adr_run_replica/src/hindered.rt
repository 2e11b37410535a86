//! What a call leaves that was hindered, or not, and what is answered.

ghost use Rattle.std.specs.Prelude.{◌≡◌, Some, IfOk, OnErr};
ghost use Rattle.adr_journal.specs.Ended.{ended_start};
ghost use Rattle.adr_controller.specs.Ended.{call_hindrance};
ghost use Rattle.adr_run_replica.specs.Settled.{come, hindered_so, hindrance_of_start, left_by};

use crate::past::{Ahead, KeptCall, Past};
use adr_call::{Outcome, Table};
use adr_controller::{CallRefusal, Controller, Hindrance, StartRefusal};
use adr_journal::Journal;
use adr_outcome::full;
use adr_records::Records;
use adr_run_disk::MemDisk;
use adr_run_keeper::{PlannedKeeper, is_stopped};
use adr_state::LOG_LIMIT;
use adr_values::NoMemory;
use std::alloc::AllocError;

/// What hindered a call, if anything.
pub(crate) fn hindrance_in<T, R>(made: &Result<T, CallRefusal<R>>) -> Option<Hindrance>
    ensures { result ≡ call_hindrance made.now }
{
    match made {
        Err(CallRefusal::Hindered(hindrance)) => Some(*hindrance),
        _ => None,
    }
}

/// What hindered a start. One that wanted memory when its sync was made has reached the disk. The disk of a controller is
/// never damaged, as its caller proves, so that what is said of damage tells nothing.
pub(crate) fn hindrance_of_start(started: &Result<(), StartRefusal>) -> Option<Hindrance>
    ensures { result ≡ hindrance_of_start (ended_start started.now) }
{
    match started {
        Ok(()) => None,
        Err(StartRefusal::DiskFault) => Some(Hindrance::DiskFault),
        Err(StartRefusal::NoMemory { settled: true }) => None,
        Err(StartRefusal::NoMemory { settled: false }) => Some(Hindrance::NoMemory),
        Err(StartRefusal::Damaged { .. }) => Some(Hindrance::NoMemory),
    }
}

/// Makes the past and the kept call those ahead, where a call reached the disk or had nothing to do there. A controller
/// whose disk stopped within the call is down. Tells whether its disk is stopped.
pub(crate) fn settle(
    controller: &mut Controller<Journal<MemDisk, Records>>,
    kept: &mut KeptCall,
    past: &mut Past,
    ahead: Ahead,
    how: Option<Hindrance>,
) -> bool
    ensures stopped { result ≡ ⟦<Journal<MemDisk, Records> as PlannedKeeper>⟧.has_stopped controller.new.keeper }
    ensures controller { controller.new ≡ left_by ⟦<Journal<MemDisk, Records> as PlannedKeeper>⟧.has_stopped how controller.old }
    ensures kept { kept.new ≡ come how kept.old ahead.kept }
    ensures past { past.new ≡ come how past.old ahead.past }
{
    let stopped = leave(controller, how);
    if matches!(how, None | Some(Hindrance::DiskFault)) {
        *past = ahead.past;
        *kept = ahead.kept;
    }
    stopped
}

/// A controller whose disk stopped within a call is down. Tells whether its disk is stopped.
fn leave<K: PlannedKeeper>(controller: &mut Controller<K>, how: Option<Hindrance>) -> bool
    ensures stopped { result ≡ K.has_stopped controller.new.keeper }
    ensures controller { controller.new ≡ left_by K.has_stopped how controller.old }
{
    let stopped = is_stopped(controller);
    if stopped && matches!(how, Some(Hindrance::DiskFault)) {
        controller.stop();
    }
    stopped
}

/// What is answered to a call that was hindered, behind which the disk is stopped or not. It wants no memory itself, so that
/// an answer can be made behind a change: where there is none, the call wanted memory.
pub(crate) fn hindered(hindrance: Hindrance, stopped: bool) -> Result<Outcome, NoMemory>
    ensures ok { IfOk result (λ outcome. hindered_so hindrance stopped ≡ Some outcome) }
    ensures err { OnErr result (hindrance ≡ Hindrance.NoMemory) }
{
    match hindrance {
        Hindrance::Down => Ok(Outcome::Down),
        Hindrance::Failed => Ok(Outcome::Failed),
        Hindrance::Full => Ok(full(Table::Log, LOG_LIMIT)),
        Hindrance::DiskFault if stopped => Ok(Outcome::Stopped),
        Hindrance::DiskFault => Ok(Outcome::Disk),
        Hindrance::NoMemory => Err(AllocError),
    }
}
