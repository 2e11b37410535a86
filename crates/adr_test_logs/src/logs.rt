//! Logs on a disk in memory, and in memory alone.

ghost use Rattle.std.specs.Prelude.{◌≡◌};
ghost use Rattle.adr_test_logs.specs.Takes.{TakesAll};

use crate::kept::{
    Filling, Finding, Left, Met, add_and_start, begin, bytes_of, commit, describe_again, format,
    run, start,
};
use adr_controller::{Controller, Keeper};
use adr_disk::Crash;
use adr_journal::Journal;
use adr_law_recorded::{
    logged_states_fit, new_controllers_may_begin, recorded_changes_leave_logged_states,
    writes_are_recorded,
};
use adr_records::Records;
use adr_run_disk::MemDisk;
use adr_run_keeper::{in_memory, with_bytes};
use adr_test_plain::Plain;
use adr_values::NoMemory;
use std::alloc::Global;

/// A controller's log on a disk in memory.
pub type Log = Journal<MemDisk, Records>;

/// A log takes a new controller, and what clients write.
pub fn logs_take_all()
    ensures { TakesAll ⟦<Log as Keeper>⟧ }
{
    new_controllers_may_begin();
    writes_are_recorded();
    recorded_changes_leave_logged_states();
    logged_states_fit();
}

/// So does one in memory alone.
pub fn plain_logs_take_all()
    ensures { TakesAll ⟦<Plain<Records> as Keeper>⟧ }
{
    new_controllers_may_begin();
    writes_are_recorded();
    recorded_changes_leave_logged_states();
    logged_states_fit();
}

/// Lets so many calls of a disk pass, and the next meets a mishap.
fn plan(disk: &mut MemDisk, met: Met)
    ensures { disk.new.held ≡ disk.old.held }
{
    match met.mishap {
        Some(how) => disk.stop_after(met.calls, how),
        None => disk.fail_after(met.calls),
    }
}

/// The log of an empty disk, under a plan.
fn planned(alloc: Global, met: Met) -> Log
    ensures { ⟦<Log as Keeper>⟧.is_empty result }
{
    let mut disk = MemDisk::new(alloc);
    plan(&mut disk, met);
    Journal::new(alloc, disk)
}

/// Formats a disk where a call meets a mishap, and tells whether it could; then what a start finds behind a crash.
pub fn format_log(alloc: Global, met: Met, how: Crash) -> (bool, Finding) {
    logs_take_all();
    format(alloc, planned(alloc, met), how)
}

/// Begins on a disk in memory, if it can.
fn begun(alloc: Global) -> Option<Controller<Log>> {
    logs_take_all();
    begin(alloc, in_memory::<Records>(alloc)).ok()
}

/// Begins on a disk in memory and adds the container where a call meets a mishap: whether that is acknowledged, and what a
/// start finds behind a crash.
pub fn commit_log(
    alloc: Global,
    met: Met,
    how: Crash,
) -> Result<Option<(bool, Finding)>, NoMemory> {
    logs_take_all();
    match begun(alloc) {
        Some(controller) => Ok(Some(commit(alloc, controller, met, how)?)),
        None => Ok(None),
    }
}

/// Begins on a disk in memory, adds the container, and starts where a call meets a mishap: whether it could, and what a
/// start finds behind a crash.
pub fn start_log(alloc: Global, met: Met, how: Crash) -> Result<Option<(bool, Finding)>, NoMemory> {
    logs_take_all();
    match begun(alloc) {
        Some(controller) => add_and_start(alloc, controller, met, how),
        None => Ok(None),
    }
}

/// The bytes of a log in memory that is filled.
pub fn log_bytes(alloc: Global, filling: Filling) -> Result<Option<Vec<u8>>, NoMemory> {
    logs_take_all();
    match begun(alloc) {
        Some(controller) => bytes_of(alloc, controller, filling),
        None => Ok(None),
    }
}

/// Starts a log of these bytes.
pub fn start_of(alloc: Global, bytes: Vec<u8>) -> Finding {
    let log: Log = with_bytes(alloc, bytes);
    start(log)
}

/// What is left of a log of these bytes where the container is described, and then the log started if that is asked for.
pub fn describe_log(
    alloc: Global,
    bytes: Vec<u8>,
    met: Met,
    start_met: Option<Met>,
    how: Crash,
) -> Result<Option<Left>, NoMemory> {
    logs_take_all();
    let log: Log = with_bytes(alloc, bytes);
    describe_again(alloc, log, met, start_met, how)
}

/// Fills a new controller in memory alone, and starts it.
pub fn run_plain(alloc: Global, filling: Filling) -> Result<Finding, NoMemory> {
    plain_logs_take_all();
    match begin(alloc, Plain::<Records>::new(alloc)) {
        Ok(controller) => run(alloc, controller, filling),
        Err(_) => Ok(Finding::Nothing),
    }
}
