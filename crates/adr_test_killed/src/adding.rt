//! Objects are added, one by one.

ghost use Rattle.std.specs.Prelude.{◌≡◌, None, Some, Ok, IfOk};
ghost use Rattle.adr_call.specs.declared.write.Write.{Write as Written};
ghost use Rattle.adr_model.specs.Change.{Change as Changes};
ghost use Rattle.adr_model.specs.Store.{State as Defined};
ghost use Rattle.adr_model.specs.Write.{write, write_meant};
ghost use Rattle.adr_controller.specs.Able.{written_in};
ghost use Rattle.adr_controller.specs.Did.{Calls};
ghost use Rattle.adr_test_killed.specs.Objects.{AdditionsFollow, IsAddition};

use crate::ending::Ending;
use crate::keeping::{tell, usn_of, wake};
use crate::objects::addition;
use adr_controller::{Controller, Keeper};
use adr_disk::Disk;
use adr_file::{FileDisk, SystemFolder};
use adr_journal::Journal;
use adr_law_recorded::{
    logged_states_fit, recorded_changes_leave_logged_states, writes_are_recorded,
};
use adr_records::Records;
use std::alloc::Global;

/// An addition can be recorded behind every state of a log.
fn additions_follow<D: Disk>()
    ensures { AdditionsFollow ⟦<Journal<D, Records> as Keeper>⟧ }
{
    writes_are_recorded();
    recorded_changes_leave_logged_states();
    logged_states_fit();
}

/// Adds the object of a number, and answers the USN under which it is acknowledged.
fn add<K: Keeper>(alloc: Global, controller: &mut Controller<K>, number: u64) -> Result<u64, Ending>
    requires follows { AdditionsFollow K.Keeper }
    ensures acknowledged { IfOk result (λ _. (what : Written) × IsAddition number what
        × Calls K.Keeper (written_in what 0) controller.old controller.new None) }
    ensures usn { IfOk result (λ usn. (what : Written) × IsAddition number what
        × ((s : Defined) → controller.old.state ≡ Some s
        → (c : Changes) × (write s (write_meant what) 0 ≡ Ok c) × (usn ≡ c.usn))) }
{
    let what = addition(alloc, number)?;
    Ok(controller.write(alloc, &what, 0)?)
}

/// Tells where a controller stands that was started, and adds so many objects, each told as soon as it is acknowledged.
fn go_on<K: Keeper>(
    rt: &HostRuntime,
    controller: &mut Controller<K>,
    first: u64,
    count: u64,
) -> Result<(), Ending>
    requires { AdditionsFollow K.Keeper }
{
    let usn = usn_of(controller)?;
    tell(rt, format!(in rt.alloc(); "started {usn}\n")?.as_str())?;
    for number in first..first.saturating_add(count) {
        let usn = add(rt.alloc(), controller, number)?;
        tell(
            rt,
            format!(in rt.alloc(); "added {number} {usn}\n")?.as_str(),
        )?;
    }
    Ok(())
}

/// Starts the controller in a file, and adds so many objects.
pub fn run(rt: &HostRuntime, name: &str, first: u64, count: u64) -> Result<(), Ending> {
    let mut controller = wake(rt, name)?;
    additions_follow::<FileDisk<SystemFolder<&HostRuntime>>>();
    let ended = go_on(rt, &mut controller, first, count);
    drop(controller);
    ended
}
