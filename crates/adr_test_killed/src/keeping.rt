//! The controller in a file: made, started and shown.

ghost use Rattle.std.specs.Prelude.{◌≡◌};
ghost use Rattle.adr_model.specs.Place.{identifier};
ghost use Rattle.adr_model.specs.Store.{empty_state};

use crate::ending::Ending;
use crate::objects::number_of;
use adr_controller::{Controller, Keeper, State};
use adr_disk::Disk;
use adr_file::{FileDisk, SystemFolder};
use adr_journal::Journal;
use adr_law_recorded::new_controllers_may_begin;
use adr_records::Records;
use adr_values::Guid;
use std::alloc::Global;

/// A file of the present folder.
pub type File<'a> = FileDisk<SystemFolder<&'a HostRuntime>>;

/// The log of a controller, in a file.
pub type Log<'a> = Journal<File<'a>, Records>;

/// Writes a line, which ends in a line feed, in one piece.
pub fn tell(rt: &HostRuntime, line: &str) -> Result<(), Ending> {
    match rt.write_all(line.as_bytes()) {
        Ok(()) => Ok(()),
        Err(_) => Err(Ending::Output),
    }
}

/// A new, empty controller.
fn new_state(alloc: Global) -> State
    ensures { result ≡ empty_state (identifier 0xa0) (identifier 0xa1) }
{
    State::first(alloc, Guid::from_u128(0xa0), Guid::from_u128(0xa1))
}

/// A file of the present folder, which is made where it isn't there.
fn file_at<'a>(rt: &'a HostRuntime, name: &str) -> Result<File<'a>, Ending> {
    let mut disk = FileDisk::new(SystemFolder::new(rt));
    disk.attach(name)?;
    Ok(disk)
}

/// Formats a controller on a keeper, and tells that it stands.
fn begin_on<K: Keeper + Drop>(rt: &HostRuntime, keeper: K, state: State) -> Result<(), Ending>
    requires empty { K.is_empty keeper }
    requires begins { K.can_begin state }
    requires formed { K.is_formed state }
{
    match Controller::format(keeper, state) {
        Ok(controller) => {
            drop(controller);
            tell(rt, "ready\n")
        }
        Err((refusal, keeper)) => {
            drop(keeper);
            Err(Ending::from(refusal))
        }
    }
}

/// Formats a new controller in an empty file.
pub fn begin(rt: &HostRuntime, name: &str) -> Result<(), Ending> {
    let mut disk = file_at(rt, name)?;
    if disk.len()? != 0 {
        return Err(Ending::Taken);
    }
    let log: Log = Journal::new(rt.alloc(), disk);
    new_controllers_may_begin();
    begin_on(rt, log, new_state(rt.alloc()))
}

/// Starts a controller from a keeper.
fn resumed<K: Keeper + Drop>(keeper: K) -> Result<Controller<K>, Ending> {
    match Controller::resume(keeper) {
        Ok(controller) => Ok(controller),
        Err((refusal, keeper)) => {
            drop(keeper);
            Err(Ending::from(refusal))
        }
    }
}

/// Starts the controller in a file.
pub fn wake<'a>(rt: &'a HostRuntime, name: &str) -> Result<Controller<Log<'a>>, Ending> {
    let disk = file_at(rt, name)?;
    resumed(Journal::new(rt.alloc(), disk))
}

/// The USN of a controller that was started.
pub fn usn_of<K: Keeper>(controller: &Controller<K>) -> Result<u64, Ending> {
    match controller.state() {
        Some(state) => Ok(state.usn()),
        None => Err(Ending::DiskFault),
    }
}

/// Tells the number of each live object, rising, if it has one.
fn tell_objects(rt: &HostRuntime, state: &State) -> Result<(), Ending> {
    for node in state.rows().nodes(rt.alloc())? {
        if let Some(number) = number_of(node.object().guid) {
            tell(rt, format!(in rt.alloc(); "{number}\n")?.as_str())?;
        }
    }
    Ok(())
}

/// Tells which objects a controller has that was started, and its USN.
fn tell_all<K: Keeper>(rt: &HostRuntime, controller: &Controller<K>) -> Result<(), Ending> {
    let Some(state) = controller.state() else {
        return Err(Ending::DiskFault);
    };
    tell_objects(rt, state)?;
    let usn = state.usn();
    tell(rt, format!(in rt.alloc(); "usn {usn}\n")?.as_str())
}

/// Starts the controller in a file, and tells which objects are there, and the USN.
pub fn show(rt: &HostRuntime, name: &str) -> Result<(), Ending> {
    let controller = wake(rt, name)?;
    let told = tell_all(rt, &controller);
    drop(controller);
    told
}
