//! What is done with a keeper, whichever it is.

ghost use Rattle.std.specs.Prelude.{◌≡◌};
ghost use Rattle.adr_test_logs.specs.Takes.{TakesAll, new_state};

use crate::written::{Deed, write_of};
use adr_controller::{Controller, Keeper, StartRefusal, State};
use adr_disk::Crash;
use adr_run_keeper::{self as rehearsal, PlannedKeeper};
use adr_values::{Guid, NoMemory};
use std::alloc::Global;

/// What meets a call of a disk: a crash within it, or else a failure.
pub type Mishap = Option<Crash>;

/// So many calls of a disk pass, and the next meets this.
#[derive(Clone, Copy)]
pub struct Met {
    pub calls: u32,
    pub mishap: Mishap,
}

/// A new, empty controller `#a0`, `#a1`.
fn new_state(alloc: Global) -> State
    ensures { result ≡ new_state }
{
    State::first(alloc, Guid::from_u128(0xa0), Guid::from_u128(0xa1))
}

/// Begins to keep the new controller.
pub fn begin<K: Keeper + Drop>(alloc: Global, keeper: K) -> Result<Controller<K>, K>
    requires takes { TakesAll K.Keeper }
    requires empty { K.is_empty keeper }
{
    match Controller::format(keeper, new_state(alloc)) {
        Ok(controller) => Ok(controller),
        Err((_, keeper)) => Err(keeper),
    }
}

/// Does it at the time 0, and tells whether it is acknowledged.
fn write<K: Keeper>(
    alloc: Global,
    controller: &mut Controller<K>,
    deed: Deed,
) -> Result<bool, NoMemory>
    requires { TakesAll K.Keeper }
{
    let what = write_of(alloc, deed)?;
    let acknowledged = controller.write(alloc, &what, 0).is_ok();
    drop(what);
    Ok(acknowledged)
}

/// What a disk is filled with.
#[derive(Clone, Copy)]
pub enum Filling {
    /// The container, and so many descriptions of it, each in place of the one before.
    Descriptions(u64),
    /// So many described containers, of the numbers from 100 on.
    Containers(u64),
}

/// How many writes a filling has.
fn length_of(filling: Filling) -> u64 {
    match filling {
        Filling::Descriptions(times) => times.saturating_add(1),
        Filling::Containers(count) => count,
    }
}

/// The write of a filling at a place.
fn deed_at(filling: Filling, place: u64) -> Deed {
    match filling {
        Filling::Descriptions(_) if place == 0 => Deed::Adds,
        Filling::Descriptions(_) => Deed::Describes,
        Filling::Containers(_) => Deed::AddsDescribed(place.saturating_add(100)),
    }
}

/// Fills a disk, and tells whether all is acknowledged.
fn fill<K: Keeper>(
    alloc: Global,
    controller: &mut Controller<K>,
    filling: Filling,
) -> Result<bool, NoMemory>
    requires { TakesAll K.Keeper }
{
    let mut all = true;
    for place in 0..length_of(filling) {
        all = write(alloc, controller, deed_at(filling, place))? && all;
    }
    Ok(all)
}

/// The USN of a controller that answers.
fn usn_of<K: Keeper>(controller: &Controller<K>) -> Finding {
    match controller.state() {
        Some(state) => Finding::Usn(state.usn()),
        None => Finding::Nothing,
    }
}

/// What a start finds.
#[derive(Clone, Copy, Debug, PartialEq, Eq)]
pub enum Finding {
    /// A state of this USN.
    Usn(u64),
    /// Damage at this place.
    Damage(u64),
    /// Nothing: the disk failed, or memory is wanted.
    Nothing,
}

/// Starts a keeper.
pub fn start<K: Keeper + Drop>(keeper: K) -> Finding {
    match Controller::resume(keeper) {
        Ok(controller) => {
            let found = usn_of(&controller);
            drop(controller.into_keeper());
            found
        }
        Err((StartRefusal::Damaged { place }, _)) => Finding::Damage(place),
        Err(_) => Finding::Nothing,
    }
}

/// Starts a keeper behind a crash, which drops a plan.
fn start_behind<K: PlannedKeeper + Drop>(mut keeper: K, how: Crash) -> Finding {
    keeper.crash(how);
    keeper.revive();
    start(keeper)
}

/// Lets so many calls of its disk pass, and the next meets a mishap.
fn plan<K: PlannedKeeper>(controller: &mut Controller<K>, met: Met) {
    match met.mishap {
        Some(how) => rehearsal::stop_after(controller, met.calls, how),
        None => rehearsal::fail_after(controller, met.calls),
    }
}

/// Begins, and tells whether it could; then what a start finds behind a crash.
pub fn format<K: PlannedKeeper + Drop>(alloc: Global, keeper: K, how: Crash) -> (bool, Finding)
    requires takes { TakesAll K.Keeper }
    requires empty { K.is_empty keeper }
{
    match begin(alloc, keeper) {
        Ok(controller) => (true, start_behind(controller.into_keeper(), how)),
        Err(keeper) => (false, start_behind(keeper, how)),
    }
}

/// Adds the container where a call meets a mishap, and tells whether that is acknowledged; then what a start finds behind a
/// crash.
pub fn commit<K: PlannedKeeper + Drop>(
    alloc: Global,
    mut controller: Controller<K>,
    met: Met,
    how: Crash,
) -> Result<(bool, Finding), NoMemory>
    requires { TakesAll K.Keeper }
{
    plan(&mut controller, met);
    let done = write(alloc, &mut controller, Deed::Adds);
    let found = start_behind(controller.into_keeper(), how);
    Ok((done?, found))
}

/// Starts where a call meets a mishap, and tells whether it could.
fn start_again<K: PlannedKeeper>(mut controller: Controller<K>, met: Met) -> (bool, K) {
    plan(&mut controller, met);
    match Controller::resume(controller.into_keeper()) {
        Ok(controller) => (true, controller.into_keeper()),
        Err((_, keeper)) => (false, keeper),
    }
}

/// Adds the container, and starts where a call meets a mishap: whether it could, and what a start finds behind a crash. None
/// where the container isn't acknowledged.
pub fn add_and_start<K: PlannedKeeper + Drop>(
    alloc: Global,
    mut controller: Controller<K>,
    met: Met,
    how: Crash,
) -> Result<Option<(bool, Finding)>, NoMemory>
    requires { TakesAll K.Keeper }
{
    let added = write(alloc, &mut controller, Deed::Adds);
    let (done, keeper) = start_again(controller, met);
    let ended = (done, start_behind(keeper, how));
    Ok(if added? { Some(ended) } else { None })
}

/// Fills the disk, and finds what a start does.
pub fn run<K: Keeper + Drop>(
    alloc: Global,
    mut controller: Controller<K>,
    filling: Filling,
) -> Result<Finding, NoMemory>
    requires { TakesAll K.Keeper }
{
    let filled = fill(alloc, &mut controller, filling);
    let found = start(controller.into_keeper());
    filled?;
    Ok(found)
}

/// The bytes on the disk of a controller that is filled; none where not all is acknowledged.
pub fn bytes_of<K: PlannedKeeper + Drop>(
    alloc: Global,
    mut controller: Controller<K>,
    filling: Filling,
) -> Result<Option<Vec<u8>>, NoMemory>
    requires { TakesAll K.Keeper }
{
    let filled = fill(alloc, &mut controller, filling);
    let bytes = rehearsal::bytes(alloc, &controller);
    drop(controller.into_keeper());
    Ok(if filled? { Some(bytes?) } else { None })
}

/// What is left of a commit.
#[derive(Drop)]
pub struct Left {
    /// Whether it was acknowledged.
    pub done: bool,
    /// What is on the disk behind a crash, and what a start finds there.
    pub bytes: Vec<u8>,
    pub found: Finding,
}

/// Starts a keeper, and describes the container where a call meets a mishap; then starts it again, if that is asked for,
/// where another does, and lets it crash. None where it doesn't start.
pub fn describe_again<K: PlannedKeeper + Drop>(
    alloc: Global,
    keeper: K,
    met: Met,
    start_met: Option<Met>,
    how: Crash,
) -> Result<Option<Left>, NoMemory>
    requires { TakesAll K.Keeper }
{
    match Controller::resume(keeper) {
        Ok(mut controller) => {
            plan(&mut controller, met);
            let done = write(alloc, &mut controller, Deed::Describes);
            let left = left_behind(alloc, restarted(controller, start_met), how);
            let (bytes, found) = left?;
            let done = done?;
            Ok(Some(Left { done, bytes, found }))
        }
        Err(_) => Ok(None),
    }
}

/// The keeper behind a start, if that is asked for.
fn restarted<K: PlannedKeeper>(controller: Controller<K>, met: Option<Met>) -> K {
    match met {
        Some(met) => start_again(controller, met).1,
        None => controller.into_keeper(),
    }
}

/// What is on the disk behind a crash, and what a start finds there.
fn left_behind<K: PlannedKeeper + Drop>(
    alloc: Global,
    mut keeper: K,
    how: Crash,
) -> Result<(Vec<u8>, Finding), NoMemory> {
    keeper.crash(how);
    keeper.revive();
    let bytes = keeper.bytes(alloc);
    let found = start(keeper);
    Ok((bytes?, found))
}
