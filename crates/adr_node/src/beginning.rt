//! How the commands begin that need the controller on a disk: it is started.

ghost use Rattle.std.specs.Prelude.{◌≡◌, ◌<◌, ◌≤◌, IfErr, IfOk, IsSome, OnOk};
ghost use Rattle.adr_node.specs.Begins.{Begun, BegunOn, IsUnbegun, TellsDamage, TellsRefusal};
ghost use Rattle.adr_node.specs.Seen.{of_disk, of_keeper};

use crate::ended::{Unbegun, by_fault};
use crate::lines::{damaged_line, write};
use adr_call::Text;
use adr_controller::{Controller, Keeper, StartRefusal};
use adr_disk::Disk;
use adr_io::{Fault, Sink};
use adr_journal::Journal;
use adr_records::Records;
use std::alloc::Global;

/// Writes where the bytes of a disk are no log.
fn tell_damage<S: Sink>(alloc: Global, place: u64, sink: &mut S) -> Unbegun
    ensures tells { TellsDamage S.Sink place sink.old sink.new result }
    ensures write { result ≡ Unbegun.WriteFault → S.faults sink.old < S.faults sink.new }
    ensures write_ends { S.faults sink.old < S.faults sink.new → result ≡ Unbegun.WriteFault }
    ensures never_falls { S.faults sink.old ≤ S.faults sink.new }
{
    match write(damaged_line(alloc, place), sink) {
        Ok(()) => Unbegun::Damaged { place },
        Err(Fault::Failed) => Unbegun::WriteFault,
        Err(Fault::NoMemory) => Unbegun::NoMemory,
    }
}

/// Tells of a start that was refused.
fn tell_refusal<S: Sink>(alloc: Global, refusal: StartRefusal, sink: &mut S) -> Unbegun
    ensures tells { TellsRefusal S.Sink refusal sink.old sink.new result }
    ensures write { result ≡ Unbegun.WriteFault → S.faults sink.old < S.faults sink.new }
    ensures write_ends { S.faults sink.old < S.faults sink.new → result ≡ Unbegun.WriteFault }
    ensures never_falls { S.faults sink.old ≤ S.faults sink.new }
{
    match refusal {
        StartRefusal::DiskFault => Unbegun::DiskFault,
        StartRefusal::Damaged { place } => tell_damage(alloc, place, sink),
        StartRefusal::NoMemory { .. } => Unbegun::NoMemory,
    }
}

/// Starts a keeper, and tells of one that is no log. A keeper that couldn't be started comes back.
fn start<K: Keeper, S: Sink>(
    alloc: Global,
    keeper: K,
    sink: &mut S,
) -> Result<Controller<K>, (Unbegun, K)>
    ensures begun { IfOk result (λ c. Begun K.Keeper keeper c) }
    ensures up { IfOk result (λ c. IsSome c.state) }
    ensures silent { OnOk result (sink.new ≡ sink.old) }
    ensures unbegun { IfErr result (λ e. IsUnbegun (of_keeper K.Keeper) S.Sink keeper e.1 sink.old sink.new e.0) }
{
    match Controller::resume(keeper) {
        Ok(controller) => Ok(controller),
        Err((refusal, keeper)) => Err((tell_refusal(alloc, refusal, sink), keeper)),
    }
}

/// Attaches the disk by its name, and starts the controller that is there. Where the bytes of the disk are no log, the place
/// of their first fault is written. A disk from which none could be started comes back.
pub fn begin<D: Disk, S: Sink>(
    alloc: Global,
    name: &Text,
    mut disk: D,
    sink: &mut S,
) -> Result<Controller<Journal<D, Records>>, (Unbegun, D)>
    ensures begun { IfOk result (λ c. BegunOn (of_disk D.Disk) ⟦<Journal<D, Records> as Keeper>⟧ disk c) }
    ensures up { IfOk result (λ c. IsSome c.state) }
    ensures silent { OnOk result (sink.new ≡ sink.old) }
    ensures unbegun { IfErr result (λ e. IsUnbegun (of_disk D.Disk) S.Sink disk e.1 sink.old sink.new e.0) }
{
    match disk.attach(name.as_str()) {
        Ok(()) => {}
        Err(fault) => return Err((by_fault(fault, Unbegun::DiskFault, Unbegun::NoMemory), disk)),
    }
    let journal: Journal<D, Records> = Journal::new(alloc, disk);
    match start(alloc, journal, sink) {
        Ok(controller) => Ok(controller),
        Err((why, journal)) => Err((why, journal.into_disk())),
    }
}
