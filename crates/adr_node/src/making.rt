//! What the commands have in common that make a controller on an empty disk.

ghost use Rattle.std.specs.Prelude.{◌≡◌, ◌<◌, ◌≤◌, [], None, Some, Ok, Err, IfSome, IsErrOf, OnOk};
ghost use Rattle.std.specs.Option.{ForSome};
ghost use Rattle.adr_disk.specs.Disk.{Among};
ghost use Rattle.adr_model.specs.Store.{State as Defined};
ghost use Rattle.adr_records.specs.Logged.{MayBegin};
ghost use Rattle.adr_node.specs.Formats.{EndsFormat, Formats};
ghost use Rattle.adr_node.specs.Makes.{Begins, HasNone, SeesNone, TellsVerdict, verdict_of};
ghost use Rattle.adr_node.specs.Seen.{of_disk, of_keeper};

use crate::ended::{Creation, Refusal, by_fault};
use crate::lines::write;
use crate::verdicts::verdict_line;
use adr_call::Text;
use adr_controller::{Controller, Keeper, KeeperRefusal};
use adr_disk::Disk;
use adr_io::{Fault, Sink};
use adr_journal::Journal;
use adr_records::Records;
use adr_state::State;
use std::alloc::Global;

/// Why a command makes no controller.
#[derive(Clone, Copy)]
pub(crate) enum Unmade {
    Refused(Refusal),
    ReadFault,
    DiskFault,
    FreshFault,
    NoMemory,
}

/// Attaches the disk by its name, and sees that it has no bytes.
pub(crate) fn find_empty<D: Disk>(name: &Text, disk: &mut D) -> Result<(), Unmade>
    ensures { SeesNone D.Disk disk.old disk.new result }
{
    match disk.attach(name.as_str()) {
        Ok(()) => has_none(disk),
        Err(fault) => Err(by_fault(fault, Unmade::DiskFault, Unmade::NoMemory)),
    }
}

/// Sees that a disk has no bytes.
fn has_none<D: Disk>(disk: &mut D) -> Result<(), Unmade>
    ensures { SeesNone D.Disk disk.old disk.new result }
{
    match disk.len() {
        Ok(0) => Ok(()),
        Ok(_) => Err(Unmade::Refused(Refusal::NotEmpty)),
        Err(fault) => Err(by_fault(fault, Unmade::DiskFault, Unmade::NoMemory)),
    }
}

/// Why a keeper wasn't formatted.
fn unformatted(refusal: KeeperRefusal) -> Unmade
    ensures fault { refusal ≡ KeeperRefusal.DiskFault → result ≡ Unmade.DiskFault }
    ensures full { refusal ≡ KeeperRefusal.Full → result ≡ Unmade.Refused Refusal.Full }
    ensures no_memory { refusal ≡ KeeperRefusal.NoMemory → result ≡ Unmade.NoMemory }
{
    match refusal {
        KeeperRefusal::DiskFault | KeeperRefusal::Failed => Unmade::DiskFault,
        KeeperRefusal::Full => Unmade::Refused(Refusal::Full),
        KeeperRefusal::NoMemory => Unmade::NoMemory,
    }
}

/// Formats an empty keeper with a state. The keeper comes back.
fn format<K: Keeper>(keeper: K, state: State) -> (Result<(), Unmade>, K)
    requires empty { K.is_empty keeper }
    requires begins { K.can_begin state }
    requires formed { K.is_formed state }
    ensures { Formats (of_keeper K.Keeper) state keeper result.1 result.0 }
{
    match Controller::format(keeper, state) {
        Ok(controller) => {
            let _ = controller.state();
            (Ok(()), controller.into_keeper())
        }
        Err((refusal, keeper)) => (Err(unformatted(refusal)), keeper),
    }
}

/// Formats an empty, synced disk with a state.
fn format_disk<D: Disk>(alloc: Global, disk: D, state: State) -> (Result<(), Unmade>, D)
    requires begins { MayBegin state }
    requires empty { ForSome (D.content disk) (λ there. there ≡ []) }
    requires synced { ForSome (D.content disk) (λ there. Among (λ left. left ≡ there) (D.may_leave disk)) }
    ensures { Formats (of_disk D.Disk) state disk result.1 result.0 }
{
    let journal: Journal<D, Records> = Journal::new(alloc, disk);
    let (made, journal) = format(journal, state);
    (made, journal.into_disk())
}

/// Formats a disk that has no bytes with a state. It is synced before, since its length alone doesn't say that a crash
/// leaves none.
pub(crate) fn format_empty<D: Disk>(
    alloc: Global,
    mut disk: D,
    state: State,
) -> (Result<(), Unmade>, D)
    requires begins { MayBegin state }
    requires empty { HasNone D.Disk disk }
    ensures begins { Begins (of_disk D.Disk) (Some state) disk result.1 }
    ensures ends { EndsFormat (of_disk D.Disk) state disk result.1 result.0 }
{
    match disk.sync() {
        Ok(()) => format_disk(alloc, disk, state),
        Err(fault) => {
            drop(state);
            (
                Err(by_fault(fault, Unmade::DiskFault, Unmade::NoMemory)),
                disk,
            )
        }
    }
}

/// How a command ends whose line was written.
fn ended(why: Option<Refusal>, written: Result<(), Fault>) -> Creation
    ensures done { why ≡ None → OnOk written (result ≡ Creation.Done) }
    ensures refused { IfSome why (λ refusal. OnOk written (result ≡ Creation.Refused refusal)) }
    ensures failed { IsErrOf written Fault.Failed → result ≡ Creation.WriteFault }
    ensures no_memory { IsErrOf written Fault.NoMemory → result ≡ Creation.NoMemory }
{
    match (written, why) {
        (Ok(()), None) => Creation::Done,
        (Ok(()), Some(refusal)) => Creation::Refused(refusal),
        (Err(Fault::Failed), _) => Creation::WriteFault,
        (Err(Fault::NoMemory), _) => Creation::NoMemory,
    }
}

/// Writes the line of a verdict.
fn tell_verdict<K: Sink>(
    alloc: Global,
    verb: &str,
    name: &Text,
    why: Option<Refusal>,
    sink: &mut K,
) -> Creation
    ensures done { why ≡ None → (s : Defined) → TellsVerdict K.Sink verb.now name.now (Some (Ok s)) sink.old sink.new result }
    ensures refused { IfSome why (λ refusal.
        TellsVerdict K.Sink verb.now name.now (Some (Err refusal)) sink.old sink.new result) }
    ensures later { K.faults sink.old ≤ K.faults sink.new }
{
    let written = write(verdict_line(alloc, verb, name, why), sink);
    ended(why, written)
}

/// Writes the line of what was made, or why it wasn't.
pub(crate) fn tell<K: Sink>(
    alloc: Global,
    verb: &str,
    name: &Text,
    made: Result<(), Unmade>,
    sink: &mut K,
) -> Creation
    ensures tells { (s : Defined) → TellsVerdict K.Sink verb.now name.now (verdict_of s made) sink.old sink.new result }
    ensures disk_fault { result ≡ Creation.DiskFault → made ≡ Err Unmade.DiskFault }
    ensures faulty { made ≡ Err Unmade.DiskFault → result ≡ Creation.DiskFault }
    ensures read_fault { result ≡ Creation.ReadFault → made ≡ Err Unmade.ReadFault }
    ensures fresh_fault { result ≡ Creation.FreshFault → made ≡ Err Unmade.FreshFault }
    ensures later { K.faults sink.old ≤ K.faults sink.new }
{
    match made {
        Ok(()) => tell_verdict(alloc, verb, name, None, sink),
        Err(Unmade::Refused(refusal)) => tell_verdict(alloc, verb, name, Some(refusal), sink),
        Err(Unmade::ReadFault) => Creation::ReadFault,
        Err(Unmade::DiskFault) => Creation::DiskFault,
        Err(Unmade::FreshFault) => Creation::FreshFault,
        Err(Unmade::NoMemory) => Creation::NoMemory,
    }
}
