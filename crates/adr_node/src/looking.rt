//! What the commands have in common that only look: they begin with a controller, and something is written of it.

ghost use Rattle.std.specs.Prelude.{◌≡◌, Ok, IsErrOf, IsSome, OnOk, Some};
ghost use Rattle.adr_model.specs.Store.{State as Defined};
ghost use Rattle.adr_law_journal.specs.Areas.{found};
ghost use Rattle.adr_model.specs.Lengths.{Log};
ghost use Rattle.adr_records.specs.Logged.{IsLogged};
ghost use Rattle.adr_controller.specs.Running.{IsInOrder};
ghost use Rattle.adr_node.specs.Looks.{Looks, LooksOn, Tells, bytes_of, due_of, refuses, unseen, whole_of};
ghost use Rattle.adr_node.specs.Seen.{of_disk};

use crate::beginning::begin;
use crate::ended::{Looked, Unbegun};
use crate::lines::write;
use crate::sights::{Sight, bytes_of, whole_of};
use adr_call::Text;
use adr_controller::{Controller, Keeper};
use adr_disk::Disk;
use adr_io::{Fault, Sink};
use adr_state::State;
use std::alloc::Global;

/// How a command ends behind what was written.
fn ended(whole: Looked, written: Result<(), Fault>) -> Looked
    ensures ok { OnOk written (result ≡ whole) }
    ensures failed { IsErrOf written Fault.Failed → result ≡ Looked.WriteFault }
    ensures no_memory { IsErrOf written Fault.NoMemory → result ≡ Looked.NoMemory }
{
    match written {
        Ok(()) => whole,
        Err(Fault::Failed) => Looked::WriteFault,
        Err(Fault::NoMemory) => Looked::NoMemory,
    }
}

/// Writes what is due of a state.
fn tell<K: Sink>(alloc: Global, sight: Sight, name: &Text, state: &State, sink: &mut K) -> Looked
    requires { IsLogged state.now }
    ensures tells { (log : Log)
        → Tells K.Sink (due_of (refuses sight) (bytes_of sight name.now) (Ok (found state.now log))) sink.old sink.new result }
    ensures no_fault { result ≡ Looked.DiskFault → ⊥ }
{
    let whole = whole_of(sight, state);
    let written = write(bytes_of(alloc, sight, name, state), sink);
    ended(whole, written)
}

/// How a command ends that had no controller to look at.
fn unseen(why: Unbegun) -> Looked
    ensures { result ≡ unseen why }
{
    match why {
        Unbegun::Damaged { place } => Looked::Damaged { place },
        Unbegun::WriteFault => Looked::WriteFault,
        Unbegun::DiskFault => Looked::DiskFault,
        Unbegun::NoMemory => Looked::NoMemory,
    }
}

/// Writes what is due of a controller that was started.
fn tell_of<K: Keeper, S: Sink>(
    alloc: Global,
    sight: Sight,
    name: &Text,
    controller: &Controller<K>,
    sink: &mut S,
) -> Looked
    requires up { IsSome controller.now.state }
    requires formed { (s : Defined) → K.is_formed s → IsLogged s }
    ensures in_order { IsInOrder K.Keeper controller.now }
    ensures tells { (s : Defined) (log : Log) → controller.now.state ≡ Some s
        → Tells S.Sink (due_of (refuses sight) (bytes_of sight name.now) (Ok (found s log))) sink.old sink.new result
        × IsLogged s }
    ensures no_fault { result ≡ Looked.DiskFault → ⊥ }
{
    match controller.state() {
        Some(state) => tell(alloc, sight, name, state, sink),
        None => unreachable!(),
    }
}

/// Writes what is due of a controller that was begun with. Its keeper comes back.
fn look_at<K: Keeper, S: Sink>(
    alloc: Global,
    sight: Sight,
    name: &Text,
    controller: Controller<K>,
    sink: &mut S,
) -> (Looked, K)
    requires up { IsSome controller.state }
    requires formed { (s : Defined) → K.is_formed s → IsLogged s }
    ensures { let due = due_of (refuses sight) (bytes_of sight name.now) in
        LooksOn K.Keeper S.Sink due controller result.1 sink.old sink.new result.0 }
{
    let ended = tell_of(alloc, sight, name, &controller, sink);
    (ended, controller.into_keeper())
}

/// Begins with the controller on the disk of this name, and writes what is asked for of it. The disk is attached, and comes
/// back.
pub fn look<D: Disk, K: Sink>(
    alloc: Global,
    sight: Sight,
    name: &Text,
    disk: D,
    sink: &mut K,
) -> (Looked, D)
    ensures { let due = due_of (refuses sight) (bytes_of sight name.now) in
        Looks (of_disk D.Disk) K.Sink due disk result.1 sink.old sink.new result.0 }
{
    match begin(alloc, name, disk, sink) {
        Ok(controller) => {
            let (ended, journal) = look_at(alloc, sight, name, controller, sink);
            (ended, journal.into_disk())
        }
        Err((why, disk)) => (unseen(why), disk),
    }
}
