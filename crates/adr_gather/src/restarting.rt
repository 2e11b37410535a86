//! Writes what is still held, and reads the whole disk.

ghost use Rattle.std.specs.Prelude.{◌≡◌, ◌-◌, ◌^◌, ◌≤◌, ◌<◌, ◌↔◌, ℕ, [], false, IsSome, IfOk, IfErr, IfSome, OnOk, IsErrOf, length};
ghost use Rattle.std.specs.Option.{ForSome};
ghost use Rattle.adr_disk.specs.Disk.{Among, Only, Keeps};
ghost use Rattle.adr_journal.specs.Ended.{StillReads};
ghost use Rattle.adr_gather.specs.Gathered.{content_of, gathered, images_of};

use crate::settling::settle;
use adr_disk::Disk;
use adr_io::Fault;
use adr_journal::StartRefusal;
use std::alloc::Global;

/// Writes what is held, on a disk all of which is synced. Where there is no such gate, nothing is written.
fn write_held<D: Disk>(disk: &mut D, gate: u64, held: &mut Vec<u8>) -> Result<(), Fault>
    requires { ForSome (D.content disk.old) (λ there. Only there (D.may_leave disk.old)) }
    ensures none { OnOk result (held.new.items ≡ []) }
    ensures told { IsSome (D.content disk.new) ↔ IsSome (D.content disk.old) }
    ensures durable { OnOk result (IfSome (D.content disk.new) (λ there. Only there (D.may_leave disk.new))) }

    // Whatever it answers, the bytes are the same once all is written, also behind a crash.
    ensures same { content_of D.content (gathered disk.new gate held.new.items) ≡ content_of D.content (gathered disk.old gate held.old.items) }
    ensures only { IfSome (content_of D.content (gathered disk.old gate held.old.items)) (λ there.
        Only there (images_of D.content D.may_leave (gathered disk.new gate held.new.items))) }

    ensures later { D.faults disk.old ≤ D.faults disk.new }
    ensures failed { IsErrOf result Fault.Failed → D.faults disk.old < D.faults disk.new }
{
    if held.is_empty() {
        return Ok(());
    }
    let len = disk.len()?;
    if len <= gate {
        held.clear();
        return Ok(());
    }
    let size = held.len() as u64;
    let room = u64::MAX - gate;
    // No file is so long.
    if room <= size {
        return Err(Fault::NoMemory);
    }
    disk.reserve(4, size + 1)?;
    settle(disk, gate, held)?;
    held.clear();
    Ok(())
}

/// All bytes of a disk.
fn read_all<D: Disk>(alloc: Global, disk: &mut D) -> Result<Vec<u8>, Fault>
    ensures bytes { IfOk result (λ bytes. IfSome (D.content disk.old) (λ there. bytes.items ≡ there)) }
    ensures keeps { Keeps D.content D.may_leave D.moment D.left_since disk.old disk.new }
    ensures later { D.faults disk.old ≤ D.faults disk.new }
    ensures failed { IsErrOf result Fault.Failed → D.faults disk.old < D.faults disk.new }
{
    let len = disk.len()?;
    let Ok(mut bytes) = vec![in alloc; 0u8; len as usize] else {
        return Err(Fault::NoMemory);
    };
    let count = disk.read(0, &mut bytes)?;
    bytes.truncate(count);
    Ok(bytes)
}

/// All bytes of a disk once what is held behind the gate is written, all of which is synced.
pub(crate) fn read_written<D: Disk>(
    alloc: Global,
    disk: &mut D,
    gate: u64,
    held: &mut Vec<u8>,
) -> Result<Vec<u8>, StartRefusal>
    ensures bytes { IfOk result (λ bytes. IfSome (D.content disk.new) (λ there. bytes.items ≡ there)) }
    ensures none { OnOk result (held.new.items ≡ []) }
    ensures durable { OnOk result (IfSome (D.content disk.new) (λ there. Only there (D.may_leave disk.new))) }
    ensures same { OnOk result (content_of D.content (gathered disk.new gate held.new.items) ≡ content_of D.content (gathered disk.old gate held.old.items)) }
    ensures told { IsSome (D.content disk.new) ↔ IsSome (D.content disk.old) }
    ensures still { IfErr result (λ e. StillReads (content_of D.content) (images_of D.content D.may_leave) (λ _. 0) (λ g _. images_of D.content D.may_leave g)
        e (gathered disk.old gate held.old.items) (gathered disk.new gate held.new.items)) }

    // Whatever it answers, a crash leaves what one might have left before, once what is held is written.
    ensures left { Among (images_of D.content D.may_leave (gathered disk.old gate held.old.items)) (images_of D.content D.may_leave (gathered disk.new gate held.new.items)) }
    ensures later { D.faults disk.old ≤ D.faults disk.new }
    ensures failed { IsErrOf result StartRefusal.DiskFault → D.faults disk.old < D.faults disk.new }
    ensures uncounted { IsErrOf result (StartRefusal.NoMemory false) → D.faults disk.old ≡ 2 ^ 64 - 1 }
    ensures undamaged { (place : ℕ) → IsErrOf result (StartRefusal.Damaged place) → ⊥ }
{
    match disk.sync() {
        Ok(()) => {}
        Err(Fault::Failed) => return Err(StartRefusal::DiskFault),
        Err(Fault::NoMemory) => return Err(StartRefusal::NoMemory { settled: false }),
    }
    match write_held(disk, gate, held) {
        Ok(()) => {}
        Err(Fault::Failed) => return Err(StartRefusal::DiskFault),
        Err(Fault::NoMemory) => return Err(StartRefusal::NoMemory { settled: true }),
    }
    match read_all(alloc, disk) {
        Ok(bytes) => Ok(bytes),
        Err(Fault::Failed) => Err(StartRefusal::DiskFault),
        Err(Fault::NoMemory) => Err(StartRefusal::NoMemory { settled: true }),
    }
}
