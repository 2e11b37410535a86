//! Reads a whole disk.

ghost use Rattle.std.specs.Prelude.{◌≡◌, ◌-◌, ◌^◌, ◌≤◌, ◌<◌, ◌↔◌, ℕ, false, IsSome, IfOk, IfErr, IfSome, OnOk, IsErrOf};
ghost use Rattle.adr_disk.specs.Disk.{Among, Only, Keeps, LeavesOnly, ended};
ghost use Rattle.adr_journal.specs.Ended.{ended_start, StillReads};
ghost use Rattle.adr_journal.specs.Ran.{Reads, Starts};

use crate::keeper::StartRefusal;
use adr_disk::Disk;
use adr_io::Fault;
use std::alloc::Global;

/// All bytes of a disk.
fn read_all<D: Disk>(alloc: Global, disk: &mut D) -> Result<Vec<u8>, Fault>
    ensures bytes { IfOk result (λ bytes. IfSome (D.content disk.old) (λ there. bytes.items ≡ there)) }
    ensures keeps { Keeps D.content D.may_leave D.moment D.left_since disk.old disk.new }
    ensures later { D.faults disk.old ≤ D.faults disk.new }
    ensures failed { IsErrOf result Fault.Failed → D.faults disk.old < D.faults disk.new }
    ensures gives { Reads D.gives disk.old (ended result) disk.new }
{
    let len = disk.len()?;
    let Ok(mut bytes) = vec![in alloc; 0u8; len as usize] else {
        return Err(Fault::NoMemory);
    };
    let count = disk.read(0, &mut bytes)?;
    bytes.truncate(count);
    Ok(bytes)
}

/// All bytes of a disk, which are then synced.
pub(crate) fn read_synced<D: Disk>(alloc: Global, disk: &mut D) -> Result<Vec<u8>, StartRefusal>
    ensures bytes { IfOk result (λ bytes. IfSome (D.content disk.old) (λ there. bytes.items ≡ there)) }
    ensures told { IsSome (D.content disk.new) ↔ IsSome (D.content disk.old) }
    ensures same { OnOk result (D.content disk.new ≡ D.content disk.old) }
    ensures synced { OnOk result (IfSome (D.content disk.old) (λ there. Only there (D.may_leave disk.new))) }
    ensures still { IfErr result (λ e. StillReads D.content D.may_leave D.moment D.left_since e disk.old disk.new) }
    ensures later { D.faults disk.old ≤ D.faults disk.new }

    // Whatever it answers, a crash leaves what one might have left before.
    ensures left { Among (D.may_leave disk.old) (D.may_leave disk.new) }
    ensures any_moment { LeavesOnly D.moment D.left_since disk.old disk.new (D.may_leave disk.old) }
    ensures failed { IsErrOf result StartRefusal.DiskFault → D.faults disk.old < D.faults disk.new }
    ensures uncounted { IsErrOf result (StartRefusal.NoMemory false) → D.faults disk.old ≡ 2 ^ 64 - 1 }
    ensures undamaged { (place : ℕ) → IsErrOf result (StartRefusal.Damaged place) → ⊥ }
    ensures gives { Starts D.gives disk.old (ended_start result) disk.new }
{
    match disk.sync() {
        Ok(()) => {}
        Err(Fault::Failed) => return Err(StartRefusal::DiskFault),
        Err(Fault::NoMemory) => return Err(StartRefusal::NoMemory { settled: false }),
    }
    match read_all(alloc, disk) {
        Ok(bytes) => Ok(bytes),
        Err(Fault::Failed) => Err(StartRefusal::DiskFault),
        Err(Fault::NoMemory) => Err(StartRefusal::NoMemory { settled: true }),
    }
}
