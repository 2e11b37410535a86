//! One write or two with the sync behind.

ghost use Rattle.std.specs.Prelude.{◌≡◌, ◌⊎◌, ◌+◌, ◌≤◌, ◌<◌, Some, IsSome, ◌↔◌, IfSome, OnOk, IsErrOf, length};
ghost use Rattle.std.specs.Option.{ForSome};
ghost use Rattle.adr_disk.specs.Disk.{put, Torn, TornTwice, Among, Only, Counts, IsSpare, LeavesOnly, Through, Twice, ended};

use crate::Disk;
use adr_io::Fault;

/// Writes and syncs, on a disk all of which is synced. A crash at any moment leaves what a torn write may leave, and
/// after an `Ok` what was to be written.
pub fn write_through<D: Disk>(disk: &mut D, at: u64, bytes: &[u8]) -> Result<(), Fault>
    requires within { ForSome (D.content disk.old) (λ there. at ≤ length there) }
    requires synced { ForSome (D.content disk.old) (λ there. Only there (D.may_leave disk.old)) }

    ensures written { OnOk result (IfSome (D.content disk.old) (λ there.
        D.content disk.new ≡ Some (put there at bytes.now))) }
    ensures durable { OnOk result (IfSome (D.content disk.old) (λ there. Only (put there at bytes.now) (D.may_leave disk.new))) }
    ensures told { IsSome (D.content disk.new) ↔ IsSome (D.content disk.old) }

    // Whatever it answers, what a crash leaves now and might have left since.
    ensures left { IfSome (D.content disk.old) (λ there. Among (Torn at (length bytes.now) there) (D.may_leave disk.new)) }
    ensures any_moment { IfSome (D.content disk.old) (λ there. LeavesOnly D.moment D.left_since disk.old disk.new
        (Torn at (length bytes.now) there)) }

    ensures cause { Counts (D.faults disk.old) (D.faults disk.new) result }
    ensures no_memory_only { IsErrOf result Fault.NoMemory
        → (D.spare_calls disk.old < 2) ⊎ (D.spare_bytes disk.old < length bytes.now) }
    ensures spare { IsSpare (D.spare_calls disk.old) (D.spare_bytes disk.old) (D.spare_calls disk.new + 2) (D.spare_bytes disk.new + length bytes.now) }
    ensures gives { Through D.gives at bytes.now disk.old (ended result) disk.new }
{
    disk.write_at(at, bytes)?;
    disk.sync()
}

/// Writes, writes again and syncs, on a disk all of which is synced. A crash at any moment leaves what two torn writes
/// may leave, and after an `Ok` what was to be written.
pub fn write_twice_through<D: Disk>(
    disk: &mut D,
    at: u64,
    bytes: &[u8],
    later: u64,
    more: &[u8],
) -> Result<(), Fault>
    requires within { ForSome (D.content disk.old) (λ there. at ≤ length there) }
    requires later_within { ForSome (D.content disk.old) (λ there. later ≤ length there) }
    requires synced { ForSome (D.content disk.old) (λ there. Only there (D.may_leave disk.old)) }

    ensures written { OnOk result (IfSome (D.content disk.old) (λ there.
        D.content disk.new ≡ Some (put (put there at bytes.now) later more.now))) }
    ensures durable { OnOk result (IfSome (D.content disk.old) (λ there. Only (put (put there at bytes.now) later more.now) (D.may_leave disk.new))) }
    ensures told { IsSome (D.content disk.new) ↔ IsSome (D.content disk.old) }

    // Whatever it answers, what a crash leaves now and might have left since.
    ensures left { IfSome (D.content disk.old) (λ there. Among (TornTwice at (length bytes.now) later (length more.now) there) (D.may_leave disk.new)) }
    ensures any_moment { IfSome (D.content disk.old) (λ there. LeavesOnly D.moment D.left_since disk.old disk.new
        (TornTwice at (length bytes.now) later (length more.now) there)) }

    ensures cause { Counts (D.faults disk.old) (D.faults disk.new) result }
    ensures no_memory_only { IsErrOf result Fault.NoMemory
        → (D.spare_calls disk.old < 3) ⊎ (D.spare_bytes disk.old < length bytes.now + length more.now) }
    ensures spare { IsSpare (D.spare_calls disk.old) (D.spare_bytes disk.old) (D.spare_calls disk.new + 3) (D.spare_bytes disk.new + (length bytes.now + length more.now)) }
    ensures gives { Twice D.gives at bytes.now later more.now disk.old (ended result) disk.new }
{
    disk.write_at(at, bytes)?;
    disk.write_at(later, more)?;
    disk.sync()
}
