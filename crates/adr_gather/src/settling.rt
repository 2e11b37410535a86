//! Writes what stands behind a gate, and opens the gate.

ghost use Rattle.std.specs.Prelude.{◌≡◌, ◌⊎◌, ◌↔◌, ℕ, ◌+◌, ◌≤◌, ◌<◌, ◌^◌, List, [], IsSome, IfSome, OnOk, OnErr, IsErrOf, length, vec_capacity};
ghost use Rattle.std.specs.Option.{ForSome};
ghost use Rattle.adr_disk.specs.Disk.{Among, Only, LeavesOnly, Counts, IsSpare};
ghost use Rattle.adr_model.specs.Store.{State as Defined};
ghost use Rattle.adr_model.specs.Lengths.{Log};
ghost use Rattle.adr_law_journal.specs.Kept.{Layout, starts, IsSettled};
ghost use Rattle.adr_journal.specs.Written.{IsEitherLog};
ghost use Rattle.adr_gather.specs.Held.{once_written, with_held};
ghost use Rattle.adr_gather.specs.Gathered.{Holds, content_of, gathered, images_of};
ghost use Rattle.adr_gather.specs.Taken.{Takes};

use adr_disk::{Disk, write_through};
use adr_io::Fault;
use adr_journal::OPEN_GATE;

/// Writes records behind the closed gate at this place, in bytes, where a log ends, and opens the gate: four calls,
/// however many records.
pub fn settle<D: Disk>(disk: &mut D, gate: u64, written: &[u8]) -> Result<(), Fault>
    requires some { 1 ≤ length written.now }
    requires room { gate + 1 + length written.now < 2 ^ 64 }
    requires within { ForSome (D.content disk.old) (λ there. gate < length there) }
    requires synced { ForSome (D.content disk.old) (λ there. Only there (D.may_leave disk.old)) }
    ensures settled { OnOk result ((l : Layout (List ℕ × List ℕ) Defined) (s t : Defined) (log next : Log)
        → Takes l D.content D.may_leave disk.old gate written.now s t log next
        → IsSettled l D.content D.may_leave disk.new t next) }
    ensures written { OnOk result (D.content disk.new ≡ once_written (D.content disk.old) gate written.now) }
    ensures durable { OnOk result (IfSome (D.content disk.new) (λ there. Only there (D.may_leave disk.new))) }
    ensures told { IsSome (D.content disk.new) ↔ IsSome (D.content disk.old) }

    // Whatever it answers and a crash leaves, the bytes are the same once all is written.
    ensures each { IfSome (D.content disk.old) (λ there.
        Among (λ bytes. with_held gate written.now bytes ≡ with_held gate written.now there) (D.may_leave disk.new)) }
    ensures same { once_written (D.content disk.new) gate written.now ≡ once_written (D.content disk.old) gate written.now }

    // And what a crash leaves now and might have left since: none of the records, or all.
    ensures left { (l : Layout (List ℕ × List ℕ) Defined) (s t : Defined) (log next : Log)
        → Takes l D.content D.may_leave disk.old gate written.now s t log next
        → IfSome (D.content disk.old) (λ _.
        Among (λ bytes. IsEitherLog s log t next (starts l bytes)) (D.may_leave disk.new)) }
    ensures any_moment { (l : Layout (List ℕ × List ℕ) Defined) (s t : Defined) (log next : Log)
        → Takes l D.content D.may_leave disk.old gate written.now s t log next
        → IfSome (D.content disk.old) (λ _. LeavesOnly D.moment D.left_since disk.old disk.new
        (λ bytes. IsEitherLog s log t next (starts l bytes))) }

    ensures cause { Counts (D.faults disk.old) (D.faults disk.new) result }
    ensures no_memory_only { IsErrOf result Fault.NoMemory
        → (D.spare_calls disk.old < 4) ⊎ (D.spare_bytes disk.old < length written.now + 1) }
    ensures spare { IsSpare (D.spare_calls disk.old) (D.spare_bytes disk.old) (D.spare_calls disk.new + 4) (D.spare_bytes disk.new + (length written.now + 1)) }
{
    write_through(disk, gate + 1, written)?;
    write_through(disk, gate, &[OPEN_GATE])
}

/// Writes all that is held behind the gate, if anything is; then the gate is the one behind it.
pub(crate) fn settle_all<D: Disk>(
    disk: &mut D,
    gate: &mut u64,
    held: &mut Vec<u8>,
) -> Result<(), Fault>
    requires room { gate.old + 1 + length held.old.items < 2 ^ 64 }
    requires within { ForSome (D.content disk.old) (λ there. gate.old < length there) }
    requires synced { ForSome (D.content disk.old) (λ there. Only there (D.may_leave disk.old)) }
    ensures none { OnOk result (held.new.items ≡ []) }
    ensures moves { OnOk result (gate.new ≡ gate.old + length held.old.items) }
    ensures stays { OnErr result ((gate.new ≡ gate.old) × (held.new ≡ held.old)) }
    ensures capacity { vec_capacity held.old ≤ vec_capacity held.new }
    ensures settled { OnOk result ((l : Layout (List ℕ × List ℕ) Defined) (s : Defined) (log : Log)
        → Holds l D.content D.may_leave (gathered disk.old gate.old held.old.items) s log
        → IsSettled l D.content D.may_leave disk.new s log) }
    ensures told { IsSome (D.content disk.new) ↔ IsSome (D.content disk.old) }

    // Whatever it answers, the bytes are the same once all is written, also behind a crash.
    ensures same { content_of D.content (gathered disk.new gate.new held.new.items) ≡ content_of D.content (gathered disk.old gate.old held.old.items) }
    ensures only { IfSome (content_of D.content (gathered disk.old gate.old held.old.items)) (λ there.
        Only there (images_of D.content D.may_leave (gathered disk.new gate.new held.new.items))) }

    // And what a crash leaves now and might have left since: none of the records, or all.
    ensures left { (l : Layout (List ℕ × List ℕ) Defined) (s : Defined) (log : Log)
        (h : Holds l D.content D.may_leave (gathered disk.old gate.old held.old.items) s log)
        → IfSome (D.content disk.old) (λ _.
        Among (λ bytes. IsEitherLog h.base.state h.base.log s log (starts l bytes)) (D.may_leave disk.new)) }
    ensures any_moment { (l : Layout (List ℕ × List ℕ) Defined) (s : Defined) (log : Log)
        (h : Holds l D.content D.may_leave (gathered disk.old gate.old held.old.items) s log)
        → IfSome (D.content disk.old) (λ _. LeavesOnly D.moment D.left_since disk.old disk.new
        (λ bytes. IsEitherLog h.base.state h.base.log s log (starts l bytes))) }

    ensures cause { Counts (D.faults disk.old) (D.faults disk.new) result }
    ensures no_memory_only { IsErrOf result Fault.NoMemory
        → (D.spare_calls disk.old < 4) ⊎ (D.spare_bytes disk.old < length held.old.items + 1) }
    ensures spare { IsSpare (D.spare_calls disk.old) (D.spare_bytes disk.old) (D.spare_calls disk.new + 4) (D.spare_bytes disk.new + (length held.old.items + 1)) }
{
    if held.is_empty() {
        return Ok(());
    }
    let size = held.len() as u64;
    settle(disk, *gate, held)?;
    *gate += size;
    held.clear();
    Ok(())
}
