//! Writes a new area beside the live one, and selects it.

ghost use Rattle.std.specs.Prelude.{◌≡◌, ◌⊎◌, ◌↔◌, ℕ, ◌+◌, ◌≤◌, ◌<◌, List, [], IsSome, IfSome, OnOk, IsErrOf, length, vec_capacity, ◌==◌};
ghost use Rattle.std.specs.Option.{ForSome};
ghost use Rattle.adr_disk.specs.Disk.{Among, Only, LeavesOnly, Counts};
ghost use Rattle.adr_model.specs.Store.{State as Defined};
ghost use Rattle.adr_model.specs.Lengths.{Log};
ghost use Rattle.adr_law_journal.specs.Areas.{selects_second, slot_place};
ghost use Rattle.adr_law_journal.specs.Kept.{Layout, starts, IsSettled, Stages, IsOneOf};
ghost use Rattle.adr_gather.specs.Gathered.{Holds, gathered, images_of};
ghost use Rattle.adr_gather.specs.Taken.{Moves};

use crate::settling::settle_all;
use adr_disk::{Disk, write_through, write_twice_through};
use adr_io::Fault;
use adr_state::Log as Logs;

/// The place of the byte that selects a slot, in bytes.
const SELECTOR: u64 = 39;

/// The place of a slot.
fn slot_of(second: bool) -> u64
    ensures { result ≡ slot_place second }
{
    if second { 48 } else { 40 }
}

/// The byte that selects a slot.
fn selector_of(second: bool) -> u8
    ensures { (result == selects_second) ≡ second }
{
    if second { 0xC3 } else { 0 }
}

/// Writes a new area of the state beside the live one, its place in bytes, and selects it by its slot: five calls.
/// Whatever a crash leaves, a start finds the state.
#[tactic(auto, unfolding(adr_wire::specs::Fields::u64))]
pub(crate) fn write_area<D: Disk>(
    disk: &mut D,
    place: u64,
    written: &[u8],
    second: bool,
) -> Result<(), Fault>
    requires within { ForSome (D.content disk.old) (λ there. (place ≤ length there) × (57 ≤ length there)) }
    requires synced { ForSome (D.content disk.old) (λ there. Only there (D.may_leave disk.old)) }
    ensures settled { OnOk result ((l : Layout (List ℕ × List ℕ) Defined) (s : Defined) (log other : Log)
        → Stages l D.content D.may_leave disk.old place written.now (slot_place second) s log other → second ≡ other.second
        → IsSettled l D.content D.may_leave disk.new s other) }
    ensures told { IsSome (D.content disk.new) ↔ IsSome (D.content disk.old) }

    // Whatever it answers, what a crash leaves now and might have left since.
    ensures left { (l : Layout (List ℕ × List ℕ) Defined) (s : Defined) (log other : Log)
        → Stages l D.content D.may_leave disk.old place written.now (slot_place second) s log other
        → IfSome (D.content disk.old) (λ _. Among (λ bytes. IsOneOf s log other (starts l bytes)) (D.may_leave disk.new)) }
    ensures any_moment { (l : Layout (List ℕ × List ℕ) Defined) (s : Defined) (log other : Log)
        → Stages l D.content D.may_leave disk.old place written.now (slot_place second) s log other
        → IfSome (D.content disk.old) (λ _. LeavesOnly D.moment D.left_since disk.old disk.new
        (λ bytes. IsOneOf s log other (starts l bytes))) }

    ensures cause { Counts (D.faults disk.old) (D.faults disk.new) result }
    ensures no_memory_only { IsErrOf result Fault.NoMemory
        → (D.spare_calls disk.old < 5) ⊎ (D.spare_bytes disk.old < length written.now + 9) }
{
    let slot = slot_of(second);
    let selector = selector_of(second);
    write_twice_through(disk, place, written, slot, &place.to_be_bytes())?;
    write_through(disk, SELECTOR, &[selector])
}

/// Writes what is held, and then a new area, if there is one; then the gate is that of the log to which a record of so
/// many bytes goes. Whatever a crash leaves, the state is the same once all is written.
pub(crate) fn move_log<D: Disk>(
    disk: &mut D,
    gate: &mut u64,
    held: &mut Vec<u8>,
    area: &[u8],
    next: Logs,
    size: usize,
) -> Result<(), Fault>
    requires { (l : Layout (List ℕ × List ℕ) Defined) × (s : Defined) × (log : Log) × (mid : Log)
        × Moves l D.content D.may_leave (gathered disk.old gate.old held.old.items) area.now next size s log mid }
    ensures holds { OnOk result ((l : Layout (List ℕ × List ℕ) Defined) (s : Defined) (log mid : Log)
        → Moves l D.content D.may_leave (gathered disk.old gate.old held.old.items) area.now next size s log mid
        → Holds l D.content D.may_leave (gathered disk.new gate.new held.new.items) s mid) }
    ensures told { IsSome (D.content disk.new) ↔ IsSome (D.content disk.old) }

    // Whatever it answers, what is found behind a crash once all is written.
    ensures left { (l : Layout (List ℕ × List ℕ) Defined) (s : Defined) (log mid : Log)
        → Moves l D.content D.may_leave (gathered disk.old gate.old held.old.items) area.now next size s log mid
        → IfSome (D.content disk.old) (λ _. Among (λ bytes. IsOneOf s log mid (starts l bytes))
        (images_of D.content D.may_leave (gathered disk.new gate.new held.new.items))) }

    ensures shorter { length held.new.items ≤ length held.old.items }
    ensures capacity { vec_capacity held.old ≤ vec_capacity held.new }
    ensures cause { Counts (D.faults disk.old) (D.faults disk.new) result }
    ensures no_memory_only { IsErrOf result Fault.NoMemory → (area.now ≡ [] → ⊥)
        × ((D.spare_calls disk.old < 9) ⊎ (D.spare_bytes disk.old < length held.old.items + length area.now + 10)) }
{
    if area.is_empty() {
        return Ok(());
    }
    settle_all(disk, gate, held)?;
    write_area(disk, next.place(), area, next.second())?;
    *gate = next.end() - size as u64 - 1;
    Ok(())
}
