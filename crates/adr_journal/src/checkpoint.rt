//! Writes a new area beside the live one, and then selects it.

ghost use Rattle.std.specs.Prelude.{◌≡◌, ◌⊎◌, ◌↔◌, ℕ, ◌+◌, ◌≤◌, ◌<◌, max, List, [], ◌∷◌, Ok, Some, IsSome, IfSome, OnOk, IsErrOf, length, ◌==◌, not};
ghost use Rattle.std.specs.Option.{ForSome};
ghost use Rattle.adr_disk.specs.Disk.{put, Among, Only, LeavesOnly, Counts, IsSpare, Through, Twice, ended};
ghost use Rattle.adr_wire.specs.Fields.{u64};
ghost use Rattle.adr_model.specs.Store.{State as Defined};
ghost use Rattle.adr_model.specs.Lengths.{Log};
ghost use Rattle.adr_law_journal.specs.Areas.{found, selects_second, selector_place, slot_place};
ghost use Rattle.adr_law_journal.specs.Commits.{Checkpoints};
ghost use Rattle.adr_law_journal.specs.Kept.{Layout, starts, IsSettled, IsBeside, Stages, IsOneOf};
ghost use Rattle.adr_journal.specs.Written.{AreNoLonger};

use crate::layout::{SELECTOR, selector_of, slot_of};
use adr_disk::{Disk, write_through, write_twice_through};
use adr_io::Fault;

/// Writes a new area where it is free, and its place into the slot that isn't selected. Whatever a crash leaves, a
/// start finds what it would have found before.
#[tactic(auto, unfolding(adr_wire::specs::Fields::u64))]
fn stage_area<D: Disk>(disk: &mut D, place: u64, written: &[u8], slot: u64) -> Result<(), Fault>
    requires within { ForSome (D.content disk.old) (λ there. place ≤ length there) }
    requires slot_within { ForSome (D.content disk.old) (λ there. slot ≤ length there) }
    requires synced { ForSome (D.content disk.old) (λ there. Only there (D.may_leave disk.old)) }
    ensures beside { OnOk result ((l : Layout (List ℕ × List ℕ) Defined) (s : Defined) (log other : Log)
        → Stages l D.content D.may_leave disk.old place written.now slot s log other
        → IsBeside l D.content D.may_leave disk.new s log other) }
    ensures written { OnOk result (IfSome (D.content disk.old) (λ there.
        D.content disk.new ≡ Some (put (put there place written.now) slot (u64 place)))) }
    ensures durable { OnOk result (IfSome (D.content disk.old) (λ there.
        Only (put (put there place written.now) slot (u64 place)) (D.may_leave disk.new))) }
    ensures told { IsSome (D.content disk.new) ↔ IsSome (D.content disk.old) }

    // Whatever it answers, what a crash leaves now and might have left since.
    ensures left { (l : Layout (List ℕ × List ℕ) Defined) (s : Defined) (log other : Log)
        → Stages l D.content D.may_leave disk.old place written.now slot s log other
        → IfSome (D.content disk.old) (λ _. Among (λ bytes. starts l bytes ≡ Ok (found s log)) (D.may_leave disk.new)) }
    ensures any_moment { (l : Layout (List ℕ × List ℕ) Defined) (s : Defined) (log other : Log)
        → Stages l D.content D.may_leave disk.old place written.now slot s log other
        → IfSome (D.content disk.old) (λ _. LeavesOnly D.moment D.left_since disk.old disk.new
        (λ bytes. starts l bytes ≡ Ok (found s log))) }
    ensures no_longer { AreNoLonger (D.content disk.old) (D.may_leave disk.new) (max (place + length written.now) (slot + 8)) }

    ensures cause { Counts (D.faults disk.old) (D.faults disk.new) result }
    ensures no_memory_only { IsErrOf result Fault.NoMemory
        → (D.spare_calls disk.old < 3) ⊎ (D.spare_bytes disk.old < length written.now + 8) }
    ensures spare { IsSpare (D.spare_calls disk.old) (D.spare_bytes disk.old) (D.spare_calls disk.new + 3) (D.spare_bytes disk.new + (length written.now + 8)) }
    ensures gives { Twice D.gives place written.now slot (u64 place) disk.old (ended result) disk.new }
{
    write_twice_through(disk, place, written, slot, &place.to_be_bytes())
}

/// Selects an area that stands beside the live one. Whatever a crash leaves, a start finds the one state that both have.
fn select_area<D: Disk>(disk: &mut D, selector: u8) -> Result<(), Fault>
    requires within { ForSome (D.content disk.old) (λ there. selector_place ≤ length there) }
    requires synced { ForSome (D.content disk.old) (λ there. Only there (D.may_leave disk.old)) }
    ensures selected { OnOk result ((l : Layout (List ℕ × List ℕ) Defined) (s : Defined) (log other : Log)
        → IsBeside l D.content D.may_leave disk.old s log other → other.second ≡ not log.second
        → (selector == selects_second) ≡ other.second → IsSettled l D.content D.may_leave disk.new s other) }
    ensures told { IsSome (D.content disk.new) ↔ IsSome (D.content disk.old) }

    // Whatever it answers, what a crash leaves now and might have left since.
    ensures left { (l : Layout (List ℕ × List ℕ) Defined) (s : Defined) (log other : Log)
        → IsBeside l D.content D.may_leave disk.old s log other → other.second ≡ not log.second
        → IfSome (D.content disk.old) (λ _. Among (λ bytes. IsOneOf s log other (starts l bytes)) (D.may_leave disk.new)) }
    ensures any_moment { (l : Layout (List ℕ × List ℕ) Defined) (s : Defined) (log other : Log)
        → IsBeside l D.content D.may_leave disk.old s log other → other.second ≡ not log.second
        → IfSome (D.content disk.old) (λ _. LeavesOnly D.moment D.left_since disk.old disk.new
        (λ bytes. IsOneOf s log other (starts l bytes))) }
    ensures no_longer { AreNoLonger (D.content disk.old) (D.may_leave disk.new) 40 }

    ensures cause { Counts (D.faults disk.old) (D.faults disk.new) result }
    ensures no_memory_only { IsErrOf result Fault.NoMemory
        → (D.spare_calls disk.old < 2) ⊎ (D.spare_bytes disk.old < 1) }
    ensures spare { IsSpare (D.spare_calls disk.old) (D.spare_bytes disk.old) (D.spare_calls disk.new + 2) (D.spare_bytes disk.new + 1) }
    ensures gives { Through D.gives selector_place (selector ∷ []) disk.old (ended result) disk.new }
{
    write_through(disk, SELECTOR, &[selector])
}

/// Writes a new area of the state beside the live one, its place in bytes, and selects it by its slot: five calls.
/// Whatever a crash leaves, a start finds the state.
pub(crate) fn write_checkpoint<D: Disk>(
    disk: &mut D,
    place: u64,
    written: &[u8],
    second: bool,
) -> Result<(), Fault>
    requires within { ForSome (D.content disk.old) (λ there. (place ≤ length there) × (57 ≤ length there)) }
    requires synced { ForSome (D.content disk.old) (λ there. Only there (D.may_leave disk.old)) }
    ensures settled { OnOk result ((l : Layout (List ℕ × List ℕ) Defined) (s : Defined) (log other : Log)
        → Stages l D.content D.may_leave disk.old place written.now (slot_place second) s log other → second ≡ other.second
        → IsSettled l D.content D.may_leave disk.new s other) }
    ensures told { IsSome (D.content disk.new) ↔ IsSome (D.content disk.old) }

    // Whatever it answers, what a crash leaves now and might have left since.
    ensures left { (l : Layout (List ℕ × List ℕ) Defined) (s : Defined) (log other : Log)
        → Stages l D.content D.may_leave disk.old place written.now (slot_place second) s log other
        → IfSome (D.content disk.old) (λ _. Among (λ bytes. IsOneOf s log other (starts l bytes)) (D.may_leave disk.new)) }
    ensures any_moment { (l : Layout (List ℕ × List ℕ) Defined) (s : Defined) (log other : Log)
        → Stages l D.content D.may_leave disk.old place written.now (slot_place second) s log other
        → IfSome (D.content disk.old) (λ _. LeavesOnly D.moment D.left_since disk.old disk.new
        (λ bytes. IsOneOf s log other (starts l bytes))) }
    ensures no_longer { AreNoLonger (D.content disk.old) (D.may_leave disk.new) (place + length written.now) }

    ensures cause { Counts (D.faults disk.old) (D.faults disk.new) result }
    ensures no_memory_only { IsErrOf result Fault.NoMemory
        → (D.spare_calls disk.old < 5) ⊎ (D.spare_bytes disk.old < length written.now + 9) }
    ensures spare { IsSpare (D.spare_calls disk.old) (D.spare_bytes disk.old) (D.spare_calls disk.new + 5) (D.spare_bytes disk.new + (length written.now + 9)) }
    ensures gives { Checkpoints D.gives place written.now second disk.old (ended result) disk.new }
{
    let slot = slot_of(second);
    let selector = selector_of(second);
    stage_area(disk, place, written, slot)?;
    select_area(disk, selector)
}
