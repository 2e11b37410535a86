//! Spells what a log begins with, its areas and its records, and writes a record.

ghost use Rattle.std.specs.Prelude.{◌≡◌, ◌⊎◌, ◌↔◌, ℕ, ◌+◌, ◌≤◌, ◌<◌, ◌^◌, List, [], ◌∷◌, ◌++◌, true, false, IsSome, is_some, nat_lt, Ok, IfOk, IfSome, OnOk, IsErrOf, length};
ghost use Rattle.std.specs.Option.{ForSome};
ghost use Rattle.adr_wire.specs.Fields.{u64};
ghost use Rattle.adr_disk.specs.Disk.{Among, Only, LeavesOnly, Counts, ended};
ghost use Rattle.adr_model.specs.Store.{State as Defined};
ghost use Rattle.adr_model.specs.Lengths.{Log, first_area, image_length, length_limit};
ghost use Rattle.adr_law_journal.specs.Log.{record_of};
ghost use Rattle.adr_law_journal.specs.Commits.{Commits};
ghost use Rattle.adr_law_journal.specs.Kept.{Layout, starts, IsSettled};
ghost use Rattle.adr_law_journal.specs.Recording.{log_behind, new_bytes};
ghost use Rattle.adr_journal.specs.Kept.{ids_of};
ghost use Rattle.adr_journal.specs.Written.{AreNoLonger, IsEitherLog, Takes};

use crate::form::Form;
use crate::layout::{CLOSED_GATE, OPEN_GATE, SELECTS_FIRST};
use adr_disk::{Disk, write_through};
use adr_io::Fault;
use adr_state::{Change, FIRST_AREA, State};
use adr_values::NoMemory;
use std::alloc::Global;

/// A new area of a state, with its closed gate; none where its image would be 4 GiB or longer.
pub(crate) fn area_with_gate<F: Form>(
    alloc: Global,
    state: &State,
) -> Result<Option<Vec<u8>>, NoMemory>
    requires { F.is_formed state.now }
    ensures bytes { IfOk result (λ area. IfSome area (λ bytes. bytes.items ≡ F.area_of state.now ++ 0 ∷ [])) }
    ensures long { IfOk result (λ area. IfSome area (λ bytes. length bytes.items ≡ 7 + image_length state.now.store)) }
    ensures fits { IfOk result (λ area. is_some area ≡ nat_lt (image_length state.now.store) length_limit) }
{
    match F::write_area(alloc, state)? {
        Some(mut written) => {
            written.push(CLOSED_GATE)?;
            Ok(Some(written))
        }
        None => Ok(None),
    }
}

/// What stands behind the first gate of a new log: its head, a selector and both slots, and this area.
#[tactic(auto, unfolding(adr_wire::specs::Fields::u64))]
pub(crate) fn log_with_area<F: Form>(
    alloc: Global,
    state: &State,
    area: &[u8],
) -> Result<Vec<u8>, NoMemory>
    requires { F.is_formed state.now }
    ensures { IfOk result (λ bytes. bytes.items
        ≡ F.front_of (ids_of state.now) ++ (0 ∷ (u64 first_area ++ (u64 first_area ++ area.now)))) }
{
    let mut written = F::write_front(alloc, state)?;
    written.push(SELECTS_FIRST)?;
    written.extend_from_slice(&FIRST_AREA.to_be_bytes())?;
    written.extend_from_slice(&FIRST_AREA.to_be_bytes())?;
    written.extend_from_slice(area)?;
    Ok(written)
}

/// A change's body behind its length, and the next gate, which is closed.
#[tactic(auto, unfolding(adr_wire::specs::Fields::u32))]
pub(crate) fn record_of<F: Form>(alloc: Global, change: &Change) -> Result<Vec<u8>, NoMemory>
    requires follows { (s : Defined) × F.can_follow s change.now }
    requires fits { length (F.body_of change.now) < 2 ^ 32 }
    ensures { IfOk result (λ bytes. bytes.items ≡ record_of (F.body_of change.now)) }
{
    let body = F::write_change(alloc, change)?;
    let mut written = Vec::with_capacity(alloc, body.len() + 5)?;
    written.extend_from_slice(&(body.len() as u32).to_be_bytes())?;
    written.extend_from_slice(&body)?;
    written.push(CLOSED_GATE)?;
    Ok(written)
}

/// Writes a record where a log ends, behind its closed gate, and opens the gate.
pub(crate) fn write_record<D: Disk>(disk: &mut D, end: u64, written: &[u8]) -> Result<(), Fault>
    requires begun { 1 ≤ end }
    requires room { end + length written.now < 2 ^ 64 }
    requires within { ForSome (D.content disk.old) (λ there. end ≤ length there) }
    requires synced { ForSome (D.content disk.old) (λ there. Only there (D.may_leave disk.old)) }
    ensures settled { OnOk result ((l : Layout (List ℕ × List ℕ) Defined) (s t : Defined) (log : Log) (body : List ℕ)
        → Takes l D.content D.may_leave disk.old end written.now s t log body
        → IsSettled l D.content D.may_leave disk.new t (log_behind log body)) }
    ensures told { IsSome (D.content disk.new) ↔ IsSome (D.content disk.old) }

    // Whatever it answers, what a crash leaves now and might have left since.
    ensures left { (l : Layout (List ℕ × List ℕ) Defined) (s t : Defined) (log : Log) (body : List ℕ)
        → Takes l D.content D.may_leave disk.old end written.now s t log body
        → IfSome (D.content disk.old) (λ _.
        Among (λ bytes. IsEitherLog s log t (log_behind log body) (starts l bytes)) (D.may_leave disk.new)) }
    ensures any_moment { (l : Layout (List ℕ × List ℕ) Defined) (s t : Defined) (log : Log) (body : List ℕ)
        → Takes l D.content D.may_leave disk.old end written.now s t log body
        → IfSome (D.content disk.old) (λ _. LeavesOnly D.moment D.left_since disk.old disk.new
        (λ bytes. IsEitherLog s log t (log_behind log body) (starts l bytes))) }
    ensures no_longer { AreNoLonger (D.content disk.old) (D.may_leave disk.new) (end + length written.now) }

    ensures cause { Counts (D.faults disk.old) (D.faults disk.new) result }
    ensures no_memory_only { IsErrOf result Fault.NoMemory
        → (D.spare_calls disk.old < 4) ⊎ (D.spare_bytes disk.old < length written.now + 1) }
    ensures gives { Commits D.gives end written.now disk.old (ended result) disk.new }
{
    write_through(disk, end, written)?;
    write_through(disk, end - 1, &[OPEN_GATE])
}
