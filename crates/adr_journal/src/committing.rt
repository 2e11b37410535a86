//! Spells all that a commit writes, and writes it: a checkpoint where one is due, and the record.

ghost use Rattle.std.specs.Prelude.{◌≡◌, ◌⊎◌, ◌↔◌, ℕ, ◌+◌, ◌-◌, ◌≤◌, ◌<◌, ◌^◌, List, [], ◌∷◌, ◌++◌, true, false, IsSome, Ok, IfOk, IfSome, OnOk, OnErr, IsErrOf, length, nat_lt};
ghost use Rattle.adr_disk.specs.Disk.{Among, Keeps, LeavesOnly, Counts, Looks, ended};
ghost use Rattle.adr_model.specs.Store.{State as Defined};
ghost use Rattle.adr_model.specs.Lengths.{Log as Logs, change_fits, image_length, is_due, length_limit, log_before, next_log};
ghost use Rattle.adr_law_journal.specs.Log.{record_of};
ghost use Rattle.adr_law_journal.specs.Kept.{Layout, starts, FindsEither, IsSettled};
ghost use Rattle.adr_law_journal.specs.Recording.{log_behind};
ghost use Rattle.adr_journal.specs.Kept.{IsAreaFor, IsRoom};
ghost use Rattle.adr_journal.specs.Ran.{Makes};
ghost use Rattle.adr_journal.specs.Written.{AreNoLonger, IsOneOfThree, TakesBoth};

use crate::checkpoint::write_checkpoint;
use crate::form::Form;
use crate::keeper::KeeperRefusal;
use crate::recording::{area_with_gate, record_of, write_record};
use adr_disk::Disk;
use adr_io::Fault;
use adr_state::{AREA_FRAME, Change, Log, State};
use std::alloc::Global;

/// What a commit writes: an area with its closed gate, or no bytes where no checkpoint is due, and a record with the
/// next gate; and the log behind both.
#[derive(Drop)]
pub struct Spelled {
    pub area: Vec<u8>,
    pub written: Vec<u8>,
    pub next: Log,
}

/// The area that is written before a change is recorded, and the log that the record goes to.
fn area_before<F: Form>(
    alloc: Global,
    log: Log,
    state: &State,
    change: &Change,
) -> Result<(Vec<u8>, Log), KeeperRefusal>
    requires first { log.first < 2 ^ 63 }
    requires ends { log.log_end < 2 ^ 63 }
    requires follows { F.can_follow state.now change.now }
    ensures area { IfOk result (λ r. IsAreaFor log change.now (F.area_of state.now) r.0.items) }
    ensures log { IfOk result (λ r. r.1 ≡ log_before log state.now.store change.now) }
    ensures short { OnOk result (is_due log change.now ≡ true → image_length state.now.store < length_limit) }
    ensures long { IfOk result (λ r. length r.0.items < 2 ^ 33) }
    ensures full { IsErrOf result KeeperRefusal.Full
        → (is_due log change.now ≡ true) × (nat_lt (image_length state.now.store) length_limit ≡ false) }
    ensures only { OnErr result (IsErrOf result KeeperRefusal.Full ⊎ IsErrOf result KeeperRefusal.NoMemory) }
{
    if !log.is_due(change) {
        return Ok((Vec::new(alloc), log));
    }
    let Some(area) = area_with_gate::<F>(alloc, state)? else {
        return Err(KeeperRefusal::Full);
    };
    let image = area.len() as u64 - AREA_FRAME;
    Ok((area, log.checkpointed(image)))
}

/// All that a commit of this change to this log writes. Full where the log would end beyond its limit, or where an image
/// or a record would be too long.
pub fn spell<F: Form>(
    alloc: Global,
    log: Log,
    state: &State,
    change: &Change,
) -> Result<Spelled, KeeperRefusal>
    requires first { log.first < 2 ^ 63 }
    requires ends { log.log_end < 2 ^ 63 }
    requires follows { F.can_follow state.now change.now }
    ensures area { IfOk result (λ w. IsAreaFor log change.now (F.area_of state.now) w.area.items) }
    ensures written { IfOk result (λ w. w.written.items ≡ record_of (F.body_of change.now)) }
    ensures next { IfOk result (λ w. w.next ≡ next_log log state.now.store change.now) }
    ensures fits { OnOk result (change_fits log state.now.store change.now ≡ true) }
    ensures long { IfOk result (λ w. (length w.area.items < 2 ^ 33) × (length w.written.items < 2 ^ 33)) }
    ensures full { IsErrOf result KeeperRefusal.Full → change_fits log state.now.store change.now ≡ false }
    ensures only { OnErr result (IsErrOf result KeeperRefusal.Full ⊎ IsErrOf result KeeperRefusal.NoMemory) }
{
    let (area, before) = area_before::<F>(alloc, log, state, change)?;
    let Some(next) = before.after(change) else {
        return Err(KeeperRefusal::Full);
    };
    let written = record_of::<F>(alloc, change)?;
    Ok(Spelled {
        area,
        written,
        next,
    })
}

/// Makes room for what a commit writes.
pub(crate) fn reserve<D: Disk>(disk: &mut D, area: &[u8], written: &[u8]) -> Result<(), Fault>
    requires long { (length area.now < 2 ^ 33) × (length written.now < 2 ^ 33) }
    ensures room { OnOk result (IsRoom area.now written.now (D.spare_calls disk.new) (D.spare_bytes disk.new)) }
    ensures keeps { Keeps D.content D.may_leave D.moment D.left_since disk.old disk.new }
    ensures cause { Counts (D.faults disk.old) (D.faults disk.new) result }
    ensures gives { D.gives disk.old Looks (ended result) disk.new }
{
    let record = written.len() as u64 + 1;
    if area.is_empty() {
        return disk.reserve(4, record);
    }
    disk.reserve(9, area.len() as u64 + 9 + record)
}

/// Writes an area, if there is one, and selects it, and then a record: four calls, or nine.
pub(crate) fn write_commit<D: Disk>(
    disk: &mut D,
    area: &[u8],
    written: &[u8],
    next: Log,
) -> Result<(), Fault>
    requires takes { (l : Layout (List ℕ × List ℕ) Defined) × (s : Defined) × (t : Defined) × (log : Logs) × (mid : Logs) × (body : List ℕ)
        × TakesBoth l D.content D.may_leave disk.old area.now next (next.log_end - length written.now) written.now s t log mid body }
    requires begun { length written.now < next.log_end }
    requires ends { next.log_end < 2 ^ 63 }
    ensures settled { OnOk result ((l : Layout (List ℕ × List ℕ) Defined) (s t : Defined) (log mid : Logs) (body : List ℕ)
        → TakesBoth l D.content D.may_leave disk.old area.now next (next.log_end - length written.now) written.now s t log mid body
        → IsSettled l D.content D.may_leave disk.new t (log_behind mid body)) }
    ensures told { IsSome (D.content disk.new) ↔ IsSome (D.content disk.old) }

    // Whatever it answers, what a crash leaves now and might have left since.
    ensures left { (l : Layout (List ℕ × List ℕ) Defined) (s t : Defined) (log mid : Logs) (body : List ℕ)
        → TakesBoth l D.content D.may_leave disk.old area.now next (next.log_end - length written.now) written.now s t log mid body
        → IfSome (D.content disk.old) (λ _.
        Among (λ bytes. IsOneOfThree s log mid t (log_behind mid body) (starts l bytes)) (D.may_leave disk.new)) }
    ensures any_moment { (l : Layout (List ℕ × List ℕ) Defined) (s t : Defined) (log mid : Logs) (body : List ℕ)
        → TakesBoth l D.content D.may_leave disk.old area.now next (next.log_end - length written.now) written.now s t log mid body
        → IfSome (D.content disk.old) (λ _. LeavesOnly D.moment D.left_since disk.old disk.new
        (λ bytes. FindsEither s t (starts l bytes))) }
    ensures no_longer { (area.now ≡ [] ⊎ (next.place + length area.now ≤ next.log_end)) → AreNoLonger (D.content disk.old) (D.may_leave disk.new) next.log_end }

    ensures cause { Counts (D.faults disk.old) (D.faults disk.new) result }
    ensures no_memory_only { IsErrOf result Fault.NoMemory
        → (area.now ≡ [] → (D.spare_calls disk.old < 4) ⊎ (D.spare_bytes disk.old < length written.now + 1))
        × ((D.spare_calls disk.old < 9) ⊎ (D.spare_bytes disk.old < length area.now + 9 + length written.now + 1)) }
    ensures gives { Makes D.gives area.now next written.now disk.old (ended result) disk.new }
{
    if area.is_empty() {
        return write_record(disk, next.end() - written.len() as u64, written);
    }
    write_checkpoint(disk, next.place(), area, next.second())?;
    write_record(disk, next.end() - written.len() as u64, written)
}
