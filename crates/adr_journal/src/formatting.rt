//! Writes a new log.

ghost use Rattle.std.specs.Prelude.{◌≡◌, ◌⊎◌, ◌↔◌, ℕ, ◌+◌, ◌<◌, ◌^◌, List, [], ◌∷◌, true, false, IsSome, IfOk, IfSome, OnOk, OnErr, IsErrOf, length};
ghost use Rattle.std.specs.Option.{ForSome};
ghost use Rattle.adr_disk.specs.Disk.{Among, Only, LeavesOnly, Counts, ended};
ghost use Rattle.adr_model.specs.Store.{State as Defined};
ghost use Rattle.adr_model.specs.Lengths.{Log as Logs, area_fits, image_length, length_limit, new_log};
ghost use Rattle.adr_law_journal.specs.Log.{open_gate};
ghost use Rattle.adr_law_journal.specs.Kept.{Layout, starts, Rests, IsSettled};
ghost use Rattle.adr_law_journal.specs.Recording.{new_bytes};
ghost use Rattle.adr_journal.specs.Kept.{ids_of};
ghost use Rattle.adr_journal.specs.Ran.{Formats};
ghost use Rattle.adr_journal.specs.Written.{AreNoLonger, IsNone};

use crate::form::Form;
use crate::keeper::KeeperRefusal;
use crate::layout::{CLOSED_GATE, OPEN_GATE};
use crate::recording::{area_with_gate, log_with_area};
use adr_disk::{Disk, write_through};
use adr_io::Fault;
use adr_state::{AREA_FRAME, Log, State};
use std::alloc::Global;

/// The bytes of a new log of a state behind its first gate, and where it stands. It is full where the image would be 4
/// GiB or longer; any other log ends within its limit.
pub fn new_log<F: Form>(alloc: Global, state: &State) -> Result<(Vec<u8>, Log), KeeperRefusal>
    requires { F.can_begin state.now }
    ensures bytes { IfOk result (λ r. r.0.items ≡ new_bytes (F.front_of (ids_of state.now)) (F.area_of state.now)) }
    ensures log { IfOk result (λ r. r.1 ≡ new_log state.now) }
    ensures long { IfOk result (λ r. length r.0.items + 1 ≡ (new_log state.now).log_end) }
    ensures short { OnOk result (image_length state.now.store < length_limit) }
    ensures fits { OnOk result (area_fits (new_log state.now) state.now.store ≡ true) }
    ensures full { IsErrOf result KeeperRefusal.Full → area_fits (new_log state.now) state.now.store ≡ false }
    ensures only { OnErr result (IsErrOf result KeeperRefusal.Full ⊎ IsErrOf result KeeperRefusal.NoMemory) }
{
    let Some(area) = area_with_gate::<F>(alloc, state)? else {
        return Err(KeeperRefusal::Full);
    };
    let written = log_with_area::<F>(alloc, state, &area)?;
    Ok((written, Log::new(area.len() as u64 - AREA_FRAME)))
}

/// Writes a log behind a closed gate on an empty disk, and then opens the gate.
pub(crate) fn write_log<D: Disk>(disk: &mut D, written: &[u8]) -> Result<(), Fault>
    requires room { length written.now + 1 < 2 ^ 64 }
    requires empty { ForSome (D.content disk.old) (λ there. there ≡ []) }
    requires synced { ForSome (D.content disk.old) (λ there. Only there (D.may_leave disk.old)) }
    ensures settled { OnOk result ((l : Layout (List ℕ × List ℕ) Defined) (s : Defined) (log : Logs)
        → Rests l s log (open_gate ∷ written.now) → IsSettled l D.content D.may_leave disk.new s log) }
    ensures told { IsSome (D.content disk.new) ↔ IsSome (D.content disk.old) }

    // Whatever it answers, what a crash leaves now and might have left since.
    ensures left { (l : Layout (List ℕ × List ℕ) Defined) (s : Defined) (log : Logs)
        → Rests l s log (open_gate ∷ written.now)
        → IfSome (D.content disk.old) (λ _. Among (λ bytes. IsNone s log (starts l bytes)) (D.may_leave disk.new)) }
    ensures any_moment { (l : Layout (List ℕ × List ℕ) Defined) (s : Defined) (log : Logs)
        → Rests l s log (open_gate ∷ written.now)
        → IfSome (D.content disk.old) (λ _. LeavesOnly D.moment D.left_since disk.old disk.new
        (λ bytes. IsNone s log (starts l bytes))) }

    ensures no_longer { AreNoLonger (D.content disk.old) (D.may_leave disk.new) (length written.now + 1) }

    ensures cause { Counts (D.faults disk.old) (D.faults disk.new) result }
    ensures no_memory_only { IsErrOf result Fault.NoMemory
        → (D.spare_calls disk.old < 6) ⊎ (D.spare_bytes disk.old < length written.now + 2) }
    ensures gives { Formats D.gives written.now disk.old (ended result) disk.new }
{
    write_through(disk, 0, &[CLOSED_GATE])?;
    write_through(disk, 1, written)?;
    write_through(disk, 0, &[OPEN_GATE])
}
