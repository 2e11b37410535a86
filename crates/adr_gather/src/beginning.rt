//! Writes a new log.

ghost use Rattle.std.specs.Prelude.{◌≡◌, ◌⊎◌, ◌↔◌, ℕ, ◌+◌, ◌<◌, ◌^◌, List, [], ◌∷◌, IsSome, IfSome, OnOk, IsErrOf, length};
ghost use Rattle.std.specs.Option.{ForSome};
ghost use Rattle.adr_disk.specs.Disk.{Among, Only, LeavesOnly, Counts};
ghost use Rattle.adr_model.specs.Store.{State as Defined};
ghost use Rattle.adr_model.specs.Lengths.{Log};
ghost use Rattle.adr_law_journal.specs.Log.{open_gate};
ghost use Rattle.adr_law_journal.specs.Kept.{Layout, starts, Rests, IsSettled};
ghost use Rattle.adr_journal.specs.Written.{IsNone};

use adr_disk::{Disk, write_through};
use adr_io::Fault;
use adr_journal::OPEN_GATE;

/// The closed gate that is written.
const CLOSED_GATE: u8 = 0;

/// Writes a log behind a closed gate on an empty disk, and then opens the gate: six calls.
pub(crate) fn write_log<D: Disk>(disk: &mut D, written: &[u8]) -> Result<(), Fault>
    requires room { length written.now + 1 < 2 ^ 64 }
    requires empty { ForSome (D.content disk.old) (λ there. there ≡ []) }
    requires synced { ForSome (D.content disk.old) (λ there. Only there (D.may_leave disk.old)) }
    ensures settled { OnOk result ((l : Layout (List ℕ × List ℕ) Defined) (s : Defined) (log : Log)
        → Rests l s log (open_gate ∷ written.now) → IsSettled l D.content D.may_leave disk.new s log) }
    ensures told { IsSome (D.content disk.new) ↔ IsSome (D.content disk.old) }

    // Whatever it answers, what a crash leaves now and might have left since.
    ensures left { (l : Layout (List ℕ × List ℕ) Defined) (s : Defined) (log : Log)
        → Rests l s log (open_gate ∷ written.now)
        → IfSome (D.content disk.old) (λ _. Among (λ bytes. IsNone s log (starts l bytes)) (D.may_leave disk.new)) }
    ensures any_moment { (l : Layout (List ℕ × List ℕ) Defined) (s : Defined) (log : Log)
        → Rests l s log (open_gate ∷ written.now)
        → IfSome (D.content disk.old) (λ _. LeavesOnly D.moment D.left_since disk.old disk.new
        (λ bytes. IsNone s log (starts l bytes))) }

    ensures cause { Counts (D.faults disk.old) (D.faults disk.new) result }
    ensures no_memory_only { IsErrOf result Fault.NoMemory
        → (D.spare_calls disk.old < 6) ⊎ (D.spare_bytes disk.old < length written.now + 2) }
{
    write_through(disk, 0, &[CLOSED_GATE])?;
    write_through(disk, 1, written)?;
    write_through(disk, 0, &[OPEN_GATE])
}
