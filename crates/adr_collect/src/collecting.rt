//! A collection.

ghost use Rattle.std.specs.Prelude.{◌≡◌, ◌+◌, None, Some, Ok, Err, IfOk, IsErrOf, nat_lt, if◌then◌else◌};
ghost use Rattle.adr_call.specs.declared.refusal.CollectRefusal.{CollectRefusal};
ghost use Rattle.adr_model.specs.Collect.{collect};
ghost use Rattle.adr_model.specs.Write.{usn_limit};

use crate::deaths::dead_to_collect;
use adr_call::{CollectRefusal, Failure};
use adr_state::{Change, Mode, State, Times, USN_LIMIT, Vector};
use std::alloc::Global;

/// The change of a collection at a time, both in seconds: dead objects go whose births and deaths the vector covers,
/// once the lifetime is over.
pub fn collect(
    alloc: Global,
    state: &State,
    now: u64,
    lifetime: u64,
) -> Result<Change, Failure<CollectRefusal>>
    ensures ok { IfOk result (λ change. collect state.now now lifetime ≡ Ok change) }
    ensures refused { (refusal : CollectRefusal) → IsErrOf result (Failure.Refused refusal)
        → collect state.now now lifetime ≡ Err refusal }
{
    if state.mode().is_quarantined() {
        return Err(Failure::Refused(CollectRefusal::Quarantined));
    }
    let dead = dead_to_collect(alloc, state, now, lifetime)?;
    let Some(usn) = usn_after(state.usn(), dead.objects.len()) else {
        return Err(Failure::Refused(CollectRefusal::UsnLimit));
    };
    Ok(Change::new(
        usn,
        Mode::Normal,
        state.schema(),
        None,
        Vector::new(alloc),
        Times::new(alloc),
        dead.covering,
        dead.objects,
        Vec::new(alloc),
    ))
}

/// The USN after a collection of so many objects, within its limit: it takes one where it removes anything.
fn usn_after(usn: u64, removed: usize) -> Option<u64>
    ensures { let after = usn + (if nat_lt 0 removed then 1 else 0) in
        result ≡ (if nat_lt usn_limit after then None else Some after) }
{
    let after = usn.checked_add(u64::from(0 < removed))?;
    if USN_LIMIT < after { None } else { Some(after) }
}
