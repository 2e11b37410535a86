//! `create`: a new, empty controller on an empty disk.

ghost use Rattle.std.specs.Prelude.{◌≡◌, ◌⊎◌, ◌<◌, ◌≤◌, codes, Ok, Err, IfOk, IfErr, IsErrOf};
ghost use Rattle.adr_node.specs.Makes.{IsNew, MadeOn, Makes};
ghost use Rattle.adr_node.specs.Seen.{Untouched};
ghost use Rattle.adr_node.specs.declared.ended.Refusal.{Refusal};
ghost use Rattle.adr_records.specs.Logged.{MayBegin};

use crate::drawing::draw;
use crate::ended::{Creation, Refusal};
use crate::making::{Unmade, find_empty, format_empty, tell};
use adr_call::Text;
use adr_disk::Disk;
use adr_io::Sink;
use adr_law_recorded::new_controllers_may_begin;
use adr_outside::Fresh;
use adr_state::State;
use std::alloc::Global;

/// A new, empty controller under fresh identifiers.
fn new_state<F: Fresh>(alloc: Global, fresh: &mut F) -> Result<State, Unmade>
    ensures new { IfOk result (λ state. IsNew (F.identifiers fresh.old) (F.identifiers fresh.new) (Ok state)) }
    ensures begins { IfOk result MayBegin }
    ensures why { IfErr result (λ e. (e ≡ Unmade.FreshFault) ⊎ (e ≡ Unmade.NoMemory)) }
    ensures fault { IsErrOf result Unmade.FreshFault → F.faults fresh.old < F.faults fresh.new }
    ensures later { F.faults fresh.old ≤ F.faults fresh.new }
{
    new_controllers_may_begin();
    let (dsa, inv) = draw(None, fresh)?;
    Ok(State::first(alloc, dsa, inv))
}

/// Makes a new, empty controller on the disk of this name.
fn new_on<D: Disk, F: Fresh>(
    alloc: Global,
    name: &Text,
    mut disk: D,
    fresh: &mut F,
) -> (Result<(), Unmade>, D)
    ensures made { let comes = IsNew (F.identifiers fresh.old) (F.identifiers fresh.new) in
        MadeOn D.Disk comes (fresh.new ≡ fresh.old) disk result.1 result.0 }
    ensures why { IfErr result.0 (λ e. e ≡ Unmade.ReadFault → ⊥) }
    ensures only { (refusal : Refusal) → result.0 ≡ Err (Unmade.Refused refusal) → refusal ≡ Refusal.NotEmpty }
    ensures fault { IsErrOf result.0 Unmade.FreshFault
        → (F.faults fresh.old < F.faults fresh.new) × Untouched D.Disk disk result.1 }
    ensures later { F.faults fresh.old ≤ F.faults fresh.new }
{
    match find_empty(name, &mut disk) {
        Ok(()) => {}
        Err(unmade) => return (Err(unmade), disk),
    }
    match new_state(alloc, fresh) {
        Ok(state) => format_empty(alloc, disk, state),
        Err(unmade) => (Err(unmade), disk),
    }
}

/// Makes a new, empty controller on the disk of this name, which has to be empty, and writes the line of that. Its two
/// identifiers are drawn, the controller's before the database's. The disk is attached, and comes back.
pub fn create<D: Disk, F: Fresh, K: Sink>(
    alloc: Global,
    name: &Text,
    disk: D,
    fresh: &mut F,
    sink: &mut K,
) -> (Creation, D)
    ensures makes { let comes = IsNew (F.identifiers fresh.old) (F.identifiers fresh.new) in
        Makes D.Disk K.Sink comes (fresh.new ≡ fresh.old) (codes "create") name.now disk result.1 sink.old sink.new result.0 }
    ensures write_later { K.faults sink.old ≤ K.faults sink.new }

    // Nothing is read.
    ensures unread { result.0 ≡ Creation.ReadFault → ⊥ }

    // Where no identifier is given, nothing has changed of the disk.
    ensures fresh_fault { result.0 ≡ Creation.FreshFault
        → (F.faults fresh.old < F.faults fresh.new) × Untouched D.Disk disk result.1 }
    ensures fresh_later { F.faults fresh.old ≤ F.faults fresh.new }

    // Only a disk that has bytes is refused.
    ensures only { (refusal : Refusal) → result.0 ≡ Creation.Refused refusal → refusal ≡ Refusal.NotEmpty }
{
    let (made, disk) = new_on(alloc, name, disk, fresh);
    (tell(alloc, "create", name, made, sink), disk)
}
