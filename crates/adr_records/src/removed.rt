//! The objects that a change removes.

ghost use Rattle.std.specs.Prelude.{◌≡◌, [], IfOk, fold};
ghost use Rattle.std.specs.BTreeSet.{insert_key};
ghost use Rattle.adr_values.specs.Order.{object_order};
ghost use Rattle.adr_values.specs.Vector.{covers, joined};
ghost use Rattle.adr_law_calls.specs.Tested.{are_removable, is_removable};

use adr_overlay::Overlay;
use adr_state::Change;
use adr_update::Key;
use adr_values::{Guid, NoMemory, Oid, Vector, seen_by_both};
use std::alloc::Global;
use std::collections::BTreeSet;

/// Whether the objects that a change removes are held dead, and the births and deaths of all are purged.
pub(crate) fn are_removable(told: &Overlay, purged: &Vector, change: &Change) -> bool
    ensures { result ≡ are_removable told.now (joined purged.now change.now.purged) change.now.removed }
{
    let more = change.purged();
    for object in change.removed() {
        if !is_removable(told, purged, more, object) {
            return false;
        }
    }
    true
}

/// Whether an object is held dead, and its birth and its death are purged.
fn is_removable(told: &Overlay, purged: &Vector, more: &Vector, object: &Oid) -> bool
    ensures { result ≡ is_removable told.now (joined purged.now more.now) object.now }
{
    let birth = object.birth;
    match told.row(Key::deleted(object)) {
        Some(row) => {
            let death = row.update().stamp().stamp;
            covers(purged, more, birth.inv, birth.usn) && covers(purged, more, death.inv, death.usn)
        }
        None => false,
    }
}

/// Whether one of two vectors covers a write.
fn covers(one: &Vector, other: &Vector, inv: Guid, usn: u64) -> bool
    ensures { result ≡ covers (joined one.now other.now) inv usn }
{
    usn <= seen_by_both(one, other, inv)
}

/// A set of objects.
pub(crate) fn set_of(alloc: Global, objects: &[Oid]) -> Result<BTreeSet<Oid>, NoMemory>
    ensures { IfOk result (λ set. set.keys ≡ fold (insert_key object_order) [] objects.now) }
{
    let mut set = BTreeSet::new(alloc);
    for object in objects {
        set.insert(*object)?;
    }
    Ok(set)
}
