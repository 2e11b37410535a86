//! Which objects may be held dead.

ghost use Rattle.std.specs.Prelude.{◌≡◌, IfOk, OnOk, filter, is_some, true};
ghost use Rattle.std.specs.BTreeSet.{contains};
ghost use Rattle.adr_values.specs.Order.{object_order};
ghost use Rattle.adr_values.specs.declared.stamp.Oid.{Oid as Named};
ghost use Rattle.adr_model.specs.Change.{killed_by};
ghost use Rattle.adr_model.specs.Update.{Key as Defined};
ghost use Rattle.adr_update.specs.Key.{key_of};
ghost use Rattle.adr_update.specs.Referents.{referents};
ghost use Rattle.adr_table.specs.Slots.{IsTidy, rows_seen};
ghost use Rattle.adr_table.specs.Deaths.{AreListed, IsListed};

use crate::NoMemory;
use crate::slots::{Slots, push_row};
use adr_update::{Held, Key};
use adr_values::Oid;
use std::alloc::Global;
use std::collections::BTreeSet;

/// Keeps the object of a death.
pub(crate) fn remember(dead: &mut BTreeSet<Oid>, key: &Key) -> Result<(), NoMemory>
    ensures more { (k : Defined) → IsListed dead.old k → IsListed dead.new k }
    ensures ok { OnOk result (IsListed dead.new (key_of key.now)) }
{
    match key.killed() {
        Some(object) => insert(dead, object),
        None => Ok(()),
    }
}

fn insert(dead: &mut BTreeSet<Oid>, object: Oid) -> Result<(), NoMemory>
    ensures more { (o : Named) → contains object_order dead.old o ≡ true → contains object_order dead.new o ≡ true }
    ensures ok { OnOk result (contains object_order dead.new object ≡ true) }
{
    dead.insert(object)?;
    Ok(())
}

/// The rows of deaths, in order.
pub(crate) fn deaths<'a>(
    alloc: Global,
    slots: &'a Slots,
    dead: &BTreeSet<Oid>,
) -> Result<Vec<&'a Held>, NoMemory>
    requires tidy { IsTidy slots.now }
    requires listed { AreListed slots.now dead.now }
    ensures { IfOk result (λ rows.
        referents rows.items ≡ filter (λ h. is_some (killed_by h.update.key)) (rows_seen slots.now)) }
{
    let mut rows = Vec::new(alloc);
    for object in dead {
        push_row(&mut rows, slots.row(&Key::deleted(object)))?;
    }
    Ok(rows)
}

/// Lets go of an object that isn't held dead.
pub(crate) fn forget(slots: &Slots, dead: &mut BTreeSet<Oid>, object: &Oid)
    requires tidy { IsTidy slots.now }
    requires listed { AreListed slots.now dead.old }
    ensures { AreListed slots.now dead.new }
{
    if slots.row(&Key::deleted(object)).is_none() {
        let _ = dead.remove(object);
    }
}
