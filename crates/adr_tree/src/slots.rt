//! Slots for live objects, and flags of those that break a loop. An empty slot is room that nobody sees.

ghost use Rattle.std.specs.Prelude.{◌≡◌, IfNone, IsTrue, IsSome, OnOk, cond, Some, None};
ghost use Rattle.std.specs.Option.{option_copied};
ghost use Rattle.std.specs.BTreeMap.{btree_map_len, get};
ghost use Rattle.adr_values.specs.Order.{identifier_order};
ghost use Rattle.adr_model.specs.Update.{Identifier, same_identifier};
ghost use Rattle.adr_tree.specs.Slots.{IsTidy, KeepsPlaces, flag_at, seen, slot_at};

use crate::NoMemory;
use adr_update::Node;
use adr_values::Guid;
use std::collections::BTreeMap;

/// The live object in the slot of a GUID.
pub(crate) fn slot(slots: &BTreeMap<Guid, Option<Node>>, guid: Guid) -> Option<&Node>
    ensures { option_copied result ≡ slot_at slots.now guid }
{
    match slots.get(&guid) {
        Some(slot) => slot.as_ref(),
        None => None,
    }
}

/// Whether the flag of a GUID is set.
pub(crate) fn flag(flags: &BTreeMap<Guid, bool>, guid: Guid) -> bool
    ensures { result ≡ flag_at flags.now guid }
{
    match flags.get(&guid) {
        Some(flag) => *flag,
        None => false,
    }
}

/// Makes a slot for a GUID, if there is none. Nobody sees it.
pub(crate) fn reserve_slot(
    slots: &mut BTreeMap<Guid, Option<Node>>,
    guid: Guid,
) -> Result<(), NoMemory>
    requires { IsTidy slots.old }
    ensures seen { seen slots.new.entries ≡ seen slots.old.entries }
    ensures tidy { IsTidy slots.new }
    ensures more { KeepsPlaces slots.old slots.new }
    ensures ok { OnOk result (IsSome (get identifier_order slots.new guid)) }
{
    slots.entry(guid)?.or_insert(None);
    Ok(())
}

/// Makes a flag for a GUID, if there is none. It isn't set.
pub(crate) fn reserve_flag(flags: &mut BTreeMap<Guid, bool>, guid: Guid) -> Result<(), NoMemory>
    ensures same { (g : Identifier) → flag_at flags.new g ≡ flag_at flags.old g }
    ensures more { KeepsPlaces flags.old flags.new }
    ensures ok { OnOk result (IsSome (get identifier_order flags.new guid)) }
{
    flags.entry(guid)?.or_insert(false);
    Ok(())
}

/// Puts a live object into the slot of its GUID.
pub(crate) fn fill(slots: &mut BTreeMap<Guid, Option<Node>>, node: Node)
    requires tidy { IsTidy slots.old }
    requires room { IsSome (get identifier_order slots.old node.object.guid) }
    ensures tidy { IsTidy slots.new }
    ensures nodes { (g : Identifier) → slot_at slots.new g
        ≡ cond (same_identifier node.object.guid g) (Some node) (slot_at slots.old g) }
    ensures len { btree_map_len slots.new ≡ btree_map_len slots.old }
    ensures more { KeepsPlaces slots.old slots.new }
{
    match slots.insert(node.object().guid, Some(node)) {
        Ok(_) => {}
        Err(_) => unreachable!(),
    }
}

/// Takes the live object out of the slot of a GUID, if there is one.
pub(crate) fn empty(slots: &mut BTreeMap<Guid, Option<Node>>, guid: Guid) -> Option<Node>
    requires { IsTidy slots.old }
    ensures old { result ≡ slot_at slots.old guid }
    ensures tidy { IsTidy slots.new }
    ensures nodes { (g : Identifier) → slot_at slots.new g
        ≡ cond (same_identifier guid g) None (slot_at slots.old g) }
    ensures more { KeepsPlaces slots.old slots.new }
    ensures none { IfNone result (seen slots.new.entries ≡ seen slots.old.entries) }
{
    match slots.get_mut(&guid) {
        Some(slot) => slot.take(),
        None => None,
    }
}

/// Whether the GUID has a slot that is empty.
fn is_empty_slot(slots: &BTreeMap<Guid, Option<Node>>, guid: Guid) -> bool
    ensures { IsTrue result → get identifier_order slots.now guid ≡ Some None }
{
    match slots.get(&guid) {
        Some(slot) => slot.is_none(),
        None => false,
    }
}

/// Frees the slot of a GUID, if it is empty. Nobody sees it.
pub(crate) fn free(slots: &mut BTreeMap<Guid, Option<Node>>, guid: Guid) -> bool
    requires { IsTidy slots.old }
    ensures seen { seen slots.new.entries ≡ seen slots.old.entries }
    ensures tidy { IsTidy slots.new }
    ensures empty { IsTrue result → slot_at slots.old guid ≡ None }
{
    let is_empty = is_empty_slot(slots, guid);
    if is_empty {
        let _ = slots.remove(&guid);
    }
    is_empty
}

/// Sets or clears the flag of a GUID.
pub(crate) fn set_flag(flags: &mut BTreeMap<Guid, bool>, guid: Guid, value: bool)
    requires { IsSome (get identifier_order flags.old guid) }
    ensures flag { (g : Identifier) → flag_at flags.new g
        ≡ cond (same_identifier guid g) value (flag_at flags.old g) }
    ensures more { KeepsPlaces flags.old flags.new }
{
    match flags.insert(guid, value) {
        Ok(_) => {}
        Err(_) => unreachable!(),
    }
}
