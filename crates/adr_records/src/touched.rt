//! The objects and links that a change writes to, as they are behind it.

ghost use Rattle.std.specs.Prelude.{◌≡◌, [], List, IfOk, Some, fold, is_some};
ghost use Rattle.std.specs.BTreeSet.{insert_key};
ghost use Rattle.std.specs.List.{list_all};
ghost use Rattle.adr_values.specs.Order.{object_order};
ghost use Rattle.adr_values.specs.declared.stamp.Oid.{Oid as Named};
ghost use Rattle.adr_model.specs.Change.{without_object};
ghost use Rattle.adr_model.specs.Store.{row_held};
ghost use Rattle.adr_model.specs.Take.{is_reserved_row};
ghost use Rattle.adr_model.specs.Update.{RowOf, deleted_attr};
ghost use Rattle.adr_values.specs.Table.{must_of};
ghost use Rattle.adr_update.specs.Key.{key_of};
ghost use Rattle.adr_law_calls.specs.Tested.{all_of_object, are_touched_formed, fits_class, is_alive_formed, is_formed_by, is_object_formed, is_touched_formed};

use crate::forms::{
    all_fit, all_reserved, is_class_known, is_forward, says_allowed_name, says_dead,
};
use crate::removed::set_of;
use adr_checks::Schema;
use adr_overlay::{Overlay, class_said, is_birth};
use adr_state::Change;
use adr_update::{CLASS, Held, Key, NAME};
use adr_values::{NoMemory, Oid, Unit};
use std::alloc::Global;
use std::collections::BTreeSet;

/// Whether the objects and links that a change writes to are formed, or aren't held, once it has removed objects.
pub(crate) fn are_touched_formed(
    alloc: Global,
    schema: Schema,
    told: &Overlay,
    change: &Change,
) -> Result<bool, NoMemory>
    ensures { IfOk result (λ are. are
        ≡ are_touched_formed schema (fold without_object told.now change.now.removed) change.now.writes) }
{
    let removed = set_of(alloc, change.removed())?;
    for written in change.writes() {
        if !is_touched_formed(alloc, schema, told, &removed, written.item().unit())? {
            return Ok(false);
        }
    }
    Ok(true)
}

/// Whether an object is formed, or isn't held once objects are removed; whether a link is a forward one, or doesn't stand.
fn is_touched_formed(
    alloc: Global,
    schema: Schema,
    told: &Overlay,
    removed: &BTreeSet<Oid>,
    unit: Unit,
) -> Result<bool, NoMemory>
    ensures { (os : List Named) → removed.now.keys ≡ fold (insert_key object_order) [] os
        → IfOk result (λ is. is ≡ is_touched_formed schema (fold without_object told.now os) unit) }
{
    match unit {
        Unit::Object(object) => {
            if removed.contains(&object) || !told.holds(&object) {
                return Ok(true);
            }
            is_object_formed(alloc, schema, told, &object)
        }
        Unit::Link(link) => {
            Ok(told.row(Key::Link(link)).is_none() || is_forward(schema, link.attr))
        }
    }
}

/// Whether an object is formed: it has a class and a name, and the other rows that go with these.
fn is_object_formed(
    alloc: Global,
    schema: Schema,
    told: &Overlay,
    object: &Oid,
) -> Result<bool, NoMemory>
    ensures { IfOk result (λ is. is ≡ is_object_formed schema told.now object.now) }
{
    let class = told.row(row_key(object, CLASS));
    let name = told.row(row_key(object, NAME));
    match (class, name) {
        (Some(class), Some(name)) => is_named_formed(alloc, schema, told, object, class, name),
        _ => Ok(false),
    }
}

fn row_key(object: &Oid, attr: u16) -> Key
    ensures { key_of result ≡ RowOf object.now attr }
{
    Key::Row {
        object: *object,
        attr,
    }
}

/// Whether an object is formed whose class and name rows are these.
fn is_named_formed(
    alloc: Global,
    schema: Schema,
    told: &Overlay,
    object: &Oid,
    class: &Held,
    name: &Held,
) -> Result<bool, NoMemory>
    ensures { IfOk result (λ is. is ≡ is_formed_by schema told.now object.now (Some class.now) (Some name.now)
        (row_held told.now (RowOf object.now deleted_attr))) }
{
    if !is_birth(object, class.update()) {
        return Ok(false);
    }
    let said = class_said(class.update().said());
    let is_named = says_allowed_name(name.update().said());
    match told.row(Key::deleted(object)) {
        Some(death) => {
            let is_dead = says_dead(death.update().said());
            if !is_class_known(schema, said) || !is_named || !is_dead {
                return Ok(false);
            }
            are_reserved(alloc, told, object)
        }
        None => {
            if !is_named {
                return Ok(false);
            }
            is_alive_formed(alloc, schema, told, object, said)
        }
    }
}

/// Whether a dead object's rows are those that stay of one.
fn are_reserved(alloc: Global, told: &Overlay, object: &Oid) -> Result<bool, NoMemory>
    ensures { IfOk result (λ are. are ≡ all_of_object told.now object.now (λ u. is_reserved_row u.key)) }
{
    Ok(all_reserved(told.rows_of(alloc, object)?.as_slice()))
}

/// Whether a live object's rows are those of its class, with each that it must have.
fn is_alive_formed(
    alloc: Global,
    schema: Schema,
    told: &Overlay,
    object: &Oid,
    class: Option<u16>,
) -> Result<bool, NoMemory>
    ensures { IfOk result (λ is. is ≡ is_alive_formed schema told.now object.now class) }
{
    let Some(number) = class else {
        return Ok(false);
    };
    if !is_class_known(schema, class) || !are_of_class(alloc, schema, told, object, number)? {
        return Ok(false);
    }
    Ok(has_must(schema, told, object, number))
}

/// Whether a live object's rows are those of its class.
fn are_of_class(
    alloc: Global,
    schema: Schema,
    told: &Overlay,
    object: &Oid,
    class: u16,
) -> Result<bool, NoMemory>
    ensures { IfOk result (λ are. are ≡ all_of_object told.now object.now (fits_class schema class)) }
{
    Ok(all_fit(schema, class, told.rows_of(alloc, object)?.as_slice()))
}

/// Whether an object has each row that one of its class must have.
fn has_must(schema: Schema, told: &Overlay, object: &Oid, class: u16) -> bool
    ensures { result
        ≡ list_all (λ attr. is_some (row_held told.now (RowOf object.now attr))) (must_of schema class) }
{
    for attr in schema.must(class) {
        if told.row(row_key(object, *attr)).is_none() {
            return false;
        }
    }
    true
}
