//! The values that the rows of an object give.

ghost use Rattle.std.specs.Prelude.{◌≡◌, ◌∷◌, ◌++◌, [], true, IfOk, OnOk};
ghost use Rattle.adr_model.specs.Directory.{values_at};
ghost use Rattle.adr_model.specs.Live.{live_rows};
ghost use Rattle.adr_model.specs.Store.{updates_of};
ghost use Rattle.adr_model.specs.Write.{nodes_held};
ghost use Rattle.adr_update.specs.Referents.{referents};
ghost use Rattle.adr_view.specs.Ends.{is_live};

use crate::NoMemory;
use adr_call::EntryValues;
use adr_state::{Held, Key, Rows, Said, Update, is_same_object};
use adr_values::{Content, Oid, Values};
use std::alloc::Global;

/// Adds the attribute and the values that a row of an object gives, where there are any.
fn push_values(
    alloc: Global,
    list: &mut Vec<(u16, Values)>,
    object: &Oid,
    update: &Update,
) -> Result<(), NoMemory>
    ensures { OnOk result (list.new.items ≡ list.old.items ++ values_at (update.now ∷ []) object.now) }
{
    match (update.key(), update.said()) {
        (Key::Row { object: own, attr }, Said::Holds(Content::Values(values)))
            if is_same_object(&own, object) && !values.items().is_empty() => {
            Ok(list.push((attr, values.copy(alloc)?))?)
        }
        _ => Ok(()),
    }
}

/// The attributes of an object that have values among rows, in their order.
fn values_among(alloc: Global, object: &Oid, rows: &[&Held]) -> Result<EntryValues, NoMemory>
    ensures { IfOk result (λ values. values ≡ values_at (updates_of (referents rows.now)) object.now) }
{
    let mut list = Vec::new(alloc);
    for held in rows {
        push_values(alloc, &mut list, object, held.update())?;
    }
    Ok(EntryValues::of(list))
}

/// The attributes of a live object that have values, rising.
pub fn values_at(alloc: Global, rows: &Rows, object: &Oid) -> Result<EntryValues, NoMemory>
    requires { is_live (nodes_held (updates_of rows.now)) object.now ≡ true }
    ensures { IfOk result (λ values. values ≡ values_at (live_rows (updates_of rows.now)) object.now) }
{
    rows.are_rising();
    let own = rows.rows_of(alloc, object)?;
    values_among(alloc, object, own.as_slice())
}
