//! Which rows of an item are written.

ghost use Rattle.std.specs.Prelude.{◌≡◌, ◌++◌, ◌∷◌, [], IfOk, OnOk, filter, if◌then◌else◌};
ghost use Rattle.adr_values.specs.Vector.{Cursors};
ghost use Rattle.adr_model.specs.Take.{is_reserved_row, left_by_death, rows_taken};
ghost use Rattle.adr_overlay.specs.Standing.{IsStanding};
ghost use Rattle.adr_cycle.specs.RowsTaken.{can_die, is_taken};

use crate::NoMemory;
use adr_overlay::{Overlay, Presence, Standing, has_row, is_above, is_of_attr, is_reserved};
use adr_state::{CLASS, DELETED, Item, Update};
use std::alloc::Global;

/// The rows of an item that are written, by what stands of its unit.
pub fn rows_taken(
    alloc: Global,
    held: &Overlay,
    standing: Standing,
    item: &Item,
) -> Result<Vec<Update>, NoMemory>
    ensures { IfOk result (λ rows. (vector : Cursors) → IsStanding vector held.now item.now.unit standing
        → rows.items ≡ rows_taken vector held.now item.now) }
{
    let mut rows = each_taken(alloc, held, standing, item.rows())?;
    leave_by_death(standing, &mut rows);
    Ok(rows)
}

/// The rows that are taken one by one.
fn each_taken(
    alloc: Global,
    held: &Overlay,
    standing: Standing,
    rows: &[Update],
) -> Result<Vec<Update>, NoMemory>
    ensures { IfOk result (λ taken. taken.items ≡ filter (is_taken held.now standing) rows.now) }
{
    let mut taken = Vec::with_capacity(alloc, rows.len())?;
    for row in rows {
        take_row(alloc, held, standing, row, &mut taken)?;
    }
    Ok(taken)
}

/// Copies a row behind those that are taken, if it is.
fn take_row(
    alloc: Global,
    held: &Overlay,
    standing: Standing,
    row: &Update,
    taken: &mut Vec<Update>,
) -> Result<(), NoMemory>
    ensures { OnOk result (taken.new.items
        ≡ taken.old.items ++ (if is_taken held.now standing row.now then row.now ∷ [] else [])) }
{
    if is_taken(held, standing, row) {
        taken.push(row.copy(alloc)?)?;
    }
    Ok(())
}

/// Whether a row is taken: of a dead object a younger death, of a live one a younger row but its class, of a new one any
/// row, and of a link a younger row, unless an end of it is dead or gone.
fn is_taken(held: &Overlay, standing: Standing, row: &Update) -> bool
    ensures { result ≡ is_taken held.now standing row.now }
{
    match standing {
        Standing::OfObject { presence, .. } => match presence {
            Presence::Dead => is_of_attr(DELETED, row.key()) && is_above(held, row),
            Presence::Held => !is_of_attr(CLASS, row.key()) && is_above(held, row),
            Presence::Gone => false,
            Presence::New => true,
        },
        Standing::OfLink { is_lost } => !is_lost && is_above(held, row),
    }
}

/// An object that dies by its rows keeps only its class, name and deleted rows.
fn leave_by_death(standing: Standing, rows: &mut Vec<Update>)
    ensures { rows.new.items
        ≡ (if can_die standing then left_by_death rows.old.items else rows.old.items) }
{
    if can_die(standing) && has_row(DELETED, rows.as_slice()) {
        keep_reserved(rows);
    }
}

/// Whether it is an object that lives, or is new.
fn can_die(standing: Standing) -> bool
    ensures { result ≡ can_die standing }
{
    matches!(
        standing,
        Standing::OfObject {
            presence: Presence::Held | Presence::New,
            ..
        }
    )
}

fn keep_reserved(rows: &mut Vec<Update>)
    ensures { rows.new.items ≡ filter (λ u. is_reserved_row u.key) rows.old.items }
{
    rows.retain(|row| is_reserved(row.key()));
}
