//! Why an item is refused.

ghost use Rattle.std.specs.Prelude.{◌≡◌, List, IfOk, map};
ghost use Rattle.adr_values.specs.First.{first_of};
ghost use Rattle.adr_values.specs.Vector.{Cursors};
ghost use Rattle.adr_model.specs.Store.{Held};
ghost use Rattle.adr_model.specs.Take.{incomplete, item_fault, item_refusal, object_lacks, object_rows_tested, row_fault};
ghost use Rattle.adr_overlay.specs.Presence.{defined};
ghost use Rattle.adr_overlay.specs.Standing.{IsStanding};

use crate::NoMemory;
use crate::counting::count;
use adr_call::{ItemFault, TakeRefusal};
use adr_checks::Schema;
use adr_overlay::{Presence, Standing, class_among, first_fault, has_row, lacks};
use adr_state::{DELETED, Item, Update};
use adr_values::Unit;

/// What is wrong with the first wrong one of the rows of an object's item that are looked at.
fn object_fault(
    schema: Schema,
    presence: Presence,
    class: Option<u16>,
    rows: &[Update],
) -> Option<ItemFault>
    ensures { result ≡ first_of (map (row_fault schema class) (object_rows_tested rows.now (defined presence))) }
{
    match presence {
        Presence::Dead | Presence::Gone => None,
        Presence::Held => first_fault(schema, class, rows, false),
        Presence::New => first_fault(schema, class, rows, has_row(DELETED, rows)),
    }
}

/// What is wrong with the first wrong one of an item's rows that are looked at, by what stands of its unit. The class of
/// its object is that of the held object, or the one that comes.
fn item_fault(schema: Schema, standing: Standing, item: &Item) -> Option<ItemFault>
    ensures { (vector : Cursors) (rows : List Held) → IsStanding vector rows item.now.unit standing
        → result ≡ item_fault schema vector rows item.now }
{
    let rows = item.rows();
    match standing {
        Standing::OfObject { presence, class } => {
            object_fault(schema, presence, class.or(class_among(rows)), rows)
        }
        Standing::OfLink { is_lost: true } => None,
        Standing::OfLink { is_lost: false } => first_fault(schema, None, rows, false),
    }
}

/// Whether an object is new and comes without its class, its name or what it must have.
fn object_lacks(schema: Schema, presence: Presence, rows: &[Update]) -> bool
    ensures { result ≡ object_lacks schema rows.now (defined presence) }
{
    match presence {
        Presence::Dead | Presence::Held | Presence::Gone => false,
        Presence::New => lacks(schema, rows),
    }
}

/// The refusal of an item whose object is new and comes without its class, its name or what it must have.
fn incomplete(schema: Schema, standing: Standing, item: &Item) -> Option<TakeRefusal>
    ensures { (vector : Cursors) (rows : List Held) → IsStanding vector rows item.now.unit standing
        → result ≡ incomplete schema vector rows item.now }
{
    match (item.unit(), standing) {
        (Unit::Object(object), Standing::OfObject { presence, .. }) => {
            if object_lacks(schema, presence, item.rows()) {
                Some(TakeRefusal::Incomplete { object })
            } else {
                None
            }
        }
        _ => None,
    }
}

/// Why the item at a place is refused, by what stands of its unit. A place that no refusal has room for counts as want
/// of memory.
pub fn item_refusal(
    schema: Schema,
    standing: Standing,
    place: usize,
    item: &Item,
) -> Result<Option<TakeRefusal>, NoMemory>
    ensures { IfOk result (λ refusal. (vector : Cursors) (rows : List Held)
        → IsStanding vector rows item.now.unit standing
        → refusal ≡ item_refusal schema vector rows place item.now) }
{
    match item_fault(schema, standing, item) {
        Some(cause) => {
            let place = count(place)?;
            Ok(Some(TakeRefusal::BadItem { place, cause }))
        }
        None => Ok(incomplete(schema, standing, item)),
    }
}
