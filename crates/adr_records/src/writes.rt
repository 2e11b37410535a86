//! The writes of a change, each at its turn.

ghost use Rattle.std.specs.Prelude.{◌≡◌, ◌&&◌, [], List, IfOk, IsTrue};
ghost use Rattle.std.specs.List.{list_all};
ghost use Rattle.adr_values.specs.declared.stamp.Unit.{Unit as Named};
ghost use Rattle.adr_values.specs.Vector.{Cursors};
ghost use Rattle.adr_model.specs.Change.{held_of, rows_after};
ghost use Rattle.adr_model.specs.Store.{Held};
ghost use Rattle.adr_model.specs.Take.{is_above, is_of_attr};
ghost use Rattle.adr_model.specs.Update.{deleted_attr};
ghost use Rattle.adr_law_calls.specs.Follow.{after_write};
ghost use Rattle.adr_law_calls.specs.Tested.{are_within_limits, may_follow, may_follow_in_turn, may_write_object, may_write_unit};
ghost use Rattle.adr_overlay.specs.Presence.{defined};
ghost use Rattle.adr_overlay.specs.Standing.{IsStanding};

use adr_checks::Schema;
use adr_overlay::{
    Overlay, Presence, Standing, is_above, is_of_attr, lacks, new_object, standing_of,
};
use adr_update::{DELETED, Item, LINK_LIMIT, OBJECT_LIMIT, Update, Written};
use adr_values::{NoMemory, Vector};
use std::alloc::Global;

/// Whether each write may follow at its turn, with the vector before the first, and no table is over its limit behind it.
/// Where they may, all are put.
pub(crate) fn may_follow_in_turn(
    alloc: Global,
    schema: Schema,
    vector: &Vector,
    told: &mut Overlay,
    writes: &[Written],
) -> Result<bool, NoMemory>
    ensures may { IfOk result (λ may. may ≡ may_follow_in_turn schema vector.now told.old writes.now) }
    ensures put { IfOk result (λ may. IsTrue may
        → told.new ≡ rows_after [] (held_of writes.now) told.old) }
{
    for written in writes {
        if !follows(alloc, schema, vector, told, written)? {
            return Ok(false);
        }
    }
    Ok(true)
}

/// Whether a write may follow, and no table is over its limit behind it. Where it may, it is put.
fn follows(
    alloc: Global,
    schema: Schema,
    vector: &Vector,
    told: &mut Overlay,
    written: &Written,
) -> Result<bool, NoMemory>
    ensures may { IfOk result (λ may. may ≡ (may_follow schema vector.now told.old written.now.item
        && are_within_limits (after_write told.old written.now))) }
    ensures put { IfOk result (λ may. IsTrue may → told.new ≡ after_write told.old written.now) }
{
    let item = written.item();
    let unit = item.unit();
    let standing = standing_of(vector, told, &unit);
    if !may_follow(schema, told, standing, item) {
        return Ok(false);
    }
    told.put_all(
        alloc,
        written.local(),
        item.rows(),
        new_object(&unit, standing),
    )?;
    Ok(are_within_limits(told))
}

/// Whether no table is over its limit.
fn are_within_limits(told: &Overlay) -> bool
    ensures { result ≡ are_within_limits told.now }
{
    told.objects() as u64 <= OBJECT_LIMIT && told.links() as u64 <= LINK_LIMIT
}

/// Whether each row of an item is above the one that is held, and its unit may be written to, by what stands of it.
fn may_follow(schema: Schema, told: &Overlay, standing: Standing, item: &Item) -> bool
    ensures { (vector : Cursors) → IsStanding vector told.now item.now.unit standing
        → result ≡ may_follow schema vector told.now item.now }
{
    are_above(told, item.rows()) && may_write_unit(schema, standing, item.rows())
}

/// Whether each row is above the one that is held.
fn are_above(told: &Overlay, rows: &[Update]) -> bool
    ensures { result ≡ list_all (is_above told.now) rows.now }
{
    for row in rows {
        if !is_above(told, row) {
            return false;
        }
    }
    true
}

/// Whether rows may be written to a unit, by what stands of it: no end of a link is dead or gone.
fn may_write_unit(schema: Schema, standing: Standing, rows: &[Update]) -> bool
    ensures { (vector : Cursors) (held : List Held) (unit : Named) → IsStanding vector held unit standing
        → result ≡ may_write_unit schema vector held unit rows.now }
{
    match standing {
        Standing::OfObject { presence, .. } => may_write_object(schema, presence, rows),
        Standing::OfLink { is_lost } => !is_lost,
    }
}

/// Whether rows may be written to an object: it is dead and only dies, or stands, or is new and comes whole.
fn may_write_object(schema: Schema, presence: Presence, rows: &[Update]) -> bool
    ensures { result ≡ may_write_object schema rows.now (defined presence) }
{
    match presence {
        Presence::Dead => are_deaths(rows),
        Presence::Held => true,
        Presence::Gone => false,
        Presence::New => !lacks(schema, rows),
    }
}

/// Whether all rows are deaths.
fn are_deaths(rows: &[Update]) -> bool
    ensures { result ≡ list_all (λ u. is_of_attr deleted_attr u.key) rows.now }
{
    for row in rows {
        if !is_of_attr(DELETED, row.key()) {
            return false;
        }
    }
    true
}
