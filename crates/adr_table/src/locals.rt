//! Which units may have a row with a local update sequence number.

ghost use Rattle.std.specs.Prelude.{◌≡◌, OnOk, IfOk, IfSome, IsTrue, Some, None, true};
ghost use Rattle.std.specs.List.{list_all, list_any};
ghost use Rattle.std.specs.BTreeMap.{is_at};
ghost use Rattle.std.specs.BTreeSet.{contains};
ghost use Rattle.adr_model.specs.Member.{Each};
ghost use Rattle.adr_model.specs.Store.{Held as Row};
ghost use Rattle.adr_update.specs.Sought.{IsNextLocal, units_at};
ghost use Rattle.adr_shelves.specs.Place.{place_order, seat_at};
ghost use Rattle.adr_shelves.specs.Shelves.{is_life};
ghost use Rattle.adr_table.specs.Slots.{IsTidy, rows_seen};
ghost use Rattle.adr_table.specs.Locals.{AreLocated, IsLocated, IsNamed, above, greatest, is_last, local_of, local_order, rows_of_seat, unit_at, unit_hinted};

use crate::NoMemory;
use crate::slots::Slots;
use adr_shelves::{Place, seat_at};
use adr_update::Held;
use adr_values::{LinkKey, Oid, Unit};
use std::alloc::Global;
use std::collections::BTreeSet;
use std::ops::Bound;

/// A hint that a unit may have a row with a local update sequence number. The one without a unit comes before the others
/// of its number.
#[derive(Clone, Copy, PartialEq, Eq, PartialOrd, Ord)]
pub struct Local {
    pub usn: u64,
    /// Where the unit stands: a link at its own place, an object at its attribute 0.
    pub unit: Option<Place>,
}

impl Local {
    /// The hint of a row.
    pub fn of(row: &Held) -> Local
        ensures { result ≡ local_of row.now }
    {
        Local::at(row.local(), &Place::of(&row.key()))
    }

    /// The hint of a row at a place.
    pub fn at(usn: u64, place: &Place) -> Local
        ensures { result ≡ record { usn = usn; unit = Some (seat_at place.now) } }
    {
        Local {
            usn,
            unit: Some(seat_at(place)),
        }
    }
}

/// The unit that stands at a place.
fn unit_at(place: &Place) -> Option<Unit>
    ensures { result ≡ unit_at place.now }
{
    let from = Oid {
        guid: place.guid,
        birth: place.birth?,
    };
    if !place.is_link {
        return Some(Unit::Object(from));
    }
    Some(Unit::Link(LinkKey {
        from,
        attr: place.attr,
        to: place.other?,
    }))
}

/// Whether the hint of a row has this number and this unit.
fn has_hint(row: &Held, usn: u64, unit: &Place) -> bool
    ensures { IsTrue result → local_of row.now ≡ record { usn = usn; unit = Some unit.now } }
{
    row.local() == usn && is_of_unit(unit, &Place::of(&row.key()))
}

/// Keeps the hint of a row. Rows of a unit under one number stand side by side, so that of the row before is mostly the
/// same, and is kept already.
pub(crate) fn remember(
    locals: &mut BTreeSet<Local>,
    before: Option<&Held>,
    row: &Held,
) -> Result<(), NoMemory>
    requires { IfSome before (λ h. IsLocated locals.old h.now) }
    ensures more { (h : Row) → IsLocated locals.old h → IsLocated locals.new h }
    ensures ok { OnOk result (IsLocated locals.new row.now) }
{
    let usn = row.local();
    let unit = seat_at(&Place::of(&row.key()));
    match before {
        Some(before) if has_hint(before, usn, &unit) => Ok(()),
        _ => insert(locals, usn, unit),
    }
}

/// Keeps the hints of rows of an object. Those under one number share theirs.
pub(crate) fn remember_all(
    locals: &mut BTreeSet<Local>,
    object: &Oid,
    rows: &[Held],
) -> Result<(), NoMemory>
    requires { list_all (is_life object.now) rows.now ≡ true }
    ensures more { (h : Row) → IsLocated locals.old h → IsLocated locals.new h }
    ensures ok { OnOk result (Each (IsLocated locals.new) rows.now) }
{
    let mut last = None;
    for row in rows {
        let usn = row.local();
        insert_behind(locals, last, usn, object)?;
        last = Some(usn);
    }
    Ok(())
}

/// Keeps the hint of an object under a number, which is kept already if the number is the one before.
fn insert_behind(
    locals: &mut BTreeSet<Local>,
    last: Option<u64>,
    usn: u64,
    object: &Oid,
) -> Result<(), NoMemory>
    requires { IfSome last (λ n. IsNamed locals.old object.now n) }
    ensures more { (h : Row) → IsLocated locals.old h → IsLocated locals.new h }
    ensures ok { OnOk result (IsNamed locals.new object.now usn) }
{
    match last {
        Some(last) if last == usn => Ok(()),
        _ => insert(locals, usn, Place::before_rows(object)),
    }
}

fn insert(locals: &mut BTreeSet<Local>, usn: u64, unit: Place) -> Result<(), NoMemory>
    ensures more { (h : Row) → IsLocated locals.old h → IsLocated locals.new h }
    ensures ok { OnOk result (contains local_order locals.new (record { usn = usn; unit = Some unit }) ≡ true) }
{
    locals.insert(Local {
        usn,
        unit: Some(unit),
    })?;
    Ok(())
}

/// Adds a hint to a list, unless it is the last one there.
pub(crate) fn name(hints: &mut Vec<Local>, hint: Local) -> Result<(), NoMemory> {
    if hints.as_slice().last() == Some(&hint) {
        return Ok(());
    }
    hints.push(hint)?;
    Ok(())
}

fn above(so_far: Option<u64>, local: u64) -> u64
    ensures { result ≡ above so_far local }
{
    match so_far {
        Some(last) => last.max(local),
        None => local,
    }
}

/// Whether the row at a place is one of the unit at another.
fn is_of_unit(unit: &Place, place: &Place) -> bool
    ensures { result ≡ is_at (place_order unit.now) (seat_at place.now) }
{
    unit.cmp(&seat_at(place)).is_eq()
}

/// The greatest local update sequence number of the rows of the unit at a place.
fn last_local(slots: &Slots, unit: Place) -> Option<u64>
    requires { IsTidy slots.now }
    ensures { result ≡ greatest None (rows_of_seat unit (rows_seen slots.now)) }
{
    let mut last = None;
    for slot in slots.unit(&unit) {
        if let Some(row) = slot.row() {
            last = Some(above(last, row.local()));
        }
    }
    last
}

/// Whether a hint's unit is held and has the hint's number as its last.
fn is_last(slots: &Slots, hint: &Local) -> bool
    requires { IsTidy slots.now }
    ensures { result ≡ is_last (rows_seen slots.now) hint.now }
{
    match hint.unit {
        Some(unit) => match last_local(slots, unit) {
            Some(last) => last == hint.usn,
            None => false,
        },
        None => false,
    }
}

/// The unit of a hint that has the hint's number as its last.
pub(crate) fn unit_hinted(slots: &Slots, hint: &Local) -> Option<Unit>
    requires { IsTidy slots.now }
    ensures { result ≡ unit_hinted (rows_seen slots.now) hint.now }
{
    match hint.unit {
        Some(place) if is_last(slots, hint) => unit_at(&place),
        _ => None,
    }
}

/// The next number behind this one that may be the last local update sequence number of a unit: none lies between.
pub(crate) fn next_local(slots: &Slots, locals: &BTreeSet<Local>, usn: u64) -> Option<u64>
    requires tidy { IsTidy slots.now }
    requires located { AreLocated slots.now locals.now }
    ensures { IsNextLocal (rows_seen slots.now) usn result }
{
    let start = Local { usn, unit: None };
    for hint in locals.range((Bound::Included(start), Bound::Unbounded)) {
        if usn < hint.usn {
            return Some(hint.usn);
        }
    }
    None
}

/// The units whose last local update sequence number is this, rising.
pub(crate) fn units_at(
    alloc: Global,
    slots: &Slots,
    locals: &BTreeSet<Local>,
    usn: u64,
) -> Result<Vec<Unit>, NoMemory>
    requires tidy { IsTidy slots.now }
    requires located { AreLocated slots.now locals.now }
    ensures { IfOk result (λ units. units.items ≡ units_at (rows_seen slots.now) usn) }
{
    let mut units = Vec::new(alloc);
    let start = Local { usn, unit: None };
    for hint in locals.range((Bound::Included(start), Bound::Unbounded)) {
        if hint.usn != usn {
            return Ok(units);
        }
        if let Some(unit) = unit_hinted(slots, hint) {
            units.push(unit)?;
        }
    }
    Ok(units)
}

/// Whether a row that is seen has this hint.
fn is_needed(slots: &Slots, hint: &Local) -> bool
    requires { IsTidy slots.now }
    ensures { result ≡ list_any (λ h. is_at (local_order hint.now) (local_of h)) (rows_seen slots.now) }
{
    let Some(unit) = hint.unit else {
        return false;
    };
    for slot in slots.unit(&unit) {
        if let Some(row) = slot.row() {
            if row.local() == hint.usn {
                return true;
            }
        }
    }
    false
}

/// Drops a hint that no row needs.
pub(crate) fn forget(slots: &Slots, locals: &mut BTreeSet<Local>, hint: &Local)
    requires tidy { IsTidy slots.now }
    requires located { AreLocated slots.now locals.old }
    ensures { AreLocated slots.now locals.new }
{
    if !is_needed(slots, hint) {
        locals.remove(hint);
    }
}
