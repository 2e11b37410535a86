//! A walk over the units, by their last local update sequence numbers.

ghost use Rattle.std.specs.Prelude.{◌≡◌, ◌≢◌, ◌+◌, ◌∷◌, [], None, IfNone, IfSome, slice_get};
ghost use Rattle.std.specs.List.{cons_option};
ghost use Rattle.std.specs.Option.{option_map};
ghost use Rattle.adr_table.specs.Lasts.{AreAmong, AreLasts, Last as UnitLast, lasts_hinted};
ghost use Rattle.adr_table.specs.Locals.{AreLocated};
ghost use Rattle.adr_table.specs.Slots.{IsTidy, rows_seen};

use crate::locals::{Local, unit_hinted};
use crate::slots::Slots;
use adr_values::Unit;
use std::collections::BTreeSet;
use std::collections::btree_set::Range;
use std::marker::Model;
use std::ops::Bound;

/// The units that are left to look at, each with its last local update sequence number. The one that is looked at next may
/// be found already.
#[derive(Drop)]
pub struct Walk<'a> {
    slots: &'a Slots,
    next: Option<(u64, Unit)>,
    hints: Range<'a, Local>,
}

impl<'a> Model for Walk<'a> {
    ghost use Rattle.std.specs.Prelude.{List};
    ghost use Rattle.std.specs.List.{cons_option};
    ghost use Rattle.adr_table.specs.Lasts.{Last, lasts_hinted};
    ghost use Rattle.adr_table.specs.Slots.{IsTidy, rows_seen};

    ghost Value = { List Last };

    ghost view = { λ w. cons_option w.next (lasts_hinted (rows_seen w.slots.now) w.hints) };

    ghost invariant = { λ w. IsTidy w.slots.now };
}

impl<'a> Walk<'a> {
    /// The units whose numbers are behind this one.
    pub(crate) fn new(slots: &'a Slots, locals: &'a BTreeSet<Local>, usn: u64) -> Walk<'a>
        requires tidy { IsTidy slots.now }
        requires located { AreLocated slots.now locals.now }
        ensures { AreLasts (rows_seen slots.now) (usn + 1) result }
    {
        let start = Local { usn, unit: None };
        let mut hints = locals.range((Bound::Included(start), Bound::Unbounded));
        let next = first_behind(slots, &mut hints, usn);
        Walk { slots, next, hints }
    }

    /// The number of the next unit.
    pub fn number(&mut self) -> Option<u64>
        ensures same { self.new ≡ self.old }
        ensures number { result ≡ option_map (λ (e : UnitLast). e.0) (slice_get self.old 0) }
    {
        let last = taken(self.slots, &mut self.next, &mut self.hints)?;
        let number = last.0;
        self.next = Some(last);
        Some(number)
    }

    /// The next unit, if it has this number.
    pub fn next_at(&mut self, usn: u64) -> Option<Unit>
        ensures some { IfSome result (λ unit. self.old ≡ (usn, unit) ∷ self.new) }
        ensures same { IfNone result (self.new ≡ self.old) }
        ensures none { IfNone result (IfSome (slice_get self.old 0) (λ (e : UnitLast). e.0 ≢ usn)) }
    {
        let (number, unit) = taken(self.slots, &mut self.next, &mut self.hints)?;
        if number == usn {
            return Some(unit);
        }
        self.next = Some((number, unit));
        None
    }
}

/// The next unit, with its number: the one that is found already, or that of a hint.
fn taken(
    slots: &Slots,
    next: &mut Option<(u64, Unit)>,
    hints: &mut Range<'_, Local>,
) -> Option<(u64, Unit)>
    requires { IsTidy slots.now }
    ensures next { next.new ≡ None }
    ensures same { cons_option next.old (lasts_hinted (rows_seen slots.now) hints.old)
        ≡ cons_option result (lasts_hinted (rows_seen slots.now) hints.new) }
    ensures none { IfNone result (lasts_hinted (rows_seen slots.now) hints.new ≡ []) }
{
    match next.take() {
        Some(last) => Some(last),
        None => next_last(slots, hints),
    }
}

/// The unit of the next hint whose number is its last, with the number.
fn next_last(slots: &Slots, hints: &mut Range<'_, Local>) -> Option<(u64, Unit)>
    requires { IsTidy slots.now }
    ensures same { lasts_hinted (rows_seen slots.now) hints.old
        ≡ cons_option result (lasts_hinted (rows_seen slots.now) hints.new) }
    ensures none { IfNone result (lasts_hinted (rows_seen slots.now) hints.new ≡ []) }
{
    while let Some(hint) = hints.next() {
        if let Some(unit) = unit_hinted(slots, hint) {
            return Some((hint.usn, unit));
        }
    }
    None
}

/// The first unit whose number is behind this one, with its number.
fn first_behind(slots: &Slots, hints: &mut Range<'_, Local>, usn: u64) -> Option<(u64, Unit)>
    requires tidy { IsTidy slots.now }
    requires lasts { AreAmong (rows_seen slots.now) usn (lasts_hinted (rows_seen slots.now) hints.old) }
    ensures { AreLasts (rows_seen slots.now) (usn + 1)
        (cons_option result (lasts_hinted (rows_seen slots.now) hints.new)) }
{
    while let Some(last) = next_last(slots, hints) {
        if usn < last.0 {
            return Some(last);
        }
    }
    None
}
