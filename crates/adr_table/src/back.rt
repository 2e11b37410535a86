//! Which links end at an object.

ghost use Rattle.std.specs.Prelude.{◌≡◌, IfOk, OnOk, None, cond, filter, true};
ghost use Rattle.std.specs.Option.{option_copied};
ghost use Rattle.std.specs.BTreeSet.{contains};
ghost use Rattle.adr_model.specs.Update.{Key as Named};
ghost use Rattle.adr_update.specs.Key.{key_of};
ghost use Rattle.adr_update.specs.Referents.{referents};
ghost use Rattle.adr_update.specs.Sought.{is_link_to};
ghost use Rattle.adr_shelves.specs.Place.{place_of};
ghost use Rattle.adr_table.specs.Slots.{IsTidy, places, row_at, rows_seen};
ghost use Rattle.adr_table.specs.Back.{AreBacked, IsHinted, behind_order, hint, is_place_of, link_behind, row_of_link};
ghost use Rattle.adr_table.specs.declared.back.Behind.{Behind as Hint};
ghost use Rattle.adr_shelves.specs.declared.place.Place.{Place as Seat};

use crate::NoMemory;
use crate::slots::{Slots, push_row};
use adr_shelves::Place;
use adr_update::{Held, Key};
use adr_values::{LinkKey, Oid};
use std::alloc::Global;
use std::collections::BTreeSet;
use std::ops::Bound;

/// Where a link comes from.
#[derive(Clone, Copy, PartialEq, Eq, PartialOrd, Ord)]
pub struct Source {
    pub object: Oid,
    pub attr: u16,
}

/// A hint that a link may end at an object. The one without a source comes before the others of its object.
#[derive(Clone, Copy, PartialEq, Eq, PartialOrd, Ord)]
pub struct Behind {
    pub to: Oid,
    pub from: Option<Source>,
}

impl Behind {
    /// The hint of a link.
    pub fn of(link: &LinkKey) -> Behind
        ensures { result ≡ hint link.now }
    {
        Behind {
            to: link.to,
            from: Some(Source {
                object: link.from,
                attr: link.attr,
            }),
        }
    }

    /// The link of a hint.
    pub fn link(&self) -> Option<LinkKey>
        ensures { result ≡ link_behind self.now }
    {
        match self.from {
            Some(from) => Some(LinkKey {
                from: from.object,
                attr: from.attr,
                to: self.to,
            }),
            None => None,
        }
    }
}

/// Keeps the hint of a link.
pub(crate) fn remember(back: &mut BTreeSet<Behind>, key: &Key) -> Result<(), NoMemory>
    ensures more { (k : Named) → IsHinted back.old k → IsHinted back.new k }
    ensures ok { OnOk result (IsHinted back.new (key_of key.now)) }
{
    match key {
        Key::Link(link) => insert(back, Behind::of(link)),
        Key::Row { .. } => Ok(()),
    }
}

fn insert(back: &mut BTreeSet<Behind>, behind: Behind) -> Result<(), NoMemory>
    ensures more { (b : Hint) → contains behind_order back.old b ≡ true → contains behind_order back.new b ≡ true }
    ensures ok { OnOk result (contains behind_order back.new behind ≡ true) }
{
    // The check knows the type of the field only once it is read.
    let _from = behind.from;
    back.insert(behind)?;
    Ok(())
}

/// Empties the slot of a hint.
fn empty_behind(slots: &mut Slots, behind: &Behind)
    requires { IsTidy slots.old }
    ensures tidy { IsTidy slots.new }
    ensures rows { (q : Seat) →
        row_at slots.new q ≡ cond (is_place_of (link_behind behind.now) q) None (row_at slots.old q) }
    ensures places { places slots.new ≡ places slots.old }
{
    match behind.link() {
        Some(link) => slots.empty(Place::of_link(&link)),
        None => {}
    }
}

/// Empties the slots of the links to an object.
pub(crate) fn empty_links_to(slots: &mut Slots, back: &BTreeSet<Behind>, object: &Oid)
    requires tidy { IsTidy slots.old }
    requires backed { AreBacked slots.old back.now }
    ensures tidy { IsTidy slots.new }
    ensures rows { (k : Named) →
        row_at slots.new (place_of k) ≡ cond (is_link_to object.now k) None (row_at slots.old (place_of k)) }
    ensures fewer { (q : Seat) → row_at slots.old q ≡ None → row_at slots.new q ≡ None }
    ensures places { places slots.new ≡ places slots.old }
{
    let start = Behind {
        to: *object,
        from: None,
    };
    for behind in back.range((Bound::Included(start), Bound::Unbounded)) {
        if !behind.to.cmp(object).is_eq() {
            return;
        }
        empty_behind(slots, behind);
    }
}

/// The row of a hint.
fn row_behind<'a>(slots: &'a Slots, behind: &Behind) -> Option<&'a Held>
    requires { IsTidy slots.now }
    ensures { option_copied result ≡ row_of_link slots.now (link_behind behind.now) }
{
    match behind.link() {
        Some(link) => slots.row(&Key::Link(link)),
        None => None,
    }
}

/// The rows of the links to an object, in order.
pub(crate) fn rows_behind<'a>(
    alloc: Global,
    slots: &'a Slots,
    back: &BTreeSet<Behind>,
    object: &Oid,
) -> Result<Vec<&'a Held>, NoMemory>
    requires tidy { IsTidy slots.now }
    requires backed { AreBacked slots.now back.now }
    ensures { IfOk result (λ rows.
        referents rows.items ≡ filter (λ h. is_link_to object.now h.update.key) (rows_seen slots.now)) }
{
    let start = Behind {
        to: *object,
        from: None,
    };
    let mut rows = Vec::new(alloc);
    for behind in back.range((Bound::Included(start), Bound::Unbounded)) {
        if !behind.to.cmp(object).is_eq() {
            return Ok(rows);
        }
        push_row(&mut rows, row_behind(slots, behind))?;
    }
    Ok(rows)
}

/// Lets go of the hint of a link that has no row, and of its slot. Nobody sees it.
pub(crate) fn forget(slots: &mut Slots, back: &mut BTreeSet<Behind>, link: &LinkKey)
    requires tidy { IsTidy slots.old }
    requires backed { AreBacked slots.old back.old }
    ensures seen { rows_seen slots.new ≡ rows_seen slots.old }
    ensures tidy { IsTidy slots.new }
    ensures same { (q : Seat) → row_at slots.new q ≡ row_at slots.old q }
    ensures backed { AreBacked slots.new back.new }
{
    if slots.row(&Key::Link(*link)).is_none() {
        slots.free(link);
        let _ = back.remove(&Behind::of(link));
    }
}
