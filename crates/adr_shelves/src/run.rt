//! The slots of shelves, one after the other.

ghost use Rattle.std.specs.Prelude.{◌≡◌, ◌∷◌, ◌&&◌, [], Bool, IfNone, IfSome, false, filter, true, unwrap_or};
ghost use Rattle.std.specs.List.Sorted.{IsStrictlySortedBy};
ghost use Rattle.std.specs.Map.{keys_of};
ghost use Rattle.std.specs.Option.{option_copied};
ghost use Rattle.std.specs.Ordering.{nat_cmp};
ghost use Rattle.std.specs.BTreeMap.Range.{entries_between};
ghost use Rattle.std.specs.declared.ops.Bound.TheVariants.{Unbounded};
ghost use Rattle.adr_shelves.specs.Place.{is_proper, link_place, object_place, place_order};
ghost use Rattle.adr_shelves.specs.Shelves.{AreShelves, all_shelves, entries_of, is_behind, placed, start_at};

use crate::place::{LinkSeat, ObjectSeat, Place};
use crate::shelf::{Shelf, Slot};
use adr_update::Held;
use adr_values::Guid;
use std::collections::BTreeMap;
use std::collections::btree_map::Range;
use std::marker::Model;
use std::ops::Bound;

/// The shelves that are left: those of objects, if there may be some, and then those of links.
#[derive(Drop)]
struct Ahead<'a> {
    objects: Option<Range<'a, ObjectSeat, Shelf>>,
    links: Range<'a, LinkSeat, Shelf>,
}

impl<'a> Model for Ahead<'a> {
    ghost use Rattle.std.specs.Prelude.{[], List, Option, ℕ, unwrap_or};
    ghost use Rattle.adr_model.specs.Store.{Held as Row};
    ghost use Rattle.adr_shelves.specs.declared.place.Place.{Place as Seat};
    ghost use Rattle.adr_shelves.specs.Shelves.{all_shelves};

    ghost Value = { List (Seat × List (ℕ × Option Row)) };

    ghost view = { λ a. all_shelves (unwrap_or a.objects []) a.links };
}

impl<'a> Ahead<'a> {
    /// The next shelf, and its seat.
    fn next(&mut self) -> Option<(Place, &'a Shelf)>
        ensures some { IfSome result (λ e. self.old ≡ (e.0, e.1.now) ∷ self.new) }
        ensures none { IfNone result (self.old ≡ []) }
    {
        match next_object(&mut self.objects) {
            Some(next) => Some(next),
            None => next_link(&mut self.links),
        }
    }
}

/// The next shelf of an object, and its seat.
fn next_object<'a>(objects: &mut Option<Range<'a, ObjectSeat, Shelf>>) -> Option<(Place, &'a Shelf)>
    ensures some { IfSome result (λ e. placed object_place (unwrap_or objects.old []) ≡ (e.0, e.1.now) ∷ placed object_place (unwrap_or objects.new [])) }
    ensures none { IfNone result ((unwrap_or objects.old [] ≡ []) × (unwrap_or objects.new [] ≡ [])) }
{
    let Some(shelves) = objects else {
        return None;
    };
    let (seat, shelf) = shelves.next()?;
    Some((seat.place(), shelf))
}

/// The next shelf of a link, and its seat.
fn next_link<'a>(links: &mut Range<'a, LinkSeat, Shelf>) -> Option<(Place, &'a Shelf)>
    ensures some { IfSome result (λ e. placed link_place links.old ≡ (e.0, e.1.now) ∷ placed link_place links.new) }
    ensures none { IfNone result (links.old ≡ []) }
{
    let (seat, shelf) = links.next()?;
    Some((seat.place(), shelf))
}

/// The slots that are left to look at: those of a shelf, and then those of other shelves.
#[derive(Drop)]
pub struct Run<'a> {
    seat: Place,
    slots: &'a [Slot],
    shelves: Ahead<'a>,
}

impl<'a> Model for Run<'a> {
    ghost use Rattle.std.specs.Prelude.{◌++◌, List, Option};
    ghost use Rattle.adr_model.specs.Store.{Held as Row};
    ghost use Rattle.adr_shelves.specs.declared.place.Place.{Place as Seat};
    ghost use Rattle.adr_shelves.specs.Shelves.{entries_of, shelf_entries};

    ghost Value = { List (Seat × Option Row) };

    ghost view = { λ r. shelf_entries r.seat r.slots.now ++ entries_of r.shelves };
}

impl<'a> Run<'a> {
    /// The slots of shelves from a bound on.
    pub fn new(
        objects: &'a BTreeMap<ObjectSeat, Shelf>,
        links: &'a BTreeMap<LinkSeat, Shelf>,
        start: Bound<Place>,
    ) -> Run<'a>
        requires { AreShelves (all_shelves objects.now.entries links.now.entries) }
        ensures { result ≡ entries_between place_order start Unbounded (entries_of (all_shelves objects.now.entries links.now.entries)) }
    {
        match start {
            Bound::Included(place) => Run::at(objects, links, &place, true),
            Bound::Excluded(place) => Run::at(objects, links, &place, false),
            Bound::Unbounded => Run::all(objects, links),
        }
    }

    /// The slots of shelves behind a place, with its own or without.
    fn at(
        objects: &'a BTreeMap<ObjectSeat, Shelf>,
        links: &'a BTreeMap<LinkSeat, Shelf>,
        place: &Place,
        with_own: bool,
    ) -> Run<'a>
        requires { AreShelves (all_shelves objects.now.entries links.now.entries) }
        ensures { result ≡ entries_between place_order (start_at with_own place.now) Unbounded (entries_of (all_shelves objects.now.entries links.now.entries)) }
    {
        if place.is_link {
            Run::at_link(objects, links, place, with_own)
        } else {
            // No row stands at a place that isn't proper.
            Run::at_object(objects, links, place, with_own && place.is_proper())
        }
    }

    /// The same at a place of a link. No shelf of an object is behind it.
    fn at_link(
        _objects: &'a BTreeMap<ObjectSeat, Shelf>,
        links: &'a BTreeMap<LinkSeat, Shelf>,
        place: &Place,
        with_own: bool,
    ) -> Run<'a>
        requires shelves { AreShelves (all_shelves _objects.now.entries links.now.entries) }
        requires link { place.now.is_link ≡ true }
        ensures { result ≡ entries_between place_order (start_at with_own place.now) Unbounded (entries_of (all_shelves _objects.now.entries links.now.entries)) }
    {
        let seat = LinkSeat::of(place);
        let mut shelves = links.range((Bound::Included(seat), Bound::Unbounded));
        match shelves.next() {
            Some((first, shelf)) if first.cmp(&seat).is_eq() => Run {
                seat: seat.place(),
                slots: slots_behind(shelf.slots(), place.attr, with_own),
                shelves: behind_objects(shelves),
            },
            Some((first, shelf)) => Run {
                seat: first.place(),
                slots: shelf.slots(),
                shelves: behind_objects(shelves),
            },
            None => Run {
                seat: seat.place(),
                slots: &[],
                shelves: behind_objects(shelves),
            },
        }
    }

    /// The same at a place of an object. All shelves of links are behind it.
    fn at_object(
        objects: &'a BTreeMap<ObjectSeat, Shelf>,
        links: &'a BTreeMap<LinkSeat, Shelf>,
        place: &Place,
        with_own: bool,
    ) -> Run<'a>
        requires shelves { AreShelves (all_shelves objects.now.entries links.now.entries) }
        requires object { place.now.is_link ≡ false }
        ensures { (b : Bool) → with_own ≡ (b && is_proper place.now) → result
            ≡ entries_between place_order (start_at b place.now) Unbounded (entries_of (all_shelves objects.now.entries links.now.entries)) }
    {
        let seat = ObjectSeat::of(place);
        let mut shelves = objects.range((Bound::Included(seat), Bound::Unbounded));
        match shelves.next() {
            Some((first, shelf)) if first.cmp(&seat).is_eq() => Run {
                seat: seat.place(),
                slots: slots_behind(shelf.slots(), place.attr, with_own),
                shelves: with_links(shelves, links),
            },
            Some((first, shelf)) => Run {
                seat: first.place(),
                slots: shelf.slots(),
                shelves: with_links(shelves, links),
            },
            None => Run {
                seat: seat.place(),
                slots: &[],
                shelves: with_links(shelves, links),
            },
        }
    }

    /// All slots of shelves.
    pub fn all(
        objects: &'a BTreeMap<ObjectSeat, Shelf>,
        links: &'a BTreeMap<LinkSeat, Shelf>,
    ) -> Run<'a>
        ensures { result ≡ entries_of (all_shelves objects.now.entries links.now.entries) }
    {
        Run {
            seat: Place::before_guid(Guid::from_u128(0)),
            slots: &[],
            shelves: with_links(objects.range(..), links),
        }
    }

    /// The next slot, and what is in it.
    pub fn next(&mut self) -> Option<(Place, Option<&'a Held>)>
        ensures some { IfSome result (λ e. self.old ≡ (e.0, option_copied e.1) ∷ self.new) }
        ensures none { IfNone result (self.old ≡ []) }
    {
        while self.slots.is_empty() {
            let Some((seat, shelf)) = self.shelves.next() else {
                return None;
            };
            self.seat = seat;
            self.slots = shelf.slots();
        }
        let slot = &self.slots[0];
        self.slots = &self.slots[1..];
        Some((self.seat.with_attr(slot.attr()), slot.row().as_ref()))
    }
}

/// Shelves of links that are left where those of objects are behind.
fn behind_objects(links: Range<'_, LinkSeat, Shelf>) -> Ahead<'_>
    ensures { result ≡ placed link_place links.entry }
{
    Ahead {
        objects: None,
        links,
    }
}

/// Shelves of objects that are left, and all those of links.
fn with_links<'a>(
    objects: Range<'a, ObjectSeat, Shelf>,
    links: &'a BTreeMap<LinkSeat, Shelf>,
) -> Ahead<'a>
    ensures { result ≡ all_shelves objects.entry links.now.entries }
{
    Ahead {
        objects: Some(objects),
        links: links.range(..),
    }
}

/// The slots of a shelf behind an attribute, with its own or without.
fn slots_behind(slots: &[Slot], attr: u16, with_own: bool) -> &[Slot]
    requires { IsStrictlySortedBy nat_cmp (keys_of slots.now) }
    ensures { result.now ≡ filter (λ s. is_behind with_own attr s.0) slots.now }
{
    for (place, slot) in slots.iter().enumerate() {
        if is_behind(with_own, attr, slot.attr()) {
            return &slots[place..];
        }
    }
    &[]
}

/// Whether an attribute is behind another, or may be the same.
fn is_behind(with_own: bool, attr: u16, other: u16) -> bool
    ensures { result ≡ is_behind with_own attr other }
{
    if with_own {
        attr <= other
    } else {
        attr < other
    }
}
