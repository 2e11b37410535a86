//! Shelves: the slots of a unit stand side by side, those of an object by their attributes, and a link has one.

ghost use Rattle.std.specs.Prelude.{◌≡◌, ◌≤◌, ◌&&◌, ◌↔◌, [], IfOk, IsSome, IsTrue, OnOk, OnErr, false, not, None, Some, filter, fold, is_some, true};
ghost use Rattle.std.specs.Option.{option_copied, option_map, unwrap_or};
ghost use Rattle.std.specs.List.{list_all, list_any};
ghost use Rattle.std.specs.List.Sorted.{IsStrictlySortedBy};
ghost use Rattle.std.specs.Map.{keys_of, lookup, remove_entry, set_value};
ghost use Rattle.std.specs.BTreeMap.{insert_entry, is_at};
ghost use Rattle.std.specs.BTreeMap.Range.{entries_between};
ghost use Rattle.std.specs.declared.ops.Bound.TheVariants.{Unbounded};
ghost use Rattle.adr_model.specs.Live.{born};
ghost use Rattle.adr_model.specs.Member.{Each};
ghost use Rattle.adr_model.specs.Store.{is_row_of};
ghost use Rattle.adr_model.specs.Update.{LinkOf, RowOf, class_attr};
ghost use Rattle.adr_shelves.specs.Place.{is_in_run, is_of_class, is_of_link, is_of_unit, is_proper, place_of, place_order, rows_start, values_start};
ghost use Rattle.adr_shelves.specs.Shelves.{behind_front, emptied, flat, freed, front, is_life, shelf_entries, tally, with_held, with_slot, with_update, without_unit};

use crate::NoMemory;
use crate::place::{LinkSeat, ObjectSeat, Place, attr_of};
use crate::run::Run;
use crate::shelf::{Shelf, Slot};
use adr_update::{Held, Update};
use adr_values::{LinkKey, Oid};
use std::alloc::Global;
use std::collections::{BTreeMap, VecDeque};
use std::marker::Model;
use std::ops::Bound;

/// For how many slots a new shelf has room: the class, the name and one more.
const FIRST_ROOM: usize = 3;

/// The first attribute whose rows go when the object dies.
const FIRST_VALUE: u16 = 4;

/// The slots of all units, each at its place. Those of a unit stand in one shelf. Shelves of objects stand in one tree, and
/// those of links in another.
#[derive(Drop)]
pub struct Shelves {
    alloc: Global,
    objects: BTreeMap<ObjectSeat, Shelf>,
    links: BTreeMap<LinkSeat, Shelf>,
}

impl Model for Shelves {
    ghost use Rattle.std.specs.Prelude.{List, Option};
    ghost use Rattle.adr_model.specs.Store.{Held as Row};
    ghost use Rattle.adr_shelves.specs.declared.place.Place.{Place as Seat};
    ghost use Rattle.adr_shelves.specs.Shelves.{AreShelves, all_shelves, entries_of};

    ghost Value = { List (Seat × Option Row) };

    ghost view = { λ s. entries_of (all_shelves s.objects.entries s.links.entries) };

    ghost invariant = { λ s. AreShelves (all_shelves s.objects.entries s.links.entries) };
}

impl Shelves {
    pub fn new(alloc: Global) -> Shelves
        ensures { result ≡ [] }
    {
        Shelves {
            alloc,
            objects: BTreeMap::new(alloc),
            links: BTreeMap::new(alloc),
        }
    }

    /// Places rise.
    pub fn are_in_order(&self)
        ensures { IsStrictlySortedBy place_order (keys_of self.now) }
    {
        let _shelves = self.objects.len();
    }

    /// How many objects have slots, and no fewer than there are class rows.
    pub fn objects(&self) -> usize
        ensures { tally is_of_class self.now ≤ result }
    {
        self.objects.len()
    }

    /// How many links have slots, and no fewer than there are links.
    pub fn links(&self) -> usize
        ensures { tally is_of_link self.now ≤ result }
    {
        self.links.len()
    }

    /// What is in the slot of a place, if there is one.
    pub fn slot(&self, place: &Place) -> Option<&Option<Held>>
        ensures { option_copied result ≡ lookup (is_at (place_order place.now)) self.now }
    {
        if place.is_link {
            return self.link_slot(place);
        }
        self.object_slot(place)
    }

    /// The same at a place of a link.
    fn link_slot(&self, place: &Place) -> Option<&Option<Held>>
        requires { place.now.is_link ≡ true }
        ensures { option_copied result ≡ lookup (is_at (place_order place.now)) self.now }
    {
        match self.links.get(&LinkSeat::of(place)) {
            Some(shelf) => shelf.slot(place.attr),
            None => None,
        }
    }

    /// The same at a place of an object.
    fn object_slot(&self, place: &Place) -> Option<&Option<Held>>
        requires { place.now.is_link ≡ false }
        ensures { option_copied result ≡ lookup (is_at (place_order place.now)) self.now }
    {
        let shelves = &self.objects;
        if !place.is_proper() {
            return None;
        }
        match shelves.get(&ObjectSeat::of(place)) {
            Some(shelf) => shelf.slot(place.attr),
            None => None,
        }
    }

    /// The slots of the unit at a seat, by their attributes.
    pub fn unit(&self, seat: &Place) -> &[Slot]
        ensures { shelf_entries seat.now result.now ≡ filter (λ e. is_of_unit seat.now e.0) self.now }
    {
        if seat.is_link {
            return self.link_unit(seat);
        }
        self.object_unit(seat)
    }

    /// The same at a seat of a link.
    fn link_unit(&self, seat: &Place) -> &[Slot]
        requires { seat.now.is_link ≡ true }
        ensures { shelf_entries seat.now result.now ≡ filter (λ e. is_of_unit seat.now e.0) self.now }
    {
        match self.links.get(&LinkSeat::of(seat)) {
            Some(shelf) => shelf.slots(),
            None => &[],
        }
    }

    /// The same at a seat of an object.
    fn object_unit(&self, seat: &Place) -> &[Slot]
        requires { seat.now.is_link ≡ false }
        ensures { shelf_entries seat.now result.now ≡ filter (λ e. is_of_unit seat.now e.0) self.now }
    {
        let shelves = &self.objects;
        if !seat.is_seat() {
            return &[];
        }
        match shelves.get(&ObjectSeat::of(seat)) {
            Some(shelf) => shelf.slots(),
            None => &[],
        }
    }

    /// Makes a slot where there is none, and tells the local update sequence number of the row in it.
    pub fn make(&mut self, place: Place) -> Result<Option<u64>, NoMemory>
        requires { is_proper place ≡ true }
        ensures local { IfOk result (λ local. local ≡ option_map (λ h. h.local) (flat (lookup (is_at (place_order place)) self.old))) }
        ensures entries { OnOk result (self.new
            ≡ insert_entry place_order self.old place (unwrap_or (lookup (is_at (place_order place)) self.old) None)) }
        ensures err { OnErr result (self.new ≡ self.old) }
    {
        if place.is_link {
            return self.make_link(place);
        }
        self.make_row(place)
    }

    /// The same at a place of a link.
    fn make_link(&mut self, place: Place) -> Result<Option<u64>, NoMemory>
        requires { place.is_link ≡ true }
        ensures local { IfOk result (λ local. local ≡ option_map (λ h. h.local) (flat (lookup (is_at (place_order place)) self.old))) }
        ensures entries { OnOk result (self.new
            ≡ insert_entry place_order self.old place (unwrap_or (lookup (is_at (place_order place)) self.old) None)) }
        ensures err { OnErr result (self.new ≡ self.old) }
    {
        let seat = LinkSeat::of(&place);
        let shelf = self.links.entry(seat)?.or_insert(Shelf::new(self.alloc));
        shelf.make(place.attr, 1)
    }

    /// The same at a place of an object.
    fn make_row(&mut self, place: Place) -> Result<Option<u64>, NoMemory>
        requires link { place.is_link ≡ false }
        requires proper { is_proper place ≡ true }
        ensures local { IfOk result (λ local. local ≡ option_map (λ h. h.local) (flat (lookup (is_at (place_order place)) self.old))) }
        ensures entries { OnOk result (self.new
            ≡ insert_entry place_order self.old place (unwrap_or (lookup (is_at (place_order place)) self.old) None)) }
        ensures err { OnErr result (self.new ≡ self.old) }
    {
        let seat = ObjectSeat::of(&place);
        let shelf = self.objects.entry(seat)?.or_insert(Shelf::new(self.alloc));
        shelf.make(place.attr, FIRST_ROOM)
    }

    /// Makes empty slots for rows of an object that has none, by one search, and tells whether it did: where the object has
    /// slots, nothing changes.
    pub fn make_object(&mut self, object: &Oid, rows: &[Held]) -> Result<bool, NoMemory>
        requires { list_all (λ h. is_row_of object.now h.update.key) rows.now ≡ true }
        ensures told { IfOk result (λ made. IsTrue made ↔ (filter (λ e. is_of_unit (rows_start object.now) e.0) self.old ≡ [])) }
        ensures made { IfOk result (λ made. made ≡ true → self.new ≡ fold with_slot self.old rows.now) }
        ensures same { IfOk result (λ made. made ≡ false → self.new ≡ self.old) }
        ensures err { OnErr result (self.new ≡ self.old) }
    {
        let seat = ObjectSeat::of_object(object);
        let shelf = self.objects.entry(seat)?.or_insert(Shelf::new(self.alloc));
        if !shelf.is_empty() {
            return Ok(false);
        }
        *shelf = Shelf::of_slots(self.alloc, rows)?;
        Ok(true)
    }

    /// Puts a row into a slot, which is made if there is none, and tells whether a row was there.
    pub fn put(&mut self, place: Place, row: Held) -> Result<bool, NoMemory>
        requires { is_proper place ≡ true }
        ensures was { IfOk result (λ was. was ≡ is_some (flat (lookup (is_at (place_order place)) self.old))) }
        ensures entries { OnOk result (self.new ≡ insert_entry place_order self.old place (Some row)) }
        ensures room { OnErr result (lookup (is_at (place_order place)) self.old ≡ None) }
        ensures err { OnErr result (self.new ≡ self.old) }
    {
        if place.is_link {
            return self.put_link(place, row);
        }
        self.put_row(place, row)
    }

    /// The same at a place of a link.
    fn put_link(&mut self, place: Place, row: Held) -> Result<bool, NoMemory>
        requires { place.is_link ≡ true }
        ensures was { IfOk result (λ was. was ≡ is_some (flat (lookup (is_at (place_order place)) self.old))) }
        ensures entries { OnOk result (self.new ≡ insert_entry place_order self.old place (Some row)) }
        ensures room { OnErr result (lookup (is_at (place_order place)) self.old ≡ None) }
        ensures err { OnErr result (self.new ≡ self.old) }
    {
        let seat = LinkSeat::of(&place);
        let shelf = self.links.entry(seat)?.or_insert(Shelf::new(self.alloc));
        shelf.put(place.attr, row, 1)
    }

    /// The same at a place of an object.
    fn put_row(&mut self, place: Place, row: Held) -> Result<bool, NoMemory>
        requires link { place.is_link ≡ false }
        requires proper { is_proper place ≡ true }
        ensures was { IfOk result (λ was. was ≡ is_some (flat (lookup (is_at (place_order place)) self.old))) }
        ensures entries { OnOk result (self.new ≡ insert_entry place_order self.old place (Some row)) }
        ensures room { OnErr result (lookup (is_at (place_order place)) self.old ≡ None) }
        ensures err { OnErr result (self.new ≡ self.old) }
    {
        let seat = ObjectSeat::of(&place);
        let shelf = self.objects.entry(seat)?.or_insert(Shelf::new(self.alloc));
        shelf.put(place.attr, row, FIRST_ROOM)
    }

    /// Puts copies of rows of an object in the place of all its slots, under a local update sequence number, by one search.
    /// All are put, or none.
    pub fn put_object(&mut self, object: &Oid, local: u64, rows: &[Update]) -> Result<(), NoMemory>
        requires { list_all (λ u. is_row_of object.now u.key) rows.now ≡ true }
        ensures entries { OnOk result (self.new ≡ fold (with_update local) (without_unit (rows_start object.now) self.old) rows.now) }
        ensures err { OnErr result (self.new ≡ self.old) }
    {
        let shelf = Shelf::of_copies(self.alloc, local, rows)?;
        let _ = self.objects.insert(ObjectSeat::of_object(object), shelf)?;
        Ok(())
    }

    /// Puts the rows at the front of others that are an object's and no deaths into their slots, for which there are some, by
    /// one search, and tells whether a class row came where none was.
    pub fn fill_object(&mut self, object: &Oid, rows: &mut VecDeque<Held>) -> bool
        requires { Each (λ h. IsSome (lookup (is_at (place_order (place_of h.update.key))) self.old)) (front (is_life object.now) rows.old.items) }
        ensures rest { rows.new.items ≡ behind_front (is_life object.now) rows.old.items }
        ensures entries { self.new ≡ fold with_held self.old (front (is_life object.now) rows.old.items) }
        ensures came { result ≡ (not (is_some (flat (lookup (is_at (place_order (place_of (RowOf object.now class_attr)))) self.old)))
            && list_any (λ h. is_some (born h.update.key)) (front (is_life object.now) rows.old.items)) }
    {
        match self.objects.get_mut(&ObjectSeat::of_object(object)) {
            Some(shelf) => shelf.fill(object, rows),
            None => false,
        }
    }

    /// Empties the slot of a place, if there is one, and tells whether a row was there.
    pub fn clear(&mut self, place: &Place) -> bool
        ensures was { result ≡ is_some (flat (lookup (is_at (place_order place.now)) self.old)) }
        ensures entries { self.new ≡ set_value (is_at (place_order place.now)) self.old None }
    {
        if place.is_link {
            return self.clear_link(place);
        }
        self.clear_row(place)
    }

    /// The same at a place of a link.
    fn clear_link(&mut self, place: &Place) -> bool
        requires { place.now.is_link ≡ true }
        ensures was { result ≡ is_some (flat (lookup (is_at (place_order place.now)) self.old)) }
        ensures entries { self.new ≡ set_value (is_at (place_order place.now)) self.old None }
    {
        match self.links.get_mut(&LinkSeat::of(place)) {
            Some(shelf) => shelf.clear(place.attr),
            None => false,
        }
    }

    /// The same at a place of an object.
    fn clear_row(&mut self, place: &Place) -> bool
        requires { place.now.is_link ≡ false }
        ensures was { result ≡ is_some (flat (lookup (is_at (place_order place.now)) self.old)) }
        ensures entries { self.new ≡ set_value (is_at (place_order place.now)) self.old None }
    {
        if !place.is_proper() {
            // The check knows what is true of the shelves once they are read.
            let _ = &self.objects;
            return false;
        }
        match self.objects.get_mut(&ObjectSeat::of(place)) {
            Some(shelf) => shelf.clear(place.attr),
            None => false,
        }
    }

    /// Empties the slots of an object's rows that aren't reserved, by one search.
    pub fn clear_values(&mut self, object: &Oid)
        ensures { self.new ≡ emptied (is_in_run (values_start object.now)) self.old }
    {
        if let Some(shelf) = self.objects.get_mut(&ObjectSeat::of_object(object)) {
            shelf.clear_from(FIRST_VALUE);
        }
    }

    /// Puts a row of an object into its slot, for which there is one, and then empties the slots of the object's rows that
    /// aren't reserved, by one search.
    pub fn bury(&mut self, object: &Oid, row: Held)
        requires own { is_row_of object.now row.update.key ≡ true }
        requires there { IsSome (lookup (is_at (place_order (place_of row.update.key))) self.old) }
        ensures { self.new ≡ emptied (is_in_run (values_start object.now)) (with_held self.old row) }
    {
        if let Some(shelf) = self.objects.get_mut(&ObjectSeat::of_object(object)) {
            shelf.write(attr_of(&row.key()), row);
            shelf.clear_from(FIRST_VALUE);
        }
    }

    /// Takes the slot of a link out, if it is empty.
    pub fn free_link(&mut self, link: &LinkKey)
        ensures freed { lookup (is_at (place_order (place_of (LinkOf link.now)))) self.old ≡ Some None
            → self.new ≡ remove_entry (is_at (place_order (place_of (LinkOf link.now)))) self.old }
        ensures same { (lookup (is_at (place_order (place_of (LinkOf link.now)))) self.old ≡ Some None → ⊥) → self.new ≡ self.old }
    {
        let seat = LinkSeat::of(&Place::of_link(link));
        let is_empty = match self.links.get_mut(&seat) {
            Some(shelf) => {
                shelf.free(link.attr);
                shelf.is_empty()
            }
            None => false,
        };
        if is_empty {
            let _ = self.links.remove(&seat);
        }
    }

    /// Takes the empty slots of an object out.
    pub fn free_object(&mut self, object: &Oid)
        ensures { self.new ≡ freed (is_of_unit (rows_start object.now)) self.old }
    {
        let seat = ObjectSeat::of_object(object);
        let is_empty = match self.objects.get_mut(&seat) {
            Some(shelf) => {
                shelf.free_all();
                shelf.is_empty()
            }
            None => false,
        };
        if is_empty {
            let _ = self.objects.remove(&seat);
        }
    }

    /// The slots from a bound on.
    pub fn run_from(&self, start: Bound<Place>) -> Run<'_>
        ensures { result ≡ entries_between place_order start Unbounded self.now }
    {
        Run::new(&self.objects, &self.links, start)
    }

    /// All slots.
    pub fn run(&self) -> Run<'_>
        ensures { result ≡ self.now }
    {
        Run::all(&self.objects, &self.links)
    }
}
