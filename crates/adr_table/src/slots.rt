//! Slots for rows.

ghost use Rattle.std.specs.Prelude.{◌≡◌, ◌≤◌, ◌++◌, [], IfSome, IfNone, IfOk, OnOk, OnErr, cond, false, fold, is_some, map, not, ◌&&◌, slice_get, Some, None, true};
ghost use Rattle.std.specs.Option.{option_copied, option_map};
ghost use Rattle.std.specs.Map.{lookup};
ghost use Rattle.std.specs.BTreeMap.{is_at};
ghost use Rattle.std.specs.BTreeMap.Range.{IsFromStart, IsLeBy, entries_between};
ghost use Rattle.std.specs.declared.ops.Bound.TheVariants.{Included, Unbounded};
ghost use Rattle.std.specs.List.{cons_option, filter_map, list_all, list_any};
ghost use Rattle.adr_values.specs.declared.stamp.LinkKey.{LinkKey as Link};
ghost use Rattle.adr_model.specs.Change.{killed_by};
ghost use Rattle.adr_model.specs.Live.{born};
ghost use Rattle.adr_model.specs.Member.{Each};
ghost use Rattle.adr_model.specs.Store.{holds_object, is_row_of, row_held, with_row};
ghost use Rattle.adr_model.specs.Update.{LinkOf};
ghost use Rattle.adr_update.specs.Key.{key_of};
ghost use Rattle.adr_update.specs.Referents.{referents};
ghost use Rattle.adr_shelves.specs.Place.{IsStart, is_in_run, is_proper, place_of, place_order, values_start};
ghost use Rattle.adr_shelves.specs.Shelves.{behind_front, front, held_at, is_life, one_more_if};
ghost use Rattle.adr_table.specs.Locals.{rows_of_seat};
ghost use Rattle.adr_table.specs.Slots.{AreFull, HasSlot, IsTidy, places, row_at, rows_in_run, rows_seen};

use crate::NoMemory;
use adr_shelves::{Place, Run, Shelves, Slot};
use adr_update::{Held, Key, Update};
use adr_values::{LinkKey, Oid};
use std::alloc::Global;
use std::collections::VecDeque;
use std::ops::Bound;

/// Slots for rows, in order of their places, and how many class rows and how many link rows are in them.
#[derive(Drop)]
pub(crate) struct Slots {
    pub(crate) map: Shelves,
    pub(crate) objects: usize,
    pub(crate) links: usize,
}

impl Slots {
    pub(crate) fn new(alloc: Global) -> Slots
        ensures seen { rows_seen result ≡ [] }
        ensures tidy { IsTidy result }
        ensures rows { (q : Place) → row_at result q ≡ None }
    {
        Slots {
            map: Shelves::new(alloc),
            objects: 0,
            links: 0,
        }
    }

    /// The row in the slot of a key.
    pub(crate) fn row(&self, key: &Key) -> Option<&Held>
        requires { IsTidy self.now }
        ensures { option_copied result ≡ row_held (rows_seen self.now) (key_of key.now) }
    {
        match self.map.slot(&Place::of(key)) {
            Some(slot) => slot.as_ref(),
            None => None,
        }
    }

    /// The slots of the unit at a seat, by their attributes.
    pub(crate) fn unit(&self, seat: &Place) -> &[Slot]
        requires { IsTidy self.now }
        ensures { filter_map (λ s. s.1) result.now ≡ rows_of_seat seat.now (rows_seen self.now) }
    {
        self.map.unit(seat)
    }

    /// Makes a slot at a place, if there is none, and tells the local update sequence number of the row in it. Nobody sees
    /// it.
    pub(crate) fn reserve(&mut self, place: Place) -> Result<Option<u64>, NoMemory>
        requires tidy { IsTidy self.old }
        requires proper { is_proper place ≡ true }
        ensures seen { rows_seen self.new ≡ rows_seen self.old }
        ensures tidy { IsTidy self.new }
        ensures same { (q : Place) → row_at self.new q ≡ row_at self.old q }
        ensures more { (q : Place) → HasSlot self.old q → HasSlot self.new q }
        ensures ok { OnOk result (HasSlot self.new place) }
        ensures local { IfOk result (λ local. local ≡ option_map (λ h. h.local) (row_at self.old place)) }
    {
        let local = self.map.make(place)?;
        self.map.are_in_order();
        Ok(local)
    }

    /// Makes slots for rows of an object that has none, and tells whether it did: where the object has slots, nothing changes.
    /// Nobody sees them.
    pub(crate) fn reserve_object(&mut self, object: &Oid, rows: &[Held]) -> Result<bool, NoMemory>
        requires tidy { IsTidy self.old }
        requires own { list_all (is_life object.now) rows.now ≡ true }
        ensures seen { rows_seen self.new ≡ rows_seen self.old }
        ensures tidy { IsTidy self.new }
        ensures same { (q : Place) → row_at self.new q ≡ row_at self.old q }
        ensures more { (q : Place) → HasSlot self.old q → HasSlot self.new q }
        ensures made { IfOk result (λ made. made ≡ true → Each (λ h. HasSlot self.new (place_of h.update.key)) rows.now) }
    {
        let made = self.map.make_object(object, rows)?;
        self.map.are_in_order();
        Ok(made)
    }

    /// Puts a row into the slot of its key, which is made if there is none, and tells whether a row was there.
    pub(crate) fn insert(&mut self, row: Held) -> Result<bool, NoMemory>
        requires { IsTidy self.old }
        ensures was { IfOk result (λ was. was ≡ is_some (row_at self.old (place_of row.update.key))) }
        ensures tidy { IsTidy self.new }
        ensures seen { OnOk result (rows_seen self.new ≡ with_row (rows_seen self.old) row) }
        ensures rows { OnOk result ((q : Place) →
            row_at self.new q ≡ cond (is_at (place_order (place_of row.update.key)) q) (Some row) (row_at self.old q)) }
        ensures places { OnOk result (HasSlot self.old (place_of row.update.key) → places self.new ≡ places self.old) }
        ensures room { OnErr result (lookup (is_at (place_order (place_of row.update.key))) self.old.map ≡ None) }
        ensures unseen { OnErr result (rows_seen self.new ≡ rows_seen self.old) }
        ensures same { OnErr result ((q : Place) → row_at self.new q ≡ row_at self.old q) }
    {
        let place = Place::of(&row.key());
        let was = self.map.put(place, row)?;
        self.map.are_in_order();
        self.objects = one_more(self.map.objects(), self.objects, was, place.is_of_class());
        self.links = one_more(self.map.links(), self.links, was, place.is_link);
        Ok(was)
    }

    /// Puts copies of rows of an object of which no row is there, under a local update sequence number. All are put, or none.
    pub(crate) fn insert_object(
        &mut self,
        object: &Oid,
        local: u64,
        rows: &[Update],
    ) -> Result<(), NoMemory>
        requires tidy { IsTidy self.old }
        requires own { list_all (λ u. is_row_of object.now u.key) rows.now ≡ true }
        requires unheld { holds_object (rows_seen self.old) object.now ≡ false }
        ensures tidy { IsTidy self.new }
        ensures seen { OnOk result (rows_seen self.new ≡ fold with_row (rows_seen self.old) (map (held_at local) rows.now)) }
        ensures links { (l : Link) → row_at self.new (place_of (LinkOf l)) ≡ row_at self.old (place_of (LinkOf l)) }
        ensures err { OnErr result (rows_seen self.new ≡ rows_seen self.old) }
    {
        self.map.put_object(object, local, rows)?;
        self.map.are_in_order();
        self.objects = one_more(self.map.objects(), self.objects, false, has_birth(rows));
        Ok(())
    }

    /// Puts a row into the slot of its key, for which there is one.
    pub(crate) fn write(&mut self, row: Held)
        requires tidy { IsTidy self.old }
        requires room { HasSlot self.old (place_of row.update.key) }
        ensures seen { rows_seen self.new ≡ with_row (rows_seen self.old) row }
        ensures tidy { IsTidy self.new }
        ensures rows { (q : Place) →
            row_at self.new q ≡ cond (is_at (place_order (place_of row.update.key)) q) (Some row) (row_at self.old q) }
        ensures places { places self.new ≡ places self.old }
    {
        match self.insert(row) {
            Ok(_) => {}
            Err(_) => unreachable!(),
        }
    }

    /// Puts the rows at the front of others that are an object's and no deaths into their slots, for which there are some.
    pub(crate) fn fill_object(&mut self, object: &Oid, rows: &mut VecDeque<Held>)
        requires tidy { IsTidy self.old }
        requires room { Each (λ h. HasSlot self.old (place_of h.update.key)) (front (is_life object.now) rows.old.items) }
        ensures rest { rows.new.items ≡ behind_front (is_life object.now) rows.old.items }
        ensures tidy { IsTidy self.new }
        ensures seen { rows_seen self.new ≡ fold with_row (rows_seen self.old) (front (is_life object.now) rows.old.items) }
        ensures links { (l : Link) → row_at self.new (place_of (LinkOf l)) ≡ row_at self.old (place_of (LinkOf l)) }
        ensures places { places self.new ≡ places self.old }
    {
        let came = self.map.fill_object(object, rows);
        self.map.are_in_order();
        self.objects = one_more(self.map.objects(), self.objects, false, came);
    }

    /// Empties the slot of a place, if there is one.
    pub(crate) fn empty(&mut self, place: Place)
        requires { IsTidy self.old }
        ensures tidy { IsTidy self.new }
        ensures rows { (q : Place) →
            row_at self.new q ≡ cond (is_at (place_order place) q) None (row_at self.old q) }
        ensures places { places self.new ≡ places self.old }
    {
        let was = self.map.clear(&place);
        self.map.are_in_order();
        self.objects = one_fewer(self.objects, was, place.is_of_class());
        self.links = one_fewer(self.links, was, place.is_link);
    }

    /// Empties the slots of a run of places.
    pub(crate) fn empty_run(&mut self, start: Place)
        requires tidy { IsTidy self.old }
        requires start { IsStart start }
        ensures tidy { IsTidy self.new }
        ensures rows { (q : Place) → row_at self.new q ≡ cond (is_in_run start q) None (row_at self.old q) }
        ensures places { places self.new ≡ places self.old }
    {
        let mut from = Bound::Included(start);
        while let Some(place) = self.next_place(from) {
            if !start.begins_run_of(&place) {
                return;
            }
            self.empty(place);
            from = Bound::Excluded(place);
        }
    }

    /// Empties the slots of an object's rows that aren't reserved.
    pub(crate) fn empty_values(&mut self, object: &Oid)
        requires { IsTidy self.old }
        ensures tidy { IsTidy self.new }
        ensures rows { (q : Place) →
            row_at self.new q ≡ cond (is_in_run (values_start object.now) q) None (row_at self.old q) }
        ensures places { places self.new ≡ places self.old }
    {
        self.map.clear_values(object);
    }

    /// Puts a death into its slot, for which there is one, and then empties the slots of the object's rows that aren't
    /// reserved.
    pub(crate) fn bury(&mut self, object: &Oid, death: Held)
        requires tidy { IsTidy self.old }
        requires kills { killed_by death.update.key ≡ Some object.now }
        requires room { HasSlot self.old (place_of death.update.key) }
        ensures tidy { IsTidy self.new }
        ensures rows { (q : Place) → row_at self.new q ≡ cond (is_in_run (values_start object.now) q) None
            (cond (is_at (place_order (place_of death.update.key)) q) (Some death) (row_at self.old q)) }
        ensures places { places self.new ≡ places self.old }
    {
        self.map.bury(object, death);
    }

    /// Frees the slot of a link, if it is empty. Nobody sees it.
    pub(crate) fn free(&mut self, link: &LinkKey)
        requires { IsTidy self.old }
        ensures seen { rows_seen self.new ≡ rows_seen self.old }
        ensures tidy { IsTidy self.new }
        ensures same { (q : Place) → row_at self.new q ≡ row_at self.old q }
    {
        self.map.free_link(link);
        self.map.are_in_order();
    }

    /// Frees the empty slots of an object's rows. Nobody sees them.
    pub(crate) fn free_object(&mut self, object: &Oid)
        requires { IsTidy self.old }
        ensures seen { rows_seen self.new ≡ rows_seen self.old }
        ensures tidy { IsTidy self.new }
        ensures same { (q : Place) → row_at self.new q ≡ row_at self.old q }
        ensures full { AreFull self.new object.now }
        ensures still { (o : Oid) → AreFull self.old o → AreFull self.new o }
    {
        self.map.free_object(object);
        self.map.are_in_order();
    }

    /// The first place with a slot, from a bound on.
    pub(crate) fn next_place(&self, start: Bound<Place>) -> Option<Place>
        ensures there { IfSome result (λ p. HasSlot self.now p) }
        ensures from { IfSome result (λ p. IsFromStart place_order start p) }
        ensures first { IfSome result (λ p.
            (q : Place) → IsFromStart place_order start q → HasSlot self.now q → IsLeBy place_order p q) }
        ensures none { IfNone result (
            (q : Place) → IsFromStart place_order start q → lookup (is_at (place_order q)) self.now.map ≡ None) }
    {
        self.map.are_in_order();
        match self.map.run_from(start).next() {
            Some((place, _)) => Some(place),
            None => None,
        }
    }

    /// The slots from a place on.
    pub(crate) fn entries_from(&self, start: Place) -> Run<'_>
        ensures { result ≡ entries_between place_order (Included start) Unbounded self.now.map }
    {
        self.map.run_from(Bound::Included(start))
    }

    /// The rows of the unit at a seat, by their attributes.
    pub(crate) fn rows_of_unit(&self, alloc: Global, seat: &Place) -> Result<Vec<&Held>, NoMemory>
        requires { IsTidy self.now }
        ensures { IfOk result (λ rows. referents rows.items ≡ rows_of_seat seat.now (rows_seen self.now)) }
    {
        let mut rows = Vec::new(alloc);
        for slot in self.unit(seat) {
            push_row(&mut rows, slot.row().as_ref())?;
        }
        Ok(rows)
    }

    /// Whether the unit at a seat has a row.
    pub(crate) fn has_unit(&self, seat: &Place) -> bool
        requires { IsTidy self.now }
        ensures { result ≡ is_some (slice_get (rows_of_seat seat.now (rows_seen self.now)) 0) }
    {
        for slot in self.unit(seat) {
            if slot.row().is_some() {
                return true;
            }
        }
        false
    }

    /// The rows in the slots of a run of places.
    pub(crate) fn rows_in_run(&self, alloc: Global, start: Place) -> Result<Vec<&Held>, NoMemory>
        requires tidy { IsTidy self.now }
        requires start { IsStart start }
        ensures { IfOk result (λ rows. referents rows.items ≡ rows_in_run start (rows_seen self.now)) }
    {
        let mut rows = Vec::new(alloc);
        let mut run = self.entries_from(start);
        while let Some((place, row)) = run.next() {
            if !start.begins_run_of(&place) {
                return Ok(rows);
            }
            push_row(&mut rows, row)?;
        }
        Ok(rows)
    }

    /// The rows in all slots.
    pub(crate) fn to_vec(&self, alloc: Global) -> Result<Vec<&Held>, NoMemory>
        ensures { IfOk result (λ rows. referents rows.items ≡ rows_seen self.now) }
    {
        let mut rows = Vec::new(alloc);
        let mut run = self.map.run();
        while let Some((_, row)) = run.next() {
            push_row(&mut rows, row)?;
        }
        Ok(rows)
    }

    /// Whether a row is in the slots of a run of places.
    pub(crate) fn has_row_in_run(&self, start: Place) -> bool
        requires tidy { IsTidy self.now }
        requires start { IsStart start }
        ensures { result ≡ is_some (slice_get (rows_in_run start (rows_seen self.now)) 0) }
    {
        let mut run = self.entries_from(start);
        while let Some((place, row)) = run.next() {
            if !start.begins_run_of(&place) {
                return false;
            }
            if row.is_some() {
                return true;
            }
        }
        false
    }
}

/// Adds a row to a list, if there is one.
pub(crate) fn push_row<'a>(rows: &mut Vec<&'a Held>, row: Option<&'a Held>) -> Result<(), NoMemory>
    ensures { OnOk result (
        referents rows.new.items ≡ referents rows.old.items ++ cons_option (option_copied row.entry) []) }
{
    if let Some(row) = row {
        rows.push(row)?;
    }
    Ok(())
}

/// Whether one of the rows is a class row.
fn has_birth(rows: &[Update]) -> bool
    ensures { result ≡ list_any (λ u. is_some (born u.key)) rows.now }
{
    for row in rows {
        if row.key().born().is_some() {
            return true;
        }
    }
    false
}

/// A count of rows in slots, with a row that is put, where none was and it counts.
fn one_more(most: usize, count: usize, was: bool, counts: bool) -> usize
    requires { one_more_if (not was && counts) count ≤ most }
    ensures { result ≡ one_more_if (not was && counts) count }
{
    if !was && counts && count < most {
        count + 1
    } else {
        count
    }
}

/// A count of rows without one that goes, where it was there and it counts.
fn one_fewer(count: usize, was: bool, counts: bool) -> usize
    requires { one_more_if (was && counts) 0 ≤ count }
    ensures { one_more_if (was && counts) result ≡ count }
{
    if was && counts { count - 1 } else { count }
}
