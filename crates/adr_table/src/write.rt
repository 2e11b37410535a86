//! How rows are written into a table.

ghost use Rattle.std.specs.Prelude.{◌≡◌, ◌<◌, [], IfOk, IfSome, None, OnErr, OnOk, Some, false, fold, is_some, length, map, true};
ghost use Rattle.std.specs.List.{All, list_all};
ghost use Rattle.adr_model.specs.Change.{killed_by, put, rows_after, stripped, without_object};
ghost use Rattle.adr_model.specs.Store.{Held as Row, holds_object, row_held, with_row};
ghost use Rattle.adr_shelves.specs.Place.{place_of};
ghost use Rattle.adr_table.specs.Slots.{AreFull, HasSlot, IsTidy, places, row_at, rows_seen};
ghost use Rattle.adr_table.specs.Back.{AreBacked};
ghost use Rattle.adr_table.specs.Deaths.{AreListed};
ghost use Rattle.adr_table.specs.Locals.{AreLocated};
ghost use Rattle.adr_shelves.specs.Shelves.{held_at, is_life, is_life_of};
ghost use Rattle.adr_table.specs.Table.{AreNumbered, HasRoom, HaveRoom, IsKept, rows_in};
ghost use Rattle.adr_shelves.specs.declared.place.Place.{Place as Seat};

use crate::back::{Behind, empty_links_to, forget};
use crate::locals::Local;
use crate::slots::Slots;
use crate::spare::Spare;
use crate::table::Table;
use crate::{NoMemory, back, deaths, locals};
use adr_shelves::Place;
use adr_update::{Held, Key, Update};
use adr_values::{LinkKey, Oid};
use std::collections::{BTreeSet, VecDeque};

/// Empties the slots of what goes with a dead object.
fn strip(slots: &mut Slots, back: &BTreeSet<Behind>, object: &Oid)
    requires tidy { IsTidy slots.old }
    requires backed { AreBacked slots.old back.now }
    ensures tidy { IsTidy slots.new }
    ensures seen { rows_seen slots.new ≡ stripped (Some object.now) (rows_seen slots.old) }
    ensures fewer { (q : Seat) → row_at slots.old q ≡ None → row_at slots.new q ≡ None }
    ensures places { places slots.new ≡ places slots.old }
{
    empty_links_to(slots, back, object);
    slots.empty_values(object);
    slots.empty_run(Place::before_links(object));
}

/// Puts a death into its slot, for which there is one, and empties the slots of what goes with its object.
fn bury(slots: &mut Slots, back: &BTreeSet<Behind>, object: &Oid, death: Held)
    requires tidy { IsTidy slots.old }
    requires backed { AreBacked slots.old back.now }
    requires kills { killed_by death.update.key ≡ Some object.now }
    requires room { HasSlot slots.old (place_of death.update.key) }
    ensures tidy { IsTidy slots.new }
    ensures seen { rows_seen slots.new ≡ stripped (Some object.now) (with_row (rows_seen slots.old) death) }
    ensures backed { AreBacked slots.new back.now }
    ensures places { places slots.new ≡ places slots.old }
{
    slots.bury(object, death);
    empty_links_to(slots, back, object);
    slots.empty_run(Place::before_links(object));
}

/// Frees the empty slots of objects. Nobody sees them.
fn free_all(slots: &mut Slots, objects: &[Oid])
    requires { IsTidy slots.old }
    ensures seen { rows_seen slots.new ≡ rows_seen slots.old }
    ensures tidy { IsTidy slots.new }
    ensures same { (q : Seat) → row_at slots.new q ≡ row_at slots.old q }
    ensures full { All (AreFull slots.new) objects.now }
{
    for object in objects {
        slots.free_object(object);
    }
}

/// Lets go of the hints of links that have no rows. Nobody sees them.
fn forget_all(slots: &mut Slots, back: &mut BTreeSet<Behind>, links: &[LinkKey])
    requires tidy { IsTidy slots.old }
    requires backed { AreBacked slots.old back.old }
    ensures seen { rows_seen slots.new ≡ rows_seen slots.old }
    ensures tidy { IsTidy slots.new }
    ensures same { (q : Seat) → row_at slots.new q ≡ row_at slots.old q }
    ensures backed { AreBacked slots.new back.new }
{
    for link in links {
        forget(slots, back, link);
    }
}

/// Lets go of objects that aren't held dead.
fn forget_dead(slots: &Slots, dead: &mut BTreeSet<Oid>, objects: &[Oid])
    requires tidy { IsTidy slots.now }
    requires listed { AreListed slots.now dead.old }
    ensures { AreListed slots.now dead.new }
{
    for object in objects {
        deaths::forget(slots, dead, object);
    }
}

/// Lets go of the hints of local update sequence numbers that no row has. Nobody sees them.
fn forget_locals(slots: &Slots, locals: &mut BTreeSet<Local>, hints: &[Local])
    requires tidy { IsTidy slots.now }
    requires located { AreLocated slots.now locals.old }
    ensures { AreLocated slots.now locals.new }
{
    for hint in hints {
        locals::forget(slots, locals, hint);
    }
}

/// The object of a row of one that is no death.
pub(crate) fn life_of(row: &Held) -> Option<Oid>
    ensures { IfSome result (λ o. is_life o row.now ≡ true) }
{
    let key = row.key();
    match &key {
        Key::Row { object, .. } if key.is_life_of(object) => Some(*object),
        _ => None,
    }
}

impl Table {
    /// Puts a row for which there is room.
    fn put(&mut self, row: Held)
        requires kept { IsKept self.old }
        requires numbered { AreNumbered self.old }
        requires room { HasRoom self.old row }
        ensures rows { rows_in self.new ≡ put (rows_in self.old) row }
        ensures kept { IsKept self.new }
        ensures numbered { AreNumbered self.new }
        ensures more { (h : Row) → HasRoom self.old h → HasRoom self.new h }
    {
        match row.key().killed() {
            Some(object) => bury(&mut self.slots, &self.back, &object, row),
            None => self.slots.write(row),
        }
    }

    /// Puts the first of rows for which there is room, and with it those behind it that are of the same object and no deaths.
    fn put_front(&mut self, rows: &mut VecDeque<Held>)
        requires kept { IsKept self.old }
        requires numbered { AreNumbered self.old }
        requires room { HaveRoom self.old rows.old.items }
        ensures rows { fold put (rows_in self.new) rows.new.items ≡ fold put (rows_in self.old) rows.old.items }
        ensures fewer { 0 < length rows.old.items → length rows.new.items < length rows.old.items }
        ensures kept { IsKept self.new }
        ensures numbered { AreNumbered self.new }
        ensures room { HaveRoom self.new rows.new.items }
    {
        let object = match rows.front() {
            Some(row) => life_of(row),
            None => None,
        };
        match object {
            Some(object) => self.slots.fill_object(&object, rows),
            None => {
                if let Some(row) = rows.pop_front() {
                    self.put(row);
                }
            }
        }
    }

    /// Puts rows for which there is room.
    fn put_all(&mut self, rows: Vec<Held>)
        requires kept { IsKept self.old }
        requires numbered { AreNumbered self.old }
        requires room { HaveRoom self.old rows.items }
        ensures rows { rows_in self.new ≡ fold put (rows_in self.old) rows.items }
        ensures kept { IsKept self.new }
        ensures numbered { AreNumbered self.new }
    {
        let mut rows = VecDeque::from_vec(rows);
        while !rows.is_empty() {
            self.put_front(&mut rows);
        }
    }

    /// Empties the slots of an object's rows.
    fn remove(&mut self, object: &Oid)
        requires kept { IsKept self.old }
        requires numbered { AreNumbered self.old }
        ensures rows { rows_in self.new ≡ without_object (rows_in self.old) object.now }
        ensures kept { IsKept self.new }
        ensures numbered { AreNumbered self.new }
    {
        self.slots.empty_run(Place::before_rows(object));
    }

    /// Removes objects. Their links stay.
    fn remove_all(&mut self, objects: &[Oid])
        requires kept { IsKept self.old }
        requires numbered { AreNumbered self.old }
        ensures rows { rows_in self.new ≡ fold without_object (rows_in self.old) objects.now }
        ensures kept { IsKept self.new }
        ensures numbered { AreNumbered self.new }
    {
        for object in objects {
            self.remove(object);
        }
    }

    /// Lets go of slots and hints that no row needs. Nobody sees them. Of the objects only those that were removed may be
    /// listed as dead and not be so.
    fn free(&mut self, spare: &Spare, removed: &[Oid])
        requires kept { IsKept self.old }
        requires numbered { AreNumbered self.old }
        ensures rows { rows_in self.new ≡ rows_in self.old }
        ensures kept { IsKept self.new }
        ensures numbered { AreNumbered self.new }
    {
        free_all(&mut self.slots, spare.objects.as_slice());
        forget_all(&mut self.slots, &mut self.back, spare.links.as_slice());
        forget_dead(&self.slots, &mut self.dead, removed);
        forget_locals(&self.slots, &mut self.locals, spare.locals.as_slice());
    }

    /// Puts rows for which there is room, one after the other, and then removes objects. A death takes its object's other
    /// rows and its links. What is spare is let go of.
    pub fn write(&mut self, rows: Vec<Held>, removed: &[Oid], spare: Spare)
        requires kept { IsKept self.old }
        requires numbered { AreNumbered self.old }
        requires room { HaveRoom self.old rows.items }
        ensures rows { rows_in self.new ≡ rows_after removed.now rows.items (rows_in self.old) }
        ensures kept { IsKept self.new }
        ensures numbered { AreNumbered self.new }
    {
        self.put_all(rows);
        self.remove_all(removed);
        self.free(&spare, removed);
    }

    /// Puts a row for which no room was made, and tells whether a row of its key was there. A death takes its object's other
    /// rows and its links. The row gets no hint of its number.
    pub fn put_now(&mut self, row: Held) -> Result<bool, NoMemory>
        requires { IsKept self.old }
        ensures was { IfOk result (λ was. was ≡ is_some (row_held (rows_in self.old) row.update.key)) }
        ensures kept { IsKept self.new }
        ensures ok { OnOk result (rows_in self.new ≡ put (rows_in self.old) row) }
        ensures err { OnErr result (rows_in self.new ≡ rows_in self.old) }
    {
        let key = row.key();
        back::remember(&mut self.back, &key)?;
        deaths::remember(&mut self.dead, &key)?;
        let was = self.slots.insert(row)?;
        if let Some(object) = key.killed() {
            strip(&mut self.slots, &self.back, &object);
        }
        Ok(was)
    }

    /// Puts copies of rows of an object of which nothing is held, none of them a death, under a local update sequence number,
    /// of which they get no hints.
    pub fn put_object(&mut self, object: &Oid, local: u64, rows: &[Update]) -> Result<(), NoMemory>
        requires kept { IsKept self.old }
        requires own { list_all (is_life_of object.now) rows.now ≡ true }
        requires unheld { holds_object (rows_in self.old) object.now ≡ false }
        ensures kept { IsKept self.new }
        ensures ok { OnOk result (rows_in self.new ≡ fold put (rows_in self.old) (map (held_at local) rows.now)) }
        ensures err { OnErr result (rows_in self.new ≡ rows_in self.old) }
    {
        self.slots.insert_object(object, local, rows)
    }
}
