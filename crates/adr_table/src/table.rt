//! A table of rows, and what is looked up in it.

ghost use Rattle.std.specs.Prelude.{◌≡◌, ◌+◌, [], IfOk, filter, is_some, length};
ghost use Rattle.std.specs.Option.{option_copied};
ghost use Rattle.adr_model.specs.Change.{killed_by};
ghost use Rattle.adr_model.specs.Formed.{AreRising};
ghost use Rattle.adr_model.specs.Live.{objects_of};
ghost use Rattle.adr_model.specs.Store.{holds_dead, holds_object, is_row_of, row_held, updates_of};
ghost use Rattle.adr_model.specs.Write.{holds_guid, is_of_guid, links_in};
ghost use Rattle.adr_update.specs.Key.{key_of};
ghost use Rattle.adr_update.specs.Referents.{referents};
ghost use Rattle.adr_update.specs.Sought.{IsNextLocal, is_link_from, is_link_to, rows_of_unit, units_at};
ghost use Rattle.adr_table.specs.Lasts.{AreLasts};
ghost use Rattle.adr_table.specs.Table.{AreNumbered, IsKept, rows_in};

use crate::NoMemory;
use crate::back::{Behind, rows_behind};
use crate::deaths::deaths;
use crate::locals::{Local, next_local, units_at};
use crate::slots::Slots;
use crate::walk::Walk;
use adr_shelves::Place;
use adr_update::{Held, Key};
use adr_values::{Guid, Oid, Unit};
use std::alloc::Global;
use std::collections::BTreeSet;

/// Rows in slots, with hints of the links that end at each object, of the objects that are held dead, and of the units that
/// were written last under each local update sequence number. Rows that are put at once have no hints of the last kind.
pub struct Table {
    pub(crate) slots: Slots,
    pub(crate) back: BTreeSet<Behind>,
    pub(crate) dead: BTreeSet<Oid>,
    pub(crate) locals: BTreeSet<Local>,
}

impl Drop for Table {
    fn drop(self) {
        let Table {
            slots: _slots,
            back: _back,
            dead: _dead,
            locals: _locals,
        } = self;
    }
}

impl Table {
    /// No rows.
    pub fn new(alloc: Global) -> Table
        ensures rows { rows_in result ≡ [] }
        ensures kept { IsKept result }
        ensures numbered { AreNumbered result }
    {
        Table {
            slots: Slots::new(alloc),
            back: BTreeSet::new(alloc),
            dead: BTreeSet::new(alloc),
            locals: BTreeSet::new(alloc),
        }
    }

    /// The row of a key.
    pub fn row(&self, key: Key) -> Option<&Held>
        requires { IsKept self.now }
        ensures { option_copied result ≡ row_held (rows_in self.now) (key_of key) }
    {
        self.slots.row(&key)
    }

    /// Whether an object is held, live or dead.
    pub fn holds(&self, object: &Oid) -> bool
        requires { IsKept self.now }
        ensures { result ≡ holds_object (rows_in self.now) object.now }
    {
        self.slots.has_unit(&Place::before_rows(object))
    }

    /// Whether an object is held dead.
    pub fn is_dead(&self, object: &Oid) -> bool
        requires { IsKept self.now }
        ensures { result ≡ holds_dead (rows_in self.now) object.now }
    {
        // An object that is listed may have no death, so its row decides.
        self.dead.contains(object) && self.slots.row(&Key::deleted(object)).is_some()
    }

    /// Whether an object of a GUID is held, live or dead.
    pub fn holds_guid(&self, guid: Guid) -> bool
        requires { IsKept self.now }
        ensures { result ≡ holds_guid (updates_of (rows_in self.now)) guid }
    {
        self.slots.has_row_in_run(Place::before_guid(guid))
    }

    /// How many objects are held, live or dead.
    pub fn objects(&self) -> usize
        requires { IsKept self.now }
        ensures { result ≡ length (objects_of (updates_of (rows_in self.now))) }
    {
        self.slots.objects
    }

    /// How many link rows are held, present or not.
    pub fn links(&self) -> usize
        requires { IsKept self.now }
        ensures { result ≡ links_in (rows_in self.now) }
    {
        self.slots.links
    }

    /// All rows, in order of their keys.
    pub fn to_vec(&self, alloc: Global) -> Result<Vec<&Held>, NoMemory>
        ensures { IfOk result (λ rows. referents rows.items ≡ rows_in self.now) }
    {
        self.slots.to_vec(alloc)
    }

    /// The rows of an object, in order.
    pub fn rows_of(&self, alloc: Global, object: &Oid) -> Result<Vec<&Held>, NoMemory>
        requires { IsKept self.now }
        ensures { IfOk result (λ rows.
            referents rows.items ≡ filter (λ h. is_row_of object.now h.update.key) (rows_in self.now)) }
    {
        self.slots.rows_of_unit(alloc, &Place::before_rows(object))
    }

    /// The rows of the objects of a GUID, in order.
    pub fn rows_of_guid(&self, alloc: Global, guid: Guid) -> Result<Vec<&Held>, NoMemory>
        requires { IsKept self.now }
        ensures { IfOk result (λ rows.
            referents rows.items ≡ filter (λ h. is_of_guid guid h.update.key) (rows_in self.now)) }
    {
        self.slots.rows_in_run(alloc, Place::before_guid(guid))
    }

    /// The link rows from an object, in order.
    pub fn links_from(&self, alloc: Global, object: &Oid) -> Result<Vec<&Held>, NoMemory>
        requires { IsKept self.now }
        ensures { IfOk result (λ rows.
            referents rows.items ≡ filter (λ h. is_link_from object.now h.update.key) (rows_in self.now)) }
    {
        self.slots.rows_in_run(alloc, Place::before_links(object))
    }

    /// The link rows to an object, in order.
    pub fn links_to(&self, alloc: Global, object: &Oid) -> Result<Vec<&Held>, NoMemory>
        requires { IsKept self.now }
        ensures { IfOk result (λ rows.
            referents rows.items ≡ filter (λ h. is_link_to object.now h.update.key) (rows_in self.now)) }
    {
        rows_behind(alloc, &self.slots, &self.back, object)
    }

    /// The death rows, in order. It takes time by them alone.
    pub fn deaths(&self, alloc: Global) -> Result<Vec<&Held>, NoMemory>
        requires { IsKept self.now }
        ensures { IfOk result (λ rows.
            referents rows.items ≡ filter (λ h. is_some (killed_by h.update.key)) (rows_in self.now)) }
    {
        deaths(alloc, &self.slots, &self.dead)
    }

    /// The rows of a unit, in order.
    pub fn rows_of_unit(&self, alloc: Global, unit: &Unit) -> Result<Vec<&Held>, NoMemory>
        requires { IsKept self.now }
        ensures { IfOk result (λ rows. referents rows.items ≡ rows_of_unit (rows_in self.now) unit.now) }
    {
        match unit {
            Unit::Object(object) => self.rows_of(alloc, object),
            Unit::Link(link) => self.slots.rows_of_unit(alloc, &Place::of_link(link)),
        }
    }

    /// The next number behind this one that may be the last local update sequence number of a unit: none lies between.
    pub fn next_local(&self, usn: u64) -> Option<u64>
        requires kept { IsKept self.now }
        requires numbered { AreNumbered self.now }
        ensures { IsNextLocal (rows_in self.now) usn result }
    {
        next_local(&self.slots, &self.locals, usn)
    }

    /// The units whose last local update sequence number is this, rising.
    pub fn units_at(&self, alloc: Global, usn: u64) -> Result<Vec<Unit>, NoMemory>
        requires kept { IsKept self.now }
        requires numbered { AreNumbered self.now }
        ensures { IfOk result (λ units. units.items ≡ units_at (rows_in self.now) usn) }
    {
        units_at(alloc, &self.slots, &self.locals, usn)
    }

    /// The units whose last local update sequence numbers are behind this one, each with its number, rising by it.
    pub fn walk(&self, usn: u64) -> Walk<'_>
        requires kept { IsKept self.now }
        requires numbered { AreNumbered self.now }
        ensures { AreLasts (rows_in self.now) (usn + 1) result }
    {
        Walk::new(&self.slots, &self.locals, usn)
    }

    /// The keys of rows rise.
    pub fn are_rising(&self)
        requires { IsKept self.now }
        ensures { AreRising (rows_in self.now) }
    {}
}
