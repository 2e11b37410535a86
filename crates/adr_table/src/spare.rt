//! Room for rows that are written, and what they leave over.

ghost use Rattle.std.specs.Prelude.{◌≡◌, ◌<◌, ◌≤◌, IfOk, IfSome, OnOk, length, take, true};
ghost use Rattle.std.specs.List.{list_all};
ghost use Rattle.adr_model.specs.Store.{Held as Row};
ghost use Rattle.adr_shelves.specs.Shelves.{front, is_life};
ghost use Rattle.adr_table.specs.Locals.{IsLocated};
ghost use Rattle.adr_table.specs.Table.{AreNumbered, HasRoom, HaveRoom, IsKept, rows_in};

use crate::locals::{Local, name};
use crate::table::Table;
use crate::write::life_of;
use crate::{NoMemory, back, deaths, locals};
use adr_shelves::{Place, is_life};
use adr_update::{Held, Key};
use adr_values::{LinkKey, Oid};
use std::alloc::Global;

/// Objects whose slots may be empty once rows are written, and links and local update sequence numbers whose hints may have
/// no row. What is named here and has a row stays, and what isn't named costs memory alone.
#[derive(Drop)]
pub struct Spare {
    pub(crate) objects: Vec<Oid>,
    pub(crate) links: Vec<LinkKey>,
    pub(crate) locals: Vec<Local>,
}

impl Spare {
    fn new(alloc: Global) -> Spare {
        Spare {
            objects: Vec::new(alloc),
            links: Vec::new(alloc),
            locals: Vec::new(alloc),
        }
    }

    /// Names the hints of a row that goes.
    fn add(&mut self, row: &Held) -> Result<(), NoMemory> {
        name(&mut self.locals, Local::of(row))?;
        if let Key::Link(link) = row.key() {
            self.links.push(link)?;
        }
        Ok(())
    }

    /// Names the hints of rows that are held and go.
    fn add_held(&mut self, rows: Vec<&Held>) -> Result<(), NoMemory> {
        for row in &rows {
            self.add(row)?;
        }
        Ok(())
    }

    /// Names the hints of rows that are written: a later one of them may take them.
    fn add_written(&mut self, rows: &[Held]) -> Result<(), NoMemory> {
        for row in rows {
            self.add(row)?;
        }
        Ok(())
    }

    /// Names an object that dies, and the hints of its rows and its links.
    fn add_dead(&mut self, alloc: Global, table: &Table, object: &Oid) -> Result<(), NoMemory>
        requires { IsKept table.now }
    {
        self.objects.push(*object)?;
        self.add_held(table.rows_of(alloc, object)?)?;
        self.add_held(table.links_from(alloc, object)?)?;
        self.add_held(table.links_to(alloc, object)?)
    }

    /// Names objects that are removed, and the hints of their rows.
    fn add_removed(&mut self, alloc: Global, table: &Table, removed: &[Oid]) -> Result<(), NoMemory>
        requires { IsKept table.now }
    {
        for object in removed {
            self.objects.push(*object)?;
            self.add_held(table.rows_of(alloc, object)?)?;
        }
        Ok(())
    }

    /// Names the hint of the row that a row takes the place of, by its number, and what dies by it.
    fn add_before(
        &mut self,
        alloc: Global,
        table: &Table,
        key: &Key,
        before: Option<u64>,
    ) -> Result<(), NoMemory>
        requires { IsKept table.now }
    {
        if let Some(usn) = before {
            name(&mut self.locals, Local::at(usn, &Place::of(key)))?;
        }
        match key.killed() {
            Some(object) => self.add_dead(alloc, table, &object),
            None => Ok(()),
        }
    }
}

/// How many rows at the front of others are an object's and no deaths.
fn lives_of(object: &Oid, rows: &[Held]) -> usize
    ensures within { result ≤ length rows.now }
    ensures front { take result rows.now ≡ front (is_life object.now) rows.now }
{
    for (place, row) in rows.iter().enumerate() {
        if !is_life(object, row) {
            return place;
        }
    }
    rows.len()
}

impl Table {
    /// Makes a slot for a row, and its hints, and tells the local update sequence number of the row that it takes the place
    /// of. Nobody sees it.
    fn reserve_one(&mut self, before: Option<&Held>, row: &Held) -> Result<Option<u64>, NoMemory>
        requires kept { IsKept self.old }
        requires numbered { AreNumbered self.old }
        requires before { IfSome before (λ h. IsLocated self.old.locals h.now) }
        ensures rows { rows_in self.new ≡ rows_in self.old }
        ensures kept { IsKept self.new }
        ensures numbered { AreNumbered self.new }
        ensures more { (h : Row) → HasRoom self.old h → HasRoom self.new h }
        ensures ok { OnOk result (HasRoom self.new row.now) }
    {
        let key = row.key();
        locals::remember(&mut self.locals, before, row)?;
        // A row that is held has its other hints.
        if let Some(usn) = self.slots.reserve(Place::of(&key))? {
            return Ok(Some(usn));
        }
        back::remember(&mut self.back, &key)?;
        deaths::remember(&mut self.dead, &key)?;
        Ok(None)
    }

    /// Makes slots for rows of an object that has none, and their hints, and tells whether it did. Nobody sees it.
    fn reserve_object(&mut self, object: &Oid, rows: &[Held]) -> Result<bool, NoMemory>
        requires kept { IsKept self.old }
        requires numbered { AreNumbered self.old }
        requires own { list_all (is_life object.now) rows.now ≡ true }
        ensures rows { rows_in self.new ≡ rows_in self.old }
        ensures kept { IsKept self.new }
        ensures numbered { AreNumbered self.new }
        ensures more { (h : Row) → HasRoom self.old h → HasRoom self.new h }
        ensures ok { IfOk result (λ made. made ≡ true → HaveRoom self.new rows.now) }
    {
        if !self.slots.reserve_object(object, rows)? {
            return Ok(false);
        }
        locals::remember_all(&mut self.locals, object, rows)?;
        Ok(true)
    }

    /// Makes slots for rows, and their hints, and names the hints of the rows that they take the place of, and what dies by
    /// them. Nobody sees it.
    fn reserve_each(
        &mut self,
        alloc: Global,
        rows: &[Held],
        spare: &mut Spare,
    ) -> Result<(), NoMemory>
        requires kept { IsKept self.old }
        requires numbered { AreNumbered self.old }
        ensures rows { rows_in self.new ≡ rows_in self.old }
        ensures kept { IsKept self.new }
        ensures numbered { AreNumbered self.new }
        ensures more { (h : Row) → HasRoom self.old h → HasRoom self.new h }
        ensures ok { OnOk result (HaveRoom self.new rows.now) }
    {
        let mut before = None;
        for row in rows {
            let usn = self.reserve_one(before, row)?;
            spare.add_before(alloc, self, &row.key(), usn)?;
            before = Some(row);
        }
        Ok(())
    }

    /// Makes room for the first of rows, and with it for those behind it that are of the same object and no deaths, and tells
    /// for how many. Nobody sees it.
    fn reserve_front(
        &mut self,
        alloc: Global,
        rows: &[Held],
        spare: &mut Spare,
    ) -> Result<usize, NoMemory>
        requires kept { IsKept self.old }
        requires numbered { AreNumbered self.old }
        requires some { 0 < length rows.now }
        ensures rows { rows_in self.new ≡ rows_in self.old }
        ensures kept { IsKept self.new }
        ensures numbered { AreNumbered self.new }
        ensures more { (h : Row) → HasRoom self.old h → HasRoom self.new h }
        ensures some { IfOk result (λ n. 0 < n) }
        ensures within { IfOk result (λ n. n ≤ length rows.now) }
        ensures ok { IfOk result (λ n. HaveRoom self.new (take n rows.now)) }
    {
        let end = match life_of(&rows[0]) {
            Some(object) => {
                let end = lives_of(&object, rows);
                if end > 1 && self.reserve_object(&object, &rows[..end])? {
                    return Ok(end);
                }
                end
            }
            None => 1,
        };
        self.reserve_each(alloc, &rows[..end], spare)?;
        Ok(end)
    }

    /// Makes room for rows that are written and objects that are removed, and tells what will be spare. Nobody sees it.
    pub fn reserve(
        &mut self,
        alloc: Global,
        rows: &[Held],
        removed: &[Oid],
    ) -> Result<Spare, NoMemory>
        requires kept { IsKept self.old }
        requires numbered { AreNumbered self.old }
        ensures rows { rows_in self.new ≡ rows_in self.old }
        ensures kept { IsKept self.new }
        ensures numbered { AreNumbered self.new }
        ensures ok { OnOk result (HaveRoom self.new rows.now) }
    {
        let mut spare = Spare::new(alloc);
        let mut place = 0;
        while place < rows.len() {
            place += self.reserve_front(alloc, &rows[place..], &mut spare)?;
        }
        if !spare.objects.is_empty() {
            spare.add_written(rows)?;
        }
        spare.add_removed(alloc, self, removed)?;
        Ok(spare)
    }
}
