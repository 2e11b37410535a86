//! The rows of a controller with others over them, none of which is copied.

ghost use Rattle.std.specs.Prelude.{◌≡◌, ◌≤◌, ◌+◌, ◌++◌, ◌&&◌, ◌||◌, Bool, IfOk, IfSome, OnErr, OnOk, None, Some, false, filter, fold, true, is_none, is_some, length, map, not, take, if◌then◌else◌};
ghost use Rattle.std.specs.List.{list_all};
ghost use Rattle.std.specs.Option.{option_copied};
ghost use Rattle.adr_model.specs.Live.{objects_of};
ghost use Rattle.adr_model.specs.Store.{Held as Row, holds_dead, holds_object, is_row_of, row_held, updates_of};
ghost use Rattle.adr_model.specs.Change.{killed_by, put};
ghost use Rattle.adr_model.specs.Take.{has_row};
ghost use Rattle.adr_model.specs.Update.{class_attr};
ghost use Rattle.adr_model.specs.Write.{is_link_row, links_in};
ghost use Rattle.adr_update.specs.Key.{key_of};
ghost use Rattle.adr_update.specs.Referents.{referents};
ghost use Rattle.adr_update.specs.Sought.{is_link_from};
ghost use Rattle.adr_shelves.specs.Shelves.{held_at, is_life_of};
ghost use Rattle.adr_table.specs.Table.{IsKept, rows_in};
ghost use Rattle.adr_overlay.specs.Overlay.{is_birth_row, is_counted, is_left, is_stripped, left_below, links_found, links_lost, one};

use crate::NoMemory;
use crate::keys::has_row;
use adr_table::Table;
use adr_update::{CLASS, DELETED, Held, Key, Update};
use adr_values::Oid;
use std::alloc::{AllocError, Global};
use std::marker::Model;

/// The rows of a controller, which stay as they are, and over them rows that are put, with how many objects and links
/// there are together.
pub struct Overlay<'a> {
    base: &'a Table,
    over: Table,
    objects: usize,
    links: usize,
}

impl Drop for Overlay<'_> {
    fn drop(self) {
        let Overlay {
            base: _,
            over: _over,
            objects: _,
            links: _,
        } = self;
    }
}

impl<'a> Model for Overlay<'a> {
    ghost use Rattle.std.specs.Prelude.{List};
    ghost use Rattle.adr_model.specs.Store.{Held as Defined};

    ghost Value = { List Defined };

    ghost use Rattle.adr_table.specs.Table.{rows_in};
    ghost use Rattle.adr_overlay.specs.Overlay.{AreLaid, told};

    ghost view = { λ t. told (rows_in t.over) (rows_in t.base.now) };

    ghost invariant = { λ t. AreLaid t.over t.base.now t.objects t.links };
}

impl<'a> Overlay<'a> {
    /// The rows of a controller alone.
    pub fn new(alloc: Global, base: &'a Table) -> Overlay<'a>
        requires { IsKept base.now }
        ensures { result ≡ rows_in base.now }
    {
        base.are_rising();
        Overlay {
            base,
            over: Table::new(alloc),
            objects: base.objects(),
            links: base.links(),
        }
    }

    /// The row of a key.
    pub fn row(&self, key: Key) -> Option<&Held>
        ensures { option_copied result ≡ row_held self.now (key_of key) }
    {
        match self.over.row(key) {
            Some(row) => Some(row),
            None => row_below(&self.over, self.base, &key),
        }
    }

    /// Whether the object is held, live or dead.
    pub fn holds(&self, object: &Oid) -> bool
        ensures { result ≡ holds_object self.now object.now }
    {
        self.over.holds(object) || self.base.holds(object)
    }

    /// Whether the object is held dead.
    pub fn is_dead(&self, object: &Oid) -> bool
        ensures { result ≡ holds_dead self.now object.now }
    {
        self.over.is_dead(object) || self.base.is_dead(object)
    }

    /// The rows of an object, in some order.
    pub fn rows_of(&self, alloc: Global, object: &Oid) -> Result<Vec<&Held>, NoMemory>
        ensures { IfOk result (λ rows. (test : Row → Bool) → list_all test (referents rows.items)
            ≡ list_all (λ h. not (is_row_of object.now h.update.key) || test h) self.now) }
    {
        let mut rows = self.over.rows_of(alloc, object)?;
        push_left(
            &mut rows,
            &self.over,
            self.base.rows_of(alloc, object)?.as_slice(),
        )?;
        Ok(rows)
    }

    /// How many objects are held, live or dead.
    pub fn objects(&self) -> usize
        ensures { result ≡ length (objects_of (updates_of self.now)) }
    {
        self.objects
    }

    /// How many link rows are held, present or not.
    pub fn links(&self) -> usize
        ensures { result ≡ links_in self.now }
    {
        self.links
    }

    /// Puts rows, one after the other, under an update sequence number. An object may be known of which nothing is held
    /// before the first.
    pub fn put_all(
        &mut self,
        alloc: Global,
        local: u64,
        rows: &[Update],
        unheld: Option<Oid>,
    ) -> Result<(), NoMemory>
        requires { IfSome unheld (λ o. holds_object self.old o ≡ false) }
        ensures { OnOk result (self.new ≡ fold put self.old (map (held_at local) rows.now)) }
    {
        match unheld {
            Some(object) => {
                let lives = lives_of(rows, &object);
                self.put_object(&object, local, &rows[..lives])?;
                self.put_each(alloc, local, &rows[lives..])
            }
            None => self.put_each(alloc, local, rows),
        }
    }

    /// Puts rows of an object of which nothing is held, none of them a death, at once.
    fn put_object(&mut self, object: &Oid, local: u64, rows: &[Update]) -> Result<(), NoMemory>
        requires own { list_all (is_life_of object.now) rows.now ≡ true }
        requires unheld { holds_object self.old object.now ≡ false }
        ensures { OnOk result (self.new ≡ fold put self.old (map (held_at local) rows.now)) }
    {
        let objects = self.objects_with_new(rows)?;
        self.over.put_object(object, local, rows)?;
        self.objects = objects;
        Ok(())
    }

    /// Puts rows, each by itself.
    fn put_each(&mut self, alloc: Global, local: u64, rows: &[Update]) -> Result<(), NoMemory>
        ensures { OnOk result (self.new ≡ fold put self.old (map (held_at local) rows.now)) }
    {
        for row in rows {
            self.put(alloc, local, row)?;
        }
        Ok(())
    }

    /// Puts a row in the place of the row of its key, if there is one. A death takes its object's other rows and its links.
    fn put(&mut self, alloc: Global, local: u64, row: &Update) -> Result<(), NoMemory>
        ensures { OnOk result (self.new ≡ put self.old (held_at local row.now)) }
    {
        let key = row.key();
        let lost = self.lost_by(alloc, &key)?;
        let is_new = is_new_below(&self.over, self.base, &key);
        let objects = objects_with(self.objects, &key, is_new)?;
        let links = links_with(self.links, &key, is_new)?;
        let was = put_over(alloc, &mut self.over, local, row)?;
        self.objects = count_after(was, self.objects, objects);
        self.links = count_after(was, self.links, links) - lost;
        Ok(())
    }

    /// How many objects there are with rows of one of which nothing is held.
    fn objects_with_new(&self, rows: &[Update]) -> Result<usize, NoMemory>
        ensures { IfOk result (λ count. count
            ≡ length (objects_of (updates_of self.now)) + one (has_row class_attr rows.now)) }
    {
        if has_row(CLASS, rows) {
            sum(self.objects, 1)
        } else {
            Ok(self.objects)
        }
    }

    /// How many links go with the object that a row of this key kills, if it kills one.
    fn lost_by(&self, alloc: Global, key: &Key) -> Result<usize, NoMemory>
        ensures { IfOk result (λ count. count ≡ links_lost (killed_by (key_of key.now)) self.now) }
    {
        match key.killed() {
            Some(object) => count_at(alloc, &self.over, self.base, &object),
            None => Ok(0),
        }
    }
}

/// Two counts together. More than there is a number for counts as want of memory.
fn sum(one: usize, other: usize) -> Result<usize, NoMemory>
    ensures { IfOk result (λ sum. sum ≡ one + other) }
{
    one.checked_add(other).ok_or(AllocError)
}

/// Whether a row of this key counts as an object or as a link, and there is none below the others.
fn is_new_below(over: &Table, base: &Table, key: &Key) -> bool
    requires over { IsKept over.now }
    requires base { IsKept base.now }
    ensures { result ≡ (is_counted (key_of key.now) && is_none (left_below (rows_in over.now) (rows_in base.now) (key_of key.now))) }
{
    (key.born().is_some() || key.is_link()) && row_below(over, base, key).is_none()
}

/// How many objects there are with a row of this key, which may be new.
fn objects_with(objects: usize, key: &Key, is_new: bool) -> Result<usize, NoMemory>
    ensures { IfOk result (λ count. count ≡ objects + one (is_birth_row (key_of key.now) && is_new)) }
{
    if key.born().is_some() && is_new {
        sum(objects, 1)
    } else {
        Ok(objects)
    }
}

/// How many link rows there are with a row of this key, which may be new.
fn links_with(links: usize, key: &Key, is_new: bool) -> Result<usize, NoMemory>
    ensures { IfOk result (λ count. count ≡ links + one (is_link_row (key_of key.now) && is_new)) }
{
    if key.is_link() && is_new {
        sum(links, 1)
    } else {
        Ok(links)
    }
}

/// A count once a row is put: a row that was over the others before counts already.
fn count_after(was: bool, count: usize, with_new: usize) -> usize
    ensures { result ≡ (if was then count else with_new) }
{
    if was { count } else { with_new }
}

/// Puts a row over the others, under an update sequence number, and tells whether one of its key was among them.
fn put_over(alloc: Global, over: &mut Table, local: u64, row: &Update) -> Result<bool, NoMemory>
    requires { IsKept over.old }
    ensures was { IfOk result (λ was. was ≡ is_some (row_held (rows_in over.old) row.now.key)) }
    ensures kept { IsKept over.new }
    ensures ok { OnOk result (rows_in over.new ≡ put (rows_in over.old) (held_at local row.now)) }
    ensures err { OnErr result (rows_in over.new ≡ rows_in over.old) }
{
    over.put_now(Held::new(row.copy(alloc)?, local))
}

/// How many rows at the front are of an object and no deaths.
fn lives_of(rows: &[Update], object: &Oid) -> usize
    ensures within { result ≤ length rows.now }
    ensures own { list_all (is_life_of object.now) (take result rows.now) ≡ true }
{
    for (place, row) in rows.iter().enumerate() {
        if !row.key().is_life_of(object) {
            return place;
        }
    }
    rows.len()
}

/// How many links there are at an object: those over the others, and of those below them what still counts.
fn count_at(alloc: Global, over: &Table, base: &Table, object: &Oid) -> Result<usize, NoMemory>
    requires over { IsKept over.now }
    requires base { IsKept base.now }
    ensures { IfOk result (λ count. count
        ≡ length (filter (λ h. is_left (rows_in over.now) h.update.key) (links_found object.now (rows_in base.now)))
        + length (links_found object.now (rows_in over.now))) }
{
    let above = count_above(alloc, over, object)?;
    let below = count_below(alloc, over, base, object)?;
    sum(below, above)
}

/// How many links there are at an object, of the rows over the others.
fn count_above(alloc: Global, over: &Table, object: &Oid) -> Result<usize, NoMemory>
    requires { IsKept over.now }
    ensures { IfOk result (λ count. count ≡ length (links_found object.now (rows_in over.now))) }
{
    let from = over.links_from(alloc, object)?.as_slice().len();
    let to = over.links_to(alloc, object)?;
    sum(from, count_others(object, to.as_slice()))
}

/// How many links at an object, of those below the others, still count. Of an object that died by one of them there is
/// none.
fn count_below(alloc: Global, over: &Table, base: &Table, object: &Oid) -> Result<usize, NoMemory>
    requires over { IsKept over.now }
    requires base { IsKept base.now }
    ensures { IfOk result (λ count. count
        ≡ length (filter (λ h. is_left (rows_in over.now) h.update.key) (links_found object.now (rows_in base.now)))) }
{
    if over.is_dead(object) {
        return Ok(0);
    }
    let from = count_left(over, base.links_from(alloc, object)?.as_slice());
    let to = base.links_to(alloc, object)?;
    sum(from, count_others_left(over, object, to.as_slice()))
}

/// The row of a key below the others, if it didn't go with an object that died by one of them.
fn row_below<'r>(over: &Table, base: &'r Table, key: &Key) -> Option<&'r Held>
    requires over { IsKept over.now }
    requires base { IsKept base.now }
    ensures { option_copied result
        ≡ left_below (rows_in over.now) (rows_in base.now) (key_of key.now) }
{
    match base.row(*key) {
        Some(row) => {
            if is_stripped(over, key) {
                None
            } else {
                Some(row)
            }
        }
        None => None,
    }
}

/// Whether a row of this key, of those below the others, went with an object that died by one of them.
fn is_stripped(over: &Table, key: &Key) -> bool
    requires { IsKept over.now }
    ensures { result ≡ is_stripped (rows_in over.now) (key_of key.now) }
{
    match key {
        Key::Row { object, attr } => DELETED < *attr && over.is_dead(object),
        Key::Link(link) => over.is_dead(&link.from) || over.is_dead(&link.to),
    }
}

/// Whether a row of this key, of those below the others, still counts.
fn is_left(over: &Table, key: Key) -> bool
    requires { IsKept over.now }
    ensures { result ≡ is_left (rows_in over.now) (key_of key) }
{
    !is_stripped(over, &key) && over.row(key).is_none()
}

/// How many of these rows, which lie below the others, still count.
fn count_left(over: &Table, rows: &[&Held]) -> usize
    requires { IsKept over.now }
    ensures { result ≡ length (filter (λ h. is_left (rows_in over.now) h.update.key) (referents rows.now)) }
{
    let mut count = 0;
    for row in rows {
        if is_left(over, row.key()) {
            count += 1;
        }
    }
    count
}

/// How many of these links aren't from an object.
fn count_others(object: &Oid, links: &[&Held]) -> usize
    ensures { result ≡ length (filter (λ h. not (is_link_from object.now h.update.key)) (referents links.now)) }
{
    let mut count = 0;
    for link in links {
        if !link.key().is_link_from(object) {
            count += 1;
        }
    }
    count
}

/// How many of these links, which lie below the others, aren't from an object and still count.
fn count_others_left(over: &Table, object: &Oid, links: &[&Held]) -> usize
    requires { IsKept over.now }
    ensures { let others = filter (λ h. not (is_link_from object.now h.update.key)) (referents links.now) in
        result ≡ length (filter (λ h. is_left (rows_in over.now) h.update.key) others) }
{
    let mut count = 0;
    for link in links {
        let key = link.key();
        if !key.is_link_from(object) && is_left(over, key) {
            count += 1;
        }
    }
    count
}

/// Adds those of the rows, which lie below the others, that still count.
fn push_left<'r>(rows: &mut Vec<&'r Held>, over: &Table, below: &[&'r Held]) -> Result<(), NoMemory>
    requires { IsKept over.now }
    ensures { OnOk result (referents rows.new.items ≡ referents rows.old.items
        ++ filter (λ h. is_left (rows_in over.now) h.update.key) (referents below.now)) }
{
    for row in below {
        if is_left(over, row.key()) {
            rows.push(*row)?;
        }
    }
    Ok(())
}
