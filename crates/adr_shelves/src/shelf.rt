//! The slots of one unit.

ghost use Rattle.std.specs.Prelude.{◌≡◌, ◌↔◌, ◌∷◌, ◌&&◌, [], IfErr, IfNone, IfOk, IfSome, IsSome, OnOk, OnErr, IsTrue, None, Some, filter, fold, is_some, nat_le, not, true};
ghost use Rattle.std.specs.Option.{option_copied, option_map, unwrap_or};
ghost use Rattle.std.specs.List.{list_any};
ghost use Rattle.std.specs.List.Sorted.{IsStrictlySortedBy};
ghost use Rattle.std.specs.Map.{keys_of, lookup, remove_entry, set_value};
ghost use Rattle.std.specs.BTreeMap.{insert_entry, is_at};
ghost use Rattle.std.specs.Ordering.{nat_cmp};
ghost use Rattle.adr_model.specs.Live.{born};
ghost use Rattle.adr_model.specs.Member.{Each};
ghost use Rattle.adr_model.specs.Update.{class_attr};
ghost use Rattle.adr_shelves.specs.Shelves.{behind_front, emptied, flat, front, is_life};
ghost use Rattle.adr_shelves.specs.Shelf.{HasOwn, IsGapFor, IsPlaceOf, with_own, with_own_held, with_own_slot};

use crate::NoMemory;
use crate::place::attr_of;
use adr_update::{CLASS, Held, Update};
use adr_values::Oid;
use std::alloc::Global;
use std::collections::VecDeque;
use std::marker::Model;

/// A slot for the row of an attribute.
#[derive(Drop)]
pub struct Slot {
    attr: u16,
    row: Option<Held>,
}

impl Model for Slot {
    ghost use Rattle.std.specs.Prelude.{ℕ, Option};
    ghost use Rattle.adr_model.specs.Store.{Held as Row};

    ghost Value = { ℕ × Option Row };

    ghost view = { λ s. (s.attr, s.row) };
}

impl Slot {
    pub fn attr(&self) -> u16
        ensures { result ≡ self.now.0 }
    {
        self.attr
    }

    pub fn row(&self) -> &Option<Held>
        ensures { result.now ≡ self.now.1 }
    {
        &self.row
    }
}

/// The slots of one unit, by their attributes.
#[derive(Drop)]
pub struct Shelf {
    slots: Vec<Slot>,
}

impl Model for Shelf {
    ghost use Rattle.std.specs.Prelude.{ℕ, List, Option};
    ghost use Rattle.adr_model.specs.Store.{Held as Row};

    ghost Value = { List (ℕ × Option Row) };

    ghost view = { λ s. s.slots.items };
}

impl Shelf {
    /// No slots, and no room yet.
    pub fn new(alloc: Global) -> Shelf
        ensures { result ≡ [] }
    {
        Shelf {
            slots: Vec::new(alloc),
        }
    }

    /// Slots with copies of rows of one unit, under a local update sequence number.
    pub fn of_copies(alloc: Global, local: u64, rows: &[Update]) -> Result<Shelf, NoMemory>
        ensures { IfOk result (λ shelf. shelf ≡ fold (with_own local) [] rows.now) }
    {
        let mut shelf = Shelf::new(alloc);
        for row in rows {
            let copy = Held::new(row.copy(alloc)?, local);
            shelf.put(attr_of(&row.key()), copy, rows.len())?;
        }
        Ok(shelf)
    }

    /// Empty slots for rows of one unit.
    pub fn of_slots(alloc: Global, rows: &[Held]) -> Result<Shelf, NoMemory>
        ensures { IfOk result (λ shelf. shelf ≡ fold with_own_slot [] rows.now) }
    {
        let mut shelf = Shelf::new(alloc);
        for row in rows {
            let _ = shelf.make(attr_of(&row.key()), rows.len())?;
        }
        Ok(shelf)
    }

    pub fn slots(&self) -> &[Slot]
        ensures { result.now ≡ self.now }
    {
        self.slots.as_slice()
    }

    /// What is in the slot of an attribute, if there is one.
    pub fn slot(&self, attr: u16) -> Option<&Option<Held>>
        ensures { option_copied result ≡ lookup (is_at (nat_cmp attr)) self.now }
    {
        for slot in self.slots.as_slice() {
            if slot.attr == attr {
                return Some(&slot.row);
            }
        }
        None
    }

    /// Makes a slot where there is none, and tells the local update sequence number of the row in it. The first slot
    /// comes with room for so many.
    pub fn make(&mut self, attr: u16, room: usize) -> Result<Option<u64>, NoMemory>
        requires { IsStrictlySortedBy nat_cmp (keys_of self.old) }
        ensures local { IfOk result (λ local. local ≡ option_map (λ h. h.local) (flat (lookup (is_at (nat_cmp attr)) self.old))) }
        ensures entries { OnOk result (self.new ≡ insert_entry nat_cmp self.old attr (unwrap_or (lookup (is_at (nat_cmp attr)) self.old) None)) }
        ensures err { OnErr result (self.new ≡ self.old) }
    {
        match place_of(self.slots.as_slice(), attr) {
            Ok(place) => Ok(local_in(&self.slots[place].row)),
            Err(place) => {
                self.make_room(room)?;
                self.slots.insert(place, Slot { attr, row: None })?;
                Ok(None)
            }
        }
    }

    /// Puts a row into a slot, which is made if there is none, and tells whether a row was there. The first slot comes
    /// with room for so many.
    pub fn put(&mut self, attr: u16, row: Held, room: usize) -> Result<bool, NoMemory>
        requires { IsStrictlySortedBy nat_cmp (keys_of self.old) }
        ensures was { IfOk result (λ was. was ≡ is_some (flat (lookup (is_at (nat_cmp attr)) self.old))) }
        ensures entries { OnOk result (self.new ≡ insert_entry nat_cmp self.old attr (Some row)) }
        ensures room { OnErr result (lookup (is_at (nat_cmp attr)) self.old ≡ None) }
        ensures err { OnErr result (self.new ≡ self.old) }
    {
        match place_of(self.slots.as_slice(), attr) {
            Ok(place) => Ok(self.replace(place, attr, row)),
            Err(place) => {
                self.make_room(room)?;
                self.slots.insert(
                    place,
                    Slot {
                        attr,
                        row: Some(row),
                    },
                )?;
                Ok(false)
            }
        }
    }

    /// Puts a row into the slot of an attribute, which stands at a place, and tells whether a row was there.
    fn replace(&mut self, place: usize, attr: u16, row: Held) -> bool
        requires { IsPlaceOf self.old attr place }
        ensures was { result ≡ is_some (flat (lookup (is_at (nat_cmp attr)) self.old)) }
        ensures entries { self.new ≡ insert_entry nat_cmp self.old attr (Some row) }
    {
        let was = self.slots[place].row.is_some();
        self.slots[place] = Slot {
            attr,
            row: Some(row),
        };
        was
    }

    /// Puts a row into its slot, for which there is one, and tells whether a row was there.
    pub fn write(&mut self, attr: u16, row: Held) -> bool
        requires rising { IsStrictlySortedBy nat_cmp (keys_of self.old) }
        requires there { IsSome (lookup (is_at (nat_cmp attr)) self.old) }
        ensures was { result ≡ is_some (flat (lookup (is_at (nat_cmp attr)) self.old)) }
        ensures entries { self.new ≡ insert_entry nat_cmp self.old attr (Some row) }
    {
        match place_of(self.slots.as_slice(), attr) {
            Ok(place) => self.replace(place, attr, row),
            Err(_) => unreachable!(),
        }
    }

    /// Puts the rows at the front of others that are an object's and no deaths into their slots, and tells whether a class row
    /// came where none was.
    pub fn fill(&mut self, object: &Oid, rows: &mut VecDeque<Held>) -> bool
        requires rising { IsStrictlySortedBy nat_cmp (keys_of self.old) }
        requires there { Each (HasOwn self.old) (front (is_life object.now) rows.old.items) }
        ensures rest { rows.new.items ≡ behind_front (is_life object.now) rows.old.items }
        ensures entries { self.new ≡ fold with_own_held self.old (front (is_life object.now) rows.old.items) }
        ensures came { result ≡ (not (is_some (flat (lookup (is_at (nat_cmp class_attr)) self.old)))
            && list_any (λ h. is_some (born h.update.key)) (front (is_life object.now) rows.old.items)) }
    {
        let mut came = false;
        while let Some(row) = next_life(object, rows) {
            let attr = attr_of(&row.key());
            let was = self.write(attr, row);
            came = came || (attr == CLASS && !was);
        }
        came
    }

    /// Makes room for one more slot, or for so many where there are none. A shelf has few slots, so it grows by one.
    fn make_room(&mut self, room: usize) -> Result<(), NoMemory>
        ensures { self.new ≡ self.old }
    {
        let more = if self.slots.is_empty() { room } else { 1 };
        self.slots.reserve_exact(more)?;
        Ok(())
    }

    /// Empties the slot of an attribute, if there is one, and tells whether a row was there.
    pub fn clear(&mut self, attr: u16) -> bool
        requires { IsStrictlySortedBy nat_cmp (keys_of self.old) }
        ensures was { result ≡ is_some (flat (lookup (is_at (nat_cmp attr)) self.old)) }
        ensures entries { self.new ≡ set_value (is_at (nat_cmp attr)) self.old None }
    {
        match place_of(self.slots.as_slice(), attr) {
            Ok(place) => {
                let was = self.slots[place].row.is_some();
                self.slots[place] = Slot { attr, row: None };
                was
            }
            Err(_) => false,
        }
    }

    /// Empties the slots of an attribute and of those behind it.
    pub fn clear_from(&mut self, attr: u16)
        ensures { self.new ≡ emptied (nat_le attr) self.old }
    {
        for slot in self.slots.iter_mut() {
            if attr <= slot.attr {
                slot.row = None;
            }
        }
    }

    /// Takes the slot of an attribute out, if it is empty.
    pub fn free(&mut self, attr: u16)
        requires { IsStrictlySortedBy nat_cmp (keys_of self.old) }
        ensures freed { lookup (is_at (nat_cmp attr)) self.old ≡ Some None → self.new ≡ remove_entry (is_at (nat_cmp attr)) self.old }
        ensures same { (lookup (is_at (nat_cmp attr)) self.old ≡ Some None → ⊥) → self.new ≡ self.old }
    {
        if let Ok(place) = place_of(self.slots.as_slice(), attr) {
            if self.slots[place].row.is_none() {
                let _ = self.slots.remove(place);
            }
        }
    }

    /// Takes all empty slots out.
    pub fn free_all(&mut self)
        ensures { self.new ≡ filter (λ s. is_some s.1) self.old }
    {
        self.slots.retain(|slot| slot.row.is_some());
    }

    pub fn is_empty(&self) -> bool
        ensures { IsTrue result ↔ (self.now ≡ []) }
    {
        self.slots.is_empty()
    }
}

/// Where the slot of an attribute stands, or where it would.
fn place_of(slots: &[Slot], attr: u16) -> Result<usize, usize>
    requires { IsStrictlySortedBy nat_cmp (keys_of slots.now) }
    ensures place { IfOk result (IsPlaceOf slots.now attr) }
    ensures gap { IfErr result (IsGapFor slots.now attr) }
{
    for (place, slot) in slots.iter().enumerate() {
        if slot.attr == attr {
            return Ok(place);
        }
        if attr < slot.attr {
            return Err(place);
        }
    }
    Err(slots.len())
}

/// The local update sequence number of the row in a slot.
fn local_in(row: &Option<Held>) -> Option<u64>
    ensures { result ≡ option_map (λ h. h.local) row.now }
{
    match row {
        Some(row) => Some(row.local()),
        None => None,
    }
}

/// Whether a row is an object's, and no death.
pub fn is_life(object: &Oid, row: &Held) -> bool
    ensures { result ≡ is_life object.now row.now }
{
    row.key().is_life_of(object)
}

/// Takes the first of rows, if it is an object's and no death.
fn next_life(object: &Oid, rows: &mut VecDeque<Held>) -> Option<Held>
    ensures some { IfSome result (λ h. (rows.old.items ≡ h ∷ rows.new.items) × (is_life object.now h ≡ true)) }
    ensures none { IfNone result ((rows.new.items ≡ rows.old.items) × (front (is_life object.now) rows.old.items ≡ [])) }
{
    let is_next = match rows.front() {
        Some(row) => is_life(object, row),
        None => false,
    };
    if is_next { rows.pop_front() } else { None }
}
