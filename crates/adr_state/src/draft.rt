//! The rows that say which live object a GUID has, while a change is made.

ghost use Rattle.std.specs.Prelude.{◌≡◌, IfErr, IfOk, OnOk};
ghost use Rattle.adr_model.specs.Change.{without_object};
ghost use Rattle.adr_model.specs.Formed.{AreRising};
ghost use Rattle.adr_model.specs.Place.{node_at};
ghost use Rattle.adr_model.specs.Store.{updates_of, with_row};
ghost use Rattle.adr_model.specs.Write.{nodes_held};
ghost use Rattle.adr_table.specs.Table.{IsKept, rows_in};
ghost use Rattle.adr_update.specs.Key.{key_of};
ghost use Rattle.adr_update.specs.Referents.{referents};
ghost use Rattle.adr_state.specs.Core.{core_object, core_of, is_core};
ghost use Rattle.adr_state.specs.Gap.{IsPlaceOf, IsGapFor};

use crate::NoMemory;
use crate::node::live_node;
use adr_table::Table;
use adr_update::{DELETED, Held, Key, Node};
use adr_values::{Guid, Oid};
use std::alloc::Global;
use std::cmp::Ordering;
use std::marker::Model;

/// The class, name and death rows of the objects of one GUID, in order of their keys. None of them is copied.
#[derive(Drop)]
pub struct Draft<'a> {
    rows: Vec<&'a Held>,
}

impl<'a> Model for Draft<'a> {
    ghost use Rattle.std.specs.Prelude.{List};
    ghost use Rattle.adr_model.specs.Store.{Held as Defined};
    ghost use Rattle.adr_update.specs.Referents.{referents};

    ghost Value = { List Defined };

    ghost view = { λ d. referents d.rows.items };
}

/// Whether rows of a key decide whether an object is live, and how it is named.
fn is_core(key: &Key) -> bool
    ensures { result ≡ is_core (key_of key.now) }
{
    match key {
        Key::Row { attr, .. } => *attr <= DELETED,
        Key::Link(_) => false,
    }
}

/// The object of which a row of a key says the class, the name or the death.
pub fn core_object(key: &Key) -> Option<Oid>
    ensures { result ≡ core_object (key_of key.now) }
{
    match key {
        Key::Row { object, attr } => {
            if *attr <= DELETED {
                Some(*object)
            } else {
                None
            }
        }
        Key::Link(_) => None,
    }
}

impl<'a> Draft<'a> {
    /// The rows of a GUID as a table has them.
    pub fn of(alloc: Global, table: &'a Table, guid: Guid) -> Result<Draft<'a>, NoMemory>
        requires { IsKept table.now }
        ensures { IfOk result (λ draft. draft ≡ core_of guid (rows_in table.now)) }
    {
        let mut rows = table.rows_of_guid(alloc, guid)?;
        rows.retain(|row| is_core(&row.key()));
        Ok(Draft { rows })
    }

    /// Writes a row in the place of the row of its key.
    pub fn write(&mut self, row: &'a Held) -> Result<(), NoMemory>
        ensures { OnOk result (self.new ≡ with_row self.old row.now) }
    {
        match place_of(self.rows.as_slice(), &row.key()) {
            Ok(place) => {
                self.rows[place] = row;
                Ok(())
            }
            Err(place) => {
                self.rows.insert(place, row)?;
                Ok(())
            }
        }
    }

    /// Takes the rows of an object.
    pub fn remove(&mut self, object: &Oid)
        ensures { self.new ≡ without_object self.old object.now }
    {
        self.rows.retain(|row| !row.key().is_row_of(object));
    }

    /// The live object that a GUID has by these rows.
    pub fn node(&self, alloc: Global, guid: Guid) -> Result<Option<Node>, NoMemory>
        requires { AreRising self.now }
        ensures { IfOk result (λ node. node ≡ node_at (nodes_held (updates_of self.now)) guid) }
    {
        live_node(alloc, self.rows.as_slice(), guid)
    }
}

/// Where the row of a key stands, or where it would.
fn place_of(rows: &[&Held], key: &Key) -> Result<usize, usize>
    ensures place { IfOk result (IsPlaceOf (referents rows.now) (key_of key.now)) }
    ensures gap { IfErr result (IsGapFor (referents rows.now) (key_of key.now)) }
{
    for (place, row) in rows.iter().enumerate() {
        match key.order(&row.key()) {
            Ordering::Less => return Err(place),
            Ordering::Equal => return Ok(place),
            Ordering::Greater => {}
        }
    }
    Err(rows.len())
}
