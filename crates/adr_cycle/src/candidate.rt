//! An item that may be sent.

ghost use Rattle.std.specs.Prelude.{◌≡◌, IfOk};
ghost use Rattle.adr_model.specs.Store.{updates_of};
ghost use Rattle.adr_update.specs.Referents.{referents};

use crate::NoMemory;
use adr_state::{Held, Item, Update};
use adr_values::Unit;
use std::alloc::Global;
use std::marker::Model;

/// An item that may be sent, with its rows where they are held: they are copied only if it is sent.
#[derive(Drop)]
pub struct Candidate<'a> {
    unit: Unit,
    rows: Vec<&'a Held>,
}

impl<'a> Model for Candidate<'a> {
    ghost use Rattle.adr_model.specs.Store.{updates_of};
    ghost use Rattle.adr_update.specs.Referents.{referents};
    ghost use Rattle.adr_model.specs.Change.{Item as Defined};

    ghost Value = { Defined };

    ghost view = { λ c. record { unit = c.unit; rows = updates_of (referents c.rows.items) } };
}

impl<'a> Candidate<'a> {
    pub fn new(unit: Unit, rows: Vec<&'a Held>) -> Candidate<'a>
        ensures { result ≡ record { unit = unit; rows = updates_of (referents rows.entry.items) } }
    {
        Candidate { unit, rows }
    }

    /// The item, with copies of its rows.
    pub fn item(&self, alloc: Global) -> Result<Item, NoMemory>
        ensures { IfOk result (λ item. item ≡ self.now) }
    {
        Ok(Item::new(self.unit, copy_updates(alloc, self.rows.as_slice())?))
    }
}

/// Equal updates, in the order of the rows.
fn copy_updates(alloc: Global, rows: &[&Held]) -> Result<Vec<Update>, NoMemory>
    ensures { IfOk result (λ updates. updates.items ≡ updates_of (referents rows.now)) }
{
    let mut updates = Vec::with_capacity(alloc, rows.len())?;
    for row in rows {
        updates.push(row.update().copy(alloc)?)?;
    }
    Ok(updates)
}
