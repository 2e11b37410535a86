//! What an image says, as a change of an empty database.

ghost use Rattle.std.specs.Prelude.{◌≡◌, [], ◌∷◌, IfOk};
ghost use Rattle.adr_model.specs.Change.{held_of};
ghost use Rattle.adr_image.specs.Anew.{MakesAll};

use crate::contents::Contents;
use adr_change::{Change, Mode, PartnerMark};
use adr_update::{Held, Item, NoMemory, Written};
use adr_values::Guid;
use std::alloc::Global;

/// A row as what is written under its local update sequence number.
fn write_of(alloc: Global, row: Held) -> Result<Written, NoMemory>
    ensures { IfOk result (λ write. held_of (write ∷ []) ≡ row ∷ []) }
{
    let local = row.local();
    let unit = row.key().unit();
    let mut updates = Vec::with_capacity(alloc, 1)?;
    updates.push(row.into_update())?;
    Ok(Written::new(local, Item::new(unit, updates)))
}

/// Rows as what is written, each under its local update sequence number. None is copied.
fn writes_of(alloc: Global, rows: Vec<Held>) -> Result<Vec<Written>, NoMemory>
    ensures { IfOk result (λ writes. held_of writes.items ≡ rows.items) }
{
    let mut writes = Vec::new(alloc);
    for row in rows {
        writes.push(write_of(alloc, row)?)?;
    }
    Ok(writes)
}

impl Contents {
    /// The change that makes all of an empty controller but its marks, and these. No row is copied.
    pub fn into_change(self, alloc: Global) -> Result<(Change, Vec<(Guid, PartnerMark)>), NoMemory>
        ensures change { IfOk result (λ made. MakesAll self made.0) }
        ensures marks { IfOk result (λ made. made.1.items ≡ self.marks) }
    {
        let (schema, usn) = (self.schema, self.usn);
        let (rows, vector, times, purged, marks) = self.into_parts();
        let change = Change::new(
            usn,
            Mode::Normal,
            schema,
            None,
            vector,
            times,
            purged,
            Vec::new(alloc),
            writes_of(alloc, rows)?,
        );
        Ok((change, marks))
    }
}
