//! What one commit changes.

ghost use Rattle.std.specs.Prelude.{◌≡◌, [], IfOk};
ghost use Rattle.adr_values.specs.Numbered.{numbered};
ghost use Rattle.adr_model.specs.Change.{held_of};
ghost use Rattle.adr_model.specs.Serve.{is_quarantined};
ghost use Rattle.adr_change.specs.Mode.{mode_of};

use crate::NoMemory;
use crate::partner_mark::PartnerMark;
use adr_checks::Schema;
use adr_update::{Held, Written};
use adr_values::{Guid, Oid, Times, Vector};
use std::alloc::Global;
use std::marker::Model;
use std::mem::replace;

/// Whether a controller takes part, or is quarantined: it showed that it was put back without a fresh identifier, and
/// refuses writes, requests, replies, collections and backups until it is restored, or put back again.
#[derive(Clone, Copy)]
pub enum Mode {
    Normal,
    Quarantined,
}

impl Mode {
    pub fn is_quarantined(self) -> bool
        ensures { result ≡ is_quarantined (mode_of self) }
    {
        match self {
            Mode::Normal => false,
            Mode::Quarantined => true,
        }
    }
}

/// What one commit changes: the update sequence number and the mode and the schema after it, the mark of a partner, what is joined
/// into the vectors of what was seen and of what was collected and into the times, the objects that are removed, and the rows that are
/// written.
pub struct Change {
    usn: u64,
    mode: Mode,
    schema: Schema,
    mark: Option<(Guid, PartnerMark)>,
    joined: Vector,
    times: Times,
    purged: Vector,
    removed: Vec<Oid>,
    writes: Vec<Written>,
}

impl Drop for Change {
    fn drop(self) {
        let Change {
            usn: _,
            mode: _,
            schema: _,
            mark: _,
            joined: _joined,
            times: _times,
            purged: _purged,
            removed: _removed,
            writes: _writes,
        } = self;
    }
}

impl Model for Change {
    ghost use Rattle.adr_model.specs.Change.{Change as Defined};

    ghost Value = { Defined };

    ghost use Rattle.std.specs.Prelude.{◌≡◌, []};
    ghost use Rattle.adr_values.specs.Numbered.{numbered};
    ghost use Rattle.adr_change.specs.Mode.{mode_of};

    ghost view = { λ c. record { usn = c.usn; mode = mode_of c.mode; schema = c.schema.number; mark = c.mark; joined = c.joined; times = c.times; purged = c.purged; removed = c.removed.items; writes = c.writes.items } };

    ghost invariant = { λ c. c.schema ≡ numbered c.schema.number };
}

impl Change {
    pub fn new(
        usn: u64,
        mode: Mode,
        schema: Schema,
        mark: Option<(Guid, PartnerMark)>,
        joined: Vector,
        times: Times,
        purged: Vector,
        removed: Vec<Oid>,
        writes: Vec<Written>,
    ) -> Change
        ensures { result
            ≡ record { usn = usn; mode = mode_of mode; schema = schema.number; mark = mark; joined = joined; times = times; purged = purged; removed = removed.items; writes = writes.items } }
    {
        Change {
            usn,
            mode,
            schema,
            mark,
            joined,
            times,
            purged,
            removed,
            writes,
        }
    }

    /// The update sequence number after the change.
    pub fn usn(&self) -> u64
        ensures { result ≡ self.now.usn }
    {
        self.usn
    }

    /// The mode after the change.
    pub fn mode(&self) -> Mode
        ensures { mode_of result ≡ self.now.mode }
    {
        self.mode
    }

    /// The schema after the change.
    pub fn schema(&self) -> Schema
        ensures number { result.number ≡ self.now.schema }
        ensures numbered { result ≡ numbered self.now.schema }
    {
        self.schema
    }

    /// A partner, and what is kept of it from now on.
    pub fn mark(&self) -> Option<(Guid, PartnerMark)>
        ensures { result ≡ self.now.mark }
    {
        self.mark
    }

    /// What is joined into the vector of what was seen.
    pub fn joined(&self) -> &Vector
        ensures { result.now ≡ self.now.joined }
    {
        &self.joined
    }

    /// The times that are joined, which a last reply brings.
    pub fn times(&self) -> &Times
        ensures { result.now ≡ self.now.times }
    {
        &self.times
    }

    /// What is joined into the vector of what was collected.
    pub fn purged(&self) -> &Vector
        ensures { result.now ≡ self.now.purged }
    {
        &self.purged
    }

    /// The objects that are removed, after the rows are written.
    pub fn removed(&self) -> &[Oid]
        ensures { result.now ≡ self.now.removed }
    {
        self.removed.as_slice()
    }

    /// The rows that are written, in order.
    pub fn writes(&self) -> &[Written]
        ensures { result.now ≡ self.now.writes }
    {
        self.writes.as_slice()
    }

    /// Takes out the rows that are written, each under its local update sequence number, in order.
    pub fn take_held(&mut self, alloc: Global) -> Result<Vec<Held>, NoMemory>
        ensures rows { IfOk result (λ rows. rows.items ≡ held_of self.old.writes) }
        ensures rest { self.new ≡ record self.old { writes = [] } }
    {
        held_of(alloc, replace(&mut self.writes, Vec::new(alloc)))
    }
}

/// How many rows are written, for which room is made.
fn room_for(writes: &[Written]) -> usize {
    let mut room: usize = 0;
    for written in writes {
        room = room.saturating_add(written.item().rows().len());
    }
    room
}

/// The rows of what is written, each under its local update sequence number, in order. None is copied.
fn held_of(alloc: Global, writes: Vec<Written>) -> Result<Vec<Held>, NoMemory>
    ensures { IfOk result (λ rows. rows.items ≡ held_of writes.items) }
{
    let mut rows = Vec::with_capacity(alloc, room_for(writes.as_slice()))?;
    for written in writes {
        written.push_held(&mut rows)?;
    }
    Ok(rows)
}
