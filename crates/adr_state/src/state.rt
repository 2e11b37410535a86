//! A controller's state.

ghost use Rattle.std.specs.Prelude.{◌≡◌, ◌<◌, ◌≤◌, [], length, true, IfOk, IfSome, IfNone, OnOk, OnErr, IsErrOf, unwrap_or};
ghost use Rattle.adr_values.specs.Numbered.{numbered};
ghost use Rattle.adr_values.specs.Refusal.{full};
ghost use Rattle.adr_values.specs.Vector.{joined, raised, cursor_limit};
ghost use Rattle.adr_model.specs.Store.{empty_state, empty_store};
ghost use Rattle.adr_model.specs.Change.{after};
ghost use Rattle.adr_model.specs.Lengths.{first_log_end, new_log};
ghost use Rattle.adr_state.specs.Known.{raises_at_most_own};
ghost use Rattle.adr_change.specs.Mode.{mode_of};
ghost use Rattle.adr_state.specs.Refusal.{IsOverfull};

use crate::marks::Marks;
use crate::rows::Rows;
use adr_change::{Change, Mode};
use adr_checks::Schema;
use adr_values::{Failure, Full, Guid, NoMemory, Times, Vector};
use std::alloc::Global;
use std::marker::Model;

/// The number of the schema that new controllers have.
const FIRST_SCHEMA: u32 = 1;

/// A controller: its own identifier, the invocation identifier of its database, its mode, and the database.
pub struct State {
    alloc: Global,
    dsa: Guid,
    inv: Guid,
    usn: u64,
    mode: Mode,
    schema: Schema,
    rows: Rows,
    vector: Vector,
    times: Times,
    purged: Vector,
    marks: Marks,
}

impl Drop for State {
    fn drop(self) {
        let State {
            alloc: _,
            dsa: _,
            inv: _,
            usn: _,
            mode: _,
            schema: _,
            rows: _rows,
            vector: _vector,
            times: _times,
            purged: _purged,
            marks: _marks,
        } = self;
    }
}

impl Model for State {
    ghost use Rattle.adr_model.specs.Store.{State as Defined};

    ghost Value = { Defined };

    ghost use Rattle.std.specs.Prelude.{◌≡◌, []};
    ghost use Rattle.adr_values.specs.Numbered.{numbered};
    ghost use Rattle.adr_change.specs.Mode.{mode_of};

    ghost view = { λ s. record { dsa = s.dsa; inv = s.inv; mode = mode_of s.mode; store = record { schema = s.schema.number; usn = s.usn; rows = s.rows; vector = s.vector; times = s.times; purged = s.purged; marks = s.marks } } };

    ghost invariant = { λ s. s.schema ≡ numbered s.schema.number };
}

impl State {
    /// A new, empty controller.
    pub fn new(alloc: Global, dsa: Guid, inv: Guid, schema: Schema) -> State
        ensures empty { result ≡ record (empty_state dsa inv) { store = empty_store schema.number } }
        ensures log { (new_log result).log_end ≡ first_log_end }
    {
        State {
            alloc,
            dsa,
            inv,
            usn: 0,
            mode: Mode::Normal,
            schema,
            rows: Rows::new(alloc),
            vector: Vector::new(alloc),
            times: Times::new(alloc),
            purged: Vector::new(alloc),
            marks: Marks::new(alloc),
        }
    }

    /// A new, empty controller of the first schema, under its two identifiers.
    pub fn first(alloc: Global, dsa: Guid, inv: Guid) -> State
        ensures { result ≡ empty_state dsa inv }
    {
        match Schema::new(FIRST_SCHEMA) {
            Some(schema) => State::new(alloc, dsa, inv, schema),
            None => unreachable!(),
        }
    }

    /// The controller's identifier.
    pub fn dsa(&self) -> Guid
        ensures { result ≡ self.now.dsa }
    {
        self.dsa
    }

    /// The invocation identifier of the controller's database.
    pub fn inv(&self) -> Guid
        ensures { result ≡ self.now.inv }
    {
        self.inv
    }

    /// The last update sequence number that was used here.
    pub fn usn(&self) -> u64
        ensures { result ≡ self.now.store.usn }
    {
        self.usn
    }

    pub fn mode(&self) -> Mode
        ensures { mode_of result ≡ self.now.mode }
    {
        self.mode
    }

    pub fn schema(&self) -> Schema
        ensures number { result.number ≡ self.now.store.schema }
        ensures table { result ≡ numbered self.now.store.schema }
    {
        self.schema
    }

    pub fn rows(&self) -> &Rows
        ensures { result.now ≡ self.now.store.rows }
    {
        &self.rows
    }

    /// Up to where the writes of each incarnation have been seen.
    pub fn vector(&self) -> &Vector
        ensures { result.now ≡ self.now.store.vector }
    {
        &self.vector
    }

    /// When each incarnation was last read whole, where that is known.
    pub fn times(&self) -> &Times
        ensures { result.now ≡ self.now.store.times }
    {
        &self.times
    }

    /// What covers the births and deaths of the objects that were collected.
    pub fn purged(&self) -> &Vector
        ensures { result.now ≡ self.now.store.purged }
    {
        &self.purged
    }

    pub fn marks(&self) -> &Marks
        ensures { result.now ≡ self.now.store.marks }
    {
        &self.marks
    }
}

impl State {
    /// Commits a change, whose rows are moved.
    pub fn apply(&mut self, mut change: Change) -> Result<(), Failure<Full>>
        ensures ok { OnOk result (self.new ≡ after self.old change) }

        // Where a vector would have too many cursors it fails, and no other change is refused as full.
        ensures room { OnOk result (¬ IsOverfull (after self.old change)) }
        ensures full { IsErrOf result full → IsOverfull (after self.old change) }
        ensures err { OnErr result (self.new ≡ self.old) }
    {
        // What can fail comes first, and leaves everything as it was.
        let alloc = self.alloc;
        let vector = self.vector_after(alloc, &change)?;
        let times = self.times_after(alloc, &change)?;
        let purged = self.purged_after(alloc, &change)?;
        let marks = self.marks.with_new(alloc, change.mark())?;
        let rows = change.take_held(alloc)?;
        self.rows.write(alloc, rows, change.removed())?;
        self.usn = change.usn();
        self.mode = change.mode();
        self.schema = change.schema();
        renew_seen(&mut self.vector, vector, self.inv, &change);
        renew_times(&mut self.times, times);
        renew(&mut self.purged, purged);
        self.marks.renew(marks, change.mark());
        are_few(&self.vector);
        Ok(())
    }

    /// Puts other marks in the place of those that there are.
    pub fn set_marks(&mut self, marks: Marks)
        ensures { self.new ≡ record self.old { store = record (self.old.store) { marks = marks } } }
    {
        self.marks = marks;
    }

    /// What will have been seen after a change; nothing where no more than the own cursor is raised, which is there.
    fn vector_after(&self, alloc: Global, change: &Change) -> Result<Option<Vector>, Failure<Full>>
        ensures new { IfOk result (λ vector.
            IfSome vector (λ seen. seen ≡ (after self.now change.now).store.vector)) }
        ensures known { IfOk result (λ vector.
            IfNone vector (raises_at_most_own self.now.store.vector self.now.inv change.now ≡ true)) }
        ensures full { IsErrOf result full → cursor_limit < length (after self.now change.now).store.vector }
    {
        if raises_at_most_own(&self.vector, self.inv, change) {
            return Ok(None);
        }
        let mut vector = self.vector.joined(alloc, change.joined())?;
        vector.raise(self.inv, change.usn())?;
        Ok(Some(vector))
    }

    /// The times after a change; nothing where they stay as they are.
    fn times_after(&self, alloc: Global, change: &Change) -> Result<Option<Times>, NoMemory>
        ensures { IfOk result (λ times.
            unwrap_or times self.now.store.times ≡ (after self.now change.now).store.times) }
    {
        if change.times().is_empty() {
            return Ok(None);
        }
        let times = self.times.joined(alloc, change.times())?;
        Ok(Some(times))
    }

    /// What covers all that was collected after a change; nothing where that stays as it is.
    fn purged_after(&self, alloc: Global, change: &Change) -> Result<Option<Vector>, Failure<Full>>
        ensures ok { IfOk result (λ purged.
            unwrap_or purged self.now.store.purged ≡ (after self.now change.now).store.purged) }
        ensures few { IfOk result (λ _. length (after self.now change.now).store.purged ≤ cursor_limit) }
        ensures full { IsErrOf result full → cursor_limit < length (after self.now change.now).store.purged }
    {
        if change.purged().is_empty() {
            are_few(&self.purged);
            return Ok(None);
        }
        let purged = self.purged.joined(alloc, change.purged())?;
        Ok(Some(purged))
    }
}

/// Whether a change joins nothing into a vector, and has the own cursor there, unless it uses no number.
fn raises_at_most_own(vector: &Vector, inv: Guid, change: &Change) -> bool
    ensures { result ≡ raises_at_most_own vector.now inv change.now }
{
    change.joined().len() == 0 && (change.usn() == 0 || vector.at(inv) > 0)
}

/// Another vector takes the place of this one, if there is one; else the own cursor is raised.
fn renew_seen(vector: &mut Vector, other: Option<Vector>, inv: Guid, change: &Change)
    requires { IfNone other (raises_at_most_own vector.old inv change.now ≡ true) }
    ensures { vector.new
        ≡ unwrap_or other (raised (joined vector.old change.now.joined) inv change.now.usn) }
{
    match other {
        Some(other) => *vector = other,
        None => vector.raise_known(inv, change.usn()),
    }
}

/// Another vector takes the place of this one, if there is one.
fn renew(vector: &mut Vector, other: Option<Vector>)
    ensures { vector.new ≡ unwrap_or other vector.old }
{
    if let Some(other) = other {
        *vector = other;
    }
}

/// Other times take the place of these, if there are others.
fn renew_times(times: &mut Times, other: Option<Times>)
    ensures { times.new ≡ unwrap_or other times.old }
{
    if let Some(other) = other {
        *times = other;
    }
}

/// A vector has few enough cursors.
fn are_few(vector: &Vector)
    ensures { length vector.now ≤ cursor_limit }
{
    vector.cursors();
}
