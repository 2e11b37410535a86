//! Up-to-dateness vectors.

ghost use Rattle.std.specs.Prelude.{◌≡◌, ◌≢◌, ◌<◌, ◌≤◌, ◌↔◌, ◌+◌, ℕ, List, [], length, max, nat_lt, IsTrue, IsNone, IfOk, IfErr, IfSome, OnOk, OnErr, IsErrOf, true};
ghost use Rattle.std.specs.declared.cmp.Ordering.TheVariants.{Less};
ghost use Rattle.adr_values.specs.Order.{identifier_order};
ghost use Rattle.adr_values.specs.Vector.{Cursors, IsVector, at, covers, at_most, first_gap, raised, joined, cursor_limit};
ghost use Rattle.adr_values.specs.Place.{IsAt, IsGapFor};
ghost use Rattle.adr_values.specs.Refusal.{full};

use crate::failure::{Failure, NoMemory};
use crate::guid::Guid;
use crate::merging::{count, merge};
use crate::searching::search;
use crate::walking::Walk;
use std::alloc::Global;
use std::marker::Model;
use thiserror::Error;

/// How many cursors a vector has at most: `cursor_limit` of the definitions.
pub const CURSOR_LIMIT: u64 = 10_000;

/// There would be more cursors than a vector has at most.
#[derive(Clone, Copy, Debug, Error)]
#[error("Full table=Cursors limit={}", CURSOR_LIMIT)]
pub struct Full;

/// What has been seen: for each invocation identifier the update sequence number up to which all was seen (MS-DRSR,
/// UPTODATE_VECTOR_V1_EXT). A contract sees a vector as the list of its cursors, rising by identifier.
#[derive(Drop)]
pub struct Vector {
    cursors: Vec<(Guid, u64)>,
}

impl Model for Vector {
    ghost use Rattle.adr_values.specs.Vector.{Cursors, IsVector};

    ghost Value = { Cursors };

    ghost view = { λ v. v.cursors.items };

    ghost invariant = { λ v. IsVector v.cursors.items };
}

impl Vector {
    /// The vector of one who has seen nothing.
    pub fn new(alloc: Global) -> Vector
        ensures { result ≡ [] }
    {
        Vector {
            cursors: Vec::new(alloc),
        }
    }

    /// The vector of these cursors.
    pub fn of(cursors: Vec<(Guid, u64)>) -> Vector
        requires { IsVector cursors.items }
        ensures { result ≡ cursors.items }
    {
        Vector { cursors }
    }

    /// The identifiers with their numbers, rising by identifier.
    pub fn cursors(&self) -> &[(Guid, u64)]
        ensures all { result.now ≡ self.now }
        ensures vector { IsVector self.now }
    {
        &self.cursors
    }

    /// Identifiers rise, each has a number above 0, and there are few enough.
    pub fn is_vector(&self)
        ensures { IsVector self.now }
    {
        // A body that reads a vector is told that it is one; an empty body is not.
        let _cursors = &self.cursors;
    }

    pub fn len(&self) -> usize
        ensures { result ≡ length self.now }
    {
        self.cursors.len()
    }

    pub fn is_empty(&self) -> bool
        ensures { IsTrue result ↔ (self.now ≡ []) }
    {
        self.cursors.is_empty()
    }

    /// The number at an identifier, 0 where it has no cursor.
    pub fn at(&self, inv: Guid) -> u64
        ensures { result ≡ at self.now inv }
    {
        match self.search(inv) {
            Ok(place) => self.cursors[place].1,
            Err(_) => 0,
        }
    }

    /// Whether the write of this number has been seen.
    pub fn covers(&self, inv: Guid, usn: u64) -> bool
        ensures { result ≡ covers self.now inv usn }
    {
        usn <= self.at(inv)
    }

    /// Whether there would be too many cursors with the number at one identifier brought up to this one.
    pub fn is_full_for(&self, inv: Guid, usn: u64) -> bool
        ensures { result ≡ nat_lt cursor_limit (length (raised self.now inv usn)) }
    {
        match self.search(inv) {
            Ok(_) => false,
            Err(_) => usn > 0 && self.cursors.len() as u64 >= CURSOR_LIMIT,
        }
    }

    /// The least identifier at which this vector is above the other, with the number of the other there and its own.
    pub fn first_gap(&self, other: &Vector) -> Option<(Guid, u64, u64)>
        ensures value { result ≡ first_gap self.now other.now }
        ensures none { IsNone result ↔ (at_most self.now other.now ≡ true) }
        ensures theirs { IfSome result (λ gap. gap.1 ≡ at other.now gap.0) }
        ensures own { IfSome result (λ gap. gap.2 ≡ at self.now gap.0) }
        ensures above { IfSome result (λ gap. gap.1 < gap.2) }
        ensures least { IfSome result (λ gap. (inv : List ℕ) → identifier_order inv gap.0 ≡ Less
            → at self.now inv ≤ at other.now inv) }
    {
        self.search_gap(other)
    }

    /// How many cursors there are of this one and the other as one.
    pub fn len_joined(&self, other: &Vector) -> usize
        ensures both { result ≡ length (joined self.now other.now) }
        ensures few { result ≤ cursor_limit + cursor_limit }
    {
        count(&self.cursors, &other.cursors)
    }

    /// What this one or the other has seen, as a vector of its own.
    pub fn joined(&self, alloc: Global, other: &Vector) -> Result<Vector, Failure<Full>>
        ensures ok { IfOk result (λ both. both ≡ joined self.now other.now) }
        ensures everywhere { IfOk result (λ both. (inv : List ℕ)
            → at both inv ≡ max (at self.now inv) (at other.now inv)) }
        ensures full { IsErrOf result full ↔ (cursor_limit < length (joined self.now other.now)) }
    {
        if self.is_full_with(other) {
            return Err(Failure::Refused(Full));
        }
        let cursors = merge(alloc, &self.cursors, &other.cursors)?;
        Ok(Vector { cursors })
    }

    /// Brings the number at one identifier up to this one. A number that is 0, or that has been seen, changes nothing.
    pub fn raise(&mut self, inv: Guid, usn: u64) -> Result<(), Failure<Full>>
        ensures ok { OnOk result (self.new ≡ raised self.old inv usn) }
        ensures here { OnOk result (at self.new inv ≡ max (at self.old inv) usn) }
        ensures elsewhere { OnOk result ((other : List ℕ) → other ≢ inv → at self.new other ≡ at self.old other) }
        ensures full { IsErrOf result full ↔ (cursor_limit < length (raised self.old inv usn)) }
        ensures err { OnErr result (self.new ≡ self.old) }
    {
        match self.search(inv) {
            Ok(place) => {
                self.raise_at(place, inv, usn);
                Ok(())
            }
            Err(place) => self.enter(place, inv, usn),
        }
    }

    /// Brings the number at one identifier up to this one, where that needs no new cursor and so no memory.
    pub fn raise_known(&mut self, inv: Guid, usn: u64)
        requires { usn ≢ 0 → at self.old inv ≢ 0 }
        ensures { self.new ≡ raised self.old inv usn }
    {
        if let Ok(place) = self.search(inv) {
            self.raise_at(place, inv, usn);
        }
    }

    /// An equal vector.
    pub fn copy(&self, alloc: Global) -> Result<Vector, NoMemory>
        ensures { IfOk result (λ copy. copy ≡ self.now) }
    {
        Ok(Vector {
            cursors: Vec::from_slice(alloc, &self.cursors)?,
        })
    }
}

impl Vector {
    /// Where the identifier stands, or where it would.
    fn search(&self, inv: Guid) -> Result<usize, usize>
        ensures found { IfOk result (IsAt self.now inv) }
        ensures gap { IfErr result (IsGapFor self.now inv) }
        ensures vector { IsVector self.now }
    {
        search(&self.cursors, inv)
    }

    /// Whether there would be too many cursors of this one and the other as one.
    fn is_full_with(&self, other: &Vector) -> bool
        ensures { result ≡ nat_lt cursor_limit (length (joined self.now other.now)) }
    {
        let most = self.cursors.len() + other.cursors.len();
        most as u64 > CURSOR_LIMIT && self.len_joined(other) as u64 > CURSOR_LIMIT
    }

    fn search_gap(&self, other: &Vector) -> Option<(Guid, u64, u64)>
        ensures gap { result ≡ first_gap self.now other.now }
        ensures vector { IsVector self.now }
    {
        let mut walk = Walk::new(&other.cursors);
        for (inv, usn) in &self.cursors {
            let theirs = walk.at(*inv);
            if theirs < *usn {
                return Some((*inv, theirs, *usn));
            }
        }
        None
    }

    /// Brings up the number of a cursor that is there.
    fn raise_at(&mut self, place: usize, inv: Guid, usn: u64)
        requires { IsAt self.old inv place }
        ensures raised { self.new ≡ raised self.old inv usn }
        ensures few { length self.new ≤ cursor_limit }
    {
        if self.cursors[place].1 < usn {
            self.cursors[place] = (inv, usn);
        }
    }

    /// Puts a cursor where its identifier would stand.
    fn enter(&mut self, place: usize, inv: Guid, usn: u64) -> Result<(), Failure<Full>>
        requires { IsGapFor self.old inv place }
        ensures ok { OnOk result (self.new ≡ raised self.old inv usn) }
        ensures full { IsErrOf result full ↔ (cursor_limit < length (raised self.old inv usn)) }
        ensures err { OnErr result (self.new ≡ self.old) }
    {
        let is_nothing = usn == 0;
        let is_full = self.cursors.len() as u64 >= CURSOR_LIMIT;
        if is_nothing {
            return Ok(());
        }
        if is_full {
            return Err(Failure::Refused(Full));
        }
        self.cursors.insert(place, (inv, usn))?;
        Ok(())
    }
}

/// How much of an incarnation one of two vectors has seen.
pub fn seen_by_both(one: &Vector, other: &Vector, inv: Guid) -> u64
    ensures { result ≡ at (joined one.now other.now) inv }
{
    other.is_vector();
    one.at(inv).max(other.at(inv))
}

/// Two vectors with the same number at every identifier are one vector.
pub fn vectors_are_their_numbers()
    ensures { (v w : Cursors) → IsVector v → IsVector w → ((inv : List ℕ) → at v inv ≡ at w inv) → v ≡ w }
{}
