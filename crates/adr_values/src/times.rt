//! Moments beside a vector.

ghost use Rattle.std.specs.Prelude.{◌≡◌, ◌↔◌, [], ◌∷◌, ◌++◌, IfOk, IsTrue, OnOk};
ghost use Rattle.std.specs.List.Sorted.{IsStrictlySortedBy};
ghost use Rattle.std.specs.Map.{keys_of};
ghost use Rattle.std.specs.BTreeMap.{insert_entry};
ghost use Rattle.adr_values.specs.Order.{identifier_order};
ghost use Rattle.adr_values.specs.Vector.{at, joined};
ghost use Rattle.adr_values.specs.Times.{AreMoments, others, told_at_now};

use crate::failure::NoMemory;
use crate::guid::Guid;
use crate::merging::merge;
use crate::searching::search;
use crate::walking::Walk;
use std::alloc::Global;
use std::marker::Model;

/// When each incarnation was last read whole, in seconds, where that is known (after MS-DRSR, UPTODATE_VECTOR_V2_EXT). A
/// contract sees them as a list that rises by identifier.
#[derive(Drop)]
pub struct Times {
    moments: Vec<(Guid, u64)>,
}

impl Model for Times {
    ghost use Rattle.adr_values.specs.Vector.{Cursors};
    ghost use Rattle.adr_values.specs.Times.{AreMoments};

    ghost Value = { Cursors };

    ghost view = { λ t. t.moments.items };

    ghost invariant = { λ t. AreMoments t.moments.items };
}

impl Times {
    /// No time is known.
    pub fn new(alloc: Global) -> Times
        ensures { result ≡ [] }
    {
        Times {
            moments: Vec::new(alloc),
        }
    }

    /// These moments.
    pub fn of(moments: Vec<(Guid, u64)>) -> Times
        requires { AreMoments moments.items }
        ensures { result ≡ moments.items }
    {
        Times { moments }
    }

    pub fn is_empty(&self) -> bool
        ensures { IsTrue result ↔ (self.now ≡ []) }
    {
        self.moments.is_empty()
    }

    /// When an incarnation was last read whole, 0 where that isn't known.
    pub fn at(&self, inv: Guid) -> u64
        ensures { result ≡ at self.now inv }
    {
        match search(&self.moments, inv) {
            Ok(place) => self.moments[place].1,
            Err(_) => 0,
        }
    }

    /// The later moment of both, of each incarnation.
    pub fn joined(&self, alloc: Global, other: &Times) -> Result<Times, NoMemory>
        ensures { IfOk result (λ both. both ≡ joined self.now other.now) }
    {
        Ok(Times {
            moments: merge(alloc, &self.moments, &other.moments)?,
        })
    }

    /// These times, with the present moment in place of what is known of one incarnation; none of it where the moment is 0.
    pub fn told(&self, alloc: Global, inv: Guid, now: u64) -> Result<Times, NoMemory>
        ensures { IfOk result (λ times. times ≡ told_at_now self.now inv now) }
    {
        if now == 0 {
            let moments = others(alloc, &self.moments, inv)?;
            return Ok(Times { moments });
        }
        let mut moments = Vec::from_slice(alloc, &self.moments)?;
        put(&mut moments, inv, now)?;
        Ok(Times { moments })
    }

    /// The identifiers with their moments, rising by identifier.
    pub fn moments(&self) -> &[(Guid, u64)]
        ensures { result.now ≡ self.now }
    {
        &self.moments
    }

    /// A walk along the moments, at identifiers that rise.
    pub fn walk(&self) -> Walk<'_>
        ensures { result ≡ self.now }
    {
        Walk::new(&self.moments)
    }

    /// Equal times.
    pub fn copy(&self, alloc: Global) -> Result<Times, NoMemory>
        ensures { IfOk result (λ copy. copy ≡ self.now) }
    {
        Ok(Times {
            moments: Vec::from_slice(alloc, &self.moments)?,
        })
    }
}

/// Moments but that of one incarnation.
fn others(alloc: Global, moments: &[(Guid, u64)], inv: Guid) -> Result<Vec<(Guid, u64)>, NoMemory>
    ensures { IfOk result (λ rest. rest.items ≡ others moments.now inv) }
{
    let mut rest = Vec::with_capacity(alloc, moments.len())?;
    for moment in moments {
        push_other(&mut rest, moment, inv)?;
    }
    Ok(rest)
}

/// One more moment, unless it is that of the incarnation.
fn push_other(rest: &mut Vec<(Guid, u64)>, moment: &(Guid, u64), inv: Guid) -> Result<(), NoMemory>
    ensures { OnOk result (rest.new.items ≡ rest.old.items ++ others (moment.now ∷ []) inv) }
{
    if !moment.0.cmp(&inv).is_eq() {
        rest.push(*moment)?;
    }
    Ok(())
}

/// Puts a moment in the place of what is known of an incarnation.
fn put(moments: &mut Vec<(Guid, u64)>, inv: Guid, now: u64) -> Result<(), NoMemory>
    requires { IsStrictlySortedBy identifier_order (keys_of moments.old.items) }
    ensures { OnOk result (moments.new.items ≡ insert_entry identifier_order moments.old.items inv now) }
{
    match search(moments, inv) {
        Ok(place) => moments[place] = (inv, now),
        Err(place) => moments.insert(place, (inv, now))?,
    }
    Ok(())
}
