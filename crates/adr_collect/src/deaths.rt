//! The deaths that are collected.

ghost use Rattle.std.specs.Prelude.{◌≡◌, ◌+◌, ◌++◌, [], IfOk, IfSome, OnOk, map, nat_le, true};
ghost use Rattle.std.specs.List.{cons_option};
ghost use Rattle.adr_values.specs.Vector.{at, covers, raised};
ghost use Rattle.adr_model.specs.Reflects.{AtMost};
ghost use Rattle.adr_model.specs.Update.{inv_of, usn_of};
ghost use Rattle.adr_model.specs.Visible.{covers_birth, covers_update};
ghost use Rattle.adr_model.specs.Collect.{collected_by, covering, deaths_to_collect};
ghost use Rattle.adr_collect.specs.Covering.{covering_with};

use crate::NoMemory;
use adr_call::Failure;
use adr_state::{Oid, State, Update, Vector, covers_birth, covers_update};
use adr_values::Guid;
use std::alloc::{AllocError, Global};

/// The objects that go, and the least vector that covers their births and deaths.
#[derive(Drop)]
pub struct Dead {
    pub objects: Vec<Oid>,
    pub covering: Vector,
}

/// The dead objects that go at a time and after a lifetime, both in seconds.
#[tactic(auto, using(crate::proofs::Gathering::deaths_alone))]
pub fn dead_to_collect(
    alloc: Global,
    state: &State,
    now: u64,
    lifetime: u64,
) -> Result<Dead, NoMemory>
    ensures objects { IfOk result (λ dead. dead.objects.items ≡ map (λ d. d.0) (deaths_to_collect state.now now lifetime)) }
    ensures covering { IfOk result (λ dead. dead.covering ≡ covering (deaths_to_collect state.now now lifetime)) }
{
    let deaths = state.rows().deaths(alloc)?;
    let mut dead = Dead {
        objects: Vec::new(alloc),
        covering: Vector::new(alloc),
    };
    for row in deaths {
        dead.add(state.vector(), now, lifetime, row.update())?;
    }
    Ok(dead)
}

impl Dead {
    /// Adds the object of a death, if it may be collected.
    fn add(
        &mut self,
        seen: &Vector,
        now: u64,
        lifetime: u64,
        death: &Update,
    ) -> Result<(), NoMemory>
        requires { AtMost (at self.old.covering) (at seen.now) }
        ensures objects { OnOk result (self.new.objects.items
            ≡ self.old.objects.items ++ cons_option (collected_by seen.now now lifetime death.now) []) }
        ensures covering { OnOk result (self.new.covering
            ≡ covering_with self.old.covering death.now (collected_by seen.now now lifetime death.now)) }
        ensures within { OnOk result (AtMost (at self.new.covering) (at seen.now)) }
    {
        let Some(object) = collected_by(seen, now, lifetime, death) else {
            return Ok(());
        };
        cover(&mut self.covering, seen, &object, death)?;
        self.objects.push(object)?;
        Ok(())
    }
}

/// The dead object of a death that may be collected.
fn collected_by(vector: &Vector, now: u64, lifetime: u64, update: &Update) -> Option<Oid>
    ensures dead { result ≡ collected_by vector.now now lifetime update.now }
    ensures birth { IfSome result (λ o. covers_birth vector.now o ≡ true) }
    ensures death { IfSome result (λ o. covers_update vector.now update.now ≡ true) }
{
    let object = update.key().killed()?;
    if covers_birth(vector, &object)
        && covers_update(vector, update)
        && is_over(update.stamp().stamp.time, lifetime, now)
    {
        Some(object)
    } else {
        None
    }
}

/// Whether a lifetime that began at a time is over.
fn is_over(time: u64, lifetime: u64, now: u64) -> bool
    ensures { result ≡ nat_le (time + lifetime) now }
{
    lifetime <= now && time <= now - lifetime
}

/// Brings a vector up to the birth of an object and to its death, which another vector covers.
fn cover(vector: &mut Vector, seen: &Vector, object: &Oid, death: &Update) -> Result<(), NoMemory>
    requires within { AtMost (at vector.old) (at seen.now) }
    requires birth { covers_birth seen.now object.now ≡ true }
    requires death { covers_update seen.now death.now ≡ true }
    ensures raised { OnOk result (vector.new
        ≡ raised (raised vector.old object.now.birth.inv object.now.birth.usn) (inv_of death.now) (usn_of death.now)) }
    ensures within { OnOk result (AtMost (at vector.new) (at seen.now)) }
{
    raise(vector, seen, object.birth.inv, object.birth.usn)?;
    let stamp = death.stamp().stamp;
    raise(vector, seen, stamp.inv, stamp.usn)
}

/// Brings up one number, which another vector covers. There are never too many cursors: the other one has them all.
#[tactic(auto, using(crate::proofs::Within::raised_within, crate::proofs::Within::raised_few))]
fn raise(vector: &mut Vector, seen: &Vector, inv: Guid, usn: u64) -> Result<(), NoMemory>
    requires within { AtMost (at vector.old) (at seen.now) }
    requires covered { covers seen.now inv usn ≡ true }
    ensures raised { OnOk result (vector.new ≡ raised vector.old inv usn) }
    ensures within { OnOk result (AtMost (at vector.new) (at seen.now)) }
{
    vector.is_vector();
    seen.is_vector();
    match vector.raise(inv, usn) {
        Ok(()) => Ok(()),
        Err(Failure::NoMemory) => Err(AllocError),
        Err(Failure::Refused(_)) => unreachable!(),
    }
}
