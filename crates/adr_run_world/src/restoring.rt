//! Images of controllers, and controllers that come of them.

ghost use Rattle.std.specs.Prelude.{◌≡◌, ◌<◌, ◌∷◌, [], codes, length, slice_set, IfOk, IsErrOf, OnErr};
ghost use Rattle.adr_call.specs.declared.outcome.Outcome.{Outcome};
ghost use Rattle.adr_call.specs.declared.event.Coming.TheVariants.{Installed, Restored};
ghost use Rattle.adr_call.specs.declared.event.Made.TheVariants.{Backup};
ghost use Rattle.adr_wire.specs.Ranges.{IsId};
ghost use Rattle.adr_model.specs.Convergence.{IsNewName, IsUnbound};
ghost use Rattle.adr_model.specs.Replica.{Up, begun};
ghost use Rattle.adr_model.specs.Step.{comes, gives, makes};
ghost use Rattle.adr_run_world.specs.Adopted.{AdoptsBound, UnadoptedBound};
ghost use Rattle.adr_run_world.specs.Run.{IsTidy, world_of};

use crate::coming::begin_in;
use crate::lists::replace;
use crate::run::Run;
use adr_call::{Failure, Outcome};
use adr_run_replica::Replica;
use adr_values::{Guid, NoMemory, Text};
use std::alloc::{AllocError, Global};

impl Run {
    /// What is answered where the image of a controller is bound to a name.
    pub fn backup(&mut self, alloc: Global, name: &Text, bound: &Text) -> Result<Outcome, NoMemory>
        requires tidy { IsTidy self.old }
        requires unbound { IsUnbound (world_of self.old).images bound.now }
        ensures done { IfOk result (λ outcome.
            makes (world_of self.old) name.now Backup bound.now ≡ (world_of self.new, outcome)) }
        ensures err { OnErr result (world_of self.new ≡ world_of self.old) }
        ensures tidy { IsTidy self.new }
    {
        let Some(place) = self.place_of(name) else {
            return Ok(Outcome::Absent);
        };
        let sent = self.controllers[place].backup(alloc)?;
        self.images.bind(alloc, bound, sent)
    }

    /// What is answered where an image is adopted as a controller, under a fresh invocation identifier.
    pub fn restore(
        &mut self,
        alloc: Global,
        name: &Text,
        image: &Text,
        inv: Guid,
    ) -> Result<Outcome, NoMemory>
        requires tidy { IsTidy self.old }
        requires inv { IsId inv }
        ensures done { IfOk result (λ outcome.
            comes (world_of self.old) name.now inv (Restored image.now) ≡ (world_of self.new, outcome)) }
        ensures err { OnErr result (world_of self.new ≡ world_of self.old) }
        ensures tidy { IsTidy self.new }
    {
        let Some(place) = self.place_of(name) else {
            self.past.give_inv(inv);
            return Ok(Outcome::Absent);
        };
        let dsa = self.controllers[place].dsa();
        match self.adopted(alloc, name, image, dsa, inv) {
            Ok(controller) => {
                self.begin_at(place, controller);
                Ok(Outcome::Ok)
            }
            Err(Failure::Refused(outcome)) => {
                self.past.give_inv(inv);
                Ok(outcome)
            }
            Err(Failure::NoMemory) => Err(AllocError),
        }
    }

    /// What is answered where an image is adopted as a new controller, under a new name.
    pub fn install(
        &mut self,
        alloc: Global,
        name: &Text,
        dsa: Guid,
        image: &Text,
        inv: Guid,
    ) -> Result<Outcome, NoMemory>
        requires tidy { IsTidy self.old }
        requires dsa { IsId dsa }
        requires inv { IsId inv }
        requires new { IsNewName (world_of self.old) name.now }
        ensures done { IfOk result (λ outcome.
            comes (world_of self.old) name.now inv (Installed dsa image.now) ≡ (world_of self.new, outcome)) }
        ensures err { OnErr result (world_of self.new ≡ world_of self.old) }
        ensures tidy { IsTidy self.new }
    {
        self.controllers.reserve(1)?;
        match self.adopted(alloc, name, image, dsa, inv) {
            Ok(controller) => {
                self.begin(controller);
                Ok(Outcome::Ok)
            }
            Err(Failure::Refused(outcome)) => {
                self.past.give(dsa, inv);
                Ok(outcome)
            }
            Err(Failure::NoMemory) => Err(AllocError),
        }
    }

    /// A controller on a new disk that adopts the image bound to a name, or what is answered.
    fn adopted(
        &self,
        alloc: Global,
        name: &Text,
        image: &Text,
        dsa: Guid,
        inv: Guid,
    ) -> Result<Replica, Failure<Outcome>>
        requires dsa { IsId dsa }
        requires inv { IsId inv }
        ensures made { IfOk result (AdoptsBound (world_of self.now).images image.now name.now dsa inv) }
        ensures up { IfOk result (λ made.
            (made.name ≡ name.now) × (made.standing ≡ Up) × (made.safe.dsa ≡ dsa) × (made.safe.inv ≡ inv)) }
        ensures other { (outcome : Outcome) → IsErrOf result (Failure.Refused outcome)
            → UnadoptedBound (world_of self.now).images image.now name.now dsa inv outcome }
    {
        let Some(image) = self.images.get(image) else {
            return Err(Failure::Refused(Outcome::Absent));
        };
        let name = name.copy(alloc)?;
        Replica::adopted(alloc, name, image, dsa, inv)
    }

    /// A controller comes in place of the one of its name.
    fn begin_at(&mut self, place: usize, controller: Replica)
        requires place { place < length self.old.controllers.items }
        requires up { controller.standing ≡ Up }
        ensures world { let v = gives (world_of self.old) [] (controller.safe.inv ∷ []) in
            world_of self.new ≡ record v { book = begun v.book controller.safe; replicas = slice_set v.replicas place controller } }
        ensures items { self.new.controllers.items ≡ slice_set self.old.controllers.items place controller }
        ensures requests { self.new.requests ≡ self.old.requests }
        ensures replies { self.new.replies ≡ self.old.replies }
    {
        let inv = begin_in(&mut self.past, &controller);
        self.past.give_inv(inv);
        replace(&mut self.controllers, place, controller);
    }
}
