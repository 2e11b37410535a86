//! New controllers.

ghost use Rattle.std.specs.Prelude.{◌≡◌, ◌+◌, ◌≤◌, ◌++◌, ◌∷◌, [], codes, vec_len, IfOk, OnErr};
ghost use Rattle.std.specs.Vec.{vec_capacity};
ghost use Rattle.adr_call.specs.declared.event.Coming.TheVariants.{Fresh};
ghost use Rattle.adr_wire.specs.Ranges.{IsId};
ghost use Rattle.adr_model.specs.Convergence.{IsNewName};
ghost use Rattle.adr_model.specs.Replica.{Up, begun};
ghost use Rattle.adr_model.specs.Step.{comes, gives};
ghost use Rattle.adr_run_world.specs.Run.{IsTidy, world_of};

use crate::lists::put;
use crate::run::Run;
use adr_call::Outcome;
use adr_run_replica::{Past, Replica};
use adr_values::{Guid, NoMemory, Text};
use std::alloc::Global;

/// Begins the incarnation of a controller that is up, and gives its invocation identifier.
pub fn begin_in(past: &mut Past, controller: &Replica) -> Guid
    requires { controller.now.standing ≡ Up }
    ensures past { past.new ≡ record past.old { book = begun past.old.book controller.now.safe } }
    ensures inv { result ≡ controller.now.safe.inv }
{
    match controller.state() {
        Ok(state) => {
            past.begin(state);
            state.inv()
        }
        Err(_) => unreachable!(),
    }
}

impl Run {
    /// What is answered where a new, empty controller comes, under a new name.
    pub fn controller(
        &mut self,
        alloc: Global,
        name: &Text,
        dsa: Guid,
        inv: Guid,
    ) -> Result<Outcome, NoMemory>
        requires tidy { IsTidy self.old }
        requires dsa { IsId dsa }
        requires inv { IsId inv }
        requires new { IsNewName (world_of self.old) name.now }
        ensures done { IfOk result (λ outcome.
            comes (world_of self.old) name.now inv (Fresh dsa) ≡ (world_of self.new, outcome)) }
        ensures err { OnErr result (world_of self.new ≡ world_of self.old) }
        ensures tidy { IsTidy self.new }
    {
        self.controllers.reserve(1)?;
        let name = name.copy(alloc)?;
        let controller = Replica::new(alloc, name, dsa, inv)?;
        self.begin(controller);
        Ok(Outcome::Ok)
    }

    /// A controller comes, where there is room for it.
    pub fn begin(&mut self, controller: Replica)
        requires room { vec_len self.old.controllers + 1 ≤ vec_capacity self.old.controllers }
        requires up { controller.standing ≡ Up }
        ensures world { let v = gives (world_of self.old) (controller.safe.dsa ∷ []) (controller.safe.inv ∷ []) in
            world_of self.new ≡ record v { book = begun v.book controller.safe; replicas = v.replicas ++ controller ∷ [] } }
        ensures items { self.new.controllers.items ≡ self.old.controllers.items ++ controller ∷ [] }
        ensures requests { self.new.requests ≡ self.old.requests }
        ensures replies { self.new.replies ≡ self.old.replies }
    {
        let inv = begin_in(&mut self.past, &controller);
        self.past.give(controller.dsa(), inv);
        put(&mut self.controllers, controller);
    }
}
