//! What clients have controllers do.

ghost use Rattle.std.specs.Prelude.{◌≡◌, IfOk, OnErr};
ghost use Rattle.adr_law_recorded.specs.Typed.{IsTypedCall};
ghost use Rattle.adr_model.specs.Client.{IsWellAsked, call_meant};
ghost use Rattle.adr_model.specs.World.{does};
ghost use Rattle.adr_run_world.specs.Run.{IsTidy, world_of};

use crate::run::Run;
use adr_call::{Call, Outcome};
use adr_values::{NoMemory, Text};
use std::alloc::Global;

impl Run {
    /// What a controller is answered that does what a client calls for.
    pub fn called(&mut self, alloc: Global, name: &Text, what: &Call) -> Result<Outcome, NoMemory>
        requires tidy { IsTidy self.old }
        requires given { IsWellAsked what.now }
        requires typed { IsTypedCall what.now }
        ensures called { IfOk result (λ outcome. let w = world_of self.old in does w name.now (call_meant what.now w.time) ≡ (world_of self.new, outcome)) }
        ensures err { OnErr result (world_of self.new ≡ world_of self.old) }
        ensures tidy { IsTidy self.new }
    {
        let Some(place) = self.place_of(name) else {
            return Ok(Outcome::Absent);
        };
        self.controllers[place].call(alloc, &mut self.past, what, self.time)
    }
}
