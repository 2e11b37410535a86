//! What controllers tell.

ghost use Rattle.std.specs.Prelude.{◌≡◌, IfOk};
ghost use Rattle.adr_model.specs.World.{of_controller, reported, stays};
ghost use Rattle.adr_run_world.specs.Run.{IsSoundRun, world_of};

use crate::run::Run;
use adr_call::{Outcome, Report};
use adr_values::{NoMemory, Text};
use adr_view::{formed_rows_have_back_links, report};
use std::alloc::Global;

impl Run {
    /// What a client is answered that asks a controller for a report.
    pub fn reported(&self, alloc: Global, name: &Text, what: Report) -> Result<Outcome, NoMemory>
        requires { IsSoundRun self.now }
        ensures { IfOk result (λ outcome. let w = world_of self.now in
            of_controller w name.now (stays w) (λ r. (w, reported w r.safe what)) ≡ (w, outcome)) }
    {
        let Some(place) = self.place_of(name) else {
            return Ok(Outcome::Absent);
        };
        match self.controllers[place].state() {
            Ok(state) => {
                formed_rows_have_back_links();
                report(alloc, what, state)
            }
            Err(other) => Ok(other),
        }
    }
}
