//! Controllers that stop, fail and start.

ghost use Rattle.std.specs.Prelude.{◌≡◌, IfOk, OnErr};
ghost use Rattle.adr_call.specs.declared.event.Event.TheVariants.{Meets};
ghost use Rattle.adr_call.specs.declared.event.Meeting.TheVariants.{Start};
ghost use Rattle.adr_disk.specs.declared.memory.Mishap.TheVariants.{Fails, Stops};
ghost use Rattle.adr_model.specs.World.{of_made, replica_at, starts, stays, stops, with_plan};
ghost use Rattle.adr_run_world.specs.Run.{IsTidy, world_of};
ghost use Rattle.adr_run_world.specs.Short.{IsCutShort};

use crate::run::Run;
use adr_call::{Crash, Outcome};
use adr_values::{NoMemory, Text};

impl Run {
    /// What is answered where a controller stops, with everything on its disk.
    pub fn stop(&mut self, name: &Text) -> Outcome
        requires { IsTidy self.old }
        ensures done { let w = world_of self.old in
            of_made (stays w) (replica_at w name.now) (λ r. stops w r) ≡ (world_of self.new, result) }
        ensures tidy { IsTidy self.new }
    {
        let Some(place) = self.place_of(name) else {
            return Outcome::Absent;
        };
        self.controllers[place].stop(&mut self.past);
        Outcome::Ok
    }

    /// What is answered where a controller's disk will stop within the device call behind so many further ones.
    pub fn stop_after(&mut self, name: &Text, calls: u32, how: Crash) -> Outcome
        requires { IsTidy self.old }
        ensures done { let w = world_of self.old in
            of_made (stays w) (replica_at w name.now) (λ r. with_plan w r (record { calls = calls; mishap = Stops how })) ≡ (world_of self.new, result) }
        ensures tidy { IsTidy self.new }
    {
        let Some(place) = self.place_of(name) else {
            return Outcome::Absent;
        };
        self.controllers[place].stop_after(calls, how);
        Outcome::Ok
    }

    /// What is answered where the device call behind so many further ones of a controller's disk will fail.
    pub fn fail_after(&mut self, name: &Text, calls: u32) -> Outcome
        requires { IsTidy self.old }
        ensures done { let w = world_of self.old in
            of_made (stays w) (replica_at w name.now) (λ r. with_plan w r (record { calls = calls; mishap = Fails })) ≡ (world_of self.new, result) }
        ensures tidy { IsTidy self.new }
    {
        let Some(place) = self.place_of(name) else {
            return Outcome::Absent;
        };
        self.controllers[place].fail_after(calls);
        Outcome::Ok
    }

    /// What is answered where a controller is started from its disk.
    pub fn start(&mut self, name: &Text) -> Result<Outcome, NoMemory>
        requires { IsTidy self.old }
        ensures done { IfOk result (λ outcome. let w = world_of self.old in
            of_made (stays w) (replica_at w name.now) (λ r. starts w r r.standing) ≡ (world_of self.new, outcome)) }
        ensures err { OnErr result (IsCutShort (world_of self.old) (Meets name.now Start) (world_of self.new)) }
        ensures tidy { IsTidy self.new }
    {
        let Some(place) = self.place_of(name) else {
            return Ok(Outcome::Absent);
        };
        self.controllers[place].start(&mut self.past)
    }
}
