//! Disks that are put aside, and put back.

ghost use Rattle.std.specs.Prelude.{◌≡◌, codes, IfOk, OnErr};
ghost use Rattle.adr_call.specs.declared.event.Made.TheVariants.{Snapshot};
ghost use Rattle.adr_model.specs.Convergence.{IsUnbound};
ghost use Rattle.adr_model.specs.Step.{makes};
ghost use Rattle.adr_model.specs.World.{bound_at, of_made, put_back, replica_at, stays};
ghost use Rattle.adr_run_world.specs.Run.{IsTidy, world_of};

use crate::lists::replace;
use crate::run::Run;
use adr_call::Outcome;
use adr_run_replica::Replica;
use adr_values::{NoMemory, Text};
use std::alloc::Global;

impl Run {
    /// What is answered where the bytes of a controller's disk are bound to a name.
    pub fn snapshot(
        &mut self,
        alloc: Global,
        name: &Text,
        bound: &Text,
    ) -> Result<Outcome, NoMemory>
        requires tidy { IsTidy self.old }
        requires unbound { IsUnbound (world_of self.old).snapshots bound.now }
        ensures done { IfOk result (λ outcome.
            makes (world_of self.old) name.now Snapshot bound.now ≡ (world_of self.new, outcome)) }
        ensures err { OnErr result (world_of self.new ≡ world_of self.old) }
        ensures tidy { IsTidy self.new }
    {
        let Some(place) = self.place_of(name) else {
            return Ok(Outcome::Absent);
        };
        let snapshot = self.controllers[place].snapshot(alloc)?;
        self.snapshots
            .bind(alloc, bound, (Outcome::Ok, Some(snapshot)))
    }

    /// What is answered where a snapshot is put back as a controller's disk, with no fresh identifier. From here on the world
    /// isn't clean.
    pub fn put_back(
        &mut self,
        alloc: Global,
        name: &Text,
        snapshot: &Text,
    ) -> Result<Outcome, NoMemory>
        requires { IsTidy self.old }
        ensures done { IfOk result (λ outcome. let w = world_of self.old in
            of_made (stays w) (replica_at w name.now) (λ r. put_back w name.now (bound_at w.snapshots snapshot.now)) ≡ (world_of self.new, outcome)) }
        ensures err { OnErr result (world_of self.new ≡ world_of self.old) }
        ensures tidy { IsTidy self.new }
    {
        let Some(place) = self.place_of(name) else {
            return Ok(Outcome::Absent);
        };
        let Some(snapshot) = self.snapshots.get(snapshot) else {
            return Ok(Outcome::Absent);
        };
        let name = name.copy(alloc)?;
        let controller = Replica::put_back(alloc, name, snapshot)?;
        replace(&mut self.controllers, place, controller);
        self.clean = false;
        Ok(Outcome::Ok)
    }
}
