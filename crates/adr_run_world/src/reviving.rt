//! Objects that come again.

ghost use Rattle.std.specs.Prelude.{◌≡◌, IfOk, OnErr, true};
ghost use Rattle.std.specs.Str.{is_utf8};
ghost use Rattle.adr_wire.specs.Ranges.{IsId};
ghost use Rattle.adr_model.specs.Replica.{ToWrite};
ghost use Rattle.adr_model.specs.World.{bound_at, does, of_image};
ghost use Rattle.adr_model.specs.Write.{Revive};
ghost use Rattle.adr_run_world.specs.Run.{IsTidy, world_of};

use crate::run::Run;
use adr_call::Outcome;
use adr_run_replica::Revival;
use adr_values::{NoMemory, Text};
use std::alloc::Global;

impl Run {
    /// What is answered where an object of the image that is bound to a name comes again at a controller. Whichever of the
    /// two isn't there, the answer is the same, and an image is looked for before what state the controller is in.
    pub fn revive(
        &mut self,
        alloc: Global,
        name: &Text,
        image: &Text,
        revival: &Revival<'_>,
    ) -> Result<Outcome, NoMemory>
        requires tidy { IsTidy self.old }
        requires guid { IsId revival.now.guid }
        requires parent { IsId revival.now.parent }
        requires text { is_utf8 revival.now.text.now ≡ true }
        ensures revived { IfOk result (λ outcome. let w = world_of self.old in
            of_image w (bound_at w.images image.now) (λ i. does w name.now (ToWrite (Revive i revival.now.guid revival.now.parent revival.now.text.now) w.time)) ≡ (world_of self.new, outcome)) }
        ensures err { OnErr result (world_of self.new ≡ world_of self.old) }
        ensures tidy { IsTidy self.new }
    {
        let Some(place) = self.place_of(name) else {
            return Ok(Outcome::Absent);
        };
        let Some(image) = self.images.get(image) else {
            return Ok(Outcome::Absent);
        };
        self.controllers[place].revive(alloc, &mut self.past, image, revival, self.time)
    }
}
