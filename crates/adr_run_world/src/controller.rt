//! Controllers by their names.

ghost use Rattle.std.specs.Prelude.{◌≡◌, ◌<◌, None, length, slice_get, IfNone, IfSome};
ghost use Rattle.std.specs.List.{find};
ghost use Rattle.std.specs.Str.{bytes_eq};
ghost use Rattle.adr_model.specs.Replica.{Replica as Held};
ghost use Rattle.adr_model.specs.World.{World, replica_at, stays, where_up};
ghost use Rattle.adr_run_world.specs.Run.{world_of};

use crate::run::Run;
use adr_call::Outcome;
use adr_run_replica::Replica;
use adr_values::Text;

/// Where the controller of a name stands.
fn place_of(controllers: &[Replica], name: &Text) -> Option<usize>
    ensures place { IfSome result (λ place. place < length controllers.now) }
    ensures found { IfSome result (λ place.
        find (λ (r : Held). bytes_eq r.name name.now) controllers.now ≡ slice_get controllers.now place) }
    ensures none { IfNone result (find (λ (r : Held). bytes_eq r.name name.now) controllers.now ≡ None) }
{
    for (place, controller) in controllers.iter().enumerate() {
        if controller.name().items() == name.items() {
            return Some(place);
        }
    }
    None
}

/// What a controller is answered for a message that isn't there.
pub fn not_there(controller: &Replica) -> Outcome
    ensures { (w : World) → where_up (stays w) controller.now.standing (w, Outcome.Absent) ≡ (w, result) }
{
    match controller.state() {
        Ok(_) => Outcome::Absent,
        Err(other) => other,
    }
}

impl Run {
    /// Where the controller of a name stands.
    pub fn place_of(&self, name: &Text) -> Option<usize>
        ensures place { IfSome result (λ place. place < length self.now.controllers.items) }
        ensures found { IfSome result (λ place.
            replica_at (world_of self.now) name.now ≡ slice_get self.now.controllers.items place) }
        ensures none { IfNone result (replica_at (world_of self.now) name.now ≡ None) }
    {
        place_of(self.controllers.as_slice(), name)
    }
}
