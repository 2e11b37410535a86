//! Images of controllers, and controllers that adopt them.

ghost use Rattle.std.specs.Prelude.{◌≡◌, IfOk, IsErrOf};
ghost use Rattle.adr_call.specs.declared.outcome.Outcome.{Outcome};
ghost use Rattle.adr_wire.specs.Ranges.{IsId};
ghost use Rattle.adr_model.specs.Collect.{adopt, backup};
ghost use Rattle.adr_model.specs.Replica.{Up as stands_up};
ghost use Rattle.adr_model.specs.World.{World as Defined, backed_up, nothing, where_up};
ghost use Rattle.adr_run_replica.specs.Led.{Adopts, Unadopted};

use crate::replica::Replica;
use adr_call::{AdoptRefusal, Failure, Outcome, Table};
use adr_controller::KeeperRefusal;
use adr_outcome::{adopt_refused, quarantined};
use adr_restore::Image;
use adr_state::LOG_LIMIT;
use adr_values::{Guid, NoMemory, Text};
use std::alloc::Global;

impl Replica {
    /// Its image; none where something hinders that, or it is quarantined.
    pub fn backup(&self, alloc: Global) -> Result<(Outcome, Option<Image>), NoMemory>
        ensures { IfOk result (λ sent. (w : Defined) → where_up (nothing w) self.now.standing (backed_up w (backup self.now.safe)) ≡ (w, sent.0, sent.1)) }
    {
        let state = match self.state() {
            Ok(state) => state,
            Err(outcome) => return Ok((outcome, None)),
        };
        match Image::of(alloc, state)? {
            Some(image) => Ok((Outcome::Ok, Some(image))),
            None => Ok((quarantined(), None)),
        }
    }

    /// A controller on a new disk that adopts an image under a fresh invocation identifier, or what is answered.
    pub fn adopted(
        alloc: Global,
        name: Text,
        image: &Image,
        dsa: Guid,
        inv: Guid,
    ) -> Result<Replica, Failure<Outcome>>
        requires dsa { IsId dsa }
        requires inv { IsId inv }
        ensures made { IfOk result (λ made. Adopts name (adopt image.now dsa inv) made) }
        ensures up { IfOk result (λ made.
            (made.name ≡ name) × (made.standing ≡ stands_up) × (made.safe.dsa ≡ dsa) × (made.safe.inv ≡ inv)) }
        ensures other { (outcome : Outcome) → IsErrOf result (Failure.Refused outcome)
            → Unadopted name (adopt image.now dsa inv) outcome }
    {
        let state = match image.adopt(alloc, dsa, inv) {
            Ok(state) => state,
            Err(Failure::Refused(refusal)) => {
                return Err(Failure::Refused(adopt_refused(refusal)));
            }
            Err(Failure::NoMemory) => return Err(Failure::NoMemory),
        };
        match Replica::on_new_disk(alloc, name, state) {
            Ok(made) => Ok(made),
            Err(KeeperRefusal::Full) => {
                let full = AdoptRefusal::Full {
                    table: Table::Log,
                    limit: LOG_LIMIT,
                };
                Err(Failure::Refused(adopt_refused(full)))
            }
            // A disk without a plan doesn't fail.
            Err(_) => Err(Failure::NoMemory),
        }
    }
}
