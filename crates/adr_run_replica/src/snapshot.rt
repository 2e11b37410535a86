//! Disks that are put aside, and put back.

ghost use Rattle.std.specs.Prelude.{◌≡◌, IfOk};
ghost use Rattle.adr_model.specs.Replica.{on_disk};

use crate::keepers::goes_as_planned;
use crate::past::KeptCall;
use crate::replica::Replica;
use adr_controller::Controller;
use adr_run_keeper::{bytes, with_bytes};
use adr_values::{Guid, NoMemory, Text};
use std::alloc::{AllocError, Global};
use std::marker::Model;

/// The bytes of a controller's disk, put aside, and its identifier: a start of them finds a state of that controller.
#[derive(Drop)]
pub struct Snapshot {
    bytes: Vec<u8>,
    dsa: Guid,
}

impl Model for Snapshot {
    ghost use Rattle.std.specs.Prelude.{◌≡◌};
    ghost use Rattle.adr_model.specs.World.{Snapshot as Defined};
    ghost use Rattle.adr_run_replica.specs.Put.{IsWhole, aside};

    ghost Value = { Defined };

    ghost view = { λ s. aside s.bytes.items };

    ghost invariant = { λ s. IsWhole s.bytes.items × (s.dsa ≡ (aside s.bytes.items).state.dsa) };
}

impl Replica {
    /// The bytes of its disk, put aside.
    pub fn snapshot(&self, alloc: Global) -> Result<Snapshot, NoMemory>
        ensures { IfOk result (λ s. s ≡ record { state = self.now.read; log = self.now.device.read_log }) }
    {
        Ok(Snapshot {
            bytes: bytes(alloc, &self.controller)?,
            dsa: self.dsa,
        })
    }

    /// A controller on a disk with the bytes that were put aside, started.
    pub fn put_back(alloc: Global, name: Text, snapshot: &Snapshot) -> Result<Replica, NoMemory>
        ensures { IfOk result (λ made. made ≡ on_disk name snapshot.now.state snapshot.now.log) }
    {
        let journal = with_bytes(alloc, snapshot.bytes.to_vec(alloc)?);

        // A disk without a plan doesn't fail, and nothing of it is damaged.
        let controller = match Controller::resume(journal) {
            Ok(controller) => controller,
            Err(refused) => {
                drop(refused);
                return Err(AllocError);
            }
        };
        goes_as_planned(&controller);
        Ok(Replica {
            name,
            dsa: snapshot.dsa,
            controller,
            kept: KeptCall::none(),
        })
    }
}
