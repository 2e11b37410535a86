//! Images, and what adopts them.

ghost use Rattle.std.specs.Prelude.{◌≡◌, Ok, Err, IfOk, IsErrOf};
ghost use Rattle.adr_wire.specs.Ranges.{IsId};
ghost use Rattle.adr_call.specs.declared.refusal.AdoptRefusal.{AdoptRefusal};
ghost use Rattle.adr_model.specs.Collect.{adopt, backup};
ghost use Rattle.adr_model.specs.Formed.{IsFormedStore};
ghost use Rattle.adr_model.specs.Store.{Normal};
ghost use Rattle.adr_image.specs.Stored.{IsSpelled, image};
ghost use Rattle.adr_records.specs.Logged.{IsLogged};
ghost use Rattle.adr_revival.specs.Archived.{IsArchive};

use adr_call::{AdoptRefusal, Failure};
use adr_image::{Dormant, decode};
use adr_records::{adopt, image_of, rows_of};
use adr_revival::Archive;
use adr_state::State;
use adr_values::{Guid, NoMemory};
use std::alloc::{AllocError, Global};
use std::marker::Model;

/// The image of a controller: its database as bytes, which belongs to no controller. Whatever it says is formed and
/// spelled.
#[derive(Drop)]
pub struct Image {
    bytes: Vec<u8>,
}

impl Model for Image {
    ghost use Rattle.std.specs.Prelude.{◌≡◌};
    ghost use Rattle.adr_model.specs.Formed.{IsFormedStore};
    ghost use Rattle.adr_model.specs.Store.{Store};
    ghost use Rattle.adr_image.specs.Stored.{IsSpelled, image};
    ghost use Rattle.adr_restore.specs.Said.{said_by};

    ghost Value = { Store };

    ghost view = { λ i. said_by i.bytes.items };

    ghost invariant = { λ i. IsFormedStore (said_by i.bytes.items) × IsSpelled (said_by i.bytes.items)
        × (i.bytes.items ≡ image (said_by i.bytes.items)) };
}

impl Image {
    /// The image of a controller; none while it is quarantined.
    pub fn of(alloc: Global, state: &State) -> Result<Option<Image>, NoMemory>
        requires { IsLogged state.now }
        ensures { IfOk result (λ image. image ≡ backup state.now) }
    {
        if state.mode().is_quarantined() {
            return Ok(None);
        }
        let bytes = image_of(alloc, state)?;
        Ok(Some(Image { bytes }))
    }

    /// Its bytes: the one spelling of what it says, which is formed and spelled.
    pub fn bytes(&self) -> &[u8]
        ensures spelling { result.now ≡ image self.now }
        ensures formed { IsFormedStore self.now }
        ensures spelled { IsSpelled self.now }
    {
        &self.bytes
    }

    /// A controller of the image under a fresh invocation identifier.
    pub fn adopt(&self, alloc: Global, dsa: Guid, inv: Guid) -> Result<State, Failure<AdoptRefusal>>
        requires dsa { IsId dsa }
        requires inv { IsId inv }
        ensures ok { IfOk result (λ state. adopt self.now dsa inv ≡ Ok state) }
        ensures refused { (refusal : AdoptRefusal) → IsErrOf result (Failure.Refused refusal)
            → adopt self.now dsa inv ≡ Err refusal }
        ensures logged { IfOk result (λ state. IsLogged state × (state.mode ≡ Normal)) }
    {
        let dormant = self.read(alloc)?;
        adopt(alloc, dormant.into_contents(), dsa, inv)
    }

    /// What of it may be revived: its rows, and the number of its schema.
    pub fn archive(&self, alloc: Global) -> Result<Archive, NoMemory>
        ensures { IfOk result (λ archive. IsArchive self.now archive) }
    {
        let contents = self.read(alloc)?.into_contents();
        let schema = contents.schema;
        Ok(Archive::of(schema, rows_of(alloc, contents)?))
    }

    /// What it says.
    fn read(&self, alloc: Global) -> Result<Dormant, NoMemory>
        ensures { IfOk result (λ dormant. dormant ≡ self.now) }
    {
        match decode(alloc, self.bytes()) {
            Ok(dormant) => Ok(dormant),
            Err(Failure::NoMemory) => Err(AllocError),
            Err(Failure::Refused(_)) => unreachable!(),
        }
    }
}
