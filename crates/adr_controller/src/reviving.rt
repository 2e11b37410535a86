//! Objects that come again.

ghost use Rattle.std.specs.Prelude.{◌≡◌, ◌≤◌, Some, Ok, Err, IfOk, IsErrOf};
ghost use Rattle.std.specs.Option.{ForSome};
ghost use Rattle.adr_call.specs.declared.refusal.WriteRefusal.{WriteRefusal};
ghost use Rattle.adr_model.specs.Store.{State as Defined, Store};
ghost use Rattle.adr_model.specs.Change.{Change as Changes};
ghost use Rattle.adr_model.specs.Write.{Revive, usn_limit, write};
ghost use Rattle.adr_revival.specs.Archived.{IsArchive};
ghost use Rattle.adr_controller.specs.Able.{AllFollow, revived_in};
ghost use Rattle.adr_controller.specs.Ended.{call_hindrance};
ghost use Rattle.adr_controller.specs.Did.{Calls};

use crate::controller::Controller;
use crate::refusal::CallRefusal;
use adr_call::WriteRefusal;
use adr_journal::Keeper;
use adr_revival::{Archive, Revival, revive};
use std::alloc::Global;

impl<K: Keeper> Controller<K> {
    /// Has an object of an image come again under a new birth, at a time in seconds; it answers the last USN that this
    /// took.
    pub fn revive(
        &mut self,
        alloc: Global,
        archive: &Archive,
        revival: &Revival<'_>,
        now: u64,
    ) -> Result<u64, CallRefusal<WriteRefusal>>
        requires follows { (image : Store) × IsArchive image archive.now
            × AllFollow K.Keeper (revived_in image revival.now.guid revival.now.parent revival.now.text.now now) }
        requires usn { ForSome self.old.state (λ s. s.store.usn ≤ usn_limit) }
        ensures revived { IfOk result (λ usn. (s : Defined) (image : Store) → self.old.state ≡ Some s → IsArchive image archive.now
            → (c : Changes) × (write s (Revive image revival.now.guid revival.now.parent revival.now.text.now) now ≡ Ok c) × (usn ≡ c.usn)) }
        ensures refused { (s : Defined) (image : Store) (refusal : WriteRefusal) → self.old.state ≡ Some s → IsArchive image archive.now
            → IsErrOf result (CallRefusal.Refused refusal)
            → write s (Revive image revival.now.guid revival.now.parent revival.now.text.now) now ≡ Err refusal }
        ensures calls { (image : Store) → IsArchive image archive.now
            → Calls K.Keeper (revived_in image revival.now.guid revival.now.parent revival.now.text.now now) self.old self.new (call_hindrance result) }
    {
        let state = self.running()?;
        let change = revive(alloc, state, archive, revival, now)?;
        let usn = change.usn();
        self.conclude(change, Ok(usn))
    }
}
