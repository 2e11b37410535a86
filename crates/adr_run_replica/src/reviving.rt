//! Objects that come again.

ghost use Rattle.std.specs.Prelude.{◌≡◌, IfOk, OnErr, true};
ghost use Rattle.std.specs.Str.{is_utf8};
ghost use Rattle.adr_wire.specs.Ranges.{IsId};
ghost use Rattle.adr_model.specs.Client.{done};
ghost use Rattle.adr_model.specs.Replica.{ToWrite};
ghost use Rattle.adr_model.specs.World.{after_call, stays, where_up};
ghost use Rattle.adr_model.specs.Write.{Revive};
ghost use Rattle.adr_revival.specs.Archived.{IsArchive};
ghost use Rattle.adr_run_replica.specs.Led.{IsUndone, Leads};

use crate::hindered::{hindered, hindrance_in, settle};
use crate::keepers::goes_as_planned;
use crate::past::{Ahead, Past};
use crate::replica::Replica;
use crate::told::Deed;
use adr_call::Outcome;
use adr_controller::{Archive, CallRefusal, Revival};
use adr_law_recorded::{
    logged_states_fit, recorded_changes_leave_logged_states, writes_are_recorded,
};
use adr_outcome::write_refused;
use adr_restore::Image;
use adr_values::NoMemory;
use std::alloc::Global;

impl Replica {
    /// Has an object of an image come again under a new birth, at a time in seconds.
    pub fn revive(
        &mut self,
        alloc: Global,
        past: &mut Past,
        image: &Image,
        revival: &Revival<'_>,
        now: u64,
    ) -> Result<Outcome, NoMemory>
        requires guid { IsId revival.now.guid }
        requires parent { IsId revival.now.parent }
        requires text { is_utf8 revival.now.text.now ≡ true }
        ensures revived { let call = ToWrite (Revive image.now revival.now.guid revival.now.parent revival.now.text.now) now in
            IfOk result (λ outcome. Leads self.old past.old (λ w. where_up (stays w) self.old.standing (after_call w self.old call (done self.old.safe call))) self.new past.new outcome) }
        ensures err { OnErr result (IsUndone self.old past.old self.new past.new) }
        ensures name { self.new.name ≡ self.old.name }
        ensures given { past.new.given ≡ past.old.given }
    {
        let archive = image.archive(alloc)?;
        self.revive_from(alloc, past, image, &archive, revival, now)
    }

    /// The same, with the rows of the image.
    fn revive_from(
        &mut self,
        alloc: Global,
        past: &mut Past,
        image: &Image,
        archive: &Archive,
        revival: &Revival<'_>,
        now: u64,
    ) -> Result<Outcome, NoMemory>
        requires archive { IsArchive image.now archive.now }
        requires guid { IsId revival.now.guid }
        requires parent { IsId revival.now.parent }
        requires text { is_utf8 revival.now.text.now ≡ true }
        ensures revived { let call = ToWrite (Revive image.now revival.now.guid revival.now.parent revival.now.text.now) now in
            IfOk result (λ outcome. Leads self.old past.old (λ w. where_up (stays w) self.old.standing (after_call w self.old call (done self.old.safe call))) self.new past.new outcome) }
        ensures err { OnErr result (IsUndone self.old past.old self.new past.new) }
        ensures name { self.new.name ≡ self.old.name }
        ensures given { past.new.given ≡ past.old.given }
    {
        let _whole = image.bytes();
        let ahead = Ahead::of(
            past,
            &Deed::Revives {
                replica: &*self,
                image,
                guid: revival.guid,
                parent: revival.parent,
                text: revival.text,
                now,
            },
        );
        goes_as_planned(&self.controller);
        recorded_changes_leave_logged_states();
        logged_states_fit();
        writes_are_recorded();
        let made = self.controller.revive(alloc, archive, revival, now);
        let how = hindrance_in(&made);
        let stopped = settle(&mut self.controller, &mut self.kept, past, ahead, how);
        match made {
            Ok(usn) => Ok(Outcome::Usn(usn)),
            Err(CallRefusal::Refused(refusal)) => Ok(write_refused(refusal)),
            Err(CallRefusal::Hindered(hindrance)) => hindered(hindrance, stopped),
        }
    }
}
