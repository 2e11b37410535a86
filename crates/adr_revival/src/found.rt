//! What of an image is revived, and the tests of it.

ghost use Rattle.std.specs.Prelude.{◌≡◌, ◌+◌, ◌≤◌, IfOk, length};
ghost use Rattle.adr_model.specs.Write.{entry_in, links_revived, revive_refusal, usn_limit};
ghost use Rattle.adr_origin.specs.Telling.{Tells};
ghost use Rattle.adr_view.specs.Seen.{seen_of};
ghost use Rattle.adr_revival.specs.Archived.{stored};
ghost use Rattle.adr_revival.specs.Parts.{found_refusal};

use crate::archive::Archive;
use crate::checks::{check_held, check_room, check_start};
use crate::links::links_of;
use crate::placing::check_place;
use crate::revival::Revival;
use adr_call::{Failure, WriteRefusal};
use adr_origin::{State, next_object};
use adr_values::{Guid, LinkKey};
use adr_view::Shown;
use std::alloc::Global;

/// What an image shows of a GUID, and the links that come with it.
pub struct Found {
    pub shown: Shown,
    pub links: Vec<LinkKey>,
}

impl Drop for Found {
    fn drop(self) {
        let Found {
            shown: _shown,
            links: _links,
        } = self;
    }
}

/// What the image shows of a GUID that may be looked for there.
fn find_shown(
    alloc: Global,
    state: &State,
    archive: &Archive,
    guid: Guid,
) -> Result<Shown, Failure<WriteRefusal>>
    ensures told { Tells result (found_refusal state.now (stored archive.now) guid) }
    ensures shown { IfOk result (λ shown. seen_of (entry_in (stored archive.now) guid) ≡ shown) }
{
    check_start(state, archive, guid)?;
    match archive.shown_at(alloc, guid)? {
        Some(shown) => Ok(shown),
        None => Err(Failure::Refused(WriteRefusal::NotInImage { guid })),
    }
}

/// Tests that an object of an image may come again, and finds what comes.
pub fn find(
    alloc: Global,
    state: &State,
    archive: &Archive,
    revival: &Revival<'_>,
) -> Result<Found, Failure<WriteRefusal>>
    requires { state.now.store.usn ≤ usn_limit }
    ensures told { Tells result (revive_refusal state.now (stored archive.now) revival.now.guid revival.now.parent revival.now.text.now) }
    ensures shown { IfOk result (λ found. seen_of (entry_in (stored archive.now) revival.now.guid) ≡ found.shown) }
    ensures links { IfOk result (λ found. found.links.items ≡ links_revived state.now (stored archive.now) revival.now.guid) }
    ensures room { IfOk result (λ found. state.now.store.usn + 1 + length found.links.items ≤ usn_limit) }
{
    let shown = find_shown(alloc, state, archive, revival.guid)?;
    check_held(alloc, state, revival.guid)?;
    check_place(alloc, state, shown.class, revival)?;
    let object = next_object(state, revival.guid);
    let links = links_of(alloc, state, &object, &shown)?;
    check_room(state, links.as_slice().len())?;
    Ok(Found { shown, links })
}
