//! Revivals.

ghost use Rattle.std.specs.Prelude.{◌≡◌, ◌≤◌, Ok, Err, IfOk, IsErrOf};
ghost use Rattle.adr_call.specs.declared.refusal.WriteRefusal.{WriteRefusal};
ghost use Rattle.adr_model.specs.Change.{after};
ghost use Rattle.adr_model.specs.Formed.{IsFormed};
ghost use Rattle.adr_model.specs.Store.{Store};
ghost use Rattle.adr_model.specs.Write.{Revive, usn_limit, write};
ghost use Rattle.adr_law_revived.specs.Revived.{IsRevived};
ghost use Rattle.adr_revival.specs.Archived.{IsArchive, stored};

use crate::archive::Archive;
use crate::found::find;
use crate::rows::items_of;
use adr_call::{Failure, WriteRefusal};
use adr_origin::{Change, State, change_of};
use adr_values::{Guid, Text};
use std::alloc::Global;

/// The object of an image that a client has come again.
#[derive(Drop)]
pub struct Revival<'a> {
    pub guid: Guid,
    /// The GUID of the object above, or of the root or LostAndFound.
    pub parent: Guid,
    /// The name.
    pub text: &'a Text,
}

/// What a client's revival of an object of an image makes of a controller at a time in seconds: the change, or why it is
/// refused, first in order (both are this project's own; MS-ADTS has the reanimation of tombstones in its place). The
/// object has a new birth, the class and the values that the image shows, and those of its links whose other ends are
/// live. The controller stays as it is.
pub fn revive(
    alloc: Global,
    state: &State,
    archive: &Archive,
    revival: &Revival<'_>,
    now: u64,
) -> Result<Change, Failure<WriteRefusal>>
    requires { state.now.store.usn ≤ usn_limit }
    ensures ok { (image : Store) → IsArchive image archive.now
        → IfOk result (λ change. write state.now (Revive image revival.now.guid revival.now.parent revival.now.text.now) now ≡ Ok change) }
    ensures within { IfOk result (λ change. change.usn ≤ usn_limit) }
    ensures refused { (image : Store) (refusal : WriteRefusal) → IsArchive image archive.now → IsErrOf result (Failure.Refused refusal)
        → write state.now (Revive image revival.now.guid revival.now.parent revival.now.text.now) now ≡ Err refusal }

    // The directory behind it has one entry more, that of the GUID, and the others keep what they show.
    ensures shows { IsFormed state.now → IfOk result (λ change. (image : Store) → IsArchive image archive.now
        → IsRevived state.now (after state.now change) image revival.now.guid revival.now.parent revival.now.text.now) }
{
    archive.is_of_image();
    revived(alloc, state, archive, revival, now)
}

/// The change of a revival, by the rows of the image alone.
fn revived(
    alloc: Global,
    state: &State,
    archive: &Archive,
    revival: &Revival<'_>,
    now: u64,
) -> Result<Change, Failure<WriteRefusal>>
    requires { state.now.store.usn ≤ usn_limit }
    ensures ok { IfOk result (λ change. write state.now (Revive (stored archive.now) revival.now.guid revival.now.parent revival.now.text.now) now ≡ Ok change) }
    ensures within { IfOk result (λ change. change.usn ≤ usn_limit) }
    ensures refused { (refusal : WriteRefusal) → IsErrOf result (Failure.Refused refusal)
        → write state.now (Revive (stored archive.now) revival.now.guid revival.now.parent revival.now.text.now) now ≡ Err refusal }
{
    let found = find(alloc, state, archive, revival)?;
    let writes = items_of(alloc, state, revival, &found, now)?;
    Ok(change_of(alloc, state, writes))
}
