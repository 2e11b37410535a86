//! Records are read.

ghost use Rattle.std.specs.Prelude.{◌≡◌, None, Some, OnOk, OnErr, IsErrOf};
ghost use Rattle.adr_image.specs.Changes.{HasBody};
ghost use Rattle.adr_records.specs.Body.{are_locals_within, by_change, following, following_in};
ghost use Rattle.adr_records.specs.Logged.{IsLogged};

use crate::follow::can_follow;
use crate::head::is_known;
use crate::waking::unless_full;
use adr_image::decode_change;
use adr_journal::FollowRefusal;
use adr_state::{Change, State};
use std::alloc::Global;

/// Whether what is written has local update sequence numbers up to the one after the change.
fn are_locals_within(change: &Change) -> bool
    ensures { result ≡ are_locals_within change.now }
{
    let usn = change.usn();
    change.writes().iter().all(|written| written.local() <= usn)
}

/// Applies a change that was read of a version, if it can follow the state.
fn apply_read(
    alloc: Global,
    version: u16,
    state: &mut State,
    change: Change,
) -> Result<(), FollowRefusal>
    requires logged { IsLogged state.old }
    requires body { HasBody version state.old.store.usn state.old.store.schema change }
    ensures ok { OnOk result (by_change state.old (Some change) ≡ Some state.new) }
    ensures refused { IsErrOf result FollowRefusal.CannotFollow → by_change state.old (Some change) ≡ None }
    ensures err { OnErr result (state.new ≡ state.old) }
{
    if !are_locals_within(&change) {
        return Err(FollowRefusal::CannotFollow);
    }
    match can_follow(alloc, state, &change) {
        Ok(true) => {}
        Ok(false) => return Err(FollowRefusal::CannotFollow),
        Err(_) => return Err(FollowRefusal::NoMemory),
    }
    match unless_full(state.apply(change)) {
        Ok(()) => Ok(()),
        Err(_) => Err(FollowRefusal::NoMemory),
    }
}

/// Takes a record of this body of a version.
fn follow_body(
    alloc: Global,
    version: u16,
    state: &mut State,
    body: &[u8],
) -> Result<(), FollowRefusal>
    requires { IsLogged state.old }
    ensures ok { OnOk result (following version state.old body.now ≡ Some state.new) }
    ensures refused { IsErrOf result FollowRefusal.CannotFollow → following version state.old body.now ≡ None }
    ensures err { OnErr result (state.new ≡ state.old) }
{
    match decode_change(alloc, version, state.usn(), state.schema(), body) {
        Ok(Some(change)) => apply_read(alloc, version, state, change),
        Ok(None) => Err(FollowRefusal::CannotFollow),
        Err(_) => Err(FollowRefusal::NoMemory),
    }
}

/// Takes a record of this body in an area of this version.
pub(crate) fn follow(
    alloc: Global,
    version: u16,
    state: &mut State,
    body: &[u8],
) -> Result<(), FollowRefusal>
    requires { IsLogged state.old }
    ensures ok { OnOk result (following_in version state.old body.now ≡ Some state.new) }
    ensures refused { IsErrOf result FollowRefusal.CannotFollow → following_in version state.old body.now ≡ None }
    ensures err { OnErr result (state.new ≡ state.old) }
{
    if !is_known(version) {
        return Err(FollowRefusal::CannotFollow);
    }
    follow_body(alloc, version, state, body)
}
