//! What a controller answers to a request.

ghost use Rattle.std.specs.Prelude.{◌≡◌, ◌↔◌, ◌&&◌, ◌==◌, Ok, Err, IfOk, IsErrOf, nat_le, nat_lt, not};
ghost use Rattle.std.specs.Bool.{then_some};
ghost use Rattle.std.specs.Option.{option_map};
ghost use Rattle.adr_values.specs.Vector.{first_gap};
ghost use Rattle.adr_model.specs.Update.{same_identifier};
ghost use Rattle.adr_model.specs.Serve.{is_quarantined, serve, serve_refusal, shown_by};
ghost use Rattle.adr_call.specs.declared.refusal.ServeRefusal.{ServeRefusal};

use crate::replying::{begins_at, reply_to};
use crate::{Reply, Request};
use adr_call::{Failure, ServeRefusal};
use adr_state::{State, is_same};
use adr_values::Mark;
use std::alloc::Global;

/// What a request is answered at this moment: the reply, or the first refusal in order (MS-DRSR, GetNCChanges; the refusals, and how
/// marks move, are this project's own profile).
pub fn serve(
    alloc: Global,
    state: &State,
    request: &Request,
    now: u64,
) -> Result<Reply, Failure<ServeRefusal>>
    ensures ok { IfOk result (λ reply. serve state.now request.now now ≡ Ok reply) }
    ensures refused { (refusal : ServeRefusal)
        → IsErrOf result (Failure.Refused refusal) ↔ (serve state.now request.now now ≡ Err refusal) }
{
    match serve_refusal(state, request) {
        Some(refusal) => Err(Failure::Refused(refusal)),
        None => Ok(reply_to(alloc, state, request, now)?),
    }
}

/// Why a request is refused, first in order.
fn serve_refusal(state: &State, request: &Request) -> Option<ServeRefusal>
    ensures { result ≡ serve_refusal state.now request.now }
{
    quarantined(state)
        .or(wrong_controller(state, request))
        .or(bad_mark(request))
        .or(rolled_back(state, request))
        .or(schema_mismatch(state, request))
        .or(too_old(state, request))
}

fn quarantined(state: &State) -> Option<ServeRefusal>
    ensures { result ≡ then_some (is_quarantined state.now.mode) ServeRefusal.Quarantined }
{
    state
        .mode()
        .is_quarantined()
        .then_some(ServeRefusal::Quarantined)
}

/// The request is for another controller.
fn wrong_controller(state: &State, request: &Request) -> Option<ServeRefusal>
    ensures { result
        ≡ then_some (not (same_identifier request.now.source state.now.dsa)) (ServeRefusal.WrongController state.now.dsa request.now.source) }
{
    let mine = state.dsa();
    let asked = request.source();
    if is_same(asked, mine) {
        None
    } else {
        Some(ServeRefusal::WrongController { mine, asked })
    }
}

/// The numbers of the mark aren't in order.
fn bad_mark(request: &Request) -> Option<ServeRefusal>
    ensures { result
        ≡ then_some (not (nat_le request.now.mark.prop request.now.mark.obj
        && nat_le request.now.mark.obj request.now.mark.seen)) (ServeRefusal.BadMark request.now.mark.prop request.now.mark.obj request.now.mark.seen) }
{
    let Mark { obj, prop, seen } = request.mark();
    if prop <= obj && obj <= seen {
        None
    } else {
        Some(ServeRefusal::BadMark { prop, obj, seen })
    }
}

/// The asker has seen more of this incarnation than there is.
fn rolled_back(state: &State, request: &Request) -> Option<ServeRefusal>
    ensures { result
        ≡ then_some (nat_lt state.now.store.usn (shown_by state.now request.now)) (ServeRefusal.RolledBack state.now.inv state.now.store.usn (shown_by state.now request.now)) }
{
    let inv = state.inv();
    let mine = state.usn();
    let shown = shown_by(state, request);
    (mine < shown).then_some(ServeRefusal::RolledBack { inv, mine, shown })
}

/// How much of this incarnation the request shows that its controller has seen.
fn shown_by(state: &State, request: &Request) -> u64
    ensures { result ≡ shown_by state.now request.now }
{
    let covered = request.vector().at(state.inv());
    covered.max(begins_at(state, request).seen)
}

fn schema_mismatch(state: &State, request: &Request) -> Option<ServeRefusal>
    ensures { result
        ≡ then_some (not (request.now.schema == state.now.store.schema)) (ServeRefusal.SchemaMismatch state.now.store.schema request.now.schema) }
{
    let mine = state.schema().number();
    let theirs = request.schema();
    (theirs != mine).then_some(ServeRefusal::SchemaMismatch { mine, theirs })
}

/// Objects were collected whose births or deaths the asker hasn't seen.
fn too_old(state: &State, request: &Request) -> Option<ServeRefusal>
    ensures { result
        ≡ option_map (λ gap. ServeRefusal.TooOld gap.0 gap.2 gap.1) (first_gap state.now.store.purged request.now.vector) }
{
    let (inv, has, purged) = state.purged().first_gap(request.vector())?;
    Some(ServeRefusal::TooOld { inv, purged, has })
}
