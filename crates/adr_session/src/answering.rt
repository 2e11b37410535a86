//! What a client says, and what it is answered.

ghost use Rattle.std.specs.Prelude.{◌≡◌, ◌⊎◌, ◌<◌, ◌≤◌, ◌∷◌, ℕ, List, Option, Some, true, IsErrOf, IsSome};
ghost use Rattle.adr_packet.specs.Requests.{IsRequest};
ghost use Rattle.adr_session.specs.Lines.{call_said};
ghost use Rattle.adr_session.specs.Made.{Makes, Reacts};
ghost use Rattle.adr_session.specs.Talk.{Asks, acts, is_line, said_in};
ghost use Rattle.adr_law_controller.specs.Keeping.{KeepsLog};
ghost use Rattle.adr_session.specs.Told.{TakesAMoment};

use crate::acting::act;
use crate::ending::ServeFault;
use crate::framing::{greet, is_line};
use crate::lines::call_said;
use crate::replying::reply_to;
use adr_controller::{Controller, Keeper};
use adr_frames::{GREETING, LINE, OUTCOME, REQUEST, framed};
use adr_io::Fault;
use adr_outside::Clock;
use adr_packet::{Failure, Request, decode_request, requests_have_one_spelling};
use std::alloc::Global;

/// A request, answered at the present moment.
fn answer_asked<K: Keeper, C: Clock>(
    alloc: Global,
    controller: &mut Controller<K>,
    clock: &mut C,
    request: &Request,
) -> Result<Option<Vec<u8>>, ServeFault>
    requires up { IsSome controller.old.state }
    requires log { KeepsLog K.Keeper }
    requires form { IsRequest request.now }
    ensures answer { Reacts (λ v. v.items) K.Keeper (Some (Asks request.now)) controller.old controller.new result
        (C.moments clock.old) (C.moments clock.new) }
    ensures clock { IsErrOf result ServeFault.Clock → C.faults clock.old < C.faults clock.new }
    ensures clock_never_falls { C.faults clock.old ≤ C.faults clock.new }
    ensures no_clock_fault { IsErrOf result ServeFault.Clock ⊎ (C.faults clock.new ≡ C.faults clock.old) }
{
    let _ = controller.state();
    let now = match clock.now() {
        Ok(now) => now,
        Err(Fault::Failed) => return Err(ServeFault::Clock),
        Err(Fault::NoMemory) => return Err(ServeFault::NoMemory),
    };
    Ok(Some(reply_to(alloc, controller, request, now)?))
}

/// What stands behind the kind of a request, answered, or none where that is no request.
fn answer_request<K: Keeper, C: Clock>(
    alloc: Global,
    controller: &mut Controller<K>,
    clock: &mut C,
    body: &[u8],
) -> Result<Option<Vec<u8>>, ServeFault>
    requires up { IsSome controller.old.state }
    requires log { KeepsLog K.Keeper }
    ensures answer { Reacts (λ v. v.items) K.Keeper (said_in (1 ∷ body.now)) controller.old controller.new result
        (C.moments clock.old) (C.moments clock.new) }
    ensures at_moment { IsErrOf result ServeFault.Clock → TakesAMoment (1 ∷ body.now) }
    ensures clock { IsErrOf result ServeFault.Clock → C.faults clock.old < C.faults clock.new }
    ensures clock_never_falls { C.faults clock.old ≤ C.faults clock.new }
    ensures no_clock_fault { IsErrOf result ServeFault.Clock ⊎ (C.faults clock.new ≡ C.faults clock.old) }
{
    requests_have_one_spelling();
    let _ = controller.state();
    match decode_request(alloc, body) {
        Ok(request) => answer_asked(alloc, controller, clock, &request),
        Err(Failure::Refused(_)) => Ok(None),
        Err(Failure::NoMemory) => Err(ServeFault::NoMemory),
    }
}

/// What a line is answered at a moment in seconds: a bad one is told so, and else its call is done.
fn answer_at<K: Keeper>(
    alloc: Global,
    controller: &mut Controller<K>,
    line: &[u8],
    now: u64,
) -> Result<Vec<u8>, ServeFault>
    requires up { IsSome controller.old.state }
    requires log { KeepsLog K.Keeper }
    ensures { Makes (λ v. v.items) K.Keeper (λ f. acts f now (call_said line.now)) controller.old controller.new result }
{
    let _ = controller.state();
    match call_said(alloc, line)? {
        Some(call) => act(alloc, controller, &call, now),
        None => Ok(framed(alloc, OUTCOME, b"bad line")?),
    }
}

/// What stands behind the kind of a line, answered at the present moment, or none where that is no line.
fn answer_line<K: Keeper, C: Clock>(
    alloc: Global,
    controller: &mut Controller<K>,
    clock: &mut C,
    body: &[u8],
) -> Result<Option<Vec<u8>>, ServeFault>
    requires up { IsSome controller.old.state }
    requires log { KeepsLog K.Keeper }
    ensures answer { Reacts (λ v. v.items) K.Keeper (said_in (4 ∷ body.now)) controller.old controller.new result
        (C.moments clock.old) (C.moments clock.new) }
    ensures at_line { IsErrOf result ServeFault.Clock → is_line body.now ≡ true }
    ensures clock { IsErrOf result ServeFault.Clock → C.faults clock.old < C.faults clock.new }
    ensures clock_never_falls { C.faults clock.old ≤ C.faults clock.new }
    ensures no_clock_fault { IsErrOf result ServeFault.Clock ⊎ (C.faults clock.new ≡ C.faults clock.old) }
{
    let _ = controller.state();
    if !is_line(body) {
        return Ok(None);
    }
    let now = match clock.now() {
        Ok(now) => now,
        Err(Fault::Failed) => return Err(ServeFault::Clock),
        Err(Fault::NoMemory) => return Err(ServeFault::NoMemory),
    };
    Ok(Some(answer_at(alloc, controller, body, now)?))
}

/// What stands behind the kind of a greeting, answered, or none where that is anything.
fn answer_greeting<K: Keeper>(
    alloc: Global,
    controller: &mut Controller<K>,
    body: &[u8],
) -> Result<Option<Vec<u8>>, ServeFault>
    requires up { IsSome controller.old.state }
    ensures answer { (moments : Option (List ℕ))
        → Reacts (λ v. v.items) K.Keeper (said_in (6 ∷ body.now)) controller.old controller.new result moments moments }
    ensures no_clock { IsErrOf result ServeFault.Clock → ⊥ }
{
    let _ = controller.state();
    if !body.is_empty() {
        return Ok(None);
    }
    Ok(Some(greet(alloc, controller)?))
}

/// What the bytes of a frame are answered, by their kind, or none where they say nothing that a client says. What it is
/// answered is committed before.
pub(crate) fn react<K: Keeper, C: Clock>(
    alloc: Global,
    controller: &mut Controller<K>,
    clock: &mut C,
    bytes: &[u8],
) -> Result<Option<Vec<u8>>, ServeFault>
    requires up { IsSome controller.old.state }
    requires log { KeepsLog K.Keeper }
    ensures answer { Reacts (λ v. v.items) K.Keeper (said_in bytes.now) controller.old controller.new result
        (C.moments clock.old) (C.moments clock.new) }

    // A clock is read for a line and for a request, and for nothing else.
    ensures at_moment { IsErrOf result ServeFault.Clock → TakesAMoment bytes.now }
    ensures clock { IsErrOf result ServeFault.Clock → C.faults clock.old < C.faults clock.new }
    ensures clock_never_falls { C.faults clock.old ≤ C.faults clock.new }
    ensures no_clock_fault { IsErrOf result ServeFault.Clock ⊎ (C.faults clock.new ≡ C.faults clock.old) }
{
    let _ = controller.state();
    let Some((kind, body)) = bytes.split_first() else {
        return Ok(None);
    };
    match *kind {
        REQUEST => answer_request(alloc, controller, clock, body),
        LINE => answer_line(alloc, controller, clock, body),
        GREETING => answer_greeting(alloc, controller, body),
        _ => Ok(None),
    }
}
