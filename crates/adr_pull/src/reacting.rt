//! What a frame of a partner makes of a controller.

ghost use Rattle.std.specs.Prelude.{◌≡◌, ◌↔◌, ◌⊎◌, ◌<◌, ◌≤◌, Some, None, IfErr, IfOk, IfSome, IsErrOf, IsSome};
ghost use Rattle.std.specs.Option.{option_map};
ghost use Rattle.adr_disk.specs.Disk.{LeavesOnly};
ghost use Rattle.adr_model.specs.Store.{State as Defined};
ghost use Rattle.adr_model.specs.Take.{take};
ghost use Rattle.adr_law_journal.specs.Areas.{Found};
ghost use Rattle.adr_packet.specs.Refusals.{decoded_refusal};
ghost use Rattle.adr_packet.specs.Replies.{IsReply, decoded_reply};
ghost use Rattle.adr_pull.specs.Counted.{CountsDisk};
ghost use Rattle.adr_pull.specs.Fetch.{made, outcome_of, refused, replied, said_in, taken};
ghost use Rattle.adr_law_controller.specs.Keeping.{KeepsLog, Stands};
ghost use Rattle.adr_pull.specs.Told.{FindsDue, IsHindered, ReactsSo};

use crate::came::Came;
use crate::fault::PullFault;
use adr_call::{Outcome, Table};
use adr_controller::{CallRefusal, Controller, Hindrance, Keeper, Reply};
use adr_frames::{REFUSAL, REPLY};
use adr_law_messages::replies_of_a_form_are_in_range;
use adr_outcome::{full, serve_refused, take_refused};
use adr_packet::{Failure, Refusal, decode_refusal, decode_reply, replies_have_one_spelling};
use adr_state::LOG_LIMIT;
use std::alloc::Global;

/// What comes of a reply whose change wasn't committed by a controller that is up.
fn hindered(hindrance: Hindrance) -> Result<Came, PullFault>
    requires not_down { hindrance ≡ Hindrance.Down → ⊥ }
    requires not_failed { hindrance ≡ Hindrance.Failed → ⊥ }
    ensures { IsHindered hindrance result }
{
    match hindrance {
        Hindrance::Full => Ok(Came::Declined(full(Table::Log, LOG_LIMIT))),
        Hindrance::DiskFault => Err(PullFault::Disk),
        Hindrance::NoMemory => Err(PullFault::NoMemory),
        Hindrance::Down | Hindrance::Failed => unreachable!(),
    }
}

/// Takes a reply. A full log, and a refusal of the controller, are what came of it.
fn take_reply<K: Keeper>(
    alloc: Global,
    controller: &mut Controller<K>,
    reply: &Reply,
) -> Result<Came, PullFault>
    requires up { IsSome controller.old.state }
    requires log { KeepsLog K.Keeper }
    requires form { IsReply reply.now }
    ensures up { IfOk result (λ _. IsSome controller.new.state) }
    ensures reacts { (f : Found Defined) → Stands K.Keeper f controller.old
        → ReactsSo K.Keeper f (Some (taken f reply.now (take f.state reply.now))) result controller.new }
    ensures any_moment { (f : Found Defined) → Stands K.Keeper f controller.old
        → IfSome (K.told controller.old.keeper) (λ _.
        LeavesOnly K.moment K.left_since controller.old.keeper controller.new.keeper
        (FindsDue f (Some (taken f reply.now (take f.state reply.now))))) }
    ensures counts { CountsDisk K.Keeper controller.old controller.new result }
{
    let _ = controller.state();
    replies_of_a_form_are_in_range();
    let made = controller.take(alloc, reply);
    match made {
        Ok(taken) => Ok(Came::Took {
            taken,
            last: reply.last().is_some(),
        }),
        Err(CallRefusal::Refused(refusal)) => Ok(Came::Declined(take_refused(refusal))),
        Err(CallRefusal::Hindered(hindrance)) => hindered(hindrance),
    }
}

/// Takes the reply that a frame has behind its kind.
fn heed_reply<K: Keeper>(
    alloc: Global,
    controller: &mut Controller<K>,
    body: &[u8],
) -> Result<Came, PullFault>
    requires up { IsSome controller.old.state }
    requires log { KeepsLog K.Keeper }
    ensures up { IfOk result (λ _. IsSome controller.new.state) }
    ensures reacts { (f : Found Defined) → Stands K.Keeper f controller.old
        → ReactsSo K.Keeper f (option_map (made f) (replied (decoded_reply body.now))) result controller.new }
    ensures any_moment { (f : Found Defined) → Stands K.Keeper f controller.old
        → IfSome (K.told controller.old.keeper) (λ _.
        LeavesOnly K.moment K.left_since controller.old.keeper controller.new.keeper
        (FindsDue f (option_map (made f) (replied (decoded_reply body.now))))) }
    ensures counts { CountsDisk K.Keeper controller.old controller.new result }
{
    let _ = controller.state();
    replies_have_one_spelling();
    match decode_reply(alloc, body) {
        Ok(reply) => {
            let came = take_reply(alloc, controller, &reply);
            drop(reply);
            came
        }
        Err(Failure::Refused(_)) => Err(PullFault::BadPeer),
        Err(Failure::NoMemory) => Err(PullFault::NoMemory),
    }
}

/// The outcome of a partner's refusal.
fn outcome_of(refusal: Refusal) -> Outcome
    ensures { result ≡ outcome_of refusal }
{
    match refusal {
        Refusal::Serve(refusal) => serve_refused(refusal),
        Refusal::LogFull { limit } => full(Table::Log, limit),
    }
}

/// Tells the refusal that a frame has behind its kind.
fn heed_refusal(body: &[u8]) -> Result<Came, PullFault>
    ensures declined { IfOk result (λ came. (f : Found Defined)
        → option_map (made f) (refused (decoded_refusal body.now)) ≡ Some (f, came)) }
    ensures strange { IsErrOf result PullFault.BadPeer → refused (decoded_refusal body.now) ≡ None }
    ensures only { IfErr result (λ fault. (fault ≡ PullFault.BadPeer) ⊎ (fault ≡ PullFault.NoMemory)) }
{
    match decode_refusal(body) {
        Ok(refusal) => Ok(Came::Declined(outcome_of(refusal))),
        Err(Failure::Refused(_)) => Err(PullFault::BadPeer),
        Err(Failure::NoMemory) => Err(PullFault::NoMemory),
    }
}

/// What comes of a frame that is heard behind a request.
pub(crate) fn react<K: Keeper>(
    alloc: Global,
    controller: &mut Controller<K>,
    bytes: &[u8],
) -> Result<Came, PullFault>
    requires up { IsSome controller.old.state }
    requires log { KeepsLog K.Keeper }
    ensures up { IfOk result (λ _. IsSome controller.new.state) }
    ensures reacts { (f : Found Defined) → Stands K.Keeper f controller.old
        → ReactsSo K.Keeper f (option_map (made f) (said_in bytes.now)) result controller.new }
    ensures any_moment { (f : Found Defined) → Stands K.Keeper f controller.old
        → IfSome (K.told controller.old.keeper) (λ _.
        LeavesOnly K.moment K.left_since controller.old.keeper controller.new.keeper
        (FindsDue f (option_map (made f) (said_in bytes.now)))) }
    ensures counts { CountsDisk K.Keeper controller.old controller.new result }
{
    let _ = controller.state();
    let Some((kind, body)) = bytes.split_first() else {
        return Err(PullFault::BadPeer);
    };
    match *kind {
        REPLY => heed_reply(alloc, controller, body),
        REFUSAL => heed_refusal(body),
        _ => Err(PullFault::BadPeer),
    }
}
