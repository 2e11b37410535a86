//! A request is answered.

ghost use Rattle.std.specs.Prelude.{◌≡◌, ◌∷◌, ℕ, List, IfOk, IsSome, Some};
ghost use Rattle.adr_model.specs.Serve.{serve};
ghost use Rattle.adr_packet.specs.Requests.{IsRequest};
ghost use Rattle.adr_packet.specs.Replies.{IsShortReply, reply_bytes};
ghost use Rattle.adr_packet.specs.declared.refusal.Refusal.TheVariants as refusals;
ghost use Rattle.adr_model.specs.Lengths.{log_limit};
ghost use Rattle.adr_session.specs.Made.{Makes, Tells};
ghost use Rattle.adr_session.specs.Talk.{refused, replies};
ghost use Rattle.adr_law_controller.specs.Keeping.{KeepsLog};

use crate::ending::ServeFault;
use adr_controller::{CallRefusal, Controller, Hindrance, Keeper};
use adr_frames::{REFUSAL, REPLY, framed};
use adr_law_messages::served_replies_have_a_form;
use adr_packet::{
    Refusal, Reply, Request, encode_refusal, encode_reply, replies_have_one_spelling,
};
use adr_state::LOG_LIMIT;
use adr_values::NoMemory;
use std::alloc::Global;

/// The frame of a reply.
fn replied(alloc: Global, reply: &Reply) -> Result<Vec<u8>, NoMemory>
    requires short { IsShortReply reply.now }
    ensures { IfOk result (λ bytes. bytes.items ≡ 2 ∷ reply_bytes reply.now) }
{
    let body = encode_reply(alloc, reply)?;
    framed(alloc, REPLY, &body)
}

/// The frame of a refusal.
fn refused(alloc: Global, refusal: &Refusal) -> Result<Vec<u8>, NoMemory>
    ensures { IfOk result (λ bytes. bytes.items ≡ refused refusal.now) }
{
    let body = encode_refusal(alloc, refusal)?;
    framed(alloc, REFUSAL, &body)
}

/// The frame that tells of a request whose quarantine was hindered: a full log is told. A controller that has no state in
/// memory tells nothing.
fn hindered(alloc: Global, hindrance: Hindrance) -> Result<Vec<u8>, ServeFault>
    ensures { (said : List ℕ) → Tells (λ v. v.items) said (refused (refusals.LogFull log_limit)) (Some hindrance) result }
{
    match hindrance {
        Hindrance::Full => Ok(refused(alloc, &Refusal::LogFull { limit: LOG_LIMIT })?),
        Hindrance::NoMemory => Err(ServeFault::NoMemory),
        Hindrance::DiskFault | Hindrance::Down | Hindrance::Failed => Err(ServeFault::Disk),
    }
}

/// The frame that answers a request at a moment in seconds: a reply or a refusal. A controller that it shows to be put back is quarantined before.
pub(crate) fn reply_to<K: Keeper>(
    alloc: Global,
    controller: &mut Controller<K>,
    request: &Request,
    now: u64,
) -> Result<Vec<u8>, ServeFault>
    requires up { IsSome controller.old.state }
    requires log { KeepsLog K.Keeper }
    requires form { IsRequest request.now }
    ensures { Makes (λ v. v.items) K.Keeper (λ f. replies f (serve f.state request.now now))
        controller.old controller.new result }
{
    served_replies_have_a_form();
    replies_have_one_spelling();
    let _ = controller.state();
    match controller.serve(alloc, request, now) {
        Ok(reply) => Ok(replied(alloc, &reply)?),
        Err(CallRefusal::Refused(refusal)) => Ok(refused(alloc, &Refusal::Serve(refusal))?),
        Err(CallRefusal::Hindered(hindrance)) => hindered(alloc, hindrance),
    }
}
