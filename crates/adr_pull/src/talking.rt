//! What is said to a partner, and the frame that it answers.

ghost use Rattle.std.specs.Prelude.{◌≡◌, ◌<◌, ◌≤◌, IfErr, IfOk, IfSome, IsErrOf, IsSome, Some};
ghost use Rattle.adr_model.specs.Store.{State as Defined};
ghost use Rattle.adr_pull.specs.Counted.{CountsLink};
ghost use Rattle.adr_pull.specs.Fetch.{partner_in, request};
ghost use Rattle.adr_pull.specs.Told.{Converses, Meets};

use crate::exchanging::exchange;
use crate::fault::PullFault;
use adr_controller::{Controller, Keeper};
use adr_frames::{GREETING, IDENTITY, REQUEST, framed};
use adr_io::Fault;
use adr_outside::Net;
use adr_packet::encode_request;
use adr_values::Guid;
use std::alloc::Global;

/// The most items of a reply.
const ITEM_LIMIT: u32 = 1000;

/// The version of the protocol in which a node pulls. It takes replies of both.
const PULL_VERSION: u16 = 2;

/// Sends a message as a frame, and hears the one that is due.
fn converse<N: Net>(alloc: Global, net: &mut N, message: &[u8]) -> Result<Vec<u8>, PullFault>
    ensures converses { IfSome (N.traffic net.old) (λ t.
        Converses (λ v. v.items) t message.now result (N.traffic net.new)) }
    ensures counts { CountsLink N.Net net.old net.new result }
{
    match exchange(alloc, net, message) {
        Ok(Some(bytes)) => Ok(bytes),
        Ok(None) => Err(PullFault::BadPeer),
        Err(Fault::Failed) => Err(PullFault::Link),
        Err(Fault::NoMemory) => Err(PullFault::NoMemory),
    }
}

/// Sends a partner a request of the state, and hears the frame that is due.
pub(crate) fn ask<K: Keeper, N: Net>(
    alloc: Global,
    controller: &Controller<K>,
    partner: Guid,
    net: &mut N,
) -> Result<Vec<u8>, PullFault>
    requires up { IsSome controller.now.state }
    ensures asked { (s : Defined) → controller.now.state ≡ Some s → IfSome (N.traffic net.old) (λ t.
        Converses (λ v. v.items) t (request s partner) result (N.traffic net.new)) }
    ensures counts { CountsLink N.Net net.old net.new result }
{
    let message = request(alloc, controller, partner)?;
    converse(alloc, net, &message)
}

/// A request of the state as a message: its kind and its bytes.
fn request<K: Keeper>(
    alloc: Global,
    controller: &Controller<K>,
    partner: Guid,
) -> Result<Vec<u8>, PullFault>
    requires up { IsSome controller.now.state }
    ensures request { (s : Defined) → controller.now.state ≡ Some s
        → IfOk result (λ message. message.items ≡ request s partner) }
    ensures refused { IfErr result (λ fault. fault ≡ PullFault.NoMemory) }
{
    let Ok(request) = controller.ask(alloc, partner, ITEM_LIMIT, PULL_VERSION) else {
        return Err(PullFault::NoMemory);
    };
    let bytes = encode_request(alloc, &request)?;
    let message = framed(alloc, REQUEST, &bytes)?;
    Ok(message)
}

/// The partner that a frame names.
fn partner_in(bytes: &[u8]) -> Option<Guid>
    ensures { result ≡ partner_in bytes.now }
{
    let (kind, rest) = bytes.split_first()?;
    let (dsa, behind) = rest.split_first_chunk::<16>()?;
    if *kind == IDENTITY && behind.is_empty() {
        return Some(Guid::from_bytes(*dsa));
    }
    None
}

/// Asks who is there.
pub(crate) fn meet<N: Net>(alloc: Global, net: &mut N) -> Result<Guid, PullFault>
    ensures meets { IfSome (N.traffic net.old) (λ t. Meets t result (N.traffic net.new)) }
    ensures counts { CountsLink N.Net net.old net.new result }
{
    let bytes = converse(alloc, net, &[GREETING])?;
    match partner_in(&bytes) {
        Some(partner) => Ok(partner),
        None => Err(PullFault::BadPeer),
    }
}
