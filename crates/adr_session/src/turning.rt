//! One message of a connection.

ghost use Rattle.std.specs.Prelude.{◌≡◌, IsSome};
ghost use Rattle.adr_law_controller.specs.Keeping.{KeepsLog};
ghost use Rattle.adr_session.specs.Told.{HasHeard, IsAt};
ghost use Rattle.adr_session.specs.Turns.{Turns, sent};

use crate::answering::react;
use crate::ending::{End, ServeFault};
use adr_controller::{Controller, Keeper};
use adr_frames::{Heard, hear, say};
use adr_io::Fault;
use adr_outside::{Clock, Net};
use std::alloc::Global;

/// What a turn comes to whose answer was sent, or wasn't.
fn sent(said: Result<(), Fault>) -> Result<Option<End>, ServeFault>
    ensures { result ≡ sent said }
{
    match said {
        Ok(()) => Ok(None),
        Err(Fault::Failed) => Ok(Some(End::Fault)),
        Err(Fault::NoMemory) => Err(ServeFault::NoMemory),
    }
}

/// Answers a frame that was heard, or tells how it ends the connection.
fn answer_frame<K: Keeper, N: Net, C: Clock>(
    alloc: Global,
    controller: &mut Controller<K>,
    net: &mut N,
    clock: &mut C,
    bytes: &[u8],
) -> Result<Option<End>, ServeFault>
    requires up { IsSome controller.old.state }
    requires log { KeepsLog K.Keeper }
    ensures { Turns K.Keeper N.Net C.Clock
        (λ t p. HasHeard K.Keeper t p bytes.now controller.old (N.traffic net.old) (C.moments clock.old))
        controller.old controller.new net.old net.new clock.old clock.new result }
{
    let reacted = react(alloc, controller, clock, bytes);
    let _ = controller.state();
    let Some(answer) = reacted? else {
        return Ok(Some(End::Malformed));
    };
    let said = say(alloc, net, &answer);
    sent(said)
}

/// Hears a message and answers it, or tells how the connection has ended.
pub(crate) fn take_turn<K: Keeper, N: Net, C: Clock>(
    alloc: Global,
    controller: &mut Controller<K>,
    net: &mut N,
    clock: &mut C,
) -> Result<Option<End>, ServeFault>
    requires up { IsSome controller.old.state }
    requires log { KeepsLog K.Keeper }
    ensures { Turns K.Keeper N.Net C.Clock
        (λ t p. IsAt K.Keeper t p controller.old (N.traffic net.old) (C.moments clock.old))
        controller.old controller.new net.old net.new clock.old clock.new result }
{
    let _ = controller.state();
    let bytes = match hear(alloc, net) {
        Ok(Heard::Frame(bytes)) => bytes,
        Ok(Heard::Over) => return Ok(Some(End::Hung)),
        Ok(Heard::Broken) => return Ok(Some(End::Malformed)),
        Err(Fault::Failed) => return Ok(Some(End::Fault)),
        Err(Fault::NoMemory) => return Err(ServeFault::NoMemory),
    };
    answer_frame(alloc, controller, net, clock, &bytes)
}
