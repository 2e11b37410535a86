//! A frame is sent, and the next one heard.

ghost use Rattle.std.specs.Prelude.{IfSome};
ghost use Rattle.adr_outside.specs.Calls.{CountsLine};
ghost use Rattle.adr_pull.specs.Exchange.{Exchanges};

use adr_frames::{Heard, hear, say};
use adr_io::Fault;
use adr_outside::Net;
use std::alloc::Global;

/// Sends a message as a frame, and hears the next one: its kind and what stands behind it, or none where no whole frame
/// comes.
pub(crate) fn exchange<N: Net>(
    alloc: Global,
    net: &mut N,
    message: &[u8],
) -> Result<Option<Vec<u8>>, Fault>
    ensures exchanged { IfSome (N.traffic net.old) (λ t.
        Exchanges (λ v. v.items) t message.now result (N.traffic net.new)) }
    ensures counts { CountsLine N.Net net.old net.new result }
{
    say(alloc, net, message)?;
    match hear(alloc, net)? {
        Heard::Frame(bytes) => Ok(Some(bytes)),
        Heard::Over | Heard::Broken => Ok(None),
    }
}
