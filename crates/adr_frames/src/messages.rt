//! The messages that frames carry: the kind of each, and what stands behind it.

ghost use Rattle.std.specs.Prelude.{◌≡◌, ◌∷◌, IfOk};
ghost use Rattle.adr_frames.specs.Messages.{has_line_feed};

use adr_values::NoMemory;
use std::alloc::Global;

/// The kind of a frame, its first byte: a client asks for changes.
pub const REQUEST: u8 = 1;

/// A request is answered by changes.
pub const REPLY: u8 = 2;

/// A request is refused.
pub const REFUSAL: u8 = 3;

/// A client gives a line.
pub const LINE: u8 = 4;

/// What came of a line.
pub const OUTCOME: u8 = 5;

/// A client asks who is there.
pub const GREETING: u8 = 6;

/// A greeting is answered by the identifier of the controller.
pub const IDENTITY: u8 = 7;

/// The bytes of a frame of a kind.
pub fn framed(alloc: Global, kind: u8, body: &[u8]) -> Result<Vec<u8>, NoMemory>
    ensures { IfOk result (λ bytes. bytes.items ≡ kind ∷ body.now) }
{
    let mut bytes = Vec::from_slice(alloc, &[kind])?;
    bytes.extend_from_slice(body)?;
    Ok(bytes)
}

/// Whether bytes have a line feed. A line has none, nor has what came of it.
pub fn has_line_feed(bytes: &[u8]) -> bool
    ensures { result ≡ has_line_feed bytes.now }
{
    bytes.iter().any(|byte| *byte == b'\n')
}
