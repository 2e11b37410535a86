//! Lines that come in frames, and the frame that tells who is there.

ghost use Rattle.std.specs.Prelude.{◌≡◌, ◌∷◌, IfOk, IsSome, Some};
ghost use Rattle.adr_model.specs.Store.{State as Defined};
ghost use Rattle.adr_session.specs.Talk.{is_line};

use adr_controller::{Controller, Keeper};
use adr_frames::{IDENTITY, framed, has_line_feed};
use adr_values::NoMemory;
use std::alloc::Global;

/// The most bytes of a line.
pub const LINE_LIMIT: usize = 65_536;

/// Whether bytes are a line: not too long, and without a line feed.
pub(crate) fn is_line(bytes: &[u8]) -> bool
    ensures { result ≡ is_line bytes.now }
{
    bytes.len() <= LINE_LIMIT && !has_line_feed(bytes)
}

/// The frame that tells who is there.
pub(crate) fn greet<K: Keeper>(
    alloc: Global,
    controller: &Controller<K>,
) -> Result<Vec<u8>, NoMemory>
    requires up { IsSome controller.now.state }
    ensures { IfOk result (λ bytes. (s : Defined) → controller.now.state ≡ Some s → bytes.items ≡ 7 ∷ s.dsa) }
{
    match controller.state() {
        Some(state) => framed(alloc, IDENTITY, state.dsa().as_bytes()),
        None => unreachable!(),
    }
}
