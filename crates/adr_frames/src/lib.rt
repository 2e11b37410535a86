//! Frames of a session: bytes to frames, and frames to bytes.
//!
//! It decides where a frame of a connection begins and ends, which bytes are none, and which kinds there are. It stands on
//! the connections of `adr_outside` and on the numbers of `adr_wire`, and doesn't know what stands behind a kind.
#![tactic(auto)]

mod hearing;
mod laws;
mod messages;
mod receiving;
mod saying;

pub use hearing::{Heard, hear};
pub use laws::frames_have_one_spelling;
pub use messages::{
    GREETING, IDENTITY, LINE, OUTCOME, REFUSAL, REPLY, REQUEST, framed, has_line_feed,
};
pub use saying::{FRAME_LIMIT, say};
