//! Sessions: what comes in a connection, as messages, and how a node answers them one after the other.
//!
//! It decides what each message is answered, in which order, and how a connection ends. It stands on the controllers of
//! `adr_controller`, on the messages of `adr_packet` and the frames of `adr_frames`, on the lines of schedules and answers,
//! and on the connections and clocks of `adr_outside`. It knows nothing of files, of ports, or of the words of a command.
#![tactic(auto)]

mod acting;
mod answering;
mod ending;
mod framing;
mod laws;
mod line_laws;
mod lines;
mod replying;
mod serving;
mod turning;

pub use adr_call::Call;
pub use adr_controller::{Controller, Keeper};
pub use adr_outside::{Clock, Net};
pub use ending::{End, ServeFault, Served};
pub use framing::LINE_LIMIT;
pub use laws::worked_session;
pub use lines::call_said;
pub use serving::serve_one;
