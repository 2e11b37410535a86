//! The client's side of a connection: a cycle from a partner, whose replies are taken, and a client's lines, whose answers
//! are written.
//!
//! It stands on the controllers of `adr_controller`, on the frames of `adr_frames` and the messages of `adr_packet`, on the
//! lines of `adr_schedule` and `adr_answers`, and on the connections of `adr_outside`, of which one is open already. It
//! knows nothing of files, of ports, or of the words of a command.
#![tactic(auto)]

mod answering;
mod came;
mod exchanging;
mod fault;
mod laws;
mod pulling;
mod reacting;
mod sending;
mod talking;
mod telling;
mod turning;

pub use adr_controller::{Controller, Keeper};
pub use adr_io::Sink;
pub use adr_outside::Net;
pub use fault::{PullFault, SendFault};
pub use laws::worked_pull;
pub use pulling::pull;
pub use sending::send;
