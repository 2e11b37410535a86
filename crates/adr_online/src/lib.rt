//! The commands over a network: the controller on a disk answers one connection after the other, or pulls a cycle from
//! another node, and a client sends its lines.
//!
//! Whoever has a controller attaches a disk that is handed in and comes back, and starts the controller that is there. A
//! server writes a line for each connection; whoever calls opens one connection and hangs it up. It stands on the sessions
//! of `adr_session`, on the client's side of a connection in `adr_pull`, on what `adr_node` sees of a controller's disk, and
//! on disks, networks, clocks, sources and sinks of any kind. It knows nothing of the words of a command line, or of
//! statuses.
#![tactic(auto)]

mod checking;
mod connecting;
mod dialling;
mod ended;
mod pulling;
mod sending;
mod serving;
mod telling;

pub use ended::{Online, Pulled, Sent};
pub use pulling::pull;
pub use sending::send;
pub use serving::serve;
