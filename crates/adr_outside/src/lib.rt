//! What a node finds outside, beside its disk and what it reads and writes: the time, fresh identifiers, connections.
//!
//! Traits that count their failures, a network those of its doors and those of its lines, and adapters that tell
//! nothing of what they give. It stands on `adr_io` for faults and on `uuid` for random identifiers, and doesn't know
//! what bytes mean.
#![tactic(auto)]

mod clock;
mod fresh;
mod line;
mod net;
mod random;
mod system;
mod tcp;

pub use clock::Clock;
pub use fresh::Fresh;
pub use net::Net;
pub use random::RandomFresh;
pub use system::SystemClock;
pub use tcp::TcpNet;
