//! One controller over a disk, by a command: it is made, shown, exported or backed up.
//!
//! Each command attaches a disk that is handed in and comes back, does its work, writes what is due and tells how it
//! ended. It stands on the controllers of `adr_controller` over the logs of `adr_records`, on what `adr_view`, `adr_json`
//! and `adr_answers` make of a state, and on disks, sources and sinks of any kind. It knows nothing of the words of a
//! command line, of statuses, or of a network.
#![tactic(auto)]

mod adopting;
mod beginning;
mod creating;
mod drawing;
mod ended;
mod imaging;
mod lines;
mod looking;
mod making;
mod sights;
mod verdicts;

pub use adopting::adopt;
pub use beginning::begin;
pub use creating::create;
pub use ended::{Creation, Looked, Refusal, Unbegun};
pub use looking::look;
pub use sights::Sight;
