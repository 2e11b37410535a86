//! The controllers of a run: each under its name, on a journal in memory under a plan, and beside it what only proofs
//! see: the call that is on its disk and isn't safe, and the past of the run.
//!
//! A contract sees a controller as the definitions' replica, with what a start of its disk would find, what a crash
//! would leave that loses the unsynced, where both logs stand, and the plan; each call does what the definitions say,
//! in every world in which the controller stands. It stands on `adr_controller`, on the log of `adr_records`, and on
//! the laws of `adr_law_recorded`, by which every change that a call makes can be recorded. It knows nothing of the
//! other controllers of a run, of the names that lines bind, or of the bytes of answers.
#![tactic(auto)]

mod hindered;
mod keepers;
mod past;
mod replica;
mod restoring;
mod reviving;
mod snapshot;
mod told;

pub use adr_call::{Call, Outcome};
pub use adr_controller::Revival;
pub use adr_cycle::{Reply, Request};
pub use adr_restore::Image;
pub use adr_state::State;
pub use past::Past;
pub use replica::Replica;
pub use snapshot::Snapshot;
