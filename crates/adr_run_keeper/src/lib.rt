//! Keepers under a plan: what a rehearsal does to the disk of a journal, and of a controller over one, and that commits
//! and starts then go where the definitions' replicas go.
//!
//! It stands on the journals of `adr_journal`, on the controllers of `adr_controller` and on the disk in memory of
//! `adr_run_disk`. It knows nothing of a world, of names, or of what a call is answered.
#![tactic(auto)]

mod controller;
mod journal;
mod planned;

pub use adr_values::NoMemory;
pub use controller::{
    bytes, commits_go_as_planned, crash, fail_after, is_stopped, revive, stop_after,
};
pub use journal::{in_memory, with_bytes};
pub use planned::PlannedKeeper;
