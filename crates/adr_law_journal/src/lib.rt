//! What a log of gated records stands for, and what a crash or a planned mishap leaves of it: the bytes of a journal say
//! of every prefix, torn write and failed call what a start finds there.
//!
//! A log is an area, which a slot of its head selects: a state, and then records. A checkpoint writes a new area of the
//! state beside the live one and selects it. The laws ask of the forms of a head and of an area only that they are read
//! from left to right, and of a record only what its body makes of a state, by its area's version; so they hold for every
//! layout of them. They stand on the disks of `adr_disk`, on the fields of `adr_wire` and on the replicas of `adr_model`.
//! The crate's functions have no code: each contract is a law. It knows nothing of images, of memory, or of who commits
//! what.
#![tactic(auto)]

mod checkpoints;
mod commits;
mod plans;
mod starts;

pub use checkpoints::{a_checkpoint_leaves_the_state, logs_stay_bounded};
pub use commits::{a_commit_to_an_area_is_there_or_not, a_format_with_an_area_is_there_or_not};
pub use plans::{
    a_checkpoint_goes_as_planned, a_commit_goes_as_planned, a_start_goes_as_planned,
    two_runs_of_calls_are_one,
};
pub use starts::{a_start_reads_an_area, a_start_reads_an_area_record_by_record};
