//! The program's one call: what its words ask for, over a source, a sink, a disk, a network, a clock and identifiers of any
//! kind, and the status of that. It stands on the words of `adr_words`, on the runs of schedules of `adr_run_replay`, on the
//! commands over a disk of `adr_node`, and on those over a network of `adr_online`.
#![tactic(auto)]

mod disk;
mod online;
mod top;

pub use top::run;
