//! Writes several records to a log on a disk at once: what stands behind the log's closed gate, and then the gate, by four
//! calls, however many records there are. A start finds none of them or all.
//!
//! It stands on the disks of `adr_disk`, on the journal of `adr_journal` and on the laws of `adr_law_group`. It doesn't know
//! what a record means, or when to write.
#![tactic(auto)]

mod beginning;
mod checkpoint;
mod gathering;
mod joining;
mod restarting;
mod settling;

pub use gathering::Gathering;
pub use settling::settle;
