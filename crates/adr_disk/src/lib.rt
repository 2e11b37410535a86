//! A disk that may crash: the trait that a journal stands on, and what is said of a disk in memory, where a crash is
//! planned and its outcome exact. It stands on adr_io, and doesn't know what the bytes mean.
#![tactic(auto)]

mod disk;
mod memory;
mod through;

pub use disk::Disk;
pub use memory::{Crash, Mishap, Plan};
pub use through::{write_through, write_twice_through};
