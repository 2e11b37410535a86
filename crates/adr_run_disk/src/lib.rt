//! A disk in memory, where a crash is planned and its outcome exact. It stands on the trait and the definitions of
//! adr_disk, and doesn't know what the bytes mean.
#![tactic(auto)]

mod memory;
mod passed;
mod platter;

pub use memory::MemDisk;
pub use platter::put;
