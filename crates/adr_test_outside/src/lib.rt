//! A clock, fresh identifiers and a network in memory, which tell all that they hold and can be told to fail at a call.
//!
//! They are for tests, and the program doesn't use them. The crate stands on the traits of `adr_outside` and
//! the plans of `adr_test_io`, and doesn't know what bytes mean.
#![tactic(auto)]

mod clock;
mod connections;
mod fresh;
mod net;
mod supply;

pub use clock::MemClock;
pub use fresh::MemFresh;
pub use net::MemNet;
