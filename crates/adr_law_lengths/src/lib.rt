//! The length at which a reply is cut is a length in bytes: what the model counts of an item is how many bytes the
//! formats write of it. So is the length of a vector, also of one with its times.
//!
//! It stands on the definitions of requests in `adr_model` and on those of the formats in `adr_wire`. Its functions have
//! no code: each contract is a law. It knows nothing of records, nor of where a reply is cut.
#![tactic(auto)]

mod laws;

pub use laws::items_are_as_long_as_their_bytes;
