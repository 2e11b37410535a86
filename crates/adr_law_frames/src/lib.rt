//! What is answered fits a frame: each item that a state of a log can send is short, and a reply is cut before its
//! bytes are more than a frame may have.
//!
//! It stands on what a state of a log holds, on the tables of the schemas, on the length at which a reply is cut, and
//! on the bytes of replies. Its functions have no code: each contract is a law, stated in `specs/Fits`.
#![tactic(auto)]

mod laws;

pub use laws::{offered_items_are_short, served_replies_fit};
