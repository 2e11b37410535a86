//! The bytes of a controller's log: the front that says whose it is, areas with the image of a state, and the body of each
//! record with a change.
//!
//! This crate ties the images and bodies of `adr_image` to the journals of `adr_journal`, and makes a controller of what an
//! image says: the start of its own log does that, and an adoption under a fresh invocation identifier, and nothing else. What an area begins with and what its records say is read again as it was written, each state of a log is
//! formed, and a record is refused that can't follow the state before it. That is told by its numbers, by each write at its turn, by what it
//! removes, and by the objects and links that it touches (`follow.rt`), over the rows that `adr_overlay` tells. It knows nothing of disks, gates and of where
//! areas stand.
#![tactic(auto)]

mod adopting;
mod contents;
mod follow;
mod following;
mod forms;
mod head;
mod numbers;
mod records;
mod removed;
mod rows;
mod schema;
mod touched;
mod waking;
mod writes;

pub use adopting::adopt;
pub use contents::image_of;
pub use records::Records;
pub use rows::rows_of;
