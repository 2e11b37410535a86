//! Revivals: an object of an image comes again at a controller, under a new birth, with the values and the links that the
//! image shows. What that writes, or why it is refused.
//!
//! It stands on the tests of `adr_origin`, on what `adr_view` shows of a GUID, and on the law of `adr_law_revived`. It knows
//! nothing of the bytes of images, of the disk, or of how a change is committed.
#![tactic(auto)]

mod archive;
mod checks;
mod climbing;
mod found;
mod links;
mod placing;
mod revival;
mod rows;

pub use adr_call::{Failure, WriteRefusal};
pub use adr_origin::{Change, State};
pub use adr_values::NoMemory;
pub use archive::Archive;
pub use revival::{Revival, revive};
