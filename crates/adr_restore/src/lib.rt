//! Images of controllers, and controllers that adopt them.
//!
//! An image is a database as bytes, which belongs to no controller: it can't write, serve, take or ask. A controller comes
//! of it under a fresh invocation identifier alone, and its objects may be revived at others. It stands on the images of `adr_image`, on the states of a log in
//! `adr_records`, and on the laws of `adr_law_recorded`. It knows nothing of disks, or of the names that lines bind.
#![tactic(auto)]

mod image;

pub use adr_call::{AdoptRefusal, Failure};
pub use adr_revival::Archive;
pub use adr_state::{NoMemory, State};
pub use image::Image;
