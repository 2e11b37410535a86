//! Images, changes as the bodies of records, and items: as bytes, and back.
//!
//! This crate decides how the bytes of each are read, which are refused and where, and how each is written. Of each store
//! there is one image, and whatever is read of one is formed; of each change there is one body. It stands on the fields and
//! composites of `adr_wire` and on the definitions in `adr_model`. It knows nothing of disks, of where records stand, or of
//! the controllers that own a store.
#![tactic(auto)]

mod anew;
mod bodies;
mod changes;
mod contents;
mod decoding;
mod dormant;
mod encoding;
mod gathered;
mod known;
mod laws;
mod links;
mod marks;
mod naming;
mod objects;
mod rows;

pub use adr_wire::{DecodeRefusal, Failure, NoMemory};
pub use bodies::{encode_change, write_item};
pub use changes::{decode_change, read_item};
pub use contents::{Contents, ContentsRef};
pub use decoding::{decode, read_image};
pub use dormant::Dormant;
pub use encoding::{encode, write_image};
pub use laws::{
    bodies_have_one_spelling, changes_have_one_spelling, images_are_as_long_as_counted,
    images_have_one_spelling, parts_have_one_spelling, stores_stay_spelled, worked_images,
};
pub use naming::names_inv;
