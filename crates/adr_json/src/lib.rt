//! A directory as JSON, for programs that read it elsewhere: one compact array with an object for each entry.
//!
//! It stands on the directories of `adr_call`, on `adr_checks` for the names of classes and attributes, and on the
//! kit's `serde_json` for all syntax. It knows nothing of controllers, of answers or of where the bytes go.
#![tactic(auto)]

mod entries;
mod laws;
mod objects;
mod values;

pub use adr_call::Directory;
pub use adr_values::NoMemory;
pub use entries::json;
pub use laws::{
    allowed_values_are_of_kind, equal_json_means_equal_directories, json_reads_back,
    worked_directories,
};
