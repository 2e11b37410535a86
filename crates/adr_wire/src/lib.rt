//! Fields and composites as bytes.
//!
//! This crate decides how numbers, identifiers, texts, values, rows, links, marks and vectors are spelled in messages,
//! images and journal records: each in one way. It decides with what a message begins, and that it ends with its last
//! byte. Whatever is read is the value whose spelling stands there, and all else is refused at the first place that is
//! wrong. It stands on `adr_values` for the values. It knows nothing of what a message, an image or a journal says, nor of
//! what a schema allows.
#![tactic(auto)]

mod composites;
mod headed;
mod laws;
mod lists;
mod reader;
mod refusal;
mod timed;
mod writer;
mod writing;

pub use adr_values::{Failure, NoMemory};
pub use headed::{malformed, open_known, open_message};
pub use laws::{composites_have_one_spelling, fields_have_one_spelling, pieces_have_one_spelling};
pub use reader::Reader;
pub use refusal::{DecodeRefusal, Malformed, WireRefusal};
pub use writer::Writer;
