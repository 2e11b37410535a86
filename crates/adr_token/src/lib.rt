//! The tokens of the schedule language and of answers: names, numbers, identifiers, texts, classes,
//! attributes and sets of values, each with its reader, its writer and the law that joins them. It
//! stands on GUIDs, on the values of `adr_values` and on the names that `adr_checks` has, and knows
//! nothing of lines, events or answers.
#![tactic(auto)]

mod classes;
mod identifiers;
mod laws;
mod numbers;
mod sets;
mod stop;
mod texts;
mod values;
mod words;
mod writing;

pub use laws::{
    attributes_read_back, classes_read_back, identifiers_read_back, names_read_back,
    numbers_read_back, sets_read_back, texts_read_back,
};
pub use stop::{Bad, Stop};
pub use texts::utf8;
pub use values::{push_attribute, push_class, push_set};
pub use words::{Line, without_spaces};
pub use writing::{push, push_identifier, push_number, push_text};
