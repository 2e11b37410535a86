//! Answers as bytes: the line of an answer, and the lines of a report behind it, with the law that a
//! report tells what it reports; the head of an answer, by its event; and how answers are written. It
//! stands on the tokens of `adr_token`, the events and answers of `adr_call` and the sinks of `adr_io`,
//! and knows nothing of what an event does.
#![tactic(auto)]

mod answers;
mod each;
mod entries;
mod knowledge;
mod laws;
mod lines;
mod meta;
mod telling;

pub use adr_call::Answer;
pub use adr_values::NoMemory;
pub use answers::{Heading, name_of};
pub use knowledge::push_number_behind;
pub use laws::{
    equal_lines_mean_equal_directories, equal_lines_mean_equal_knowledge,
    what_is_allowed_is_printable,
};
pub use lines::{line, push_nameless, result_line, truth_text};
pub use telling::tell;
