//! The schedule that is generated of a number: four controllers add groups and persons, meet by chance, lose replies,
//! restore one of them, and delete and collect. It keeps its definition, gives its events, and says that they may be run.
//! It stands on the events of `adr_call` and on what is known of the lines of a schedule, and knows nothing of what an
//! event does.
#![tactic(auto)]

mod generating;
mod generator;
mod laws;
mod lines;
mod persons;
mod words;

pub use generating::generate;
pub use laws::{schedules_are_read, schedules_follow};
