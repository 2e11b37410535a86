//! Runs of schedules over a source and a sink: the schedule that is read, and the generated one of a number.
//!
//! It decides what is written and the status. It stands on the parser of schedules, the run and the lines of answers, and
//! on the theorem of `adr_law_headline`. It doesn't know the words of the command line.
#![tactic(auto)]

mod exercising;
mod laws;
mod replaying;

pub use exercising::exercise;
pub use laws::runs_are_so;
pub use replaying::{ended, replay};
