//! Schedules: the events that the lines of a text stand for, or its first fault and the line that tells it. It stands
//! on the tokens of `adr_token` and the events of `adr_call`, and knows nothing of what an event does.
#![tactic(auto)]

mod bound;
mod commands;
mod crashes;
mod fault;
mod given;
mod laws;
mod limits;
mod lines;
mod members;
mod parsing;
mod seen;
mod sets;
mod telling;
mod verb;

pub use adr_call::{Event, Failure};
pub use commands::{event_of, is_passed};
pub use crashes::crash_word;
pub use fault::{Cause, ScheduleFault};
pub use laws::{faults_read_back, lines_read_back, schedules_read_back};
pub use limits::TEXT_LIMIT;
pub use lines::first_line;
pub use parsing::parse;
pub use telling::fault_line;
