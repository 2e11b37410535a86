//! The text of some events, which `adr_schedule` reads as those events again. It stands on the tokens of `adr_token` and the
//! grammar of `adr_schedule`, and knows nothing of what an event does.
#![tactic(auto)]

mod laws;
mod printing;

pub use laws::events_are_read_again;
pub use printing::print;
