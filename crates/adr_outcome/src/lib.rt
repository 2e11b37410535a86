//! The outcomes of calls, made: a refusal with its number, its name and its fields, and what is told of a reply that was
//! made.
//!
//! It stands on the outcomes of `adr_call` and the replies of `adr_cycle`. It knows nothing of who refuses and why, of
//! a controller, or of the bytes of answers.
#![tactic(auto)]

mod refused;
mod replies;

pub use adr_call::Outcome;
pub use adr_cycle::Reply;
pub use refused::{
    adopt_refused, collect_refused, full, quarantined, serve_refused, take_refused,
    upgrade_refused, write_refused,
};
pub use replies::{sent, unsent};
