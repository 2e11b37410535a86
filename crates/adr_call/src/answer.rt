//! What is answered to an event.

use crate::{Outcome, Text};

/// The answer to an event: its verb, the controller that it happened to, and how it went.
#[derive(Drop)]
pub struct Answer {
    pub verb: Text,
    pub name: Text,
    pub outcome: Outcome,
}
