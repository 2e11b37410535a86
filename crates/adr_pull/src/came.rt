//! What a frame of a partner comes to.

use adr_call::Outcome;
use adr_controller::Taken;

/// What came of a frame that was due behind a request.
#[derive(Drop)]
pub enum Came {
    /// Its reply was taken, and whether it was the last.
    Took { taken: Taken, last: bool },
    /// The partner refused the request, or the controller the reply.
    Declined(Outcome),
}
