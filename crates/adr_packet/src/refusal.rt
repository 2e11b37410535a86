//! A refusal of a request, as it is sent.

use adr_call::ServeRefusal;
use thiserror::Error;

/// Why a request was not answered by a reply.
#[derive(Clone, Copy, Debug, Error)]
pub enum Refusal {
    /// The controller refused it.
    #[error(transparent)]
    Serve(ServeRefusal),
    /// The request showed that the controller was put back, and its log, which would pass the limit, has no room for the
    /// quarantine.
    #[error("Full table=Log limit={limit}")]
    LogFull { limit: u64 },
}
