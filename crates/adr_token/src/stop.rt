//! Why a reader stopped.

use adr_values::Failure;
use thiserror::Error;

/// No such token stands there.
#[derive(Clone, Copy, Debug, Error)]
#[error("no such token")]
pub struct Bad;

/// Why a token wasn't read.
pub type Stop = Failure<Bad>;
