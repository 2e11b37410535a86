//! Why a call gave nothing: it was refused, or memory ran out.
//!
//! Every call that may be refused and that takes memory answers in this shape, with a refusal of its own.

ghost use Rattle.std.specs.Prelude.{◌≡◌};
ghost use Rattle.adr_values.specs.declared.failure.Failure.TheVariants.{NoMemory as no_memory};

use std::alloc::{AllocError, AllocFailed};
use std::fmt::Display;
use thiserror::Error;

/// Memory ran out.
pub type NoMemory = AllocError;

/// Why a call gave nothing: it was refused, or memory ran out.
#[derive(Debug, Drop, PartialEq, Eq, Error)]
#[error_bound(R: Display)]
pub enum Failure<R> {
    #[error(transparent)]
    Refused(R),
    #[error("no memory")]
    NoMemory,
}

impl<R> From<AllocError> for Failure<R> {
    ghost from_gives = { λ _ e. e ≡ no_memory };

    fn from(_e: AllocError) -> Failure<R> {
        Failure::NoMemory
    }
}

impl<R, T: Drop> From<AllocFailed<T>> for Failure<R> {
    ghost from_gives = { λ _ e. e ≡ no_memory };

    fn from(_e: AllocFailed<T>) -> Failure<R> {
        Failure::NoMemory
    }
}
