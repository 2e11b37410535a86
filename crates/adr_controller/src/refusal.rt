//! Why a call of a controller didn't answer.

ghost use Rattle.std.specs.Prelude.{◌≡◌};
ghost use Rattle.adr_controller.specs.declared.refusal.CallRefusal.TheVariants.{Hindered as hindered};
ghost use Rattle.adr_controller.specs.declared.refusal.Hindrance.TheVariants.{NoMemory as no_memory};
ghost use Rattle.adr_controller.specs.Ended.{kept_as, of_failure};

use adr_journal::KeeperRefusal;
use adr_state::LOG_LIMIT;
use adr_values::Failure;
use std::alloc::AllocError;
use std::fmt::Display;
use thiserror::Error;

/// What keeps a controller from making a call, whatever the call.
#[derive(Clone, Copy, Debug, Error)]
pub enum Hindrance {
    /// It was stopped, and not started since.
    #[error("down")]
    Down,
    /// A call of its disk failed, and no start has succeeded since.
    #[error("failed")]
    Failed,
    /// Its log would end beyond its limit, or an image or a record would be too long for its length.
    #[error("Full table=Log limit={}", LOG_LIMIT)]
    Full,
    /// A call of its disk failed within this call.
    #[error("disk")]
    DiskFault,
    #[error("no memory")]
    NoMemory,
}

/// Why a call of a controller didn't answer: its state refused the call, or the controller couldn't make it.
#[derive(Clone, Copy, Debug, Drop, Error)]
#[error_bound(R: Display)]
pub enum CallRefusal<R> {
    #[error(transparent)]
    Refused(R),
    #[error(transparent)]
    Hindered(Hindrance),
}

impl From<AllocError> for Hindrance {
    ghost from_gives = { λ _ e. e ≡ no_memory };

    fn from(_e: AllocError) -> Hindrance {
        Hindrance::NoMemory
    }
}

impl From<KeeperRefusal> for Hindrance {
    ghost from_gives = { λ refusal h. h ≡ kept_as refusal };

    fn from(refusal: KeeperRefusal) -> Hindrance {
        match refusal {
            KeeperRefusal::DiskFault => Hindrance::DiskFault,
            KeeperRefusal::Failed => Hindrance::Failed,
            KeeperRefusal::Full => Hindrance::Full,
            KeeperRefusal::NoMemory => Hindrance::NoMemory,
        }
    }
}

impl<R> From<Hindrance> for CallRefusal<R> {
    ghost from_gives = { λ hindrance e. e ≡ hindered hindrance };

    fn from(hindrance: Hindrance) -> CallRefusal<R> {
        CallRefusal::Hindered(hindrance)
    }
}

impl<R> From<AllocError> for CallRefusal<R> {
    ghost from_gives = { λ _ e. e ≡ hindered no_memory };

    fn from(_e: AllocError) -> CallRefusal<R> {
        CallRefusal::Hindered(Hindrance::NoMemory)
    }
}

impl<R> From<Failure<R>> for CallRefusal<R> {
    ghost from_gives = { λ failure e. e ≡ of_failure failure };

    fn from(failure: Failure<R>) -> CallRefusal<R> {
        match failure {
            Failure::Refused(refusal) => CallRefusal::Refused(refusal),
            Failure::NoMemory => CallRefusal::Hindered(Hindrance::NoMemory),
        }
    }
}
