//! Why bytes could not be read.

use adr_values::Failure;
use thiserror::Error;

/// The bytes are not the spelling of what is read. `place` counts bytes from 0: it is the first byte of the first
/// field that is cut off or out of range, of a count or length that is too great, or of an element out of order.
#[derive(Clone, Copy, Debug, PartialEq, Eq, Error)]
#[error("malformed at byte {place}")]
pub struct Malformed {
    pub place: u64,
}

/// Why a call of a reader gave nothing.
pub type WireRefusal = Failure<Malformed>;

/// Why bytes were refused that begin with a magic and a version.
#[derive(Clone, Copy, Debug, PartialEq, Eq, Error)]
pub enum DecodeRefusal {
    /// They are not of the form of that version, or have another magic. `place` is as in `Malformed`.
    #[error("malformed at byte {place}")]
    Malformed { place: u64 },
    /// The magic is right, and no form of that version is known.
    #[error("no form of version {found} is known")]
    WrongVersion { found: u16 },
}
