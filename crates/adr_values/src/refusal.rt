//! What a schema refuses.

use thiserror::Error;

/// Why a schema refuses a write or a row. An `attr` is an attribute's number.
#[derive(Clone, Copy, Debug, Error)]
pub enum SchemaRefusal {
    /// The schema has no such class.
    #[error("UnknownClass")]
    UnknownClass,
    /// The schema has no such attribute.
    #[error("UnknownAttribute attr=%{attr}")]
    UnknownAttribute { attr: u16 },
    /// The attribute is reserved, or objects of the class do not have it.
    #[error("NotAllowed attr=%{attr}")]
    NotAllowed { attr: u16 },
    /// An attribute that objects of the class must have would have no value.
    #[error("MissingMust attr=%{attr}")]
    MissingMust { attr: u16 },
    /// The value at `place`, from 0, is not of the attribute's syntax and range, repeats an earlier
    /// value or is one too many; or there is no value where one is needed, with place 0.
    #[error("BadValue attr=%{attr} place={place}")]
    BadValue { attr: u16, place: u32 },
    /// A list of values is given to an attribute that holds links.
    #[error("IsLink attr=%{attr}")]
    IsLink { attr: u16 },
    /// A link is given to an attribute that no link is written under.
    #[error("NotLink attr=%{attr}")]
    NotLink { attr: u16 },
    /// The name of an object is wrong at `place`, counted in bytes.
    #[error("BadName place={place}")]
    BadName { place: u32 },
}
