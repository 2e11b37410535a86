//! Why a search was refused.

use adr_values::Guid;
use thiserror::Error;

/// The base of a search is neither the root, nor LostAndFound, nor the GUID of an entry.
#[derive(Clone, Copy, Debug, Error)]
#[error("NoBase guid=#{guid}")]
pub struct NoBase {
    pub guid: Guid,
}

/// Why a search with its filter as text was refused.
#[derive(Clone, Copy, Debug, Error)]
pub enum SearchRefusal {
    /// The text is no filter; `place` is the length in bytes of its longest front with which some filter's text begins.
    #[error("BadFilter place={place}")]
    BadFilter { place: usize },
    /// The base is neither the root, nor LostAndFound, nor the GUID of an entry.
    #[error("NoBase guid=#{guid}")]
    NoBase { guid: Guid },
}
