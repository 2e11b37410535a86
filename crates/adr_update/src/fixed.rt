//! The places that are always there, and the name that one of them keeps.

ghost use Rattle.std.specs.Prelude.{◌≡◌, ◌&&◌, codes};
ghost use Rattle.std.specs.Str.{bytes_eq};
ghost use Rattle.adr_values.specs.Folding.{folded};
ghost use Rattle.adr_model.specs.Update.{same_identifier};
ghost use Rattle.adr_model.specs.Place.{root, lost_and_found, is_fixed};

use crate::key::is_same;
use adr_values::{Guid, Text};

/// The identifier of the root.
pub fn root() -> Guid
    ensures { result ≡ root }
{
    Guid::from_u128(1)
}

/// The identifier of LostAndFound.
pub fn lost_and_found() -> Guid
    ensures { result ≡ lost_and_found }
{
    Guid::from_u128(2)
}

pub fn is_root(guid: Guid) -> bool
    ensures { result ≡ same_identifier guid root }
{
    is_same(guid, root())
}

pub fn is_lost_and_found(guid: Guid) -> bool
    ensures { result ≡ same_identifier guid lost_and_found }
{
    is_same(guid, lost_and_found())
}

/// Whether the identifier is that of the root or of LostAndFound.
pub fn is_fixed(guid: Guid) -> bool
    ensures { result ≡ is_fixed guid }
{
    is_root(guid) || is_lost_and_found(guid)
}

/// Whether a folded name is that of LostAndFound, which keeps it, in this place.
pub fn is_lost_name(parent: Guid, name: &Text) -> bool
    ensures { result
        ≡ (same_identifier parent root && bytes_eq name.now (folded (codes "LostAndFound"))) }
{
    is_root(parent) && is_lost_text(name.items())
}

/// Whether the bytes are the folded name of LostAndFound.
fn is_lost_text(name: &[u8]) -> bool
    ensures { result ≡ bytes_eq name.now (folded (codes "LostAndFound")) }
{
    name == b"lostandfound".as_slice()
}
