//! Whether bytes are of a pattern. Each piece is looked for behind the one before it, where it stands first.

ghost use Rattle.std.specs.Prelude.{◌≡◌, MatchOption, None, Some};
ghost use Rattle.adr_search.specs.Behind.{behind};
ghost use Rattle.adr_search.specs.Match.{bytes_meet};
ghost use Rattle.adr_search.specs.Pieces.{in_turn};
ghost use Rattle.adr_search.specs.Seen.{pattern_in};

use crate::asked::Pattern;
use adr_values::Octets;

/// What stands behind the first place of a piece, if it has one.
fn behind<'b>(piece: &[u8], bytes: &'b [u8]) -> Option<&'b [u8]>
    ensures { MatchOption result (behind piece.now bytes.now ≡ None) (λ rest. behind piece.now bytes.now ≡ Some rest.now) }
{
    for start in 0..bytes.len() {
        let (_, rest) = bytes.split_at(start);
        if rest.starts_with(piece) {
            return Some(rest.split_at(piece.len()).1);
        }
    }
    if piece.is_empty() {
        Some(bytes.split_at(bytes.len()).1)
    } else {
        None
    }
}

fn in_turn(pieces: &[Octets], last: &Octets, bytes: &[u8]) -> bool
    ensures { result ≡ in_turn pieces.now last.now bytes.now }
{
    let mut rest = bytes;
    for piece in pieces {
        match behind(piece.items(), rest) {
            Some(further) => rest = further,
            None => return false,
        }
    }
    rest.ends_with(last.items())
}

/// Whether bytes are of a pattern.
pub fn is_like(pattern: &Pattern, bytes: &[u8]) -> bool
    ensures { result ≡ bytes_meet (pattern_in pattern.now) bytes.now }
{
    let initial = pattern.initial.items();
    if !bytes.starts_with(initial) {
        return false;
    }
    in_turn(
        pattern.middle.as_slice(),
        &pattern.last,
        bytes.split_at(initial.len()).1,
    )
}
