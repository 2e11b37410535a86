//! Identifiers.

ghost use Rattle.std.specs.Prelude.{◌≡◌};
ghost use Rattle.adr_token.specs.Gives.{Gives};
ghost use Rattle.adr_token.specs.Identifiers.{spelled_back, full_identifier, short_identifier, identifier_of, identifier_at};

use crate::numbers::number_of;
use crate::stop::{Bad, Stop};
use crate::texts::utf8;
use crate::words::Line;
use adr_values::{Failure, Guid};

fn spelled_back(text: &[u8], id: Guid) -> Option<Guid>
    ensures { result ≡ spelled_back text.now id }
{
    let mut buffer = [0; 36];
    if id.hyphenated(&mut buffer).as_bytes() == text {
        Some(id)
    } else {
        None
    }
}

fn full_identifier(text: &[u8]) -> Option<Guid>
    ensures { result ≡ full_identifier text.now }
{
    match utf8(text) {
        Some(read) => match Guid::parse_str(read) {
            Some(id) => spelled_back(text, id),
            None => None,
        },
        None => None,
    }
}

fn short_identifier(figures: &[u8]) -> Option<Guid>
    ensures { result ≡ short_identifier figures.now }
{
    match number_of(true, 0xffff_ffff, figures) {
        Some(number) => Some(Guid::from_u128(u128::from(number))),
        None => None,
    }
}

/// The identifier that a word names: `#`, and then either 1 to 8 lower-case hexadecimal digits without
/// a leading zero, or the 36-byte text of RFC 9562 in lower case.
pub fn identifier_of(word: &[u8]) -> Option<Guid>
    ensures { result ≡ identifier_of word.now }
{
    match word.split_first() {
        None => None,
        Some((first, rest)) => {
            if *first != b'#' {
                None
            } else if rest.len() == 36 {
                full_identifier(rest)
            } else {
                short_identifier(rest)
            }
        }
    }
}

impl Line<'_> {
    /// An identifier.
    #[tactic(auto, unfolding(crate::specs::Identifiers::identifier_at))]
    pub fn identifier(&mut self) -> Result<Guid, Stop>
        ensures { Gives result self.new (identifier_at self.old) }
    {
        let word = self.word()?;
        identifier_of(word).ok_or(Failure::Refused(Bad))
    }
}
