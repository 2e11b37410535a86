//! Readers of classes and attributes.

ghost use Rattle.std.specs.Prelude.{◌≡◌};
ghost use Rattle.adr_token.specs.Gives.{Gives};
ghost use Rattle.adr_token.specs.Classes.{attribute_at, attribute_of, class_at, class_of, percent_number};

use crate::numbers::number_of;
use crate::stop::{Bad, Stop};
use crate::words::{Line, strip_byte};
use adr_checks::{attribute_number, class_number};
use adr_values::Failure;

/// The number behind a `%`.
fn percent_number(token: &[u8]) -> Option<u16>
    ensures { result ≡ percent_number token.now }
{
    let figures = strip_byte(token, b'%')?;
    let number = number_of(false, 65_535, figures)?;
    Some(number as u16)
}

/// The class that a token names, or numbers behind a `%`.
pub fn class_of(token: &[u8]) -> Option<u16>
    ensures { result ≡ class_of token.now }
{
    class_number(token).or(percent_number(token))
}

/// The attribute that a token names, or numbers behind a `%`.
pub fn attribute_of(token: &[u8]) -> Option<u16>
    ensures { result ≡ attribute_of token.now }
{
    attribute_number(token).or(percent_number(token))
}

impl Line<'_> {
    /// A class, whether a schema has it or not.
    #[tactic(auto, unfolding(crate::specs::Classes::class_at))]
    pub fn class(&mut self) -> Result<u16, Stop>
        ensures { Gives result self.new (class_at self.old) }
    {
        let word = self.word()?;
        class_of(word).ok_or(Failure::Refused(Bad))
    }

    /// An attribute, whether a schema has it or not.
    #[tactic(auto, unfolding(crate::specs::Classes::attribute_at))]
    pub fn attribute(&mut self) -> Result<u16, Stop>
        ensures { Gives result self.new (attribute_at self.old) }
    {
        let word = self.word()?;
        attribute_of(word).ok_or(Failure::Refused(Bad))
    }
}
