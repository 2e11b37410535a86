//! The words of a line.

ghost use Rattle.std.specs.Prelude.{◌↔◌, ◌≡◌, ◌==◌, ◌≤◌, ◌<◌, ℕ, List, length, IsTrue, not, IfOk, IfErr, MatchOption, Some, None};
ghost use Rattle.std.specs.List.{position_or_len, list_all};
ghost use Rattle.adr_token.specs.Gives.{Gives, bad};
ghost use Rattle.adr_values.specs.declared.failure.Failure.TheVariants.{NoMemory as no_memory};
ghost use Rattle.adr_token.specs.Words.{is_space, unspaced, word_at, is_letter, is_digit, is_name_byte, is_name, name_at, said, strip_byte};

use crate::stop::{Bad, Stop};
use adr_values::{Failure, Text};
use std::alloc::Global;
use std::marker::Model;

/// How many bytes stand before the first that is this one.
pub fn len_before(bytes: &[u8], stop: u8) -> usize
    ensures value { result ≡ position_or_len (λ b. b == stop) bytes.now }
    ensures within { result ≤ length bytes.now }
{
    for (index, byte) in bytes.iter().enumerate() {
        if *byte == stop {
            return index;
        }
    }
    bytes.len()
}

/// How many spaces stand in front.
fn spaces(bytes: &[u8]) -> usize
    ensures value { result ≡ position_or_len (λ b. not (is_space b)) bytes.now }
    ensures within { result ≤ length bytes.now }
{
    for (index, byte) in bytes.iter().enumerate() {
        if *byte != b' ' {
            return index;
        }
    }
    bytes.len()
}

/// Without the spaces in front.
pub fn without_spaces(bytes: &[u8]) -> &[u8]
    ensures { result.now ≡ unspaced bytes.now }
{
    bytes.split_at(spaces(bytes)).1
}

/// What stands behind a byte, where that is the first.
pub fn strip_byte(bytes: &[u8], byte: u8) -> Option<&[u8]>
    ensures { MatchOption result (strip_byte byte bytes.now ≡ None) (λ rest. strip_byte byte bytes.now
        ≡ Some rest.now) }
{
    match bytes.split_first() {
        Some((first, rest)) if *first == byte => Some(rest),
        _ => None,
    }
}

pub fn is_letter(byte: u8) -> bool
    ensures { result ≡ is_letter byte }
{
    (65 <= byte && byte <= 90) || (97 <= byte && byte <= 122)
}

pub fn is_digit(byte: u8) -> bool
    ensures { result ≡ is_digit byte }
{
    48 <= byte && byte <= 57
}

fn is_name_byte(byte: u8) -> bool
    ensures { result ≡ is_name_byte byte }
{
    is_letter(byte) || is_digit(byte) || byte == b'_'
}

fn are_name_bytes(bytes: &[u8]) -> bool
    ensures { result ≡ list_all is_name_byte bytes.now }
{
    bytes.iter().all(|byte| is_name_byte(*byte))
}

fn is_named(word: &[u8]) -> bool
    ensures { result ≡ is_name word.now }
{
    match word.split_first() {
        None => false,
        Some((first, rest)) => is_letter(*first) && rest.len() <= 31 && are_name_bytes(rest),
    }
}

/// A word of ASCII bytes as a text.
fn own_text(alloc: Global, word: &[u8]) -> Result<Text, Stop>
    requires { IsTrue (is_name word.now) }
    ensures value { IfOk result (λ text. text ≡ word.now) }
    ensures memory { IfErr result (λ stop. stop ≡ no_memory) }
{
    let bytes = Vec::from_slice(alloc, word)?;
    Ok(Text::of(bytes))
}

/// What is left of a line. A reader takes a token from its front; after an error it isn't said what
/// is left.
#[derive(Drop)]
pub struct Line<'a> {
    rest: &'a [u8],
}

impl<'a> Model for Line<'a> {
    ghost use Rattle.std.specs.Prelude.{List, ℕ};

    ghost Value = { List ℕ };

    ghost view = { λ l. l.rest.now };
}

impl<'a> Line<'a> {
    pub fn new(rest: &'a [u8]) -> Line<'a>
        ensures { result ≡ rest.now }
    {
        Line { rest }
    }

    /// What is left.
    pub fn rest(&self) -> &'a [u8]
        ensures { result.now ≡ self.now }
    {
        self.rest
    }

    /// Goes on behind the bytes in front of these.
    pub fn go_on(&mut self, rest: &'a [u8])
        ensures { self.new ≡ rest.now }
    {
        self.rest = rest;
    }

    pub fn skip_spaces(&mut self)
        ensures { self.new ≡ unspaced self.old }
    {
        self.rest = without_spaces(self.rest);
    }

    /// The next word.
    pub fn word(&mut self) -> Result<&'a [u8], Stop>
        ensures word { IfOk result (λ word. word_at self.old ≡ Some (word.now, self.new)) }
        ensures bad { IfErr result (λ stop. (stop ≡ bad) × (word_at self.old ≡ None)) }
    {
        let rest = without_spaces(self.rest);
        if rest.len() == 0 {
            return Err(Failure::Refused(Bad));
        }
        let (word, rest) = rest.split_at(len_before(rest, b' '));
        self.rest = rest;
        Ok(word)
    }

    /// A name: a letter, and then at most 31 letters, digits or `_`.
    #[tactic(auto, unfolding(crate::specs::Words::name_at))]
    pub fn name(&mut self, alloc: Global) -> Result<Text, Stop>
        ensures reading { Gives result self.new (name_at self.old) }
        ensures named { IfOk result (λ name. 0 < length name) }
    {
        let word = self.word()?;
        if !is_named(word) {
            return Err(Failure::Refused(Bad));
        }
        own_text(alloc, word)
    }
}

impl Line<'_> {
    /// Whether nothing but spaces is left.
    pub fn is_ended(&self) -> bool
        ensures { IsTrue result ↔ (length (unspaced self.now) ≡ 0) }
    {
        without_spaces(self.rest()).len() == 0
    }

    /// A word that stands as it is.
    #[tactic(auto, unfolding(crate::specs::Words::said))]
    pub fn said(&mut self, what: &[u8]) -> Result<(), Stop>
        ensures { Gives result self.new (said what.now self.old) }
    {
        if self.word()? == what {
            Ok(())
        } else {
            Err(Failure::Refused(Bad))
        }
    }
}
