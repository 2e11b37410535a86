//! Texts in quotes.

ghost use Rattle.std.specs.Prelude.{◌≡◌, ◌+◌, ◌*◌, ◌<◌, MatchOption, true, false, IfOk, IfErr, Some, None};
ghost use Rattle.std.specs.Str.{is_utf8};
ghost use Rattle.adr_token.specs.Gives.{Gives, Stops};
ghost use Rattle.adr_token.specs.Numbers.{figure};
ghost use Rattle.adr_token.specs.Texts.{plain_move, escaped_move, whole_move, is_control, IsHalfSmall, IsMoveSmall, move, quoted, ends_word, is_text, text_at};

use crate::numbers::figure;
use crate::stop::{Bad, Stop};
use crate::words::{Line, strip_byte};
use adr_values::{Failure, Text};
use std::alloc::Global;

/// Where the reader stands in a text.
#[derive(Clone, Copy)]
pub enum Place {
    Plain,
    Escaped,
    Half(u8),
}

/// What a byte does there.
#[derive(Clone, Copy)]
pub enum Move {
    Close,
    Go(Place),
    Byte(u8),
    Stray,
}

fn is_control(byte: u8) -> bool
    ensures { result ≡ is_control byte }
{
    byte < 32 || byte == 127
}

fn plain_move(byte: u8) -> Move
    ensures value { result ≡ plain_move byte }
    ensures small { IsMoveSmall result }
{
    if byte == b'"' {
        Move::Close
    } else if byte == b'\\' {
        Move::Go(Place::Escaped)
    } else if is_control(byte) {
        Move::Stray
    } else {
        Move::Byte(byte)
    }
}

fn escaped_move(byte: u8) -> Move
    ensures value { result ≡ escaped_move byte }
    ensures small { IsMoveSmall result }
{
    if byte == b'"' || byte == b'\\' {
        return Move::Byte(byte);
    }
    match figure(true, byte) {
        Some(high) => Move::Go(Place::Half(high)),
        None => Move::Stray,
    }
}

/// What the second figure of a byte does.
fn half_move(high: u8, byte: u8) -> Move
    requires { high < 16 }
    ensures value { result ≡ whole_move high (figure true byte) }
    ensures small { IsMoveSmall result }
{
    let Some(low) = figure(true, byte) else {
        return Move::Stray;
    };
    let whole = high * 16 + low;
    if is_control(whole) {
        Move::Byte(whole)
    } else {
        Move::Stray
    }
}

fn move_at(place: Place, byte: u8) -> Move
    requires { IsHalfSmall place }
    ensures value { result ≡ move place byte }
    ensures small { IsMoveSmall result }
{
    match place {
        Place::Plain => plain_move(byte),
        Place::Escaped => escaped_move(byte),
        Place::Half(high) => half_move(high, byte),
    }
}

/// The text up to the closing quote, and what follows.
pub fn quoted(alloc: Global, bytes: &[u8]) -> Result<(Vec<u8>, &[u8]), Stop>
    ensures text { IfOk result (λ x. quoted Place.Plain bytes.now ≡ Some (x.0.items, x.1.now)) }
    ensures stop { IfErr result (λ stop. Stops stop (quoted Place.Plain bytes.now)) }
{
    let mut text = Vec::new(alloc);
    let mut place = Place::Plain;
    for (index, byte) in bytes.iter().enumerate() {
        match move_at(place, *byte) {
            Move::Close => return Ok((text, bytes.split_at(index + 1).1)),
            Move::Go(next) => place = next,
            Move::Byte(byte) => {
                text.push(byte)?;
                place = Place::Plain;
            }
            Move::Stray => return Err(Failure::Refused(Bad)),
        }
    }
    Err(Failure::Refused(Bad))
}

/// Whether a word ends before these bytes.
pub fn ends_word(bytes: &[u8]) -> bool
    ensures { result ≡ ends_word bytes.now }
{
    match bytes.first() {
        None => true,
        Some(first) => *first == b' ',
    }
}

/// The bytes as text, where they are UTF-8.
pub fn utf8(bytes: &[u8]) -> Option<&str>
    ensures { MatchOption result (is_utf8 bytes.now ≡ false) (λ text. (text.now ≡ bytes.now)
        × (is_utf8 bytes.now ≡ true)) }
{
    match std::str::from_utf8(bytes) {
        Ok(text) => Some(text),
        Err(_) => None,
    }
}

/// Bytes as a text of its own, where the language has room for it.
pub fn text_of(bytes: Vec<u8>) -> Option<Text>
    ensures { MatchOption result (is_text bytes.items ≡ false) (λ text. (text ≡ bytes.items)
        × (is_text bytes.items ≡ true)) }
{
    if bytes.len() > 65_535 {
        return None;
    }
    match std::str::from_utf8(bytes.as_slice()) {
        Ok(_) => Some(Text::of(bytes)),
        Err(_) => None,
    }
}

impl Line<'_> {
    /// A text in quotes.
    #[tactic(auto, unfolding(crate::specs::Texts::text_at))]
    pub fn text(&mut self, alloc: Global) -> Result<Text, Stop>
        ensures { Gives result self.new (text_at self.old) }
    {
        let Some(inside) = strip_byte(self.rest(), b'"') else {
            return Err(Failure::Refused(Bad));
        };
        let (text, rest) = quoted(alloc, inside)?;
        if !ends_word(rest) {
            return Err(Failure::Refused(Bad));
        }
        self.go_on(rest);
        match text_of(text) {
            Some(text) => Ok(text),
            None => Err(Failure::Refused(Bad)),
        }
    }
}
