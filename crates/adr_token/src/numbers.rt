//! Numbers in decimal and hexadecimal figures.

ghost use Rattle.std.specs.Prelude.{◌≡◌, ◌≤◌, ◌<◌, ◌^◌, false, IfSome};
ghost use Rattle.adr_token.specs.Gives.{Gives};
ghost use Rattle.adr_token.specs.Numbers.{base, figure, is_short, negated, number_of, number_at, signed_of};

use crate::stop::{Bad, Stop};
use crate::words::{Line, is_digit, strip_byte};
use adr_values::Failure;

/// What a figure stands for.
pub fn figure(hex: bool, byte: u8) -> Option<u8>
    ensures value { result ≡ figure hex byte }
    ensures small { IfSome result (λ d. d < 16) }
{
    if is_digit(byte) {
        Some(byte - 48)
    } else if hex && 97 <= byte && byte <= 102 {
        Some(byte - 87)
    } else {
        None
    }
}

fn is_short(word: &[u8]) -> bool
    ensures { result ≡ is_short word.now }
{
    match word {
        [] => false,
        [_] => true,
        [first, _, ..] => *first != b'0',
    }
}

fn base(hex: bool) -> u128
    ensures value { result ≡ base hex }
    ensures small { result ≤ 16 }
{
    if hex { 16 } else { 10 }
}

/// A number up to a limit, without leading zeros, in decimal or in lower-case hexadecimal.
#[tactic(auto, using(crate::proofs::NumberLemmas::too_large))]
pub fn number_of(hex: bool, limit: u64, word: &[u8]) -> Option<u64>
    ensures value { result ≡ number_of hex limit word.now }
    ensures small { IfSome result (λ n. n ≤ limit) }
{
    if !is_short(word) {
        return None;
    }
    let base = base(hex);
    let most = u128::from(limit);
    let mut number: u128 = 0;
    for byte in word {
        if number > most {
            return None;
        }
        let Some(digit) = figure(hex, *byte) else {
            return None;
        };
        number = number * base + u128::from(digit);
    }
    if number > most {
        return None;
    }
    Some(number as u64)
}

/// The number below 0 of these figures; there is no `-0`.
fn negated(number: u64) -> Option<i64>
    requires { number ≤ 2 ^ 63 }
    ensures { result ≡ negated number }
{
    if number == 0 {
        return None;
    }
    Some(-1 - (number - 1) as i64)
}

/// A decimal number of 64 bits with a sign, without leading zeros.
pub fn signed_of(word: &[u8]) -> Option<i64>
    ensures { result ≡ signed_of word.now }
{
    match strip_byte(word, b'-') {
        None => Some(number_of(false, i64::MAX as u64, word)? as i64),
        Some(figures) => negated(number_of(false, 1 << 63, figures)?),
    }
}

impl Line<'_> {
    /// A decimal number of 64 bits.
    #[tactic(auto, unfolding(crate::specs::Numbers::number_at))]
    pub fn number(&mut self) -> Result<u64, Stop>
        ensures { Gives result self.new (number_at self.old) }
    {
        let word = self.word()?;
        match number_of(false, u64::MAX, word) {
            Some(number) => Ok(number),
            None => Err(Failure::Refused(Bad)),
        }
    }
}
