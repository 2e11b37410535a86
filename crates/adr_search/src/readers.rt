//! Values of filters that are no texts: numbers, flags and identifiers, as lines write them.

ghost use Rattle.std.specs.Prelude.{◌≡◌, ◌≤◌, ◌<◌, ◌^◌, IfSome};
ghost use Rattle.adr_token.specs.Identifiers.{full_identifier, identifier_of, short_identifier, spelled_back};
ghost use Rattle.adr_token.specs.Numbers.{base, figure, is_short, negated, number_of, signed_of};
ghost use Rattle.adr_search.specs.Asked.{flag_of, guid_of};

use adr_token::utf8;
use adr_values::Guid;

/// What a figure stands for.
fn figure(hex: bool, byte: u8) -> Option<u8>
    ensures value { result ≡ figure hex byte }
    ensures small { IfSome result (λ d. d < 16) }
{
    if 48 <= byte && byte <= 57 {
        Some(byte - 48)
    } else if hex && 97 <= byte && byte <= 102 {
        Some(byte - 87)
    } else {
        None
    }
}

fn is_short(word: &[u8]) -> bool
    ensures { result ≡ is_short word.now }
{
    match word {
        [] => false,
        [_] => true,
        [first, _, ..] => *first != b'0',
    }
}

fn base(hex: bool) -> u128
    ensures value { result ≡ base hex }
    ensures small { result ≤ 16 }
{
    if hex { 16 } else { 10 }
}

/// A number up to a limit, without leading zeros, in decimal or in lower-case hexadecimal.
#[tactic(auto, using(crate::proofs::Figures::too_large))]
fn number_of(hex: bool, limit: u64, word: &[u8]) -> Option<u64>
    ensures value { result ≡ number_of hex limit word.now }
    ensures small { IfSome result (λ n. n ≤ limit) }
{
    if !is_short(word) {
        return None;
    }
    let base = base(hex);
    let most = u128::from(limit);
    let mut number: u128 = 0;
    for byte in word {
        if number > most {
            return None;
        }
        let Some(digit) = figure(hex, *byte) else {
            return None;
        };
        number = number * base + u128::from(digit);
    }
    if number > most {
        return None;
    }
    Some(number as u64)
}

/// The number below 0 of these figures; there is no `-0`.
fn negated(number: u64) -> Option<i64>
    requires { number ≤ 2 ^ 63 }
    ensures { result ≡ negated number }
{
    if number == 0 {
        return None;
    }
    Some(-1 - (number - 1) as i64)
}

/// A decimal number of 64 bits with a sign, without leading zeros.
pub fn signed_of(word: &[u8]) -> Option<i64>
    ensures { result ≡ signed_of word.now }
{
    match word.split_first() {
        Some((b'-', figures)) => negated(number_of(false, 1 << 63, figures)?),
        _ => Some(number_of(false, i64::MAX as u64, word)? as i64),
    }
}

/// `TRUE` or `FALSE` (RFC 4517, section 3.3.3).
pub fn flag_of(word: &[u8]) -> Option<bool>
    ensures { result ≡ flag_of word.now }
{
    if word == b"TRUE".as_slice() {
        Some(true)
    } else if word == b"FALSE".as_slice() {
        Some(false)
    } else {
        None
    }
}

fn spelled_back(text: &[u8], id: Guid) -> Option<Guid>
    ensures { result ≡ spelled_back text.now id }
{
    let mut buffer = [0; 36];
    if id.hyphenated(&mut buffer).as_bytes() == text {
        Some(id)
    } else {
        None
    }
}

fn full_identifier(text: &[u8]) -> Option<Guid>
    ensures { result ≡ full_identifier text.now }
{
    match utf8(text) {
        Some(read) => match Guid::parse_str(read) {
            Some(id) => spelled_back(text, id),
            None => None,
        },
        None => None,
    }
}

fn short_identifier(figures: &[u8]) -> Option<Guid>
    ensures { result ≡ short_identifier figures.now }
{
    match number_of(true, 0xffff_ffff, figures) {
        Some(number) => Some(Guid::from_u128(u128::from(number))),
        None => None,
    }
}

/// The identifier that a word of a line names.
fn identifier_of(word: &[u8]) -> Option<Guid>
    ensures { result ≡ identifier_of word.now }
{
    match word.split_first() {
        None => None,
        Some((first, rest)) => {
            if *first != b'#' {
                None
            } else if rest.len() == 36 {
                full_identifier(rest)
            } else {
                short_identifier(rest)
            }
        }
    }
}

/// A GUID, by its text of 36 bytes in lower case (RFC 9562) or as a line names it.
pub fn guid_of(word: &[u8]) -> Option<Guid>
    ensures { result ≡ guid_of word.now }
{
    match full_identifier(word) {
        Some(guid) => Some(guid),
        None => identifier_of(word),
    }
}
