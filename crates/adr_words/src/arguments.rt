//! The values of a command's arguments.

ghost use Rattle.std.specs.Prelude.{◌≡◌, ◌≤◌, IfOk, IfSome, option_map};
ghost use Rattle.clap.specs.Words.{first_of, found_of, rows_of};
ghost use Rattle.adr_token.specs.Identifiers.{identifier_of};
ghost use Rattle.adr_words.specs.Asked.{given, is_one_word, number_given, within};
ghost use Rattle.adr_words.specs.Commands.{COUNT, DSA, N, NAME, PORT, name_of, number_within};

use adr_token::Line;
use adr_values::{Failure, Guid, NoMemory, Text};
use clap::ArgMatches;
use std::alloc::{AllocError, Global};

/// Whether the bytes stand in a line as one word.
fn is_one_word(bytes: &[u8]) -> bool
    ensures { result ≡ is_one_word bytes.now }
{
    bytes.iter().all(|byte| *byte != b' ')
}

/// The name that a word is.
fn name_of(alloc: Global, word: &[u8]) -> Result<Option<Text>, NoMemory>
    ensures { IfOk result (λ name. name ≡ name_of word.now) }
{
    if !is_one_word(word) {
        return Ok(None);
    }
    match Line::new(word).name(alloc) {
        Ok(name) => Ok(Some(name)),
        Err(Failure::Refused(_)) => Ok(None),
        Err(Failure::NoMemory) => Err(AllocError),
    }
}

/// The identifier that a word is.
fn identifier_of(word: &[u8]) -> Result<Option<Guid>, NoMemory>
    ensures { IfOk result (λ id. id ≡ identifier_of word.now) }
{
    if !is_one_word(word) {
        return Ok(None);
    }
    match Line::new(word).identifier() {
        Ok(id) => Ok(Some(id)),
        Err(Failure::Refused(_)) => Ok(None),
        Err(Failure::NoMemory) => Err(AllocError),
    }
}

/// The number, if it is from 1 to the most.
fn within(most: u64, number: u64) -> Option<u64>
    ensures value { result ≡ within 1 most number }
    ensures small { IfSome result (λ n. n ≤ most) }
{
    if 1 <= number && number <= most {
        Some(number)
    } else {
        None
    }
}

/// The number that a word is, from 1 to the most.
fn number_of(most: u64, word: &[u8]) -> Result<Option<u64>, NoMemory>
    ensures value { IfOk result (λ number. number ≡ number_within 1 most word.now) }
    ensures small { IfOk result (λ number. IfSome number (λ n. n ≤ most)) }
{
    if !is_one_word(word) {
        return Ok(None);
    }
    match Line::new(word).number() {
        Ok(number) => Ok(within(most, number)),
        Err(Failure::Refused(_)) => Ok(None),
        Err(Failure::NoMemory) => Err(AllocError),
    }
}

/// The word that was given for an argument.
fn word_of<'a>(matches: &ArgMatches<'a>, id: &str) -> Option<&'a str>
    ensures { option_map (λ word. word.now) result ≡ first_of id.now (rows_of (found_of matches.now)) }
{
    matches.get_str(id)
}

/// The number that was given for an argument, from 1 to the most.
fn number_at(matches: &ArgMatches<'_>, id: &str, most: u64) -> Result<Option<u64>, NoMemory>
    ensures value { IfOk result (λ number. number ≡ number_given most (first_of id.now (rows_of (found_of matches.now)))) }
    ensures small { IfOk result (λ number. IfSome number (λ n. n ≤ most)) }
{
    match word_of(matches, id) {
        Some(word) => number_of(most, word.as_bytes()),
        None => Ok(None),
    }
}

/// NAME.
pub fn name(alloc: Global, matches: &ArgMatches<'_>) -> Result<Option<Text>, NoMemory>
    ensures { IfOk result (λ name. name ≡ given NAME (rows_of (found_of matches.now))) }
{
    match word_of(matches, "NAME") {
        Some(word) => name_of(alloc, word.as_bytes()),
        None => Ok(None),
    }
}

/// DSA.
pub fn dsa(matches: &ArgMatches<'_>) -> Result<Option<Guid>, NoMemory>
    ensures { IfOk result (λ dsa. dsa ≡ given DSA (rows_of (found_of matches.now))) }
{
    match word_of(matches, "DSA") {
        Some(word) => identifier_of(word.as_bytes()),
        None => Ok(None),
    }
}

/// PORT.
pub fn port(matches: &ArgMatches<'_>) -> Result<Option<u16>, NoMemory>
    ensures { IfOk result (λ port. port ≡ given PORT (rows_of (found_of matches.now))) }
{
    match number_at(matches, "PORT", 65_535)? {
        Some(port) => Ok(Some(port as u16)),
        None => Ok(None),
    }
}

/// COUNT.
pub fn count(matches: &ArgMatches<'_>) -> Result<Option<u32>, NoMemory>
    ensures { IfOk result (λ count. count ≡ given COUNT (rows_of (found_of matches.now))) }
{
    match number_at(matches, "COUNT", 1_000)? {
        Some(count) => Ok(Some(count as u32)),
        None => Ok(None),
    }
}

/// N.
pub fn number(matches: &ArgMatches<'_>) -> Result<Option<u32>, NoMemory>
    ensures { IfOk result (λ number. number ≡ given N (rows_of (found_of matches.now))) }
{
    match number_at(matches, "N", 1_000)? {
        Some(number) => Ok(Some(number as u32)),
        None => Ok(None),
    }
}
