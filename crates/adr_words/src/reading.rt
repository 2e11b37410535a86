//! The words of the command line.

ghost use Rattle.std.specs.Prelude.{◌≡◌, IfOk, map, string_bytes, false};
ghost use Rattle.std.specs.List.{list_any};
ghost use Rattle.adr_words.specs.Asked.{is_flag};
ghost use Rattle.adr_words.specs.Commands.{command_of};

use crate::asked::asked;
use crate::kinds::Command;
use crate::parser::parser;
use adr_values::NoMemory;
use clap::error::ErrorKind;
use std::alloc::{AllocError, Global};

/// Whether a word could be a flag. There are none.
fn is_flag(word: &String) -> bool
    ensures { result ≡ is_flag (string_bytes word.now) }
{
    match word.as_bytes().first() {
        Some(first) => *first == b'-',
        None => false,
    }
}

/// Whether one of the words could be a flag.
fn has_flag(words: &[String]) -> bool
    ensures { result ≡ list_any (λ word. is_flag (string_bytes word)) words.now }
{
    words.iter().any(|word| is_flag(word))
}

/// The command that these words are, none of which could be a flag.
fn parsed(alloc: Global, words: &[String]) -> Result<Option<Command>, NoMemory>
    requires { list_any is_flag (map string_bytes words.now) ≡ false }
    ensures { IfOk result (λ command. command ≡ command_of (map string_bytes words.now)) }
{
    let parser = parser(alloc)?;
    match parser.try_get_matches_from(words) {
        Ok(matches) => asked(alloc, &matches),
        Err(error) => match error.kind() {
            ErrorKind::OutOfMemory => Err(AllocError),
            _ => Ok(None),
        },
    }
}

/// The command that these words are, which leave out the program's name, or none.
pub fn command(alloc: Global, words: &[String]) -> Result<Option<Command>, NoMemory>
    ensures { IfOk result (λ command. command ≡ command_of (map string_bytes words.now)) }
{
    if has_flag(words) {
        return Ok(None);
    }
    parsed(alloc, words)
}
