//! Tests of a field: what a filter asks of its values, and the same with the values of the filter read.

ghost use Rattle.std.specs.Prelude.{◌≡◌, IfOk, option_map};
ghost use Rattle.adr_search.specs.Asked.{apart, all_read, flag_of, guid_of, has_pieces, in_bytes, in_order, test_of, value_read};
ghost use Rattle.adr_token.specs.Numbers.{signed_of};
ghost use Rattle.adr_search.specs.Seen.{asked_in, bytes_in, equal_in, number_in, pattern_in, test_in};

use crate::fields::Form;
use crate::readers::{flag_of, guid_of, signed_of};
use adr_token::utf8;
use adr_values::{Guid, NoMemory, Octets, fold_name};
use std::alloc::Global;

/// What a filter asks of a field, with its values as they stand in the filter.
#[derive(Clone, Copy)]
pub enum Asked<'f> {
    Present,
    Equal(&'f Octets),
    AtLeast(&'f Octets),
    AtMost(&'f Octets),
    Pattern {
        initial: &'f Octets,
        middle: &'f [Octets],
        last: &'f Octets,
    },
}

/// Pieces of values, in order.
#[derive(Drop)]
pub struct Pattern {
    pub initial: Octets,
    pub middle: Vec<Octets>,
    pub last: Octets,
}

/// A test of values that are compared as bytes.
#[derive(Drop)]
pub enum BytesTest {
    Present,
    Equal(Octets),
    AtLeast(Octets),
    AtMost(Octets),
    Like(Pattern),
}

/// A test of numbers.
#[derive(Clone, Copy)]
pub enum NumberTest {
    Present,
    Equal(i64),
    AtLeast(i64),
    AtMost(i64),
}

/// A test of a field. Of flags and GUIDs it names the one that is to be there, or none where any will do.
#[derive(Drop)]
pub enum Test {
    Texts(BytesTest),
    Octets(BytesTest),
    Numbers(NumberTest),
    Flags(Option<bool>),
    Guids(Option<Guid>),
}

/// A value of a filter, folded if it is to be read as a text.
fn value_read(alloc: Global, folds: bool, value: &[u8]) -> Result<Option<Octets>, NoMemory>
    ensures { IfOk result (λ read. read ≡ value_read folds value.now) }
{
    if !folds {
        return Ok(Some(Octets::of(Vec::from_slice(alloc, value)?)));
    }
    match utf8(value) {
        Some(text) => {
            let name = fold_name(alloc, text)?;
            Ok(Some(Octets::of(Vec::from_slice(alloc, name.items())?)))
        }
        None => Ok(None),
    }
}

fn all_read(alloc: Global, folds: bool, pieces: &[Octets]) -> Result<Option<Vec<Octets>>, NoMemory>
    ensures { IfOk result (λ read. option_map (λ v. v.items) read ≡ all_read (value_read folds) pieces.now) }
{
    let mut all = Vec::with_capacity(alloc, pieces.len())?;
    for piece in pieces {
        match value_read(alloc, folds, piece.items())? {
            Some(read) => all.push(read)?,
            None => return Ok(None),
        }
    }
    Ok(Some(all))
}

fn pattern_read(
    alloc: Global,
    folds: bool,
    initial: &Octets,
    middle: &[Octets],
    last: &Octets,
) -> Result<Option<Pattern>, NoMemory>
    ensures { IfOk result (λ read. option_map pattern_in read
        ≡ in_bytes (value_read folds) (has_pieces initial.now middle.now last.now)) }
{
    let Some(initial) = value_read(alloc, folds, initial.items())? else {
        return Ok(None);
    };
    let Some(middle) = all_read(alloc, folds, middle)? else {
        return Ok(None);
    };
    let Some(last) = value_read(alloc, folds, last.items())? else {
        return Ok(None);
    };
    Ok(Some(Pattern {
        initial,
        middle,
        last,
    }))
}

fn bytes_test(alloc: Global, folds: bool, asked: Asked<'_>) -> Result<Option<BytesTest>, NoMemory>
    ensures { IfOk result (λ test. option_map bytes_in test ≡ in_bytes (value_read folds) (asked_in asked.entry)) }
{
    match asked {
        Asked::Present => Ok(Some(BytesTest::Present)),
        Asked::Equal(value) => match value_read(alloc, folds, value.items())? {
            Some(read) => Ok(Some(BytesTest::Equal(read))),
            None => Ok(None),
        },
        Asked::AtLeast(value) => match value_read(alloc, folds, value.items())? {
            Some(read) => Ok(Some(BytesTest::AtLeast(read))),
            None => Ok(None),
        },
        Asked::AtMost(value) => match value_read(alloc, folds, value.items())? {
            Some(read) => Ok(Some(BytesTest::AtMost(read))),
            None => Ok(None),
        },
        Asked::Pattern {
            initial,
            middle,
            last,
        } => match pattern_read(alloc, folds, initial, middle, last)? {
            Some(pattern) => Ok(Some(BytesTest::Like(pattern))),
            None => Ok(None),
        },
    }
}

fn number_test(asked: Asked<'_>) -> Option<NumberTest>
    ensures { option_map number_in result ≡ in_order signed_of (asked_in asked.entry) }
{
    match asked {
        Asked::Present => Some(NumberTest::Present),
        Asked::Equal(value) => Some(NumberTest::Equal(signed_of(value.items())?)),
        Asked::AtLeast(value) => Some(NumberTest::AtLeast(signed_of(value.items())?)),
        Asked::AtMost(value) => Some(NumberTest::AtMost(signed_of(value.items())?)),
        Asked::Pattern { .. } => None,
    }
}

/// The flag that is to be there, or none where any will do.
fn flag_test(asked: Asked<'_>) -> Option<Option<bool>>
    ensures { option_map equal_in result ≡ apart flag_of (asked_in asked.entry) }
{
    match asked {
        Asked::Present => Some(None),
        Asked::Equal(value) => Some(Some(flag_of(value.items())?)),
        Asked::AtLeast(_) | Asked::AtMost(_) | Asked::Pattern { .. } => None,
    }
}

/// The GUID that is to be there, or none where any will do.
fn guid_test(asked: Asked<'_>) -> Option<Option<Guid>>
    ensures { option_map equal_in result ≡ apart guid_of (asked_in asked.entry) }
{
    match asked {
        Asked::Present => Some(None),
        Asked::Equal(value) => Some(Some(guid_of(value.items())?)),
        Asked::AtLeast(_) | Asked::AtMost(_) | Asked::Pattern { .. } => None,
    }
}

/// The test of a field whose values have a form. There is none where a value can't be read, or values of this form
/// aren't compared so.
pub fn test_of(alloc: Global, form: Form, asked: Asked<'_>) -> Result<Option<Test>, NoMemory>
    ensures { IfOk result (λ test. option_map test_in test ≡ test_of form (asked_in asked.entry)) }
{
    match form {
        Form::Folded => match bytes_test(alloc, true, asked)? {
            Some(test) => Ok(Some(Test::Texts(test))),
            None => Ok(None),
        },
        Form::Bytes => match bytes_test(alloc, false, asked)? {
            Some(test) => Ok(Some(Test::Octets(test))),
            None => Ok(None),
        },
        Form::Number => match number_test(asked) {
            Some(test) => Ok(Some(Test::Numbers(test))),
            None => Ok(None),
        },
        Form::Flag => match flag_test(asked) {
            Some(test) => Ok(Some(Test::Flags(test))),
            None => Ok(None),
        },
        Form::Guid => match guid_test(asked) {
            Some(test) => Ok(Some(Test::Guids(test))),
            None => Ok(None),
        },
    }
}
