//! Readers of values and of sets.

ghost use Rattle.std.specs.Prelude.{◌≡◌, ◌≤◌, length, IfOk, IfErr, Some};
ghost use Rattle.std.specs.List.{position_or_len};
ghost use Rattle.adr_token.specs.Gives.{Answers, Gives, Stops};
ghost use Rattle.adr_token.specs.Values.{assigned_at, ends_value, fixed_value_of, flag_of, octet_of, octets_of, plain_value_at, set_at, some_octets, text_value_at, value_at, value_of, values_at};

use crate::classes::attribute_of;
use crate::identifiers::identifier_of;
use crate::numbers::{figure, signed_of};
use crate::stop::{Bad, Stop};
use crate::texts::{ends_word, quoted, text_of};
use crate::words::{Line, len_before, strip_byte};
use adr_values::{Failure, Octets, Value};
use std::alloc::Global;

/// The byte that two figures make.
fn octet_of(first: u8, second: u8) -> Option<u8>
    ensures { result ≡ octet_of first second }
{
    let high = figure(true, first)?;
    let low = figure(true, second)?;
    Some(high * 16 + low)
}

/// The bytes that pairs of figures make.
fn octets_of(alloc: Global, figures: &[u8]) -> Result<Vec<u8>, Stop>
    ensures octets { IfOk result (λ octets. octets_of figures.now ≡ Some octets.items) }
    ensures stop { IfErr result (λ stop. Stops stop (octets_of figures.now)) }
{
    let mut octets = Vec::new(alloc);
    let mut rest = figures;
    while let Some((first, more)) = rest.split_first() {
        let Some((second, more)) = more.split_first() else {
            return Err(Failure::Refused(Bad));
        };
        let Some(octet) = octet_of(*first, *second) else {
            return Err(Failure::Refused(Bad));
        };
        octets.push(octet)?;
        rest = more;
    }
    Ok(octets)
}

fn some_octets(alloc: Global, figures: &[u8]) -> Result<Octets, Stop>
    ensures { Answers result (some_octets figures.now) }
{
    if figures.is_empty() {
        return Err(Failure::Refused(Bad));
    }
    Ok(Octets::of(octets_of(alloc, figures)?))
}

fn flag_of(token: &[u8]) -> Option<bool>
    ensures { result ≡ flag_of token.now }
{
    if token == b"true".as_slice() {
        Some(true)
    } else if token == b"false".as_slice() {
        Some(false)
    } else {
        None
    }
}

/// An identifier, a flag or a number, by the first byte.
fn fixed_value_of(token: &[u8]) -> Option<Value>
    ensures { result ≡ fixed_value_of token.now }
{
    let (first, _) = token.split_first()?;
    match *first {
        b'#' => identifier_of(token).map(Value::Ref),
        b'f' | b't' => flag_of(token).map(Value::Flag),
        _ => signed_of(token).map(Value::Number),
    }
}

/// A value that is no text.
fn value_of(alloc: Global, token: &[u8]) -> Result<Value, Stop>
    ensures { Answers result (value_of token.now) }
{
    if let Some(figures) = strip_byte(token, b'x') {
        return Ok(Value::Octets(some_octets(alloc, figures)?));
    }
    match fixed_value_of(token) {
        Some(value) => Ok(value),
        None => Err(Failure::Refused(Bad)),
    }
}

fn ends_value(byte: u8) -> bool
    ensures { result ≡ ends_value byte }
{
    byte == b' ' || byte == b','
}

/// How many bytes stand before the first that ends a value.
fn value_len(bytes: &[u8]) -> usize
    ensures value { result ≡ position_or_len ends_value bytes.now }
    ensures within { result ≤ length bytes.now }
{
    for (index, byte) in bytes.iter().enumerate() {
        if ends_value(*byte) {
            return index;
        }
    }
    bytes.len()
}

impl<'a> Line<'a> {
    fn plain_value(&mut self, alloc: Global) -> Result<Value, Stop>
        ensures { Gives result self.new (plain_value_at self.old) }
    {
        let bytes = self.rest();
        let (token, rest) = bytes.split_at(value_len(bytes));
        self.go_on(rest);
        value_of(alloc, token)
    }

    /// A text, from behind its opening quote on.
    fn text_value(&mut self, alloc: Global, inside: &'a [u8]) -> Result<Value, Stop>
        ensures { Gives result self.new (text_value_at inside.now) }
    {
        let (text, rest) = quoted(alloc, inside)?;
        self.go_on(rest);
        match text_of(text) {
            Some(text) => Ok(Value::Text(text)),
            None => Err(Failure::Refused(Bad)),
        }
    }

    /// A value, whose form says its kind.
    #[tactic(auto, unfolding(crate::specs::Values::value_at))]
    fn value(&mut self, alloc: Global) -> Result<Value, Stop>
        ensures { Gives result self.new (value_at self.old) }
    {
        match strip_byte(self.rest(), b'"') {
            Some(inside) => self.text_value(alloc, inside),
            None => self.plain_value(alloc),
        }
    }

    /// Values with commas between them, to the end of the word.
    #[tactic(auto, unfolding(crate::specs::Values::values_at))]
    fn values(&mut self, alloc: Global) -> Result<Vec<Value>, Stop>
        ensures values { IfOk result (λ values. values_at self.old ≡ Some (values.items, self.new)) }
        ensures stop { IfErr result (λ stop. Stops stop (values_at self.old)) }
    {
        let mut values = Vec::new(alloc);
        if ends_word(self.rest()) {
            return Ok(values);
        }
        'values: loop {
            values.push(self.value(alloc)?)?;
            match strip_byte(self.rest(), b',') {
                Some(more) => self.go_on(more),
                None => break,
            }
        }
        if ends_word(self.rest()) {
            Ok(values)
        } else {
            Err(Failure::Refused(Bad))
        }
    }

    /// What stands before the first `=`; what stands behind it is left.
    fn assigned(&mut self) -> Result<&'a [u8], Stop>
        ensures name { IfOk result (λ name. assigned_at self.old ≡ Some (name.now, self.new)) }
        ensures stop { IfErr result (λ stop. Stops stop (assigned_at self.old)) }
    {
        let bytes = self.rest();
        let (name, rest) = bytes.split_at(len_before(bytes, b'='));
        let Some(rest) = strip_byte(rest, b'=') else {
            return Err(Failure::Refused(Bad));
        };
        self.go_on(rest);
        Ok(name)
    }

    /// An attribute, `=` and its values with commas between them, or none. Whether the values are of
    /// the attribute's kind is the schema's to say.
    #[tactic(auto, unfolding(crate::specs::Values::set_at))]
    pub fn set(&mut self, alloc: Global) -> Result<(u16, Vec<Value>), Stop>
        ensures set { IfOk result (λ set. set_at self.old ≡ Some ((set.0, set.1.items), self.new)) }
        ensures stop { IfErr result (λ stop. Stops stop (set_at self.old)) }
    {
        self.skip_spaces();
        let name = self.assigned()?;
        let Some(attr) = attribute_of(name) else {
            return Err(Failure::Refused(Bad));
        };
        let values = self.values(alloc)?;
        Ok((attr, values))
    }
}
