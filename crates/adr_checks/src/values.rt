//! Which values an attribute may have.

ghost use Rattle.std.specs.Prelude.{◌≡◌, ◌↔◌, ◌<◌, IsTrue, length, take};
ghost use Rattle.std.specs.List.{list_any, slice_get};
ghost use Rattle.adr_values.specs.Values.{bad_place, fits, is_misplaced, is_within, same_value};

use adr_values::{Syntax, Value};

/// The first place of a value that is out of range, repeats an earlier one or is one too many.
#[tactic(auto, unfolding(adr_values::specs::Values::bad_place))]
pub fn bad_place(syntax: Syntax, most: u32, values: &[Value]) -> Option<u32>
    ensures { result ≡ bad_place syntax most values.now }
{
    for place in 0..values.len() {
        if place >= most as usize || is_misplaced(syntax, values, place) {
            return Some(place as u32);
        }
    }
    None
}

fn is_misplaced(syntax: Syntax, values: &[Value], place: usize) -> bool
    requires { place < length values.now }
    ensures { result ≡ is_misplaced syntax (take place values.now) (slice_get values.now place) }
{
    let value = &values[place];
    !fits(syntax, value) || is_among(&values[..place], value)
}

fn is_among(values: &[Value], value: &Value) -> bool
    ensures { result ≡ list_any (λ v. same_value v value.now) values.now }
{
    for other in values {
        if is_same_value(other, value) {
            return true;
        }
    }
    false
}

/// Whether the two are one value.
pub fn is_same_value(value: &Value, other: &Value) -> bool
    ensures same { IsTrue result ↔ (value.now ≡ other.now) }
    ensures value { result ≡ same_value value.now other.now }
{
    match (value, other) {
        (Value::Text(text), Value::Text(other)) => text.items() == other.items(),
        (Value::Number(number), Value::Number(other)) => number == other,
        (Value::Flag(flag), Value::Flag(other)) => flag == other,
        (Value::Octets(octets), Value::Octets(other)) => octets.items() == other.items(),
        (Value::Ref(guid), Value::Ref(other)) => guid == other,
        _ => false,
    }
}

/// Whether a value is of a syntax, and within its range.
fn fits(syntax: Syntax, value: &Value) -> bool
    ensures { result ≡ fits syntax value.now }
{
    match (syntax, value) {
        (Syntax::Text { least, greatest }, Value::Text(text)) => {
            is_within(text.items().len(), least, greatest)
        }
        (Syntax::Number { least, greatest }, Value::Number(number)) => {
            least <= *number && *number <= greatest
        }
        (Syntax::Flag, Value::Flag(_)) => true,
        (Syntax::Octets { least, greatest }, Value::Octets(octets)) => {
            is_within(octets.items().len(), least, greatest)
        }
        (Syntax::Ref, Value::Ref(_)) => true,
        _ => false,
    }
}

fn is_within(length: usize, least: u32, greatest: u32) -> bool
    ensures { result ≡ is_within least greatest length }
{
    least as usize <= length && length <= greatest as usize
}
