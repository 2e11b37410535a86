//! Writers of values, classes and attributes.

ghost use Rattle.std.specs.Prelude.{◌≡◌, ◌++◌, ◌<◌, OnOk, flat_map, codes};
ghost use Rattle.std.specs.Fmt.{signed_decimal};
ghost use Rattle.std.specs.Option.{option_copied};
ghost use Rattle.adr_token.specs.Room.{TakesRoom, name_room};
ghost use Rattle.adr_token.specs.Spelling.{two_figures, flag_text, value_token, name_or_number, class_token, attribute_token, values_token, set_token};

use crate::writing::{push, push_identifier, push_number, push_text, push_two_figures};
use adr_checks::{attribute_name, class_name};
use adr_values::Value;
use itoa::Buffer;
use std::alloc::AllocError;

fn push_signed(out: &mut Vec<u8>, number: i64) -> Result<(), AllocError>
    ensures { OnOk result (out.new.items ≡ out.old.items ++ signed_decimal number) }
{
    push(out, Buffer::new().format(number).as_bytes())
}

fn push_flag(out: &mut Vec<u8>, flag: bool) -> Result<(), AllocError>
    ensures { OnOk result (out.new.items ≡ out.old.items ++ flag_text flag) }
{
    if flag {
        push(out, b"true")
    } else {
        push(out, b"false")
    }
}

fn push_all_figures(out: &mut Vec<u8>, bytes: &[u8]) -> Result<(), AllocError>
    ensures { OnOk result (out.new.items ≡ out.old.items ++ flat_map two_figures bytes.now) }
{
    for byte in bytes {
        push_two_figures(out, *byte)?;
    }
    Ok(())
}

fn push_octets(out: &mut Vec<u8>, bytes: &[u8]) -> Result<(), AllocError>
    ensures { OnOk result (out.new.items ≡ out.old.items ++ (codes "x" ++ flat_map two_figures bytes.now)) }
{
    push(out, b"x")?;
    push_all_figures(out, bytes)
}

/// Adds a value: a text in quotes, a number, `true` or `false`, octets in hexadecimal behind an
/// `x`, or an identifier.
#[tactic(auto, unfolding(crate::specs::Spelling::value_token))]
pub fn push_value(out: &mut Vec<u8>, value: &Value) -> Result<(), AllocError>
    ensures { OnOk result (out.new.items ≡ out.old.items ++ value_token value.now) }
{
    match value {
        Value::Text(text) => push_text(out, text.items()),
        Value::Number(number) => push_signed(out, *number),
        Value::Flag(flag) => push_flag(out, *flag),
        Value::Octets(octets) => push_octets(out, octets.items()),
        Value::Ref(id) => push_identifier(out, *id),
    }
}

fn push_name_or_number(
    out: &mut Vec<u8>,
    name: Option<&'static str>,
    number: u16,
) -> Result<(), AllocError>
    ensures items { OnOk result (out.new.items ≡ out.old.items ++ name_or_number (option_copied name.entry) number) }
    ensures room { TakesRoom (name_room (option_copied name.entry)) out.old result out.new }
{
    match name {
        Some(name) => push(out, name.as_bytes()),
        None => {
            push(out, b"%")?;
            push_number(out, u64::from(number))
        }
    }
}

/// Adds a class: its name, or its number behind a `%`.
#[tactic(auto, unfolding(crate::specs::Spelling::class_token))]
pub fn push_class(out: &mut Vec<u8>, class: u16) -> Result<(), AllocError>
    ensures { OnOk result (out.new.items ≡ out.old.items ++ class_token class) }
{
    push_name_or_number(out, class_name(class), class)
}

/// Adds an attribute: its name, or its number behind a `%`.
#[tactic(auto, unfolding(crate::specs::Spelling::attribute_token), using(crate::proofs::ClassLaws::attribute_room))]
pub fn push_attribute(out: &mut Vec<u8>, attr: u16) -> Result<(), AllocError>
    ensures items { OnOk result (out.new.items ≡ out.old.items ++ attribute_token attr) }
    ensures room { TakesRoom 32 out.old result out.new }
{
    push_name_or_number(out, attribute_name(attr), attr)
}

/// Adds each value behind a comma.
fn push_more_values(out: &mut Vec<u8>, values: &[Value]) -> Result<(), AllocError>
    ensures { OnOk result (out.new.items ≡ out.old.items ++ flat_map (λ v. codes "," ++ value_token v) values.now) }
{
    for value in values {
        push(out, b",")?;
        push_value(out, value)?;
    }
    Ok(())
}

fn push_values(out: &mut Vec<u8>, values: &[Value]) -> Result<(), AllocError>
    ensures { OnOk result (out.new.items ≡ out.old.items ++ values_token values.now) }
{
    match values.split_first() {
        None => Ok(()),
        Some((first, rest)) => {
            push_value(out, first)?;
            push_more_values(out, rest)
        }
    }
}

/// Adds an attribute, `=` and its values with commas between them.
#[tactic(auto, unfolding(crate::specs::Spelling::set_token))]
pub fn push_set(out: &mut Vec<u8>, attr: u16, values: &[Value]) -> Result<(), AllocError>
    ensures { OnOk result (out.new.items ≡ out.old.items ++ set_token attr values.now) }
{
    push_attribute(out, attr)?;
    push(out, b"=")?;
    push_values(out, values)
}
