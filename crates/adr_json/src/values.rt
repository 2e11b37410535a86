//! Values, identifiers and names as JSON.

ghost use Rattle.std.specs.Prelude.{◌≡◌, IfOk, flat_map, string_bytes};
ghost use Rattle.std.specs.Option.{option_copied};
ghost use Rattle.uuid.specs.Text.{hyphenated_text, lower};
ghost use Rattle.serde_json.specs.Data.{string};
ghost use Rattle.serde_json.specs.View.{view};
ghost use Rattle.adr_token.specs.Spelling.{attribute_token, class_token, name_or_number, two_figures};
ghost use Rattle.adr_json.specs.Text.{identifier_json, value_json};

use adr_checks::{attribute_name, class_name};
use adr_values::{Guid, NoMemory, Value};
use serde_json::Value as Json;
use std::alloc::Global;

/// An identifier, by its text of 36 bytes in lower case (RFC 9562).
pub fn identifier_json(alloc: Global, id: Guid) -> Result<Json, NoMemory>
    ensures { IfOk result (λ json. view json ≡ identifier_json id) }
{
    Json::try_from_str(alloc, id.hyphenated(&mut [0; 36]))
}

/// Bytes in lower-case hexadecimal figures, two for each.
fn figures(alloc: Global, bytes: &[u8]) -> Result<String, NoMemory>
    ensures { IfOk result (λ text. string_bytes text ≡ flat_map two_figures bytes.now) }
{
    hex::encode(alloc, bytes)
}

/// A value of an attribute.
pub fn value_json(alloc: Global, value: &Value) -> Result<Json, NoMemory>
    ensures { IfOk result (λ json. view json ≡ value_json value.now) }
{
    match value {
        Value::Text(text) => Json::try_from_str(alloc, text.as_str()),
        Value::Number(number) => Ok(Json::from(*number)),
        Value::Flag(flag) => Ok(Json::from(*flag)),
        Value::Octets(octets) => Ok(Json::from(figures(alloc, octets.items())?)),
        Value::Ref(id) => identifier_json(alloc, *id),
    }
}

fn name_or_number(
    alloc: Global,
    name: Option<&'static str>,
    number: u16,
) -> Result<String, NoMemory>
    ensures { IfOk result (λ text. string_bytes text ≡ name_or_number (option_copied name.entry) number) }
{
    match name {
        Some(name) => String::from_str(alloc, name),
        None => format!(in alloc; "%{number}"),
    }
}

/// The name of a class, or its number behind a `%`.
#[tactic(auto, unfolding(adr_token::specs::Spelling::class_token))]
pub fn class_text(alloc: Global, class: u16) -> Result<String, NoMemory>
    ensures { IfOk result (λ text. string_bytes text ≡ class_token class) }
{
    name_or_number(alloc, class_name(class), class)
}

/// The name of an attribute, or its number behind a `%`.
#[tactic(auto, unfolding(adr_token::specs::Spelling::attribute_token))]
pub fn attribute_text(alloc: Global, attr: u16) -> Result<String, NoMemory>
    ensures { IfOk result (λ text. string_bytes text ≡ attribute_token attr) }
{
    name_or_number(alloc, attribute_name(attr), attr)
}
