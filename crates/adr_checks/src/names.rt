//! The names of classes and attributes, and the names that objects may have.

ghost use Rattle.std.specs.Prelude.{◌≡◌, ◌<◌, ◌≤◌, length};
ghost use Rattle.std.specs.Option.{option_copied};
ghost use Rattle.std.specs.Result.{result_err};
ghost use Rattle.adr_values.specs.Names.{attribute_name, attribute_number, class_name, class_number, is_wrong_byte, name_fault};
ghost use Rattle.adr_values.specs.Places.{first_place};
ghost use Rattle.adr_values.specs.Rules.{name_refusal};
ghost use Rattle.adr_values.specs.Schemas.{spoken};
ghost use Rattle.adr_values.specs.Table.{kind_at};

use crate::table::spoken_table;
use adr_values::{Kind, SchemaRefusal};

/// The name of a class, in the schema that texts know.
pub fn class_name(number: u16) -> Option<&'static str>
    ensures { option_copied result ≡ class_name number }
{
    let class = spoken_table().class(number)?;
    Some(class.name)
}

/// The number of a class, by its name as it is spelled.
pub fn class_number(name: &[u8]) -> Option<u16>
    ensures { result ≡ class_number name.now }
{
    let class = spoken_table().class_named(name)?;
    Some(class.number)
}

/// The name of an attribute, in the schema that texts know.
pub fn attribute_name(number: u16) -> Option<&'static str>
    ensures { option_copied result ≡ attribute_name number }
{
    let attribute = spoken_table().attribute(number)?;
    Some(attribute.name)
}

/// The number of an attribute, by its name as it is spelled.
pub fn attribute_number(name: &[u8]) -> Option<u16>
    ensures { result ≡ attribute_number name.now }
{
    let attribute = spoken_table().attribute_named(name)?;
    Some(attribute.number)
}

/// What an attribute holds, in the schema that texts know.
pub fn attribute_kind(number: u16) -> Option<Kind>
    ensures { result ≡ kind_at spoken number }
{
    spoken_table().kind(number)
}

/// Tests that an object may have a name. The rule is this project's own.
#[tactic(auto, unfolding(adr_values::specs::Names::name_fault))]
pub fn check_name(text: &str) -> Result<(), SchemaRefusal>
    ensures { result_err result ≡ name_refusal text.now }
{
    let bytes = text.as_bytes();
    if bytes.is_empty() {
        return Err(SchemaRefusal::BadName { place: 0 });
    }
    if bytes.len() > 128 {
        return Err(SchemaRefusal::BadName { place: 128 });
    }
    match first_wrong_byte(bytes) {
        Some(place) => Err(SchemaRefusal::BadName { place }),
        None => Ok(()),
    }
}

/// The first place at which a name has a control byte, or a space that is its first or last byte.
fn first_wrong_byte(bytes: &[u8]) -> Option<u32>
    requires { length bytes.now ≤ 128 }
    ensures { result ≡ first_place (is_wrong_byte bytes.now) (length bytes.now) }
{
    for place in 0..bytes.len() {
        if is_wrong_byte(bytes, place) {
            return Some(place as u32);
        }
    }
    None
}

fn is_wrong_byte(bytes: &[u8], place: usize) -> bool
    requires { place < length bytes.now }
    ensures { result ≡ is_wrong_byte bytes.now place }
{
    let byte = bytes[place];
    byte < 0x20 || byte == 0x7f || (byte == b' ' && (place == 0 || place + 1 == bytes.len()))
}
