//! Entries as JSON, and the text of a directory.

ghost use Rattle.std.specs.Prelude.{◌≡◌, ◌++◌, IfOk, OnOk, map, false};
ghost use Rattle.serde_json.specs.View.{items_of, view};
ghost use Rattle.serde_json.specs.Written.{comma_if, compact_text, items_text};
ghost use Rattle.adr_json.specs.Text.{entry_json, json_text};

use crate::objects::object_json;
use crate::values::{class_text, identifier_json};
use adr_call::{Directory, Entry};
use adr_token::push;
use adr_values::NoMemory;
use serde_json::{Value as Json, json};
use std::alloc::Global;

#[tactic(auto, unfolding(crate::specs::Text::entry_json))]
fn entry_json(alloc: Global, entry: &Entry) -> Result<Json, NoMemory>
    ensures { IfOk result (λ json. view json ≡ entry_json entry.now) }
{
    json!(in alloc; {
        "class": class_text(alloc, entry.class)?,
        "guid": identifier_json(alloc, entry.guid)?,
        "links": object_json(alloc, entry.links.items())?,
        "name": entry.name.as_str(),
        "parent": identifier_json(alloc, entry.parent)?,
        "values": object_json(alloc, entry.values.items())?
    })
}

/// The text of an entry's object.
#[tactic(auto, using(crate::proofs::Floats::entry_exact))]
fn entry_text(alloc: Global, entry: &Entry) -> Result<Vec<u8>, NoMemory>
    ensures { IfOk result (λ text. text.items ≡ compact_text (entry_json entry.now)) }
{
    let json = entry_json(alloc, entry)?;
    json.to_vec(alloc)
}

fn push_comma(out: &mut Vec<u8>, is_later: bool) -> Result<(), NoMemory>
    ensures { OnOk result (out.new.items ≡ out.old.items ++ comma_if is_later) }
{
    if is_later { push(out, b",") } else { Ok(()) }
}

/// Adds an entry's object, behind a comma where another stands before it.
fn push_entry(
    alloc: Global,
    out: &mut Vec<u8>,
    is_later: bool,
    entry: &Entry,
) -> Result<(), NoMemory>
    ensures { OnOk result (out.new.items
        ≡ out.old.items ++ (comma_if is_later ++ compact_text (entry_json entry.now))) }
{
    push_comma(out, is_later)?;
    let text = entry_text(alloc, entry)?;
    push(out, &text)
}

/// Adds the objects of entries with commas between them, and the bracket that closes their array.
fn push_entries(alloc: Global, out: &mut Vec<u8>, entries: &[Entry]) -> Result<(), NoMemory>
    ensures { OnOk result (out.new.items
        ≡ out.old.items ++ items_text false (items_of (map entry_json entries.now))) }
{
    for (place, entry) in entries.iter().enumerate() {
        push_entry(alloc, out, place > 0, entry)?;
    }
    push(out, b"]")
}

/// A directory as JSON: one compact array with an object for each entry, without a line feed behind it.
///
/// The members of an entry are `class`, `guid`, `links`, `name`, `parent` and `values`. Identifiers are their texts of
/// 36 bytes. `links` and `values` have an array for each attribute, by its name. What has no name in the schema goes
/// by its number behind a `%`, and octets are lower-case hexadecimal digits.
#[tactic(auto, unfolding(crate::specs::Text::json_text))]
pub fn json(alloc: Global, directory: &Directory) -> Result<Vec<u8>, NoMemory>
    ensures { IfOk result (λ bytes. bytes.items ≡ json_text directory.now) }
{
    let mut out = Vec::new(alloc);
    push(&mut out, b"[")?;
    push_entries(alloc, &mut out, directory.entries())?;
    Ok(out)
}
