//! The lines of entries.

ghost use Rattle.std.specs.Prelude.{◌≡◌, ◌++◌, ℕ, List, OnOk, codes, flat_map};
ghost use Rattle.adr_token.specs.Spelling.{identifier_token, text_token, class_token, attribute_token};
ghost use Rattle.adr_answers.specs.Line.{listed, values_text, links_text, entry_line};

use crate::each::{PushText, push_each};
use crate::knowledge::push_identifier_behind;
use adr_call::{Entry, Guids};
use adr_token::{push, push_attribute, push_class, push_identifier, push_set, push_text};
use adr_values::{Guid, NoMemory, Values};

fn push_attribute_sign(out: &mut Vec<u8>, attr: u16) -> Result<(), NoMemory>
    ensures { OnOk result (out.new.items ≡ out.old.items ++ (codes " " ++ attribute_token attr ++ codes "=")) }
{
    push(out, b" ")?;
    push_attribute(out, attr)?;
    push(out, b"=")
}

// An attribute with its values.
impl PushText for (u16, Values) {
    ghost text = { values_text };

    #[tactic(auto, unfolding(crate::specs::Line::values_text))]
    fn push_to(&self, out: &mut Vec<u8>) -> Result<(), NoMemory> {
        push(out, b" ")?;
        push_set(out, self.0, self.1.items())
    }
}

/// Adds GUIDs, each behind a comma.
fn push_further_guids(out: &mut Vec<u8>, guids: &[Guid]) -> Result<(), NoMemory>
    ensures { OnOk result (out.new.items
        ≡ out.old.items ++ flat_map (λ (i : List ℕ). codes "," ++ identifier_token i) guids.now) }
{
    for guid in guids {
        push_identifier_behind(out, b",", *guid)?;
    }
    Ok(())
}

fn push_listed_guids(out: &mut Vec<u8>, guids: &[Guid]) -> Result<(), NoMemory>
    ensures { OnOk result (out.new.items ≡ out.old.items ++ listed guids.now) }
{
    match guids.split_first() {
        None => Ok(()),
        Some((first, rest)) => {
            push_identifier(out, *first)?;
            push_further_guids(out, rest)
        }
    }
}

// A link attribute with the GUIDs at its other ends.
impl PushText for (u16, Guids) {
    ghost text = { links_text };

    #[tactic(auto, unfolding(crate::specs::Line::links_text))]
    fn push_to(&self, out: &mut Vec<u8>) -> Result<(), NoMemory> {
        push_attribute_sign(out, self.0)?;
        push_listed_guids(out, self.1.items())
    }
}

/// Adds an entry's identity: its GUID and its class.
fn push_head(out: &mut Vec<u8>, entry: &Entry) -> Result<(), NoMemory>
    ensures { OnOk result (out.new.items
        ≡ out.old.items
        ++ (codes "  " ++ identifier_token entry.now.guid ++ codes " " ++ class_token entry.now.class)) }
{
    push_identifier_behind(out, b"  ", entry.guid)?;
    push(out, b" ")?;
    push_class(out, entry.class)
}

/// Adds where an entry stands, and under which name.
fn push_place(out: &mut Vec<u8>, entry: &Entry) -> Result<(), NoMemory>
    ensures { OnOk result (out.new.items
        ≡ out.old.items
        ++ (codes " parent=" ++ identifier_token entry.now.parent ++ codes " name=" ++ text_token entry.now.name)) }
{
    push_identifier_behind(out, b" parent=", entry.parent)?;
    push(out, b" name=")?;
    push_text(out, entry.name.items())
}

// An entry's line.
impl PushText for Entry {
    ghost text = { entry_line };

    #[tactic(auto, unfolding(crate::specs::Line::entry_line))]
    fn push_to(&self, out: &mut Vec<u8>) -> Result<(), NoMemory> {
        push_head(out, self)?;
        push_place(out, self)?;
        push_each(out, self.values.items())?;
        push_each(out, self.links.items())?;
        push(out, b"\n")
    }
}
