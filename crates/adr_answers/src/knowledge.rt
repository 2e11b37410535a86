//! The lines of what a controller has seen, and of how far it has read its partners.

ghost use Rattle.std.specs.Prelude.{◌≡◌, ◌++◌, ◌+◌, OnOk, codes, flat_map, length};
ghost use Rattle.std.specs.Fmt.{decimal};
ghost use Rattle.adr_values.specs.Dated.{with_moments};
ghost use Rattle.adr_values.specs.Vector.{IsVector};
ghost use Rattle.adr_token.specs.Room.{TakesRoom};
ghost use Rattle.adr_token.specs.Spelling.{identifier_token};
ghost use Rattle.adr_answers.specs.Line.{dated_line, mark_text, partner_line};

use crate::each::PushText;
use adr_token::{push, push_identifier, push_number};
use adr_values::{Guid, Mark, NoMemory, Times};

/// Adds a number behind some text.
pub fn push_number_behind(out: &mut Vec<u8>, text: &[u8], number: u64) -> Result<(), NoMemory>
    ensures items { OnOk result (out.new.items ≡ out.old.items ++ (text.now ++ decimal number)) }
    ensures room { TakesRoom (length text.now + 20) out.old result out.new }
{
    push(out, text)?;
    push_number(out, number)
}

/// Adds an identifier behind some text.
pub fn push_identifier_behind(out: &mut Vec<u8>, text: &[u8], id: Guid) -> Result<(), NoMemory>
    ensures { OnOk result (out.new.items ≡ out.old.items ++ (text.now ++ identifier_token id)) }
{
    push(out, text)?;
    push_identifier(out, id)
}

/// Adds a mark.
#[tactic(auto, unfolding(crate::specs::Line::mark_text))]
pub fn push_mark(out: &mut Vec<u8>, mark: Mark) -> Result<(), NoMemory>
    ensures items { OnOk result (out.new.items ≡ out.old.items ++ mark_text mark) }
    ensures room { TakesRoom 62 out.old result out.new }
{
    push_number(out, mark.obj)?;
    push_number_behind(out, b"/", mark.prop)?;
    push_number_behind(out, b"/", mark.seen)
}

/// Adds the identifier that a line begins with.
fn push_first_identifier(out: &mut Vec<u8>, id: Guid) -> Result<(), NoMemory>
    ensures { OnOk result (out.new.items ≡ out.old.items ++ (codes "  " ++ identifier_token id ++ codes " ")) }
{
    push_identifier_behind(out, b"  ", id)?;
    push(out, b" ")
}

/// Adds a cursor with its moment.
#[tactic(auto, unfolding(crate::specs::Line::dated_line))]
fn push_one_dated(out: &mut Vec<u8>, cursor: (Guid, u64), moment: u64) -> Result<(), NoMemory>
    ensures { OnOk result (out.new.items ≡ out.old.items ++ dated_line (cursor, moment)) }
{
    push_first_identifier(out, cursor.0)?;
    push_number(out, cursor.1)?;
    push_number_behind(out, b" ", moment)?;
    push(out, b"\n")
}

/// Adds cursors, each with the moment that is known of it. Both rise, and each is read once.
pub fn push_dated(out: &mut Vec<u8>, cursors: &[(Guid, u64)], times: &Times) -> Result<(), NoMemory>
    requires { IsVector cursors.now }
    ensures { OnOk result (out.new.items ≡ out.old.items ++ flat_map dated_line (with_moments times.now cursors.now)) }
{
    let mut moments = times.walk();
    for cursor in cursors {
        push_one_dated(out, *cursor, moments.at(cursor.0))?;
    }
    Ok(())
}

// A partner's mark.
impl PushText for (Guid, Guid, Mark) {
    ghost text = { partner_line };

    #[tactic(auto, unfolding(crate::specs::Line::partner_line))]
    fn push_to(&self, out: &mut Vec<u8>) -> Result<(), NoMemory> {
        push_first_identifier(out, self.0)?;
        push_identifier(out, self.1)?;
        push(out, b" ")?;
        push_mark(out, self.2)?;
        push(out, b"\n")
    }
}
