//! What the rows of a GUID tell of themselves.

ghost use Rattle.std.specs.Prelude.{◌≡◌, ◌++◌, IfOk, OnOk, flat_map};
ghost use Rattle.std.specs.Option.{option_copied};
ghost use Rattle.adr_model.specs.Meta.{life_of, meta, object_line, text_said, text_written, told};
ghost use Rattle.adr_model.specs.Store.{updates_of};
ghost use Rattle.adr_model.specs.Write.{nodes_held};
ghost use Rattle.adr_update.specs.Referents.{referents};
ghost use Rattle.adr_update.specs.Said.{said_of};
ghost use Rattle.adr_view.specs.Youngest.{AreYoungest};

use crate::NoMemory;
use crate::names::{Names, youngest_names};
use crate::shown::{mangled, shown_name};
use adr_call::{Life, MetaLine, MetaLines};
use adr_state::Rows;
use adr_update::{CLASS, DELETED, Held, Key, NAME, Said, is_same_object};
use adr_values::{Content, Guid, Oid, Text};
use std::alloc::Global;

/// The text that a name row says.
fn text_said(alloc: Global, said: &Said) -> Result<Text, NoMemory>
    ensures { IfOk result (λ text. text ≡ text_said (said_of said.now)) }
{
    match said {
        Said::Holds(Content::Name { text, .. }) => text.copy(alloc),
        _ => Ok(Text::empty(alloc)),
    }
}

/// The text of an object's name, as it was written.
fn text_written(alloc: Global, rows: &Rows, object: &Oid) -> Result<Text, NoMemory>
    ensures { IfOk result (λ text. text ≡ text_written rows.now object.now) }
{
    let key = Key::Row {
        object: *object,
        attr: NAME,
    };
    match rows.row(key) {
        Some(row) => text_said(alloc, row.update().said()),
        None => Ok(Text::empty(alloc)),
    }
}

/// How an object is held, and its name. That of a tombstone is its text with `DEL:` and the GUID.
fn life_of<'a>(
    alloc: Global,
    rows: &'a Rows,
    names: &Names<'a>,
    object: &Oid,
) -> Result<(Life, Text), NoMemory>
    requires { AreYoungest (nodes_held (updates_of rows.now)) names.now.map }
    ensures { IfOk result (λ life. life ≡ life_of rows.now object.now) }
{
    if rows.row(Key::deleted(object)).is_some() {
        let text = text_written(alloc, rows, object)?;
        return Ok((Life::Dead, mangled(alloc, &text, "DEL:", object.guid)?));
    }
    if let Some(node) = rows.node(object.guid) {
        if is_same_object(&node.object(), object) {
            let name = shown_name(alloc, names, rows.place(node), node)?;
            return Ok((Life::Live, name));
        }
    }
    Ok((Life::Hidden, text_written(alloc, rows, object)?))
}

/// The line of an object.
fn object_line<'a>(
    alloc: Global,
    rows: &'a Rows,
    names: &Names<'a>,
    object: &Oid,
) -> Result<MetaLine, NoMemory>
    requires { AreYoungest (nodes_held (updates_of rows.now)) names.now.map }
    ensures { IfOk result (λ line. line ≡ object_line object.now (life_of rows.now object.now)) }
{
    let (life, name) = life_of(alloc, rows, names, object)?;
    Ok(MetaLine::Object {
        birth: object.birth,
        life,
        name,
    })
}

/// Adds the line of a row, behind that of its object where it is the object's first.
fn push_row<'a>(
    alloc: Global,
    rows: &'a Rows,
    names: &Names<'a>,
    row: &Held,
    lines: &mut Vec<MetaLine>,
) -> Result<(), NoMemory>
    requires { AreYoungest (nodes_held (updates_of rows.now)) names.now.map }
    ensures { OnOk result (lines.new.items
        ≡ lines.old.items ++ told rows.now row.now) }
{
    match row.key() {
        Key::Row { object, attr } => {
            if attr == CLASS {
                lines.push(object_line(alloc, rows, names, &object)?)?;
            }
            lines.push(MetaLine::Row {
                attr,
                stamp: row.update().stamp().stamp,
                local: row.local(),
            })?;
            Ok(())
        }
        Key::Link(_) => Ok(()),
    }
}

/// Adds the lines of some rows.
fn push_rows<'a>(
    alloc: Global,
    rows: &'a Rows,
    names: &Names<'a>,
    held: &[&Held],
    lines: &mut Vec<MetaLine>,
) -> Result<(), NoMemory>
    requires { AreYoungest (nodes_held (updates_of rows.now)) names.now.map }
    ensures { OnOk result (lines.new.items ≡ lines.old.items ++ flat_map (told rows.now) (referents held.now)) }
{
    for row in held {
        push_row(alloc, rows, names, row, lines)?;
    }
    Ok(())
}

/// What is told of the objects of a GUID, live or not, each with its rows. It takes time by the live objects, as names
/// are told apart by all of them.
pub fn meta(alloc: Global, rows: &Rows, guid: Guid) -> Result<MetaLines, NoMemory>
    ensures { IfOk result (λ lines. lines ≡ meta rows.now guid) }
{
    let nodes = rows.nodes(alloc)?;
    let names = youngest_names(alloc, rows, nodes.as_slice())?;
    let held = rows.rows_of_guid(alloc, guid)?;
    let mut lines = Vec::new(alloc);
    push_rows(alloc, rows, &names, held.as_slice(), &mut lines)?;
    Ok(MetaLines::of(lines))
}
