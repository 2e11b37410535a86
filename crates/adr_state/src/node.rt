//! Live objects as their rows name them.

ghost use Rattle.std.specs.Prelude.{◌≡◌, IfOk};
ghost use Rattle.std.specs.Option.{option_and_then};
ghost use Rattle.adr_model.specs.Formed.{AreRising};
ghost use Rattle.adr_model.specs.Update.{RowOf, name_attr};
ghost use Rattle.adr_model.specs.Place.{with_name, row_at, node_of, node_at};
ghost use Rattle.adr_model.specs.Store.{updates_of};
ghost use Rattle.adr_model.specs.Write.{nodes_held};
ghost use Rattle.adr_update.specs.Referents.{referents};
ghost use Rattle.adr_state.specs.Alive.{node_by};

use crate::NoMemory;
use crate::live::{is_live, row_at};
use adr_update::{CLASS, Held, Key, NAME, Node, Said, Update, is_same};
use adr_values::{Content, Guid, Oid};
use std::alloc::Global;

/// An object of a class by the row that names it.
fn with_name(
    alloc: Global,
    object: &Oid,
    class: u16,
    update: &Update,
) -> Result<Option<Node>, NoMemory>
    ensures { IfOk result (λ node. node ≡ with_name object.now class update.now.stamp update.now.said) }
{
    match update.said() {
        Said::Holds(Content::Name { text, parent }) => {
            let text = text.copy(alloc)?;
            let node = Node::new(alloc, *object, class, text, *parent, update.stamp())?;
            Ok(Some(node))
        }
        _ => Ok(None),
    }
}

/// An object by its rows, where it has a class and a name.
fn with_class(
    alloc: Global,
    rows: &[&Held],
    object: &Oid,
    class: u16,
) -> Result<Option<Node>, NoMemory>
    ensures { IfOk result (λ node.
        node
        ≡ option_and_then (λ u. with_name object.now class u.stamp u.said)
        (row_at (updates_of (referents rows.now)) (RowOf object.now name_attr))) }
{
    let name = Key::Row {
        object: *object,
        attr: NAME,
    };
    match row_at(rows, &name) {
        Some(update) => with_name(alloc, object, class, update),
        None => Ok(None),
    }
}

/// The object that a class row stands for, by the row that names it.
fn node_of(alloc: Global, rows: &[&Held], update: &Update) -> Result<Option<Node>, NoMemory>
    ensures { IfOk result (λ node. node ≡ node_of (updates_of (referents rows.now)) update.now.key update.now.said) }
{
    match (update.key(), update.said()) {
        (Key::Row { object, attr }, Said::Holds(Content::Class(class))) => {
            if attr == CLASS {
                with_class(alloc, rows, &object, *class)
            } else {
                Ok(None)
            }
        }
        _ => Ok(None),
    }
}

/// The live object of a GUID to which an update gives birth.
fn node_by(
    alloc: Global,
    rows: &[&Held],
    guid: Guid,
    update: &Update,
) -> Result<Option<Node>, NoMemory>
    ensures { IfOk result (λ node. node ≡ node_by (updates_of (referents rows.now)) guid update.now) }
{
    match update.key().born() {
        Some(object) => {
            if is_same(object.guid, guid) && is_live(rows, update, &object) {
                node_of(alloc, rows, update)
            } else {
                Ok(None)
            }
        }
        None => Ok(None),
    }
}

/// The live object that a GUID has by rows.
pub fn live_node(alloc: Global, rows: &[&Held], guid: Guid) -> Result<Option<Node>, NoMemory>
    requires { AreRising (referents rows.now) }
    ensures { IfOk result (λ node. node ≡ node_at (nodes_held (updates_of (referents rows.now))) guid) }
{
    for row in rows {
        if let Some(node) = node_by(alloc, rows, guid, row.update())? {
            return Ok(Some(node));
        }
    }
    Ok(None)
}
