//! What the live object of one GUID shows.

ghost use Rattle.std.specs.Prelude.{◌≡◌, Some, IfOk, IsTrue};
ghost use Rattle.std.specs.List.{find};
ghost use Rattle.std.specs.Option.{option_map};
ghost use Rattle.adr_call.specs.declared.directory.Entry.{Entry};
ghost use Rattle.adr_model.specs.Directory.{directory, entry_of};
ghost use Rattle.adr_model.specs.Live.{live_rows};
ghost use Rattle.adr_model.specs.Place.{node_at};
ghost use Rattle.adr_model.specs.Store.{updates_of};
ghost use Rattle.adr_model.specs.Update.{same_identifier};
ghost use Rattle.adr_model.specs.Write.{nodes_held};
ghost use Rattle.adr_view.specs.BackLinks.{have_back_links};
ghost use Rattle.adr_view.specs.Named.{AreNamed};
ghost use Rattle.adr_view.specs.Seen.{seen_of};

use crate::NoMemory;
use crate::links::links_at;
use crate::values::values_at;
use adr_call::{EntryLinks, EntryValues};
use adr_state::{Node, Rows};
use adr_values::Guid;
use std::alloc::Global;

/// What a live object shows wherever it is placed: its class, its values, and its links, forward and back.
pub struct Shown {
    pub class: u16,
    pub values: EntryValues,
    pub links: EntryLinks,
}

impl Drop for Shown {
    fn drop(self) {
        let Shown {
            class: _,
            values: _values,
            links: _links,
        } = self;
    }
}

/// What a live object shows.
fn shown_by(alloc: Global, rows: &Rows, node: &Node) -> Result<Shown, NoMemory>
    requires links { IsTrue (have_back_links (updates_of rows.now)) }
    requires named { AreNamed (updates_of rows.now) }
    requires live { node_at (nodes_held (updates_of rows.now)) node.now.object.guid ≡ Some node.now }
    ensures { IfOk result (λ shown.
        shown ≡ seen_of (entry_of (live_rows (updates_of rows.now)) (nodes_held (updates_of rows.now)) node.now)) }
{
    let object = node.object();
    Ok(Shown {
        class: node.class(),
        values: values_at(alloc, rows, &object)?,
        links: links_at(alloc, rows, &object)?,
    })
}

/// What the directory that rows define has under a GUID, apart from the place and the name. It takes time by that
/// object's rows and links alone.
pub fn shown_at(alloc: Global, rows: &Rows, guid: Guid) -> Result<Option<Shown>, NoMemory>
    requires links { IsTrue (have_back_links (updates_of rows.now)) }
    requires named { AreNamed (updates_of rows.now) }
    ensures { IfOk result (λ shown. shown
        ≡ option_map seen_of (find (λ (e : Entry). same_identifier e.guid guid) (directory (updates_of rows.now)))) }
{
    match rows.node(guid) {
        Some(node) => Ok(Some(shown_by(alloc, rows, node)?)),
        None => Ok(None),
    }
}
