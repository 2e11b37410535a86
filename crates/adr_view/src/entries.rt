//! The directory that a controller shows.

ghost use Rattle.std.specs.Prelude.{◌≡◌, Some, IfOk, IsTrue, map};
ghost use Rattle.adr_model.specs.Directory.{entry_of, directory};
ghost use Rattle.adr_model.specs.Live.{live_rows};
ghost use Rattle.adr_model.specs.Place.{node_at};
ghost use Rattle.adr_model.specs.Store.{updates_of};
ghost use Rattle.adr_model.specs.Write.{nodes_held};
ghost use Rattle.adr_update.specs.Referents.{referents};
ghost use Rattle.adr_view.specs.BackLinks.{have_back_links};
ghost use Rattle.adr_view.specs.Named.{AreNamed};
ghost use Rattle.adr_view.specs.Youngest.{AreYoungest};

use crate::NoMemory;
use crate::links::links_at;
use crate::names::{Names, youngest_names};
use crate::shown::shown_name;
use crate::values::values_at;
use adr_call::{Directory, Entry};
use adr_state::{Node, Rows};
use std::alloc::Global;

/// A live object as it is shown.
fn entry_of<'a>(
    alloc: Global,
    rows: &Rows,
    names: &Names<'a>,
    node: &'a Node,
) -> Result<Entry, NoMemory>
    requires links { IsTrue (have_back_links (updates_of rows.now)) }
    requires named { AreNamed (updates_of rows.now) }
    requires names { AreYoungest (nodes_held (updates_of rows.now)) names.now.map }
    requires live { node_at (nodes_held (updates_of rows.now)) node.now.object.guid ≡ Some node.now }
    ensures { IfOk result (λ entry.
        entry ≡ entry_of (live_rows (updates_of rows.now)) (nodes_held (updates_of rows.now)) node.now) }
{
    let object = node.object();
    let place = rows.place(node);
    Ok(Entry {
        guid: object.guid,
        class: node.class(),
        parent: place,
        name: shown_name(alloc, names, place, node)?,
        values: values_at(alloc, rows, &object)?,
        links: links_at(alloc, rows, &object)?,
    })
}

/// The directory of live objects, in their order.
fn directory_of<'a>(
    alloc: Global,
    rows: &Rows,
    names: &Names<'a>,
    nodes: &[&'a Node],
) -> Result<Directory, NoMemory>
    requires links { IsTrue (have_back_links (updates_of rows.now)) }
    requires named { AreNamed (updates_of rows.now) }
    requires names { AreYoungest (nodes_held (updates_of rows.now)) names.now.map }
    requires nodes { referents nodes.now ≡ nodes_held (updates_of rows.now) }
    ensures { IfOk result (λ shown. shown
        ≡ map (entry_of (live_rows (updates_of rows.now)) (nodes_held (updates_of rows.now))) (referents nodes.now)) }
{
    rows.are_rising();
    let mut entries = Vec::new(alloc);
    for node in nodes {
        entries.push(entry_of(alloc, rows, names, node)?)?;
    }
    Ok(Directory::of(entries))
}

/// The directory that the rows of a controller define: its live objects, rising by GUID.
pub fn directory(alloc: Global, rows: &Rows) -> Result<Directory, NoMemory>
    requires links { IsTrue (have_back_links (updates_of rows.now)) }
    requires named { AreNamed (updates_of rows.now) }
    ensures { IfOk result (λ shown. shown ≡ directory (updates_of rows.now)) }
{
    let nodes = rows.nodes(alloc)?;
    let names = youngest_names(alloc, rows, nodes.as_slice())?;
    directory_of(alloc, rows, &names, nodes.as_slice())
}
