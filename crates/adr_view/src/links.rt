//! The links of an object, forward and back.

ghost use Rattle.std.specs.Prelude.{◌≡◌, ◌++◌, [], ℕ, true, IfOk, OnOk, IsTrue, map, fold};
ghost use Rattle.std.specs.List.{filter_map, flat_map};
ghost use Rattle.std.specs.Ordering.{nat_cmp};
ghost use Rattle.std.specs.BTreeSet.{insert_key};
ghost use Rattle.adr_values.specs.Order.{identifier_order};
ghost use Rattle.adr_model.specs.Update.{Identifier};
ghost use Rattle.adr_model.specs.Directory.{one_where, of_attribute, gathered, links_at};
ghost use Rattle.adr_model.specs.Live.{live_rows};
ghost use Rattle.adr_model.specs.Store.{updates_of};
ghost use Rattle.adr_model.specs.Write.{nodes_held};
ghost use Rattle.adr_update.specs.Referents.{referents};
ghost use Rattle.adr_view.specs.BackLinks.{has_back_link, have_back_links};
ghost use Rattle.adr_view.specs.Ends.{back_end, forward_end, is_live};
ghost use Rattle.adr_view.specs.Named.{AreNamed};

use crate::NoMemory;
use adr_call::{EntryLinks, Guids};
use adr_state::{Held, Key, Rows, Said, Update, is_same_object};
use adr_values::{Guid, Oid};
use std::alloc::Global;
use std::collections::BTreeSet;

/// Whether an object is the live one of its GUID.
fn is_live(rows: &Rows, object: &Oid) -> bool
    ensures { result ≡ is_live (nodes_held (updates_of rows.now)) object.now }
{
    match rows.node(object.guid) {
        Some(node) => is_same_object(&node.object(), object),
        None => false,
    }
}

/// Adds an end if it is shown.
fn push_where(
    ends: &mut Vec<(u16, Guid)>,
    is_shown: bool,
    attr: u16,
    guid: Guid,
) -> Result<(), NoMemory>
    ensures { OnOk result (ends.new.items ≡ ends.old.items ++ one_where is_shown (attr, guid) []) }
{
    if is_shown {
        ends.push((attr, guid))?;
    }
    Ok(())
}

/// Adds what a row shows at the object that it is a link from.
fn push_forward(rows: &Rows, ends: &mut Vec<(u16, Guid)>, update: &Update) -> Result<(), NoMemory>
    ensures { OnOk result (ends.new.items
        ≡ ends.old.items ++ forward_end (nodes_held (updates_of rows.now)) update.now.key update.now.said) }
{
    match (update.key(), update.said()) {
        (Key::Link(link), Said::IsPresent(true)) => {
            push_where(ends, is_live(rows, &link.to), link.attr, link.to.guid)
        }
        _ => Ok(()),
    }
}

/// Adds what a row shows at the object that it is a link to.
fn push_back(rows: &Rows, ends: &mut Vec<(u16, Guid)>, update: &Update) -> Result<(), NoMemory>
    requires { IsTrue (has_back_link update.now.key) }
    ensures { OnOk result (ends.new.items
        ≡ ends.old.items ++ back_end (nodes_held (updates_of rows.now)) update.now.key update.now.said) }
{
    match (update.key(), update.said()) {
        (Key::Link(link), Said::IsPresent(true)) => {
            push_where(
                ends,
                is_live(rows, &link.from),
                link.attr + 1,
                link.from.guid,
            )
        }
        _ => Ok(()),
    }
}

/// Adds what links from an object show there, link by link.
fn push_all_forward(
    rows: &Rows,
    ends: &mut Vec<(u16, Guid)>,
    links: &[&Held],
) -> Result<(), NoMemory>
    ensures { OnOk result (ends.new.items ≡ ends.old.items
        ++ flat_map (λ h. forward_end (nodes_held (updates_of rows.now)) h.update.key h.update.said) (referents links.now)) }
{
    for held in links {
        push_forward(rows, ends, held.update())?;
    }
    Ok(())
}

/// Adds what links to an object show there, link by link.
fn push_all_back(rows: &Rows, ends: &mut Vec<(u16, Guid)>, links: &[&Held]) -> Result<(), NoMemory>
    requires { IsTrue (have_back_links (updates_of (referents links.now))) }
    ensures { OnOk result (ends.new.items ≡ ends.old.items
        ++ flat_map (λ h. back_end (nodes_held (updates_of rows.now)) h.update.key h.update.said) (referents links.now)) }
{
    for held in links {
        push_back(rows, ends, held.update())?;
    }
    Ok(())
}

/// The attributes of ends, rising.
fn attributes_of(alloc: Global, ends: &[(u16, Guid)]) -> Result<BTreeSet<u16>, NoMemory>
    ensures { IfOk result (λ attributes.
        attributes.keys ≡ fold (insert_key nat_cmp) [] (map (λ (e : ℕ × Identifier). e.0) ends.now)) }
{
    let mut attributes = BTreeSet::new(alloc);
    for (attr, _) in ends {
        attributes.insert(*attr)?;
    }
    Ok(attributes)
}

/// A set of GUIDs as a list.
fn listed(alloc: Global, guids: BTreeSet<Guid>) -> Result<Guids, NoMemory>
    ensures { IfOk result (λ list. list ≡ guids.keys) }
{
    let mut list = Vec::new(alloc);
    for guid in guids {
        list.push(guid)?;
    }
    Ok(Guids::of(list))
}

/// The GUIDs of the ends under an attribute, rising.
fn guids_at(alloc: Global, ends: &[(u16, Guid)], attr: u16) -> Result<Guids, NoMemory>
    ensures { IfOk result (λ guids.
        guids ≡ fold (insert_key identifier_order) [] (filter_map (of_attribute attr) ends.now)) }
{
    let mut guids = BTreeSet::new(alloc);
    for (own, guid) in ends {
        if *own == attr {
            guids.insert(*guid)?;
        }
    }
    listed(alloc, guids)
}

/// Ends, gathered by attribute; the attributes and the GUIDs rise.
fn gathered(alloc: Global, ends: &[(u16, Guid)]) -> Result<EntryLinks, NoMemory>
    ensures { IfOk result (λ links. links ≡ gathered ends.now) }
{
    let mut list = Vec::new(alloc);
    for attr in attributes_of(alloc, ends)? {
        list.push((attr, guids_at(alloc, ends, attr)?))?;
    }
    Ok(EntryLinks::of(list))
}

/// The link attributes of a live object, forward and back, with the GUIDs at their other ends.
pub fn links_at(alloc: Global, rows: &Rows, object: &Oid) -> Result<EntryLinks, NoMemory>
    requires links { IsTrue (have_back_links (updates_of rows.now)) }
    requires named { AreNamed (updates_of rows.now) }
    requires live { is_live (nodes_held (updates_of rows.now)) object.now ≡ true }
    ensures { IfOk result (λ links. links ≡ links_at (live_rows (updates_of rows.now)) object.now) }
{
    rows.are_rising();
    let mut ends = Vec::new(alloc);
    push_all_forward(rows, &mut ends, rows.links_from(alloc, object)?.as_slice())?;
    push_all_back(rows, &mut ends, rows.links_to(alloc, object)?.as_slice())?;
    gathered(alloc, ends.as_slice())
}
