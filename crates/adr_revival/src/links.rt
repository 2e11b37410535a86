//! The links that come with an object.

ghost use Rattle.std.specs.Prelude.{◌≡◌, IfOk, OnOk, fold, if◌then◌else◌};
ghost use Rattle.std.specs.List.{filter_map};
ghost use Rattle.std.specs.BTreeSet.{insert_key};
ghost use Rattle.adr_values.specs.Order.{link_order};
ghost use Rattle.adr_values.specs.Schemas.{newest};
ghost use Rattle.adr_values.specs.Table.{kind_at};
ghost use Rattle.adr_model.specs.Store.{updates_of};
ghost use Rattle.adr_model.specs.Update.{same_object};
ghost use Rattle.adr_model.specs.Write.{class_of, is_link_of, link_at, link_revived, nodes_held, other_end};
ghost use Rattle.adr_revival.specs.Found.{links_of};

use crate::NoMemory;
use adr_call::Guids;
use adr_checks::attribute_kind;
use adr_origin::{State, class_of};
use adr_state::{Rows, is_same, is_same_object};
use adr_values::{Guid, Kind, LinkKey, Oid};
use adr_view::Shown;
use std::alloc::Global;
use std::collections::BTreeSet;

/// What an attribute holds, in the newest schema: by it links are paired.
fn paired_kind(attr: u16) -> Option<Kind>
    ensures { result ≡ kind_at newest attr }
{
    attribute_kind(attr)
}

/// The object that a link is to have at its other end: the new one itself, or the live one of the GUID.
fn other_end(rows: &Rows, object: &Oid, guid: Guid) -> Option<Oid>
    ensures { result ≡ other_end (nodes_held (updates_of rows.now)) object.now guid }
{
    if is_same(guid, object.guid) {
        return Some(*object);
    }
    match rows.node(guid) {
        Some(node) => Some(node.object()),
        None => None,
    }
}

/// The link of an object under an attribute: a forward one begins at the object, a back one ends there.
fn link_at(kind: Option<Kind>, attr: u16, object: &Oid, other: &Oid) -> Option<LinkKey>
    ensures { result ≡ link_at kind attr object.now other.now }
{
    match kind {
        Some(Kind::Forward { .. }) => Some(LinkKey {
            from: *object,
            attr,
            to: *other,
        }),
        Some(Kind::Back { forward }) => Some(LinkKey {
            from: *other,
            attr: forward,
            to: *object,
        }),
        _ => None,
    }
}

/// The class of an object that is new and of a class, or else live.
fn class_of_end(state: &State, object: &Oid, class: u16, end: &Oid) -> u16
    ensures { result ≡ (if same_object end.now object.now then class else class_of (nodes_held (updates_of state.now.store.rows)) end.now.guid) }
{
    if is_same_object(end, object) {
        class
    } else {
        class_of(state, end.guid)
    }
}

/// Whether the class of a link's first end has its attribute.
fn is_link_of(state: &State, object: &Oid, class: u16, link: &LinkKey) -> bool
    ensures { result ≡ is_link_of state.now object.now class link.now }
{
    let first = class_of_end(state, object, class, &link.from);
    state.schema().check_link(first, link.attr).is_ok()
}

/// The link that comes of one that the image shows under an attribute, with a GUID at its other end.
fn link_revived(state: &State, object: &Oid, class: u16, attr: u16, guid: Guid) -> Option<LinkKey>
    ensures { result ≡ link_revived state.now object.now class attr guid }
{
    let other = other_end(state.rows(), object, guid)?;
    let link = link_at(paired_kind(attr), attr, object, &other)?;
    if is_link_of(state, object, class, &link) {
        Some(link)
    } else {
        None
    }
}

/// Adds the links that come of those under one attribute.
fn insert_links(
    state: &State,
    object: &Oid,
    class: u16,
    attr: u16,
    guids: &Guids,
    links: &mut BTreeSet<LinkKey>,
) -> Result<(), NoMemory>
    ensures { OnOk result (links.new.keys
        ≡ fold (insert_key link_order) links.old.keys (filter_map (link_revived state.now object.now class attr) guids.now)) }
{
    for guid in guids.items() {
        if let Some(link) = link_revived(state, object, class, attr, *guid) {
            links.insert(link)?;
        }
    }
    Ok(())
}

/// A set of links as a list.
fn listed(alloc: Global, links: BTreeSet<LinkKey>) -> Result<Vec<LinkKey>, NoMemory>
    ensures { IfOk result (λ list. list.items ≡ links.keys) }
{
    let mut list = Vec::new(alloc);
    for link in links {
        list.push(link)?;
    }
    Ok(list)
}

/// The links that come with a new object, each once, rising: those of its entry whose other ends are live, or the object
/// itself, as far as the schema lets their first ends have them.
pub fn links_of(
    alloc: Global,
    state: &State,
    object: &Oid,
    shown: &Shown,
) -> Result<Vec<LinkKey>, NoMemory>
    ensures { IfOk result (λ links. links.items ≡ links_of state.now object.now shown.now.class shown.now.links) }
{
    let mut links = BTreeSet::new(alloc);
    for (attr, guids) in shown.links.items() {
        insert_links(state, object, shown.class, *attr, guids, &mut links)?;
    }
    listed(alloc, links)
}
