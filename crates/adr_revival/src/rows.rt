//! The rows that a revival writes.

ghost use Rattle.std.specs.Prelude.{◌≡◌, ◌+◌, ◌≤◌, ◌++◌, IfOk, OnOk, length};
ghost use Rattle.adr_model.specs.Write.{link_row, new_links, new_rows, usn_limit};
ghost use Rattle.adr_origin.specs.GivenRows.{given_rows};
ghost use Rattle.adr_revival.specs.Found.{items_of, object_written};

use crate::NoMemory;
use crate::found::Found;
use crate::revival::Revival;
use adr_call::EntryValues;
use adr_origin::{State, first_stamp, name_content, next_object, row};
use adr_state::{CLASS, Item, Key, NAME, Said, Update, Written};
use adr_values::{Content, LinkKey, LinkStamp, Oid, Stamp, Unit};
use adr_view::Shown;
use std::alloc::Global;

/// Adds the rows of the attributes that have values, rising.
fn push_values(
    alloc: Global,
    rows: &mut Vec<Update>,
    object: &Oid,
    stamp: &LinkStamp,
    values: &EntryValues,
) -> Result<(), NoMemory>
    ensures { OnOk result (rows.new.items ≡ rows.old.items ++ given_rows object.now stamp.now values.now) }
{
    for (attr, list) in values.items() {
        let content = Content::Values(list.copy(alloc)?);
        rows.push(row(object, stamp, *attr, content))?;
    }
    Ok(())
}

/// The rows of the object: its class, its name and each attribute that has values, all with one stamp.
fn rows_of(
    alloc: Global,
    object: &Oid,
    stamp: &LinkStamp,
    revival: &Revival<'_>,
    shown: &Shown,
) -> Result<Vec<Update>, NoMemory>
    ensures { IfOk result (λ rows. rows.items
        ≡ new_rows object.now stamp.now shown.now.class revival.now.parent revival.now.text.now shown.now.values) }
{
    let name = name_content(alloc, revival.text, revival.parent)?;
    let class = Content::Class(shown.class);
    let mut rows = vec![in alloc;
        row(object, stamp, CLASS, class),
        row(object, stamp, NAME, name),
    ]?;
    push_values(alloc, &mut rows, object, stamp, &shown.values)?;
    Ok(rows)
}

/// The object with its rows, under the next update sequence number.
fn object_written(
    alloc: Global,
    state: &State,
    revival: &Revival<'_>,
    shown: &Shown,
    now: u64,
) -> Result<Written, NoMemory>
    requires { state.now.store.usn ≤ usn_limit }
    ensures { IfOk result (λ written. written ≡ object_written state.now revival.now.guid revival.now.parent revival.now.text.now shown.now now) }
{
    let object = next_object(state, revival.guid);
    let stamp = first_stamp(state, now);
    let rows = rows_of(alloc, &object, &stamp, revival, shown)?;
    Ok(Written::new(state.usn() + 1, Item::new(Unit::Object(object), rows)))
}

/// A link row that is written for the first time, under a number of its own.
fn link_written(
    alloc: Global,
    state: &State,
    link: &LinkKey,
    usn: u64,
    now: u64,
) -> Result<Written, NoMemory>
    ensures { IfOk result (λ written. written ≡ link_row state.now now usn link.now) }
{
    let stamp = LinkStamp {
        created: now,
        stamp: Stamp::first(now, state.inv(), usn),
    };
    let mut rows = Vec::new(alloc);
    rows.push(Update::new(Key::Link(*link), stamp, Said::IsPresent(true)))?;
    Ok(Written::new(usn, Item::new(Unit::Link(*link), rows)))
}

/// Adds the links that come with the object, the first under a number, and each other one under the next.
fn push_links(
    alloc: Global,
    state: &State,
    links: &[LinkKey],
    first: u64,
    now: u64,
    writes: &mut Vec<Written>,
) -> Result<(), NoMemory>
    requires { first + length links.now ≤ usn_limit + 1 }
    ensures { OnOk result (writes.new.items ≡ writes.old.items ++ new_links state.now now first links.now) }
{
    let mut usn = first;
    for link in links {
        writes.push(link_written(alloc, state, link, usn, now)?)?;
        usn += 1;
    }
    Ok(())
}

/// All that a revival writes: the object, and behind it its links.
pub fn items_of(
    alloc: Global,
    state: &State,
    revival: &Revival<'_>,
    found: &Found,
    now: u64,
) -> Result<Vec<Written>, NoMemory>
    requires { state.now.store.usn + 1 + length found.now.links.items ≤ usn_limit }
    ensures { IfOk result (λ writes. writes.items
        ≡ items_of state.now revival.now.guid revival.now.parent revival.now.text.now found.now.shown found.now.links.items now) }
{
    let mut writes = Vec::new(alloc);
    writes.push(object_written(alloc, state, revival, &found.shown, now)?)?;
    let links = found.links.as_slice();
    push_links(alloc, state, links, state.usn() + 2, now, &mut writes)?;
    Ok(writes)
}
