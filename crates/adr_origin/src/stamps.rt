//! The live object of a GUID, the rows that are written once more, with their stamps, and the change of a write.

ghost use Rattle.std.specs.Prelude.{◌≡◌, ◌≢◌, ◌+◌, ◌<◌, ◌≤◌, ◌∷◌, [], IfOk, length};
ghost use Rattle.std.specs.Option.{option_copied, option_map_or};
ghost use Rattle.adr_model.specs.Store.{row_held, updates_of};
ghost use Rattle.adr_model.specs.Update.{RowOf};
ghost use Rattle.adr_model.specs.Write.{class_of, first_created, first_stamp, new_object, next_row, next_stamp, nodes_held, object_of, of_object, own_change, usn_limit, version_limit, version_of};
ghost use Rattle.adr_update.specs.Key.{key_of};

use crate::NoMemory;
use crate::new_object::row;
use adr_state::{Change, Held, Item, Key, Mode, State, Update, Written};
use adr_update::root;
use adr_values::{Birth, Content, Guid, LinkStamp, Oid, Stamp, Times, Unit, Vector};
use std::alloc::Global;

/// The live object of a GUID. A write of a GUID that has none is refused.
pub fn object_of(state: &State, guid: Guid) -> Oid
    ensures { result ≡ object_of (nodes_held (updates_of state.now.store.rows)) guid }
{
    match state.rows().node(guid) {
        Some(node) => node.object(),
        None => Oid {
            guid,
            birth: Birth {
                inv: root(),
                usn: 0,
            },
        },
    }
}

/// The class of a live object, or 0 where there is none.
pub fn class_of(state: &State, guid: Guid) -> u16
    ensures { result ≡ class_of (nodes_held (updates_of state.now.store.rows)) guid }
{
    match state.rows().node(guid) {
        Some(node) => node.class(),
        None => 0,
    }
}

/// The object that the next write makes under a GUID.
pub fn next_object(state: &State, guid: Guid) -> Oid
    requires { state.now.store.usn ≤ usn_limit }
    ensures { result ≡ new_object state.now guid }
{
    let birth = Birth {
        inv: state.inv(),
        usn: state.usn() + 1,
    };
    Oid { guid, birth }
}

/// The stamp of the rows of an object that the next write makes.
pub fn first_stamp(state: &State, now: u64) -> LinkStamp
    requires { state.now.store.usn ≤ usn_limit }
    ensures { result ≡ first_stamp state.now now }
{
    LinkStamp {
        created: 0,
        stamp: Stamp::first(now, state.inv(), state.usn() + 1),
    }
}

/// The version of a row, or 0 where none is held.
pub fn version_of(held: Option<&Held>) -> u32
    ensures { result ≡ version_of (option_copied held.entry) }
{
    match held {
        Some(held) => held.update().stamp().stamp.version,
        None => 0,
    }
}

/// When a link was first made that has no row yet; the moment of creation of an object's row is 0.
fn first_created(key: &Key, now: u64) -> u64
    ensures { result ≡ first_created (key_of key.now) now }
{
    match key {
        Key::Row { .. } => 0,
        Key::Link(_) => now,
    }
}

/// The moment of creation of the row of a key, which a further write keeps.
fn created(held: Option<&Held>, key: &Key, now: u64) -> u64
    ensures { result
        ≡ option_map_or (λ h. h.update.stamp.created) (option_copied held.entry) (first_created (key_of key.now) now) }
{
    match held {
        Some(held) => held.update().stamp().created,
        None => first_created(key, now),
    }
}

/// The stamp of the next write of a row: one version more than that of the held one.
pub fn stamp_after(state: &State, key: &Key, held: Option<&Held>, now: u64) -> LinkStamp
    requires usn { state.now.store.usn < usn_limit }
    requires held { option_copied held ≡ row_held state.now.store.rows (key_of key.now) }
    requires version { version_of (option_copied held) ≢ version_limit }
    ensures { result ≡ next_stamp state.now (key_of key.now) now }
{
    LinkStamp {
        created: created(held, key, now),
        stamp: Stamp {
            version: version_of(held) + 1,
            time: now,
            inv: state.inv(),
            usn: state.usn() + 1,
        },
    }
}

/// A row of an object, one version on.
pub fn next_row(state: &State, object: &Oid, attr: u16, content: Content, now: u64) -> Update
    requires usn { state.now.store.usn < usn_limit }
    requires version { version_of (row_held state.now.store.rows (RowOf object.now attr)) ≢ version_limit }
    ensures { result ≡ next_row state.now now object.now attr content }
{
    let key = Key::Row {
        object: *object,
        attr,
    };
    let held = state.rows().row(key);
    let stamp = stamp_after(state, &key, held, now);
    row(object, &stamp, attr, content)
}

/// An object with one row, one version on, under the next update sequence number.
pub fn next_item(
    alloc: Global,
    state: &State,
    object: &Oid,
    attr: u16,
    content: Content,
    now: u64,
) -> Result<Item, NoMemory>
    requires usn { state.now.store.usn < usn_limit }
    requires version { version_of (row_held state.now.store.rows (RowOf object.now attr)) ≢ version_limit }
    ensures { IfOk result (λ item.
        item ≡ of_object object.now (next_row state.now now object.now attr content ∷ [])) }
{
    let mut rows = Vec::new(alloc);
    rows.push(next_row(state, object, attr, content, now))?;
    Ok(Item::new(Unit::Object(*object), rows))
}

/// The change of a write: its items, each under an update sequence number of its own, from the next one on.
pub fn change_of(alloc: Global, state: &State, writes: Vec<Written>) -> Change
    requires { state.now.store.usn + length writes.items ≤ usn_limit }
    ensures { result ≡ own_change state.now writes.items }
{
    let usn = state.usn() + writes.len() as u64;
    Change::new(
        usn,
        Mode::Normal,
        state.schema(),
        None,
        Vector::new(alloc),
        Times::new(alloc),
        Vector::new(alloc),
        Vec::new(alloc),
        writes,
    )
}

/// The change of a write of one item under the next update sequence number.
pub fn own_change(alloc: Global, state: &State, item: Item) -> Result<Change, NoMemory>
    requires { state.now.store.usn < usn_limit }
    ensures { IfOk result (λ change.
        change ≡ own_change state.now (record { local = state.now.store.usn + 1; item = item } ∷ [])) }
{
    let mut writes = Vec::new(alloc);
    writes.push(Written::new(state.usn() + 1, item))?;
    Ok(change_of(alloc, state, writes))
}
