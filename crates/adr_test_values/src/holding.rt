//! A controller, and what the tests have it hold.

use adr_checks::Schema;
use adr_state::{Change, Item, Key, Mode, NoMemory, Said, State, Update, Written};
use adr_values::{Birth, Content, Guid, LinkStamp, Oid, Stamp, Text, Times, Unit, Vector};
use std::alloc::Global;
use std::process::Abort;

pub fn id(number: u128) -> Guid {
    Guid::from_u128(number)
}

pub fn text(alloc: Global, text: &str) -> Result<Text, NoMemory> {
    Text::from_str(alloc, text)
}

pub fn list<T: Drop, const N: usize>(alloc: Global, items: [T; N]) -> Result<Vec<T>, NoMemory> {
    Ok(Vec::from_array(alloc, items)?)
}

/// A new controller, whose invocation identifier has this number.
pub fn controller(alloc: Global, inv: u128) -> State {
    State::first(alloc, id(3), id(inv))
}

/// The container that the write of a USN by the controller 4 made: 10 by the first, and so on.
fn container(usn: u64) -> Oid {
    Oid {
        guid: id(9 + u128::from(usn)),
        birth: Birth { inv: id(4), usn },
    }
}

fn row(usn: u64, attr: u16, version: u32, content: Content) -> Update {
    let key = Key::Row {
        object: container(usn),
        attr,
    };
    let stamp = Stamp {
        version,
        ..Stamp::first(50, id(4), usn)
    };
    Update::new(key, LinkStamp { created: 0, stamp }, Said::Holds(content))
}

/// The write of a USN: a container "East" under the root, whose name and description have a version.
pub fn east(
    alloc: Global,
    usn: u64,
    version: u32,
    described: Content,
) -> Result<Written, NoMemory> {
    let described = row(usn, 12, version, described);
    let name = Content::Name {
        text: text(alloc, "East")?,
        parent: id(1),
    };
    let named = row(usn, 2, version, name);
    let class = row(usn, 1, 1, Content::Class(4));
    let rows = list(alloc, [class, named, described])?;
    Ok(Written::new(usn, Item::new(Unit::Object(container(usn)), rows)))
}

/// A change to a USN and a mode of a controller of a schema, by which others are seen and rows are written.
pub fn change(
    alloc: Global,
    usn: u64,
    mode: Mode,
    schema: Schema,
    seen: Vector,
    writes: Vec<Written>,
) -> Change {
    Change::new(
        usn,
        mode,
        schema,
        None,
        seen,
        Times::new(alloc),
        Vector::new(alloc),
        Vec::new(alloc),
        writes,
    )
}

/// The controller 4 with what was written, at a USN and in a mode.
pub fn holding(
    rt: &impl Abort,
    alloc: Global,
    usn: u64,
    mode: Mode,
    writes: Vec<Written>,
) -> State {
    let mut state = controller(alloc, 4);
    let change = change(alloc, usn, mode, state.schema(), Vector::new(alloc), writes);
    state.apply(change).ok().expect(rt, "what was written fits");
    state
}
