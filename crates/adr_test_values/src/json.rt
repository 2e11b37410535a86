//! A directory as JSON, byte for byte.

use adr_call::{Directory, Entry, EntryLinks, EntryValues};
use adr_json::json;
use adr_values::{Guid, Text};
use std::alloc::Global;
use std::test::Fail;

/// A container under the root.
fn container(alloc: Global) -> Result<Entry, Fail> {
    Ok(Entry {
        guid: Guid::from_u128(0x10),
        class: 4,
        parent: Guid::from_u128(1),
        name: Text::from_str(alloc, "x\n")?,
        values: EntryValues::of(Vec::new(alloc)),
        links: EntryLinks::of(Vec::new(alloc)),
    })
}

#[test]
fn a_directory_as_json(rt: HostRuntime) -> Result<(), Fail> {
    let none = Directory::of(Vec::new(rt.alloc()));
    assert_eq!(rt; json(rt.alloc(), &none)?.as_slice(), b"[]".as_slice());
    let mut entries = Vec::new(rt.alloc());
    entries.push(container(rt.alloc())?)?;
    let want =
        b"[{\"class\":\"container\",\"guid\":\"00000000-0000-0000-0000-000000000010\",\"links\":{},\"name\":\"x\\n\",\"parent\":\"00000000-0000-0000-0000-000000000001\",\"values\":{}}]";
    assert_eq!(rt;
        json(rt.alloc(), &Directory::of(entries))?.as_slice(),
        want.as_slice()
    );
    Ok(())
}
