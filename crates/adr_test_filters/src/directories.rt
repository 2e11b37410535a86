//! Directories to be searched.

ghost use Rattle.std.specs.Prelude.{◌≡◌, ◌+◌, ◌<◌, [], length, map, slice_index_or, true};
ghost use Rattle.std.specs.Ordering.{is_lt};
ghost use Rattle.adr_values.specs.Order.{identifier_order};
ghost use Rattle.adr_search.specs.Scopes.{AreRising};

use adr_call::{Entry, EntryLinks, EntryValues};
use adr_values::{Guid, NoMemory, Text};
use std::alloc::Global;

/// An entry without values, named by a letter.
pub fn unit(alloc: Global, guid: u128, parent: u128) -> Result<Entry, NoMemory> {
    Ok(Entry {
        guid: Guid::from_u128(guid),
        class: 3,
        parent: Guid::from_u128(parent),
        name: Text::from_str(alloc, "u")?,
        values: EntryValues::of(Vec::new(alloc)),
        links: EntryLinks::of(Vec::new(alloc)),
    })
}

/// Units, each under the next, and the last one under a parent.
pub fn chain(alloc: Global, first: u32, last: u32, parent: u128) -> Result<Vec<Entry>, NoMemory> {
    let mut entries = Vec::new(alloc);
    for guid in first..last {
        entries.push(unit(alloc, u128::from(guid), u128::from(guid) + 1)?)?;
    }
    entries.push(unit(alloc, u128::from(last), parent)?)?;
    Ok(entries)
}

fn rises_at(entries: &[Entry], place: usize) -> bool
    requires { place + 1 < length entries.now }
    ensures { result ≡ is_lt (identifier_order (slice_index_or (map (λ e. e.guid) entries.now) place []) (slice_index_or (map (λ e. e.guid) entries.now) (place + 1) [])) }
{
    entries[place].guid.cmp(&entries[place + 1].guid).is_lt()
}

/// Whether entries rise by their GUIDs.
pub fn is_rising(entries: &[Entry]) -> bool
    ensures { result ≡ true → AreRising entries.now }
{
    for place in 1..entries.len() {
        if !rises_at(entries, place - 1) {
            return false;
        }
    }
    true
}
