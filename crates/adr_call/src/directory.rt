//! What a controller shows.

ghost use Rattle.std.specs.Prelude.{◌≡◌};

use adr_values::{Guid, Text, Values};
use std::marker::Model;

/// GUIDs of objects. In an entry they rise.
#[derive(Drop)]
pub struct Guids {
    list: Vec<Guid>,
}

impl Model for Guids {
    ghost use Rattle.std.specs.Prelude.{List, ℕ};

    ghost Value = { List (List ℕ) };

    ghost view = { λ g. g.list.items };
}

impl Guids {
    pub fn of(items: Vec<Guid>) -> Guids
        ensures { result ≡ items.items }
    {
        Guids { list: items }
    }

    pub fn items(&self) -> &[Guid]
        ensures { result.now ≡ self.now }
    {
        self.list.as_slice()
    }
}

/// Attributes with their values. In an entry the attributes rise and each has a value.
pub struct EntryValues {
    list: Vec<(u16, Values)>,
}

impl Drop for EntryValues {
    fn drop(self) {
        let EntryValues { list: _list } = self;
    }
}

impl Model for EntryValues {
    ghost use Rattle.std.specs.Prelude.{List, ℕ};
    ghost use Rattle.adr_values.specs.declared.content.Value.{Value as Item};

    ghost Value = { List (ℕ × List Item) };

    ghost view = { λ v. v.list.items };
}

impl EntryValues {
    pub fn of(items: Vec<(u16, Values)>) -> EntryValues
        ensures { result ≡ items.items }
    {
        EntryValues { list: items }
    }

    pub fn items(&self) -> &[(u16, Values)]
        ensures { result.now ≡ self.now }
    {
        self.list.as_slice()
    }
}

/// Link attributes, forward and back, with the GUIDs at their other ends. In an entry both rise.
pub struct EntryLinks {
    list: Vec<(u16, Guids)>,
}

impl Drop for EntryLinks {
    fn drop(self) {
        let EntryLinks { list: _list } = self;
    }
}

impl Model for EntryLinks {
    ghost use Rattle.std.specs.Prelude.{List, ℕ};

    ghost Value = { List (ℕ × List (List ℕ)) };

    ghost view = { λ v. v.list.items };
}

impl EntryLinks {
    pub fn of(items: Vec<(u16, Guids)>) -> EntryLinks
        ensures { result ≡ items.items }
    {
        EntryLinks { list: items }
    }

    pub fn items(&self) -> &[(u16, Guids)]
        ensures { result.now ≡ self.now }
    {
        self.list.as_slice()
    }
}

/// A live object as it is shown: under its parent, by its shown name.
pub struct Entry {
    pub guid: Guid,
    pub class: u16,
    pub parent: Guid,
    pub name: Text,
    pub values: EntryValues,
    pub links: EntryLinks,
}

impl Drop for Entry {
    fn drop(self) {
        let Entry {
            guid: _,
            class: _,
            parent: _,
            name: _name,
            values: _values,
            links: _links,
        } = self;
    }
}

/// The entries that a controller shows, rising by GUID.
#[derive(Drop)]
pub struct Directory {
    list: Vec<Entry>,
}

impl Model for Directory {
    ghost use Rattle.std.specs.Prelude.{List};
    ghost use Rattle.adr_call.specs.declared.directory.Entry.{Entry};

    ghost Value = { List Entry };

    ghost view = { λ d. d.list.items };
}

impl Directory {
    pub fn of(entries: Vec<Entry>) -> Directory
        ensures { result ≡ entries.items }
    {
        Directory { list: entries }
    }

    pub fn entries(&self) -> &[Entry]
        ensures { result.now ≡ self.now }
    {
        self.list.as_slice()
    }
}
