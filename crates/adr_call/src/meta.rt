//! What a controller tells of the rows of a GUID (after MS-ADTS, msDS-ReplAttributeMetaData).

ghost use Rattle.std.specs.Prelude.{◌≡◌};

use adr_values::{Birth, Stamp, Text};
use std::marker::Model;

/// How an object is held.
#[derive(Clone, Copy)]
pub enum Life {
    /// It is shown.
    Live,
    /// It is not dead, but another object of its GUID is live.
    Hidden,
    /// It is a tombstone.
    Dead,
}

/// One line of what is told.
#[derive(Drop)]
pub enum MetaLine {
    /// An object, with the name that it shows, or of one that is not shown its text or the name of a tombstone.
    Object {
        birth: Birth,
        life: Life,
        name: Text,
    },
    /// A row of the object above: the stamp of the write that made it, and the USN under which it was written here.
    Row {
        attr: u16,
        stamp: Stamp,
        local: u64,
    },
}

/// What is told of the rows of a GUID. The objects rise by birth, and the rows of each, behind its line, by attribute.
#[derive(Drop)]
pub struct MetaLines {
    list: Vec<MetaLine>,
}

impl Model for MetaLines {
    ghost use Rattle.std.specs.Prelude.{List};
    ghost use Rattle.adr_call.specs.declared.meta.MetaLine.{MetaLine};

    ghost Value = { List MetaLine };

    ghost view = { λ m. m.list.items };
}

impl MetaLines {
    pub fn of(items: Vec<MetaLine>) -> MetaLines
        ensures { result ≡ items.items }
    {
        MetaLines { list: items }
    }

    pub fn items(&self) -> &[MetaLine]
        ensures { result.now ≡ self.now }
    {
        self.list.as_slice()
    }
}
