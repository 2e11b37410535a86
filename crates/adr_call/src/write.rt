//! What a client writes.

use adr_values::{Assignments, Guid, Text};

/// What a client has a controller write. A `class` and an `attr` are numbers of the schema's table.
#[derive(Drop)]
pub enum Write {
    /// An object under a parent, with a name and the values of its attributes.
    Add {
        guid: Guid,
        class: u16,
        parent: Guid,
        text: Text,
        values: Assignments,
    },
    /// The values of attributes are replaced.
    Modify {
        guid: Guid,
        values: Assignments,
    },
    /// An object has a name and a parent.
    Rename {
        guid: Guid,
        parent: Guid,
        text: Text,
    },
    /// An object is deleted.
    Delete {
        guid: Guid,
    },
    /// Two objects are linked.
    Link {
        from: Guid,
        attr: u16,
        to: Guid,
    },
    /// A link is removed.
    Unlink {
        from: Guid,
        attr: u16,
        to: Guid,
    },
}
