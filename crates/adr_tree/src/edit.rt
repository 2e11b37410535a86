//! Edits of live objects.

use adr_update::Node;
use adr_values::Guid;

/// What becomes of the live object of a GUID. Once an edit is made, it keeps what was there before.
pub struct Edit {
    pub guid: Guid,
    pub node: Option<Node>,
}

impl Drop for Edit {
    fn drop(self) {
        let Edit {
            guid: _,
            node: _node,
        } = self;
    }
}
