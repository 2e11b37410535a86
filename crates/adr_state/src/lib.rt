//! A controller's state in memory: its rows and the live objects that they make, what it has seen and collected, and how
//! far it has read each partner, what a change makes of them, how long it is as bytes, and where its log stands on a disk.
//!
//! What a change makes of the live objects is told for each GUID that it touches, by the rows of those GUIDs alone
//! (`edits.rt`). It stands on the table of rows, on the tree of live objects and on the vectors, ties them together, and
//! meets the definitions in `adr_model`. It knows nothing of why a change is made, of messages, or of the disk.
#![tactic(auto)]

mod draft;
mod drafts;
mod edits;
mod lengths;
mod live;
mod marks;
mod node;
mod rows;
mod state;

pub use adr_change::{Change, Mode, PartnerMark, covers_birth, covers_update};
pub use adr_checks::Schema;
pub use adr_table::Walk;
pub use adr_update::{
    CLASS, DELETED, Held, Item, Key, LINK_LIMIT, LOG_LIMIT, MARK_LIMIT, NAME, Node, OBJECT_LIMIT,
    Said, USN_LIMIT, Update, VERSION_LIMIT, Written, is_same, is_same_object,
};
pub use adr_values::{
    CURSOR_LIMIT, Content, Failure, Full, LinkKey, LinkStamp, Mark, NoMemory, Oid, Times, Unit,
    Vector,
};
pub use lengths::{AREA_FRAME, AREA_FRONT, FIRST_AREA, LENGTH_LIMIT, Log, item_length_within};
pub use marks::Marks;
pub use rows::Rows;
pub use state::State;
