//! Updates, one by one: their keys, what they say, rows as they are held, items as they are sent and written, the node
//! of a live object, and the places that are always there.
//!
//! It stands on the definitions in `adr_model` and meets them, and on the types of stamps and contents. It knows nothing
//! of the rows of a controller together.
#![tactic(auto)]

mod fixed;
mod held;
mod item;
mod key;
mod limits;
mod node;
mod update;

pub use adr_values::{Content, LinkKey, LinkStamp, NoMemory, Oid, Text, Unit};
pub use fixed::{is_fixed, is_lost_and_found, is_lost_name, is_root, lost_and_found, root};
pub use held::Held;
pub use item::{Item, Written};
pub use key::{Key, is_same, is_same_object};
pub use limits::{
    CLASS, DELETED, LINK_LIMIT, LOG_LIMIT, MARK_LIMIT, NAME, OBJECT_LIMIT, USN_LIMIT, VERSION_LIMIT,
};
pub use node::Node;
pub use update::{Said, Update, carries_birth};
