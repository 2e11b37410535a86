//! Originating writes: what a client's write makes of a controller, or why it is refused; and changing over to schema 2.
//!
//! It stands on the definitions in `adr_model` and meets them, on a controller's state, on its live objects, and on the
//! schema. Its tests, and what it makes rows of, serve other writes too. It knows nothing of the disk, of messages, or of
//! how a change is committed.
#![tactic(auto)]

mod adding;
mod checks;
mod deleting;
mod linking;
mod modifying;
mod new_object;
mod placing;
mod renaming;
mod stamps;
mod upgrading;

pub use adding::add;
pub use adr_call::{Failure, UpgradeRefusal, WriteRefusal};
pub use adr_state::{Change, State};
pub use adr_update::NoMemory;
pub use adr_values::{Assignments, Text};
pub use checks::{check_cursors, check_mode, check_not_fixed, check_objects, check_schema};
pub use deleting::delete;
pub use linking::{LinkEnds, link, unlink};
pub use modifying::modify;
pub use new_object::{NewObject, name_content, row};
pub use placing::{check_name_free, check_parent, check_superior};
pub use renaming::rename;
pub use stamps::{change_of, class_of, first_stamp, next_object};
pub use upgrading::upgrade;
