//! What is told of a controller's rows with others over them: what stands of an object or a link, which rows may be
//! written over it, and what is wrong with one.
//!
//! It stands on the table of rows, on the schemas and the words of refusals (`faults.rt`), and on vectors (`presence.rt`),
//! of which it also tells how many cursors one comes to have (`cursors.rt`). It meets the definitions in `adr_model`. No
//! row of the controller is copied. It knows nothing of replies, of records, or of how a change is made.
#![tactic(auto)]

mod cursors;
mod faults;
mod keys;
mod overlay;
mod presence;
mod standing;

pub use adr_update::NoMemory;
pub use cursors::len_after;
pub use faults::{first_fault, is_birth, lacks};
pub use keys::{class_among, class_said, has_row, is_of_attr, is_reserved};
pub use overlay::Overlay;
pub use presence::{Presence, is_above};
pub use standing::{Standing, new_object, standing_of};
