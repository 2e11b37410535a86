//! The slots of rows, each at its place: a slot is looked up, made, filled, emptied and let go of, and slots are walked
//! from a place on.
//!
//! The slots of an object stand on one shelf, by their attributes, and each link has a shelf of its own. Shelves stand in
//! two ordered maps, one of objects and one of links, in the order of their units. What a contract sees is the list of
//! all slots, in the order of their places, which is that of keys. A slot without a row, and a shelf without slots, cost
//! memory alone.
//!
//! It stands on `adr_update` and on the definitions in `adr_model`. It knows nothing of hints, and keeps no counts: it
//! tells that there are no more class rows than shelves of objects, and no more links than shelves of links, and whether
//! a class row came where none was.
#![tactic(auto)]

mod place;
mod run;
mod shelf;
mod shelves;

pub use adr_update::NoMemory;
pub use place::{Place, seat_at};
pub use run::Run;
pub use shelf::{Slot, is_life};
pub use shelves::Shelves;
