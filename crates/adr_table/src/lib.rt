//! A table of rows: a row, the rows of an object, the links at an object and the counts are looked up, and writes happen
//! whole or not at all.
//!
//! Rows stand in slots. Those of an object stand on one shelf, in the order of their attributes, and each link has a shelf of
//! its own. Shelves stand in the order of their units, objects before links, so that rows are in the order of their keys.
//!
//! A write first makes room: a slot and hints for each row. Then it can't fail, and writes the rows of an object by one search
//! of the map. A single row, or those of an object of which nothing is held, may also be put at once, without room made before.
//! Slots without a row and hints without one are seen by nobody; they cost memory alone.
//!
//! It stands on `adr_update` and on the definitions in `adr_model`. It knows nothing of schemas, vectors or marks.
#![tactic(auto)]

mod back;
mod deaths;
mod locals;
mod slots;
mod spare;
mod table;
mod walk;
mod write;

pub use adr_update::NoMemory;
pub use spare::Spare;
pub use table::Table;
pub use walk::Walk;
