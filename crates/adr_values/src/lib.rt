//! The words that all crates speak: GUIDs, stamps and the names of objects and links, what rows contain and what a schema
//! allows of it, up-to-dateness vectors and high watermarks.
//!
//! A vector keeps, for each incarnation of a controller's database, up to which of its writes everything has been seen. A
//! mark keeps how far one has read the changes of one partner. The tables of the schemas in code, and the checks, are in
//! `adr_checks`.
//!
//! Stands on `uuid` for the text of GUIDs, on `caseless` for folded names and on `thiserror`. Knows nothing of rows that
//! are held, of updates that are counted, or of controllers.
#![tactic(auto)]

mod assignments;
mod content;
mod failure;
mod folding;
mod guid;
mod laws;
mod mark;
mod merging;
mod refusal;
mod searching;
mod stamp;
mod table;
mod text;
mod times;
mod vector;
mod walking;

pub use assignments::{Assignments, Repeated};
pub use content::{Content, Value, Values};
pub use failure::{Failure, NoMemory};
pub use folding::fold_name;
pub use guid::Guid;
pub use laws::{
    names_are_told_apart, refusals_are_exact, schemas_are_orderly, schemas_grow,
    written_values_may_be_held,
};
pub use mark::Mark;
pub use refusal::SchemaRefusal;
pub use stamp::{Birth, LinkKey, LinkStamp, Oid, Stamp, Unit, orders_are_total, orders_tell_apart};
pub use table::{Kind, Syntax};
pub use text::{Octets, Text};
pub use times::Times;
pub use vector::{CURSOR_LIMIT, Full, Vector, seen_by_both, vectors_are_their_numbers};
pub use walking::Walk;
