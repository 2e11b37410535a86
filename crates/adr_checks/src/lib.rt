//! The schemas as code: their tables, the checks of what a class or a row may contain and where an object may stand,
//! and the names of objects, classes and attributes.
//!
//! Each check answers what the definitions of `adr_values` refuse. Knows nothing of stamps, of rows that are held, or
//! of other controllers.
#![tactic(auto)]

mod names;
mod schema;
mod table;
mod values;

pub use names::{
    attribute_kind, attribute_name, attribute_number, check_name, class_name, class_number,
};
pub use schema::{LOST_AND_FOUND_CLASS, ROOT_CLASS, Schema};
pub use values::is_same_value;
