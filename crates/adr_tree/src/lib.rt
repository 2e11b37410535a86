//! The live objects of a controller as a tree that is kept: who is live, where each is placed, who breaks a loop of
//! parents, and who has which name.
//!
//! It stands on the laws in `adr_law_tree` and on the nodes in `adr_update`. It knows nothing of rows: whoever changes
//! rows says what becomes of the live objects.
#![tactic(auto)]

mod breakers;
mod change;
mod edit;
mod hints;
mod names;
mod slots;
mod tree;
mod walks;

pub use adr_update::Node;
pub use adr_values::NoMemory;
pub use edit::Edit;
pub use tree::Tree;
