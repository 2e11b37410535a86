//! Searches: which entries of a directory are in a scope and meet a filter.
//!
//! A filter is read once, each name by the newest schema and each value by the syntax of its attribute, and then held
//! against entries. It is true, false or undefined of one. This crate stands on directories, filters and the tokens of
//! lines, and knows nothing of rows, controllers or lines.
#![tactic(auto)]

mod asked;
mod fields;
mod laws;
mod line;
mod meeting;
mod pieces;
mod plan;
mod readers;
mod refusal;
mod searching;
mod truth;
mod ways;

pub use asked::{Asked, BytesTest, NumberTest, Pattern, Test, test_of};
pub use fields::{Field, Form, Place, class_text, field_named};
pub use laws::{further_steps_meet_nothing, scopes_go_by_parents};
pub use line::{Asking, read_asking, scope_of, word_of};
pub use meeting::judged;
pub use pieces::is_like;
pub use plan::{Plan, held_against, read_filter};
pub use readers::{flag_of, guid_of, signed_of};
pub use refusal::{NoBase, SearchRefusal};
pub use searching::{search, search_by_text};
pub use truth::Truth;
