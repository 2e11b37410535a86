//! What the definitions of knowledge and of the directory imply, for every list of updates: what a
//! store has taken stays taken along every step that loses nothing, and what it holds shows what is
//! visible to it.
//!
//! Stands on the definitions of `adr_model`. Its functions have no code: each contract is a law. It
//! knows no kind of step, so no reply, no write and no collection, and nothing of logs or of a
//! world of controllers.
#![tactic(auto)]

mod knowledge;
mod members;
mod orders;
mod shown;
mod vectors;

pub use knowledge::{
    absent_objects_were_collected, carried_knowledge_carries_over, deaths_stand_for_updates,
    growth_keeps_what_was_taken, standing_updates_are_held,
};
pub use members::{lists_have_members, rising_lists_are_sets};
pub use orders::{keys_are_ordered, stamps_decide, tests_are_exact};
pub use shown::{
    equal_coverage_shows_equal_directories, views_agree, visible_updates_are_in_view,
    what_is_held_shows_what_is_visible, winners_are_greatest,
};
pub use vectors::{vectors_are_compared, vectors_grow};
