//! Tests of filters and of searches: what reads back, where a text that is no filter is refused, and what filters find in
//! small directories, by the definitions.
#![tactic(auto)]

mod directories;
#[cfg(test)]
mod found;
mod searches;
#[cfg(test)]
mod tests;

pub use directories::{chain, is_rising, unit};
pub use searches::{
    answered_searches, found_by_scope, found_by_tests, lines_of_searches, refused_searches,
    small_searches,
};
