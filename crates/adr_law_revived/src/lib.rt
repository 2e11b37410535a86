//! What a revival makes of the directory.
//!
//! It stands on the definitions in `adr_model`, on what a revival writes (`adr_law_calls`) and on the live tree
//! (`adr_law_tree`). Its functions have no code: each contract is a law.
#![tactic(auto)]

mod laws;

pub use laws::{one_object_comes, revival_keeps_the_rest};
