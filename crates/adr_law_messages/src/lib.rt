//! The messages of the states of a log have the forms in which they are sent, and a reply that was read is one that may
//! be taken.
//!
//! It stands on the forms of `adr_packet` and on the ranges of `adr_law_recorded`. Its functions have no code: each
//! contract is a law, stated in `specs/Messages`.
#![tactic(auto)]

mod laws;

pub use laws::{
    asked_requests_have_a_form, replies_of_a_form_are_in_range, served_replies_have_a_form,
};
