//! Every change that a call makes of a state of a log can be recorded there, whatever was taken before, and the messages
//! of such states are in the ranges of their forms.
//!
//! A journal asks of each change that it can follow its state and that its body is in range; the laws here say so of
//! every call, and ask of a write only what its types say, and of a reply only what its form says. They ask nothing of
//! soundness. It stands on the ranges of `adr_image`, on the states of a log in `adr_records` and on the laws of
//! `adr_law_calls`. Its functions have no code: each contract is a law, stated in `specs/Laws`.
#![tactic(auto)]

mod begun;
mod called;
mod sent;

pub use begun::{
    adopted_states_are_logged, logged_states_fit, new_controllers_may_begin,
    recorded_changes_leave_logged_states,
};
pub use called::{
    collections_are_recorded, quarantines_are_recorded, taken_replies_are_recorded,
    upgrades_are_recorded, writes_are_recorded,
};
pub use sent::{replies_are_in_range, requests_are_in_range};
