//! The law of quarantine: a controller whose database was put back without a fresh identifier is found
//! out by the first one that asks it, or answers it, and has seen more of its incarnation than it has
//! itself. Then it is shut off until it is restored, or put back again.
//!
//! Stands on the definitions of `adr_model` and on the laws of refusals in `adr_law_knowledge`. Its
//! functions have no code: each contract is a law.
#![tactic(auto)]

mod found;
mod shut_off;

pub use found::{
    rollbacks_are_found_by_serving, rollbacks_are_found_by_taking, serving_shuts_off,
    taking_shuts_off,
};
pub use shut_off::{quarantine_holds, quarantined_controllers_are_shut_off};
