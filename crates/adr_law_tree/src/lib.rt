//! Laws of the live tree, for whoever keeps it beside the rows: the live objects of a GUID come from the rows of that GUID,
//! who breaks a loop changes by one where one object comes or goes, and names and children are found by look-ups.
//!
//! It stands on the definitions in `adr_model`. Its functions have no code: each contract is a law.
#![tactic(auto)]

mod laws;

pub use laws::{
    live_objects_are_in_order, loops_change_by_one, names_are_looked_up, one_guid_decides,
    sets_are_kept, walks_are_needed_seldom, walks_find_who_breaks,
};
