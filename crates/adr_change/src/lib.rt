//! What one commit changes, with the mode behind it and what is kept of a partner from then on; and which updates and
//! births a vector covers.
//!
//! It stands on updates and on the vectors, and meets the definitions in `adr_model`. It knows nothing of the state that
//! a change is made to, nor of how one is made, sent or written.
#![tactic(auto)]

mod change;
mod covering;
mod partner_mark;

pub use adr_update::NoMemory;
pub use change::{Change, Mode};
pub use covering::{covers_birth, covers_update};
pub use partner_mark::{PartnerMark, no_mark};
