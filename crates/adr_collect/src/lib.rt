//! Collecting tombstones: which dead objects go, and the change that this makes.
//!
//! It stands on the definitions in `adr_model` and meets them, on a controller's state, and on the vector of what the
//! controller has seen. It knows nothing of the disk, or of how a change is made.
#![tactic(auto)]

mod collecting;
mod deaths;

pub use adr_call::{CollectRefusal, Failure};
pub use adr_state::{Change, NoMemory, State};
pub use collecting::collect;
