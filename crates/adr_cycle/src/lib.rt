//! Cycles of replication: what a controller asks a partner, what it answers to a request, and why a reply that comes is
//! refused, or the change that it makes.
//!
//! It stands on the definitions of requests, replies and what is taken in `adr_model` and meets them, and on `adr_state`
//! for what a controller holds. No row of the state is copied where a reply is taken: what comes is told over the rows
//! that are there, by `adr_overlay`. It knows nothing of bytes, of the disk, or of how a change is made.
#![tactic(auto)]

mod asking;
mod candidate;
mod candidates;
mod counting;
mod reply;
mod replying;
mod request;
mod serving;
mod taken_item;
mod taken_reply;
mod taken_rows;
mod taking;

pub use adr_call::{Failure, ServeRefusal, TakeRefusal};
pub use adr_state::{Change, Item, NoMemory, State};
pub use adr_values::{Mark, Vector};
pub use asking::ask;
pub use counting::count;
pub use reply::Reply;
pub use request::Request;
pub use serving::serve;
pub use taken_reply::take;
