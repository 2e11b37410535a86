//! Messages between controllers as bytes: requests, replies, and refusals of requests.
//!
//! Each is read and written in one way, behind its magic and its version: requests and replies in two versions, refusals
//! in one. It stands on the fields and composites of `adr_wire`, on the items of `adr_image`, and on the requests and
//! replies of `adr_cycle`. It knows nothing of connections, of frames, or of what is asked and answered.
#![tactic(auto)]

mod items;
mod laws;
mod parts;
mod refusal;
mod refusals;
mod replies;
mod requests;

pub use adr_call::ServeRefusal;
pub use adr_cycle::{NoMemory, Reply, Request};
pub use adr_wire::{DecodeRefusal, Failure};
pub use laws::{
    refusals_have_one_spelling, replies_have_one_spelling, requests_have_one_spelling,
    worked_messages,
};
pub use refusal::Refusal;
pub use refusals::{decode_refusal, encode_refusal};
pub use replies::{decode_reply, encode_reply};
pub use requests::{decode_request, encode_request};
