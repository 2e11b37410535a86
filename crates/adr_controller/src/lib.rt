//! A controller: a keeper, the state that it stands for in memory, and whether the controller was stopped. Each call
//! that changes it is a pure call, whose change the keeper commits.
//!
//! It stands on the keepers of `adr_journal`, on the state of `adr_state`, and on the pure calls that make a change of a
//! state. It knows nothing of the other controllers of a world, of names, or of the bytes of messages.
#![tactic(auto)]

mod client;
mod collecting;
mod controller;
mod keeping;
mod messages;
mod refusal;
mod reviving;
mod upgrading;
mod writing;

pub use adr_call::{
    CollectRefusal, ServeRefusal, TakeRefusal, UpgradeRefusal, Write, WriteRefusal,
};
pub use adr_cycle::{Reply, Request};
pub use adr_journal::{Keeper, KeeperRefusal, StartRefusal};
pub use adr_revival::{Archive, Revival};
pub use adr_state::{Change, State};
pub use controller::Controller;
pub use messages::Taken;
pub use refusal::{CallRefusal, Hindrance};
