//! The words of the command line, as the command that they are. It stands on the tokens of `adr_token`, whose forms the
//! arguments have, and on `clap`, which tells the commands apart and counts their arguments. It knows nothing of what a
//! command does.
#![tactic(auto)]

mod arguments;
mod asked;
mod kinds;
mod parser;
mod reading;

pub use kinds::{Command, DiskCommand};
pub use reading::command;
