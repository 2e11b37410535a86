//! What may happen, and what is answered. Of one controller: what a client writes and asks, why a call is refused, what is
//! shown, and how a call went. Of a run: its events, the words that lines begin with, and the answer to a line.
//!
//! Plain values, shared by the definitions, the calls, the language and the answers. It stands on the words of `adr_values`
//! and on the kinds of crash of `adr_disk`, and knows nothing of text but the word of each line, and nothing of what a call
//! or an event does.
#![tactic(auto)]

mod answer;
mod call;
mod directory;
mod event;
mod meta;
mod names;
mod outcome;
mod partners;
mod refusal;
mod report;
mod verb;
mod write;

pub use adr_disk::Crash;
pub use adr_values::{
    Assignments, Birth, Failure, Mark, Oid, SchemaRefusal, Stamp, Text, Times, Values, Vector,
};
pub use answer::Answer;
pub use call::Call;
pub use directory::{Directory, Entry, EntryLinks, EntryValues, Guids};
pub use event::{Coming, Event, Exchange, Made, Meeting, Use};
pub use meta::{Life, MetaLine, MetaLines};
pub use names::Names;
pub use outcome::{Field, Fields, Label, Outcome, Plainly};
pub use partners::PartnerMarks;
pub use refusal::{
    AdoptRefusal, CollectRefusal, ItemFault, ServeRefusal, Table, TakeRefusal, UpgradeRefusal,
    WriteRefusal,
};
pub use report::Report;
pub use verb::Verb;
pub use write::Write;
