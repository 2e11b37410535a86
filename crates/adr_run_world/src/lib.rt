//! The run of a schedule: the controllers on their disks with the past of the run, what each line does to them, and what
//! is answered. It writes its answers as they come: of a cycle no more than those of one pull are held at a time.
//!
//! `play` runs a list of events, and a `World` does so line by line, or counts its answers. It stands on the definitions of a
//! run in `adr_model` and meets them: its world is seen as the definitions' world, whose one call does a line as they do, and
//! while no database was put back as it was the world is sound, and what a ring tells is true, by the theorems of
//! `adr_law_convergence`. What a single controller does is of `adr_run_replica`, what it shows of `adr_view`, and the bytes of
//! an answer are of `adr_answers`. It knows nothing of the texts that lines are read from.
#![tactic(auto)]

mod bound;
mod calling;
mod coming;
mod comparing;
mod controller;
mod counting;
mod lists;
mod messages;
mod playing;
mod pulling;
mod putting_back;
mod reports;
mod restoring;
mod reviving;
mod ringing;
mod room;
mod run;
mod stepping;
mod stopping;
mod world;

pub use counting::Tally;
pub use playing::play;
pub use world::World;
