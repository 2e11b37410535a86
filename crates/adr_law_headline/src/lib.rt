//! What is claimed of every run of a text, over the definitions alone.
//!
//! It stands on the theorem of `adr_law_convergence` and on the definitions of schedules in `adr_schedule`: what the lines
//! of a text say may happen, is typed, and is done by the program, so that the theorem holds of its run. That every state
//! of a run of such events is one that a log may lead to stands on the laws of `adr_law_recorded`, which ask nothing of a
//! sound world; that what is held then shows a directory which its lines tell, on those of `adr_answers`, and that its JSON
//! tells it, on what `adr_json` asks of a directory. Its functions have no code.
#![tactic(auto)]

mod exported;

ghost use Rattle.std.specs.Prelude.{ℕ, List};
ghost use Rattle.adr_call.specs.declared.event.Event.{Event};
ghost use Rattle.adr_model.specs.Convergence.{MayAllHappen};
ghost use Rattle.adr_model.specs.World.{empty_world};
ghost use Rattle.adr_schedule.specs.Seen.{IsFollowing, nothing_seen};
ghost use Rattle.adr_law_headline.specs.Formed.{AreAllTyped, RunsAreFormed};
ghost use Rattle.adr_law_headline.specs.Printable.{RunsArePrintable, WriteWhole};
ghost use Rattle.adr_law_headline.specs.Headline.{Headline, IsHeadline};

pub use exported::{
    directories_are_exportable, directories_of_logs_are_exportable,
    directories_of_texts_are_exportable,
};

/// What lines say, one after the other, may happen.
#[tactic(auto, using(crate::proofs::Following::following_may))]
pub fn lines_may_happen()
    ensures { (events : List Event) → IsFollowing nothing_seen events → MayAllHappen empty_world events }
{}

/// What lines say is typed: the identifiers that they give and write have sixteen bytes, written texts are UTF-8, number
/// values and times have 64 bits, how many items are asked for has 32, and it is asked in a version that is known.
#[tactic(auto, using(crate::proofs::Typing::following_all_typed))]
pub fn lines_are_typed()
    ensures { (events : List Event) → IsFollowing nothing_seen events → AreAllTyped events }
{}

/// What lines say is whole: also the bytes of identifiers are in range.
#[tactic(auto, using(crate::proofs::Typing::following_whole))]
pub fn lines_are_whole()
    ensures { (events : List Event) → IsFollowing nothing_seen events → WriteWhole events }
{}

/// The theorem holds of every run of events that may happen, upgrades and revivals among them.
#[tactic(auto, using(crate::proofs::Claimed::headline))]
pub fn headline_holds()
    ensures { (events : List Event) → MayAllHappen empty_world events → Headline events }
{}

/// Every state of every run whose lines are typed and say what the program does is one that a log may lead to, with all
/// that is kept of it: formed, in the ranges of an image, its identifiers of sixteen bytes and its classes known. So is
/// what a crash would leave of a controller, and what a start would find, whatever was taken, at every place and on the
/// way of every line, and also behind a `rollback`.
pub fn states_are_formed()
    ensures { RunsAreFormed }
{}

/// Every directory of a run is printable where its lines are typed, say what the program does, and write what is whole:
/// what a controller holds, and what it answers, so that the lines of a `show` tell it, at every place and on the way of
/// every line, and also behind a `rollback`.
pub fn directories_are_printable()
    ensures { RunsArePrintable }
{}

/// The theorem holds of the run of every text that is a schedule, its states are formed, and its directories are printable.
pub fn headline_holds_of_texts()
    ensures { (text : List ℕ) → IsHeadline text }
{}
