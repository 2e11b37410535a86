//! The verb of a word.

ghost use Rattle.std.specs.Prelude.{◌≡◌};
ghost use Rattle.adr_schedule.specs.Verbs.{verb_said};

use adr_call::Verb;

/// A verb of links.
#[derive(Clone, Copy)]
pub enum LinkVerb {
    Link,
    Unlink,
}

/// A verb by which a controller asks its source.
#[derive(Clone, Copy)]
pub enum PullVerb {
    Pull,
    Cycle,
}

/// The verbs that a text knows.
const VERBS: [Verb; 29] = [
    Verb::Controller,
    Verb::Time,
    Verb::Add,
    Verb::Modify,
    Verb::Rename,
    Verb::Delete,
    Verb::Link,
    Verb::Unlink,
    Verb::Ask,
    Verb::Serve,
    Verb::Deliver,
    Verb::Pull,
    Verb::Cycle,
    Verb::Ring,
    Verb::Collect,
    Verb::Upgrade,
    Verb::Revive,
    Verb::Backup,
    Verb::Restore,
    Verb::Install,
    Verb::Snapshot,
    Verb::Rollback,
    Verb::Stop,
    Verb::Fail,
    Verb::Start,
    Verb::Show,
    Verb::Vector,
    Verb::Marks,
    Verb::Meta,
];

/// The verb of a word.
pub fn verb_said(word: &[u8]) -> Option<Verb>
    ensures { result ≡ verb_said word.now }
{
    VERBS
        .iter()
        .copied()
        .find(|verb| word == verb.word().as_bytes())
}
