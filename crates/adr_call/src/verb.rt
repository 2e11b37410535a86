//! The words that lines begin with, and that answers repeat.

ghost use Rattle.std.specs.Prelude.{◌≡◌};
ghost use Rattle.adr_call.specs.Verbs.{verb_of, verb_of_call, verb_of_coming, verb_of_exchange, verb_of_made, verb_of_meeting, verb_of_report, verb_of_use, verb_of_write, word_of};

use crate::event::{Coming, Event, Exchange, Made, Meeting, Use};
use crate::{Call, Report, Write};

/// What a line begins with.
#[derive(Clone, Copy)]
pub enum Verb {
    Controller,
    Time,
    Add,
    Modify,
    Rename,
    Delete,
    Link,
    Unlink,
    Ask,
    Serve,
    Deliver,
    Pull,
    Cycle,
    Ring,
    Collect,
    Upgrade,
    Revive,
    Backup,
    Restore,
    Install,
    Snapshot,
    Rollback,
    Stop,
    Fail,
    Start,
    Show,
    Vector,
    Marks,
    Meta,
}

impl Verb {
    /// The word of a verb.
    pub fn word(self) -> &'static str
        ensures { result.now ≡ word_of self }
    {
        match self {
            Verb::Controller => "controller",
            Verb::Time => "time",
            Verb::Add => "add",
            Verb::Modify => "modify",
            Verb::Rename => "rename",
            Verb::Delete => "delete",
            Verb::Link => "link",
            Verb::Unlink => "unlink",
            Verb::Ask => "ask",
            Verb::Serve => "serve",
            Verb::Deliver => "deliver",
            Verb::Pull => "pull",
            Verb::Cycle => "cycle",
            Verb::Ring => "ring",
            Verb::Collect => "collect",
            Verb::Upgrade => "upgrade",
            Verb::Revive => "revive",
            Verb::Backup => "backup",
            Verb::Restore => "restore",
            Verb::Install => "install",
            Verb::Snapshot => "snapshot",
            Verb::Rollback => "rollback",
            Verb::Stop => "stop",
            Verb::Fail => "fail",
            Verb::Start => "start",
            Verb::Show => "show",
            Verb::Vector => "vector",
            Verb::Marks => "marks",
            Verb::Meta => "meta",
        }
    }
}

/// The verb of the line that says a write.
fn verb_of_write(what: &Write) -> Verb
    ensures { result ≡ verb_of_write what.now }
{
    match what {
        Write::Add { .. } => Verb::Add,
        Write::Modify { .. } => Verb::Modify,
        Write::Rename { .. } => Verb::Rename,
        Write::Delete { .. } => Verb::Delete,
        Write::Link { .. } => Verb::Link,
        Write::Unlink { .. } => Verb::Unlink,
    }
}

impl Call {
    /// The verb of the line that says the call.
    pub fn verb(&self) -> Verb
        ensures { result ≡ verb_of_call self.now }
    {
        match self {
            Call::Write(what) => verb_of_write(what),
            Call::Collect { .. } => Verb::Collect,
            Call::Upgrade => Verb::Upgrade,
        }
    }
}

/// The verb of the line that asks for a report.
fn verb_of_report(what: Report) -> Verb
    ensures { result ≡ verb_of_report what }
{
    match what {
        Report::Directory => Verb::Show,
        Report::Vector => Verb::Vector,
        Report::Marks => Verb::Marks,
        Report::Meta { .. } => Verb::Meta,
    }
}

/// The verb of the line by which a controller comes to be, or comes back.
fn verb_of_coming(how: &Coming) -> Verb
    ensures { result ≡ verb_of_coming how.now }
{
    match how {
        Coming::Fresh { .. } => Verb::Controller,
        Coming::Installed { .. } => Verb::Install,
        Coming::Restored { .. } => Verb::Restore,
    }
}

/// The verb of the line that uses what is bound to a name.
fn verb_of_use(what: &Use) -> Verb
    ensures { result ≡ verb_of_use what.now }
{
    match what {
        Use::Deliver => Verb::Deliver,
        Use::Revive { .. } => Verb::Revive,
        Use::Rollback => Verb::Rollback,
    }
}

/// The verb of the line that binds what is made to a name.
fn verb_of_made(what: &Made) -> Verb
    ensures { result ≡ verb_of_made what.now }
{
    match what {
        Made::Ask { .. } => Verb::Ask,
        Made::Serve { .. } => Verb::Serve,
        Made::Backup => Verb::Backup,
        Made::Snapshot => Verb::Snapshot,
    }
}

/// The verb of the line by which controllers pull.
fn verb_of_exchange(what: &Exchange) -> Verb
    ensures { result ≡ verb_of_exchange what.now }
{
    match what {
        Exchange::Pull { .. } => Verb::Pull,
        Exchange::Cycle { .. } => Verb::Cycle,
        Exchange::Ring { .. } => Verb::Ring,
    }
}

/// The verb of the line that says what befalls a controller.
fn verb_of_meeting(what: Meeting) -> Verb
    ensures { result ≡ verb_of_meeting what }
{
    match what {
        Meeting::Stop | Meeting::StopAfter { .. } => Verb::Stop,
        Meeting::Start => Verb::Start,
        Meeting::Fail { .. } => Verb::Fail,
    }
}

impl Event {
    /// The verb of the line that says the event.
    pub fn verb(&self) -> Verb
        ensures { result ≡ verb_of self.now }
    {
        match self {
            Event::Time { .. } => Verb::Time,
            Event::Comes { how, .. } => verb_of_coming(how),
            Event::Calls { what, .. } => what.verb(),
            Event::Uses { what, .. } => verb_of_use(what),
            Event::Binds { what, .. } => verb_of_made(what),
            Event::Asks { what, .. } => verb_of_report(*what),
            Event::Goes { what, .. } => verb_of_exchange(what),
            Event::Meets { what, .. } => verb_of_meeting(*what),
        }
    }
}
