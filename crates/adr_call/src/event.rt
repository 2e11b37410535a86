//! The events of a run, by their kinds.

use crate::names::Names;
use crate::{Call, Report, Text};
use adr_disk::Crash;
use adr_values::Guid;

/// What happens. `name` names the controller that it happens to.
#[derive(Drop)]
pub enum Event {
    /// The time, in seconds, of the events that follow.
    Time { now: u64 },
    /// A controller comes to be, or comes back, under an invocation identifier that nothing had before.
    Comes { name: Text, inv: Guid, how: Coming },
    /// A client has the controller do something.
    Calls { name: Text, what: Call },
    /// The controller does something with what is bound to a name.
    Uses { name: Text, what: Use, bound: Text },
    /// What the controller makes is bound to a name.
    Binds { name: Text, what: Made, bound: Text },
    /// A client asks the controller for a report.
    Asks { name: Text, what: Report },
    /// The controller pulls from others.
    Goes { name: Text, what: Exchange },
    /// Something befalls the controller or its disk.
    Meets { name: Text, what: Meeting },
}

/// How a controller comes to be, or comes back.
#[derive(Drop)]
pub enum Coming {
    /// New and empty.
    Fresh { dsa: Guid },
    /// An image is adopted as a new controller.
    Installed { dsa: Guid, image: Text },
    /// An image is adopted as the controller.
    Restored { image: Text },
}

/// What a controller does with what is bound to a name.
#[derive(Drop)]
pub enum Use {
    /// It takes a reply.
    Deliver,
    /// A client has an object of an image come again, under a new birth.
    Revive {
        guid: Guid,
        parent: Guid,
        text: Text,
    },
    /// A snapshot is put back as its disk.
    Rollback,
}

/// What a controller makes.
#[derive(Drop)]
pub enum Made {
    /// A request to a partner, for at most `max` items, in version 1 or 2.
    Ask {
        partner: Text,
        max: u32,
        version: u16,
    },
    /// The reply to the request of that name.
    Serve {
        request: Text,
    },
    /// The image of its state.
    Backup,
    /// The bytes of its disk.
    Snapshot,
}

/// How controllers pull.
#[derive(Drop)]
pub enum Exchange {
    /// The controller asks a partner for at most `max` items and takes the reply.
    Pull {
        source: Text,
        max: u32,
    },
    /// It pulls until it took a last reply.
    Cycle {
        source: Text,
        max: u32,
    },
    /// So often it and each of the others pulls a cycle from the one before it, the first from the last; then they are compared.
    Ring {
        others: Names,
        rounds: u32,
        max: u32,
    },
}

/// What befalls a controller or its disk.
#[derive(Clone, Copy)]
pub enum Meeting {
    /// The controller stops, with everything on its disk.
    Stop,
    /// The controller is started from its disk.
    Start,
    /// The disk stops within the device call behind `calls` further ones.
    StopAfter { calls: u32, how: Crash },
    /// The device call behind `calls` further ones fails.
    Fail { calls: u32 },
}
