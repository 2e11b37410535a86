//! How a session ends.

ghost use Rattle.std.specs.Prelude.{◌≡◌};
ghost use Rattle.adr_session.specs.declared.ending.ServeFault.TheVariants.{NoMemory as no_memory};

use std::alloc::AllocError;

/// How a connection ended.
#[derive(Clone, Copy, PartialEq, Eq)]
pub enum End {
    /// The peer ended it between two frames.
    Hung,
    /// What came was no message of a client.
    Malformed,
    /// A call of the line failed.
    Fault,
    /// As many messages were answered as a connection may have.
    Limit,
}

/// A connection that was served: how many messages were answered, and how it ended.
#[derive(Clone, Copy)]
pub struct Served {
    pub messages: u32,
    pub end: End,
}

/// Why a node can't go on serving. The message that met it is not answered.
#[derive(Clone, Copy)]
pub enum ServeFault {
    /// A call of the disk failed: the controller has no state in memory.
    Disk,
    /// A call of the clock failed.
    Clock,
    NoMemory,
}

impl From<AllocError> for ServeFault {
    ghost from_gives = { λ _ fault. fault ≡ no_memory };

    fn from(_e: AllocError) -> ServeFault {
        ServeFault::NoMemory
    }
}
