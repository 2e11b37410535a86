//! Why a cycle, or a client's lines, weren't done.

ghost use Rattle.std.specs.Prelude.{◌≡◌};
ghost use Rattle.adr_pull.specs.declared.fault.PullFault.TheVariants.{NoMemory as no_memory};
ghost use Rattle.adr_pull.specs.declared.fault.SendFault.TheVariants.{NoMemory as no_memory_of_send};

use std::alloc::AllocError;

/// Why a cycle wasn't done. Whatever it is, each reply whose line was written is kept.
#[derive(Clone, Copy, Debug)]
pub enum PullFault {
    /// A line couldn't be written: that of a reply, which was taken and is kept, or that of a refusal.
    Write,
    /// A call of the disk failed. The controller has no state in memory; its last reply may be kept or not.
    Disk,
    /// A call of the connection failed. What was taken before is kept.
    Link,
    /// Memory was wanting. What was taken before is kept.
    NoMemory,
    /// The partner refused a request, or the controller a reply; the refusal's line was written. A controller that is shown
    /// to be put back is quarantined.
    Refused,
    /// As many replies were taken as a cycle may have, and the last wasn't final. They are kept.
    MoreWaiting,
    /// What came wasn't what was due, or ended before it was whole. What was taken before is kept.
    BadPeer,
}

impl From<AllocError> for PullFault {
    ghost from_gives = { λ _ e. e ≡ no_memory };

    fn from(_e: AllocError) -> PullFault {
        PullFault::NoMemory
    }
}

/// Why a client's lines weren't all sent and answered.
#[derive(Clone, Copy, Debug)]
pub enum SendFault {
    /// An answer couldn't be written.
    Write,
    /// A call of the connection failed. The last line may have been done, may yet be, or not.
    Link,
    /// Memory was wanting.
    NoMemory,
    /// What came wasn't what was due, or ended before it was whole.
    BadPeer,
}

impl From<AllocError> for SendFault {
    ghost from_gives = { λ _ e. e ≡ no_memory_of_send };

    fn from(_e: AllocError) -> SendFault {
        SendFault::NoMemory
    }
}
