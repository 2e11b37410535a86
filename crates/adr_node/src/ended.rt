//! How commands end.

ghost use Rattle.std.specs.Prelude.{◌≡◌};

use adr_call::AdoptRefusal;
use adr_image::DecodeRefusal;
use adr_io::Fault;

/// Why a command has no controller to begin with.
#[derive(Clone, Copy)]
pub enum Unbegun {
    /// The bytes of the disk are no log, and the place of their first fault is written.
    Damaged { place: u64 },
    /// A write failed.
    WriteFault,
    /// A call of the disk failed, and nothing is written.
    DiskFault,
    NoMemory,
}

/// How a command ends that looks at the controller on a disk.
#[derive(Clone, Copy)]
pub enum Looked {
    /// All that was due is written.
    Done,
    /// The controller is quarantined, and the line of its refusal is written. Only a backup is refused.
    Refused,
    /// The bytes of the disk are no log, and the place of their first fault is written.
    Damaged { place: u64 },
    /// A write failed.
    WriteFault,
    /// A call of the disk failed, and nothing is written.
    DiskFault,
    NoMemory,
}

/// Why no controller is made.
#[derive(Clone, Copy)]
pub enum Refusal {
    /// The disk has bytes.
    NotEmpty,
    /// What was read is no image.
    Image(DecodeRefusal),
    /// The image can't be adopted.
    Adoption(AdoptRefusal),
    /// The log would end beyond its limit, or its image would be too long for its length.
    Full,
}

/// How a command ends that makes a controller.
#[derive(Clone, Copy)]
pub enum Creation {
    /// The controller is on the disk, and its line is written.
    Done,
    /// It isn't made, and the line that says why is written.
    Refused(Refusal),
    /// A read of the image failed. Nothing is written, and nothing has changed of the disk.
    ReadFault,
    /// A write failed.
    WriteFault,
    /// A call of the disk failed, and nothing is written.
    DiskFault,
    /// No identifier was given, and nothing is written.
    FreshFault,
    NoMemory,
}

/// What a call that met a fault comes to: the first where it failed, and the other where memory is wanting.
pub(crate) fn by_fault<T: Copy>(fault: Fault, failed: T, no_memory: T) -> T
    ensures failed { fault ≡ Fault.Failed → result ≡ failed }
    ensures no_memory { fault ≡ Fault.NoMemory → result ≡ no_memory }
{
    match fault {
        Fault::Failed => failed,
        Fault::NoMemory => no_memory,
    }
}
