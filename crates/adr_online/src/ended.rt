//! How the commands over a network end.

/// Why a server stops before it has served as many connections as it was asked to.
#[derive(Clone, Copy)]
pub(crate) enum Stop {
    Write,
    Disk,
    Link,
    Clock,
    NoMemory,
}

/// How a server ended.
#[derive(Clone, Copy)]
pub enum Online {
    /// As many connections were served as were asked for.
    Done,
    /// A line couldn't be written: that of a connection, which was served, or that of the damage.
    WriteFault,
    /// A call of the disk failed. If a message met it, that isn't answered, and a start finds the controller before it or
    /// behind it.
    DiskFault,
    /// It couldn't listen, or a connection couldn't be accepted.
    LinkFault,
    /// Memory was wanting. If a message met it, that isn't answered.
    NoMemory,
    /// The bytes of the disk are no log; the place of their first fault, in bytes. That is written.
    Damaged { place: u64 },
    /// The clock couldn't be read. The message that met it isn't answered, and nothing was done for it.
    ClockFault,
}

/// How a pull ended.
#[derive(Clone, Copy)]
pub enum Pulled {
    /// All that the partner had to give was taken.
    Done,
    /// A line couldn't be written: that of a reply, which was taken and is kept, that of a refusal, or that of the damage.
    WriteFault,
    /// A call of the disk failed. If a reply met it, a start finds the controller before it or behind it.
    DiskFault,
    /// It couldn't connect, or a call of the connection failed. What was taken before is kept.
    LinkFault,
    /// Memory was wanting. What was taken before is kept.
    NoMemory,
    /// The partner refused a request, or the controller a reply. That is written.
    Refused,
    /// The bytes of the disk are no log; the place of their first fault, in bytes. That is written.
    Damaged { place: u64 },
    /// As many replies were taken as a cycle may have, and the last wasn't final. They are kept.
    MoreWaiting,
    /// What came wasn't what was due, or ended before it was whole. What was taken before is kept.
    BadPeer,
}

/// How a client's lines were sent.
#[derive(Clone, Copy)]
pub enum Sent {
    /// All lines were accepted.
    Done,
    /// The text has a line that no client says, or is too long. The line of that is written, and nothing was sent.
    BadText,
    /// The text couldn't be read. Nothing was sent or written.
    ReadFault,
    /// A line couldn't be written.
    WriteFault,
    /// It couldn't connect, or a call of the connection failed. The last line may have been done, may yet be, or not.
    LinkFault,
    /// Memory was wanting.
    NoMemory,
    /// All lines were answered, and some were refused.
    Refused,
    /// What came wasn't what was due, or ended before it was whole.
    BadPeer,
}
