//! What is planned for a disk in memory.

/// What a crash does with the writes that no sync has followed. The interrupted one is among them.
#[derive(Clone, Copy)]
pub enum Crash {
    /// All are there.
    Kept,
    /// None is.
    Lost,
    /// Of each the first half, rounded down, is as written, and the rest holds 0xC3.
    Torn,
}

/// What becomes of the call that a plan meets.
#[derive(Clone, Copy)]
pub enum Mishap {
    /// It fails, and changes nothing.
    Fails,
    /// The disk stops within it: it crashes so.
    Stops(Crash),
}

/// So many writes and syncs pass, and the next meets a mishap.
#[derive(Clone, Copy)]
pub struct Plan {
    pub calls: u32,
    pub mishap: Mishap,
}
