//! Why a text is no schedule.

use thiserror::Error;

/// What is wrong with a line.
#[derive(Clone, Copy, Debug, Error)]
pub enum Cause {
    #[error("not UTF-8")]
    NotUtf8,
    /// The line is outside the grammar.
    #[error("no command")]
    NoCommand,
    /// The line uses a name that no earlier line bound.
    #[error("unknown name")]
    UnknownName,
    /// The line binds a name that an earlier line bound.
    #[error("name used")]
    NameUsed,
    /// The line gives an identifier that an earlier line gave.
    #[error("identifier used")]
    IdentifierUsed,
    /// The line would bind the 65th controller.
    #[error("too many")]
    TooMany,
    /// The text is longer than 16 MiB.
    #[error("too long")]
    TooLong,
}

/// The first bad line of a text, from 1; 0 stands for the text as a whole.
#[derive(Clone, Copy, Debug, Error)]
#[error("line {line}: {cause}")]
pub struct ScheduleFault {
    pub line: u32,
    pub cause: Cause,
}
