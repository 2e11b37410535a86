//! What a schedule has at most.

/// The bytes of a text: 16 MiB.
pub const TEXT_LIMIT: usize = 16_777_216;

/// The controllers that its lines make.
pub const CONTROLLER_LIMIT: usize = 64;

/// The items that a line asks for.
pub const ASK_LIMIT: u32 = 10_000;

/// The device calls that a plan lets pass.
pub const PLAN_LIMIT: u32 = 1_000;

/// The rounds of a ring.
pub const ROUNDS_LIMIT: u32 = 126;
