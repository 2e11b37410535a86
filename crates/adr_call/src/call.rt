//! What a client has a controller do.

use crate::Write;

/// What a client has a controller do.
#[derive(Drop)]
pub enum Call {
    /// A write of objects or links.
    Write(Write),
    /// The controller collects its tombstones that are as old as a lifetime, in seconds, or older.
    Collect { lifetime: u64 },
    /// The controller changes over to schema 2.
    Upgrade,
}
