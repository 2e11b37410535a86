//! The attributes that no write names, and how much a controller holds at most.

/// The attribute whose row says the class of an object, and is its birth.
pub const CLASS: u16 = 1;

/// The attribute whose row names an object and the object above it.
pub const NAME: u16 = 2;

/// The attribute whose row says that an object is dead.
pub const DELETED: u16 = 3;

/// The greatest update sequence number that there is.
pub const USN_LIMIT: u64 = 9_223_372_036_854_775_807;

/// The greatest version that there is.
pub const VERSION_LIMIT: u32 = 4_294_967_295;

/// How many objects a controller holds at most, live or dead.
pub const OBJECT_LIMIT: u64 = 200_000;

/// How many link rows it holds at most, present or not.
pub const LINK_LIMIT: u64 = 1_000_000;

/// How many partners' marks it keeps at most.
pub const MARK_LIMIT: u64 = 10_000;

/// The most bytes of a log: 8 GiB.
pub const LOG_LIMIT: u64 = 8_589_934_592;
