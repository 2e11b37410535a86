//! What attributes hold, by the tables of the schemas.

/// What a value of an attribute is, and its range; of texts and octets in bytes.
#[derive(Clone, Copy, PartialEq, Eq)]
pub enum Syntax {
    Text { least: u32, greatest: u32 },
    Number { least: i64, greatest: i64 },
    Flag,
    Octets { least: u32, greatest: u32 },
    Ref,
}

/// What an attribute holds.
#[derive(Clone, Copy, PartialEq, Eq)]
pub enum Kind {
    /// An object's class, name or death, which no write names.
    Reserved,
    /// A list of at most `most` values.
    Plain { syntax: Syntax, most: u32 },
    /// Links from an object, which show at their other ends under `back`.
    Forward { back: u16 },
    /// Links to an object, which are written at their other ends under `forward`.
    Back { forward: u16 },
}
