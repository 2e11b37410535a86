//! What a client asks for.

use adr_values::Guid;

/// What a client asks a controller for, which changes nothing.
#[derive(Clone, Copy)]
pub enum Report {
    /// The directory of live objects.
    Directory,
    /// What the controller has seen of each incarnation, and when.
    Vector,
    /// How far it has read its partners.
    Marks,
    /// Which write made each row of the objects of a GUID, live or not.
    Meta { guid: Guid },
}
