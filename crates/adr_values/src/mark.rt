//! High watermarks.

use std::fmt;

/// How far the changes of one incarnation of a partner have been read (after MS-DRSR, USN_VECTOR). All three are
/// update sequence numbers of the partner. How they move is this project's own profile.
#[derive(Clone, Copy)]
pub struct Mark {
    /// Up to here every changed object has been read (usnHighObjUpdate).
    pub obj: u64,
    /// Up to here every change of a property has been read (usnHighPropUpdate).
    pub prop: u64,
    /// Where the partner stood when it last answered. This field has no like in USN_VECTOR.
    pub seen: u64,
}

impl fmt::Display for Mark {
    fn fmt<W: fmt::Write>(&self, f: &mut fmt::Formatter<W>) -> fmt::Result {
        write!(f, "{}/{}/{}", self.obj, self.prop, self.seen)
    }
}
