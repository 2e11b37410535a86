//! Stamps of updates, and the names of objects and of link rows.
//!
//! Their orders say which of two updates of one row wins, and in which order objects and link rows are listed. Every order
//! goes field by field, the first field of the type first.

ghost use Rattle.std.specs.Prelude.{◌≡◌};
ghost use Rattle.std.specs.Cmp.{IsTotalOrder};
ghost use Rattle.std.proofs.lemmas.Map.Lookups.{CmpEqualImpliesEq};
ghost use Rattle.adr_values.specs.Order.{identifier_order, birth_order, object_order, stamp_order, link_stamp_order, link_order, unit_order};

use crate::guid::Guid;

/// The creation of an object: the write that made it.
#[derive(Clone, Copy, Debug, PartialEq, Eq, PartialOrd, Ord)]
pub struct Birth {
    /// The invocation identifier of the controller that made it.
    pub inv: Guid,
    /// The update sequence number of the write there.
    pub usn: u64,
}

/// The name of an object: its GUID, and which creation under that GUID it is.
#[derive(Clone, Copy, Debug, PartialEq, Eq, PartialOrd, Ord)]
pub struct Oid {
    pub guid: Guid,
    pub birth: Birth,
}

/// The stamp of a row: the greatest stamp wins (MS-DRSR, AttributeStamp). That the USN decides last is this project's
/// own profile.
#[derive(Clone, Copy, PartialEq, Eq, PartialOrd, Ord)]
pub struct Stamp {
    /// How often the row was written, from 1.
    pub version: u32,
    /// When it was written, in whole seconds.
    pub time: u64,
    /// The invocation identifier of the controller that wrote it.
    pub inv: Guid,
    /// The update sequence number of the write there.
    pub usn: u64,
}

/// The stamp of a link row: the greatest wins (MS-DRSR, LinkValueStamp).
#[derive(Clone, Copy, PartialEq, Eq, PartialOrd, Ord)]
pub struct LinkStamp {
    /// When the link row was first made, in whole seconds.
    pub created: u64,
    pub stamp: Stamp,
}

/// The name of a link row: an attribute of an object, and an object that it refers to.
#[derive(Clone, Copy, PartialEq, Eq, PartialOrd, Ord)]
pub struct LinkKey {
    pub from: Oid,
    pub attr: u16,
    pub to: Oid,
}

/// What carries a last local update sequence number: an object or a link row.
#[derive(Clone, Copy, PartialEq, Eq, PartialOrd, Ord)]
pub enum Unit {
    Object(Oid),
    Link(LinkKey),
}

impl Stamp {
    /// The stamp of the first write of a row.
    pub fn first(time: u64, inv: Guid, usn: u64) -> Stamp
        ensures { result ≡ record { version = 1; time = time; inv = inv; usn = usn } }
    {
        Stamp {
            version: 1,
            time,
            inv,
            usn,
        }
    }
}

/// Stamps are totally ordered, and so are names. These are the orders of `cmp`.
pub fn orders_are_total()
    ensures identifiers { IsTotalOrder identifier_order }
    ensures births { IsTotalOrder birth_order }
    ensures objects { IsTotalOrder object_order }
    ensures stamps { IsTotalOrder stamp_order }
    ensures link_stamps { IsTotalOrder link_stamp_order }
    ensures links { IsTotalOrder link_order }
    ensures units { IsTotalOrder unit_order }
{}

/// Two stamps of which neither is less are one stamp, and two such names are one name.
pub fn orders_tell_apart()
    ensures identifiers { CmpEqualImpliesEq identifier_order }
    ensures births { CmpEqualImpliesEq birth_order }
    ensures objects { CmpEqualImpliesEq object_order }
    ensures stamps { CmpEqualImpliesEq stamp_order }
    ensures link_stamps { CmpEqualImpliesEq link_stamp_order }
    ensures links { CmpEqualImpliesEq link_order }
    ensures units { CmpEqualImpliesEq unit_order }
{}
