//! Keys of updates, and how they compare.

ghost use Rattle.std.specs.Prelude.{◌≡◌, ◌&&◌, is_none};
ghost use Rattle.adr_model.specs.Update.{RowOf, deleted_attr, key_order, same_identifier, same_key, same_object, unit_of};
ghost use Rattle.adr_model.specs.Live.{born};
ghost use Rattle.adr_model.specs.Write.{is_link_row};
ghost use Rattle.adr_model.specs.Store.{is_row_of};
ghost use Rattle.adr_model.specs.Change.{killed_by};
ghost use Rattle.adr_update.specs.Sought.{is_link_from};

use crate::limits::{CLASS, DELETED};
use adr_values::{Guid, LinkKey, Oid, Unit};
use std::cmp::Ordering;

/// What an update is an update of.
#[derive(Clone, Copy)]
pub enum Key {
    /// An attribute of an object.
    Row { object: Oid, attr: u16 },
    Link(LinkKey),
}

impl Key {
    ghost use Rattle.adr_update.specs.Key.{key_of};

    /// The key of the row of an attribute of an object.
    pub fn row(object: &Oid, attr: u16) -> Key
        ensures { key_of result ≡ RowOf object.now attr }
    {
        Key::Row {
            object: *object,
            attr,
        }
    }

    /// The key of the row that says that an object is dead.
    pub fn deleted(object: &Oid) -> Key
        ensures { key_of result ≡ RowOf object.now deleted_attr }
    {
        Key::row(object, DELETED)
    }

    /// The order of keys: the rows of objects, object by object, before the links.
    pub fn order(&self, other: &Key) -> Ordering
        ensures { result ≡ key_order (key_of self.now) (key_of other.now) }
    {
        match (self, other) {
            (
                Key::Row { object, attr },
                Key::Row {
                    object: other_object,
                    attr: other_attr,
                },
            ) => { object.cmp(other_object).then(attr.cmp(other_attr)) }
            (Key::Row { .. }, Key::Link(_)) => Ordering::Less,
            (Key::Link(_), Key::Row { .. }) => Ordering::Greater,
            (Key::Link(link), Key::Link(other_link)) => link.cmp(other_link),
        }
    }

    pub fn is_same(&self, other: &Key) -> bool
        ensures { result ≡ same_key (key_of self.now) (key_of other.now) }
    {
        self.order(other).is_eq()
    }

    /// The object with its rows, or the link.
    pub fn unit(&self) -> Unit
        ensures { result ≡ unit_of (key_of self.now) }
    {
        match self {
            Key::Row { object, .. } => Unit::Object(*object),
            Key::Link(link) => Unit::Link(*link),
        }
    }

    /// Whether it is a row of the object.
    pub fn is_row_of(&self, object: &Oid) -> bool
        ensures { result ≡ is_row_of object.now (key_of self.now) }
    {
        match self {
            Key::Row { object: own, .. } => is_same_object(own, object),
            Key::Link(_) => false,
        }
    }

    /// Whether it is a row of the object, and no death.
    pub fn is_life_of(&self, object: &Oid) -> bool
        ensures { result ≡ (is_row_of object.now (key_of self.now) && is_none (killed_by (key_of self.now))) }
    {
        self.is_row_of(object) && self.killed().is_none()
    }

    /// Whether it is a link from the object.
    pub fn is_link_from(&self, object: &Oid) -> bool
        ensures { result ≡ is_link_from object.now (key_of self.now) }
    {
        match self {
            Key::Row { .. } => false,
            Key::Link(link) => is_same_object(&link.from, object),
        }
    }

    pub fn is_link(&self) -> bool
        ensures { result ≡ is_link_row (key_of self.now) }
    {
        match self {
            Key::Row { .. } => false,
            Key::Link(_) => true,
        }
    }

    /// The object that a row of this key gives birth to.
    pub fn born(&self) -> Option<Oid>
        ensures { result ≡ born (key_of self.now) }
    {
        match self {
            Key::Row { object, attr } => { if *attr == CLASS { Some(*object) } else { None } }
            Key::Link(_) => None,
        }
    }

    /// The object that a row of this key kills.
    pub fn killed(&self) -> Option<Oid>
        ensures { result ≡ killed_by (key_of self.now) }
    {
        match self {
            Key::Row { object, attr } => {
                if *attr == DELETED {
                    Some(*object)
                } else {
                    None
                }
            }
            Key::Link(_) => None,
        }
    }
}

/// Whether the two identifiers are one.
pub fn is_same(a: Guid, b: Guid) -> bool
    ensures { result ≡ same_identifier a b }
{
    a == b
}

pub fn is_same_object(a: &Oid, b: &Oid) -> bool
    ensures { result ≡ same_object a.now b.now }
{
    a.cmp(b).is_eq()
}
