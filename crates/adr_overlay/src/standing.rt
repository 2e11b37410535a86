//! What stands of an item's unit before the item.

ghost use Rattle.std.specs.Prelude.{◌≡◌};
ghost use Rattle.adr_values.specs.declared.stamp.Unit.TheVariants.{Object};
ghost use Rattle.adr_overlay.specs.Standing.{IsStanding, class_held, new_object};

use crate::keys::class_said;
use crate::overlay::Overlay;
use crate::presence::{Presence, has_lost_end, presence_absent, presence_held};
use adr_update::{CLASS, Key};
use adr_values::{Oid, Unit, Vector};

/// What stands of a unit before its item.
#[derive(Clone, Copy)]
pub enum Standing {
    /// An object, with its class if it is held.
    OfObject {
        presence: Presence,
        class: Option<u16>,
    },
    /// A link, and whether one of its ends is dead or gone.
    OfLink {
        is_lost: bool,
    },
}

/// What stands of a unit before its item.
pub fn standing_of(vector: &Vector, held: &Overlay, unit: &Unit) -> Standing
    ensures { IsStanding vector.now held.now unit.now result }
{
    match unit {
        Unit::Object(object) => standing_of_object(vector, held, object),
        Unit::Link(link) => Standing::OfLink {
            is_lost: has_lost_end(vector, held, link),
        },
    }
}

/// What stands of an object. Of one that isn't held no row is held, and so no class.
fn standing_of_object(vector: &Vector, held: &Overlay, object: &Oid) -> Standing
    ensures { IsStanding vector.now held.now (Object object.now) result }
{
    if held.holds(object) {
        Standing::OfObject {
            presence: presence_held(held, object),
            class: class_held(held, object),
        }
    } else {
        Standing::OfObject {
            presence: presence_absent(vector, object),
            class: None,
        }
    }
}

/// The object of a unit, if it is new. Nothing is held of it.
pub fn new_object(unit: &Unit, standing: Standing) -> Option<Oid>
    ensures { result ≡ new_object unit.now standing }
{
    match (unit, standing) {
        (
            Unit::Object(object),
            Standing::OfObject {
                presence: Presence::New,
                ..
            },
        ) => Some(*object),
        _ => None,
    }
}

/// The class of an object that is held.
fn class_held(held: &Overlay, object: &Oid) -> Option<u16>
    ensures { result ≡ class_held held.now object.now }
{
    match held.row(Key::row(object, CLASS)) {
        Some(row) => class_said(row.update().said()),
        None => None,
    }
}
