//! What is held of an object before an item.

ghost use Rattle.std.specs.Prelude.{◌≡◌, ◌||◌, if◌then◌else◌};
ghost use Rattle.adr_model.specs.Store.{holds_dead};
ghost use Rattle.adr_model.specs.Visible.{covers_birth};
ghost use Rattle.adr_model.specs.Take.{IsDead, IsGone, IsHeld, IsNew, is_above, is_gone, is_lost_end};
ghost use Rattle.adr_overlay.specs.Presence.{defined};

use crate::overlay::Overlay;
use adr_change::covers_birth;
use adr_update::Update;
use adr_values::{LinkKey, Oid, Vector};

/// What stands of an object before its item.
#[derive(Clone, Copy)]
pub enum Presence {
    Dead,
    Held,
    /// It was held and was collected, or never comes.
    Gone,
    New,
}

/// What stands of an object that is held.
pub fn presence_held(held: &Overlay, object: &Oid) -> Presence
    ensures { defined result ≡ (if holds_dead held.now object.now then IsDead else IsHeld) }
{
    if held.is_dead(object) {
        Presence::Dead
    } else {
        Presence::Held
    }
}

/// What stands of an object that isn't held.
pub fn presence_absent(vector: &Vector, object: &Oid) -> Presence
    ensures { defined result ≡ (if covers_birth vector.now object.now then IsGone else IsNew) }
{
    if covers_birth(vector, object) {
        Presence::Gone
    } else {
        Presence::New
    }
}

/// Whether an object was held and was collected, or never comes.
fn is_gone(vector: &Vector, held: &Overlay, object: &Oid) -> bool
    ensures { result ≡ is_gone vector.now held.now object.now }
{
    covers_birth(vector, object) && !held.holds(object)
}

/// Whether an end of a link is dead or gone.
fn is_lost_end(vector: &Vector, held: &Overlay, object: &Oid) -> bool
    ensures { result ≡ is_lost_end vector.now held.now object.now }
{
    held.is_dead(object) || is_gone(vector, held, object)
}

/// Whether one of the ends of a link is dead or gone.
pub fn has_lost_end(vector: &Vector, held: &Overlay, link: &LinkKey) -> bool
    ensures { result
        ≡ (is_lost_end vector.now held.now link.now.from || is_lost_end vector.now held.now link.now.to) }
{
    is_lost_end(vector, held, &link.from) || is_lost_end(vector, held, &link.to)
}

/// Whether a row is above the one of its key, or there is none.
pub fn is_above(held: &Overlay, row: &Update) -> bool
    ensures { result ≡ is_above held.now row.now }
{
    match held.row(row.key()) {
        Some(own) => own.update().is_older(row),
        None => true,
    }
}
