//! Which object of a GUID is live.

ghost use Rattle.std.specs.Prelude.{◌≡◌};
ghost use Rattle.std.specs.List.{list_any};
ghost use Rattle.std.specs.Option.{option_copied};
ghost use Rattle.adr_model.specs.Update.{is_death_of};
ghost use Rattle.adr_model.specs.Place.{row_at};
ghost use Rattle.adr_model.specs.Store.{updates_of};
ghost use Rattle.adr_update.specs.Key.{key_of};
ghost use Rattle.adr_update.specs.Referents.{referents};
ghost use Rattle.adr_state.specs.Alive.{beats, is_elder, is_live};

use adr_update::{Held, Key, Update, is_same};
use adr_values::Oid;

/// The first row of a key.
pub fn row_at<'a>(rows: &[&'a Held], key: &Key) -> Option<&'a Update>
    ensures { option_copied result ≡ row_at (updates_of (referents rows.now)) (key_of key.now) }
{
    for row in rows {
        if row.key().is_same(key) {
            return Some(row.update());
        }
    }
    None
}

/// Whether the object died.
fn is_dead(rows: &[&Held], object: &Oid) -> bool
    ensures { result ≡ list_any (is_death_of object.now) (updates_of (referents rows.now)) }
{
    row_at(rows, &Key::deleted(object)).is_some()
}

/// Whether the first object was born by the lesser stamp, or at equal stamps has the lesser birth.
fn is_elder(birth: &Update, object: &Oid, other_birth: &Update, other: &Oid) -> bool
    ensures { result ≡ is_elder birth.now.stamp object.now other_birth.now.stamp other.now }
{
    let by_stamp = birth.stamp().cmp(&other_birth.stamp());
    by_stamp.then(object.birth.cmp(&other.birth)).is_lt()
}

/// Whether an update gives birth to another object of the GUID that has not died and is the younger one.
fn beats(rows: &[&Held], birth: &Update, object: &Oid, update: &Update) -> bool
    ensures { result ≡ beats (updates_of (referents rows.now)) birth.now.stamp object.now update.now }
{
    match update.key().born() {
        Some(other) => {
            is_same(object.guid, other.guid)
                && is_elder(birth, object, update, &other)
                && !is_dead(rows, &other)
        }
        None => false,
    }
}

/// Whether an update gives birth to an object that beats this one.
fn is_beaten(rows: &[&Held], birth: &Update, object: &Oid) -> bool
    ensures { result
        ≡ list_any (beats (updates_of (referents rows.now)) birth.now.stamp object.now) (updates_of (referents rows.now)) }
{
    for row in rows {
        if beats(rows, birth, object, row.update()) {
            return true;
        }
    }
    false
}

/// Whether an object, with the update that gave birth to it, is live.
pub fn is_live(rows: &[&Held], birth: &Update, object: &Oid) -> bool
    ensures { result ≡ is_live (updates_of (referents rows.now)) birth.now.stamp object.now }
{
    !is_dead(rows, object) && !is_beaten(rows, birth, object)
}
