//! What a vector covers.

ghost use Rattle.std.specs.Prelude.{◌≡◌};
ghost use Rattle.adr_model.specs.Visible.{covers_birth, covers_update};

use adr_update::Update;
use adr_values::{Oid, Vector};

/// Whether the vector has seen the write that made the update.
pub fn covers_update(vector: &Vector, update: &Update) -> bool
    ensures { result ≡ covers_update vector.now update.now }
{
    let stamp = update.stamp().stamp;
    vector.covers(stamp.inv, stamp.usn)
}

/// Whether it has seen the write that created the object.
pub fn covers_birth(vector: &Vector, object: &Oid) -> bool
    ensures { result ≡ covers_birth vector.now object.now }
{
    vector.covers(object.birth.inv, object.birth.usn)
}
