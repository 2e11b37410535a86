//! Whether an image names an identifier.

ghost use Rattle.std.specs.Prelude.{◌≡◌, ◌||◌};
ghost use Rattle.adr_model.specs.Collect.{names_inv};
ghost use Rattle.adr_model.specs.Update.{inv_of, same_identifier};
ghost use Rattle.adr_update.specs.Key.{key_of};
ghost use Rattle.adr_model.specs.Naming.{cursors_name, key_names, marks_name, rows_name};

use crate::contents::Contents;
use adr_change::PartnerMark;
use adr_update::{Held, Key, is_same};
use adr_values::{Guid, Vector};

/// Whether a cursor is of the identifier.
fn cursors_name(vector: &Vector, inv: Guid) -> bool
    ensures { result ≡ cursors_name vector.now inv }
{
    vector.cursors().iter().any(|cursor| is_same(cursor.0, inv))
}

/// Whether an object of the key was born under the identifier.
fn key_names(key: &Key, inv: Guid) -> bool
    ensures { result ≡ key_names (key_of key.now) inv }
{
    match key {
        Key::Row { object, .. } => is_same(object.birth.inv, inv),
        Key::Link(link) => is_same(link.from.birth.inv, inv) || is_same(link.to.birth.inv, inv),
    }
}

/// Whether the stamp of a row or an object that it is of names the identifier.
fn row_names(row: &Held, inv: Guid) -> bool
    ensures { result ≡ (same_identifier (inv_of row.now.update) inv || key_names row.now.update.key inv) }
{
    is_same(row.update().stamp().stamp.inv, inv) || key_names(&row.key(), inv)
}

fn rows_name(rows: &[Held], inv: Guid) -> bool
    ensures { result ≡ rows_name rows.now inv }
{
    rows.iter().any(|row| row_names(row, inv))
}

/// Whether a mark is of the incarnation with the identifier.
fn marks_name(marks: &[(Guid, PartnerMark)], inv: Guid) -> bool
    ensures { result ≡ marks_name marks.now inv }
{
    marks.iter().any(|mark| is_same(mark.1.inv(), inv))
}

/// Whether a database names the identifier.
pub fn names_inv(contents: &Contents, inv: Guid) -> bool
    ensures { result ≡ names_inv contents.now inv }
{
    cursors_name(&contents.vector, inv)
        || cursors_name(&contents.purged, inv)
        || rows_name(&contents.rows, inv)
        || marks_name(&contents.marks, inv)
}
