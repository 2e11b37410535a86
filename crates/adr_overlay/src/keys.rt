//! Which rows are reserved, and which of an item's rows there are.

ghost use Rattle.std.specs.Prelude.{◌≡◌};
ghost use Rattle.std.specs.List.{find};
ghost use Rattle.std.specs.Option.{option_copied};
ghost use Rattle.adr_model.specs.Take.{class_among, class_said, has_row, is_of_attr, is_reserved_row};
ghost use Rattle.adr_update.specs.Key.{key_of};
ghost use Rattle.adr_update.specs.Said.{said_of};

use adr_update::{CLASS, DELETED, Key, Said, Update};
use adr_values::Content;

pub fn is_of_attr(attr: u16, key: Key) -> bool
    ensures { result ≡ is_of_attr attr (key_of key) }
{
    match key {
        Key::Row { attr: own, .. } => own == attr,
        Key::Link(_) => false,
    }
}

/// Whether it is a class, name or deleted row.
pub fn is_reserved(key: Key) -> bool
    ensures { result ≡ is_reserved_row (key_of key) }
{
    match key {
        Key::Row { attr, .. } => CLASS <= attr && attr <= DELETED,
        Key::Link(_) => false,
    }
}

pub fn has_row(attr: u16, rows: &[Update]) -> bool
    ensures { result ≡ has_row attr rows.now }
{
    first_row(attr, rows).is_some()
}

/// The class that a class row gives.
pub fn class_said(said: &Said) -> Option<u16>
    ensures { result ≡ class_said (said_of said.now) }
{
    match said {
        Said::Holds(Content::Class(class)) => Some(*class),
        _ => None,
    }
}

/// The first row of an attribute.
fn first_row(attr: u16, rows: &[Update]) -> Option<&Update>
    ensures { option_copied result ≡ find (λ u. is_of_attr attr u.key) rows.now }
{
    for row in rows {
        if is_of_attr(attr, row.key()) {
            return Some(row);
        }
    }
    None
}

/// The class that one of the rows gives.
pub fn class_among(rows: &[Update]) -> Option<u16>
    ensures { result ≡ class_among rows.now }
{
    match first_row(CLASS, rows) {
        Some(row) => class_said(row.said()),
        None => None,
    }
}
