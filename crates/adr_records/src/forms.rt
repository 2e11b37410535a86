//! What rows of an object that is formed may say.

ghost use Rattle.std.specs.Prelude.{◌≡◌};
ghost use Rattle.std.specs.List.{list_all};
ghost use Rattle.adr_values.specs.Table.{is_forward, kind_at};
ghost use Rattle.adr_model.specs.Take.{is_reserved_row};
ghost use Rattle.adr_update.specs.Said.{said_of};
ghost use Rattle.adr_law_calls.specs.Tested.{fits_class, is_class_known, says_allowed_name, says_dead};

use adr_checks::{Schema, check_name};
use adr_overlay::is_reserved;
use adr_update::{CLASS, Held, Key, NAME, Said, Update};
use adr_values::Content;

/// Whether a class is said, and the schema has it.
pub(crate) fn is_class_known(schema: Schema, class: Option<u16>) -> bool
    ensures { result ≡ is_class_known schema class }
{
    match class {
        Some(class) => schema.check_class(class).is_ok(),
        None => false,
    }
}

/// Whether links may stand under an attribute.
pub(crate) fn is_forward(schema: Schema, attr: u16) -> bool
    ensures { result ≡ is_forward (kind_at schema attr) }
{
    schema.check_link_row(attr).is_ok()
}

/// Whether a row says a name that is allowed.
pub(crate) fn says_allowed_name(said: &Said) -> bool
    ensures { result ≡ says_allowed_name (said_of said.now) }
{
    match said {
        Said::Holds(Content::Name { text, .. }) => check_name(text.as_str()).is_ok(),
        _ => false,
    }
}

/// Whether a row says that its object is dead.
pub(crate) fn says_dead(said: &Said) -> bool
    ensures { result ≡ says_dead (said_of said.now) }
{
    match said {
        Said::Holds(Content::Dead) => true,
        _ => false,
    }
}

/// Whether a live object of a class may have the row.
fn fits_class(schema: Schema, class: u16, row: &Update) -> bool
    ensures { result ≡ fits_class schema class row.now }
{
    match (row.key(), row.said()) {
        (Key::Row { attr, .. }, Said::Holds(Content::Values(values))) => {
            schema
                .check_values(Some(class), attr, values.items())
                .is_ok()
        }
        (Key::Row { attr, .. }, Said::Holds(Content::Class(_))) => attr == CLASS,
        (Key::Row { attr, .. }, Said::Holds(Content::Name { .. })) => attr == NAME,
        _ => false,
    }
}

/// Whether a live object of a class may have the rows.
pub(crate) fn all_fit(schema: Schema, class: u16, rows: &[&Held]) -> bool
    ensures { result ≡ list_all (λ row. fits_class schema class row.now.update) rows.now }
{
    for row in rows {
        if !fits_class(schema, class, row.update()) {
            return false;
        }
    }
    true
}

/// Whether rows are those that stay of a dead object.
pub(crate) fn all_reserved(rows: &[&Held]) -> bool
    ensures { result ≡ list_all (λ row. is_reserved_row row.now.update.key) rows.now }
{
    for row in rows {
        if !is_reserved(row.key()) {
            return false;
        }
    }
    true
}
