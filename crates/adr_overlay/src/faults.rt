//! What is wrong with an item.

ghost use Rattle.std.specs.Prelude.{◌≡◌, filter, map, not, unwrap_or, if◌then◌else◌};
ghost use Rattle.std.specs.List.{list_any};
ghost use Rattle.std.specs.Result.{result_err};
ghost use Rattle.adr_values.specs.Table.{must_of};
ghost use Rattle.adr_values.specs.First.{first_of};
ghost use Rattle.adr_model.specs.Take.{broken, class_among, has_row, is_birth, is_reserved_row, lacks, row_fault};

use crate::keys::{class_among, has_row, is_reserved};
use adr_call::ItemFault;
use adr_checks::{Schema, check_name};
use adr_update::{CLASS, DELETED, Key, NAME, Said, Update, carries_birth};
use adr_values::{Content, Oid, SchemaRefusal};

/// Whether a class row carries the birth of its object.
pub fn is_birth(object: &Oid, row: &Update) -> bool
    ensures { result ≡ is_birth object.now row.now }
{
    carries_birth(object, &row.stamp().stamp)
}

fn broken(checked: Result<(), SchemaRefusal>) -> Option<ItemFault>
    ensures { result ≡ broken (result_err checked) }
{
    match checked {
        Ok(()) => None,
        Err(refusal) => Some(ItemFault::Schema(refusal)),
    }
}

/// What is wrong with a row of an object of this class, if the class is known.
fn row_fault(schema: Schema, class: Option<u16>, row: &Update) -> Option<ItemFault>
    ensures { result ≡ row_fault schema class row.now }
{
    match (row.key(), row.said()) {
        (Key::Row { object, .. }, Said::Holds(Content::Class(said))) => {
            if is_birth(&object, row) {
                broken(schema.check_class(*said))
            } else {
                Some(ItemFault::WrongBirth)
            }
        }
        (Key::Row { .. }, Said::Holds(Content::Name { text, .. })) => {
            broken(check_name(text.as_str()))
        }
        (Key::Row { .. }, Said::Holds(Content::Dead)) => None,
        (Key::Row { attr, .. }, Said::Holds(Content::Values(values))) => {
            broken(schema.check_values(class, attr, values.items()))
        }
        (Key::Row { .. }, Said::IsPresent(_)) => None,
        (Key::Link(link), _) => broken(schema.check_link_row(link.attr)),
    }
}

/// What is wrong with the first wrong one of the rows, or of the reserved ones among them.
pub fn first_fault(
    schema: Schema,
    class: Option<u16>,
    rows: &[Update],
    reserved_only: bool,
) -> Option<ItemFault>
    ensures { let looked_at = if reserved_only then filter (λ u. is_reserved_row u.key) rows.now else rows.now in
        result ≡ first_of (map (row_fault schema class) looked_at) }
{
    for row in rows {
        if !reserved_only || is_reserved(row.key()) {
            if let Some(fault) = row_fault(schema, class, row) {
                return Some(fault);
            }
        }
    }
    None
}

/// Whether a new object lacks its class or its name, or is alive and lacks what it must have.
pub fn lacks(schema: Schema, rows: &[Update]) -> bool
    ensures { result ≡ lacks schema rows.now }
{
    !has_row(CLASS, rows)
        || !has_row(NAME, rows)
        || (!has_row(DELETED, rows) && lacks_must(schema, rows))
}

/// Whether what objects of its class must have is missing.
fn lacks_must(schema: Schema, rows: &[Update]) -> bool
    ensures { result
        ≡ list_any (λ attr. not (has_row attr rows.now)) (must_of schema (unwrap_or (class_among rows.now) 0)) }
{
    for attr in schema.must(class_among(rows).unwrap_or(0)) {
        if !has_row(*attr, rows) {
            return true;
        }
    }
    false
}
