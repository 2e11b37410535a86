//! What the name of an attribute stands for in an entry.

ghost use Rattle.std.specs.Prelude.{◌≡◌, ◌==◌, IfOk, map, option_map};
ghost use Rattle.std.specs.List.{find};
ghost use Rattle.std.specs.Option.{option_copied};
ghost use Rattle.std.specs.Str.{bytes_eq};
ghost use Rattle.adr_values.specs.Schemas.{newest};
ghost use Rattle.adr_search.specs.Fields.{field_among, field_lowered, field_named, lower_case, lowered};
ghost use Rattle.adr_search.specs.Match.{class_text};
ghost use Rattle.adr_search.specs.Rows.{class_row_of, class_rows_of, row_of, rows_of};

use adr_values::NoMemory;
use std::alloc::Global;

/// As what values are compared.
#[derive(Clone, Copy)]
pub enum Form {
    /// Texts, folded.
    Folded,
    Number,
    Flag,
    Bytes,
    Guid,
}

/// Where values stand in an entry. Attributes go by their numbers.
#[derive(Clone, Copy)]
pub enum Place {
    Class,
    Name,
    Values(u16),
    Links(u16),
}

/// A field of an entry.
#[derive(Clone, Copy)]
pub struct Field {
    pub place: Place,
    pub form: Form,
}

/// The name of an attribute in lower case, with its field, if it shows in an entry.
pub struct Row {
    name: &'static str,
    field: Option<Field>,
}

/// The attributes of the newest schema.
#[rattlefmt::skip]
static ROWS: [Row; 23] = [
    Row { name: "class", field: None },
    Row { name: "name", field: None },
    Row { name: "deleted", field: None },
    Row { name: "samaccountname", field: Some(Field { place: Place::Values(10), form: Form::Folded }) },
    Row { name: "displayname", field: Some(Field { place: Place::Values(11), form: Form::Folded }) },
    Row { name: "description", field: Some(Field { place: Place::Values(12), form: Form::Folded }) },
    Row { name: "mail", field: Some(Field { place: Place::Values(13), form: Form::Folded }) },
    Row { name: "telephonenumber", field: Some(Field { place: Place::Values(14), form: Form::Folded }) },
    Row { name: "employeenumber", field: Some(Field { place: Place::Values(15), form: Form::Number }) },
    Row { name: "disabled", field: Some(Field { place: Place::Values(16), form: Form::Flag }) },
    Row { name: "thumbprint", field: Some(Field { place: Place::Values(17), form: Form::Bytes }) },
    Row { name: "seealso", field: Some(Field { place: Place::Values(18), form: Form::Guid }) },
    Row { name: "grouptype", field: Some(Field { place: Place::Values(19), form: Form::Number }) },
    Row { name: "location", field: Some(Field { place: Place::Values(20), form: Form::Folded }) },
    Row { name: "title", field: Some(Field { place: Place::Values(21), form: Form::Folded }) },
    Row { name: "department", field: Some(Field { place: Place::Values(22), form: Form::Folded }) },
    Row { name: "accountexpires", field: Some(Field { place: Place::Values(23), form: Form::Number }) },
    Row { name: "member", field: Some(Field { place: Place::Links(30), form: Form::Guid }) },
    Row { name: "memberof", field: Some(Field { place: Place::Links(31), form: Form::Guid }) },
    Row { name: "manager", field: Some(Field { place: Place::Links(32), form: Form::Guid }) },
    Row { name: "directreports", field: Some(Field { place: Place::Links(33), form: Form::Guid }) },
    Row { name: "managedby", field: Some(Field { place: Place::Links(34), form: Form::Guid }) },
    Row { name: "managedobjects", field: Some(Field { place: Place::Links(35), form: Form::Guid }) },
];

fn rows() -> &'static [Row]
    ensures { map row_of result.now ≡ rows_of newest.attributes }
{
    &ROWS
}

/// A class by its number.
pub struct ClassRow {
    number: u16,
    name: &'static str,
}

/// The classes of the newest schema.
#[rattlefmt::skip]
static CLASSES: [ClassRow; 6] = [
    ClassRow { number: 3, name: "organizationalUnit" },
    ClassRow { number: 4, name: "container" },
    ClassRow { number: 5, name: "user" },
    ClassRow { number: 6, name: "group" },
    ClassRow { number: 7, name: "computer" },
    ClassRow { number: 8, name: "contact" },
];

fn classes() -> &'static [ClassRow]
    ensures { map class_row_of result.now ≡ class_rows_of newest.classes }
{
    &CLASSES
}

fn class_among(rows: &'static [ClassRow], class: u16) -> Option<&'static ClassRow>
    ensures { option_map class_row_of (option_copied result) ≡ find (λ r. r.0 == class) (map class_row_of rows.now) }
{
    for row in rows {
        if row.number == class {
            return Some(row);
        }
    }
    None
}

/// The name of a class; of one that the schema doesn't have, no bytes.
pub fn class_text(class: u16) -> &'static str
    ensures { result.now ≡ class_text class }
{
    match class_among(classes(), class) {
        Some(row) => row.name,
        None => "",
    }
}

/// The byte, or the lower-case letter of an upper-case one of ASCII.
fn lower_case(byte: u8) -> u8
    ensures { result ≡ lower_case byte }
{
    if 65 <= byte && byte <= 90 {
        byte + 32
    } else {
        byte
    }
}

fn lowered(alloc: Global, name: &[u8]) -> Result<Vec<u8>, NoMemory>
    ensures { IfOk result (λ low. low.items ≡ lowered name.now) }
{
    let mut low = Vec::with_capacity(alloc, name.len())?;
    for byte in name {
        low.push(lower_case(*byte))?;
    }
    Ok(low)
}

fn row_among(rows: &'static [Row], low: &[u8]) -> Option<&'static Row>
    ensures { option_map row_of (option_copied result) ≡ find (λ r. bytes_eq r.0 low.now) (map row_of rows.now) }
{
    for row in rows {
        if row.name.as_bytes() == low {
            return Some(row);
        }
    }
    None
}

/// The field of an attribute of the schema, by its name in lower case.
fn field_among(low: &[u8]) -> Option<Field>
    ensures { result ≡ field_among newest.attributes low.now }
{
    match row_among(rows(), low) {
        Some(row) => row.field,
        None => None,
    }
}

fn field_lowered(low: &[u8]) -> Option<Field>
    ensures { result ≡ field_lowered low.now }
{
    if low == b"class".as_slice() || low == b"objectclass".as_slice() {
        Some(Field {
            place: Place::Class,
            form: Form::Folded,
        })
    } else if low == b"name".as_slice() {
        Some(Field {
            place: Place::Name,
            form: Form::Folded,
        })
    } else {
        field_among(low)
    }
}

/// The field of a name, whose letters may be of either case.
pub fn field_named(alloc: Global, name: &[u8]) -> Result<Option<Field>, NoMemory>
    ensures { IfOk result (λ field. field ≡ field_named name.now) }
{
    let low = lowered(alloc, name)?;
    Ok(field_lowered(low.as_slice()))
}
