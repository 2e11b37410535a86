//! The rows of an object, read one after the other.

ghost use Rattle.std.specs.Prelude.{◌≡◌};
ghost use Rattle.adr_wire.specs.Reading.{Gives, GivesAs, Tells, gathered_at};
ghost use Rattle.adr_image.specs.Image as form;

use adr_checks::{Schema, check_name};
use adr_update::carries_birth;
use adr_values::{Content, Oid, Stamp};
use adr_wire::{Failure, Malformed, Reader, WireRefusal};
use std::alloc::Global;

/// What is known of an object from its rows so far: the last attribute, the class, and whether it is dead.
#[derive(Clone, Copy, Drop)]
pub struct Before {
    pub attr: Option<u16>,
    pub class: Option<u16>,
    pub dead: bool,
}

/// A local USN, at most the USN of the image.
#[tactic(auto, unfolding(crate::specs::Image::local_at))]
pub fn read_local(reader: &mut Reader<'_>, usn: u64) -> Result<u64, WireRefusal>
    ensures { Tells result reader.new (form.local_at usn reader.old) }
{
    let place = reader.place();
    let local = reader.read_usn()?;
    if local > usn {
        return Err(Failure::Refused(Malformed { place }));
    }
    Ok(local)
}

/// Whether the object may have this row behind those before it.
pub fn is_allowed(schema: &Schema, oid: &Oid, before: Before, row: &(u16, Stamp, Content)) -> bool
    ensures { result ≡ form.is_allowed schema.now oid.now before row.now }
{
    match &row.2 {
        Content::Class(class) => {
            schema.check_class(*class).is_ok() && carries_birth(oid, &row.1)
        }
        Content::Name { text, parent: _ } => check_name(text.as_str()).is_ok(),
        Content::Dead => true,
        Content::Values(values) => {
            !before.dead
                && row.0 >= 1
                && schema
                    .check_values(before.class, row.0, values.items())
                    .is_ok()
        }
    }
}

/// What is known with one more row.
pub fn with_held(before: Before, row: &(u64, (u16, Stamp, Content))) -> Before
    ensures { result ≡ form.with_held before row.now }
{
    let attr = Some(row.1.0);
    match &row.1.2 {
        Content::Class(class) => Before {
            attr,
            class: Some(*class),
            dead: before.dead,
        },
        Content::Name { text: _, parent: _ } => Before {
            attr,
            class: before.class,
            dead: before.dead,
        },
        Content::Dead => Before {
            attr,
            class: before.class,
            dead: true,
        },
        Content::Values(_) => Before {
            attr,
            class: before.class,
            dead: before.dead,
        },
    }
}

/// A row with its local USN. One that is out of order is a fault at its own first byte, and one that the object may not
/// have is a fault at `owner`, the object's first byte.
#[tactic(auto, unfolding(crate::specs::Image::held_row_at))]
pub fn read_held_row(
    reader: &mut Reader<'_>,
    alloc: Global,
    usn: u64,
    owner: u64,
    schema: &Schema,
    oid: &Oid,
    before: Before,
) -> Result<(u64, (u16, Stamp, Content)), WireRefusal>
    ensures { Gives result reader.new
        (form.held_row_at (form.local_at usn) owner schema.now oid.now before reader.old) }
{
    let place = reader.place();
    let local = read_local(reader, usn)?;
    let row = reader.read_row_after(alloc, place, before.attr)?;
    if !is_allowed(schema, oid, before, &row) {
        return Err(Failure::Refused(Malformed { place: owner }));
    }
    Ok((local, row))
}

/// So many rows of an object, each after those before it.
pub fn read_held_rows(
    reader: &mut Reader<'_>,
    alloc: Global,
    usn: u64,
    owner: u64,
    schema: &Schema,
    oid: &Oid,
    count: u16,
) -> Result<Vec<(u64, (u16, Stamp, Content))>, WireRefusal>
    ensures { GivesAs (λ rows. rows.items) result reader.new
        (gathered_at form.with_held (form.held_row_at (form.local_at usn) owner schema.now oid.now)
        count form.no_rows reader.old) }
{
    let mut rows = Vec::new(alloc);
    let mut before = Before {
        attr: None,
        class: None,
        dead: false,
    };
    for _ in 0..count {
        let row = read_held_row(reader, alloc, usn, owner, schema, oid, before)?;
        before = with_held(before, &row);
        rows.push(row)?;
    }
    Ok(rows)
}
