//! Objects with their rows.

ghost use Rattle.std.specs.Prelude.{◌≡◌, ◌≤◌, IfOk};
ghost use Rattle.std.specs.List.{list_all};
ghost use Rattle.adr_wire.specs.Reading.{GivesAs, Tells};
ghost use Rattle.adr_model.specs.Write.{usn_limit};
ghost use Rattle.adr_wire.specs.Gathering.{is_refused_at};
ghost use Rattle.adr_image.specs.Image as form;

use crate::known::is_used;
use crate::rows::{Before, read_held_rows, with_held};
use adr_checks::Schema;
use adr_update::{CLASS, DELETED, NAME, USN_LIMIT};
use adr_values::{Content, Oid, Stamp};
use adr_wire::{Failure, Malformed, NoMemory, Reader, WireRefusal};
use std::alloc::{AllocError, Global};
use std::collections::BTreeSet;

/// A local USN, and the row.
pub type HeldRow = (u64, (u16, Stamp, Content));

/// Whether there is a row of this attribute.
pub fn has_attr(attr: u16, rows: &[HeldRow]) -> bool
    ensures { result ≡ form.has_attr attr rows.now }
{
    rows.iter().any(|row| row.1.0 == attr)
}

#[tactic(auto, using(std::proofs::lemmas::List::Sums::fold_more))]
/// The greatest local USN.
pub fn last_of(rows: &[HeldRow]) -> u64
    ensures { result ≡ form.last_of rows.now }
{
    let mut last = 0;
    for row in rows {
        last = last.max(row.0);
    }
    last
}

#[tactic(auto, using(std::proofs::lemmas::List::Sums::fold_more))]
fn told_by(rows: &[HeldRow]) -> Before
    ensures { result ≡ form.told_by rows.now }
{
    let mut before = Before {
        attr: None,
        class: None,
        dead: false,
    };
    for row in rows {
        before = with_held(before, row);
    }
    before
}

fn has_all(attrs: &[u16], rows: &[HeldRow]) -> bool
    ensures { result ≡ list_all (λ attr. form.has_attr attr rows.now) attrs.now }
{
    attrs.iter().all(|attr| has_attr(*attr, rows))
}

/// Whether all rows of an object are there, and its last local USN is its own.
pub fn is_whole(schema: &Schema, used: &BTreeSet<u64>, rows: &[HeldRow]) -> bool
    ensures { result ≡ form.is_whole schema.now used.now.keys rows.now }
{
    if !has_attr(CLASS, rows) {
        return false;
    }
    if !has_attr(NAME, rows) {
        return false;
    }
    if !has_attr(DELETED, rows) && !has_all(schema.must(told_by(rows).class.unwrap_or(0)), rows) {
        return false;
    }
    !is_used(used, last_of(rows))
}

/// The name of an object behind the last one.
fn read_next_oid(reader: &mut Reader<'_>, last: Option<Oid>) -> Result<Oid, WireRefusal>
    ensures { Tells result reader.new (form.named_at last reader.old) }
{
    let place = reader.place();
    let oid = reader.read_oid()?;
    if !last.as_ref().cmp(&Some(&oid)).is_lt() {
        return Err(Failure::Refused(Malformed { place }));
    }
    Ok(oid)
}

/// An object whose local USNs are at most `usn`.
#[tactic(auto, unfolding(crate::specs::Image::object_with))]
pub fn read_object_with(
    reader: &mut Reader<'_>,
    alloc: Global,
    usn: u64,
    schema: &Schema,
    last: Option<Oid>,
    used: &BTreeSet<u64>,
) -> Result<(Oid, Vec<HeldRow>), WireRefusal>
    ensures { GivesAs (λ object. (object.0, object.1.items)) result reader.new
        (form.object_with (form.local_at usn) schema.now
        (record { last = last; used = used.now.keys }) reader.old) }
{
    let place = reader.place();
    let oid = read_next_oid(reader, last)?;
    let count = reader.read_u16()?;
    let rows = read_held_rows(reader, alloc, usn, place, schema, &oid, count)?;
    if !is_whole(schema, used, &rows) {
        return Err(Failure::Refused(Malformed { place }));
    }
    Ok((oid, rows))
}

/// Whether a look at an object, with any local USN, is refused at its first byte.
fn is_refused_at_first(
    start: &Reader<'_>,
    alloc: Global,
    schema: &Schema,
    last: &Option<Oid>,
    used: &BTreeSet<u64>,
) -> Result<bool, NoMemory>
    ensures { IfOk result (λ b. b ≡ is_refused_at start.now.place
        (form.object_with (form.local_at usn_limit) schema.now
        (record { last = last.now; used = used.now.keys }) start.now)) }
{
    let place = start.place();
    let mut reader = start.again();
    match read_object_with(&mut reader, alloc, USN_LIMIT, schema, *last, used) {
        Ok(_) => Ok(false),
        Err(Failure::Refused(Malformed { place: fault })) => Ok(fault == place),
        Err(Failure::NoMemory) => Err(AllocError),
    }
}

/// An object. Where it is refused it is looked at again, with any local USN: a fault at its first byte comes first.
#[tactic(auto, unfolding(crate::specs::Image::object_at))]
pub fn read_object(
    reader: &mut Reader<'_>,
    alloc: Global,
    usn: u64,
    schema: &Schema,
    last: &Option<Oid>,
    used: &BTreeSet<u64>,
) -> Result<(Oid, Vec<HeldRow>), WireRefusal>
    requires { usn ≤ usn_limit }
    ensures { GivesAs (λ object. (object.0, object.1.items)) result reader.new
        (form.object_at usn schema.now (record { last = last.now; used = used.now.keys }) reader.old) }
{
    let start = reader.again();
    match read_object_with(reader, alloc, usn, schema, *last, used) {
        Ok(object) => Ok(object),
        Err(refusal) => {
            if is_refused_at_first(&start, alloc, schema, last, used)? {
                return Err(Failure::Refused(Malformed {
                    place: start.place(),
                }));
            }
            Err(refusal)
        }
    }
}
