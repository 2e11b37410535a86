//! Changes as the bodies of a journal's records.

ghost use Rattle.std.specs.Prelude.{◌≡◌, None, Some, IfOk, map};
ghost use Rattle.std.specs.Ordering.{nat_cmp};
ghost use Rattle.adr_law_lengths.specs.Written.{link_item, object_item, update_of};
ghost use Rattle.adr_change.specs.Mode.{mode_of};
ghost use Rattle.adr_model.specs.Update.{IsPresent, LinkOf};
ghost use Rattle.adr_wire.specs.Fields.{usn_at};
ghost use Rattle.adr_wire.specs.Pieces.{piece_at};
ghost use Rattle.adr_wire.specs.Composites.{link_at, object_at};
ghost use Rattle.adr_wire.specs.Reading.{GivesAs, Tells, TellsAs, is_above, where_at};
ghost use Rattle.adr_image.specs.Body as form;
ghost use Rattle.adr_image.specs.Changes.{change_of, decoded_change, item_of, mode_of_flag, written_of};
ghost use Rattle.adr_image.specs.Seen.{GivesSeen};

use crate::contents::read_schema;
use crate::decoding::VERSION;
use crate::links::LinkItem;
use crate::marks::read_kept;
use adr_change::{Change, Mode, PartnerMark};
use adr_checks::Schema;
use adr_update::{Item, Key, NoMemory, Said, Update, Written};
use adr_values::{Content, Guid, LinkStamp, Oid, Stamp, Unit};
use adr_wire::{Failure, Malformed, Reader, WireRefusal};
use std::alloc::{AllocError, Global};

/// A row: its attribute, its stamp and its content.
type Row = (u16, Stamp, Content);

/// A row of an object, as an update.
pub fn update_of(object: &Oid, row: Row) -> Update
    ensures { result ≡ update_of object.now row }
{
    let (attr, stamp, content) = row;
    Update::new(
        Key::Row {
            object: *object,
            attr,
        },
        LinkStamp { created: 0, stamp },
        Said::Holds(content),
    )
}

/// A link, as an update.
pub fn link_update(link: &LinkItem) -> Update
    ensures { result ≡ record { key = LinkOf link.now.0; stamp = link.now.1; said = IsPresent link.now.2 } }
{
    Update::new(Key::Link(link.0), link.1, Said::IsPresent(link.2))
}

/// An object with its rows, as an item.
fn read_object_item(reader: &mut Reader<'_>, alloc: Global) -> Result<Item, WireRefusal>
    ensures { GivesSeen (λ item x. item ≡ object_item x) result reader.new (object_at reader.old) }
{
    let (object, rows) = reader.read_object(alloc)?;
    let mut updates = Vec::new(alloc);
    for row in rows {
        updates.push(update_of(&object, row))?;
    }
    Ok(Item::new(Unit::Object(object), updates))
}

/// A link, as an item of its one row.
fn read_link_item(reader: &mut Reader<'_>, alloc: Global) -> Result<Item, WireRefusal>
    ensures { GivesSeen (λ item l. item ≡ link_item l) result reader.new (link_at reader.old) }
{
    let link = reader.read_link()?;
    let mut updates = Vec::new(alloc);
    updates.push(link_update(&link))?;
    Ok(Item::new(Unit::Link(link.0), updates))
}

/// An item behind its kind.
#[tactic(auto, unfolding(adr_wire::specs::Pieces::piece_at))]
pub fn read_item(reader: &mut Reader<'_>, alloc: Global) -> Result<Item, WireRefusal>
    ensures { GivesSeen (λ item p. item ≡ item_of p) result reader.new (piece_at reader.old) }
{
    let place = reader.place();
    match reader.read_u8()? {
        1 => read_object_item(reader, alloc),
        2 => read_link_item(reader, alloc),
        _ => Err(Failure::Refused(Malformed { place })),
    }
}

/// A local USN above the last one.
fn read_local_above(reader: &mut Reader<'_>, last: u64) -> Result<u64, WireRefusal>
    ensures { Tells result reader.new (where_at (is_above nat_cmp (Some last)) usn_at reader.old) }
{
    let place = reader.place();
    let local = reader.read_usn()?;
    if !last.cmp(&local).is_lt() {
        return Err(Failure::Refused(Malformed { place }));
    }
    Ok(local)
}

/// What is written under a local USN above the last one.
#[tactic(auto, unfolding(crate::specs::Body::write_above))]
fn read_write(reader: &mut Reader<'_>, alloc: Global, last: u64) -> Result<Written, WireRefusal>
    ensures { GivesSeen (λ write w. write ≡ written_of w) result reader.new (form.write_above (Some last) reader.old) }
{
    let local = read_local_above(reader, last)?;
    let item = read_item(reader, alloc)?;
    Ok(Written::new(local, item))
}

/// The writes of a change, rising by their local USNs from the one before.
#[tactic(auto, unfolding(crate::specs::Body::writes_at))]
fn read_writes(
    reader: &mut Reader<'_>,
    alloc: Global,
    before: u64,
) -> Result<Vec<Written>, WireRefusal>
    ensures { GivesSeen (λ writes ws. writes.items ≡ map written_of ws) result reader.new
        (form.writes_at before reader.old) }
{
    let count = reader.read_u32()?;
    let mut writes = Vec::new(alloc);
    let mut last = before;
    for _ in 0..count {
        let write = read_write(reader, alloc, last)?;
        last = write.local();
        writes.push(write)?;
    }
    Ok(writes)
}

/// The objects that a change removes.
#[tactic(auto, unfolding(crate::specs::Body::removed_at))]
fn read_removed(reader: &mut Reader<'_>, alloc: Global) -> Result<Vec<Oid>, WireRefusal>
    ensures { GivesAs (λ removed. removed.items) result reader.new (form.removed_at reader.old) }
{
    let count = reader.read_u32()?;
    let mut removed = Vec::new(alloc);
    for _ in 0..count {
        let object = reader.read_oid()?;
        removed.push(object)?;
    }
    Ok(removed)
}

/// The mark that a change keeps, if there is one.
#[tactic(auto, unfolding(adr_wire::specs::Optional::if_there_at))]
fn read_mark_if(reader: &mut Reader<'_>) -> Result<Option<(Guid, PartnerMark)>, WireRefusal>
    ensures { Tells result reader.new (form.mark_if_at reader.old) }
{
    if !reader.read_flag()? {
        return Ok(None);
    }
    let mark = read_kept(reader, None)?;
    Ok(Some(mark))
}

/// The mode after a change.
fn mode_of_flag(quarantined: bool) -> Mode
    ensures { mode_of result ≡ mode_of_flag quarantined }
{
    if quarantined {
        Mode::Quarantined
    } else {
        Mode::Normal
    }
}

/// The schema of a body, which in version 1 is that of the state.
#[tactic(auto, unfolding(crate::specs::Body::number_at))]
fn read_number(reader: &mut Reader<'_>, version: u16, schema: Schema) -> Result<Schema, WireRefusal>
    ensures { TellsAs (λ read. read.number) result reader.new (form.number_at version schema.number reader.old) }
{
    if version == 1 {
        return Ok(schema);
    }
    read_schema(reader, VERSION)
}

/// The body of a record of a version behind a controller's USN and under its schema, as a change.
#[tactic(auto, unfolding(crate::specs::Body::body_at))]
fn read_body(
    reader: &mut Reader<'_>,
    alloc: Global,
    version: u16,
    before: u64,
    schema: Schema,
) -> Result<Change, WireRefusal>
    ensures { GivesSeen (λ change b. change ≡ change_of b) result reader.new (form.body_at version before schema.number reader.old) }
{
    let usn = reader.read_usn0()?;
    let quarantined = reader.read_flag()?;
    let schema = read_number(reader, version, schema)?;
    let mark = read_mark_if(reader)?;
    let (joined, times) = reader.read_timed(alloc, version)?;
    let purged = reader.read_vector(alloc)?;
    let removed = read_removed(reader, alloc)?;
    let writes = read_writes(reader, alloc, before)?;
    let mode = mode_of_flag(quarantined);
    Ok(Change::new(
        usn, mode, schema, mark, joined, times, purged, removed, writes,
    ))
}

/// The change that bytes say to a controller of this USN and this schema, if they are the body of a record of the version.
pub fn decode_change(
    alloc: Global,
    version: u16,
    before: u64,
    schema: Schema,
    bytes: &[u8],
) -> Result<Option<Change>, NoMemory>
    ensures { IfOk result (λ change. change ≡ decoded_change version before schema.number bytes.now) }
{
    let mut reader = Reader::new(bytes);
    let change = match read_body(&mut reader, alloc, version, before, schema) {
        Ok(change) => change,
        Err(Failure::Refused(_)) => return Ok(None),
        Err(Failure::NoMemory) => return Err(AllocError),
    };
    if reader.end().is_err() {
        return Ok(None);
    }
    Ok(Some(change))
}
