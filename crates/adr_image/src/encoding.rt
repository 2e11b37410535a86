//! Images are written.

ghost use Rattle.std.specs.Prelude.{◌≡◌, ◌≤◌, ◌<◌, ◌++◌, All, OnOk, IfOk, length, drop};
ghost use Rattle.std.specs.List.{filter_map, flat_map};
ghost use Rattle.adr_model.specs.Formed.{IsFormedStore};
ghost use Rattle.adr_model.specs.Live.{born};
ghost use Rattle.adr_model.specs.Take.{mark_limit};
ghost use Rattle.adr_wire.specs.Fields.{u16};
ghost use Rattle.adr_update.specs.Key.{key_of};
ghost use Rattle.adr_update.specs.Referents.{referents};
ghost use Rattle.adr_update.specs.Said.{said_of};
ghost use Rattle.adr_image.specs.Image as form;
ghost use Rattle.adr_image.specs.Stored.{IsSpelled, apart, image};
ghost use Rattle.adr_image.specs.Whole as whole;
ghost use Rattle.adr_image.specs.Written.{HaveFewRows, IsShortSaid, IsWritable, IsWritten, first_object, held, next_object, own_rows, told};

use crate::contents::{Contents, ContentsRef};
use crate::decoding::{MAGIC, VERSION};
use adr_change::PartnerMark;
use adr_update::{Held, Key, NoMemory, Said};
use adr_values::{Guid, LinkStamp, Oid};
use adr_wire::Writer;
use std::alloc::Global;

/// Writes what a row says, behind its local USN.
pub fn write_told(
    writer: &mut Writer,
    key: &Key,
    stamp: &LinkStamp,
    said: &Said,
) -> Result<(), NoMemory>
    requires { IsShortSaid (said_of said.now) }
    ensures { OnOk result (writer.new ≡ writer.old ++ told (key_of key.now) stamp.now (said_of said.now)) }
{
    match (key, said) {
        (Key::Row { attr, .. }, Said::Holds(content)) => {
            writer.write_row_of(*attr, &stamp.stamp, content)
        }
        (Key::Link(link), Said::IsPresent(present)) => writer.write_link(&(
            *link, *stamp, *present,
        )),
        _ => Ok(()),
    }
}

/// Writes a row with its local USN.
fn write_held(writer: &mut Writer, row: &Held) -> Result<(), NoMemory>
    requires { IsShortSaid row.now.update.said }
    ensures { OnOk result (writer.new ≡ writer.old ++ held row.now) }
{
    writer.write_usn(&row.local())?;
    let update = row.update();
    write_told(writer, &update.key(), &update.stamp(), update.said())
}

/// Writes rows, one behind the other.
fn write_each(writer: &mut Writer, rows: &[&Held]) -> Result<(), NoMemory>
    requires { All (λ row. IsShortSaid row.now.update.said) rows.now }
    ensures { OnOk result (writer.new ≡ writer.old ++ flat_map held (referents rows.now)) }
{
    for row in rows {
        write_held(writer, row)?;
    }
    Ok(())
}

/// How many rows at the front are the object's.
fn own_rows(rows: &[&Held], object: &Oid) -> usize
    ensures value { result ≡ own_rows object.now (referents rows.now) }
    ensures within { result ≤ length rows.now }
{
    let mut own = 0;
    for row in rows {
        if !row.key().is_row_of(object) {
            return own;
        }
        own += 1;
    }
    own
}

/// The object of the first row.
fn first_object(rows: &[&Held]) -> Option<Oid>
    ensures { result ≡ first_object (referents rows.now) }
{
    match rows.first()?.key() {
        Key::Row { object, .. } => Some(object),
        Key::Link(_) => None,
    }
}

/// Writes the object at the front with its rows, and tells how many these are.
fn write_next_object(writer: &mut Writer, rows: &[&Held], object: &Oid) -> Result<usize, NoMemory>
    requires few { HaveFewRows (referents rows.now) }
    requires short { All (λ row. IsShortSaid row.now.update.said) rows.now }
    ensures written { OnOk result (writer.new ≡ writer.old ++ next_object object.now (referents rows.now)) }
    ensures own { IfOk result (λ own. own ≡ own_rows object.now (referents rows.now)) }
    ensures within { IfOk result (λ own. own ≤ length rows.now) }
{
    let own = own_rows(rows, object);
    writer.write_oid(object)?;
    writer.write_u16(&(own as u16))?;
    write_each(writer, &rows[..own])?;
    Ok(own)
}

/// Writes the objects at the front, one behind the other, and tells how many rows they have together.
fn write_objects(writer: &mut Writer, rows: &[&Held]) -> Result<usize, NoMemory>
    requires few { HaveFewRows (referents rows.now) }
    requires short { All (λ row. IsShortSaid row.now.update.said) rows.now }
    ensures written { IfOk result (λ done.
        IsWritten writer.old writer.new (referents rows.now) (referents (drop done rows.now))) }
    ensures within { IfOk result (λ done. done ≤ length rows.now) }
{
    let mut done = 0;
    'objects: while let Some(object) = first_object(&rows[done..]) {
        done += write_next_object(writer, &rows[done..], &object)?;
    }
    Ok(done)
}

/// How many objects are born by the rows.
fn births(rows: &[&Held]) -> usize
    ensures { result ≡ length (filter_map (λ row. born row.now.update.key) rows.now) }
{
    rows.iter().filter_map(|row| row.key().born()).count()
}

/// Writes all objects, and all links.
fn write_rows(writer: &mut Writer, rows: &[&Held]) -> Result<(), NoMemory>
    requires { IsWritable (referents rows.now) }
    ensures { OnOk result (writer.new
        ≡ writer.old
        ++ (whole.objects (apart (referents rows.now)).0 ++ whole.links (apart (referents rows.now)).1)) }
{
    writer.write_u32(&(births(rows) as u32))?;
    let done = write_objects(writer, rows)?;
    let links = &rows[done..];
    writer.write_u32(&(links.len() as u32))?;
    write_each(writer, links)
}

/// Writes how far a partner was read.
pub fn write_kept(writer: &mut Writer, mark: &(Guid, PartnerMark)) -> Result<(), NoMemory>
    ensures { OnOk result (writer.new ≡ writer.old ++ form.kept mark.now) }
{
    writer.write_id(&mark.0)?;
    writer.write_id(&mark.1.inv())?;
    writer.write_mark(&mark.1.mark())
}

/// Writes how far each partner was read.
fn write_marks(writer: &mut Writer, marks: &[(Guid, PartnerMark)]) -> Result<(), NoMemory>
    requires { length marks.now ≤ mark_limit }
    ensures { OnOk result (writer.new ≡ writer.old ++ whole.marks marks.now) }
{
    writer.write_u32(&(marks.len() as u32))?;
    for mark in marks {
        write_kept(writer, mark)?;
    }
    Ok(())
}

/// Writes the image of a database.
pub fn write_image(writer: &mut Writer, contents: &ContentsRef<'_>) -> Result<(), NoMemory>
    requires formed { IsFormedStore contents.now }
    requires spelled { IsSpelled contents.now }
    ensures { OnOk result (writer.new ≡ writer.old ++ image contents.now) }
{
    writer.write_head(&MAGIC, &VERSION)?;
    writer.write_u32(&contents.schema.number())?;
    writer.write_usn0(&contents.usn)?;
    writer.write_timed(VERSION, contents.vector, contents.times)?;
    writer.write_vector(contents.purged)?;
    write_marks(writer, contents.marks)?;
    write_rows(writer, contents.rows)
}

/// The image of a database.
pub fn encode(alloc: Global, contents: &ContentsRef<'_>) -> Result<Vec<u8>, NoMemory>
    requires formed { IsFormedStore contents.now }
    requires spelled { IsSpelled contents.now }
    ensures { IfOk result (λ bytes. bytes.items ≡ image contents.now) }
{
    let mut writer = Writer::new(alloc);
    write_image(&mut writer, contents)?;
    Ok(writer.into_bytes())
}

/// References to rows.
fn rows_of(alloc: Global, rows: &[Held]) -> Result<Vec<&Held>, NoMemory>
    ensures { IfOk result (λ references. referents references.items ≡ rows.now) }
{
    let mut references = Vec::new(alloc);
    for row in rows {
        references.push(row)?;
    }
    Ok(references)
}

impl Contents {
    /// The image of what was read.
    pub fn encode(&self, alloc: Global) -> Result<Vec<u8>, NoMemory>
        requires formed { IsFormedStore self.now }
        requires spelled { IsSpelled self.now }
        ensures { IfOk result (λ bytes. bytes.items ≡ image self.now) }
    {
        let rows = rows_of(alloc, &self.rows)?;
        let contents = ContentsRef {
            schema: self.schema,
            usn: self.usn,
            rows: rows.as_slice(),
            vector: &self.vector,
            times: &self.times,
            purged: &self.purged,
            marks: &self.marks,
        };
        encode(alloc, &contents)
    }
}
