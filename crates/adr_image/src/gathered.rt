//! All objects of an image, and then all links.

ghost use Rattle.std.specs.Prelude.{◌≡◌, ◌∷◌, ◌++◌, ◌≤◌, [], List, OnOk, map};
ghost use Rattle.adr_model.specs.Write.{usn_limit};
ghost use Rattle.adr_wire.specs.Reading.{gathered_at};
ghost use Rattle.adr_image.specs.Image as form;
ghost use Rattle.adr_image.specs.Whole.{dead_of, links_at, no_links, objects_at};
ghost use Rattle.adr_image.specs.Seen.{GivesSeen, IsDeadToo, KeepsLinks, KeepsObjects};
ghost use Rattle.adr_image.specs.Stored.{held_of, link_of};

use crate::changes::{link_update, update_of};
use crate::links::{HeldLink, Links};
use crate::objects::{HeldRow, has_attr, last_of, read_object};
use adr_checks::Schema;
use adr_update::{DELETED, Held, LINK_LIMIT, NoMemory, OBJECT_LIMIT};
use adr_values::Oid;
use adr_wire::{Failure, Malformed, Reader, WireRefusal};
use std::alloc::Global;
use std::collections::BTreeSet;

/// The rows of all objects that were read so far, and what they say of the next object and of the links: the last name,
/// the last local USNs, and which objects are dead.
#[derive(Drop)]
pub struct Objects {
    pub rows: Vec<Held>,
    pub last: Option<Oid>,
    pub used: BTreeSet<u64>,
    pub dead: BTreeSet<Oid>,
}

/// A row of an object, as it is held.
fn held_row(object: &Oid, row: HeldRow) -> Held
    ensures { result ≡ held_of object.now row }
{
    let (local, row) = row;
    Held::new(update_of(object, row), local)
}

/// Adds the rows of an object to others.
fn push_rows(rows: &mut Vec<Held>, object: &Oid, own: Vec<HeldRow>) -> Result<(), NoMemory>
    ensures { OnOk result (rows.new.items ≡ rows.old.items ++ map (held_of object.now) own.items) }
{
    for row in own {
        rows.push(held_row(object, row))?;
    }
    Ok(())
}

/// Adds an object to the dead, if it is dead.
fn add_dead(dead: &mut BTreeSet<Oid>, object: &Oid, is_dead: bool) -> Result<(), NoMemory>
    ensures { OnOk result (IsDeadToo dead.old.keys dead.new.keys is_dead object.now) }
{
    if is_dead {
        dead.insert(*object)?;
    }
    Ok(())
}

impl Objects {
    fn new(alloc: Global) -> Objects
        ensures { KeepsObjects result [] }
    {
        Objects {
            rows: Vec::new(alloc),
            last: None,
            used: BTreeSet::new(alloc),
            dead: BTreeSet::new(alloc),
        }
    }

    /// With one more object.
    fn take(&mut self, object: &Oid, rows: Vec<HeldRow>) -> Result<(), NoMemory>
        ensures { OnOk result ((os : List form.Rows) → KeepsObjects self.old os
            → KeepsObjects self.new (os ++ (object.now, rows.items) ∷ [])) }
    {
        self.used.insert(last_of(&rows))?;
        add_dead(&mut self.dead, object, has_attr(DELETED, &rows))?;
        self.last = Some(*object);
        push_rows(&mut self.rows, object, rows)
    }
}

/// The objects of an image, one behind the other.
#[tactic(auto, unfolding(crate::specs::Whole::objects_at))]
pub fn read_objects(
    reader: &mut Reader<'_>,
    alloc: Global,
    usn: u64,
    schema: &Schema,
) -> Result<Objects, WireRefusal>
    requires { usn ≤ usn_limit }
    ensures { GivesSeen KeepsObjects result reader.new (objects_at usn schema.now reader.old) }
{
    let place = reader.place();
    let count = reader.read_u32()?;
    if count as u64 > OBJECT_LIMIT {
        return Err(Failure::Refused(Malformed { place }));
    }
    let mut objects = Objects::new(alloc);
    for _ in 0..count {
        let (object, rows) = read_object(reader, alloc, usn, schema, &objects.last, &objects.used)?;
        objects.take(&object, rows)?;
    }
    Ok(objects)
}

/// A link row, as it is held.
fn held_link(link: &HeldLink) -> Held
    ensures { result ≡ link_of link.now }
{
    Held::new(link_update(&link.1), link.0)
}

impl Links {
    /// All objects, and no link.
    fn behind(objects: Objects) -> Links
        ensures { (os : List form.Rows) → KeepsObjects objects os → KeepsLinks os result [] }
    {
        Links {
            rows: objects.rows,
            last: None,
            used: objects.used,
            dead: objects.dead,
        }
    }

    /// With one more link.
    fn take(&mut self, link: &HeldLink) -> Result<(), NoMemory>
        ensures { OnOk result ((os : List form.Rows) (ls : List form.HeldLink) → KeepsLinks os self.old ls
            → KeepsLinks os self.new (ls ++ link.now ∷ [])) }
    {
        self.used.insert(link.0)?;
        self.last = Some(link.1.0);
        self.rows.push(held_link(link))?;
        Ok(())
    }

    /// So many links, one behind the other.
    fn read_each(
        self,
        reader: &mut Reader<'_>,
        usn: u64,
        schema: &Schema,
        count: u32,
    ) -> Result<Links, WireRefusal>
        ensures { (os : List form.Rows) → KeepsLinks os self []
            → GivesSeen (KeepsLinks os) result reader.new
            (gathered_at form.with_link (form.link_at usn schema.now (dead_of os)) count (no_links os) reader.old) }
    {
        let mut links = self;
        for _ in 0..count {
            let link = links.read_link(reader, usn, schema)?;
            links.take(&link)?;
        }
        Ok(links)
    }
}

/// The links of an image, behind its objects.
#[tactic(auto, unfolding(crate::specs::Whole::links_at))]
pub fn read_links(
    reader: &mut Reader<'_>,
    usn: u64,
    schema: &Schema,
    objects: Objects,
) -> Result<Links, WireRefusal>
    ensures { (os : List form.Rows) → KeepsObjects objects os
        → GivesSeen (KeepsLinks os) result reader.new (links_at usn schema.now os reader.old) }
{
    let place = reader.place();
    let count = reader.read_u32()?;
    if count as u64 > LINK_LIMIT {
        return Err(Failure::Refused(Malformed { place }));
    }
    Links::behind(objects).read_each(reader, usn, schema, count)
}
