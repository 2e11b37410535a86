//! Links, read one after the other.

ghost use Rattle.std.specs.Prelude.{◌≡◌, not, true, false};
ghost use Rattle.adr_values.specs.Table.{has};
ghost use Rattle.adr_model.specs.Live.{is_among};
ghost use Rattle.adr_wire.specs.Composites.{oid_at};
ghost use Rattle.adr_wire.specs.Fields.{u16_at};
ghost use Rattle.adr_wire.specs.Gathering.{is_refused_at};
ghost use Rattle.adr_wire.specs.Reading.{Tells, where_at, passing_at};
ghost use Rattle.adr_image.specs.Image as form;

use crate::known::{is_dead, is_used};
use crate::rows::read_local;
use adr_checks::Schema;
use adr_update::Held;
use adr_values::{LinkKey, LinkStamp, Oid};
use adr_wire::{Failure, Malformed, Reader, WireRefusal};
use std::collections::BTreeSet;

/// The name of a link, its stamp, and whether it is present.
pub type LinkItem = (LinkKey, LinkStamp, bool);

/// A local USN, and the link.
pub type HeldLink = (u64, LinkItem);

/// All rows that were read so far, and what they say of the next link: the last key, the last local USNs of earlier
/// units, and which objects are dead.
#[derive(Drop)]
pub struct Links {
    pub rows: Vec<Held>,
    pub last: Option<LinkKey>,
    pub used: BTreeSet<u64>,
    pub dead: BTreeSet<Oid>,
}

/// Whether a link may have this attribute: that of a forward link, or any.
fn passes(schema: &Schema, any: bool, attr: u16) -> bool
    ensures { result ≡ form.passes schema.now any attr }
{
    any || schema.check_link_row(attr).is_ok()
}

/// The attribute of a link.
fn read_attr(reader: &mut Reader<'_>, schema: &Schema, any: bool) -> Result<u16, WireRefusal>
    ensures { Tells result reader.new (where_at (form.passes schema.now any) u16_at reader.old) }
{
    let place = reader.place();
    let attr = reader.read_u16()?;
    if !passes(schema, any, attr) {
        return Err(Failure::Refused(Malformed { place }));
    }
    Ok(attr)
}

impl Links {
    /// The object that a link is from; one that is dead is a fault at `owner`, the link's first byte.
    fn read_from(&self, reader: &mut Reader<'_>, owner: u64) -> Result<Oid, WireRefusal>
        ensures { Tells result reader.new
            (passing_at owner (λ o. not (is_among self.now.dead.keys o)) oid_at reader.old) }
    {
        let oid = reader.read_oid()?;
        if is_dead(&self.dead, &oid) {
            return Err(Failure::Refused(Malformed { place: owner }));
        }
        Ok(oid)
    }

    /// The key of the link whose first byte is at `owner`.
    #[tactic(auto, unfolding(crate::specs::Image::key_with))]
    fn read_key(
        &self,
        reader: &mut Reader<'_>,
        owner: u64,
        schema: &Schema,
        any: bool,
    ) -> Result<LinkKey, WireRefusal>
        ensures { Tells result reader.new
            (form.key_with (form.passes schema.now any) owner self.now.dead.keys self.now.last reader.old) }
    {
        let from = self.read_from(reader, owner)?;
        let attr = read_attr(reader, schema, any)?;
        let to = reader.read_oid()?;
        let key = LinkKey { from, attr, to };
        if !self.last.cmp(&Some(key)).is_lt() {
            return Err(Failure::Refused(Malformed { place: owner }));
        }
        if is_dead(&self.dead, &key.to) {
            return Err(Failure::Refused(Malformed { place: owner }));
        }
        Ok(key)
    }

    /// A local USN that is not the last one of an earlier unit.
    fn read_own_local(&self, reader: &mut Reader<'_>, usn: u64) -> Result<u64, WireRefusal>
        ensures { Tells result reader.new
            (where_at (λ n. not (has self.now.used.keys n)) (form.local_at usn) reader.old) }
    {
        let place = reader.place();
        let local = read_local(reader, usn)?;
        if is_used(&self.used, local) {
            return Err(Failure::Refused(Malformed { place }));
        }
        Ok(local)
    }

    /// The local USN and the key of a link.
    #[tactic(auto, unfolding(crate::specs::Image::local_and_key))]
    fn read_local_and_key(
        &self,
        reader: &mut Reader<'_>,
        usn: u64,
        schema: &Schema,
        any: bool,
    ) -> Result<(u64, LinkKey), WireRefusal>
        ensures { Tells result reader.new
            (form.local_and_key (form.passes schema.now any) usn self.now.dead.keys
            (record { last = self.now.last; used = self.now.used.keys }) reader.old) }
    {
        let owner = reader.place();
        let local = self.read_own_local(reader, usn)?;
        let key = self.read_key(reader, owner, schema, any)?;
        Ok((local, key))
    }

    /// A link, all of whose fields are tested where they stand.
    #[tactic(auto, unfolding(crate::specs::Image::link_behind))]
    fn read_link_strictly(
        &self,
        reader: &mut Reader<'_>,
        usn: u64,
        schema: &Schema,
    ) -> Result<HeldLink, WireRefusal>
        ensures { Tells result reader.new
            (form.link_behind schema.now usn self.now.dead.keys
            (record { last = self.now.last; used = self.now.used.keys }) reader.old) }
    {
        let (local, key) = self.read_local_and_key(reader, usn, schema, false)?;
        let stamp = reader.read_link_stamp()?;
        let present = reader.read_flag()?;
        Ok((local, (key, stamp, present)))
    }

    /// Whether a look at a link, with any attribute, is refused at its first byte.
    fn is_refused_at_first(&self, start: &Reader<'_>, usn: u64, schema: &Schema) -> bool
        ensures { result ≡ is_refused_at start.now.place
            (form.local_and_key (λ _. true) usn self.now.dead.keys
            (record { last = self.now.last; used = self.now.used.keys }) start.now) }
    {
        let place = start.place();
        let mut reader = start.again();
        match self.read_local_and_key(&mut reader, usn, schema, true) {
            Ok(_) => false,
            Err(Failure::Refused(Malformed { place: fault })) => fault == place,
            Err(Failure::NoMemory) => false,
        }
    }

    /// A link. Where it is refused it is looked at again, with any attribute: a fault at its first byte comes first.
    #[tactic(auto, unfolding(crate::specs::Image::link_at))]
    pub fn read_link(
        &self,
        reader: &mut Reader<'_>,
        usn: u64,
        schema: &Schema,
    ) -> Result<HeldLink, WireRefusal>
        ensures { Tells result reader.new
            (form.link_at usn schema.now self.now.dead.keys
            (record { last = self.now.last; used = self.now.used.keys }) reader.old) }
    {
        let start = reader.again();
        let read = self.read_link_strictly(reader, usn, schema);
        if read.is_ok() {
            return read;
        }
        if self.is_refused_at_first(&start, usn, schema) {
            return Err(Failure::Refused(Malformed {
                place: start.place(),
            }));
        }
        read
    }
}
