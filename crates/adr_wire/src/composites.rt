//! Composites are read field by field.

ghost use Rattle.adr_wire.specs.Reading.{Gives, GivesAs, Tells};
ghost use Rattle.adr_wire.specs.Composites.{mark_at, ordered_mark_at, oid_at, stamp_at, value_at, content_at, object_at, link_key_at, link_stamp_at, link_at, vector_at};

use crate::reader::Reader;
use crate::refusal::{Malformed, WireRefusal};
use adr_values::{
    Birth, CURSOR_LIMIT, Content, Failure, LinkKey, LinkStamp, Mark, Oid, Stamp, Value, Vector,
};
use std::alloc::Global;

impl Reader<'_> {
    #[tactic(auto, unfolding(crate::specs::Composites::mark_at))]
    pub fn read_mark(&mut self) -> Result<Mark, WireRefusal>
        ensures { Tells result self.new (mark_at self.old) }
    {
        let obj = self.read_usn0()?;
        let prop = self.read_usn0()?;
        let seen = self.read_usn0()?;
        Ok(Mark { obj, prop, seen })
    }

    /// A mark whose numbers are in order.
    pub fn read_ordered_mark(&mut self) -> Result<Mark, WireRefusal>
        ensures { Tells result self.new (ordered_mark_at self.old) }
    {
        let place = self.place();
        let mark = self.read_mark()?;
        if mark.prop > mark.obj || mark.obj > mark.seen {
            return Err(Failure::Refused(Malformed { place }));
        }
        Ok(mark)
    }

    #[tactic(auto, unfolding(crate::specs::Composites::oid_at))]
    pub fn read_oid(&mut self) -> Result<Oid, WireRefusal>
        ensures { Tells result self.new (oid_at self.old) }
    {
        let guid = self.read_id()?;
        let inv = self.read_id()?;
        let usn = self.read_usn()?;
        Ok(Oid {
            guid,
            birth: Birth { inv, usn },
        })
    }

    #[tactic(auto, unfolding(crate::specs::Composites::stamp_at))]
    pub fn read_stamp(&mut self) -> Result<Stamp, WireRefusal>
        ensures { Tells result self.new (stamp_at self.old) }
    {
        let version = self.read_version()?;
        let time = self.read_u64()?;
        let inv = self.read_id()?;
        let usn = self.read_usn()?;
        Ok(Stamp {
            version,
            time,
            inv,
            usn,
        })
    }

    #[tactic(auto, unfolding(crate::specs::Composites::value_at))]
    pub fn read_value(&mut self, alloc: Global) -> Result<Value, WireRefusal>
        ensures { Gives result self.new (value_at self.old) }
    {
        let place = self.place();
        match self.read_u8()? {
            1 => self.read_text(alloc).map(Value::Text),
            2 => self.read_i64().map(Value::Number),
            3 => self.read_flag().map(Value::Flag),
            4 => self.read_octets(alloc).map(Value::Octets),
            5 => self.read_id().map(Value::Ref),
            _ => Err(Failure::Refused(Malformed { place })),
        }
    }

    /// The content of a row of this attribute.
    #[tactic(auto, unfolding(crate::specs::Composites::content_at))]
    pub fn read_content(&mut self, alloc: Global, attr: u16) -> Result<Content, WireRefusal>
        ensures { Gives result self.new (content_at attr self.old) }
    {
        match attr {
            1 => self.read_u16().map(Content::Class),
            2 => {
                let parent = self.read_id()?;
                let text = self.read_text(alloc)?;
                Ok(Content::Name { text, parent })
            }
            3 => Ok(Content::Dead),
            _ => {
                let count = self.read_u8()?;
                self.read_values(alloc, count).map(Content::Values)
            }
        }
    }

    /// An object item without its kind: a name, and at least one row, rising by attribute.
    #[tactic(auto, unfolding(crate::specs::Composites::object_at))]
    pub fn read_object(
        &mut self,
        alloc: Global,
    ) -> Result<(Oid, Vec<(u16, Stamp, Content)>), WireRefusal>
        ensures { GivesAs (λ object. (object.0, object.1.items)) result self.new (object_at self.old) }
    {
        let oid = self.read_oid()?;
        let place = self.place();
        let count = self.read_u16()?;
        if count == 0 {
            return Err(Failure::Refused(Malformed { place }));
        }
        let rows = self.read_rows(alloc, count)?;
        Ok((oid, rows))
    }

    #[tactic(auto, unfolding(crate::specs::Composites::link_key_at))]
    fn read_link_key(&mut self) -> Result<LinkKey, WireRefusal>
        ensures { Tells result self.new (link_key_at self.old) }
    {
        let from = self.read_oid()?;
        let attr = self.read_u16()?;
        let to = self.read_oid()?;
        Ok(LinkKey { from, attr, to })
    }

    #[tactic(auto, unfolding(crate::specs::Composites::link_stamp_at))]
    pub fn read_link_stamp(&mut self) -> Result<LinkStamp, WireRefusal>
        ensures { Tells result self.new (link_stamp_at self.old) }
    {
        let created = self.read_u64()?;
        let stamp = self.read_stamp()?;
        Ok(LinkStamp { created, stamp })
    }

    /// A link item without its kind: its name, its stamp, and whether it is present.
    #[tactic(auto, unfolding(crate::specs::Composites::link_at))]
    pub fn read_link(&mut self) -> Result<(LinkKey, LinkStamp, bool), WireRefusal>
        ensures { Tells result self.new (link_at self.old) }
    {
        let key = self.read_link_key()?;
        let stamp = self.read_link_stamp()?;
        let present = self.read_flag()?;
        Ok((key, stamp, present))
    }

    /// Cursors, rising by identifier, and no more than a vector has.
    #[tactic(auto, unfolding(crate::specs::Composites::vector_at))]
    pub fn read_vector(&mut self, alloc: Global) -> Result<Vector, WireRefusal>
        ensures { Gives result self.new (vector_at self.old) }
    {
        let place = self.place();
        let count = self.read_u32()?;
        if count as u64 > CURSOR_LIMIT {
            return Err(Failure::Refused(Malformed { place }));
        }
        let cursors = self.read_cursors(alloc, count)?;
        Ok(Vector::of(cursors))
    }
}
