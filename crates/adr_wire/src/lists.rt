//! Lists are read element by element: memory is taken for what has been read, not for what a count promises.

ghost use Rattle.adr_wire.specs.Reading.{Gives, GivesAs, Tells};
ghost use Rattle.adr_wire.specs.Composites.{values_at, row_above, row_after, rows_at, cursor_above, cursors_at};

use crate::reader::Reader;
use crate::refusal::{Malformed, WireRefusal};
use adr_values::{Content, Failure, Guid, Stamp, Values};
use std::alloc::Global;

impl Reader<'_> {
    /// So many values.
    #[tactic(auto, unfolding(crate::specs::Composites::values_at))]
    pub fn read_values(&mut self, alloc: Global, count: u8) -> Result<Values, WireRefusal>
        ensures { Gives result self.new (values_at count self.old) }
    {
        let mut values = Vec::new(alloc);
        for _ in 0..count {
            let value = self.read_value(alloc)?;
            values.push(value)?;
        }
        Ok(Values::of(values))
    }

    /// A row whose attribute comes behind the last one, else a fault at `place`.
    #[tactic(auto, unfolding(crate::specs::Composites::row_after, crate::specs::Composites::row_of))]
    pub fn read_row_after(
        &mut self,
        alloc: Global,
        place: u64,
        last: Option<u16>,
    ) -> Result<(u16, Stamp, Content), WireRefusal>
        ensures { Gives result self.new (row_after place last self.old) }
    {
        let attr = self.read_u16()?;
        if !last.cmp(&Some(attr)).is_lt() {
            return Err(Failure::Refused(Malformed { place }));
        }
        let stamp = self.read_stamp()?;
        let content = self.read_content(alloc, attr)?;
        Ok((attr, stamp, content))
    }

    /// A row whose attribute comes behind the last one.
    #[tactic(auto, unfolding(crate::specs::Composites::row_above, crate::specs::Composites::row_after))]
    fn read_row_above(
        &mut self,
        alloc: Global,
        last: Option<u16>,
    ) -> Result<(u16, Stamp, Content), WireRefusal>
        ensures { Gives result self.new (row_above last self.old) }
    {
        let place = self.place();
        self.read_row_after(alloc, place, last)
    }

    /// So many rows, rising by attribute.
    #[tactic(auto, unfolding(crate::specs::Composites::rows_at))]
    pub fn read_rows(
        &mut self,
        alloc: Global,
        count: u16,
    ) -> Result<Vec<(u16, Stamp, Content)>, WireRefusal>
        ensures { GivesAs (λ rows. rows.items) result self.new (rows_at count None self.old) }
    {
        let mut rows = Vec::new(alloc);
        let mut last = None;
        for _ in 0..count {
            let row = self.read_row_above(alloc, last)?;
            last = Some(row.0);
            rows.push(row)?;
        }
        Ok(rows)
    }

    /// A cursor whose identifier comes behind the last one.
    #[tactic(auto, unfolding(crate::specs::Composites::cursor_above))]
    fn read_cursor_above(&mut self, last: Option<Guid>) -> Result<(Guid, u64), WireRefusal>
        ensures { Tells result self.new (cursor_above last self.old) }
    {
        let place = self.place();
        let inv = self.read_id()?;
        if !last.cmp(&Some(inv)).is_lt() {
            return Err(Failure::Refused(Malformed { place }));
        }
        let usn = self.read_usn()?;
        Ok((inv, usn))
    }

    /// So many cursors, rising by identifier.
    #[tactic(auto, unfolding(crate::specs::Composites::cursors_at))]
    pub fn read_cursors(
        &mut self,
        alloc: Global,
        count: u32,
    ) -> Result<Vec<(Guid, u64)>, WireRefusal>
        ensures { GivesAs (λ cursors. cursors.items) result self.new (cursors_at count None self.old) }
    {
        let mut cursors = Vec::new(alloc);
        let mut last = None;
        for _ in 0..count {
            let (inv, usn) = self.read_cursor_above(last)?;
            last = Some(inv);
            cursors.push((inv, usn))?;
        }
        Ok(cursors)
    }
}
