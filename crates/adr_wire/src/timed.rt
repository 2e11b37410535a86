//! Vectors are read and written with the moments of their cursors, by the version of a format.

ghost use Rattle.std.specs.Prelude.{◌≡◌, [], ◌∷◌, ◌++◌, None, IfOk, OnOk};
ghost use Rattle.std.specs.List.{flat_map};
ghost use Rattle.adr_values.specs.Dated.{cursors_of, moments_of, with_moments};
ghost use Rattle.adr_values.specs.Vector.{IsVector};
ghost use Rattle.adr_wire.specs.Reading.{Gives, GivesAs, Tells};
ghost use Rattle.adr_wire.specs.Timed.{dated, dated_above, dated_at, timed, timed_at, vector2, vector2_at};

use crate::reader::Reader;
use crate::refusal::{Malformed, WireRefusal};
use crate::writer::Writer;
use adr_values::{CURSOR_LIMIT, Failure, Guid, NoMemory, Times, Vector};
use std::alloc::Global;

impl Reader<'_> {
    /// A vector and its times, in a version of the format. The first has vectors alone.
    pub fn read_timed(
        &mut self,
        alloc: Global,
        version: u16,
    ) -> Result<(Vector, Times), WireRefusal>
        ensures { Gives result self.new (timed_at version self.old) }
    {
        if version != 1 {
            return self.read_vector2(alloc);
        }
        let vector = self.read_vector(alloc)?;
        Ok((vector, Times::new(alloc)))
    }

    /// A vector of version 2, and its times.
    #[tactic(auto, unfolding(crate::specs::Timed::vector2_at, crate::specs::Timed::dated_vector_at))]
    fn read_vector2(&mut self, alloc: Global) -> Result<(Vector, Times), WireRefusal>
        ensures { Gives result self.new (vector2_at self.old) }
    {
        let place = self.place();
        let count = self.read_u32()?;
        if count as u64 > CURSOR_LIMIT {
            return Err(Failure::Refused(Malformed { place }));
        }
        let dated = self.read_dated(alloc, count)?;
        let cursors = cursors_of(alloc, &dated)?;
        let moments = moments_of(alloc, &dated)?;
        Ok((Vector::of(cursors), Times::of(moments)))
    }

    /// So many cursors with their moments, rising by identifier.
    #[tactic(auto, unfolding(crate::specs::Timed::dated_at))]
    fn read_dated(
        &mut self,
        alloc: Global,
        count: u32,
    ) -> Result<Vec<((Guid, u64), u64)>, WireRefusal>
        ensures { GivesAs (λ dated. dated.items) result self.new (dated_at count None self.old) }
    {
        let mut all = Vec::new(alloc);
        let mut last = None;
        for _ in 0..count {
            let (cursor, moment) = self.read_dated_above(last)?;
            last = Some(cursor.0);
            all.push((cursor, moment))?;
        }
        Ok(all)
    }

    /// A cursor whose identifier comes behind the last one, with its moment.
    #[tactic(auto, unfolding(crate::specs::Timed::dated_above))]
    fn read_dated_above(&mut self, last: Option<Guid>) -> Result<((Guid, u64), u64), WireRefusal>
        ensures { Tells result self.new (dated_above last self.old) }
    {
        let place = self.place();
        let inv = self.read_id()?;
        if !last.cmp(&Some(inv)).is_lt() {
            return Err(Failure::Refused(Malformed { place }));
        }
        let usn = self.read_usn()?;
        let moment = self.read_u64()?;
        Ok(((inv, usn), moment))
    }
}

/// The cursors alone.
fn cursors_of(alloc: Global, dated: &[((Guid, u64), u64)]) -> Result<Vec<(Guid, u64)>, NoMemory>
    ensures { IfOk result (λ cursors. cursors.items ≡ cursors_of dated.now) }
{
    let mut cursors = Vec::with_capacity(alloc, dated.len())?;
    for one in dated {
        cursors.push(one.0)?;
    }
    Ok(cursors)
}

/// The moments that are known.
fn moments_of(alloc: Global, dated: &[((Guid, u64), u64)]) -> Result<Vec<(Guid, u64)>, NoMemory>
    ensures { IfOk result (λ moments. moments.items ≡ moments_of dated.now) }
{
    let mut moments = Vec::new(alloc);
    for one in dated {
        push_moment(&mut moments, one)?;
    }
    Ok(moments)
}

/// One more moment, if it is known.
fn push_moment(moments: &mut Vec<(Guid, u64)>, one: &((Guid, u64), u64)) -> Result<(), NoMemory>
    ensures { OnOk result (moments.new.items ≡ moments.old.items ++ moments_of (one.now ∷ [])) }
{
    if one.1 > 0 {
        moments.push((one.0.0, one.1))?;
    }
    Ok(())
}

impl Writer {
    /// Writes a vector and its times, in a version of the format. The first has vectors alone.
    pub fn write_timed(
        &mut self,
        version: u16,
        vector: &Vector,
        times: &Times,
    ) -> Result<(), NoMemory>
        ensures { OnOk result (self.new ≡ self.old ++ timed version (vector.now, times.now)) }
    {
        if version != 1 {
            return self.write_vector2(vector, times);
        }
        self.write_vector(vector)
    }

    /// Writes a vector of version 2, with its times.
    fn write_vector2(&mut self, vector: &Vector, times: &Times) -> Result<(), NoMemory>
        ensures { OnOk result (self.new ≡ self.old ++ vector2 (vector.now, times.now)) }
    {
        let cursors = vector.cursors();
        self.write_u32(&(cursors.len() as u32))?;
        self.write_dated(cursors, times)
    }

    /// Cursors with the moments that are known of them, one behind the other. Both rise, and each is read once.
    fn write_dated(&mut self, cursors: &[(Guid, u64)], times: &Times) -> Result<(), NoMemory>
        requires { IsVector cursors.now }
        ensures { OnOk result (self.new ≡ self.old ++ flat_map dated (with_moments times.now cursors.now)) }
    {
        let mut moments = times.walk();
        for cursor in cursors {
            self.write_id(&cursor.0)?;
            self.write_usn(&cursor.1)?;
            self.write_u64(&moments.at(cursor.0))?;
        }
        Ok(())
    }
}
