//! How far each partner was read.

ghost use Rattle.adr_wire.specs.Reading.{GivesAs, Tells};
ghost use Rattle.adr_image.specs.Image.{kept_above};
ghost use Rattle.adr_image.specs.Whole.{marks_at};

use adr_change::PartnerMark;
use adr_update::MARK_LIMIT;
use adr_values::Guid;
use adr_wire::{Failure, Malformed, Reader, WireRefusal};
use std::alloc::Global;

/// How far a partner behind the last one was read.
#[tactic(auto, unfolding(crate::specs::Image::kept_above))]
pub fn read_kept(
    reader: &mut Reader<'_>,
    last: Option<Guid>,
) -> Result<(Guid, PartnerMark), WireRefusal>
    ensures { Tells result reader.new (kept_above last reader.old) }
{
    let place = reader.place();
    let partner = reader.read_id()?;
    if !last.cmp(&Some(partner)).is_lt() {
        return Err(Failure::Refused(Malformed { place }));
    }
    let inv = reader.read_id()?;
    let mark = reader.read_ordered_mark()?;
    Ok((partner, PartnerMark::new(inv, mark)))
}

/// The marks of an image, rising by partner.
#[tactic(auto, unfolding(crate::specs::Whole::marks_at))]
pub fn read_marks(
    reader: &mut Reader<'_>,
    alloc: Global,
) -> Result<Vec<(Guid, PartnerMark)>, WireRefusal>
    ensures { GivesAs (λ marks. marks.items) result reader.new (marks_at reader.old) }
{
    let place = reader.place();
    let count = reader.read_u32()?;
    if count as u64 > MARK_LIMIT {
        return Err(Failure::Refused(Malformed { place }));
    }
    let mut marks = Vec::new(alloc);
    let mut last = None;
    for _ in 0..count {
        let (partner, kept) = read_kept(reader, last)?;
        last = Some(partner);
        marks.push((partner, kept))?;
    }
    Ok(marks)
}
