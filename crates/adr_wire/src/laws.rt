//! What is written is read again, and what is read was written so.

ghost use Rattle.std.specs.Prelude.{◌≡◌, ℕ, List, length};
ghost use Rattle.adr_wire.specs.Spelling.{IsSpelling};
ghost use Rattle.adr_wire.specs.Ranges as range;
ghost use Rattle.adr_wire.specs.Fields as field;
ghost use Rattle.adr_wire.specs.Composites as composite;
ghost use Rattle.adr_wire.specs.Pieces as pieces;
ghost use Rattle.adr_wire.specs.Timed as timed;

/// Each field has one spelling: it is read again whatever follows, and nothing else is read as it.
pub fn fields_have_one_spelling()
    ensures u8 { IsSpelling range.IsU8 field.u8 field.u8_at }
    ensures u16 { IsSpelling range.IsU16 field.u16 field.u16_at }
    ensures u32 { IsSpelling range.IsU32 field.u32 field.u32_at }
    ensures u64 { IsSpelling range.IsU64 field.u64 field.u64_at }
    ensures i64 { IsSpelling range.IsI64 field.i64 field.i64_at }
    ensures id { IsSpelling range.IsId field.id field.id_at }
    ensures flag { IsSpelling range.IsFlag field.flag field.flag_at }
    ensures usn { IsSpelling range.IsUsn field.u64 field.usn_at }
    ensures usn0 { IsSpelling range.IsUsn0 field.u64 field.usn0_at }
    ensures version { IsSpelling range.IsVersion field.u32 field.version_at }
    ensures text { IsSpelling range.IsText field.text field.text_at }
    ensures octets { IsSpelling range.IsOctets field.octets field.octets_at }
    ensures magic { (magic : List ℕ) → length magic ≡ 4
        → IsSpelling (λ found. found ≡ magic) (λ found. found) (field.magic_at magic) }
    ensures format_version { (version : ℕ) → range.IsU16 version
        → IsSpelling (λ found. found ≡ version) field.u16 (field.format_version_at version) }
{}

/// So has each composite. The spelling of a content is that of a row of its attribute. A vector with its times has one in
/// each version.
pub fn composites_have_one_spelling()
    ensures mark { IsSpelling range.IsMark composite.mark composite.mark_at }
    ensures ordered_mark { IsSpelling range.IsOrderedMark composite.mark composite.ordered_mark_at }
    ensures oid { IsSpelling range.IsOid composite.oid composite.oid_at }
    ensures stamp { IsSpelling range.IsStamp composite.stamp composite.stamp_at }
    ensures value { IsSpelling range.IsValue composite.value composite.value_at }
    ensures content { (attr : ℕ) → IsSpelling (range.IsContent attr) composite.content (composite.content_at attr) }
    ensures row { IsSpelling range.IsRow composite.row composite.row_at }
    ensures object { IsSpelling range.IsObject composite.object composite.object_at }
    ensures link { IsSpelling range.IsLink composite.link composite.link_at }
    ensures vector { IsSpelling range.IsCursors composite.vector composite.vector_at }
    ensures timed { (version : ℕ) → IsSpelling (timed.IsTimed version) (timed.timed version) (timed.timed_at version) }
{}

/// So has an object or a link behind the kind that says which.
pub fn pieces_have_one_spelling()
    ensures { IsSpelling pieces.IsPiece pieces.piece pieces.piece_at }
{}
