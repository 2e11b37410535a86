//! Images are read.

ghost use Rattle.std.specs.Prelude.{◌≡◌, IfErr, IfOk};
ghost use Rattle.adr_wire.specs.Headed.{Ends, IsRefusedSo};
ghost use Rattle.adr_wire.specs.Reading.{Gives};
ghost use Rattle.adr_image.specs.Stored.{decoded, image_at, store_at};

use crate::contents::{Contents, read_contents};
use crate::dormant::Dormant;
use adr_wire::{DecodeRefusal, Failure, Reader, WireRefusal, malformed, open_known};
use std::alloc::Global;

/// The bytes with which an image begins.
pub const MAGIC: [u8; 4] = [65, 68, 73, 77];

/// The version of the images and of the bodies of records that are written.
pub const VERSION: u16 = 2;

/// All that stands behind the version of an image, to its end.
fn read_to_end(
    reader: &mut Reader<'_>,
    alloc: Global,
    version: u16,
) -> Result<Contents, WireRefusal>
    ensures { Ends result (store_at version reader.old) }
{
    let contents = read_contents(reader, alloc, version)?;
    reader.end()?;
    Ok(contents)
}

/// Reads an image of a version that stands in other bytes.
#[tactic(auto, unfolding(crate::specs::Stored::image_at))]
pub fn read_image(
    reader: &mut Reader<'_>,
    alloc: Global,
    version: u16,
) -> Result<Contents, WireRefusal>
    ensures { Gives result reader.new (image_at version reader.old) }
{
    reader.read_magic(&MAGIC)?;
    reader.read_format_version(version)?;
    let contents = read_contents(reader, alloc, version)?;
    Ok(contents)
}

/// What an image says.
fn read_whole(alloc: Global, bytes: &[u8]) -> Result<Contents, Failure<DecodeRefusal>>
    ensures read { IfOk result (λ contents. decoded bytes.now ≡ Ok contents) }
    ensures refused { IfErr result (IsRefusedSo (decoded bytes.now)) }
{
    let (version, mut reader) = open_known(bytes, &MAGIC)?;
    match read_to_end(&mut reader, alloc, version) {
        Ok(contents) => Ok(contents),
        Err(refusal) => Err(malformed(refusal)),
    }
}

/// Reads an image. `Malformed` names the first byte of the field, count, mark, row, object or link that breaks its form.
pub fn decode(alloc: Global, bytes: &[u8]) -> Result<Dormant, Failure<DecodeRefusal>>
    ensures read { IfOk result (λ image. decoded bytes.now ≡ Ok image) }
    ensures refused { IfErr result (IsRefusedSo (decoded bytes.now)) }
{
    match read_whole(alloc, bytes) {
        Ok(contents) => Ok(Dormant::of(contents)),
        Err(refusal) => Err(refusal),
    }
}
