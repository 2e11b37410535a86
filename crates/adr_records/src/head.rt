//! The front of a log and its areas are written and read.

ghost use Rattle.std.specs.Prelude.{◌≡◌, ◌+◌, ◌≤◌, ◌<◌, ◌^◌, Ok, IfOk, IfErr, IfSome, OnOk, is_some, length, drop, nat_lt};
ghost use Rattle.adr_wire.specs.Reading.{Gives, Refuses, Rest, Tells, TellsAs};
ghost use Rattle.adr_model.specs.Lengths.{area_version, image_length, length_limit};
ghost use Rattle.adr_image.specs.Stored.{image_at};
ghost use Rattle.adr_wire.specs.Headed.{is_version};
ghost use Rattle.adr_records.specs.Head as form;
ghost use Rattle.adr_records.specs.HeadLaws.{IsOwn};
ghost use Rattle.adr_records.specs.Logged.{IsLogged};

use crate::contents::image_of;
use crate::waking::{unless_full, wake};
use adr_image::{Contents, read_image};
use adr_journal::{AreaRead, Owner};
use adr_state::State;
use adr_values::{Failure, Guid, NoMemory};
use adr_wire::{Malformed, Reader, WireRefusal, Writer};
use std::alloc::Global;

/// The bytes with which a log begins behind its first gate.
const MAGIC: [u8; 4] = [65, 68, 74, 76];

/// The version of the logs that are read and written.
const VERSION: u16 = 2;

/// The version of the areas that are written, and of their records. Those of version 1 are read too: they tell no times, and
/// their records no schema.
const AREA_VERSION: u16 = 2;

/// How many bytes of an area stand in front of its image: its version, and how many bytes the image has.
const IMAGE_OFFSET: usize = 6;

/// Whether areas of this version are read.
pub(crate) fn is_known(version: u16) -> bool
    ensures { result ≡ is_version version }
{
    version == 1 || version == AREA_VERSION
}

/// The front of a state's log.
pub(crate) fn write_front(alloc: Global, state: &State) -> Result<Vec<u8>, NoMemory>
    ensures { IfOk result (λ bytes. bytes.items ≡ form.front (state.now.dsa, state.now.inv)) }
{
    let mut writer = Writer::new(alloc);
    writer.write_bytes(&MAGIC)?;
    writer.write_u16(&VERSION)?;
    writer.write_id(&state.dsa())?;
    writer.write_id(&state.inv())?;
    Ok(writer.into_bytes())
}

/// An area of an image.
fn area_of(alloc: Global, image: &[u8]) -> Result<Vec<u8>, NoMemory>
    requires { length image.now < 2 ^ 32 }
    ensures { IfOk result (λ bytes. bytes.items ≡ form.area_of area_version image.now) }
{
    let mut writer = Writer::new(alloc);
    writer.write_u16(&AREA_VERSION)?;
    writer.write_u32(&(image.len() as u32))?;
    writer.write_bytes(image)?;
    Ok(writer.into_bytes())
}

/// A new area of a state without its closed gate, if a length of four bytes can say how long its image is.
pub(crate) fn write_area(alloc: Global, state: &State) -> Result<Option<Vec<u8>>, NoMemory>
    requires { IsLogged state.now }
    ensures bytes { IfOk result (λ area. IfSome area (λ bytes. bytes.items ≡ form.area state.now)) }
    ensures long { IfOk result (λ area. IfSome area (λ bytes.
        length bytes.items ≡ 6 + image_length state.now.store)) }
    ensures fits { IfOk result (λ area. is_some area ≡ nat_lt (image_length state.now.store) length_limit) }
{
    let image = image_of(alloc, state)?;
    if image.len() > u32::MAX as usize {
        return Ok(None);
    }
    Ok(Some(area_of(alloc, &image)?))
}

fn malformed(place: usize) -> WireRefusal
    ensures { result ≡ Failure.Refused (record { place = place }) }
{
    Failure::Refused(Malformed {
        place: place as u64,
    })
}

/// Whose log it is.
#[tactic(auto, unfolding(crate::specs::Head::front_at))]
fn read_owner(reader: &mut Reader<'_>) -> Result<Owner, WireRefusal>
    ensures { TellsAs (λ o. (o.dsa, o.inv)) result reader.new (form.front_at reader.old) }
{
    reader.read_magic(&MAGIC)?;
    reader.read_format_version(VERSION)?;
    let dsa = reader.read_id()?;
    let inv = reader.read_id()?;
    Ok(Owner { dsa, inv })
}

/// Whose log it is, from a file's bytes; the gate at its first byte isn't looked at.
pub(crate) fn read_front(bytes: &[u8]) -> Result<Owner, WireRefusal>
    ensures ok { IfOk result (λ o. form.front_at (record { place = 1; bytes = drop 1 bytes.now })
        ≡ Ok ((o.dsa, o.inv), record { place = 39; bytes = drop 39 bytes.now })) }
    ensures err { IfErr result (λ e. Refuses e (form.front_at (record { place = 1; bytes = drop 1 bytes.now }))) }
{
    if bytes.is_empty() {
        return Err(malformed(1));
    }
    let mut reader = Reader::at(bytes, 1);
    read_owner(&mut reader)
}

/// The version of the area at a place, which is one that is read, and how many bytes its image has.
#[tactic(auto, unfolding(crate::specs::Head::sized_at))]
fn read_sized(reader: &mut Reader<'_>) -> Result<(u16, u32), WireRefusal>
    ensures { Tells result reader.new (form.sized_at reader.old) }
{
    let version = reader.read_known_version()?;
    let len = reader.read_u32()?;
    Ok((version, len))
}

/// The version of the area at a place of a file, and how many bytes its image has.
fn read_sized_of(bytes: &[u8], place: usize) -> Result<(u16, u32), WireRefusal>
    requires { place ≤ length bytes.now }
    ensures sized { Tells result (record { place = place + 6; bytes = drop (place + 6) bytes.now })
        (form.sized_at (record { place = place; bytes = drop place bytes.now })) }
    ensures long { OnOk result (place + 6 ≤ length bytes.now) }
{
    let mut reader = Reader::at(bytes, place);
    read_sized(&mut reader)
}

/// What the image of a version at a place of a file says which has so many bytes, as far as they are there.
fn read_there(
    alloc: Global,
    bytes: &[u8],
    place: usize,
    version: u16,
    len: u32,
) -> Result<Contents, WireRefusal>
    requires { place ≤ length bytes.now }
    ensures read { IfOk result (λ contents. (r : Rest)
        × (form.within_at (image_at version) len (record { place = place; bytes = drop place bytes.now }) ≡ Ok (contents, r))) }
    ensures refused { IfErr result (λ e.
        Refuses e (form.within_at (image_at version) len (record { place = place; bytes = drop place bytes.now }))) }
{
    let end = (place + len as usize).min(bytes.len());
    let mut reader = Reader::at(&bytes[..end], place);
    let contents = read_image(&mut reader, alloc, version)?;
    reader.end()?;
    Ok(contents)
}

/// What the image of a version at a place of a file says, which has so many bytes.
fn read_framed(
    alloc: Global,
    bytes: &[u8],
    place: usize,
    version: u16,
    len: u32,
) -> Result<Contents, WireRefusal>
    requires { place ≤ length bytes.now }
    ensures { Gives result (record { place = place + len; bytes = drop (place + len) bytes.now })
        (form.framed_at (image_at version) len (record { place = place; bytes = drop place bytes.now })) }
{
    let contents = read_there(alloc, bytes, place, version, len)?;
    if bytes.len() < place + len as usize {
        drop(contents);
        return Err(malformed(bytes.len()));
    }
    Ok(contents)
}

/// What the image of a version in a log says, whose own cursor is its update sequence number.
fn read_own(
    alloc: Global,
    bytes: &[u8],
    place: usize,
    version: u16,
    len: u32,
    inv: Guid,
) -> Result<Contents, WireRefusal>
    requires { place ≤ length bytes.now }
    ensures { Gives result (record { place = place + len; bytes = drop (place + len) bytes.now })
        (form.own_image_at version inv len (record { place = place; bytes = drop place bytes.now })) }
{
    let contents = read_framed(alloc, bytes, place, version, len)?;
    if contents.vector.at(inv) != contents.usn {
        drop(contents);
        return Err(malformed(place));
    }
    Ok(contents)
}

/// A controller of a log's owner and of what an image in it says.
fn woken(alloc: Global, contents: Contents, owner: Owner) -> Result<State, NoMemory>
    requires { IsOwn owner.inv contents }
    ensures { IfOk result (λ state. state ≡ form.state_of (owner.dsa, owner.inv) contents) }
{
    unless_full(wake(alloc, contents, owner.dsa, owner.inv))
}

/// Reads the area at a place, in bytes, of a log of this owner.
pub(crate) fn read_area(
    alloc: Global,
    bytes: &[u8],
    place: usize,
    owner: Owner,
) -> Result<AreaRead, WireRefusal>
    requires { place ≤ length bytes.now }
    ensures ok { IfOk result (λ r.
        form.area_at (owner.dsa, owner.inv) (record { place = place; bytes = drop place bytes.now })
        ≡ Ok (record { version = r.version; state = r.state }, record { place = r.first; bytes = drop r.first bytes.now })) }
    ensures apart { IfOk result (λ r. place + 6 ≤ r.first) }
    ensures err { IfErr result (λ e.
        Refuses e (form.area_at (owner.dsa, owner.inv) (record { place = place; bytes = drop place bytes.now }))) }
{
    let sized = read_sized_of(bytes, place)?;
    let (version, len) = sized;
    let image = place + IMAGE_OFFSET;
    let contents = read_own(alloc, bytes, image, version, len, owner.inv)?;
    Ok(AreaRead {
        state: woken(alloc, contents, owner)?,
        first: image + len as usize,
        version,
    })
}
