//! Requests.

ghost use Rattle.std.specs.Prelude.{◌≡◌, ◌++◌, Ok, IfErr, IfOk, OnOk};
ghost use Rattle.adr_wire.specs.Reading.{Gives, Tells};
ghost use Rattle.adr_wire.specs.Headed.{Ends, IsRefusedSo};
ghost use Rattle.adr_packet.specs.Requests as form;

use crate::parts::{read_parties, write_parties};
use adr_cycle::{NoMemory, Request};
use adr_wire::{
    DecodeRefusal, Failure, Malformed, Reader, WireRefusal, Writer, malformed, open_known,
};
use std::alloc::Global;

/// The bytes with which a request begins.
const MAGIC: [u8; 4] = [65, 68, 82, 81];

/// How many items a reply has at most.
fn read_max(reader: &mut Reader<'_>) -> Result<u32, WireRefusal>
    ensures { Tells result reader.new (form.max_at reader.old) }
{
    let place = reader.place();
    let max = reader.read_u32()?;
    if max == 0 {
        return Err(Failure::Refused(Malformed { place }));
    }
    Ok(max)
}

/// What stands behind the version of a request.
#[tactic(auto, unfolding(crate::specs::Requests::request_at, crate::specs::Requests::tuple_at))]
fn read_fields(reader: &mut Reader<'_>, alloc: Global, version: u16) -> Result<Request, WireRefusal>
    ensures { Gives result reader.new (form.request_at version reader.old) }
{
    let (dest, (source, inv)) = read_parties(reader)?;
    let mark = reader.read_mark()?;
    let schema = reader.read_u32()?;
    let max = read_max(reader)?;
    let vector = reader.read_vector(alloc)?;
    Ok(Request::new(version, dest, source, inv, mark, schema, max, vector))
}

/// What stands behind the version, to the end.
fn read_to_end(reader: &mut Reader<'_>, alloc: Global, version: u16) -> Result<Request, WireRefusal>
    ensures { Ends result (form.request_at version reader.old) }
{
    let request = read_fields(reader, alloc, version)?;
    reader.end()?;
    Ok(request)
}

/// Reads a request of either version. `Malformed` names the first byte of the field that breaks its form.
pub fn decode_request(alloc: Global, bytes: &[u8]) -> Result<Request, Failure<DecodeRefusal>>
    ensures read { IfOk result (λ request. form.decoded_request bytes.now ≡ Ok request) }
    ensures refused { IfErr result (IsRefusedSo (form.decoded_request bytes.now)) }
{
    let (version, mut reader) = open_known(bytes, &MAGIC)?;
    match read_to_end(&mut reader, alloc, version) {
        Ok(request) => Ok(request),
        Err(refusal) => Err(malformed(refusal)),
    }
}

/// Writes what stands behind the version of a request.
fn write_fields(writer: &mut Writer, request: &Request) -> Result<(), NoMemory>
    ensures { OnOk result (writer.new ≡ writer.old ++ form.fields request.now) }
{
    write_parties(writer, request.dest(), request.source(), request.inv())?;
    writer.write_mark(&request.mark())?;
    writer.write_u32(&request.schema())?;
    writer.write_u32(&request.max())?;
    writer.write_vector(request.vector())
}

/// The bytes of a request, in its version.
pub fn encode_request(alloc: Global, request: &Request) -> Result<Vec<u8>, NoMemory>
    ensures { IfOk result (λ bytes. bytes.items ≡ form.request_bytes request.now) }
{
    let mut writer = Writer::new(alloc);
    writer.write_head(&MAGIC, &request.version())?;
    write_fields(&mut writer, request)?;
    Ok(writer.into_bytes())
}
