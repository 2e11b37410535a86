//! Replies.

ghost use Rattle.std.specs.Prelude.{◌≡◌, ◌++◌, Ok, IfErr, IfOk, OnOk};
ghost use Rattle.std.specs.Option.{option_copied};
ghost use Rattle.adr_wire.specs.Reading.{Gives, GivesAs};
ghost use Rattle.adr_wire.specs.Headed.{Ends, IsRefusedSo};
ghost use Rattle.adr_packet.specs.Replies as form;

use crate::items::{read_items, write_items};
use crate::parts::{read_last, read_parties, read_reach, write_last, write_parties, write_reach};
use adr_cycle::{Item, NoMemory, Reply, Vector};
use adr_values::Times;
use adr_wire::{DecodeRefusal, Failure, Reader, WireRefusal, Writer, malformed, open_known};
use std::alloc::Global;

/// The bytes with which a reply begins.
const MAGIC: [u8; 4] = [65, 68, 82, 80];

/// The source's vector and its times, if nothing is left to send, and the items.
#[tactic(auto, unfolding(crate::specs::Replies::sent_at))]
fn read_sent(
    reader: &mut Reader<'_>,
    alloc: Global,
    version: u16,
) -> Result<(Option<(Vector, Times)>, Vec<Item>), WireRefusal>
    ensures { GivesAs (λ sent. (sent.0, sent.1.items)) result reader.new (form.sent_at version reader.old) }
{
    let last = read_last(reader, alloc, version)?;
    let items = read_items(reader, alloc)?;
    Ok((last, items))
}

/// The vector of the last reply, and its times.
fn parted(alloc: Global, told: Option<(Vector, Times)>) -> (Option<Vector>, Times)
    ensures { result ≡ (form.last_of told, form.times_of told) }
{
    match told {
        None => (None, Times::new(alloc)),
        Some((vector, times)) => (Some(vector), times),
    }
}

/// What stands behind the version of a reply.
#[tactic(auto, unfolding(crate::specs::Replies::reply_at, crate::specs::Replies::tuple_at))]
fn read_fields(reader: &mut Reader<'_>, alloc: Global, version: u16) -> Result<Reply, WireRefusal>
    ensures { Gives result reader.new (form.reply_at version reader.old) }
{
    let (dest, (source, inv)) = read_parties(reader)?;
    let (from, to) = read_reach(reader)?;
    let schema = reader.read_u32()?;
    let asked = reader.read_vector(alloc)?;
    let (told, items) = read_sent(reader, alloc, version)?;
    let (last, times) = parted(alloc, told);
    Ok(Reply::new(
        version, dest, source, inv, from, to, schema, asked, last, times, items,
    ))
}

/// What stands behind the version, to the end.
fn read_to_end(reader: &mut Reader<'_>, alloc: Global, version: u16) -> Result<Reply, WireRefusal>
    ensures { Ends result (form.reply_at version reader.old) }
{
    let reply = read_fields(reader, alloc, version)?;
    reader.end()?;
    Ok(reply)
}

/// Reads a reply of either version. `Malformed` names the first byte of the field, count, element or mark that breaks its form.
pub fn decode_reply(alloc: Global, bytes: &[u8]) -> Result<Reply, Failure<DecodeRefusal>>
    ensures read { IfOk result (λ reply. form.decoded_reply bytes.now ≡ Ok reply) }
    ensures refused { IfErr result (IsRefusedSo (form.decoded_reply bytes.now)) }
{
    let (version, mut reader) = open_known(bytes, &MAGIC)?;
    match read_to_end(&mut reader, alloc, version) {
        Ok(reply) => Ok(reply),
        Err(refusal) => Err(malformed(refusal)),
    }
}

/// Writes the source's vector and its times, if nothing is left to send, and the items.
fn write_sent(writer: &mut Writer, reply: &Reply) -> Result<(), NoMemory>
    requires { form.IsShortReply reply.now }
    ensures { OnOk result (writer.new ≡ writer.old ++ form.sent reply.now.version (form.told_in reply.now, reply.now.items)) }
{
    write_last(writer, reply.version(), reply.last(), reply.times())?;
    write_items(writer, reply.items())
}

/// Writes what stands behind the version of a reply.
fn write_fields(writer: &mut Writer, reply: &Reply) -> Result<(), NoMemory>
    requires { form.IsShortReply reply.now }
    ensures { OnOk result (writer.new ≡ writer.old ++ form.fields reply.now) }
{
    write_parties(writer, reply.dest(), reply.source(), reply.inv())?;
    write_reach(writer, reply.from(), reply.to())?;
    writer.write_u32(&reply.schema())?;
    writer.write_vector(reply.asked())?;
    write_sent(writer, reply)
}

/// The bytes of a reply, in its version.
pub fn encode_reply(alloc: Global, reply: &Reply) -> Result<Vec<u8>, NoMemory>
    requires { form.IsShortReply reply.now }
    ensures { IfOk result (λ bytes. bytes.items ≡ form.reply_bytes reply.now) }
{
    let mut writer = Writer::new(alloc);
    writer.write_head(&MAGIC, &reply.version())?;
    write_fields(&mut writer, reply)?;
    Ok(writer.into_bytes())
}
