//! Bytes that come from outside, cut anywhere and turned at each place: they are refused where there are bytes, or read as
//! what they say.

use adr_image::decode;
use adr_packet::{
    DecodeRefusal, Failure, decode_refusal, decode_reply, decode_request, encode_refusal,
    encode_request,
};
use std::alloc::Global;
use std::process::Abort;
use std::test::Fail;

const NOBODY: &[u8] = &[0, 0, 0, 0, 0, 0, 0, 0, 0, 0, 0, 0, 0, 0, 0];

const NONE: &[u8] = &[0, 0, 0, 0];

const ONE: &[u8] = &[0, 0, 0, 1];

const LONG_0: &[u8] = &[0, 0, 0, 0, 0, 0, 0, 0];

const LONG_1: &[u8] = &[0, 0, 0, 0, 0, 0, 0, 1];

const LONG_7: &[u8] = &[0, 0, 0, 0, 0, 0, 0, 7];

/// A request of `#b0` to `#a0` for ten items, whose asker has seen one change of `#a1`.
#[rattlefmt::skip]
const REQUEST: [&[u8]; 15] = [
    b"ADRQ", &[0, 0], NOBODY, &[0xb0], NOBODY, &[0xa0], NOBODY, &[0xa1], LONG_1, LONG_1, LONG_1,
    ONE, &[0, 0, 0, 10], ONE, NOBODY,
];

const SEEN: [&[u8]; 2] = [&[0xa1], LONG_1];

/// A last reply of `#a0` to `#b0`, up to its source's vector.
#[rattlefmt::skip]
const REPLY: [&[u8]; 18] = [
    b"ADRP", &[0, 0], NOBODY, &[0xb0], NOBODY, &[0xa0], NOBODY, &[0xa1],
    LONG_0, LONG_0, LONG_0, LONG_1, LONG_1, LONG_1,
    ONE, NONE, &[1], ONE,
];

/// The one cursor of that vector.
const CURSOR: [&[u8]; 3] = [NOBODY, &[0xa1], LONG_1];

/// One item: a container that is named by a letter.
#[rattlefmt::skip]
const ITEM: [&[u8]; 25] = [
    ONE, &[1], NOBODY, &[0x10], NOBODY, &[0xa1], LONG_1, &[0, 2],
    &[0, 1], ONE, LONG_7, NOBODY, &[0xa1], LONG_1, &[0, 4],
    &[0, 2], ONE, LONG_7, NOBODY, &[0xa1], LONG_1, NOBODY, &[1], &[0, 1], b"x",
];

/// An image of that container in version 2, which was read whole at the time 7.
#[rattlefmt::skip]
const IMAGE: [&[u8]; 35] = [
    b"ADIM", &[0, 2], ONE, LONG_1,
    ONE, NOBODY, &[0xa1], LONG_1, LONG_7, NONE, NONE,
    ONE, NOBODY, &[0x10], NOBODY, &[0xa1], LONG_1, &[0, 2],
    LONG_1, &[0, 1], ONE, LONG_7, NOBODY, &[0xa1], LONG_1, &[0, 4],
    LONG_1, &[0, 2], ONE, LONG_7, NOBODY, &[0xa1], LONG_1, NOBODY, &[1],
];

const NAME_AND_NO_LINK: [&[u8]; 3] = [&[0, 1], b"x", NONE];

const REFUSAL: &[u8] = b"ADRF\x00\x01\x1f\x00\x00\x00\x01\x00\x00\x00\x02";

/// What bytes are read as.
#[derive(Clone, Copy)]
enum Kind {
    Image,
    Request,
    Reply,
    Refusal,
}

/// What became of bytes that were read as of a kind.
#[derive(Drop)]
enum Read {
    /// They were read, and these say it again. A reply isn't written again.
    Again(Option<Vec<u8>>),
    /// They were refused at this place. A version stands at 4.
    Refused(u64),
}

fn refused(refusal: Failure<DecodeRefusal>) -> Result<Read, Fail> {
    match refusal {
        Failure::Refused(DecodeRefusal::Malformed { place }) => Ok(Read::Refused(place)),
        Failure::Refused(DecodeRefusal::WrongVersion { .. }) => Ok(Read::Refused(4)),
        Failure::NoMemory => Err(Fail::from(refusal)),
    }
}

fn read_as(alloc: Global, kind: Kind, bytes: &[u8]) -> Result<Read, Fail> {
    let again = match kind {
        Kind::Image => match decode(alloc, bytes) {
            Ok(image) => Some(image.into_contents().encode(alloc)?),
            Err(refusal) => return refused(refusal),
        },
        Kind::Request => match decode_request(alloc, bytes) {
            Ok(request) => Some(encode_request(alloc, &request)?),
            Err(refusal) => return refused(refusal),
        },
        Kind::Reply => match decode_reply(alloc, bytes) {
            Ok(_) => None,
            Err(refusal) => return refused(refusal),
        },
        Kind::Refusal => match decode_refusal(bytes) {
            Ok(refusal) => Some(encode_refusal(alloc, &refusal)?),
            Err(refusal) => return refused(refusal),
        },
    };
    Ok(Read::Again(again))
}

/// Whether bytes are refused at a place that they have or end at, or are written again as they are.
fn is_right(alloc: Global, kind: Kind, bytes: &[u8]) -> Result<bool, Fail> {
    match read_as(alloc, kind, bytes)? {
        Read::Refused(place) => Ok(place <= bytes.len() as u64),
        Read::Again(Some(again)) => Ok(again.as_slice() == bytes),
        Read::Again(None) => Ok(true),
    }
}

/// Reads the bytes whole, each shorter front of them, the bytes with one more behind, and with each byte turned in three
/// ways.
fn attack(rt: &impl Abort, alloc: Global, kind: Kind, bytes: &mut Vec<u8>) -> Result<(), Fail> {
    let length = bytes.len();
    let whole = matches!(read_as(alloc, kind, bytes)?, Read::Again(_));
    assert!(rt; whole);
    for cut in 0..length {
        let front =
            matches!(read_as(alloc, kind, &bytes[..cut])?, Read::Refused(place) if place <= cut as u64);
        assert!(rt; front, "{cut} bytes");
    }
    for at in 0..length {
        let there = bytes[at];
        for turned in [0, 0xff, there ^ 1] {
            bytes[at] = turned;
            assert!(rt; is_right(alloc, kind, bytes)?, "{turned} at {at}");
        }
        bytes[at] = there;
    }
    bytes.push(0)?;
    let more =
        matches!(read_as(alloc, kind, bytes)?, Read::Refused(place) if place == length as u64);
    assert!(rt; more);
    Ok(())
}

/// The bytes of parts one behind the other, with this version.
fn versioned(alloc: Global, version: u8, parts: &[&[&[u8]]]) -> Result<Vec<u8>, Fail> {
    let mut bytes = Vec::new(alloc);
    for part in parts {
        bytes.extend_from_slice(&part.concat(alloc)?)?;
    }
    if let Some(place) = bytes.get_mut(5) {
        *place = version;
    }
    Ok(bytes)
}

#[test]
fn turned_images_are_refused_or_read(rt: HostRuntime) -> Result<(), Fail> {
    let mut bytes = versioned(rt.alloc(), 2, &[&IMAGE, &NAME_AND_NO_LINK])?;
    attack(&rt, rt.alloc(), Kind::Image, &mut bytes)
}

#[test]
fn turned_requests_are_refused_or_read(rt: HostRuntime) -> Result<(), Fail> {
    for version in [1, 2] {
        let mut bytes = versioned(rt.alloc(), version, &[&REQUEST, &SEEN])?;
        attack(&rt, rt.alloc(), Kind::Request, &mut bytes)?;
    }
    Ok(())
}

#[test]
fn turned_replies_are_refused_or_read(rt: HostRuntime) -> Result<(), Fail> {
    let mut first = versioned(rt.alloc(), 1, &[&REPLY, &CURSOR, &ITEM])?;
    attack(&rt, rt.alloc(), Kind::Reply, &mut first)?;
    let mut second = versioned(rt.alloc(), 2, &[&REPLY, &CURSOR, &[LONG_7], &ITEM])?;
    attack(&rt, rt.alloc(), Kind::Reply, &mut second)
}

#[test]
fn turned_refusals_are_refused_or_read(rt: HostRuntime) -> Result<(), Fail> {
    let mut bytes = versioned(rt.alloc(), 1, &[&[REFUSAL]])?;
    attack(&rt, rt.alloc(), Kind::Refusal, &mut bytes)
}
