//! An image of two objects and a link in both versions, byte for byte, and changes of one byte of it.

use adr_change::{Change, Mode};
use adr_checks::Schema;
use adr_image::{DecodeRefusal, Failure, decode, decode_change, encode_change};
use adr_values::{Times, Vector};
use std::alloc::Global;
use std::test::Fail;

const ROOT: &[u8] = &[0, 0, 0, 0, 0, 0, 0, 0, 0, 0, 0, 0, 0, 0, 0, 0x01];

const G: &[u8] = &[0, 0, 0, 0, 0, 0, 0, 0, 0, 0, 0, 0, 0, 0, 0, 0x10];

const H: &[u8] = &[0, 0, 0, 0, 0, 0, 0, 0, 0, 0, 0, 0, 0, 0, 0, 0x11];

const A: &[u8] = &[0, 0, 0, 0, 0, 0, 0, 0, 0, 0, 0, 0, 0, 0, 0, 0xa0];

const B: &[u8] = &[0, 0, 0, 0, 0, 0, 0, 0, 0, 0, 0, 0, 0, 0, 0, 0xb0];

const NONE: &[u8] = &[0, 0, 0, 0];

const ONE: &[u8] = &[0, 0, 0, 1];

const TWO: &[u8] = &[0, 0, 0, 2];

const LONG_0: &[u8] = &[0, 0, 0, 0, 0, 0, 0, 0];

const LONG_1: &[u8] = &[0, 0, 0, 0, 0, 0, 0, 1];

const LONG_2: &[u8] = &[0, 0, 0, 0, 0, 0, 0, 2];

const LONG_3: &[u8] = &[0, 0, 0, 0, 0, 0, 0, 3];

const LONG_5: &[u8] = &[0, 0, 0, 0, 0, 0, 0, 5];

/// What an image begins with, up to its cursor. The version is put in.
const FRONT: [&[u8]; 7] = [b"ADIM", &[0, 0], ONE, LONG_5, ONE, A, LONG_5];

/// Two containers, each named by a letter, and a link from the first to the second.
#[rattlefmt::skip]
const REST: [&[u8]; 55] = [
    NONE,
    ONE, B, A, LONG_3, LONG_2, LONG_5,
    TWO,
    G, A, LONG_1, &[0, 2],
    LONG_1, &[0, 1], ONE, LONG_0, A, LONG_1, &[0, 4],
    LONG_1, &[0, 2], ONE, LONG_0, A, LONG_1, ROOT, b"\0\x01x",
    H, A, LONG_2, &[0, 2],
    LONG_2, &[0, 1], ONE, LONG_0, A, LONG_2, &[0, 4],
    LONG_2, &[0, 2], ONE, LONG_0, A, LONG_2, ROOT, b"\0\x01y",
    ONE,
    LONG_3, G, A, LONG_1, &[0, 30], H, A, LONG_2,
];

/// When the link was made, its stamp, and that it is present.
const BEHIND: [&[u8]; 6] = [LONG_0, ONE, LONG_0, A, LONG_3, &[1]];

/// The place behind the cursor, where in version 2 its moment stands.
const MOMENT: usize = 46;

/// The image in a version, with these bytes behind the cursor.
fn image_with(alloc: Global, version: u8, moment: &[u8]) -> Result<Vec<u8>, Fail> {
    let mut bytes = FRONT.concat(alloc)?;
    put(&mut bytes, 5, version);
    bytes.extend_from_slice(moment)?;
    bytes.extend_from_slice(&REST.concat(alloc)?)?;
    bytes.extend_from_slice(&BEHIND.concat(alloc)?)?;
    Ok(bytes)
}

/// The image of version 1, and that of version 2 in which the incarnation was read whole at the time 3.
fn image(alloc: Global, version: u8) -> Result<Vec<u8>, Fail> {
    image_with(alloc, version, if version == 1 { &[] } else { LONG_3 })
}

/// A place of version 1 in another version.
fn place_in(version: u8, place: usize) -> usize {
    if version == 1 || place < MOMENT {
        return place;
    }
    place.saturating_add(8)
}

/// Puts a byte at a place, if there is one.
fn put(bytes: &mut [u8], at: usize, byte: u8) {
    if let Some(place) = bytes.get_mut(at) {
        *place = byte;
    }
}

/// How many rows an image has, and the image of what it says.
fn written_again(alloc: Global, bytes: &[u8]) -> Result<(usize, Vec<u8>), Fail> {
    let read = decode(alloc, bytes)?.into_contents();
    let written = read.encode(alloc)?;
    Ok((read.rows.len(), written))
}

#[test]
fn an_image_is_read_and_written_again(rt: HostRuntime) -> Result<(), Fail> {
    let bytes = image(rt.alloc(), 2)?;
    assert_eq!(rt; bytes.len(), 571);
    let (rows, written) = written_again(rt.alloc(), &bytes)?;
    assert_eq!(rt; (rows, written.as_slice()), (5, bytes.as_slice()));
    Ok(())
}

#[test]
fn an_image_of_version_1_is_written_in_version_2(rt: HostRuntime) -> Result<(), Fail> {
    let bytes = image(rt.alloc(), 1)?;
    assert_eq!(rt; bytes.len(), 563);
    let (rows, written) = written_again(rt.alloc(), &bytes)?;
    let without = image_with(rt.alloc(), 2, LONG_0)?;
    assert_eq!(rt; (rows, written.as_slice()), (5, without.as_slice()));
    Ok(())
}

/// A byte that is put at a place, and where the image is refused then, by the places of version 1.
#[rattlefmt::skip]
const REFUSED: &[(usize, u8, usize)] = &[
    (0, 0x42, 0), (9, 3, 6), (10, 0x80, 10), (18, 1, 18), (45, 0, 38),
    (93, 6, 86), (101, 4, 86), (111, 5, 110), (153, 0, 146),
    // rows: a local USN above the USN, an attribute out of order, a version of 0
    (163, 6, 156), (213, 1, 204), (169, 0, 166),
    // objects: an unknown class, another birth, a control byte in a name, a name that is not above the last one
    (203, 9, 114), (201, 2, 114), (268, 7, 114), (284, 0x0f, 269),
    // links: a local USN that is used, one above the USN, no forward link, no birth, a flag of 2
    (435, 1, 428), (435, 6, 428), (477, 31, 476), (475, 0, 468), (562, 2, 562),
    // too few links, and one too many
    (427, 2, 563), (427, 0, 428),
];

#[test]
fn an_image_is_refused_at_the_least_place(rt: HostRuntime) -> Result<(), Fail> {
    let alloc = rt.alloc();
    for version in [1, 2] {
        for (at, byte, place) in REFUSED {
            let mut bytes = image(alloc, version)?;
            put(&mut bytes, place_in(version, *at), *byte);
            let place = place_in(version, *place) as u64;
            let refused = Failure::Refused(DecodeRefusal::Malformed { place });
            assert_eq!(rt; decode(alloc, &bytes).err(), Some(refused));
        }
    }
    Ok(())
}

#[test]
fn the_second_schema_is_told_in_version_2_alone(rt: HostRuntime) -> Result<(), Fail> {
    let alloc = rt.alloc();
    let mut bytes = image(alloc, 1)?;
    put(&mut bytes, 9, 2);
    let refused = Failure::Refused(DecodeRefusal::Malformed { place: 6 });
    assert_eq!(rt; decode(alloc, &bytes).err(), Some(refused));
    let mut bytes = image(alloc, 2)?;
    put(&mut bytes, 9, 2);
    assert_eq!(rt;
        written_again(alloc, &bytes)?.1.as_slice(),
        bytes.as_slice()
    );
    Ok(())
}

#[test]
fn of_two_faults_the_least_place_counts(rt: HostRuntime) -> Result<(), Fail> {
    let alloc = rt.alloc();
    let mut bytes = image(alloc, 1)?;
    put(&mut bytes, 163, 6);
    put(&mut bytes, 203, 9);
    let refused = Failure::Refused(DecodeRefusal::Malformed { place: 114 });
    assert_eq!(rt; decode(alloc, &bytes).err(), Some(refused));
    put(&mut bytes, 5, 3);
    let other = Failure::Refused(DecodeRefusal::WrongVersion { found: 3 });
    assert_eq!(rt; decode(alloc, &bytes).err(), Some(other));
    Ok(())
}

/// A change that writes a link under the USN 3: behind its mode, where in version 2 the number of the schema stands.
#[rattlefmt::skip]
const BODY: [&[u8]; 19] = [
    &[0], NONE, NONE, NONE, ONE,
    LONG_3, &[2], G, A, LONG_1, &[0, 30], H, A,
    LONG_2, LONG_0, ONE, LONG_0, A, LONG_3,
];

/// That change, with these bytes behind its mode.
fn body(alloc: Global, schema: &[u8]) -> Result<Vec<u8>, Fail> {
    let mut bytes = [LONG_3, &[0], schema].concat(alloc)?;
    bytes.extend_from_slice(&BODY.concat(alloc)?)?;
    bytes.push(1)?;
    Ok(bytes)
}

/// The USN and the number of writes of the change that bytes say, in a version, to a controller of this USN, under the first
/// schema.
fn change_read(
    alloc: Global,
    version: u16,
    before: u64,
    bytes: &[u8],
) -> Result<Option<(u64, usize)>, Fail> {
    let schema = Schema::new(1).ok_or("schema 1")?;
    match decode_change(alloc, version, before, schema, bytes)? {
        Some(change) => Ok(Some((change.usn(), change.writes().len()))),
        None => Ok(None),
    }
}

#[test]
fn a_change_is_read_behind_its_usn_in_its_version(rt: HostRuntime) -> Result<(), Fail> {
    let alloc = rt.alloc();
    let versions: [(u16, u16, &[u8]); 2] = [(1, 2, &[]), (2, 1, ONE)];
    for (version, other, number) in versions {
        let mut bytes = body(alloc, number)?;
        assert_eq!(rt; change_read(alloc, version, 2, &bytes)?, Some((3, 1)));
        assert_eq!(rt; change_read(alloc, other, 2, &bytes)?, None);
        assert_eq!(rt; change_read(alloc, version, 3, &bytes)?, None);
        bytes.push(0)?;
        assert_eq!(rt; change_read(alloc, version, 2, &bytes)?, None);
    }
    let of_no_schema = body(alloc, &[0, 0, 0, 3])?;
    assert_eq!(rt; change_read(alloc, 2, 2, &of_no_schema)?, None);
    Ok(())
}

/// A quarantine at the USN 5.
const QUARANTINE: [&[u8]; 8] = [LONG_5, &[1], ONE, &[0], NONE, NONE, NONE, NONE];

/// The bytes of the change that says so.
fn quarantine(alloc: Global) -> Result<Vec<u8>, Fail> {
    let (joined, times, purged) = (Vector::new(alloc), Times::new(alloc), Vector::new(alloc));
    let (removed, writes) = (Vec::new(alloc), Vec::new(alloc));
    let schema = Schema::new(1).ok_or("schema 1")?;
    let mode = Mode::Quarantined;
    let change = Change::new(
        5, mode, schema, None, joined, times, purged, removed, writes,
    );
    Ok(encode_change(alloc, &change)?)
}

#[test]
fn a_change_is_written_as_its_bytes(rt: HostRuntime) -> Result<(), Fail> {
    let bytes = quarantine(rt.alloc())?;
    assert_eq!(rt; bytes.as_slice(), QUARANTINE.concat(rt.alloc())?.as_slice());
    Ok(())
}
