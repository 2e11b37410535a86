//! Requests, replies and refusals as bytes, byte for byte, and requests and replies that are cut anywhere.

use adr_packet::{
    DecodeRefusal, Failure, Refusal, Reply, Request, ServeRefusal, decode_refusal, decode_reply,
    decode_request, encode_refusal, encode_request,
};
use adr_values::Guid;
use std::alloc::Global;
use std::test::Fail;

const NONE: &[u8] = &[0, 0, 0, 0, 0, 0, 0, 0, 0, 0, 0, 0, 0, 0, 0];

/// A first request to `#b0` from `#a0`: no mark, schema 1, at most ten items, an empty vector.
#[rattlefmt::skip]
const REQUEST: [&[u8]; 12] = [
    b"ADRQ", &[0, 1],
    NONE, &[0xb0], NONE, &[0xa0],
    NONE, NONE, &[0, 0, 0, 0, 0, 0, 0, 0, 0, 0],
    &[0, 0, 0, 1], &[0, 0, 0, 10], &[0, 0, 0, 0],
];

/// Where a cut request is refused: at the field that is cut.
const FIELDS: [u64; 12] = [0, 4, 6, 22, 38, 54, 62, 70, 78, 82, 86, 90];

fn field_at(fields: &[u64], place: usize) -> u64 {
    let mut last = 0;
    for field in fields {
        if *field <= place as u64 {
            last = *field;
        }
    }
    last
}

fn place_of_fault(alloc: Global, bytes: &[u8]) -> Option<u64> {
    match decode_request(alloc, bytes) {
        Err(Failure::Refused(DecodeRefusal::Malformed { place })) => Some(place),
        _ => None,
    }
}

#[test]
fn a_request_is_read_and_written_again(rt: HostRuntime) -> Result<(), Fail> {
    let bytes = REQUEST.concat(rt.alloc())?;
    assert_eq!(rt; bytes.len(), 90);
    let request = decode_request(rt.alloc(), &bytes)?;
    assert_eq!(rt; encode_request(rt.alloc(), &request)?, bytes);
    for length in 0..90 {
        assert_eq!(rt;
            place_of_fault(rt.alloc(), &bytes[..length]),
            Some(field_at(&FIELDS, length)),
            "{length} bytes"
        );
    }
    Ok(())
}

#[test]
fn a_request_of_version_2_has_the_same_fields(rt: HostRuntime) -> Result<(), Fail> {
    let mut bytes = REQUEST.concat(rt.alloc())?;
    assert_eq!(rt; bytes.len(), 90);
    bytes[5] = 2;
    let request = decode_request(rt.alloc(), &bytes)?;
    assert_eq!(rt; request.version(), 2);
    assert_eq!(rt; encode_request(rt.alloc(), &request)?, bytes);
    assert_eq!(rt; bytes.len(), 90);
    bytes[5] = 3;
    assert!(rt; is_of_version_3(decode_request(rt.alloc(), &bytes)));
    Ok(())
}

/// The last reply of `#a0` to `#b0`, from the beginning of `#a1` to 2, in either version: no items, and one cursor.
#[rattlefmt::skip]
const REPLY: [&[u8]; 21] = [
    b"ADRP", &[0, 1],
    NONE, &[0xb0], NONE, &[0xa0], NONE, &[0xa1],
    NONE, &[0, 0, 0, 0, 0, 0, 0, 0, 0],
    &[0, 0, 0, 0, 0, 0, 0, 2], &[0, 0, 0, 0, 0, 0, 0, 2], &[0, 0, 0, 0, 0, 0, 0, 2],
    &[0, 0, 0, 1], &[0, 0, 0, 0],
    &[1], &[0, 0, 0, 1], NONE, &[0xa1], &[0, 0, 0, 0, 0, 0, 0, 2],
    &[0, 0, 0, 0],
];

/// In version 2 the cursor has a time, here 20.
#[rattlefmt::skip]
const TIMED_REPLY: [&[u8]; 22] = [
    b"ADRP", &[0, 2],
    NONE, &[0xb0], NONE, &[0xa0], NONE, &[0xa1],
    NONE, &[0, 0, 0, 0, 0, 0, 0, 0, 0],
    &[0, 0, 0, 0, 0, 0, 0, 2], &[0, 0, 0, 0, 0, 0, 0, 2], &[0, 0, 0, 0, 0, 0, 0, 2],
    &[0, 0, 0, 1], &[0, 0, 0, 0],
    &[1], &[0, 0, 0, 1], NONE, &[0xa1], &[0, 0, 0, 0, 0, 0, 0, 2], &[0, 0, 0, 0, 0, 0, 0, 20],
    &[0, 0, 0, 0],
];

/// Where a cut reply is refused: at the field that is cut. The last field of version 1 begins where the time of version 2 does.
const REPLY_FIELDS: [u64; 19] = [
    0, 4, 6, 22, 38, 54, 62, 70, 78, 86, 94, 102, 106, 110, 111, 115, 131, 139, 147,
];

fn is_of_version_3(read: Result<Request, Failure<DecodeRefusal>>) -> bool {
    match read {
        Err(Failure::Refused(DecodeRefusal::WrongVersion { found })) => found == 3,
        _ => false,
    }
}

fn place_in_reply(alloc: Global, bytes: &[u8]) -> Option<u64> {
    match decode_reply(alloc, bytes) {
        Err(Failure::Refused(DecodeRefusal::Malformed { place })) => Some(place),
        _ => None,
    }
}

/// The moment that a reply tells of `#a1`.
fn moment_told(reply: &Reply) -> u64 {
    reply.times().at(Guid::from_u128(0xa1))
}

#[test]
fn a_reply_tells_times_in_version_2_alone(rt: HostRuntime) -> Result<(), Fail> {
    let first = REPLY.concat(rt.alloc())?;
    let second = TIMED_REPLY.concat(rt.alloc())?;
    assert_eq!(rt; first.len(), 143);
    assert_eq!(rt; second.len(), 151);
    let reply = decode_reply(rt.alloc(), &first)?;
    assert_eq!(rt; (reply.version(), moment_told(&reply)), (1, 0));
    let reply = decode_reply(rt.alloc(), &second)?;
    assert_eq!(rt; (reply.version(), moment_told(&reply)), (2, 20));
    for bytes in [&first, &second] {
        for length in 0..bytes.len() {
            assert_eq!(rt;
                place_in_reply(rt.alloc(), &bytes[..length]),
                Some(field_at(&REPLY_FIELDS, length)),
                "{length} bytes"
            );
        }
    }
    Ok(())
}

#[test]
fn a_refusal_is_read_and_written_again(rt: HostRuntime) -> Result<(), Fail> {
    let bytes = b"ADRF\x00\x01\x1f\x00\x00\x00\x01\x00\x00\x00\x02";
    let mismatch = Refusal::Serve(ServeRefusal::SchemaMismatch { mine: 1, theirs: 2 });
    assert_eq!(rt;
        encode_refusal(rt.alloc(), &mismatch)?.as_slice(),
        bytes.as_slice()
    );
    let read = decode_refusal(bytes)?;
    assert_eq!(rt;
        encode_refusal(rt.alloc(), &read)?.as_slice(),
        bytes.as_slice()
    );
    Ok(())
}
