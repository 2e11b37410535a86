//! The bytes of a log, where its areas come to stand, what calls leave that meet a mishap, logs that are cut, and the
//! limit of logs.

use crate::kept::{Filling, Finding, Met, Mishap};
use crate::logs::{
    commit_log, describe_log, format_log, log_bytes, run_plain, start_log, start_of,
};
use adr_checks::Schema;
use adr_disk::Crash;
use adr_state::{Change, LOG_LIMIT, Log, Mode, Times, Vector};
use std::alloc::Global;
use std::test::Fail;

const A0: &[u8] = &[0, 0, 0, 0, 0, 0, 0, 0, 0, 0, 0, 0, 0, 0, 0, 0xa0];

const A1: &[u8] = &[0, 0, 0, 0, 0, 0, 0, 0, 0, 0, 0, 0, 0, 0, 0, 0xa1];

const GUID: &[u8] = &[0, 0, 0, 0, 0, 0, 0, 0, 0, 0, 0, 0, 0, 0, 0, 0x10];

const ROOT: &[u8] = &[0, 0, 0, 0, 0, 0, 0, 0, 0, 0, 0, 0, 0, 0, 0, 0x01];

const NONE: &[u8] = &[0, 0, 0, 0];

const ONE: &[u8] = &[0, 0, 0, 1];

const LONG_0: &[u8] = &[0, 0, 0, 0, 0, 0, 0, 0];

const LONG_1: &[u8] = &[0, 0, 0, 0, 0, 0, 0, 1];

const LONG_56: &[u8] = &[0, 0, 0, 0, 0, 0, 0, 56];

/// The log of a new, empty controller: 101 bytes.
#[rattlefmt::skip]
const NEW: [&[u8]; 20] = [
    &[0xC3],
    b"ADJL", &[0, 2], A0, A1,
    &[0], LONG_56, LONG_56,
    &[0, 2], &[0, 0, 0, 0x26],
    b"ADIM", &[0, 2], ONE, LONG_0, NONE, NONE, NONE, NONE, NONE,
    &[0],
];

/// What the record of the added container begins with: its length, the USN, no quarantine, the schema, no mark, nothing
/// joined, collected or removed, and a count of writes.
#[rattlefmt::skip]
const FRONT: [&[u8]; 9] = [
    &[0, 0, 0, 0xb2],
    LONG_1, &[0], ONE, &[0], NONE, NONE, NONE, ONE,
];

/// The written object, and the gate behind the record: the record has 183 bytes.
#[rattlefmt::skip]
const OBJECT: [&[u8]; 20] = [
    LONG_1, &[1], GUID, A1, LONG_1, &[0, 2],
    &[0, 1], ONE, LONG_0, A1, LONG_1, &[0, 4],
    &[0, 2], ONE, LONG_0, A1, LONG_1, ROOT, &[0, 1], b"x",
];

/// The place of an area's version, and of that of its image.
const VERSIONS: [usize; 2] = [57, 67];

/// In version 1 a record tells no schema, and has 179 bytes.
const FRONT_OF_1: [&[u8]; 7] = [&[0, 0, 0, 0xae], LONG_1, &[0, 0], NONE, NONE, NONE, ONE];

/// Where the gate behind the area's image stands, and where the last gate does.
const GATE: usize = 100;

const LAST_GATE: usize = 283;

/// The log with the container, whose gate behind the image is this.
fn log_with(alloc: Global, gate: u8) -> Result<Vec<u8>, Fail> {
    with_record(alloc, NEW.concat(alloc)?, gate, &FRONT.concat(alloc)?)
}

/// A log without records, and then one that begins so, behind this gate.
fn with_record(alloc: Global, mut bytes: Vec<u8>, gate: u8, front: &[u8]) -> Result<Vec<u8>, Fail> {
    bytes.pop();
    bytes.push(gate)?;
    bytes.extend_from_slice(front)?;
    bytes.extend_from_slice(&OBJECT.concat(alloc)?)?;
    bytes.push(0)?;
    Ok(bytes)
}

/// The log that an earlier build made: a new one.
fn new_log_of_1(alloc: Global) -> Result<Vec<u8>, Fail> {
    let mut bytes = NEW.concat(alloc)?;
    for place in VERSIONS {
        if let Some(version) = bytes.get_mut(place) {
            *version = 1;
        }
    }
    Ok(bytes)
}

/// And one with the container: 280 bytes.
fn log_of_1(alloc: Global) -> Result<Vec<u8>, Fail> {
    with_record(
        alloc,
        new_log_of_1(alloc)?,
        0xC3,
        &FRONT_OF_1.concat(alloc)?,
    )
}

#[test]
fn a_log_has_its_bytes(rt: HostRuntime) -> Result<(), Fail> {
    let alloc = rt.alloc();
    let new = filled(alloc, Filling::Containers(0))?;
    assert_eq!(rt; new.len(), 101);
    assert_eq!(rt; new.as_slice(), NEW.concat(alloc)?.as_slice());
    let added = filled(alloc, Filling::Descriptions(0))?;
    assert_eq!(rt; added.as_slice(), log_with(alloc, 0xC3)?.as_slice());
    Ok(())
}

/// The bytes of a log that is filled.
fn filled(alloc: Global, filling: Filling) -> Result<Vec<u8>, Fail> {
    Ok(log_bytes(alloc, filling)?.ok_or("not acknowledged")?)
}

/// The place of the area that a log's selector selects.
fn place_in_log(bytes: &[u8]) -> u64 {
    let slot = if bytes.get(39) == Some(&0xC3) { 48 } else { 40 };
    let mut place: u64 = 0;
    for byte in bytes.iter().skip(slot).take(8) {
        place = place.wrapping_mul(256).wrapping_add(u64::from(*byte));
    }
    place
}

/// What a disk is filled with, where the selected area then stands, and how long the file has become.
///
/// The record of the container has 183 bytes, and that of a description 2,197. The image of the described container has
/// 2,344. So a checkpoint comes with the 30th description, and then with each 30th of a new area's. An image of described
/// containers has 70 bytes, and 2,276 for each; the record of one has 2,296. That of 28 fits in front of no area, and that
/// of 84 not in front of theirs.
const AREAS: &[(Filling, u64, usize)] = &[
    (Filling::Descriptions(29), 56, 63_997),
    (Filling::Descriptions(30), 63_997, 68_545),
    (Filling::Descriptions(59), 63_997, 132_258),
    (Filling::Descriptions(60), 56, 132_258),
    (Filling::Descriptions(89), 56, 132_258),
    (Filling::Descriptions(90), 68_317, 132_258),
    (Filling::Containers(28), 56, 64_389),
    (Filling::Containers(29), 64_389, 130_490),
    (Filling::Containers(84), 64_389, 256_770),
    (Filling::Containers(85), 256_770, 450_327),
];

/// The USN behind it.
fn usn_behind(filling: Filling) -> Finding {
    match filling {
        Filling::Descriptions(times) => Finding::Usn(times.saturating_add(1)),
        Filling::Containers(count) => Finding::Usn(count),
    }
}

#[test]
fn areas_stand_at_the_front_or_behind_the_log(rt: HostRuntime) -> Result<(), Fail> {
    let alloc = rt.alloc();
    for (filling, place, length) in AREAS {
        let bytes = filled(alloc, *filling)?;
        assert_eq!(rt; place_in_log(bytes.as_slice()), *place);
        assert_eq!(rt; bytes.len(), *length);
        assert_eq!(rt; start_of(alloc, bytes), usn_behind(*filling));
    }
    Ok(())
}

/// The kinds of crash.
const CRASHES: &[Crash] = &[Crash::Kept, Crash::Lost, Crash::Torn];

/// What may meet a call.
const MISHAPS: &[Mishap] = &[
    Some(Crash::Kept),
    Some(Crash::Lost),
    Some(Crash::Torn),
    None,
];

/// A format makes six calls. It leaves no log or all of it.
fn format_holds(alloc: Global, met: Met, how: Crash) -> bool {
    let (done, found) = format_log(alloc, met, how);
    let none = matches!(&found, Finding::Damage(_));
    done == (6 <= met.calls) && (found == Finding::Usn(0) || !done && none)
}

/// A commit without a checkpoint makes four calls. It leaves the state before or the one after.
fn commit_holds(alloc: Global, met: Met, how: Crash) -> Result<bool, Fail> {
    let (done, found) = commit_log(alloc, met, how)?.ok_or("no format")?;
    Ok(done == (4 <= met.calls) && (found == Finding::Usn(1) || !done && found == Finding::Usn(0)))
}

/// A start makes one call. It leaves what was there.
fn start_holds(alloc: Global, met: Met, how: Crash) -> Result<bool, Fail> {
    let (done, found) = start_log(alloc, met, how)?.ok_or("not acknowledged")?;
    Ok(done == (1 <= met.calls) && found == Finding::Usn(1))
}

/// Whether each call holds whose next call of the disk but so many meets this, with any crash behind it.
fn all_hold(alloc: Global, met: Met) -> Result<bool, Fail> {
    for how in CRASHES {
        let holds = format_holds(alloc, met, *how)
            && commit_holds(alloc, met, *how)?
            && start_holds(alloc, met, *how)?;
        if !holds {
            return Ok(false);
        }
    }
    Ok(true)
}

#[test]
fn whatever_meets_a_call_a_start_finds_the_state_before_or_after(
    rt: HostRuntime,
) -> Result<(), Fail> {
    for mishap in MISHAPS {
        for calls in 0..8 {
            let mishap = *mishap;
            assert!(rt; all_hold(rt.alloc(), Met { calls, mishap })?);
        }
    }
    Ok(())
}

/// A disk whose next description comes with a checkpoint: how it is filled, its USN, and where the live area stands and
/// where the new one will.
#[derive(Clone, Copy)]
struct Due {
    filling: Filling,
    usn: u64,
    live: u64,
    next: u64,
}

/// The new area gets the second slot.
const TO_SECOND: Due = Due {
    filling: Filling::Descriptions(29),
    usn: 30,
    live: 56,
    next: 63_997,
};

/// It gets the first one.
const TO_FIRST: Due = Due {
    filling: Filling::Descriptions(59),
    usn: 60,
    live: 63_997,
    next: 56,
};

/// What is left of a commit with a checkpoint: the live area and the state before (l), the new area and the state before
/// (n), or the new one and the state after (a). Only a commit whose nine calls pass is acknowledged.
fn left_of(
    alloc: Global,
    due: Due,
    bytes: &[u8],
    met: Met,
    start_met: Option<Met>,
    how: Crash,
) -> Result<char, Fail> {
    let left = describe_log(alloc, bytes.to_vec(alloc)?, met, start_met, how)?.ok_or("no start")?;
    let place = place_in_log(left.bytes.as_slice());
    if left.done != (9 <= met.calls) {
        return Ok('?');
    }
    Ok(match left.found {
        Finding::Usn(usn) if usn == due.usn && place == due.live => 'l',
        Finding::Usn(usn) if usn == due.usn && place == due.next => 'n',
        Finding::Usn(usn) if usn == due.usn.wrapping_add(1) && place == due.next => 'a',
        _ => '?',
    })
}

/// What the calls of a commit with a checkpoint leave where the one behind so many meets this and a crash follows, with
/// the new area in the second slot and in the first. The calls are the area, the slot, a sync, the selector, a sync, the
/// record, a sync, the gate, a sync. A torn selector selects the second slot, and a torn gate is open.
const COMMITS: &[(Mishap, Crash, &str, &str)] = &[
    (Some(Crash::Kept), Crash::Kept, "lllnnnnaaa", "lllnnnnaaa"),
    (Some(Crash::Lost), Crash::Kept, "lllllnnnna", "lllllnnnna"),
    (Some(Crash::Torn), Crash::Kept, "lllnnnnaaa", "lllllnnaaa"),
    (None, Crash::Kept, "llllnnnnaa", "llllnnnnaa"),
    (None, Crash::Lost, "lllllnnnna", "lllllnnnna"),
    (None, Crash::Torn, "llllnnnnaa", "lllllnnnaa"),
];

/// What is left behind each count of calls.
fn left_of_each(
    alloc: Global,
    due: Due,
    bytes: &[u8],
    mishap: Mishap,
    how: Crash,
) -> Result<String, Fail> {
    let mut left = String::new(alloc);
    for calls in 0..10 {
        let met = Met { calls, mishap };
        left.push(left_of(alloc, due, bytes, met, None, how)?)?;
    }
    Ok(left)
}

#[test]
fn a_checkpoint_to_the_second_slot_leaves_the_state_before_or_after(
    rt: HostRuntime,
) -> Result<(), Fail> {
    let alloc = rt.alloc();
    let bytes = filled(alloc, TO_SECOND.filling)?;
    for (mishap, how, second, _) in COMMITS {
        let left = left_of_each(alloc, TO_SECOND, bytes.as_slice(), *mishap, *how)?;
        assert_eq!(rt; left.as_str(), *second);
    }
    Ok(())
}

#[test]
fn a_checkpoint_to_the_first_slot_leaves_the_state_before_or_after(
    rt: HostRuntime,
) -> Result<(), Fail> {
    let alloc = rt.alloc();
    let bytes = filled(alloc, TO_FIRST.filling)?;
    for (mishap, how, _, first) in COMMITS {
        let left = left_of_each(alloc, TO_FIRST, bytes.as_slice(), *mishap, *how)?;
        assert_eq!(rt; left.as_str(), *first);
    }
    Ok(())
}

/// The log of an earlier build whose first commit here comes with a checkpoint, to the second slot.
const MIGRATED: Due = Due {
    filling: Filling::Descriptions(0),
    usn: 1,
    live: 56,
    next: 280,
};

#[test]
fn the_first_commit_to_a_log_of_version_1_leaves_the_state_before_or_after(
    rt: HostRuntime,
) -> Result<(), Fail> {
    let alloc = rt.alloc();
    let bytes = log_of_1(alloc)?;
    assert_eq!(rt; bytes.len(), 280);
    for (mishap, how, second, _) in COMMITS {
        let left = left_of_each(alloc, MIGRATED, bytes.as_slice(), *mishap, *how)?;
        assert_eq!(rt; left.as_str(), *second);
    }
    Ok(())
}

/// A commit that nothing meets.
const UNMET: Met = Met {
    calls: 9,
    mishap: None,
};

#[test]
fn the_first_commit_to_a_log_of_version_1_writes_an_area_of_version_2(
    rt: HostRuntime,
) -> Result<(), Fail> {
    let alloc = rt.alloc();
    let left = describe_log(alloc, log_of_1(alloc)?, UNMET, None, Crash::Kept)?.ok_or("no start")?;
    assert_eq!(rt; place_in_log(left.bytes.as_slice()), 280);
    assert_eq!(rt;
        (left.bytes.get(280), left.bytes.get(281)),
        (Some(&0), Some(&2))
    );
    Ok(())
}

/// What a start leaves of a selector that a failed sync left unsynced, where its own sync meets this, or passes, and a
/// crash follows.
const STARTS: &[(u32, Mishap, Crash, char, char)] = &[
    (0, Some(Crash::Kept), Crash::Kept, 'n', 'n'),
    (0, Some(Crash::Lost), Crash::Kept, 'l', 'l'),
    (0, Some(Crash::Torn), Crash::Kept, 'n', 'l'),
    (0, None, Crash::Kept, 'n', 'n'),
    (0, None, Crash::Lost, 'l', 'l'),
    (0, None, Crash::Torn, 'n', 'l'),
    (1, None, Crash::Lost, 'n', 'n'),
    (1, None, Crash::Torn, 'n', 'n'),
];

/// A commit's last sync before its record fails.
const UNSETTLED: Met = Met {
    calls: 4,
    mishap: None,
};

#[test]
fn a_start_settles_which_slot_is_selected(rt: HostRuntime) -> Result<(), Fail> {
    let alloc = rt.alloc();
    let to_second = filled(alloc, TO_SECOND.filling)?;
    let to_first = filled(alloc, TO_FIRST.filling)?;
    for (calls, mishap, how, second, first) in STARTS {
        let (calls, mishap) = (*calls, *mishap);
        let met = Some(Met { calls, mishap });
        let of_second = left_of(alloc, TO_SECOND, to_second.as_slice(), UNSETTLED, met, *how)?;
        assert_eq!(rt; of_second, *second);
        let of_first = left_of(alloc, TO_FIRST, to_first.as_slice(), UNSETTLED, met, *how)?;
        assert_eq!(rt; of_first, *first);
    }
    Ok(())
}

/// Where a log that is cut within its head or its area is refused: each field's place.
const FIELDS: &[usize] = &[
    1, 5, 7, 23, 39, 40, 48, 56, 58, 62, 66, 68, 72, 80, 84, 88, 92, 96,
];

/// The last place of these that the log reaches.
fn place_in(places: &[usize], len: usize) -> u64 {
    let mut last = 0;
    for place in places {
        if *place <= len {
            last = *place as u64;
        }
    }
    last
}

/// Where a log with the container is refused that has only so many bytes. Where no byte is left of the area, the slot is.
fn cut_place(len: usize) -> u64 {
    if len < 2 {
        return 0;
    }
    if len == 56 {
        return 40;
    }
    if len < GATE {
        return place_in(FIELDS, len);
    }
    if len < LAST_GATE { 100 } else { 283 }
}

/// What a start finds in the front of a log.
fn start_of_front(alloc: Global, log: &[u8], len: usize) -> Result<Finding, Fail> {
    let mut front = Vec::new(alloc);
    for byte in log.iter().take(len) {
        front.push(*byte)?;
    }
    Ok(start_of(alloc, front))
}

#[test]
fn a_log_that_is_cut_is_refused_or_has_a_state(rt: HostRuntime) -> Result<(), Fail> {
    let alloc = rt.alloc();
    let open = log_with(alloc, 0xC3)?;
    let closed = log_with(alloc, 0)?;
    for len in 0..284 {
        let cut = Finding::Damage(cut_place(len));
        assert_eq!(rt; start_of_front(alloc, &open, len)?, cut);
        let behind = if len <= GATE { cut } else { Finding::Usn(0) };
        assert_eq!(rt; start_of_front(alloc, &closed, len)?, behind);
    }
    assert_eq!(rt; start_of_front(alloc, &open, 284)?, Finding::Usn(1));
    Ok(())
}

#[test]
fn a_log_of_version_1_that_is_cut_is_refused_or_has_a_state(rt: HostRuntime) -> Result<(), Fail> {
    let alloc = rt.alloc();
    let log = log_of_1(alloc)?;
    for len in 0..280 {
        let place = if len < 279 { cut_place(len) } else { 279 };
        assert_eq!(rt; start_of_front(alloc, &log, len)?, Finding::Damage(place));
    }
    assert_eq!(rt; start_of_front(alloc, &log, 280)?, Finding::Usn(1));
    assert_eq!(rt; start_of(alloc, new_log_of_1(alloc)?), Finding::Usn(0));
    Ok(())
}

/// What a start finds in a new log with this selector whose byte at a place is turned.
fn start_of_turned(alloc: Global, selector: u8, place: usize) -> Result<Finding, Fail> {
    let new = NEW.concat(alloc)?;
    let mut bytes = Vec::new(alloc);
    for (at, byte) in new.iter().enumerate() {
        let byte = if at == 39 { selector } else { *byte };
        bytes.push(if at == place { !byte } else { byte })?;
    }
    Ok(start_of(alloc, bytes))
}

#[test]
fn only_the_selected_slot_counts(rt: HostRuntime) -> Result<(), Fail> {
    let alloc = rt.alloc();
    for place in 39..56 {
        let of_first = 40 <= place && place < 48;
        let of_second = 48 <= place;
        let first = if of_first {
            Finding::Damage(40)
        } else {
            Finding::Usn(0)
        };
        let second = if of_second {
            Finding::Damage(48)
        } else {
            Finding::Usn(0)
        };
        assert_eq!(rt; start_of_turned(alloc, 0, place)?, first);
        assert_eq!(rt; start_of_turned(alloc, 0xC3, place)?, second);
    }
    Ok(())
}

#[test]
fn a_log_in_memory_alone_is_started_again(rt: HostRuntime) -> Result<(), Fail> {
    for (filling, _, _) in AREAS {
        assert_eq!(rt; run_plain(rt.alloc(), *filling)?, usn_behind(*filling));
    }
    Ok(())
}

/// A quarantine under schema 1. Its record is a length, a body of 30 bytes and a gate.
fn quarantine(alloc: Global) -> Option<Change> {
    let schema = Schema::new(1)?;
    let (joined, times, purged) = (Vector::new(alloc), Times::new(alloc), Vector::new(alloc));
    let (removed, writes) = (Vec::new(alloc), Vec::new(alloc));
    let mode = Mode::Quarantined;
    Some(Change::new(
        5, mode, schema, None, joined, times, purged, removed, writes,
    ))
}

/// Where a log ends behind that record which ended here.
fn end_after(alloc: Global, end: u64) -> Option<u64> {
    let log = Log::found(false, 56, 2, 100, end).after(&quarantine(alloc)?)?;
    Some(log.end())
}

#[test]
fn a_log_ends_at_its_limit_at_the_most(rt: HostRuntime) {
    let alloc = rt.alloc();
    assert_eq!(rt; LOG_LIMIT, 0x2_0000_0000);
    assert_eq!(rt; end_after(alloc, LOG_LIMIT - 36), Some(LOG_LIMIT - 1));
    assert_eq!(rt; end_after(alloc, LOG_LIMIT - 35), Some(LOG_LIMIT));
    assert_eq!(rt; end_after(alloc, LOG_LIMIT - 34), None);
}
