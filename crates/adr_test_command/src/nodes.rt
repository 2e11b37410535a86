//! Commands over one disk, one after the other, and calls that fail in them. Expected bytes are worked out by hand.

use crate::memory::{Failing, Memory, identifiers};
use adr_run_disk::MemDisk;
use adr_test_outside::{MemClock, MemNet};
use std::alloc::Global;
use std::test::Fail;

/// What a command is given, its status, and what it writes.
#[derive(Clone, Copy)]
struct Case {
    words: &'static [&'static str],
    fresh: &'static [u128],
    source: &'static [u8],
    status: u8,
    written: &'static [u8],
}

/// A command that is given and writes nothing.
const DONE: Case = Case {
    words: &[],
    fresh: &[],
    source: b"",
    status: 0,
    written: b"",
};

/// The image of an empty controller: its head, the number of its schema, and counts and a USN of 0.
const EMPTY: &[u8] =
    b"ADIM\x00\x02\x00\x00\x00\x01\0\0\0\0\0\0\0\0\0\0\0\0\0\0\0\0\0\0\0\0\0\0\0\0\0\0\0\0";

/// The one that an earlier build made of it.
const EARLIER: &[u8] =
    b"ADIM\x00\x01\x00\x00\x00\x01\0\0\0\0\0\0\0\0\0\0\0\0\0\0\0\0\0\0\0\0\0\0\0\0\0\0\0\0";

/// The image that an earlier build made of a controller with one container, written by `#a1`: its head and USN, one cursor,
/// no collected and no marks; one object with its class and its name; no links.
const CONTAINER: &[u8] =
    b"ADIM\0\x01\0\0\0\x01\0\0\0\0\0\0\0\x01\0\0\0\x01\0\0\0\0\0\0\0\0\0\0\0\0\0\0\0\xa1\0\0\0\0\0\0\0\x01\0\0\0\0\0\0\0\0\0\0\0\x01\0\0\0\0\0\0\0\0\0\0\0\0\0\0\0\x10\0\0\0\0\0\0\0\0\0\0\0\0\0\0\0\xa1\0\0\0\0\0\0\0\x01\0\x02\0\0\0\0\0\0\0\x01\0\x01\0\0\0\x01\0\0\0\0\0\0\0\0\0\0\0\0\0\0\0\0\0\0\0\0\0\0\0\xa1\0\0\0\0\0\0\0\x01\0\x04\0\0\0\0\0\0\0\x01\0\x02\0\0\0\x01\0\0\0\0\0\0\0\0\0\0\0\0\0\0\0\0\0\0\0\0\0\0\0\xa1\0\0\0\0\0\0\0\x01\0\0\0\0\0\0\0\0\0\0\0\0\0\0\0\x01\0\x01x\0\0\0\0";

/// The log that an earlier build made of an empty controller `#a0`, `#a1`: a gate, whose log it is, a selector and two
/// slots, an area with that image, and a gate.
const LOG: &[&[u8]] = &[
    b"\xC3ADJL\0\x02\0\0\0\0\0\0\0\0\0\0\0\0\0\0\0\xa0\0\0\0\0\0\0\0\0\0\0\0\0\0\0\0\xa1",
    b"\0\0\0\0\0\0\0\0\x38\0\0\0\0\0\0\0\x38\0\x01\0\0\0\x26",
    EARLIER,
    b"\0",
];

const LATER: &[u8] = b"ADIM\x00\x03\x00\x00\x00\x01";

/// The status, and what has become of all.
fn outcome(
    alloc: Global,
    case: &Case,
    disk: MemDisk,
    failing: Failing,
) -> Result<(u8, Memory), Fail> {
    let mut memory = Memory::new(alloc, case.source, 7)?;
    memory.disk = disk;
    memory.fresh = identifiers(alloc, case.fresh)?;
    memory.fail(failing);
    Ok(memory.run(alloc, case.words)?)
}

/// An empty controller, from its making on.
const MADE: &[Case] = &[
    Case {
        words: &["show", "N1"],
        status: 10,
        written: b"damaged 0\n",
        ..DONE
    },
    Case {
        words: &["create", "N1"],
        fresh: &[0xa0, 0xa1],
        written: b"create N1: ok\n",
        ..DONE
    },
    Case {
        words: &["show", "N1"],
        written: b"show N1: 0\n",
        ..DONE
    },
    Case {
        words: &["export", "N1"],
        written: b"[]\n",
        ..DONE
    },
    Case {
        words: &["backup", "N1"],
        written: EMPTY,
        ..DONE
    },
    Case {
        words: &["create", "N1"],
        fresh: &[0xa2, 0xa3],
        status: 9,
        written: b"refused NotEmpty\n",
        ..DONE
    },
    Case {
        words: &["install", "N1"],
        fresh: &[0xa2, 0xa3],
        source: EMPTY,
        status: 9,
        written: b"refused NotEmpty\n",
    },
];

/// A controller of that image.
const SHOWN: &[Case] = &[
    Case {
        words: &["install", "N1"],
        fresh: &[0xb0, 0xb1],
        source: CONTAINER,
        written: b"install N1: ok\n",
        ..DONE
    },
    Case {
        words: &["show", "N1"],
        written: b"show N1: 1\n  #10 container parent=#1 name=\"x\"\n",
        ..DONE
    },
    Case {
        words: &["export", "N1"],
        written: b"[{\"class\":\"container\",\"guid\":\"00000000-0000-0000-0000-000000000010\",\"links\":{},\"name\":\"x\",\"parent\":\"00000000-0000-0000-0000-000000000001\",\"values\":{}}]\n",
        ..DONE
    },
];

/// Commands over an empty disk each.
const FIRST: &[Case] = &[
    Case {
        words: &["install", "N2"],
        fresh: &[0xc0, 0xc1],
        source: EARLIER,
        written: b"install N2: ok\n",
        ..DONE
    },
    Case {
        words: &["restore", "N3", "#b0"],
        fresh: &[0xc2],
        source: EMPTY,
        written: b"restore N3: ok\n",
        ..DONE
    },
    Case {
        words: &["install", "N2"],
        fresh: &[0xc0, 0xc1],
        source: b"ADIM\x00\x01\x00\x00\x00\x01\0\0\0\0\0\0\0\0\0\0\0\0\0\0\0\0\0\0\0\0\0\0\0\0\0\0\0",
        status: 9,
        written: b"refused Malformed place=34\n",
    },
    Case {
        words: &["restore", "N2", "#b0"],
        fresh: &[0xc0],
        source: LATER,
        status: 9,
        written: b"refused WrongVersion found=3\n",
    },
    Case {
        words: &["create", "N1"],
        fresh: &[0xa0],
        status: 13,
        ..DONE
    },
];

#[test]
fn controllers_from_their_making_on(rt: HostRuntime) -> Result<(), Fail> {
    for cases in [MADE, SHOWN] {
        let mut disk = MemDisk::new(rt.alloc());
        for case in cases {
            let (status, after) = outcome(rt.alloc(), case, disk, Failing::Never)?;
            assert_eq!(rt; status, case.status);
            assert_eq!(rt; after.sink.bytes(), case.written);
            disk = after.into_disk();
        }
    }
    Ok(())
}

#[test]
fn controllers_of_images(rt: HostRuntime) -> Result<(), Fail> {
    for case in FIRST {
        let disk = MemDisk::new(rt.alloc());
        let (status, after) = outcome(rt.alloc(), case, disk, Failing::Never)?;
        assert_eq!(rt; status, case.status);
        assert_eq!(rt; after.sink.bytes(), case.written);
        assert_eq!(rt; after.disk.bytes(rt.alloc())?.is_empty(), case.status != 0);
    }
    Ok(())
}

/// What a file of an earlier build shows, and its image now.
const BEFORE: &[(&[&str], &[u8])] = &[
    (&["show", "N1"], b"show N1: 0\n"),
    (&["backup", "N1"], EMPTY),
];

#[test]
fn a_log_of_an_earlier_build_is_shown(rt: HostRuntime) -> Result<(), Fail> {
    for (words, written) in BEFORE {
        let bytes = LOG.concat(rt.alloc())?;
        assert_eq!(rt; bytes.len(), 101);
        let disk = MemDisk::of(rt.alloc(), bytes);
        let case = Case { words, ..DONE };
        let (status, after) = outcome(rt.alloc(), &case, disk, Failing::Never)?;
        assert_eq!(rt; (status, after.sink.bytes()), (0, *written));
    }
    Ok(())
}

/// The frame of a line that adds a container.
const ADD: &[u8] = b"\0\0\0\x19\x04add #10 container #1 \"x\"";

#[test]
fn the_first_line_to_a_log_of_an_earlier_build_writes_an_area_of_this_one(
    rt: HostRuntime,
) -> Result<(), Fail> {
    let alloc = rt.alloc();
    let mut came = Vec::new(alloc);
    came.push(Vec::from_slice(alloc, ADD)?)?;
    let mut memory = Memory::new(alloc, b"", 7)?;
    memory.disk = MemDisk::of(alloc, LOG.concat(alloc)?);
    memory.net = MemNet::new(alloc, came);
    memory.clock = MemClock::new(Vec::from_slice(alloc, &[10])?);
    let (status, after) = memory.run(alloc, &["serve", "N1", "4000", "1"])?;
    assert_eq!(rt; status, 0);
    assert_eq!(rt; after.sink.bytes(), b"connection 1: 1 end\n".as_slice());
    let bytes = after.disk.bytes(alloc)?;
    assert_eq!(rt; (bytes.get(39), bytes.get(55)), (Some(&0xC3), Some(&101)));
    assert_eq!(rt; (bytes.get(101), bytes.get(102)), (Some(&0), Some(&2)));
    Ok(())
}

/// Which call fails in an `install`, and the status of that.
const FAULTS: &[(Failing, u8)] = &[
    (Failing::Source(3), 4),
    (Failing::Sink(0), 5),
    (Failing::Disk(0), 6),
    (Failing::Disk(1), 6),
    (Failing::Fresh(1), 13),
];

#[test]
fn a_call_that_fails_in_an_install(rt: HostRuntime) -> Result<(), Fail> {
    for (failing, due) in FAULTS {
        let disk = MemDisk::new(rt.alloc());
        let (status, after) = outcome(rt.alloc(), &FIRST[0], disk, *failing)?;
        assert_eq!(rt; status, *due);
        assert!(rt; after.sink.bytes().is_empty());
    }
    Ok(())
}
