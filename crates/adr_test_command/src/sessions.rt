//! Nodes over networks in memory, one command after the other. Expected bytes are worked out by hand.

use crate::memory::{Failing, Memory, identifiers};
use adr_run_disk::MemDisk;
use adr_test_outside::{MemClock, MemNet};
use std::alloc::Global;
use std::test::Fail;

/// What a command is given: its words, what comes in each connection, and what it reads. And what comes of it: its status,
/// what it writes, and what is sent in each connection.
#[derive(Clone, Copy)]
struct Case {
    words: &'static [&'static str],
    came: &'static [&'static [u8]],
    source: &'static [u8],
    status: u8,
    written: &'static [u8],
    sent: &'static [&'static [u8]],
}

/// A command that is given and writes nothing.
const DONE: Case = Case {
    words: &[],
    came: &[],
    source: b"",
    status: 0,
    written: b"",
    sent: &[],
};

fn connections(alloc: Global, came: &[&[u8]]) -> Result<Vec<Vec<u8>>, Fail> {
    let mut connections = Vec::new(alloc);
    for bytes in came {
        connections.push(Vec::from_slice(alloc, *bytes)?)?;
    }
    Ok(connections)
}

/// The status, and what has become of all.
fn outcome(
    alloc: Global,
    case: &Case,
    net: MemNet,
    disk: MemDisk,
    failing: Failing,
) -> Result<(u8, Memory), Fail> {
    let mut memory = Memory::new(alloc, case.source, 7)?;
    memory.net = net;
    memory.disk = disk;
    memory.clock = MemClock::new(Vec::from_slice(alloc, &[10, 20, 30])?);
    memory.fresh = identifiers(alloc, &[0xa0, 0xa1])?;
    memory.fail(failing);
    Ok(memory.run(alloc, case.words)?)
}

fn outcome_of(
    alloc: Global,
    case: &Case,
    disk: MemDisk,
    failing: Failing,
) -> Result<(u8, Memory), Fail> {
    let net = MemNet::new(alloc, connections(alloc, case.came)?);
    outcome(alloc, case, net, disk, failing)
}

/// The disk of a new controller, of the identifiers `#a0` and `#a1`.
fn made(alloc: Global) -> Result<MemDisk, Fail> {
    let (_, after) = outcome_of(alloc, &SERVED[0], MemDisk::new(alloc), Failing::Never)?;
    Ok(after.into_disk())
}

/// A line that adds a container, and its answer, as frames.
const ADD: &[u8] = b"\0\0\0\x19\x04add #10 container #1 \"x\"";

const ADDED: &[u8] = b"\0\0\0\x0e\x05add: ok usn=1";

/// The frame that asks who is there.
const HELLO: &[u8] = b"\0\0\0\x01\x06";

/// The greeting and the request of `#a0` to `#b0`, for 1,000 items from the beginning.
const ASKED: &[u8] =
    b"\0\0\0\x01\x06\0\0\0[\x01ADRQ\0\x02\0\0\0\0\0\0\0\0\0\0\0\0\0\0\0\xa0\0\0\0\0\0\0\0\0\0\0\0\0\0\0\0\xb0\0\0\0\0\0\0\0\0\0\0\0\0\0\0\0\0\0\0\0\0\0\0\0\0\0\0\0\0\0\0\0\0\0\0\0\0\0\0\0\0\0\0\0\x01\0\0\x03\xe8\0\0\0\0";

/// The identity of `#b0`, and its last, empty reply to that.
const NOTHING: &[u8] =
    b"\0\0\0\x11\x07\0\0\0\0\0\0\0\0\0\0\0\0\0\0\0\xb0\0\0\0x\x02ADRP\0\x01\0\0\0\0\0\0\0\0\0\0\0\0\0\0\0\xa0\0\0\0\0\0\0\0\0\0\0\0\0\0\0\0\xb0\0\0\0\0\0\0\0\0\0\0\0\0\0\0\0\xb1\0\0\0\0\0\0\0\0\0\0\0\0\0\0\0\0\0\0\0\0\0\0\0\0\0\0\0\0\0\0\0\0\0\0\0\0\0\0\0\0\0\0\0\0\0\0\0\0\0\0\0\x01\0\0\0\0\x01\0\0\0\0\0\0\0\0";

/// The identity of `#b0`, and its last reply to that, which has no items and tells that `#b1` was read to 1 at 7.
const TIMED: &[u8] =
    b"\0\0\0\x11\x07\0\0\0\0\0\0\0\0\0\0\0\0\0\0\0\xb0\0\0\0\x98\x02ADRP\0\x02\0\0\0\0\0\0\0\0\0\0\0\0\0\0\0\xa0\0\0\0\0\0\0\0\0\0\0\0\0\0\0\0\xb0\0\0\0\0\0\0\0\0\0\0\0\0\0\0\0\xb1\0\0\0\0\0\0\0\0\0\0\0\0\0\0\0\0\0\0\0\0\0\0\0\0\0\0\0\0\0\0\0\x01\0\0\0\0\0\0\0\x01\0\0\0\0\0\0\0\x01\0\0\0\x01\0\0\0\0\x01\0\0\0\x01\0\0\0\0\0\0\0\0\0\0\0\0\0\0\0\xb1\0\0\0\0\0\0\0\x01\0\0\0\0\0\0\0\x07\0\0\0\0";

/// The identity and the empty reply without its last byte.
const CUT: &[u8] =
    b"\0\0\0\x11\x07\0\0\0\0\0\0\0\0\0\0\0\0\0\0\0\xb0\0\0\0x\x02ADRP\0\x01\0\0\0\0\0\0\0\0\0\0\0\0\0\0\0\xa0\0\0\0\0\0\0\0\0\0\0\0\0\0\0\0\xb0\0\0\0\0\0\0\0\0\0\0\0\0\0\0\0\xb1\0\0\0\0\0\0\0\0\0\0\0\0\0\0\0\0\0\0\0\0\0\0\0\0\0\0\0\0\0\0\0\0\0\0\0\0\0\0\0\0\0\0\0\0\0\0\0\0\0\0\0\x01\0\0\0\0\x01\0\0\0\0\0\0\0";

/// The identity of `#b0`, and its refusal since its schema is 2.
const OTHER_SCHEMA: &[u8] =
    b"\0\0\0\x11\x07\0\0\0\0\0\0\0\0\0\0\0\0\0\0\0\xb0\0\0\0\x10\x03ADRF\0\x01\x1f\0\0\0\x02\0\0\0\x01";

/// Requests of `#b0`, which has read `#a1` to 2: one of version 1, and one of version 2.
const REQUESTS: &[u8] =
    b"\0\0\0s\x01ADRQ\0\x01\0\0\0\0\0\0\0\0\0\0\0\0\0\0\0\xb0\0\0\0\0\0\0\0\0\0\0\0\0\0\0\0\xa0\0\0\0\0\0\0\0\0\0\0\0\0\0\0\0\0\0\0\0\0\0\0\0\0\0\0\0\0\0\0\0\0\0\0\0\0\0\0\0\0\0\0\0\x01\0\0\0\x0a\0\0\0\x01\0\0\0\0\0\0\0\0\0\0\0\0\0\0\0\xa1\0\0\0\0\0\0\0\x02\0\0\0s\x01ADRQ\0\x02\0\0\0\0\0\0\0\0\0\0\0\0\0\0\0\xb0\0\0\0\0\0\0\0\0\0\0\0\0\0\0\0\xa0\0\0\0\0\0\0\0\0\0\0\0\0\0\0\0\0\0\0\0\0\0\0\0\0\0\0\0\0\0\0\0\0\0\0\0\0\0\0\0\0\0\0\0\x01\0\0\0\x0a\0\0\0\x01\0\0\0\0\0\0\0\0\0\0\0\0\0\0\0\xa1\0\0\0\0\0\0\0\x02";

/// The last replies to them. The second one tells the moment at which it was asked for.
const REPLIES: &[u8] =
    b"\0\0\0\xa8\x02ADRP\0\x01\0\0\0\0\0\0\0\0\0\0\0\0\0\0\0\xb0\0\0\0\0\0\0\0\0\0\0\0\0\0\0\0\xa0\0\0\0\0\0\0\0\0\0\0\0\0\0\0\0\xa1\0\0\0\0\0\0\0\0\0\0\0\0\0\0\0\0\0\0\0\0\0\0\0\0\0\0\0\0\0\0\0\x02\0\0\0\0\0\0\0\x02\0\0\0\0\0\0\0\x02\0\0\0\x01\0\0\0\x01\0\0\0\0\0\0\0\0\0\0\0\0\0\0\0\xa1\0\0\0\0\0\0\0\x02\x01\0\0\0\x01\0\0\0\0\0\0\0\0\0\0\0\0\0\0\0\xa1\0\0\0\0\0\0\0\x02\0\0\0\0\0\0\0\xb0\x02ADRP\0\x02\0\0\0\0\0\0\0\0\0\0\0\0\0\0\0\xb0\0\0\0\0\0\0\0\0\0\0\0\0\0\0\0\xa0\0\0\0\0\0\0\0\0\0\0\0\0\0\0\0\xa1\0\0\0\0\0\0\0\0\0\0\0\0\0\0\0\0\0\0\0\0\0\0\0\0\0\0\0\0\0\0\0\x02\0\0\0\0\0\0\0\x02\0\0\0\0\0\0\0\x02\0\0\0\x01\0\0\0\x01\0\0\0\0\0\0\0\0\0\0\0\0\0\0\0\xa1\0\0\0\0\0\0\0\x02\x01\0\0\0\x01\0\0\0\0\0\0\0\0\0\0\0\0\0\0\0\xa1\0\0\0\0\0\0\0\x02\0\0\0\0\0\0\0\x14\0\0\0\0";

/// Commands over one disk, one after the other, from its making on.
const SERVED: &[Case] = &[
    Case {
        words: &["create", "N1"],
        written: b"create N1: ok\n",
        ..DONE
    },
    Case {
        words: &["serve", "N1", "4000", "1"],
        came: &[ADD],
        written: b"connection 1: 1 end\n",
        sent: &[ADDED],
        ..DONE
    },
    Case {
        words: &["export", "N1"],
        written: b"[{\"class\":\"container\",\"guid\":\"00000000-0000-0000-0000-000000000010\",\"links\":{},\"name\":\"x\",\"parent\":\"00000000-0000-0000-0000-000000000001\",\"values\":{}}]\n",
        ..DONE
    },
    Case {
        words: &["create", "N1"],
        status: 9,
        written: b"refused NotEmpty\n",
        ..DONE
    },
    Case {
        words: &["serve", "N1", "4000", "3"],
        came: &[
            b"\0\0\0\x0b\x04delete #10\0\0\0\x05\x04what",
            b"\0\0\0\x01\x06\0\0\0\x01\x09\0\0\0\x01\x06",
            b"\0\0\0\x01\x06\0\0",
        ],
        written: b"connection 1: 2 end\nconnection 2: 1 malformed\nconnection 3: 1 malformed\n",
        sent: &[
            b"\0\0\0\x11\x05delete: ok usn=2\0\0\0\x09\x05bad line",
            b"\0\0\0\x11\x07\0\0\0\0\0\0\0\0\0\0\0\0\0\0\0\xa0",
            b"\0\0\0\x11\x07\0\0\0\0\0\0\0\0\0\0\0\0\0\0\0\xa0",
        ],
        ..DONE
    },
    Case {
        words: &["show", "N1"],
        written: b"show N1: 0\n",
        ..DONE
    },
    Case {
        words: &["serve", "N1", "4000", "1"],
        came: &[REQUESTS],
        written: b"connection 1: 2 end\n",
        sent: &[REPLIES],
        ..DONE
    },
];

/// Pulls of a new controller, and lines that are sent.
const CALLED: &[Case] = &[
    Case {
        words: &["pull", "N1", "4000"],
        came: &[NOTHING],
        written: b"deliver N1: ok items=0 wrote=0 usn=0\n",
        sent: &[ASKED],
        ..DONE
    },
    Case {
        words: &["pull", "N1", "4000"],
        came: &[TIMED],
        written: b"deliver N1: ok items=0 wrote=0 usn=0\n",
        sent: &[ASKED],
        ..DONE
    },
    Case {
        words: &["pull", "N1", "4000"],
        came: &[CUT],
        status: 14,
        sent: &[ASKED],
        ..DONE
    },
    Case {
        words: &["pull", "N1", "4000"],
        came: &[OTHER_SCHEMA],
        status: 9,
        written: b"refused 31 SchemaMismatch mine=2 theirs=1\n",
        sent: &[ASKED],
        ..DONE
    },
    Case {
        words: &["pull", "N1", "4000"],
        status: 7,
        ..DONE
    },
    Case {
        words: &["send", "4000"],
        came: &[b"\0\0\0\x0e\x05add: ok usn=1\0\0\0\x0e\x05add: ok usn=2"],
        source: b"add #10 container #1 \"x\"\n; a comment\nadd #11 container #1 \"y\"\n",
        written: b"add: ok usn=1\nadd: ok usn=2\n",
        sent: &[
            b"\0\0\0\x19\x04add #10 container #1 \"x\"\0\0\0\x19\x04add #11 container #1 \"y\"",
        ],
        ..DONE
    },
    Case {
        words: &["send", "4000"],
        came: &[b"\0\0\0\x25\x05delete: refused 10 NoObject guid=#10\0\0\0\x0d\x05add: okay\nyes"],
        source: b"delete #10\nadd #11 container #1 \"y\"",
        status: 14,
        written: b"delete: refused 10 NoObject guid=#10\n",
        sent: &[b"\0\0\0\x0b\x04delete #10\0\0\0\x19\x04add #11 container #1 \"y\""],
    },
    Case {
        words: &["send", "4000"],
        came: &[b"\0\0\0\x25\x05delete: refused 10 NoObject guid=#10\0\0\0\x0e\x05add: ok usn=1"],
        source: b"delete #10\nadd #11 container #1 \"y\"",
        status: 9,
        written: b"delete: refused 10 NoObject guid=#10\nadd: ok usn=1\n",
        sent: &[b"\0\0\0\x0b\x04delete #10\0\0\0\x19\x04add #11 container #1 \"y\""],
    },
    Case {
        words: &["send", "4000"],
        came: &[b""],
        source: b"delete #10\nstop\n",
        status: 3,
        written: b"line 2: no command\n",
        ..DONE
    },
    Case {
        words: &["send", "4000"],
        came: &[b""],
        source: b"\xff\n",
        status: 3,
        written: b"line 1: not UTF-8\n",
        ..DONE
    },
];

/// Whether just this was sent.
fn has_sent(net: &MemNet, due: &[&[u8]]) -> bool {
    if net.sent().len() != due.len() {
        return false;
    }
    for (sent, due) in net.sent().iter().zip(due) {
        if sent.as_slice() != *due {
            return false;
        }
    }
    true
}

#[test]
fn a_client_is_served(rt: HostRuntime) -> Result<(), Fail> {
    let mut disk = MemDisk::new(rt.alloc());
    for case in SERVED {
        let (status, came) = outcome_of(rt.alloc(), case, disk, Failing::Never)?;
        assert_eq!(rt; status, case.status);
        assert_eq!(rt; came.sink.bytes(), case.written);
        assert!(rt; has_sent(&came.net, case.sent));
        disk = came.into_disk();
    }
    Ok(())
}

#[test]
fn other_nodes_are_called(rt: HostRuntime) -> Result<(), Fail> {
    for case in CALLED {
        let (status, came) = outcome_of(rt.alloc(), case, made(rt.alloc())?, Failing::Never)?;
        assert_eq!(rt; status, case.status);
        assert_eq!(rt; came.sink.bytes(), case.written);
        assert!(rt; has_sent(&came.net, case.sent));
    }
    Ok(())
}

/// Which call fails while one line is served, the status, and what is written.
const FAULTS: &[(Failing, u8, &[u8])] = &[
    (Failing::Net(0), 7, b""),
    (Failing::Net(1), 7, b""),
    (Failing::Net(2), 0, b"connection 1: 0 fault\n"),
    (Failing::Net(3), 0, b"connection 1: 0 fault\n"),
    (Failing::Net(4), 0, b"connection 1: 0 fault\n"),
    (Failing::Net(5), 0, b"connection 1: 1 fault\n"),
    (Failing::Clock(0), 12, b""),
    (Failing::Disk(0), 6, b""),
    (Failing::Disk(1), 6, b""),
    (Failing::Disk(2), 6, b""),
    (Failing::Disk(3), 6, b""),
    (Failing::Disk(4), 6, b""),
    (Failing::Disk(5), 0, b"connection 1: 1 end\n"),
    (Failing::Sink(0), 5, b""),
];

#[test]
fn a_call_that_fails_in_a_serve(rt: HostRuntime) -> Result<(), Fail> {
    for (failing, due, written) in FAULTS {
        let (status, came) = outcome_of(rt.alloc(), &SERVED[1], made(rt.alloc())?, *failing)?;
        assert_eq!(rt; status, *due);
        assert_eq!(rt; came.sink.bytes(), *written);
    }
    Ok(())
}

/// Which call fails while a cycle of one reply is pulled, and the status of that.
const PULL_FAULTS: &[(Failing, u8)] = &[
    (Failing::Net(0), 7),
    (Failing::Net(1), 7),
    (Failing::Net(2), 7),
    (Failing::Net(3), 7),
    (Failing::Net(4), 7),
    (Failing::Net(5), 7),
    (Failing::Net(6), 7),
    (Failing::Disk(0), 6),
    (Failing::Disk(1), 6),
    (Failing::Disk(2), 6),
    (Failing::Disk(3), 6),
    (Failing::Disk(4), 6),
    (Failing::Sink(0), 5),
];

#[test]
fn a_call_that_fails_in_a_pull(rt: HostRuntime) -> Result<(), Fail> {
    for (failing, due) in PULL_FAULTS {
        let (status, came) = outcome_of(rt.alloc(), &CALLED[0], made(rt.alloc())?, *failing)?;
        assert_eq!(rt; status, *due);
        assert!(rt; came.sink.bytes().is_empty());
    }
    Ok(())
}

/// A call that fails while lines are sent, and the status of that.
#[test]
fn a_call_that_fails_in_a_send(rt: HostRuntime) -> Result<(), Fail> {
    for (failing, due) in [
        (Failing::Source(0), 4u8),
        (Failing::Net(0), 7),
        (Failing::Net(1), 7),
        (Failing::Net(2), 7),
        (Failing::Sink(0), 5),
    ] {
        let (status, came) = outcome_of(rt.alloc(), &CALLED[5], MemDisk::new(rt.alloc()), failing)?;
        assert_eq!(rt; status, due);
        assert!(rt; came.sink.bytes().is_empty());
    }
    Ok(())
}

/// Each request takes a moment, so a clock that gives one alone ends the serving at the second.
#[test]
fn a_clock_that_fails_at_a_request(rt: HostRuntime) -> Result<(), Fail> {
    let mut disk = MemDisk::new(rt.alloc());
    for case in &SERVED[..6] {
        let (_, came) = outcome_of(rt.alloc(), case, disk, Failing::Never)?;
        disk = came.into_disk();
    }
    let (status, came) = outcome_of(rt.alloc(), &SERVED[6], disk, Failing::Clock(1))?;
    assert_eq!(rt; status, 12);
    assert!(rt; came.sink.bytes().is_empty());
    assert!(rt; has_sent(&came.net, &[&REPLIES[..172]]));
    Ok(())
}

#[test]
fn bytes_that_are_no_log_are_not_served(rt: HostRuntime) -> Result<(), Fail> {
    let disk = MemDisk::of(rt.alloc(), Vec::from_slice(rt.alloc(), b"abc")?);
    let (status, came) = outcome_of(rt.alloc(), &SERVED[1], disk, Failing::Never)?;
    assert_eq!(rt; status, 10);
    assert_eq!(rt; came.sink.bytes(), b"damaged 0\n".as_slice());
    assert!(rt; has_sent(&came.net, &[]));
    Ok(())
}

#[test]
fn a_connection_has_a_million_messages(rt: HostRuntime) -> Result<(), Fail> {
    let mut came = Vec::new(rt.alloc());
    for _ in 0..1_000_001 {
        came.extend_from_slice(HELLO)?;
    }
    let mut all = Vec::new(rt.alloc());
    all.push(came)?;
    let net = MemNet::new(rt.alloc(), all);
    let (status, came) = outcome(
        rt.alloc(),
        &SERVED[1],
        net,
        made(rt.alloc())?,
        Failing::Never,
    )?;
    assert_eq!(rt; status, 0);
    assert_eq!(rt;
        came.sink.bytes(),
        b"connection 1: 1000000 limit\n".as_slice()
    );
    for sent in came.net.sent() {
        assert_eq!(rt; sent.len(), 21_000_000usize);
    }
    Ok(())
}
