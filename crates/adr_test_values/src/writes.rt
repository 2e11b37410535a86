//! Writes over states that no schedule comes to: the last version, the last USN, a database that was put back.

use crate::holding::{east, holding, id, list, text};
use adr_call::{Failure, WriteRefusal};
use adr_origin::{LinkEnds, NewObject, add, delete, link, modify, rename};
use adr_state::{Change, Mode, NoMemory, State, Written};
use adr_values::{Assignments, Content, Value, Values};
use std::alloc::Global;
use std::process::Abort;

/// The greatest USN.
const LAST_USN: u64 = 9_223_372_036_854_775_807;

/// A client's write: of the container 11, new, or else of the container 10.
#[derive(Clone, Copy, Debug)]
enum Write {
    Add,
    Describe,
    Rename,
    Delete,
    Link,
}

type Made = Result<Change, Failure<WriteRefusal>>;

fn described(alloc: Global) -> Result<Vec<Value>, NoMemory> {
    let text = text(alloc, "the east wing")?;
    list(alloc, [Value::Text(text)])
}

fn added(alloc: Global, state: &State) -> Made {
    let name = text(alloc, "West")?;
    let none = Assignments::new(alloc);
    let object = NewObject {
        guid: id(11),
        class: 4,
        parent: id(1),
        text: &name,
        values: &none,
    };
    add(alloc, state, &object, 100)
}

fn modified(rt: &impl Abort, alloc: Global, state: &State) -> Made {
    let described = described(alloc)?;
    let mut values = Assignments::new(alloc);
    values
        .add(12, described)
        .ok()
        .expect(rt, "no attribute yet");
    modify(alloc, state, id(10), &values, 100)
}

fn renamed(alloc: Global, state: &State) -> Made {
    let name = text(alloc, "West")?;
    rename(alloc, state, id(10), id(1), &name, 100)
}

fn linked(alloc: Global, state: &State) -> Made {
    let ends = LinkEnds {
        from: id(10),
        attr: 32,
        to: id(10),
    };
    link(alloc, state, &ends, 100)
}

fn made(rt: &impl Abort, alloc: Global, state: &State, write: Write) -> Made {
    match write {
        Write::Add => added(alloc, state),
        Write::Describe => modified(rt, alloc, state),
        Write::Rename => renamed(alloc, state),
        Write::Delete => delete(alloc, state, id(10), 100),
        Write::Link => linked(alloc, state),
    }
}

/// What a client is told of a write: its USN, or why it is refused.
#[derive(Clone, Copy, Debug, PartialEq, Eq)]
enum Answer {
    Usn(u64),
    VersionLimit(u16),
    UsnLimit,
    Quarantined,
}

fn told(rt: &impl Abort, made: Made) -> Answer {
    match made {
        Ok(change) => Answer::Usn(change.usn()),
        Err(Failure::Refused(WriteRefusal::VersionLimit { attr })) => Answer::VersionLimit(attr),
        Err(Failure::Refused(WriteRefusal::UsnLimit)) => Answer::UsnLimit,
        Err(Failure::Refused(WriteRefusal::Quarantined)) => Answer::Quarantined,
        Err(_) => panic!(rt; "another refusal, or no memory"),
    }
}

/// The write of the container 10, whose name and description have a version.
fn held(alloc: Global, version: u32) -> Result<Vec<Written>, NoMemory> {
    let content = Content::Values(Values::of(described(alloc)?));
    let written = east(alloc, 1, version, content)?;
    list(alloc, [written])
}

/// Each write to a controller that holds it, at a USN and in a mode, is told what stands beside the write.
fn check(
    rt: &impl Abort,
    alloc: Global,
    version: u32,
    usn: u64,
    mode: Mode,
    cases: &[(Write, Answer)],
) {
    let writes = held(alloc, version).expect(rt, "memory");
    let state = holding(rt, alloc, usn, mode, writes);
    for (write, answer) in cases {
        assert_eq!(rt;
            told(rt, made(rt, alloc, &state, *write)),
            *answer,
            "{write:?}"
        );
    }
}

const LAST_VERSION: [(Write, Answer); 3] = [
    (Write::Describe, Answer::VersionLimit(12)),
    (Write::Rename, Answer::VersionLimit(2)),
    (Write::Delete, Answer::Usn(2)),
];

#[test]
fn the_last_version_stays(rt: HostRuntime) {
    check(&rt, rt.alloc(), u32::MAX, 1, Mode::Normal, &LAST_VERSION);
}

const NONE_LEFT: [(Write, Answer); 4] = [
    (Write::Add, Answer::UsnLimit),
    (Write::Describe, Answer::UsnLimit),
    (Write::Rename, Answer::UsnLimit),
    (Write::Delete, Answer::UsnLimit),
];

const ONE_LEFT: [(Write, Answer); 1] = [(Write::Delete, Answer::Usn(LAST_USN))];

#[test]
fn the_last_usn_stays(rt: HostRuntime) {
    let alloc = rt.alloc();
    check(&rt, alloc, 1, LAST_USN - 1, Mode::Normal, &ONE_LEFT);
    check(&rt, alloc, 1, LAST_USN, Mode::Normal, &NONE_LEFT);
}

const SHUT: [(Write, Answer); 3] = [
    (Write::Add, Answer::Quarantined),
    (Write::Rename, Answer::Quarantined),
    (Write::Link, Answer::Quarantined),
];

#[test]
fn a_database_that_was_put_back_takes_no_write(rt: HostRuntime) {
    check(&rt, rt.alloc(), 1, 1, Mode::Quarantined, &SHUT);
}
