//! What no schedule shows: other words, calls that fail, and a text that is too long. Expected bytes are worked out by hand.

ghost use Rattle.std.specs.Prelude.{◌<◌};

use crate::memory::Failing::Never;
use crate::memory::{Failing, Memory};
use std::alloc::Global;
use std::test::Fail;

/// The status of the words over a text that is read in pieces, and what was written.
fn outcome(
    alloc: Global,
    words: &[&str],
    text: &[u8],
    piece: usize,
    failing: Failing,
) -> Result<(u8, Vec<u8>), Fail>
    requires { 0 < piece }
{
    let mut memory = Memory::new(alloc, text, piece)?;
    memory.fail(failing);
    let (status, after) = memory.run(alloc, words)?;
    Ok((status, Vec::from_slice(alloc, after.sink.bytes())?))
}

const PEOPLE: &[u8] =
    b"controller A #a0 #a1\ntime 1000\nadd A #10 user #1 \"Ann\" sAMAccountName=\"ann\"\nadd A #11 user #1 \"Bo\" sAMAccountName=\"bo\"\nshow A\n";

const PEOPLE_WRITTEN: [&str; 4] = [
    "controller A: ok\n",
    "add A: ok usn=1\n",
    "add A: ok usn=2\n",
    "show A: 2\n  #10 user parent=#1 name=\"Ann\" sAMAccountName=\"ann\"\n  #11 user parent=#1 name=\"Bo\" sAMAccountName=\"bo\"\n",
];

#[test]
fn usage_for_other_words(rt: HostRuntime) -> Result<(), Fail> {
    let usage =
        "usage: adrep replay | exercise N | create NAME | install NAME | restore NAME DSA | backup NAME | show NAME | export NAME | serve NAME PORT COUNT | pull NAME PORT | send PORT\n";
    let cases: [&[&str]; 7] = [
        &[],
        &["replay", "x"],
        &["exercise"],
        &["exercise", "1001"],
        &["--help"],
        &["Replay"],
        &["pull", "A", "0"],
    ];
    for words in cases {
        let (status, written) = outcome(rt.alloc(), words, PEOPLE, 7, Never)?;
        assert_eq!(rt; status, 2);
        assert_eq!(rt; written.as_slice(), usage.as_bytes());
    }
    Ok(())
}

/// Numbers, and what the runs of their generated schedules come to: 10 groups, five persons for each one of the number,
/// every tenth of whom is deleted, and then forgotten by four controllers.
const EXERCISES: [(&str, &str); 3] = [
    (
        "1",
        "exercise 1: objects=15 links=5 refused=0 collected=0 equal=true\n",
    ),
    (
        "7",
        "exercise 7: objects=42 links=32 refused=0 collected=12 equal=true\n",
    ),
    (
        "40",
        "exercise 40: objects=190 links=180 refused=0 collected=80 equal=true\n",
    ),
];

#[test]
fn generated_schedules(rt: HostRuntime) -> Result<(), Fail> {
    for (number, line) in EXERCISES {
        let words = ["exercise", number];
        let (status, written) = outcome(rt.alloc(), &words, PEOPLE, 7, Never)?;
        assert_eq!(rt; status, 0);
        assert_eq!(rt; written.as_slice(), line.as_bytes());
    }
    let failing = Failing::Sink(0);
    let (status, written) = outcome(rt.alloc(), &["exercise", "1"], PEOPLE, 7, failing)?;
    assert_eq!(rt; status, 5);
    assert_eq!(rt; written.len(), 0);
    Ok(())
}

#[test]
fn a_text_that_is_too_long(rt: HostRuntime) -> Result<(), Fail> {
    let mut text = Vec::new(rt.alloc());
    text.resize(16_777_216, b'\n')?;
    let (status, written) = outcome(rt.alloc(), &["replay"], text.as_slice(), 65_536, Never)?;
    assert_eq!(rt; status, 0);
    assert_eq!(rt; written.len(), 0);
    text.push(b'\n')?;
    let (status, written) = outcome(rt.alloc(), &["replay"], text.as_slice(), 65_536, Never)?;
    assert_eq!(rt; status, 3);
    assert_eq!(rt; written.as_slice(), b"line 0: too long\n".as_slice());
    Ok(())
}

#[test]
fn a_read_that_fails_at_each_turn(rt: HostRuntime) -> Result<(), Fail> {
    for calls in 0..24 {
        let failing = Failing::Source(calls);
        let (status, written) = outcome(rt.alloc(), &["replay"], PEOPLE, 7, failing)?;
        // 126 bytes are 18 reads, and the end is one more.
        assert_eq!(rt; status, if calls < 19 { 4 } else { 0 }, "after {calls}");
        assert!(rt; status == 0 || written.len() == 0, "after {calls}");
    }
    Ok(())
}

#[test]
fn a_write_that_fails_at_each_turn(rt: HostRuntime) -> Result<(), Fail> {
    let mut due = Vec::new(rt.alloc());
    for calls in 0..4u32 {
        let failing = Failing::Sink(calls);
        let (status, written) = outcome(rt.alloc(), &["replay"], PEOPLE, 7, failing)?;
        assert_eq!(rt; status, 5, "after {calls}");
        assert_eq!(rt; written.as_slice(), due.as_slice(), "after {calls}");
        due.extend_from_slice(PEOPLE_WRITTEN[calls as usize].as_bytes())?;
    }
    let (status, written) = outcome(rt.alloc(), &["replay"], PEOPLE, 7, Never)?;
    assert_eq!(rt; status, 0);
    assert_eq!(rt; written.as_slice(), due.as_slice());
    Ok(())
}

/// So many lines that change one object, each acknowledged: records of some 400 KiB, which is several times what an area
/// takes before the log is written anew.
const CHANGES: u64 = 3000;

/// One object whose description is changed again and again, and the start of its controller behind all of it.
fn changed_again_and_again(alloc: Global) -> Result<String, Fail> {
    let mut text = String::from_str(
        alloc,
        "controller A #a0 #a1\nadd A #10 container #1 \"x\"\n",
    )?;
    for count in 1..CHANGES + 1 {
        text.push_str(format!(in alloc; "modify A #10 description=\"{count}\"\n")?.as_str())?;
    }
    text.push_str("stop A\nstart A\nshow A\n")?;
    Ok(text)
}

#[test]
fn a_log_that_was_written_anew(rt: HostRuntime) -> Result<(), Fail> {
    let text = changed_again_and_again(rt.alloc())?;
    let (status, written) = outcome(rt.alloc(), &["replay"], text.as_bytes(), 65_536, Never)?;
    assert_eq!(rt; status, 0);
    let due =
        "modify A: ok usn=3001\nstop A: ok\nstart A: ok\nshow A: 1\n  #10 container parent=#1 name=\"x\" description=\"3000\"\n";
    assert!(rt; written.as_slice().ends_with(due.as_bytes()));
    assert_eq!(rt;
        written.as_slice().split(|byte| *byte == b'\n').count(),
        3007
    );
    Ok(())
}
