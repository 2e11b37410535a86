//! Lines that say something, and lines that are bad, with their causes.

use adr_run_print::print;
use adr_schedule::{Failure, TEXT_LIMIT, fault_line, parse};
use std::alloc::{AllocError, Global};
use std::process::Abort;
use std::test::Fail;

/// The printed events of a text, or the line of its fault.
fn shown(alloc: Global, text: &[u8]) -> Result<Vec<u8>, AllocError> {
    match parse(alloc, text) {
        Ok(events) => print(alloc, events.as_slice()),
        Err(Failure::NoMemory) => Err(AllocError),
        Err(Failure::Refused(fault)) => fault_line(alloc, fault),
    }
}

/// Texts, and what is printed of each, or its fault.
const TEXTS: &[(&[u8], &[u8])] = &[
    // lines and spaces
    (b"", b""),
    (b"; a bad byte \xff\ntime 5", b"time 5\n"),
    (b"\n   \n  time   7  \n", b"time 7\n"),
    (b"time 1\n\xff\n", b"line 2: not UTF-8\n"),
    (b"time 1\r\n", b"line 1: no command\n"),
    (b"time 1\n\ntime 2 3\n", b"line 3: no command\n"),
    // numbers
    (
        b"time 18446744073709551615\n",
        b"time 18446744073709551615\n",
    ),
    (b"time 18446744073709551616\n", b"line 1: no command\n"),
    (b"time 01\n", b"line 1: no command\n"),
    // identifiers
    (
        b"controller A #00000000-0000-0000-0000-0000000000a0 #0\n",
        b"controller A #a0 #0\n",
    ),
    (
        b"controller A_1 #00000001-0000-0000-0000-0000000000af #ffffffff\n",
        b"controller A_1 #00000001-0000-0000-0000-0000000000af #ffffffff\n",
    ),
    (b"controller A #00 #1\n", b"line 1: no command\n"),
    (b"controller A #A0 #1\n", b"line 1: no command\n"),
    // names
    (b"show A\n", b"line 1: unknown name\n"),
    (
        b"controller A #a0 #a1\nshow A\nshow B\n",
        b"line 3: unknown name\n",
    ),
    (b"controller 1A #a0 #a1\n", b"line 1: no command\n"),
];

#[test]
fn texts_are_events_or_have_a_fault(rt: HostRuntime) -> Result<(), Fail> {
    for (text, want) in TEXTS {
        assert_eq!(rt; shown(rt.alloc(), text)?.as_slice(), *want);
    }
    Ok(())
}

/// The line of a controller.
const MADE: &[u8] = b"controller A #a0 #a1\n";

/// The printed events of lines and one more behind them, or their fault.
fn shown_behind(alloc: Global, front: &[u8], line: &[u8]) -> Result<Vec<u8>, AllocError> {
    shown(alloc, [front, line].concat(alloc)?.as_slice())
}

/// What stands behind a text is printed with it as it is.
fn is_printed(rt: &impl Abort, alloc: Global, front: &[u8], lines: &[u8]) -> Result<(), Fail> {
    let text = [front, lines].concat(alloc)?;
    assert_eq!(rt; shown(alloc, text.as_slice())?.as_slice(), text.as_slice());
    Ok(())
}

/// Each line, behind that of a controller, is answered so.
fn all_are_answered(
    rt: &impl Abort,
    alloc: Global,
    lines: &[&[u8]],
    answer: &[u8],
) -> Result<(), Fail> {
    for line in lines {
        assert_eq!(rt; shown_behind(alloc, MADE, line)?.as_slice(), answer);
    }
    Ok(())
}

/// Each line, behind others, has its answer.
fn have_answers(
    rt: &impl Abort,
    alloc: Global,
    front: &[u8],
    cases: &[(&[u8], &[u8])],
) -> Result<(), Fail> {
    for (line, answer) in cases {
        assert_eq!(rt; shown_behind(alloc, front, line)?.as_slice(), *answer);
    }
    Ok(())
}

/// Writes as they are printed.
const WRITES: &[&[u8]] = &[
    b"add A #10 user #1 \"Ann\" sAMAccountName=\"ann\"\n",
    b"add A #10 user #1 \"A \\\"\\\\\" sAMAccountName=\"\\0a\\7f\"\n",
    b"add A #10 container #2 \"\"\n",
    b"add A #10 %900 #7 \" \" %77=\n",
    b"modify A #10 description=\"a\",\"b c\" employeeNumber=-9223372036854775808,9223372036854775807,0 disabled=true,false\n",
    b"modify A #10 thumbprint=x00ff,x1a seeAlso=#a,#00000001-0000-0000-0000-000000000000\n",
    b"modify A #10 class=5 name=\"n\" deleted=true memberOf=#2 %65535=\n",
    b"rename A #10 #1 \"Ann\"\n",
    b"delete A #10\n",
    b"link A #10 member #11\n",
    b"unlink A #10 %900 #11\n",
    b"add A #10 contact #1 \"c\" title=\"t\"\n",
    b"modify A #10 title=\"t\" department=\"d\" accountExpires=0 managedObjects=#2\n",
    b"link A #10 managedBy #11\n",
];

#[test]
fn writes_are_read_and_printed(rt: HostRuntime) -> Result<(), Fail> {
    for line in WRITES {
        is_printed(&rt, rt.alloc(), MADE, line)?;
    }
    Ok(())
}

#[test]
fn writes_are_printed_in_one_form(rt: HostRuntime) -> Result<(), Fail> {
    let text = b"controller A #a0 #a1
add A #10 %5 #1 \"Ann\" mail=\"m\" sAMAccountName=\"ann\" %12=\"d\"
modify  A  #10  %77=1  mail=  class=5
link A #10 %30 #00000000-0000-0000-0000-000000000011
add A #12 %8 #1 \"c\" %23=5 %22=\"d\" %21=\"t\"
link A #10 %34 #12
modify A #12 %35=
";
    let want = b"controller A #a0 #a1
add A #10 user #1 \"Ann\" sAMAccountName=\"ann\" description=\"d\" mail=\"m\"
modify A #10 class=5 mail= %77=1
link A #10 member #11
add A #12 contact #1 \"c\" title=\"t\" department=\"d\" accountExpires=5
link A #10 managedBy #12
modify A #12 managedObjects=
";
    assert_eq!(rt; shown(rt.alloc(), text)?.as_slice(), want.as_slice());
    Ok(())
}

/// Writes outside the grammar.
const BAD_WRITES: &[&[u8]] = &[
    // a token is missing, doubled or of a wrong kind
    b"add A #10 user #1",
    b"add A #10 #1 \"Ann\"",
    b"add A user #1 \"Ann\"",
    b"add A #10 user \"Ann\"",
    b"add #10 user #1 \"Ann\"",
    b"add A #10 user #1 Ann",
    b"add A #10 user #1 \"Ann\" \"Ann\"",
    b"add A #10 user user #1 \"Ann\"",
    b"modify A #10",
    b"modify A mail=\"m\"",
    b"modify #10 mail=\"m\"",
    b"modify A #10 #11 mail=\"m\"",
    b"rename A #10 #1",
    b"rename A #10 \"Ann\"",
    b"rename A #10 #1 Ann",
    b"rename A #10 #1 \"Ann\" \"Ann\"",
    b"rename A #10 #1 \"Ann\" mail=\"m\"",
    b"delete A",
    b"delete #10",
    b"delete A #10 #11",
    b"delete A \"x\"",
    b"link A #10 member",
    b"link A #10 #11",
    b"link A member #10 #11",
    b"link A #10 member #11 #12",
    b"link A #10 member= #11",
    b"unlink A #10 member",
    b"unlink A #10 #11 member",
    b"unlink A #10 member #11 #12",
    // classes and attributes
    b"add A #10 person #1 \"Ann\"",
    b"add A #10 User #1 \"Ann\"",
    b"add A #10 5 #1 \"Ann\"",
    b"add A #10 % #1 \"Ann\"",
    b"add A #10 %05 #1 \"Ann\"",
    b"add A #10 %65536 #1 \"Ann\"",
    b"link A #10 members #11",
    b"link A #10 %65536 #11",
    b"unlink A #10 %030 #11",
    b"modify A #10 nothing=\"x\"",
    b"modify A #10 =\"x\"",
    b"modify A #10 %65536=\"x\"",
    // sets
    b"modify A #10 mail",
    b"modify A #10 mail = \"m\"",
    b"modify A #10 mail= \"m\"",
    b"modify A #10 mail=\"m\",",
    b"modify A #10 mail=,\"m\"",
    b"modify A #10 mail=\"m\",,\"n\"",
    b"modify A #10 mail=\"m\", \"n\"",
    b"modify A #10 mail=\"m\"\"n\"",
    b"modify A #10 mail=\"m\" mail=\"n\"",
    b"modify A #10 mail=\"m\" disabled=true %13=",
    // values
    b"modify A #10 mail=m",
    b"modify A #10 mail=\"m",
    b"modify A #10 mail=\"\\41\"",
    b"modify A #10 mail=\"\t\"",
    b"modify A #10 employeeNumber=-0",
    b"modify A #10 employeeNumber=01",
    b"modify A #10 employeeNumber=-01",
    b"modify A #10 employeeNumber=+1",
    b"modify A #10 employeeNumber=-",
    b"modify A #10 employeeNumber=9223372036854775808",
    b"modify A #10 employeeNumber=-9223372036854775809",
    b"modify A #10 disabled=True",
    b"modify A #10 disabled=truefalse",
    b"modify A #10 thumbprint=x",
    b"modify A #10 thumbprint=x0",
    b"modify A #10 thumbprint=xaB",
    b"modify A #10 thumbprint=x0g",
    b"modify A #10 seeAlso=#00",
];

#[test]
fn writes_outside_the_grammar(rt: HostRuntime) -> Result<(), Fail> {
    all_are_answered(&rt, rt.alloc(), BAD_WRITES, b"line 2: no command\n")
}

/// Stops and faults outside the grammar.
const BAD_STOPS: &[&[u8]] = &[
    // a token is missing, doubled or of a wrong kind
    b"stop",
    b"stop #a0",
    b"stop A kept",
    b"stop A 7",
    b"stop A after",
    b"stop A after 7",
    b"stop A after kept",
    b"stop A after kept 7",
    b"stop A 7 kept",
    b"stop A after 7 kept lost",
    b"stop A after 7 7 kept",
    b"stop A A",
    b"fail",
    b"fail A",
    b"fail A 7",
    b"fail A after",
    b"fail A after 7 kept",
    b"fail A after 7 7",
    b"fail after 7",
    b"start",
    b"start #a0",
    b"start A A",
    b"start A after 7",
    // words
    b"Stop A",
    b"stopped A",
    b"stop A After 7 kept",
    b"stop A after7 kept",
    b"stop A after 7 Kept",
    b"stop A after 7 keptlost",
    b"stop A after 7 \"kept\"",
    b"stop A after 7 ke",
    b"stop A after 7 all",
    b"fail A as 7",
    // numbers
    b"stop A after 07 kept",
    b"stop A after -1 kept",
    b"stop A after 1001 torn",
    b"stop A after 18446744073709551616 lost",
    b"fail A after 07",
    b"fail A after 1001",
    b"fail A after 4294967296",
    b"fail A after 18446744073709551616",
];

#[test]
fn stops_and_faults_outside_the_grammar(rt: HostRuntime) -> Result<(), Fail> {
    all_are_answered(&rt, rt.alloc(), BAD_STOPS, b"line 2: no command\n")
}

/// Rings outside the grammar.
const BAD_RINGS: &[&[u8]] = &[
    // a token is missing or of a wrong kind
    b"ring",
    b"ring 2",
    b"ring 2 5",
    b"ring A B",
    b"ring 2 A B",
    b"ring A B 2 5",
    b"ring 2 5 A #b0",
    b"ring 2 5 A B 7",
    b"ring 2 5 A \"B\"",
    b"ring 2 5 A, B",
    b"Ring 2 5 A B",
    // one name alone, and one that comes twice
    b"ring 2 5 A",
    b"ring 2 5 A A",
    b"ring 2 5 A B A",
    b"ring 2 5 A B B",
    b"ring 2 5 A B C D B",
    // numbers
    b"ring 0 5 A B",
    b"ring 127 5 A B",
    b"ring 02 5 A B",
    b"ring -2 5 A B",
    b"ring 4294967298 5 A B",
    b"ring 2 0 A B",
    b"ring 2 10001 A B",
    b"ring 2 05 A B",
    b"ring 2 4294967301 A B",
];

#[test]
fn rings_outside_the_grammar(rt: HostRuntime) -> Result<(), Fail> {
    all_are_answered(&rt, rt.alloc(), BAD_RINGS, b"line 2: no command\n")
}

/// Images and snapshots outside the grammar.
const BAD_COPIES: &[&[u8]] = &[
    // a token is missing, doubled or of a wrong kind
    b"collect",
    b"collect A",
    b"collect 5",
    b"collect A #5",
    b"collect A 5 5",
    b"backup",
    b"backup A",
    b"backup A as",
    b"backup A i",
    b"backup as i",
    b"backup A as #1",
    b"backup A as i i",
    b"restore",
    b"restore A i",
    b"restore A #a2",
    b"restore A #a2 i",
    b"restore A i a2",
    b"restore A i #a2 #a3",
    b"install",
    b"install C",
    b"install C #c0 i",
    b"install C #c0 #c1",
    b"install C i #c0 #c1",
    b"install C #c0 #c1 i",
    b"install #c0 C i #c1",
    b"install C #c0 i #c1 #c2",
    b"snapshot",
    b"snapshot A",
    b"snapshot A as",
    b"snapshot A s",
    b"snapshot A as s #a2",
    b"rollback",
    b"rollback A",
    b"rollback A #1",
    b"rollback A s s",
    b"upgrade",
    b"upgrade #a0",
    b"upgrade 2",
    b"upgrade A B",
    b"upgrade A 2",
    b"revive",
    b"revive A #10 i #1",
    b"revive A #10 i \"u\"",
    b"revive A #10 #1 \"u\"",
    b"revive A i #10 #1 \"u\"",
    b"revive #10 i #1 \"u\"",
    b"revive A #10 i #1 u",
    b"revive A #10 i #1 \"u\" \"u\"",
    b"revive A #10 user i #1 \"u\"",
    // words
    b"Collect A 5",
    b"Upgrade A",
    b"Revive A #10 i #1 \"u\"",
    b"back A as i",
    b"backup A AS i",
    b"backup A asi",
    b"Restore A i #a2",
    b"roll A s",
    // numbers and identifiers
    b"collect A 05",
    b"collect A -1",
    b"collect A 18446744073709551616",
    b"restore A i #0a",
    b"revive A #010 i #1 \"u\"",
    b"install C #0c i #c1",
];

#[test]
fn images_and_snapshots_outside_the_grammar(rt: HostRuntime) -> Result<(), Fail> {
    all_are_answered(&rt, rt.alloc(), BAD_COPIES, b"line 2: no command\n")
}

/// Writes to a controller that no line made.
const WRITES_OF_NOBODY: &[&[u8]] = &[
    b"add B #10 user #1 \"Ann\"",
    b"modify B #10 mail=",
    b"rename B #10 #1 \"Ann\"",
    b"delete B #10",
    b"link B #10 member #11",
    b"unlink B #10 member #11",
];

#[test]
fn writes_name_a_controller(rt: HostRuntime) -> Result<(), Fail> {
    all_are_answered(&rt, rt.alloc(), WRITES_OF_NOBODY, b"line 2: unknown name\n")
}

#[test]
fn a_text_of_65536_bytes_is_outside_the_grammar(rt: HostRuntime) -> Result<(), Fail> {
    let alloc = rt.alloc();
    let front = [MADE, b"rename A #10 #1 \""].concat(alloc)?;
    let mut name = vec![in alloc; b'a'; 65_535]?;
    name.extend_from_slice(b"\"\n")?;
    is_printed(&rt, alloc, front.as_slice(), name.as_slice())?;
    let longer = [front.as_slice(), b"a"].concat(alloc)?;
    let told = shown_behind(alloc, longer.as_slice(), name.as_slice())?;
    assert_eq!(rt; told.as_slice(), b"line 2: no command\n".as_slice());
    Ok(())
}

/// Two controllers, a request and a reply.
const BOUND: &[u8] = b"controller A #a0 #a1
controller B #b0 #b1
ask A B 1 as q
serve B q as r
";

#[test]
fn lines_that_may_follow_are_read_and_printed(rt: HostRuntime) -> Result<(), Fail> {
    let lines = b"deliver A r
pull A B 10000
cycle B A 1
ring 1 1 A B
ring 126 10000 B A
vector A
marks B
meta A #10
meta B #00000001-0000-0000-0000-000000000000
show B
stop A
stop A after 0 kept
stop B after 7 lost
stop A after 1000 torn
fail A after 0
fail B after 1000
start A
start B
ask B A 7 as A
serve A A as q
deliver B q
controller q #b1 #b0
";
    is_printed(&rt, rt.alloc(), BOUND, lines)
}

/// Lines that may not follow those, each with its cause.
const MISPLACED: &[(&[u8], &[u8])] = &[
    (b"pull A B 0", b"line 5: no command\n"),
    (b"meta A", b"line 5: no command\n"),
    (b"meta #10", b"line 5: no command\n"),
    (b"meta A #10 #11", b"line 5: no command\n"),
    (b"meta q #10", b"line 5: unknown name\n"),
    (b"cycle A B 10001", b"line 5: no command\n"),
    (b"ask A B 5 q", b"line 5: no command\n"),
    (b"ask A C 5 as q", b"line 5: unknown name\n"),
    (b"ask A B 5 as q", b"line 5: name used\n"),
    (b"serve B r as r", b"line 5: unknown name\n"),
    (b"serve B q as r", b"line 5: name used\n"),
    (b"deliver A q", b"line 5: unknown name\n"),
    (b"cycle A q 5", b"line 5: unknown name\n"),
    (b"ring 2 5 A B C", b"line 5: unknown name\n"),
    (b"ring 2 5 C B A", b"line 5: unknown name\n"),
    (b"ring 2 5 A q", b"line 5: unknown name\n"),
    (b"ring 2 5 A C A", b"line 5: no command\n"),
    (b"stop A after 1001 kept", b"line 5: no command\n"),
    (b"fail A after 1001", b"line 5: no command\n"),
    (b"stop C after 1001 kept", b"line 5: no command\n"),
    (b"stop C", b"line 5: unknown name\n"),
    (b"stop q", b"line 5: unknown name\n"),
    (b"stop C after 7 kept", b"line 5: unknown name\n"),
    (b"fail C after 7", b"line 5: unknown name\n"),
    (b"start C", b"line 5: unknown name\n"),
    (b"start r", b"line 5: unknown name\n"),
    (b"controller A #a0 #c1", b"line 5: name used\n"),
    (b"controller C #a0 #c1", b"line 5: identifier used\n"),
    (b"controller C #c0 #b1", b"line 5: identifier used\n"),
];

#[test]
fn lines_that_may_not_follow_have_a_cause(rt: HostRuntime) -> Result<(), Fail> {
    have_answers(&rt, rt.alloc(), BOUND, MISPLACED)
}

/// Two controllers, an image and a snapshot.
const COPIED: &[u8] = b"controller A #a0 #a1
controller B #b0 #b1
backup A as i
snapshot A as s
";

#[test]
fn images_and_snapshots_are_read_and_printed(rt: HostRuntime) -> Result<(), Fail> {
    let lines = b"collect A 0
collect B 18446744073709551615
backup B as s
snapshot B as i
restore A i #a2
restore A s #a3
install C #c0 i #c1
install i #c1 s #c0
rollback B s
rollback C i
collect C 5000
backup i as A
snapshot C as A
restore i A #c2
rollback i A
upgrade A
upgrade i
revive A #10 i #1 \"u\"
revive i #00000001-0000-0000-0000-000000000000 A #2 \"\"
";
    is_printed(&rt, rt.alloc(), COPIED, lines)
}

/// Lines that may not follow those, each with its cause.
const MISPLACED_COPIES: &[(&[u8], &[u8])] = &[
    (b"collect C 5", b"line 5: unknown name\n"),
    (b"collect i 5", b"line 5: unknown name\n"),
    (b"backup C as j", b"line 5: unknown name\n"),
    (b"backup C as i", b"line 5: unknown name\n"),
    (b"backup A as i", b"line 5: name used\n"),
    (b"snapshot s as t", b"line 5: unknown name\n"),
    (b"snapshot B as s", b"line 5: name used\n"),
    (b"restore C i #c1", b"line 5: unknown name\n"),
    (b"restore A s #a2", b"line 5: unknown name\n"),
    (b"restore A j #a1", b"line 5: unknown name\n"),
    (b"restore A i #a1", b"line 5: identifier used\n"),
    (b"restore A i #b1", b"line 5: identifier used\n"),
    (b"install C #c0 s #c1", b"line 5: unknown name\n"),
    (b"install A #a0 j #a1", b"line 5: unknown name\n"),
    (b"install A #c0 i #c1", b"line 5: name used\n"),
    (b"install A #a0 i #a1", b"line 5: name used\n"),
    (b"install C #b0 i #c1", b"line 5: identifier used\n"),
    (b"install C #c0 i #b1", b"line 5: identifier used\n"),
    (b"rollback C s", b"line 5: unknown name\n"),
    (b"rollback A i", b"line 5: unknown name\n"),
    (b"upgrade C", b"line 5: unknown name\n"),
    (b"upgrade s", b"line 5: unknown name\n"),
    (b"revive C #10 i #1 \"u\"", b"line 5: unknown name\n"),
    (b"revive A #10 j #1 \"u\"", b"line 5: unknown name\n"),
    (b"revive A #10 s #1 \"u\"", b"line 5: unknown name\n"),
    // what the line before bound and gave
    (b"backup B as j\nbackup A as j", b"line 6: name used\n"),
    (b"snapshot B as t\nsnapshot A as t", b"line 6: name used\n"),
    (
        b"snapshot B as t\nrestore A t #a2",
        b"line 6: unknown name\n",
    ),
    (
        b"restore A i #a2\nrestore B i #a2",
        b"line 6: identifier used\n",
    ),
    (
        b"restore A i #a2\ncontroller C #c0 #a2",
        b"line 6: identifier used\n",
    ),
    (
        b"install C #c0 i #c1\ninstall C #d0 i #d1",
        b"line 6: name used\n",
    ),
    (
        b"install C #c0 i #c1\ncontroller D #c0 #d1",
        b"line 6: identifier used\n",
    ),
    (
        b"install C #c0 i #c1\nrestore A i #c1",
        b"line 6: identifier used\n",
    ),
];

#[test]
fn images_and_snapshots_that_may_not_follow_have_a_cause(rt: HostRuntime) -> Result<(), Fail> {
    have_answers(&rt, rt.alloc(), COPIED, MISPLACED_COPIES)
}

/// Lines that make so many controllers.
fn controllers(alloc: Global, count: u32) -> Result<String, Fail> {
    let mut text = String::new(alloc);
    for number in 0..count {
        let line = format!(in alloc; "controller C{number} #{number:x} #{number:x}\n")?;
        text.push_str(line.as_str())?;
    }
    Ok(text)
}

#[test]
fn an_installed_controller_is_counted(rt: HostRuntime) -> Result<(), Fail> {
    let made = controllers(rt.alloc(), 63)?;
    let lines = b"backup C1 as i\ninstall C64 #40 i #40\ninstall C65 #41 i #41\n";
    let told = shown_behind(rt.alloc(), made.as_bytes(), lines)?;
    assert_eq!(rt; told.as_slice(), b"line 66: too many\n".as_slice());
    Ok(())
}

#[test]
fn the_65th_controller_is_one_too_many(rt: HostRuntime) -> Result<(), Fail> {
    let made = controllers(rt.alloc(), 65)?;
    let told = shown(rt.alloc(), made.as_bytes())?;
    assert_eq!(rt; told.as_slice(), b"line 65: too many\n".as_slice());
    Ok(())
}

/// The line of a ring of so many.
fn ring_of(alloc: Global, count: u32) -> Result<String, Fail> {
    let mut text = String::new(alloc);
    text.push_str("ring 2 5")?;
    for number in 0..count {
        let name = format!(in alloc; " C{number}")?;
        text.push_str(name.as_str())?;
    }
    text.push_str("\n")?;
    Ok(text)
}

#[test]
fn a_ring_of_65_is_outside_the_grammar(rt: HostRuntime) -> Result<(), Fail> {
    let alloc = rt.alloc();
    let made = controllers(alloc, 64)?;
    let whole = ring_of(alloc, 64)?;
    is_printed(&rt, alloc, made.as_bytes(), whole.as_bytes())?;
    let longer = ring_of(alloc, 65)?;
    let told = shown_behind(alloc, made.as_bytes(), longer.as_bytes())?;
    assert_eq!(rt; told.as_slice(), b"line 65: no command\n".as_slice());
    Ok(())
}

#[test]
fn a_text_past_16_mib_is_too_long(rt: HostRuntime) -> Result<(), Fail> {
    let text = vec![in rt.alloc(); b'\n'; TEXT_LIMIT + 1]?;
    assert_eq!(rt;
        shown(rt.alloc(), text.as_slice())?.as_slice(),
        b"line 0: too long\n".as_slice()
    );
    Ok(())
}
