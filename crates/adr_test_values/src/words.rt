//! Values from outside: the tables of the schema, spellings, the bytes of the formats and crash images, all worked out
//! by hand; and what no clause tells of readers and writers.

use adr_checks::{
    Schema, attribute_kind, attribute_name, attribute_number, check_name, class_name, class_number,
};
use adr_disk::{Crash, Disk};
use adr_io::{Fault, ReadSource, Sink, Source, WriteSink};
use adr_run_disk::MemDisk;
use adr_token::{Line, Stop, push_class, push_set};
use adr_values::{
    Birth, Content, Guid, Kind, LinkKey, LinkStamp, Mark, Octets, Oid, SchemaRefusal, Stamp,
    Syntax, Text, Value, Values, Vector, fold_name,
};
use adr_wire::{Failure, Malformed, Reader, WireRefusal, Writer};
use std::alloc::Global;
use std::io::{Error, ErrorKind, Read, Write};
use std::test::Fail;

/// A class: its number, its name, what its objects must and may have, and its superiors.
type ClassRow = (
    u16,
    &'static str,
    &'static [u16],
    &'static [u16],
    &'static [u16],
);

const CLASSES: &[ClassRow] = &[
    (3, "organizationalUnit", &[], &[12, 18, 20, 32], &[1, 3]),
    (4, "container", &[], &[12], &[1, 3, 4]),
    (
        5,
        "user",
        &[10],
        &[11, 12, 13, 14, 15, 16, 17, 18, 32],
        &[1, 3, 4],
    ),
    (6, "group", &[19], &[10, 12, 13, 18, 30], &[1, 3, 4]),
    (7, "computer", &[10], &[12, 16, 17, 20], &[1, 3, 4]),
];

/// Whether objects of a class have an attribute, of values or of links.
fn has(schema: Schema, class: u16, attr: u16) -> bool {
    match attribute_kind(attr) {
        Some(Kind::Plain { .. }) => {
            !matches!(
                schema.check_values(Some(class), attr, &[]),
                Err(SchemaRefusal::NotAllowed { .. } | SchemaRefusal::UnknownAttribute { .. })
            )
        }
        _ => schema.check_link(class, attr).is_ok(),
    }
}

fn has_only(schema: Schema, class: u16, must: &[u16], may: &[u16], more: &[u16]) -> bool {
    for attr in 0..40 {
        let may_have = may.contains(&attr) || more.contains(&attr);
        if has(schema, class, attr) != (must.contains(&attr) || may_have) {
            return false;
        }
    }
    true
}

fn stands_only_under(schema: Schema, class: u16, superiors: &[u16]) -> bool {
    for parent in 0..9 {
        if schema.is_superior(class, parent) != superiors.contains(&parent) {
            return false;
        }
    }
    true
}

/// What objects of a class may have in the second schema besides.
fn more_in_the_second(class: u16) -> &'static [u16] {
    match class {
        3 | 6 | 7 => &[34],
        5 => &[21, 22, 23],
        _ => &[],
    }
}

#[test]
fn classes_are_those_of_the_table(rt: HostRuntime) -> Result<(), Fail> {
    let (first, second) = (Schema::new(1), Schema::new(2));
    let (first, second) = (first.ok_or("schema 1")?, second.ok_or("schema 2")?);
    for (class, name, must, may, superiors) in CLASSES {
        let class = *class;
        let named = class_name(class) == Some(*name)
            && class_number(name.as_bytes()) == Some(class);
        let more = more_in_the_second(class);
        assert!(rt;
            named && first.must(class) == *must && second.must(class) == *must,
            "{name}"
        );
        assert!(rt; has_only(first, class, must, may, &[]), "{name}");
        assert!(rt; has_only(second, class, must, may, more), "{name}");
        assert!(rt; stands_only_under(first, class, superiors), "{name}");
        assert!(rt; stands_only_under(second, class, superiors), "{name}");
    }
    for class in &[0, 1, 2, 9, 10] {
        assert_eq!(rt; class_name(*class), None);
    }
    Ok(())
}

#[test]
fn the_second_schema_has_contacts(rt: HostRuntime) -> Result<(), Fail> {
    let schema = Schema::new(2).ok_or("schema 2")?;
    assert_eq!(rt; class_name(8), Some("contact"));
    assert_eq!(rt; class_number(b"contact"), Some(8));
    assert!(rt; schema.must(8).is_empty());
    assert!(rt; has_only(schema, 8, &[], &[11, 12, 13, 14, 18, 21, 32], &[]));
    assert!(rt; stands_only_under(schema, 8, &[1, 3, 4]));
    Ok(())
}

#[rattlefmt::skip]
const ATTRIBUTES: &[(u16, &str, Kind)] = &[
    (1, "class", Kind::Reserved),
    (2, "name", Kind::Reserved),
    (3, "deleted", Kind::Reserved),
    (10, "sAMAccountName", Kind::Plain { syntax: Syntax::Text { least: 1, greatest: 20 }, most: 1 }),
    (11, "displayName", Kind::Plain { syntax: Syntax::Text { least: 1, greatest: 256 }, most: 1 }),
    (12, "description", Kind::Plain { syntax: Syntax::Text { least: 1, greatest: 256 }, most: 8 }),
    (13, "mail", Kind::Plain { syntax: Syntax::Text { least: 1, greatest: 256 }, most: 1 }),
    (14, "telephoneNumber", Kind::Plain { syntax: Syntax::Text { least: 1, greatest: 64 }, most: 8 }),
    (15, "employeeNumber", Kind::Plain { syntax: Syntax::Number { least: 0, greatest: 999_999_999 }, most: 1 }),
    (16, "disabled", Kind::Plain { syntax: Syntax::Flag, most: 1 }),
    (17, "thumbprint", Kind::Plain { syntax: Syntax::Octets { least: 1, greatest: 64 }, most: 4 }),
    (18, "seeAlso", Kind::Plain { syntax: Syntax::Ref, most: 8 }),
    (19, "groupType", Kind::Plain { syntax: Syntax::Number { least: -2147483648, greatest: 2147483647 }, most: 1 }),
    (20, "location", Kind::Plain { syntax: Syntax::Text { least: 1, greatest: 128 }, most: 1 }),
    (21, "title", Kind::Plain { syntax: Syntax::Text { least: 1, greatest: 128 }, most: 1 }),
    (22, "department", Kind::Plain { syntax: Syntax::Text { least: 1, greatest: 64 }, most: 1 }),
    (23, "accountExpires", Kind::Plain { syntax: Syntax::Number { least: 0, greatest: 9223372036854775807 }, most: 1 }),
    (30, "member", Kind::Forward { back: 31 }),
    (31, "memberOf", Kind::Back { forward: 30 }),
    (32, "manager", Kind::Forward { back: 33 }),
    (33, "directReports", Kind::Back { forward: 32 }),
    (34, "managedBy", Kind::Forward { back: 35 }),
    (35, "managedObjects", Kind::Back { forward: 34 }),
];

#[test]
fn attributes_are_those_of_the_table(rt: HostRuntime) {
    for (attr, name, kind) in ATTRIBUTES {
        let named = attribute_name(*attr) == Some(*name)
            && attribute_number(name.as_bytes()) == Some(*attr);
        assert!(rt; named && attribute_kind(*attr) == Some(*kind), "{name}");
    }
    for attr in &[0, 4, 9, 24, 29, 36] {
        assert_eq!(rt; attribute_name(*attr), None);
    }
}

/// Names, and where a bad one is wrong.
const NAMES: &[(&str, Option<u32>)] = &[
    ("Ann", None),
    ("a b", None),
    ("\u{80}", None),
    ("", Some(0)),
    (" n", Some(0)),
    ("n ", Some(1)),
    ("an\n", Some(2)),
    ("a\u{7f}n ", Some(1)),
];

/// Where a name is wrong, if it is.
fn wrong_at(name: &str) -> Option<u32> {
    match check_name(name) {
        Err(SchemaRefusal::BadName { place }) => Some(place),
        _ => None,
    }
}

#[test]
fn names_are_checked_and_folded(rt: HostRuntime) -> Result<(), Fail> {
    for (name, wrong) in NAMES {
        assert_eq!(rt; check_name(name).is_ok(), wrong.is_none(), "{name:?}");
        assert_eq!(rt; wrong_at(name), *wrong, "{name:?}");
    }
    assert_eq!(rt; fold_name(rt.alloc(), "straße")?.as_str(), "strasse");
    assert_eq!(rt;
        fold_name(rt.alloc(), "LostAndFound")?.as_str(),
        "lostandfound"
    );
    Ok(())
}

/// A value of each syntax.
fn values(alloc: Global) -> Result<[Value; 5], Fail> {
    let text = Text::from_str(alloc, "a\"\n\u{7f}é")?;
    let octets = Octets::of(Vec::from_slice(alloc, b"\x0a\xff")?);
    Ok([
        Value::Text(text),
        Value::Octets(octets),
        Value::Number(-7),
        Value::Flag(true),
        Value::Ref(Guid::from_u128(0xa1)),
    ])
}

#[test]
fn values_and_names_are_spelled(rt: HostRuntime) -> Result<(), Fail> {
    let alloc = rt.alloc();
    let mut out = Vec::new(alloc);
    push_class(&mut out, 7)?;
    push_class(&mut out, 99)?;
    push_set(&mut out, 12, &values(alloc)?)?;
    let spelled = "computer%99description=\"a\\\"\\0a\\7fé\",x0aff,-7,true,#a1";
    assert_eq!(rt; out.as_slice(), spelled.as_bytes());
    Ok(())
}

/// A name, a number and an identifier behind a word.
fn read_line(alloc: Global, text: &[u8]) -> Result<(Text, u64, Guid, bool), Stop> {
    let mut line = Line::new(text);
    line.said(b"add")?;
    let name = line.name(alloc)?;
    let number = line.number()?;
    let id = line.identifier()?;
    Ok((name, number, id, line.is_ended()))
}

#[test]
fn a_line_is_read_token_by_token(rt: HostRuntime) -> Result<(), Fail> {
    let (name, number, id, ended) = read_line(rt.alloc(), b" add  A 12 #a0  ")?;
    assert!(rt; name.as_str() == "A" && ended);
    assert_eq!(rt; (number, id.as_u128()), (12, 0xa0));
    Ok(())
}

const A: &[u8] = &[0, 0, 0, 0, 0, 0, 0, 0, 0, 0, 0, 0, 0, 0, 0, 0xa0];

const B: &[u8] = &[0, 0, 0, 0, 0, 0, 0, 0, 0, 0, 0, 0, 0, 0, 0, 0xb0];

const ZERO: &[u8] = &[0, 0, 0, 0, 0, 0, 0, 0];

const FIVE: &[u8] = &[0, 0, 0, 0, 0, 0, 0, 5];

const NINE: &[u8] = &[0, 0, 0, 0, 0, 0, 0, 9];

const LESS_TWO: &[u8] = &[0xff, 0xff, 0xff, 0xff, 0xff, 0xff, 0xff, 0xfe];

const TOO_GREAT: &[u8] = &[0x80, 0, 0, 0, 0, 0, 0, 0];

const ONE: &[u8] = &[0, 0, 0, 1];

fn oid() -> Oid {
    Oid {
        guid: Guid::from_u128(0xa0),
        birth: Birth {
            inv: Guid::from_u128(0xb0),
            usn: 5,
        },
    }
}

fn stamp() -> Stamp {
    Stamp::first(0, Guid::from_u128(0xa0), 5)
}

#[rattlefmt::skip]
const LINK: [&[u8]; 13] = [
    A, B, FIVE, &[0, 12], A, B, FIVE,
    NINE, ONE, ZERO, A, FIVE,
    &[1],
];

const MARK: [&[u8]; 3] = [FIVE, ZERO, FIVE];

#[test]
fn links_and_marks_are_written_as_their_bytes(rt: HostRuntime) -> Result<(), Fail> {
    let alloc = rt.alloc();
    let (from, to) = (oid(), oid());
    let key = LinkKey { from, attr: 12, to };
    let (created, stamp) = (9, stamp());
    let mut writer = Writer::new(alloc);
    writer.write_link(&(key, LinkStamp { created, stamp }, true))?;
    writer.write_mark(&Mark {
        obj: 5,
        prop: 0,
        seen: 5,
    })?;
    let mut due = LINK.concat(alloc)?;
    due.extend_from_slice(&MARK.concat(alloc)?)?;
    assert_eq!(rt; writer.into_bytes().as_slice(), due.as_slice());
    Ok(())
}

const VECTOR: [&[u8]; 5] = [&[0, 0, 0, 2], A, FIVE, B, NINE];

#[test]
fn a_vector_is_written_in_order(rt: HostRuntime) -> Result<(), Fail> {
    let alloc = rt.alloc();
    let mut seen = Vector::new(alloc);
    assert!(rt; seen.raise(Guid::from_u128(0xb0), 9).is_ok());
    assert!(rt; seen.raise(Guid::from_u128(0xa0), 5).is_ok());
    let mut writer = Writer::new(alloc);
    writer.write_vector(&seen)?;
    assert_eq!(rt;
        writer.into_bytes().as_slice(),
        VECTOR.concat(alloc)?.as_slice()
    );
    Ok(())
}

#[rattlefmt::skip]
const OBJECT: [&[u8]; 18] = [
    A, B, FIVE, &[0, 2],
    &[0, 1], ONE, ZERO, A, FIVE, &[0, 5],
    &[0, 9], ONE, ZERO, A, FIVE, &[2, 4], b"\0\x02hi", b"\x02\xff\xff\xff\xff\xff\xff\xff\xfe",
];

#[test]
fn rows_are_written_as_their_bytes(rt: HostRuntime) -> Result<(), Fail> {
    let alloc = rt.alloc();
    let mut values = Vec::new(alloc);
    values.push(Value::Octets(Octets::of(Vec::from_slice(alloc, b"hi")?)))?;
    values.push(Value::Number(-2))?;
    let said = Content::Values(Values::of(values));
    let mut writer = Writer::new(alloc);
    writer.write_row_of(1, &stamp(), &Content::Class(5))?;
    writer.write_row_of(9, &stamp(), &said)?;
    assert_eq!(rt;
        writer.into_bytes().as_slice(),
        OBJECT[4..].concat(alloc)?.as_slice()
    );
    Ok(())
}

#[derive(Clone, Copy)]
enum Word {
    Flag,
    Mark,
    Text,
    Value,
    Vector,
    Object,
}

/// Reads one word, which has to be all of the bytes.
fn read(alloc: Global, word: Word, bytes: &[u8]) -> Result<(), WireRefusal> {
    let mut reader = Reader::new(bytes);
    match word {
        Word::Flag => drop(reader.read_flag()?),
        Word::Mark => drop(reader.read_mark()?),
        Word::Text => drop(reader.read_text(alloc)?),
        Word::Value => drop(reader.read_value(alloc)?),
        Word::Vector => drop(reader.read_vector(alloc)?),
        Word::Object => drop(reader.read_object(alloc)?),
    }
    reader.end()
}

/// Fields that are refused at a place, which is where the first wrong one begins.
const REFUSED: [(Word, &[&[u8]], u64); 11] = [
    (Word::Flag, &[&[2]], 0),
    (Word::Flag, &[&[1], &[0]], 1),
    (Word::Mark, &[FIVE, TOO_GREAT, FIVE], 8),
    (Word::Mark, &[FIVE, FIVE, &[0, 0]], 16),
    (Word::Text, &[b"\0\x02\xff\xfe"], 0),
    (Word::Value, &[&[6], LESS_TWO], 0),
    (Word::Value, &[&[3], &[2]], 1),
    (Word::Vector, &[&[0, 0, 0x27, 0x11], A, FIVE], 0),
    (Word::Vector, &[&[0, 0, 0, 2], A, FIVE, A, FIVE], 28),
    (Word::Vector, &[&[0, 0, 0, 1], B, ZERO], 20),
    (Word::Object, &[A, B, FIVE, &[0, 0]], 40),
];

#[test]
fn bytes_are_refused_at_the_first_wrong_field(rt: HostRuntime) -> Result<(), Fail> {
    let alloc = rt.alloc();
    for (word, fields, place) in REFUSED {
        let answer = read(alloc, word, &fields.concat(alloc)?);
        assert_eq!(rt; answer, Err(Failure::Refused(Malformed { place })));
    }
    Ok(())
}

/// How many calls pass, and what a crash then leaves where it keeps, loses or tears what wasn't synced.
type Images = (u32, &'static [u8], &'static [u8], &'static [u8]);

const AFTER: &[Images] = &[
    (1, b"abcdXYZ", b"abcd", b"abcdX\xC3\xC3"),
    (2, b"abcdXYZ", b"abcdXYZ", b"abcdXYZ"),
    (3, b"pqrdXYZ", b"abcdXYZ", b"p\xC3\xC3dXYZ"),
    (4, b"pqrdXYZ", b"pqrdXYZ", b"pqrdXYZ"),
];

const WITHIN: &[Images] = &[
    (0, b"abcdXYZ", b"abcd", b"abcdX\xC3\xC3"),
    (1, b"abcdXYZ", b"abcd", b"abcdX\xC3\xC3"),
    (2, b"pqrdXYZ", b"abcdXYZ", b"p\xC3\xC3dXYZ"),
    (3, b"pqrdXYZ", b"abcdXYZ", b"p\xC3\xC3dXYZ"),
];

/// The first so many of two writes, each with a sync behind it: three bytes at the end, and three at the start.
fn run(disk: &mut MemDisk, calls: u32) -> Result<(), Fault> {
    let end = disk.len()?;
    if calls > 0 {
        disk.write_at(end, b"XYZ")?;
    }
    if calls > 1 {
        disk.sync()?;
    }
    if calls > 2 {
        disk.write_at(0, b"pqr")?;
    }
    if calls > 3 {
        disk.sync()?;
    }
    Ok(())
}

/// What a crash leaves of `abcd`: after so many calls, or within the next.
fn left(alloc: Global, calls: u32, within: bool, how: Crash) -> Result<Vec<u8>, Fail> {
    let mut disk = MemDisk::of(alloc, Vec::from_slice(alloc, b"abcd")?);
    if within {
        disk.stop_after(calls, how);
        let _ = run(&mut disk, 4);
    } else {
        let _ = run(&mut disk, calls);
        disk.crash(how);
    }
    Ok(disk.bytes(alloc)?)
}

/// Whether a crash leaves the images of a row.
fn leaves(alloc: Global, within: bool, row: Images) -> Result<bool, Fail> {
    let (calls, kept, lost, torn) = row;
    Ok(
        left(alloc, calls, within, Crash::Kept)?.as_slice() == kept
            && left(alloc, calls, within, Crash::Lost)?.as_slice() == lost
            && left(alloc, calls, within, Crash::Torn)?.as_slice() == torn,
    )
}

#[test]
fn a_crash_leaves_the_images_of_the_table(rt: HostRuntime) -> Result<(), Fail> {
    for row in AFTER {
        assert!(rt; leaves(rt.alloc(), false, *row)?, "after");
    }
    for row in WITHIN {
        assert!(rt; leaves(rt.alloc(), true, *row)?, "within");
    }
    Ok(())
}

/// A line that works at every second call.
#[derive(Drop)]
struct Flaky {
    works: bool,
}

impl Flaky {
    fn turn(&mut self) -> std::io::Result<()> {
        self.works = !self.works;
        if self.works {
            Ok(())
        } else {
            Err(Error::from(ErrorKind::Other))
        }
    }
}

impl Read for Flaky {
    fn read(&mut self, into: &mut [u8]) -> std::io::Result<usize> {
        self.turn()?;
        match into {
            [first, ..] => {
                *first = b'x';
                Ok(1)
            }
            [] => Ok(0),
        }
    }
}

impl Write for Flaky {
    fn write(&mut self, bytes: &[u8]) -> std::io::Result<usize> {
        self.turn()?;
        Ok(bytes.len())
    }

    fn flush(&mut self) -> std::io::Result<()> {
        Ok(())
    }
}

#[test]
fn the_adapters_pass_bytes_and_failures_on(rt: HostRuntime) {
    let mut source = ReadSource::new(Flaky { works: false });
    let mut into = [0; 2];
    let told = [source.read(&mut into), source.read(&mut [])];
    assert_eq!(rt; (told, into), ([Ok(1), Err(Fault::Failed)], *b"x\0"));
    let mut sink = WriteSink::new(Flaky { works: false });
    let told = [sink.write(b"x"), sink.write(b"x")];
    assert_eq!(rt; told, [Ok(()), Err(Fault::Failed)]);
}

/// A reader whose first call a signal interrupts.
#[derive(Drop)]
struct Interrupted {
    was: bool,
}

impl Read for Interrupted {
    fn read(&mut self, into: &mut [u8]) -> std::io::Result<usize> {
        if self.was {
            return Ok(into.len());
        }
        self.was = true;
        Err(Error::from(ErrorKind::Interrupted))
    }
}

#[test]
fn a_read_that_is_interrupted_is_made_again(rt: HostRuntime) {
    let mut source = ReadSource::new(Interrupted { was: false });
    assert_eq!(rt; source.read(&mut [0; 3]), Ok(3));
}
