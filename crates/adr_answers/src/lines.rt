//! The lines of answers.

ghost use Rattle.std.specs.Prelude.{◌≡◌, ◌++◌, ◌+◌, OnOk, IfOk, flat_map, codes, length};
ghost use Rattle.std.specs.Fmt.{decimal};
ghost use Rattle.std.specs.List.{sum_by};
ghost use Rattle.adr_token.specs.Room.{TakesRoom};
ghost use Rattle.adr_answers.specs.Room.{HasNoReport, field_room, line_room, plain_room, result_room};
ghost use Rattle.adr_answers.specs.Line.{plain_text, from_to, left_text, counts_text, truth_text, field_text, result_text, report_lines, line, nameless_line};

use crate::each::push_each;
use crate::knowledge::{push_dated, push_mark, push_number_behind};
use adr_call::{Answer, Field, Outcome, Plainly};
use adr_token::{push, push_attribute, push_identifier, push_number};
use adr_values::{Mark, NoMemory};
use std::alloc::Global;

#[tactic(auto, unfolding(crate::specs::Line::plain_text))]
fn push_plainly(out: &mut Vec<u8>, value: &Plainly) -> Result<(), NoMemory>
    ensures items { OnOk result (out.new.items ≡ out.old.items ++ plain_text value.now) }
    ensures room { TakesRoom (plain_room value.now) out.old result out.new }
{
    match value {
        Plainly::Id(id) => push_identifier(out, *id),
        Plainly::Number(number) => push_number(out, *number),
        Plainly::Mark(mark) => push_mark(out, *mark),
        Plainly::Attr(attr) => push_attribute(out, *attr),
        Plainly::Word(word) => push(out, word.items()),
    }
}

#[tactic(auto, unfolding(crate::specs::Line::field_text))]
fn push_field(out: &mut Vec<u8>, field: &Field) -> Result<(), NoMemory>
    ensures items { OnOk result (out.new.items ≡ out.old.items ++ field_text field.now) }
    ensures room { TakesRoom (field_room field.now) out.old result out.new }
{
    push(out, b" ")?;
    push(out, field.name.items())?;
    push(out, b"=")?;
    push_plainly(out, &field.value)
}

fn push_fields(out: &mut Vec<u8>, fields: &[Field]) -> Result<(), NoMemory>
    ensures items { OnOk result (out.new.items ≡ out.old.items ++ flat_map field_text fields.now) }
    ensures room { TakesRoom (sum_by field_room fields.now) out.old result out.new }
{
    for field in fields {
        push_field(out, field)?;
    }
    Ok(())
}

fn push_from_to(out: &mut Vec<u8>, from: Mark, to: Mark) -> Result<(), NoMemory>
    ensures items { OnOk result (out.new.items ≡ out.old.items ++ from_to from to) }
    ensures room { TakesRoom 136 out.old result out.new }
{
    push(out, b"ok from=")?;
    push_mark(out, from)?;
    push(out, b" to=")?;
    push_mark(out, to)
}

fn left_text(last: bool) -> &'static [u8]
    ensures { result.now ≡ left_text last }
{
    if last {
        b" last".as_slice()
    } else {
        b" more".as_slice()
    }
}

fn push_counts(out: &mut Vec<u8>, items: u32, rows: u32, last: bool) -> Result<(), NoMemory>
    ensures items { OnOk result (out.new.items ≡ out.old.items ++ counts_text items rows last) }
    ensures room { TakesRoom 58 out.old result out.new }
{
    push_number_behind(out, b" items=", u64::from(items))?;
    push_number_behind(out, b" rows=", u64::from(rows))?;
    push(out, left_text(last))
}

fn push_took(out: &mut Vec<u8>, items: u32, wrote: u32, usn: u64) -> Result<(), NoMemory>
    ensures items { OnOk result (out.new.items
        ≡ out.old.items
        ++ (codes "ok items=" ++ decimal items ++ codes " wrote=" ++ decimal wrote ++ codes " usn="
        ++ decimal usn)) }
    ensures room { TakesRoom 81 out.old result out.new }
{
    push_number_behind(out, b"ok items=", u64::from(items))?;
    push_number_behind(out, b" wrote=", u64::from(wrote))?;
    push_number_behind(out, b" usn=", usn)
}

/// Whether something is so, in a word.
pub fn truth_text(is: bool) -> &'static [u8]
    ensures { result.now ≡ truth_text is }
{
    if is {
        b"true".as_slice()
    } else {
        b"false".as_slice()
    }
}

fn push_compared(
    out: &mut Vec<u8>,
    rounds: u32,
    directories: bool,
    vectors: bool,
) -> Result<(), NoMemory>
    ensures items { OnOk result (out.new.items
        ≡ out.old.items
        ++ (codes "ok rounds=" ++ decimal rounds ++ codes " directories=" ++ truth_text directories ++ codes " vectors="
        ++ truth_text vectors)) }
    ensures room { TakesRoom 62 out.old result out.new }
{
    push_number_behind(out, b"ok rounds=", u64::from(rounds))?;
    push(out, b" directories=")?;
    push(out, truth_text(directories))?;
    push(out, b" vectors=")?;
    push(out, truth_text(vectors))
}

fn push_served(
    out: &mut Vec<u8>,
    from: Mark,
    to: Mark,
    items: u32,
    rows: u32,
    last: bool,
) -> Result<(), NoMemory>
    ensures items { OnOk result (out.new.items ≡ out.old.items ++ (from_to from to ++ counts_text items rows last)) }
    ensures room { TakesRoom 194 out.old result out.new }
{
    push_from_to(out, from, to)?;
    push_counts(out, items, rows, last)
}

fn push_refused(
    out: &mut Vec<u8>,
    number: u8,
    label: &[u8],
    fields: &[Field],
) -> Result<(), NoMemory>
    ensures items { OnOk result (out.new.items
        ≡ out.old.items
        ++ (codes "refused " ++ decimal number ++ codes " " ++ label.now ++ flat_map field_text fields.now)) }
    ensures room { TakesRoom (29 + length label.now + sum_by field_room fields.now) out.old result out.new }
{
    push_number_behind(out, b"refused ", u64::from(number))?;
    push(out, b" ")?;
    push(out, label)?;
    push_fields(out, fields)
}

/// Adds what stands behind the colon.
#[tactic(auto, unfolding(crate::specs::Line::result_text))]
fn push_result(out: &mut Vec<u8>, outcome: &Outcome) -> Result<(), NoMemory>
    ensures items { OnOk result (out.new.items ≡ out.old.items ++ result_text outcome.now) }
    ensures room { TakesRoom (result_room outcome.now) out.old result out.new }
{
    match outcome {
        Outcome::Ok => push(out, b"ok"),
        Outcome::Usn(usn) => push_number_behind(out, b"ok usn=", *usn),
        Outcome::Served {
            from,
            to,
            items,
            rows,
            last,
        } => push_served(out, *from, *to, *items, *rows, *last),
        Outcome::Took { items, wrote, usn } => push_took(out, *items, *wrote, *usn),
        Outcome::Removed(removed) => push_number_behind(out, b"ok removed=", u64::from(*removed)),
        Outcome::Compared {
            rounds,
            directories,
            vectors,
        } => push_compared(out, *rounds, *directories, *vectors),
        Outcome::Show(directory) => push_number(out, directory.entries().len() as u64),
        Outcome::Vector { vector, .. } => push_number(out, vector.len() as u64),
        Outcome::Marks(marks) => push_number(out, marks.items().len() as u64),
        Outcome::Meta(lines) => push_number(out, lines.items().len() as u64),
        Outcome::More => push(out, b"more"),
        Outcome::Up => push(out, b"up"),
        Outcome::Down => push(out, b"down"),
        Outcome::Failed => push(out, b"failed"),
        Outcome::Disk => push(out, b"disk"),
        Outcome::Stopped => push(out, b"stopped"),
        Outcome::Absent => push(out, b"absent"),
        Outcome::Refused {
            number,
            label,
            fields,
        } => push_refused(out, *number, label.items(), fields.items()),
    }
}

/// Adds the lines behind an answer's line.
#[tactic(auto, unfolding(crate::specs::Line::report_lines))]
fn push_report(out: &mut Vec<u8>, outcome: &Outcome) -> Result<(), NoMemory>
    ensures items { OnOk result (out.new.items ≡ out.old.items ++ report_lines outcome.now) }
    ensures room { HasNoReport outcome.now → TakesRoom 0 out.old result out.new }
{
    match outcome {
        Outcome::Show(directory) => push_each(out, directory.entries()),
        Outcome::Vector { vector, times } => push_dated(out, vector.cursors(), times),
        Outcome::Marks(marks) => push_each(out, marks.items()),
        Outcome::Meta(lines) => push_each(out, lines.items()),
        _ => Ok(()),
    }
}

/// Adds an answer's line, with a line feed, and the lines of its report.
#[tactic(auto, unfolding(crate::specs::Line::line))]
pub fn push_line(out: &mut Vec<u8>, answer: &Answer) -> Result<(), NoMemory>
    ensures items { OnOk result (out.new.items ≡ out.old.items ++ line answer.now) }
    ensures room { HasNoReport answer.now.outcome → TakesRoom (line_room answer.now) out.old result out.new }
{
    push(out, answer.verb.items())?;
    push(out, b" ")?;
    push(out, answer.name.items())?;
    push(out, b": ")?;
    push_result(out, &answer.outcome)?;
    push(out, b"\n")?;
    push_report(out, &answer.outcome)
}

/// An answer's line, with a line feed, and the lines of its report.
pub fn line(alloc: Global, answer: &Answer) -> Result<Vec<u8>, NoMemory>
    ensures { IfOk result (λ bytes. bytes.items ≡ line answer.now) }
{
    let mut out = Vec::new(alloc);
    push_line(&mut out, answer)?;
    Ok(out)
}

/// Adds the line of an answer without a controller's name, and without a line feed.
pub fn push_nameless(out: &mut Vec<u8>, verb: &str, outcome: &Outcome) -> Result<(), NoMemory>
    ensures { OnOk result (out.new.items ≡ out.old.items ++ nameless_line verb.now outcome.now) }
{
    push(out, verb.as_bytes())?;
    push(out, b": ")?;
    push_result(out, outcome)
}

/// What stands behind the colon of an answer's line, with a line feed.
pub fn result_line(alloc: Global, outcome: &Outcome) -> Result<Vec<u8>, NoMemory>
    ensures { IfOk result (λ bytes. bytes.items ≡ result_text outcome.now ++ codes "\n") }
{
    let mut out = Vec::new(alloc);
    push_result(&mut out, outcome)?;
    push(&mut out, b"\n")?;
    Ok(out)
}
