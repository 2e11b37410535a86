//! The events of a text.

ghost use Rattle.std.specs.Prelude.{◌≡◌, ◌≤◌, [], Ok, Err, IfOk, IfErr, OnOk, ◌++◌, All, length};
ghost use Rattle.std.specs.Option.{option_to_list};
ghost use Rattle.adr_schedule.specs.Faults.{Refuses};
ghost use Rattle.adr_schedule.specs.Limits.{text_limit};
ghost use Rattle.adr_schedule.specs.Seen.{nothing_seen, IsFollowing};
ghost use Rattle.adr_schedule.specs.Events.{IsToldBy, line_after, seen_with, events_of};

use crate::commands::{event_of, is_passed};
use crate::fault::{Cause, ScheduleFault};
use crate::limits::TEXT_LIMIT;
use crate::lines::first_line;
use crate::seen::Seen;
use adr_call::{Event, Failure};
use adr_token::utf8;
use std::alloc::Global;

/// What one line says, after the earlier ones.
fn line_after(alloc: Global, seen: &mut Seen, line: &[u8]) -> Result<Option<Event>, Failure<Cause>>
    ensures says { IfOk result (λ told. line_after seen.old line.now ≡ Ok told) }
    ensures seen { IfOk result (λ told. seen.new ≡ seen_with seen.old told) }
    ensures refused { IfErr result (λ failure. Refuses failure (line_after seen.old line.now)) }
{
    if is_passed(line) {
        return Ok(None);
    }
    if utf8(line).is_none() {
        return Err(Failure::Refused(Cause::NotUtf8));
    }
    let event = match event_of(alloc, line) {
        Ok(event) => event,
        Err(Failure::Refused(_)) => return Err(Failure::Refused(Cause::NoCommand)),
        Err(Failure::NoMemory) => return Err(Failure::NoMemory),
    };
    match seen.admit(alloc, &event) {
        Ok(()) => Ok(Some(event)),
        Err(failure) => {
            drop(event);
            Err(failure)
        }
    }
}

/// Adds the event, if there is one.
fn keep(events: &mut Vec<Event>, told: Option<Event>) -> Result<(), Failure<Cause>>
    ensures kept { OnOk result (events.new.items ≡ events.old.items ++ option_to_list told) }
    ensures memory { IfErr result (λ failure. failure ≡ Failure.NoMemory) }
{
    match told {
        None => Ok(()),
        Some(event) => match events.push(event) {
            Ok(()) => Ok(()),
            Err(failed) => {
                drop(failed.value);
                Err(Failure::NoMemory)
            }
        },
    }
}

/// Adds the event of one line, if it says one.
fn read_line(
    alloc: Global,
    events: &mut Vec<Event>,
    seen: &mut Seen,
    line: &[u8],
) -> Result<(), Failure<Cause>>
    ensures told { OnOk result (IsToldBy seen.old line.now seen.new events.old.items events.new.items) }
    ensures refused { IfErr result (λ failure. Refuses failure (line_after seen.old line.now)) }
{
    let told = line_after(alloc, seen, line)?;
    keep(events, told)
}

/// Adds the events of a text to none.
#[tactic(auto, unfolding(crate::specs::Events::events_of))]
fn read_lines(
    alloc: Global,
    events: &mut Vec<Event>,
    seen: &mut Seen,
    text: &[u8],
) -> Result<(), Failure<ScheduleFault>>
    requires none { events.old.items ≡ [] }
    requires fresh { seen.old ≡ nothing_seen }
    requires short { length text.now ≤ text_limit }
    ensures ok { OnOk result (events_of text.now ≡ Ok events.new.items) }
    ensures bad { IfErr result (λ failure. Refuses failure (events_of text.now)) }
{
    let mut rest = text;
    let mut number = 1u32;
    'lines: while rest.len() > 0 {
        let (line, after) = first_line(rest);
        match read_line(alloc, events, seen, line) {
            Ok(()) => {}
            Err(Failure::Refused(cause)) => {
                return Err(Failure::Refused(ScheduleFault {
                    line: number,
                    cause,
                }));
            }
            Err(Failure::NoMemory) => return Err(Failure::NoMemory),
        }
        rest = after;
        number += 1;
    }
    Ok(())
}

/// Adds the events of a text to none, unless the text is too long.
#[tactic(auto, unfolding(crate::specs::Events::events_of))]
fn read_text(
    alloc: Global,
    events: &mut Vec<Event>,
    text: &[u8],
) -> Result<(), Failure<ScheduleFault>>
    requires { events.old.items ≡ [] }
    ensures ok { OnOk result (events_of text.now ≡ Ok events.new.items) }
    ensures bad { IfErr result (λ failure. Refuses failure (events_of text.now)) }
{
    if text.len() > TEXT_LIMIT {
        return Err(Failure::Refused(ScheduleFault {
            line: 0,
            cause: Cause::TooLong,
        }));
    }
    let mut seen = Seen::nothing(alloc);
    // By a call, here and above: where a wide value is dropped at the end of a scope, the check goes through all of its parts.
    let told = read_lines(alloc, events, &mut seen, text);
    drop(seen);
    told
}

/// The events of a text, or its first bad line.
pub fn parse(alloc: Global, text: &[u8]) -> Result<Vec<Event>, Failure<ScheduleFault>>
    ensures ok { IfOk result (λ events. events_of text.now ≡ Ok events.items) }
    ensures follows { IfOk result (λ events. IsFollowing nothing_seen events.items) }
    ensures bad { IfErr result (λ failure. Refuses failure (events_of text.now)) }
{
    let mut events = Vec::new(alloc);
    read_text(alloc, &mut events, text)?;
    Ok(events)
}
