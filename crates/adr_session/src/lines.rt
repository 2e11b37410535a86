//! What a client's line says.

ghost use Rattle.std.specs.Prelude.{◌≡◌, IfOk, IfSome};
ghost use Rattle.adr_token.specs.Gives.{Answers};
ghost use Rattle.adr_session.specs.Lines.{IsAlwaysGiven, call_of, call_said, event_said, named};

use crate::line_laws::lines_say_given_calls;
use adr_call::{Call, Event, Failure};
use adr_schedule::event_of;
use adr_token::{Line, Stop, utf8};
use adr_values::NoMemory;
use std::alloc::{AllocError, Global};

/// A line's first word and what follows it, with a name between them: any name serves.
fn named(alloc: Global, word: &[u8], rest: &[u8]) -> Result<Vec<u8>, NoMemory>
    ensures { IfOk result (λ bytes. bytes.items ≡ named (word.now, rest.now)) }
{
    let mut bytes = Vec::from_slice(alloc, word)?;
    bytes.extend_from_slice(b" n")?;
    bytes.extend_from_slice(rest)?;
    Ok(bytes)
}

/// What a line without a controller's name says, under a name that counts for nothing.
fn event_said(alloc: Global, line: &[u8]) -> Result<Event, Stop>
    ensures { Answers result (event_said line.now) }
{
    let mut line = Line::new(line);
    let word = line.word()?;
    let named = named(alloc, word, line.rest())?;
    event_of(alloc, &named)
}

/// What an event has a client call for; none where it is something else.
fn call_of(event: Event) -> Option<Call>
    ensures { result ≡ call_of event }
{
    match event {
        Event::Calls { name: _name, what } => Some(what),
        _other => None,
    }
}

/// What a client's line says, or none where it says no call. What it says may be done at each
/// moment.
pub fn call_said(alloc: Global, line: &[u8]) -> Result<Option<Call>, NoMemory>
    ensures said { IfOk result (λ call. call ≡ call_said line.now) }
    ensures given { IfOk result (λ call. IfSome call IsAlwaysGiven) }
{
    lines_say_given_calls();
    if utf8(line).is_none() {
        return Ok(None);
    }
    match event_said(alloc, line) {
        Ok(event) => Ok(call_of(event)),
        Err(Failure::Refused(_)) => Ok(None),
        Err(Failure::NoMemory) => Err(AllocError),
    }
}
