//! The text of some events.

ghost use Rattle.std.specs.Prelude.{◌≡◌, ◌++◌, ◌∷◌, [], IfOk, OnOk, codes, map};
ghost use Rattle.adr_token.specs.Spelling.{set_token};
ghost use Rattle.adr_schedule.specs.Grammar.{Attribute as attributed, Class as classed, Identifier as identified, Name as named, Number as numbered, Quoted as quoted, Word as said, given_by, given_for, given_in, named as names_of, sets, tokens_asked, tokens_behind, tokens_called, tokens_coming, tokens_going, tokens_made, tokens_met, tokens_used, tokens_written, version_words};
ghost use Rattle.adr_run_print.specs.Printed.{line_of, printed, set_tokens, spaced, token_of, token_text};

use Token::{Attribute, Class, Identifier, Name, Number, Quoted, Word};
use adr_call::{Call, Coming, Event, Exchange, Made, Meeting, Report, Use, Write};
use adr_disk::Crash;
use adr_schedule::crash_word;
use adr_token::{
    push, push_attribute, push_class, push_identifier, push_number, push_set, push_text,
};
use adr_values::{Assignments, Guid, NoMemory, Text, Value};
use std::alloc::Global;

/// A token of a line.
#[derive(Clone, Copy)]
enum Token<'a> {
    Word(&'a [u8]),
    Name(&'a Text),
    Number(u64),
    Identifier(Guid),
    Class(u16),
    Attribute(u16),
    Quoted(&'a Text),
}

fn push_token(out: &mut Vec<u8>, token: &Token<'_>) -> Result<(), NoMemory>
    ensures { OnOk result (out.new.items ≡ out.old.items ++ token_text (token_of token.now)) }
{
    match token {
        Word(word) => push(out, word),
        Name(name) => push(out, name.items()),
        Number(number) => push_number(out, *number),
        Identifier(id) => push_identifier(out, *id),
        Class(class) => push_class(out, *class),
        Attribute(attr) => push_attribute(out, *attr),
        Quoted(text) => push_text(out, text.items()),
    }
}

/// Adds tokens, each behind a space.
fn push_tokens(out: &mut Vec<u8>, tokens: &[Token<'_>]) -> Result<(), NoMemory>
    ensures { OnOk result (out.new.items
        ≡ out.old.items ++ spaced (map (λ token. token_text (token_of token)) tokens.now)) }
{
    for token in tokens {
        push(out, b" ")?;
        push_token(out, token)?;
    }
    Ok(())
}

fn push_spaced_set(out: &mut Vec<u8>, attr: u16, values: &[Value]) -> Result<(), NoMemory>
    ensures { OnOk result (out.new.items ≡ out.old.items ++ (codes " " ++ set_token attr values.now)) }
{
    push(out, b" ")?;
    push_set(out, attr, values)
}

fn push_sets(out: &mut Vec<u8>, values: &Assignments) -> Result<(), NoMemory>
    ensures { OnOk result (out.new.items ≡ out.old.items ++ spaced (set_tokens values.now)) }
{
    'attributes: for (attr, list) in values.entries() {
        push_spaced_set(out, *attr, list.items())?;
    }
    Ok(())
}

fn push_spaced_name(out: &mut Vec<u8>, name: &Text) -> Result<(), NoMemory>
    ensures { OnOk result (out.new.items ≡ out.old.items ++ (codes " " ++ name.now)) }
{
    push(out, b" ")?;
    push(out, name.items())
}

/// Adds names, each behind a space.
fn push_names(out: &mut Vec<u8>, names: &[Text]) -> Result<(), NoMemory>
    ensures { OnOk result (out.new.items ≡ out.old.items ++ spaced (map token_text (names_of names.now))) }
{
    for name in names {
        push_spaced_name(out, name)?;
    }
    Ok(())
}

/// Adds tokens and names, each behind a space.
fn push_with_names(out: &mut Vec<u8>, tokens: &[Token<'_>], names: &[Text]) -> Result<(), NoMemory>
    ensures { OnOk result (out.new.items
        ≡ out.old.items
        ++ (spaced (map (λ token. token_text (token_of token)) tokens.now) ++ spaced (map token_text (names_of names.now)))) }
{
    push_tokens(out, tokens)?;
    push_names(out, names)
}

/// Adds tokens and sets, each behind a space.
fn push_with_sets(
    out: &mut Vec<u8>,
    tokens: &[Token<'_>],
    values: &Assignments,
) -> Result<(), NoMemory>
    ensures { OnOk result (out.new.items
        ≡ out.old.items
        ++ (spaced (map (λ token. token_text (token_of token)) tokens.now) ++ spaced (set_tokens values.now))) }
{
    push_tokens(out, tokens)?;
    push_sets(out, values)
}

/// `v1` behind a space, where a request is of the first version.
fn push_version(out: &mut Vec<u8>, version: u16) -> Result<(), NoMemory>
    ensures { OnOk result (out.new.items ≡ out.old.items ++ spaced (map token_text (version_words version))) }
{
    if version == 1 {
        return push_tokens(out, &[Word(b"v1")]);
    }
    Ok(())
}

/// Adds tokens and the word of a version, each behind a space.
fn push_with_version(out: &mut Vec<u8>, tokens: &[Token<'_>], version: u16) -> Result<(), NoMemory>
    ensures { OnOk result (out.new.items
        ≡ out.old.items
        ++ (spaced (map (λ token. token_text (token_of token)) tokens.now) ++ spaced (map token_text (version_words version)))) }
{
    push_tokens(out, tokens)?;
    push_version(out, version)
}

/// NAME and what stands behind it, of a write.
fn push_write<'a>(out: &mut Vec<u8>, name: &'a Text, what: &'a Write) -> Result<(), NoMemory>
    ensures { OnOk result (out.new.items
        ≡ out.old.items ++ spaced (map token_text (named name.now ∷ tokens_written (given_in what.now) what.now))) }
{
    match what {
        Write::Add {
            guid,
            class,
            parent,
            text,
            values,
        } => push_with_sets(
            out,
            &[
                Name(name),
                Identifier(*guid),
                Class(*class),
                Identifier(*parent),
                Quoted(text),
            ],
            values,
        ),
        Write::Modify { guid, values } => {
            push_with_sets(out, &[Name(name), Identifier(*guid)], values)
        }
        Write::Rename { guid, parent, text } => push_tokens(
            out,
            &[
                Name(name),
                Identifier(*guid),
                Identifier(*parent),
                Quoted(text),
            ],
        ),
        Write::Delete { guid } => push_tokens(out, &[Name(name), Identifier(*guid)]),
        Write::Link { from, attr, to } | Write::Unlink { from, attr, to } => push_tokens(
            out,
            &[
                Name(name),
                Identifier(*from),
                Attribute(*attr),
                Identifier(*to),
            ],
        ),
    }
}

/// NAME and what stands behind it, of what a client has a controller do.
fn push_called(out: &mut Vec<u8>, name: &Text, what: &Call) -> Result<(), NoMemory>
    ensures { OnOk result (out.new.items
        ≡ out.old.items ++ spaced (map token_text (named name.now ∷ tokens_called (given_for what.now) what.now))) }
{
    match what {
        Call::Write(what) => push_write(out, name, what),
        Call::Collect { lifetime } => push_tokens(out, &[Name(name), Number(*lifetime)]),
        Call::Upgrade => push_tokens(out, &[Name(name)]),
    }
}

/// NAME, and what else a report wants.
fn push_reported(out: &mut Vec<u8>, name: &Text, what: Report) -> Result<(), NoMemory>
    ensures { OnOk result (out.new.items
        ≡ out.old.items ++ spaced (map token_text (named name.now ∷ tokens_asked what))) }
{
    match what {
        Report::Meta { guid } => push_tokens(out, &[Name(name), Identifier(guid)]),
        Report::Directory | Report::Vector | Report::Marks => { push_tokens(out, &[Name(name)]) }
    }
}

/// NAME and what stands behind it, of how a controller comes to be, or comes back.
fn push_coming<'a>(
    out: &mut Vec<u8>,
    name: &'a Text,
    inv: Guid,
    how: &'a Coming,
) -> Result<(), NoMemory>
    ensures { OnOk result (out.new.items
        ≡ out.old.items ++ spaced (map token_text (named name.now ∷ tokens_coming inv how.now))) }
{
    match how {
        Coming::Fresh { dsa } => {
            push_tokens(out, &[Name(name), Identifier(*dsa), Identifier(inv)])
        }
        Coming::Installed { dsa, image } => push_tokens(
            out,
            &[Name(name), Identifier(*dsa), Name(image), Identifier(inv)],
        ),
        Coming::Restored { image } => {
            push_tokens(out, &[Name(name), Name(image), Identifier(inv)])
        }
    }
}

/// NAME and what stands behind it, of what is done with what is bound to a name.
fn push_using<'a>(
    out: &mut Vec<u8>,
    name: &'a Text,
    what: &'a Use,
    bound: &'a Text,
) -> Result<(), NoMemory>
    ensures { OnOk result (out.new.items
        ≡ out.old.items ++ spaced (map token_text (named name.now ∷ tokens_used what.now bound.now))) }
{
    match what {
        Use::Deliver | Use::Rollback => push_tokens(out, &[Name(name), Name(bound)]),
        Use::Revive { guid, parent, text } => push_tokens(
            out,
            &[
                Name(name),
                Identifier(*guid),
                Name(bound),
                Identifier(*parent),
                Quoted(text),
            ],
        ),
    }
}

/// NAME and what stands behind it, of what is made.
fn push_made<'a>(
    out: &mut Vec<u8>,
    name: &'a Text,
    what: &'a Made,
    bound: &'a Text,
) -> Result<(), NoMemory>
    ensures { OnOk result (out.new.items
        ≡ out.old.items ++ spaced (map token_text (named name.now ∷ tokens_made what.now bound.now))) }
{
    match what {
        Made::Ask {
            partner,
            max,
            version,
        } => push_with_version(
            out,
            &[
                Name(name),
                Name(partner),
                Number(u64::from(*max)),
                Word(b"as"),
                Name(bound),
            ],
            *version,
        ),
        Made::Serve { request } => {
            push_tokens(out, &[Name(name), Name(request), Word(b"as"), Name(bound)])
        }
        Made::Backup | Made::Snapshot => push_tokens(out, &[Name(name), Word(b"as"), Name(bound)]),
    }
}

/// What stands behind the verb of pulls.
fn push_going<'a>(out: &mut Vec<u8>, name: &'a Text, what: &'a Exchange) -> Result<(), NoMemory>
    ensures { OnOk result (out.new.items
        ≡ out.old.items ++ spaced (map token_text (tokens_going name.now what.now))) }
{
    match what {
        Exchange::Pull { source, max } | Exchange::Cycle { source, max } => {
            push_tokens(out, &[Name(name), Name(source), Number(u64::from(*max))])
        }
        Exchange::Ring {
            others,
            rounds,
            max,
        } => push_with_names(
            out,
            &[
                Number(u64::from(*rounds)),
                Number(u64::from(*max)),
                Name(name),
            ],
            others.items(),
        ),
    }
}

/// NAME and what stands behind it, of what befalls a controller or its disk.
fn push_met(out: &mut Vec<u8>, name: &Text, what: Meeting) -> Result<(), NoMemory>
    ensures { OnOk result (out.new.items
        ≡ out.old.items ++ spaced (map token_text (named name.now ∷ tokens_met what))) }
{
    match what {
        Meeting::Stop | Meeting::Start => push_tokens(out, &[Name(name)]),
        Meeting::StopAfter { calls, how } => push_tokens(
            out,
            &[
                Name(name),
                Word(b"after"),
                Number(u64::from(calls)),
                Word(crash_word(how)),
            ],
        ),
        Meeting::Fail { calls } => {
            push_tokens(out, &[Name(name), Word(b"after"), Number(u64::from(calls))])
        }
    }
}

/// Adds what stands behind the verb in the line of an event, by one call for each kind: an arm with
/// many steps makes a long proof. A line's form is one row of tokens in the function of its kind.
#[tactic(auto, unfolding(adr_schedule::specs::Grammar::tokens_behind))]
fn push_behind(out: &mut Vec<u8>, event: &Event) -> Result<(), NoMemory>
    ensures { OnOk result (out.new.items
        ≡ out.old.items ++ spaced (map token_text (tokens_behind (given_by event.now) event.now))) }
{
    match event {
        Event::Time { now } => push_tokens(out, &[Number(*now)]),
        Event::Comes { name, inv, how } => push_coming(out, name, *inv, how),
        Event::Calls { name, what } => push_called(out, name, what),
        Event::Uses { name, what, bound } => push_using(out, name, what, bound),
        Event::Binds { name, what, bound } => push_made(out, name, what, bound),
        Event::Asks { name, what } => push_reported(out, name, *what),
        Event::Goes { name, what } => push_going(out, name, what),
        Event::Meets { name, what } => push_met(out, name, *what),
    }
}

#[tactic(auto, unfolding(crate::specs::Printed::line_of))]
fn push_line(out: &mut Vec<u8>, event: &Event) -> Result<(), NoMemory>
    ensures { OnOk result (out.new.items ≡ out.old.items ++ line_of event.now) }
{
    push(out, event.verb().word().as_bytes())?;
    push_behind(out, event)
}

/// The text of some events, a line each. An event that the language has no line for is its verb alone.
pub fn print(alloc: Global, events: &[Event]) -> Result<Vec<u8>, NoMemory>
    ensures { IfOk result (λ text. text.items ≡ printed events.now) }
{
    let mut out = Vec::new(alloc);
    for event in events {
        push_line(&mut out, event)?;
        push(&mut out, b"\n")?;
    }
    Ok(out)
}
