//! What each line says.

ghost use Rattle.std.specs.Prelude.{◌≡◌, ◌==◌, ◌<◌, Some, None};
ghost use Rattle.adr_token.specs.Gives.{Gives, Answers};
ghost use Rattle.adr_token.specs.Words.{ended};
ghost use Rattle.adr_call.specs.declared.verb.Verb.TheVariants as verbs;
ghost use Rattle.adr_schedule.specs.Commands.{binding_form, by_verb, event_of, is_passed, link_form, pull_form, report_form, stop_after, use_form};
ghost use Rattle.adr_schedule.specs.Forms.{bound_at, calls_at, crash_at, limit_at, line_by, number_between, version_at};
ghost use Rattle.adr_schedule.specs.Shared.{linked, pulled};

use crate::crashes::crash_of;
use crate::limits::{ASK_LIMIT, PLAN_LIMIT, ROUNDS_LIMIT};
use crate::members::members;
use crate::sets::sets;
use crate::verb::{LinkVerb, PullVerb, verb_said};
use adr_call::{Call, Coming, Event, Exchange, Failure, Made, Meeting, Report, Use, Verb, Write};
use adr_disk::Crash;
use adr_token::{Bad, Line, Stop, without_spaces};
use adr_values::{Guid, Text};
use std::alloc::Global;

/// A value, if nothing but spaces is left.
fn ended<T: Drop>(line: &Line<'_>, value: T) -> Result<T, Stop>
    ensures { Answers result (ended line.now value) }
{
    if line.is_ended() {
        Ok(value)
    } else {
        drop(value);
        Err(Failure::Refused(Bad))
    }
}

/// NAME, behind the word of a report that wants no more.
#[tactic(auto, unfolding(crate::specs::Forms::line_by))]
fn reported(alloc: Global, what: Report, line: &mut Line<'_>) -> Result<Event, Stop>
    ensures { Answers result (line_by (report_form what) line.old) }
{
    let name = line.name(alloc)?;
    ended(line, Event::Asks { name, what })
}

/// NAME ID, behind `meta`.
#[tactic(auto, unfolding(crate::specs::Forms::line_by))]
fn meta(alloc: Global, line: &mut Line<'_>) -> Result<Event, Stop>
    ensures { Answers result (by_verb verbs.Meta line.old) }
{
    let name = line.name(alloc)?;
    let guid = line.identifier()?;
    let what = Report::Meta { guid };
    ended(line, Event::Asks { name, what })
}

/// NAME NAME, behind `deliver` or `rollback`.
#[tactic(auto, unfolding(crate::specs::Forms::line_by))]
fn used(alloc: Global, what: Use, line: &mut Line<'_>) -> Result<Event, Stop>
    ensures { Answers result (line_by (use_form what) line.old) }
{
    let name = line.name(alloc)?;
    let bound = line.name(alloc)?;
    ended(line, Event::Uses { name, what, bound })
}

/// NAME ID ATTR ID, behind `link` or `unlink`.
#[tactic(auto, unfolding(crate::specs::Forms::line_by))]
fn linked(alloc: Global, verb: LinkVerb, line: &mut Line<'_>) -> Result<Event, Stop>
    ensures { Answers result (line_by (link_form (linked verb)) line.old) }
{
    let name = line.name(alloc)?;
    let from = line.identifier()?;
    let attr = line.attribute()?;
    let to = line.identifier()?;
    let what = match verb {
        LinkVerb::Link => Write::Link { from, attr, to },
        LinkVerb::Unlink => Write::Unlink { from, attr, to },
    };
    ended(
        line,
        Event::Calls {
            name,
            what: Call::Write(what),
        },
    )
}

/// A number between a least and a greatest one.
#[tactic(auto, unfolding(crate::specs::Forms::number_between))]
fn number_between(line: &mut Line<'_>, least: u32, greatest: u32) -> Result<u32, Stop>
    ensures { Gives result line.new (number_between least greatest line.old) }
{
    let number = line.number()?;
    if u64::from(least) <= number && number <= u64::from(greatest) {
        Ok(number as u32)
    } else {
        Err(Failure::Refused(Bad))
    }
}

/// MAX: how many items are asked for.
fn limit(line: &mut Line<'_>) -> Result<u32, Stop>
    ensures { Gives result line.new (limit_at line.old) }
{
    number_between(line, 1, ASK_LIMIT)
}

/// NAME NAME MAX, behind `pull` or `cycle`.
#[tactic(auto, unfolding(crate::specs::Forms::line_by))]
fn pulled(alloc: Global, verb: PullVerb, line: &mut Line<'_>) -> Result<Event, Stop>
    ensures { Answers result (line_by (pull_form (pulled verb)) line.old) }
{
    let name = line.name(alloc)?;
    let source = line.name(alloc)?;
    let max = limit(line)?;
    let what = match verb {
        PullVerb::Pull => Exchange::Pull { source, max },
        PullVerb::Cycle => Exchange::Cycle { source, max },
    };
    ended(line, Event::Goes { name, what })
}

/// The name that the line binds, behind `as`.
#[tactic(auto, unfolding(crate::specs::Forms::bound_at))]
fn bound(alloc: Global, line: &mut Line<'_>) -> Result<Text, Stop>
    ensures { Gives result line.new (bound_at line.old) }
{
    line.said(b"as")?;
    line.name(alloc)
}

/// NAME as NAME, behind `backup` or `snapshot`.
#[tactic(auto, unfolding(crate::specs::Forms::line_by))]
fn copied(alloc: Global, what: Made, line: &mut Line<'_>) -> Result<Event, Stop>
    ensures { Answers result (line_by (binding_form what) line.old) }
{
    let name = line.name(alloc)?;
    let bound = bound(alloc, line)?;
    ended(line, Event::Binds { name, what, bound })
}

#[tactic(auto, unfolding(crate::specs::Forms::line_by))]
fn controller(alloc: Global, line: &mut Line<'_>) -> Result<Event, Stop>
    ensures { Answers result (by_verb verbs.Controller line.old) }
{
    let name = line.name(alloc)?;
    let dsa = line.identifier()?;
    let inv = line.identifier()?;
    let how = Coming::Fresh { dsa };
    ended(line, Event::Comes { name, inv, how })
}

#[tactic(auto, unfolding(crate::specs::Forms::line_by))]
fn time(line: &mut Line<'_>) -> Result<Event, Stop>
    ensures { Answers result (by_verb verbs.Time line.old) }
{
    let now = line.number()?;
    ended(line, Event::Time { now })
}

#[tactic(auto, unfolding(crate::specs::Forms::line_by))]
fn add(alloc: Global, line: &mut Line<'_>) -> Result<Event, Stop>
    ensures { Answers result (by_verb verbs.Add line.old) }
{
    let name = line.name(alloc)?;
    let guid = line.identifier()?;
    let class = line.class()?;
    let parent = line.identifier()?;
    line.skip_spaces();
    let text = line.text(alloc)?;
    let values = sets(alloc, line)?;
    let what = Write::Add {
        guid,
        class,
        parent,
        text,
        values,
    };
    Ok(Event::Calls {
        name,
        what: Call::Write(what),
    })
}

/// ROUNDS MAX NAME NAME.., each name once.
#[tactic(auto, unfolding(crate::specs::Forms::line_by))]
fn ring(alloc: Global, line: &mut Line<'_>) -> Result<Event, Stop>
    ensures { Answers result (by_verb verbs.Ring line.old) }
{
    let rounds = number_between(line, 1, ROUNDS_LIMIT)?;
    let max = limit(line)?;
    let name = line.name(alloc)?;
    let others = members(alloc, &name, line)?;
    if others.items().is_empty() {
        return Err(Failure::Refused(Bad));
    }
    let what = Exchange::Ring {
        others,
        rounds,
        max,
    };
    Ok(Event::Goes { name, what })
}

#[tactic(auto, unfolding(crate::specs::Forms::line_by))]
fn modify(alloc: Global, line: &mut Line<'_>) -> Result<Event, Stop>
    ensures { Answers result (by_verb verbs.Modify line.old) }
{
    let name = line.name(alloc)?;
    let guid = line.identifier()?;
    let values = sets(alloc, line)?;
    if values.is_empty() {
        return Err(Failure::Refused(Bad));
    }
    let what = Write::Modify { guid, values };
    Ok(Event::Calls {
        name,
        what: Call::Write(what),
    })
}

#[tactic(auto, unfolding(crate::specs::Forms::line_by))]
fn rename(alloc: Global, line: &mut Line<'_>) -> Result<Event, Stop>
    ensures { Answers result (by_verb verbs.Rename line.old) }
{
    let name = line.name(alloc)?;
    let guid = line.identifier()?;
    let parent = line.identifier()?;
    line.skip_spaces();
    let text = line.text(alloc)?;
    let what = Write::Rename { guid, parent, text };
    ended(
        line,
        Event::Calls {
            name,
            what: Call::Write(what),
        },
    )
}

#[tactic(auto, unfolding(crate::specs::Forms::line_by))]
fn delete(alloc: Global, line: &mut Line<'_>) -> Result<Event, Stop>
    ensures { Answers result (by_verb verbs.Delete line.old) }
{
    let name = line.name(alloc)?;
    let guid = line.identifier()?;
    let what = Write::Delete { guid };
    ended(
        line,
        Event::Calls {
            name,
            what: Call::Write(what),
        },
    )
}

/// The version of a request: `v1` says the first, and where nothing is left it is the second.
#[tactic(auto, unfolding(crate::specs::Forms::version_at))]
fn version(line: &mut Line<'_>) -> Result<u16, Stop>
    ensures { Gives result line.new (version_at line.old) }
{
    if line.is_ended() {
        return Ok(2);
    }
    line.said(b"v1")?;
    Ok(1)
}

#[tactic(auto, unfolding(crate::specs::Forms::line_by))]
fn ask(alloc: Global, line: &mut Line<'_>) -> Result<Event, Stop>
    ensures { Answers result (by_verb verbs.Ask line.old) }
{
    let name = line.name(alloc)?;
    let partner = line.name(alloc)?;
    let max = limit(line)?;
    let bound = bound(alloc, line)?;
    let version = version(line)?;
    let what = Made::Ask {
        partner,
        max,
        version,
    };
    ended(line, Event::Binds { name, what, bound })
}

#[tactic(auto, unfolding(crate::specs::Forms::line_by))]
fn serve(alloc: Global, line: &mut Line<'_>) -> Result<Event, Stop>
    ensures { Answers result (by_verb verbs.Serve line.old) }
{
    let name = line.name(alloc)?;
    let request = line.name(alloc)?;
    let bound = bound(alloc, line)?;
    let what = Made::Serve { request };
    ended(line, Event::Binds { name, what, bound })
}

#[tactic(auto, unfolding(crate::specs::Forms::line_by))]
fn collect(alloc: Global, line: &mut Line<'_>) -> Result<Event, Stop>
    ensures { Answers result (by_verb verbs.Collect line.old) }
{
    let name = line.name(alloc)?;
    let lifetime = line.number()?;
    ended(
        line,
        Event::Calls {
            name,
            what: Call::Collect { lifetime },
        },
    )
}

#[tactic(auto, unfolding(crate::specs::Forms::line_by))]
fn upgrade(alloc: Global, line: &mut Line<'_>) -> Result<Event, Stop>
    ensures { Answers result (by_verb verbs.Upgrade line.old) }
{
    let name = line.name(alloc)?;
    ended(
        line,
        Event::Calls {
            name,
            what: Call::Upgrade,
        },
    )
}

#[tactic(auto, unfolding(crate::specs::Forms::line_by))]
fn revive(alloc: Global, line: &mut Line<'_>) -> Result<Event, Stop>
    ensures { Answers result (by_verb verbs.Revive line.old) }
{
    let name = line.name(alloc)?;
    let guid = line.identifier()?;
    let image = line.name(alloc)?;
    let parent = line.identifier()?;
    line.skip_spaces();
    let text = line.text(alloc)?;
    let what = Use::Revive { guid, parent, text };
    ended(
        line,
        Event::Uses {
            name,
            what,
            bound: image,
        },
    )
}

#[tactic(auto, unfolding(crate::specs::Forms::line_by))]
fn restore(alloc: Global, line: &mut Line<'_>) -> Result<Event, Stop>
    ensures { Answers result (by_verb verbs.Restore line.old) }
{
    let name = line.name(alloc)?;
    let image = line.name(alloc)?;
    let inv = line.identifier()?;
    let how = Coming::Restored { image };
    ended(line, Event::Comes { name, inv, how })
}

#[tactic(auto, unfolding(crate::specs::Forms::line_by))]
fn install(alloc: Global, line: &mut Line<'_>) -> Result<Event, Stop>
    ensures { Answers result (by_verb verbs.Install line.old) }
{
    let name = line.name(alloc)?;
    let dsa = line.identifier()?;
    let image = line.name(alloc)?;
    let inv = line.identifier()?;
    let how = Coming::Installed { dsa, image };
    ended(line, Event::Comes { name, inv, how })
}

/// NUM, behind `after`: how many device calls a plan lets pass.
#[tactic(auto, unfolding(crate::specs::Forms::calls_at))]
fn calls(line: &mut Line<'_>) -> Result<u32, Stop>
    ensures { Gives result line.new (calls_at line.old) }
{
    line.said(b"after")?;
    number_between(line, 0, PLAN_LIMIT)
}

/// HOW
#[tactic(auto, unfolding(crate::specs::Forms::crash_at))]
fn how(line: &mut Line<'_>) -> Result<Crash, Stop>
    ensures { Gives result line.new (crash_at line.old) }
{
    let word = line.word()?;
    match crash_of(word) {
        Some(how) => Ok(how),
        None => Err(Failure::Refused(Bad)),
    }
}

/// A stop that is planned, behind the name.
#[tactic(auto, unfolding(crate::specs::Commands::stop_after))]
fn stop_after(line: &mut Line<'_>, name: Text) -> Result<Event, Stop>
    ensures { Answers result (stop_after name line.old) }
{
    let calls = calls(line)?;
    let how = how(line)?;
    let what = Meeting::StopAfter { calls, how };
    ended(line, Event::Meets { name, what })
}

/// A stop at once, or one that is planned.
#[tactic(auto, unfolding(crate::specs::Forms::line_by))]
fn stop(alloc: Global, line: &mut Line<'_>) -> Result<Event, Stop>
    ensures { Answers result (by_verb verbs.Stop line.old) }
{
    let name = line.name(alloc)?;
    if !line.is_ended() {
        return stop_after(line, name);
    }
    let what = Meeting::Stop;
    Ok(Event::Meets { name, what })
}

#[tactic(auto, unfolding(crate::specs::Forms::line_by))]
fn start(alloc: Global, line: &mut Line<'_>) -> Result<Event, Stop>
    ensures { Answers result (by_verb verbs.Start line.old) }
{
    let name = line.name(alloc)?;
    let what = Meeting::Start;
    ended(line, Event::Meets { name, what })
}

#[tactic(auto, unfolding(crate::specs::Forms::line_by))]
fn fail(alloc: Global, line: &mut Line<'_>) -> Result<Event, Stop>
    ensures { Answers result (by_verb verbs.Fail line.old) }
{
    let name = line.name(alloc)?;
    let calls = calls(line)?;
    let what = Meeting::Fail { calls };
    ended(line, Event::Meets { name, what })
}

/// What a line says behind its verb.
fn by_verb(alloc: Global, verb: Verb, line: &mut Line<'_>) -> Result<Event, Stop>
    ensures { Answers result (by_verb verb line.old) }
{
    match verb {
        Verb::Controller => controller(alloc, line),
        Verb::Time => time(line),
        Verb::Add => add(alloc, line),
        Verb::Modify => modify(alloc, line),
        Verb::Rename => rename(alloc, line),
        Verb::Delete => delete(alloc, line),
        Verb::Link => linked(alloc, LinkVerb::Link, line),
        Verb::Unlink => linked(alloc, LinkVerb::Unlink, line),
        Verb::Ask => ask(alloc, line),
        Verb::Serve => serve(alloc, line),
        Verb::Deliver => used(alloc, Use::Deliver, line),
        Verb::Pull => pulled(alloc, PullVerb::Pull, line),
        Verb::Cycle => pulled(alloc, PullVerb::Cycle, line),
        Verb::Ring => ring(alloc, line),
        Verb::Collect => collect(alloc, line),
        Verb::Upgrade => upgrade(alloc, line),
        Verb::Revive => revive(alloc, line),
        Verb::Backup => copied(alloc, Made::Backup, line),
        Verb::Restore => restore(alloc, line),
        Verb::Install => install(alloc, line),
        Verb::Snapshot => copied(alloc, Made::Snapshot, line),
        Verb::Rollback => used(alloc, Use::Rollback, line),
        Verb::Stop => stop(alloc, line),
        Verb::Fail => fail(alloc, line),
        Verb::Start => start(alloc, line),
        Verb::Show => reported(alloc, Report::Directory, line),
        Verb::Vector => reported(alloc, Report::Vector, line),
        Verb::Marks => reported(alloc, Report::Marks, line),
        Verb::Meta => meta(alloc, line),
    }
}

/// What a line says.
#[tactic(auto, unfolding(crate::specs::Commands::event_of))]
pub fn event_of(alloc: Global, line: &[u8]) -> Result<Event, Stop>
    ensures { Answers result (event_of line.now) }
{
    let mut line = Line::new(line);
    let word = line.word()?;
    match verb_said(word) {
        Some(verb) => by_verb(alloc, verb, &mut line),
        None => Err(Failure::Refused(Bad)),
    }
}

/// Whether a line says nothing.
pub fn is_passed(line: &[u8]) -> bool
    ensures { result ≡ is_passed line.now }
{
    match line.first() {
        None => true,
        Some(first) => *first == b';' || without_spaces(line).len() == 0,
    }
}
