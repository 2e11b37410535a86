//! The run of a generated schedule, summed up.

ghost use Rattle.std.specs.Prelude.{◌≡◌, ◌⊎◌, ◌<◌, ◌≤◌, ◌++◌, All, IfOk, OnOk, codes, length, sum_by};
ghost use Rattle.std.specs.Fmt.{decimal};
ghost use Rattle.adr_law_recorded.specs.Typed.{AreTyped};
ghost use Rattle.adr_model.specs.Convergence.{MayAllHappen};
ghost use Rattle.adr_model.specs.Rings.{show_alike};
ghost use Rattle.adr_model.specs.Step.{after_lines, answers};
ghost use Rattle.adr_model.specs.World.{empty_world};
ghost use Rattle.adr_run_exercise.specs.Generated.{schedule};
ghost use Rattle.adr_run_exercise.specs.Summary.{directory_of, forward_links, forward_links_under, four_names, summary, summary_line};
ghost use Rattle.adr_run_world.specs.Counted.{counted};
ghost use Rattle.adr_run_replay.specs.Outcome.{exercised};
ghost use Rattle.adr_io.specs.Told.{Adds, AddsFront};

use crate::replaying::ended;
use adr_answers::{push_number_behind, truth_text};
use adr_call::{Directory, Entry, Event, Guids};
use adr_checks::attribute_kind;
use adr_io::Sink;
use adr_run_exercise::generate;
use adr_run_world::{Tally, World};
use adr_token::push;
use adr_values::{Kind, NoMemory, Text};
use std::alloc::{AllocError, Global};
use std::marker::Model;
use std::mem::forget;

/// What the run of a schedule comes to.
#[derive(Drop)]
struct Summed {
    objects: u64,
    links: u64,
    tally: Tally,
    equal: bool,
}

impl Model for Summed {
    ghost use Rattle.adr_run_exercise.specs.Generated.{schedule};
    ghost use Rattle.adr_run_exercise.specs.Summary.{Summary as Defined};

    ghost Value = { Defined };

    ghost view = { λ s. record { objects = s.objects; links = s.links; refused = s.tally.refused; collected = s.tally.removed; equal = s.equal } };
}

/// How many links stand under an attribute of an object, if they start there.
fn forward_links_under(attr: u16, ends: &Guids) -> u64
    ensures { result ≡ forward_links_under (attr, ends.now) }
{
    match attribute_kind(attr) {
        Some(Kind::Forward { .. }) => ends.items().len() as u64,
        _ => 0,
    }
}

/// How many links start at an object. A number beyond 64 bits wants memory that isn't there.
fn forward_links(entry: &Entry) -> Result<u64, NoMemory>
    ensures { IfOk result (λ links. links ≡ forward_links entry.now) }
{
    let mut sum: u64 = 0;
    for (attr, ends) in entry.links.items() {
        sum = sum
            .checked_add(forward_links_under(*attr, ends))
            .ok_or(AllocError)?;
    }
    Ok(sum)
}

/// How many links a directory shows.
fn links_of(directory: &Directory) -> Result<u64, NoMemory>
    ensures { IfOk result (λ links. links ≡ sum_by forward_links directory.now) }
{
    let mut sum: u64 = 0;
    for entry in directory.entries() {
        sum = sum.checked_add(forward_links(entry)?).ok_or(AllocError)?;
    }
    Ok(sum)
}

/// Does what lines say, and counts their answers.
fn count_all(
    alloc: Global,
    world: &mut World,
    events: &[Event],
    tally: &mut Tally,
) -> Result<(), NoMemory>
    requires may { MayAllHappen world.old events.now }
    requires typed { AreTyped events.now }
    ensures stands { OnOk result (world.new ≡ after_lines world.old events.now) }
    ensures counted { OnOk result (tally.new ≡ counted tally.old (answers world.old events.now)) }
{
    for event in events {
        world.count(alloc, event, tally)?;
    }
    Ok(())
}

/// How many entries and links the directory of a controller has, which is let go of.
fn shown_at(alloc: Global, world: &World, name: &Text) -> Result<(u64, u64), NoMemory>
    ensures entries { IfOk result (λ counts. counts.0 ≡ length (directory_of world.now name.now)) }
    ensures links { IfOk result (λ counts. counts.1 ≡ sum_by forward_links (directory_of world.now name.now)) }
{
    let shown = match world.shown(alloc, name)? {
        Some(shown) => shown,
        None => Directory::of(Vec::new(alloc)),
    };
    Ok((shown.entries().len() as u64, links_of(&shown)?))
}

/// What a world comes to in which so much was answered.
fn summed_up(alloc: Global, world: &World, tally: Tally) -> Result<Summed, NoMemory>
    ensures { IfOk result (λ s. s ≡ record {
      objects = length (directory_of world.now (codes "A"));
      links = sum_by forward_links (directory_of world.now (codes "A"));
      refused = tally.refused;
      collected = tally.removed;
      equal = show_alike world.now four_names;
    }) }
{
    let first = Text::from_str(alloc, "A")?;
    let others = [
        Text::from_str(alloc, "B")?,
        Text::from_str(alloc, "C")?,
        Text::from_str(alloc, "D")?,
    ];
    let (objects, links) = shown_at(alloc, world, &first)?;
    Ok(Summed {
        objects,
        links,
        tally,
        equal: world.show_alike(alloc, &first, &others)?,
    })
}

/// Runs the schedule of a number, and counts its answers.
fn run_schedule(
    alloc: Global,
    number: u64,
    world: &mut World,
    tally: &mut Tally,
) -> Result<(), NoMemory>
    requires { world.old ≡ empty_world }
    ensures stands { OnOk result (world.new ≡ after_lines empty_world (schedule number)) }
    ensures counted { OnOk result (tally.new ≡ counted tally.old (answers empty_world (schedule number))) }
{
    let events = generate(alloc, number)?;
    let done = count_all(alloc, world, events.as_slice(), tally);
    // The process ends with the run, and the system takes its memory back whole.
    forget(events);
    done
}

/// What the run of the schedule of a number comes to.
fn summary(alloc: Global, number: u64) -> Result<Summed, NoMemory>
    ensures { IfOk result (λ s. s ≡ summary number) }
{
    let mut world = World::new(alloc);
    let mut tally = Tally {
        refused: 0,
        removed: 0,
    };
    run_schedule(alloc, number, &mut world, &mut tally)?;
    summed_up(alloc, &world, tally)
}

fn push_shown(out: &mut Vec<u8>, number: u64, summary: &Summed) -> Result<(), NoMemory>
    ensures { OnOk result (out.new.items
        ≡ out.old.items
        ++ (codes "exercise " ++ decimal number ++ codes ": objects=" ++ decimal summary.now.objects ++ codes " links="
        ++ decimal summary.now.links)) }
{
    push_number_behind(out, b"exercise ", number)?;
    push_number_behind(out, b": objects=", summary.objects)?;
    push_number_behind(out, b" links=", summary.links)
}

fn push_counted(out: &mut Vec<u8>, refused: u64, collected: u64) -> Result<(), NoMemory>
    ensures { OnOk result (out.new.items
        ≡ out.old.items ++ ((codes " refused=" ++ decimal refused) ++ (codes " collected=" ++ decimal collected))) }
{
    push_number_behind(out, b" refused=", refused)?;
    push_number_behind(out, b" collected=", collected)?;
    Ok(())
}

#[tactic(auto, unfolding(adr_run_exercise::specs::Summary::summary_line))]
fn push_summary(out: &mut Vec<u8>, number: u64, summary: &Summed) -> Result<(), NoMemory>
    ensures { OnOk result (out.new.items ≡ out.old.items ++ summary_line number summary.now) }
{
    push_shown(out, number, summary)?;
    push_counted(out, summary.tally.refused, summary.tally.removed)?;
    push(out, b" equal=")?;
    push(out, truth_text(summary.equal))?;
    push(out, b"\n")
}

/// The line that tells what the run of the schedule of a number comes to.
fn exercise_line(alloc: Global, number: u64) -> Result<Vec<u8>, NoMemory>
    ensures { IfOk result (λ line. line.items ≡ summary_line number (summary number)) }
{
    let summary = summary(alloc, number)?;
    let mut line = Vec::new(alloc);
    push_summary(&mut line, number, &summary)?;
    Ok(line)
}

/// Runs the generated schedule of a number, and writes what that comes to. It answers the status: 0 done, 5 a write that
/// failed, 8 want of memory.
pub fn exercise<K: Sink>(alloc: Global, number: u32, sink: &mut K) -> u8
    ensures statuses { (result ≡ 0) ⊎ ((result ≡ 5) ⊎ (result ≡ 8)) }
    ensures added { result ≡ 0 → Adds (K.written sink.old) (K.written sink.new) (exercised number) }
    ensures front { (result ≡ 5) ⊎ (result ≡ 8) → AddsFront (K.written sink.old) (K.written sink.new) (exercised number) }
    ensures failed { result ≡ 5 → K.faults sink.old < K.faults sink.new }
    ensures sink_faults { K.faults sink.old ≤ K.faults sink.new }
{
    match exercise_line(alloc, u64::from(number)) {
        Ok(line) => ended(0, sink.write(line.as_slice())),
        Err(_) => 8,
    }
}
