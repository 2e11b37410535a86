//! The events of the schedule.

ghost use Rattle.std.specs.Prelude.{◌≡◌, ◌++◌, IfOk, OnOk, All};
ghost use Rattle.adr_schedule.specs.Seen.{nothing_seen, IsFollowing};
ghost use Rattle.adr_run_exercise.specs.Generated.{beginning, collections, deletions, groups, persons, rounds, schedule};

use crate::lines::{push_beginning, push_collections, push_groups, push_rounds};
use crate::persons::{push_deletions, push_persons};
use adr_call::Event;
use adr_values::NoMemory;
use std::alloc::Global;

/// Adds the lines up to the last person.
fn push_first(alloc: Global, events: &mut Vec<Event>, n: u64) -> Result<(), NoMemory>
    ensures { OnOk result (events.new.items ≡ events.old.items ++ (beginning ++ groups ++ rounds 1 ++ persons n)) }
{
    push_beginning(alloc, events)?;
    push_groups(alloc, events)?;
    push_rounds(alloc, events, 1)?;
    push_persons(alloc, events, n)
}

/// Adds the lines behind the last person.
fn push_last(alloc: Global, events: &mut Vec<Event>, n: u64) -> Result<(), NoMemory>
    ensures { OnOk result (events.new.items ≡ events.old.items ++ (rounds 6 ++ deletions n ++ rounds 6 ++ collections ++ rounds 1)) }
{
    push_rounds(alloc, events, 6)?;
    push_deletions(alloc, events, n)?;
    push_rounds(alloc, events, 6)?;
    push_collections(alloc, events)?;
    push_rounds(alloc, events, 1)
}

/// All lines.
fn generated(alloc: Global, n: u64) -> Result<Vec<Event>, NoMemory>
    ensures { IfOk result (λ events. events.items ≡ schedule n) }
{
    let mut events = Vec::new(alloc);
    push_first(alloc, &mut events, n)?;
    push_last(alloc, &mut events, n)?;
    Ok(events)
}

/// The events of the schedule of a number, which may follow one another as those of a text may.
pub fn generate(alloc: Global, n: u64) -> Result<Vec<Event>, NoMemory>
    ensures schedule { IfOk result (λ events. events.items ≡ schedule n) }
    ensures follows { IfOk result (λ events. IsFollowing nothing_seen events.items) }
{
    let events = generated(alloc, n)?;
    Ok(events)
}
