//! The lines of the schedule that don't depend on its number.

ghost use Rattle.std.specs.Prelude.{◌≡◌, ◌++◌, ◌∷◌, [], ◌<◌, IfOk, OnOk};
ghost use Rattle.adr_call.specs.declared.call.Call.TheVariants as calls;
ghost use Rattle.adr_call.specs.declared.event.Event.TheVariants as kinds;
ghost use Rattle.adr_call.specs.declared.event.Coming.TheVariants as comings;
ghost use Rattle.adr_call.specs.declared.event.Exchange.TheVariants as exchanges;
ghost use Rattle.adr_run_exercise.specs.Generated.{beginning, collections, group_added, groups, identifier, round, rounds};

use crate::words::{group, identifier, numbered, root};
use adr_call::{Call, Coming, Event, Exchange, Write};
use adr_values::{Assignments, NoMemory, Text, Value};
use std::alloc::{AllocError, Global};

/// The number of the attribute groupType.
const GROUP_TYPE: u16 = 19;

/// The number of the class group.
const GROUP: u16 = 6;

/// Adds an event.
pub fn push(events: &mut Vec<Event>, event: Event) -> Result<(), NoMemory>
    ensures { OnOk result (events.new.items ≡ events.old.items ++ event ∷ []) }
{
    match events.push(event) {
        Ok(()) => Ok(()),
        Err(failed) => {
            drop(failed.value);
            Err(AllocError)
        }
    }
}

/// One attribute with one value.
pub fn one_value(alloc: Global, attr: u16, value: Value) -> Result<Assignments, NoMemory>
    ensures { IfOk result (λ given. given ≡ (attr, value ∷ []) ∷ []) }
{
    let mut values = Vec::new(alloc);
    values.push(value)?;
    let mut given = Assignments::new(alloc);
    match given.add(attr, values) {
        Ok(()) => Ok(given),
        Err(_) => Err(AllocError),
    }
}

/// Adds a time.
pub fn push_time(events: &mut Vec<Event>, now: u64) -> Result<(), NoMemory>
    ensures { OnOk result (events.new.items ≡ events.old.items ++ kinds.Time now ∷ []) }
{
    push(events, Event::Time { now })
}

/// Adds a controller.
fn push_controller(
    alloc: Global,
    events: &mut Vec<Event>,
    name: &str,
    dsa: u128,
    inv: u128,
) -> Result<(), NoMemory>
    ensures { OnOk result (events.new.items ≡ events.old.items ++ kinds.Comes name.now (identifier inv) (comings.Fresh (identifier dsa)) ∷ []) }
{
    let name = Text::from_str(alloc, name)?;
    push(
        events,
        Event::Comes {
            name,
            inv: identifier(inv),
            how: Coming::Fresh {
                dsa: identifier(dsa),
            },
        },
    )
}

/// Adds a cycle.
pub fn push_cycle(
    alloc: Global,
    events: &mut Vec<Event>,
    name: &str,
    source: &str,
) -> Result<(), NoMemory>
    ensures { OnOk result (events.new.items ≡ events.old.items ++ kinds.Goes name.now (exchanges.Cycle source.now 50) ∷ []) }
{
    let name = Text::from_str(alloc, name)?;
    let source = Text::from_str(alloc, source)?;
    push(
        events,
        Event::Goes {
            name,
            what: Exchange::Cycle { source, max: 50 },
        },
    )
}

/// Adds a collection.
fn push_collection(alloc: Global, events: &mut Vec<Event>, name: &str) -> Result<(), NoMemory>
    ensures { OnOk result (events.new.items ≡ events.old.items ++ kinds.Calls name.now (calls.Collect 5000) ∷ []) }
{
    let name = Text::from_str(alloc, name)?;
    push(
        events,
        Event::Calls {
            name,
            what: Call::Collect { lifetime: 5000 },
        },
    )
}

/// Adds the time and the four controllers.
#[tactic(auto, unfolding(crate::specs::Generated::beginning))]
pub fn push_beginning(alloc: Global, events: &mut Vec<Event>) -> Result<(), NoMemory>
    ensures { OnOk result (events.new.items ≡ events.old.items ++ beginning) }
{
    push_time(events, 1000)?;
    push_controller(alloc, events, "A", 0xa0, 0xa1)?;
    push_controller(alloc, events, "B", 0xb0, 0xb1)?;
    push_controller(alloc, events, "C", 0xc0, 0xc1)?;
    push_controller(alloc, events, "D", 0xd0, 0xd1)
}

/// Adds one round of cycles.
#[tactic(auto, unfolding(crate::specs::Generated::round))]
fn push_round(alloc: Global, events: &mut Vec<Event>) -> Result<(), NoMemory>
    ensures { OnOk result (events.new.items ≡ events.old.items ++ round) }
{
    push_cycle(alloc, events, "B", "A")?;
    push_cycle(alloc, events, "C", "B")?;
    push_cycle(alloc, events, "D", "C")?;
    push_cycle(alloc, events, "A", "D")
}

/// Adds so many rounds of cycles.
#[tactic(auto, unfolding(crate::specs::Generated::rounds))]
pub fn push_rounds(alloc: Global, events: &mut Vec<Event>, count: u32) -> Result<(), NoMemory>
    ensures { OnOk result (events.new.items ≡ events.old.items ++ rounds count) }
{
    for _round in 0..count {
        push_round(alloc, events)?;
    }
    Ok(())
}

/// Adds one group.
#[tactic(auto, unfolding(crate::specs::Generated::group_added))]
fn push_group(alloc: Global, events: &mut Vec<Event>, g: u64) -> Result<(), NoMemory>
    requires { g < 10 }
    ensures { OnOk result (events.new.items ≡ events.old.items ++ group_added g ∷ []) }
{
    let name = Text::from_str(alloc, "A")?;
    let text = numbered(alloc, "Group ", u128::from(g))?;
    let values = one_value(alloc, GROUP_TYPE, Value::Number(2))?;
    let what = Write::Add {
        guid: group(g),
        class: GROUP,
        parent: root(),
        text,
        values,
    };
    push(
        events,
        Event::Calls {
            name,
            what: Call::Write(what),
        },
    )
}

/// Adds ten groups.
pub fn push_groups(alloc: Global, events: &mut Vec<Event>) -> Result<(), NoMemory>
    ensures { OnOk result (events.new.items ≡ events.old.items ++ groups) }
{
    for g in 0..10 {
        push_group(alloc, events, g)?;
    }
    Ok(())
}

/// Adds the time of the collections, and the four.
#[tactic(auto, unfolding(crate::specs::Generated::collections))]
pub fn push_collections(alloc: Global, events: &mut Vec<Event>) -> Result<(), NoMemory>
    ensures { OnOk result (events.new.items ≡ events.old.items ++ collections) }
{
    push_time(events, 100_000)?;
    push_collection(alloc, events, "A")?;
    push_collection(alloc, events, "B")?;
    push_collection(alloc, events, "C")?;
    push_collection(alloc, events, "D")
}
