//! The lines of the persons, of whom there are five times as many as the schedule's number.

ghost use Rattle.std.specs.Prelude.{◌≡◌, ◌<◌, ◌+◌, ◌*◌, ◌/◌, ◌%◌, ◌^◌, ◌++◌, ◌∷◌, [], OnOk, codes};
ghost use Rattle.adr_call.specs.declared.event.Event.TheVariants as kinds;
ghost use Rattle.adr_call.specs.declared.event.Coming.TheVariants as comings;
ghost use Rattle.adr_call.specs.declared.event.Made.TheVariants as mades;
ghost use Rattle.adr_call.specs.declared.event.Exchange.TheVariants as exchanges;
ghost use Rattle.adr_run_exercise.specs.Generated.{backed_up, controller, deletions, exchange, exchanged, identifier, lost, met, numbered, person_added, person_deleted, person_lines, person_linked, persons, restored, state};

use crate::generator::Generator;
use crate::lines::{one_value, push, push_cycle, push_time};
use crate::words::{controller, group, identifier, numbered, person, root};
use adr_call::{Call, Coming, Event, Exchange, Made, Write};
use adr_values::{NoMemory, Text, Value};
use std::alloc::Global;

/// The number of the class user.
const USER: u16 = 5;

/// The number of the attribute sAMAccountName.
const ACCOUNT_NAME: u16 = 10;

/// The number of the attribute member.
const MEMBER: u16 = 30;

/// Adds the backup, where its person has come.
#[tactic(auto, unfolding(crate::specs::Generated::backed_up))]
fn push_backup(alloc: Global, events: &mut Vec<Event>, n: u64, k: u128) -> Result<(), NoMemory>
    ensures { OnOk result (events.new.items ≡ events.old.items ++ backed_up n k) }
{
    if k == 2 * u128::from(n) {
        let name = Text::from_str(alloc, "B")?;
        let bound = Text::from_str(alloc, "image")?;
        let what = Made::Backup;
        push(events, Event::Binds { name, what, bound })?;
    }
    Ok(())
}

/// Adds the restored controller.
fn push_restore(alloc: Global, events: &mut Vec<Event>) -> Result<(), NoMemory>
    ensures { OnOk result (events.new.items ≡ events.old.items ++ kinds.Comes (codes "B") (identifier 0xb2) (comings.Restored (codes "image")) ∷ []) }
{
    let name = Text::from_str(alloc, "B")?;
    let image = Text::from_str(alloc, "image")?;
    let inv = identifier(0xb2);
    let how = Coming::Restored { image };
    push(events, Event::Comes { name, inv, how })
}

/// Adds the restored controller between its cycles, where its person has come.
#[tactic(auto, unfolding(crate::specs::Generated::restored))]
fn push_restored(alloc: Global, events: &mut Vec<Event>, n: u64, k: u128) -> Result<(), NoMemory>
    ensures { OnOk result (events.new.items ≡ events.old.items ++ restored n k) }
{
    if k == 3 * u128::from(n) {
        push_cycle(alloc, events, "A", "B")?;
        push_restore(alloc, events)?;
        push_cycle(alloc, events, "B", "A")?;
    }
    Ok(())
}

/// Adds the line that adds a person.
#[tactic(auto, unfolding(crate::specs::Generated::person_added))]
fn push_added(alloc: Global, events: &mut Vec<Event>, k: u128) -> Result<(), NoMemory>
    requires { k < 2 ^ 72 }
    ensures { OnOk result (events.new.items ≡ events.old.items ++ person_added k ∷ []) }
{
    let name = controller(alloc, (k % 4) as u64)?;
    let text = numbered(alloc, "Person ", k)?;
    let account = numbered(alloc, "p", k)?;
    let values = one_value(alloc, ACCOUNT_NAME, Value::Text(account))?;
    let what = Write::Add {
        guid: person(k),
        class: USER,
        parent: root(),
        text,
        values,
    };
    push(
        events,
        Event::Calls {
            name,
            what: Call::Write(what),
        },
    )
}

/// Adds the line that links a person to a group.
#[tactic(auto, unfolding(crate::specs::Generated::person_linked))]
fn push_linked(alloc: Global, events: &mut Vec<Event>, k: u128) -> Result<(), NoMemory>
    requires { k < 2 ^ 72 }
    ensures { OnOk result (events.new.items ≡ events.old.items ++ person_linked k ∷ []) }
{
    let name = controller(alloc, (k % 4) as u64)?;
    let what = Write::Link {
        from: group((k % 10) as u64),
        attr: MEMBER,
        to: person(k),
    };
    push(
        events,
        Event::Calls {
            name,
            what: Call::Write(what),
        },
    )
}

/// Adds a request.
fn push_asked(
    alloc: Global,
    events: &mut Vec<Event>,
    k: u128,
    p: u64,
    q: u64,
) -> Result<(), NoMemory>
    ensures { OnOk result (events.new.items ≡ events.old.items ++ kinds.Binds (controller p) (mades.Ask (controller q) 3 2) (numbered (codes "q") k) ∷ []) }
{
    let name = controller(alloc, p)?;
    let partner = controller(alloc, q)?;
    let bound = numbered(alloc, "q", k)?;
    let what = Made::Ask {
        partner,
        max: 3,
        version: 2,
    };
    push(events, Event::Binds { name, what, bound })
}

/// Adds the line that serves a request.
fn push_served(alloc: Global, events: &mut Vec<Event>, k: u128, q: u64) -> Result<(), NoMemory>
    ensures { OnOk result (events.new.items ≡ events.old.items ++ kinds.Binds (controller q) (mades.Serve (numbered (codes "q") k)) (numbered (codes "r") k) ∷ []) }
{
    let name = controller(alloc, q)?;
    let request = numbered(alloc, "q", k)?;
    let bound = numbered(alloc, "r", k)?;
    let what = Made::Serve { request };
    push(events, Event::Binds { name, what, bound })
}

/// Adds a request that is served, and whose reply is lost.
#[tactic(auto, unfolding(crate::specs::Generated::lost))]
fn push_lost(
    alloc: Global,
    events: &mut Vec<Event>,
    k: u128,
    p: u64,
    q: u64,
) -> Result<(), NoMemory>
    ensures { OnOk result (events.new.items ≡ events.old.items ++ lost k p q) }
{
    push_asked(alloc, events, k, p, q)?;
    push_served(alloc, events, k, q)
}

/// Adds a pull.
fn push_pull(alloc: Global, events: &mut Vec<Event>, p: u64, q: u64) -> Result<(), NoMemory>
    ensures { OnOk result (events.new.items ≡ events.old.items ++ kinds.Goes (controller p) (exchanges.Pull (controller q) 3) ∷ []) }
{
    let name = controller(alloc, p)?;
    let source = controller(alloc, q)?;
    let what = Exchange::Pull { source, max: 3 };
    push(events, Event::Goes { name, what })
}

/// Adds a pull, or by bad luck a request whose reply is lost.
#[tactic(auto, unfolding(crate::specs::Generated::exchanged))]
fn push_exchanged(
    alloc: Global,
    events: &mut Vec<Event>,
    k: u128,
    p: u64,
    q: u64,
    luck: u64,
) -> Result<(), NoMemory>
    ensures { OnOk result (events.new.items ≡ events.old.items ++ exchanged k p q luck) }
{
    if luck == 0 {
        push_lost(alloc, events, k, p, q)
    } else {
        push_pull(alloc, events, p, q)
    }
}

/// Adds an exchange by three draws.
#[tactic(auto, unfolding(crate::specs::Generated::met, crate::specs::Generated::state))]
fn push_met(
    alloc: Global,
    events: &mut Vec<Event>,
    generator: &mut Generator,
    k: u128,
) -> Result<(), NoMemory>
    ensures met { OnOk result (events.new.items ≡ events.old.items ++ met generator.old k) }
    ensures state { generator.new ≡ state generator.old 3 }
{
    let i = generator.below(4);
    let j = generator.below(3);
    let luck = generator.below(4);
    push_exchanged(alloc, events, k, i, (i + 1 + j) % 4, luck)
}

/// Adds an exchange at each seventh person.
#[tactic(auto, using(crate::proofs::Draws::state_behind), unfolding(crate::specs::Generated::exchange))]
fn push_exchange(
    alloc: Global,
    events: &mut Vec<Event>,
    generator: &mut Generator,
    n: u64,
    k: u128,
) -> Result<(), NoMemory>
    requires { generator.old ≡ state n (3 * (k / 7)) }
    ensures exchange { OnOk result (events.new.items ≡ events.old.items ++ exchange n k) }
    ensures state { generator.new ≡ state n (3 * ((k + 1) / 7)) }
{
    if k % 7 == 6 {
        push_met(alloc, events, generator, k)
    } else {
        Ok(())
    }
}

/// Adds all lines of a person.
#[tactic(auto, unfolding(crate::specs::Generated::person_lines))]
fn push_person(
    alloc: Global,
    events: &mut Vec<Event>,
    generator: &mut Generator,
    n: u64,
    k: u128,
) -> Result<(), NoMemory>
    requires small { k < 2 ^ 72 }
    requires state { generator.old ≡ state n (3 * (k / 7)) }
    ensures lines { OnOk result (events.new.items ≡ events.old.items ++ person_lines n k) }
    ensures state { OnOk result (generator.new ≡ state n (3 * ((k + 1) / 7))) }
{
    push_backup(alloc, events, n, k)?;
    push_restored(alloc, events, n, k)?;
    push_added(alloc, events, k)?;
    push_linked(alloc, events, k)?;
    push_exchange(alloc, events, generator, n, k)
}

/// Adds the lines of all persons.
pub fn push_persons(alloc: Global, events: &mut Vec<Event>, n: u64) -> Result<(), NoMemory>
    ensures { OnOk result (events.new.items ≡ events.old.items ++ persons n) }
{
    let mut generator = Generator::from_seed(n);
    for k in 0..5 * u128::from(n) {
        push_person(alloc, events, &mut generator, n, k)?;
    }
    Ok(())
}

/// Adds the line that deletes a person, if it is a tenth one.
#[tactic(auto, unfolding(crate::specs::Generated::person_deleted))]
fn push_deleted(alloc: Global, events: &mut Vec<Event>, k: u128) -> Result<(), NoMemory>
    requires { k < 2 ^ 72 }
    ensures { OnOk result (events.new.items ≡ events.old.items ++ person_deleted k) }
{
    if k % 10 == 9 {
        let name = Text::from_str(alloc, "A")?;
        let what = Write::Delete { guid: person(k) };
        push(
            events,
            Event::Calls {
                name,
                what: Call::Write(what),
            },
        )?;
    }
    Ok(())
}

/// Adds the time of the deletions, and the deletion of every tenth person.
pub fn push_deletions(alloc: Global, events: &mut Vec<Event>, n: u64) -> Result<(), NoMemory>
    ensures { OnOk result (events.new.items ≡ events.old.items ++ deletions n) }
{
    push_time(events, 2000)?;
    for k in 0..5 * u128::from(n) {
        push_deleted(alloc, events, k)?;
    }
    Ok(())
}
