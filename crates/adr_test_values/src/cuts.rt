//! Where a reply is cut by its bytes, which no line of a schedule can reach.

use crate::holding::{controller, east, holding, list};
use adr_call::{Failure, ServeRefusal};
use adr_cycle::{Reply, ask, serve};
use adr_state::{Mode, NoMemory, State, Written};
use adr_values::{Content, Mark, Octets, Value, Values};
use std::alloc::Global;
use std::process::Abort;

/// A description of so many octets.
fn octets(alloc: Global, number: usize) -> Result<Content, NoMemory> {
    let octets = vec![in alloc; 7; number]?;
    let values = list(alloc, [Value::Octets(Octets::of(octets))])?;
    Ok(Content::Values(Values::of(values)))
}

/// The write of a container with so many octets.
fn written(alloc: Global, usn: u64, number: usize) -> Result<Written, NoMemory> {
    east(alloc, usn, 1, octets(alloc, number)?)
}

/// The writes of five.
fn five(alloc: Global, number: usize) -> Result<Vec<Written>, NoMemory> {
    let mut writes = Vec::new(alloc);
    for usn in 1..=5 {
        writes.push(written(alloc, usn, number)?)?;
    }
    Ok(writes)
}

/// What a new controller is served that asks for ten items at most.
fn reply(alloc: Global, source: &State) -> Result<Reply, Failure<ServeRefusal>> {
    let request = ask(alloc, &controller(alloc, 2), source.dsa(), 10, 2)?;
    serve(alloc, source, &request, 7)
}

/// The first reply of a controller with five containers.
fn first(rt: &impl Abort, alloc: Global, number: usize) -> Reply {
    let writes = five(alloc, number).expect(rt, "memory");
    let source = holding(rt, alloc, 5, Mode::Normal, writes);
    reply(alloc, &source).ok().expect(rt, "a reply")
}

/// How many items it has, the numbers of the mark up to which it goes, and whether nothing is left.
fn served(rt: &impl Abort, alloc: Global, number: usize) -> (usize, [u64; 3], bool) {
    let reply = first(rt, alloc, number);
    let Mark { obj, prop, seen } = reply.to();
    (
        reply.items().len(),
        [obj, prop, seen],
        reply.last().is_some(),
    )
}

/// A container has 43 bytes and its rows 40, 60 and 42 beside the octets: with 1,048,391 of these it has a MiB.
#[test]
fn a_reply_is_cut_at_four_mebibytes(rt: HostRuntime) {
    let alloc = rt.alloc();
    assert_eq!(rt; served(&rt, alloc, 1_048_391), (4, [4, 0, 5], false));
    assert_eq!(rt; served(&rt, alloc, 1_048_390), (5, [5, 5, 5], true));
}
