//! The reply to a request that isn't refused.

ghost use Rattle.std.specs.Prelude.{◌≡◌, ℕ, [], ◌&&◌, ◌==◌, fold, map, IfOk, if◌then◌else◌};
ghost use Rattle.std.specs.Bool.{then_some};
ghost use Rattle.adr_model.specs.Change.{Item as Defined};
ghost use Rattle.adr_cycle.specs.Candidates.{AreBehind};
ghost use Rattle.adr_model.specs.Serve.{begins_at, byte_limit, candidates, first_items, reply_of, reply_to, times_told};

use crate::candidates::next_candidate;
use crate::{NoMemory, Reply, Request};
use adr_state::{Item, PartnerMark, Rows, State, Walk, item_length_within};
use adr_values::{Mark, Times, Vector};
use std::alloc::Global;

/// The bytes of items at which a reply is cut: 4 MiB.
const BYTE_LIMIT: u64 = 4_194_304;

/// The version of the protocol whose last replies tell times.
const TIMED: u16 = 2;

/// The reply to a request at this moment.
pub fn reply_to(
    alloc: Global,
    state: &State,
    request: &Request,
    now: u64,
) -> Result<Reply, NoMemory>
    ensures { IfOk result (λ reply. reply ≡ reply_to state.now request.now now) }
{
    let from = begins_at(state, request);
    let asked = request.vector();
    let rows = state.rows();
    let mut walk = rows.walk(from.obj);
    let sent = first_items(alloc, rows, from, asked, &mut walk, request.max())?;
    let last = last_sent(from.obj, sent.as_slice());
    let is_last = next_candidate(alloc, rows, from, asked, &mut walk, last)?.is_none();
    reply_of(alloc, state, request, now, from, sent, is_last)
}

/// Where the reply begins: the mark of the request, if it is one of this incarnation.
pub fn begins_at(state: &State, request: &Request) -> Mark
    ensures { result ≡ begins_at state.now request.now }
{
    PartnerMark::new(request.inv(), request.mark()).mark_of(state.inv())
}

/// The first items: until there are so many, or so many bytes or more. The units that are left behind them stay to look at.
fn first_items(
    alloc: Global,
    rows: &Rows,
    from: Mark,
    asked: &Vector,
    walk: &mut Walk<'_>,
    mut most: u32,
) -> Result<Vec<(u64, Item)>, NoMemory>
    requires { AreBehind rows.now from asked.now from.obj walk.old }
    ensures sent { IfOk result (λ sent.
        sent.items ≡ first_items most byte_limit (candidates rows.now from asked.now)) }
    ensures left { IfOk result (λ sent.
        AreBehind rows.now from asked.now (fold (λ n (c : ℕ × Defined). c.0) from.obj sent.items) walk.new) }
{
    let mut bytes = BYTE_LIMIT;
    let mut last = from.obj;
    let mut sent = Vec::new(alloc);
    while most > 0 && bytes > 0 {
        let Some((local, candidate)) = next_candidate(alloc, rows, from, asked, walk, last)? else {
            break;
        };
        let item = candidate.item(alloc)?;
        most -= 1;
        bytes -= item_length_within(&item, bytes);
        last = local;
        sent.push((local, item))?;
    }
    Ok(sent)
}

/// A reply that sends these of the candidates.
fn reply_of(
    alloc: Global,
    state: &State,
    request: &Request,
    now: u64,
    from: Mark,
    sent: Vec<(u64, Item)>,
    is_last: bool,
) -> Result<Reply, NoMemory>
    ensures { IfOk result (λ reply. reply ≡ reply_of state.now request.now now from sent.items is_last) }
{
    let to = mark_after(state, from, sent.as_slice(), is_last);
    Ok(Reply::new(
        request.version(),
        request.dest(),
        state.dsa(),
        state.inv(),
        from,
        to,
        state.schema().number(),
        request.vector().copy(alloc)?,
        vector_if(alloc, is_last, state)?,
        times_if(alloc, is_last, state, request, now)?,
        items_of(alloc, sent)?,
    ))
}

/// How far the asker has read the controller once it has taken the reply.
fn mark_after(state: &State, from: Mark, sent: &[(u64, Item)], is_last: bool) -> Mark
    ensures { result
        ≡ (if is_last
        then record { obj = state.now.store.usn; prop = state.now.store.usn; seen = state.now.store.usn }
        else record { obj = fold (λ n (c : ℕ × Defined). c.0) from.obj sent.now; prop = from.prop; seen = state.now.store.usn }) }
{
    if is_last {
        all_read(state)
    } else {
        read_to(state, from, sent)
    }
}

/// The mark after all changes.
fn all_read(state: &State) -> Mark
    ensures { result
        ≡ record { obj = state.now.store.usn; prop = state.now.store.usn; seen = state.now.store.usn } }
{
    let usn = state.usn();
    Mark {
        obj: usn,
        prop: usn,
        seen: usn,
    }
}

/// The mark at the last item that is sent. Only the last reply moves `prop`: until then rows of units that are still to
/// be sent are missing.
fn read_to(state: &State, from: Mark, sent: &[(u64, Item)]) -> Mark
    ensures { result
        ≡ record { obj = fold (λ n (c : ℕ × Defined). c.0) from.obj sent.now; prop = from.prop; seen = state.now.store.usn } }
{
    Mark {
        obj: last_sent(from.obj, sent),
        prop: from.prop,
        seen: state.usn(),
    }
}

/// The update sequence number of the last item that is sent.
fn last_sent(from: u64, sent: &[(u64, Item)]) -> u64
    ensures { result ≡ fold (λ n (c : ℕ × Defined). c.0) from sent.now }
{
    match sent.last() {
        Some((local, _)) => *local,
        None => from,
    }
}

/// The controller's own vector, in the last reply.
fn vector_if(alloc: Global, is_last: bool, state: &State) -> Result<Option<Vector>, NoMemory>
    ensures { IfOk result (λ vector. vector ≡ then_some is_last state.now.store.vector) }
{
    if is_last {
        Ok(Some(state.vector().copy(alloc)?))
    } else {
        Ok(None)
    }
}

/// The controller's own times, in the last reply, where the protocol's version tells times.
fn times_if(
    alloc: Global,
    is_last: bool,
    state: &State,
    request: &Request,
    now: u64,
) -> Result<Times, NoMemory>
    ensures { IfOk result (λ times. times ≡ (if is_last && (request.now.version == 2) then times_told state.now now else [])) }
{
    if is_last && request.version() == TIMED {
        times_told(alloc, state, now)
    } else {
        Ok(Times::new(alloc))
    }
}

/// The controller's own times, and this moment as that of its own cursor, where it has one.
fn times_told(alloc: Global, state: &State, now: u64) -> Result<Times, NoMemory>
    ensures { IfOk result (λ times. times ≡ times_told state.now now) }
{
    state
        .times()
        .told(alloc, state.inv(), own_moment(state, now))
}

/// The moment that is told of the own cursor: 0 where there is none.
fn own_moment(state: &State, now: u64) -> u64
    ensures { result ≡ (if state.now.store.usn == 0 then 0 else now) }
{
    if state.usn() == 0 { 0 } else { now }
}

/// The items alone.
fn items_of(alloc: Global, sent: Vec<(u64, Item)>) -> Result<Vec<Item>, NoMemory>
    ensures { IfOk result (λ items. items.items ≡ map (λ (c : ℕ × Defined). c.1) sent.items) }
{
    let mut items = Vec::with_capacity(alloc, sent.len())?;
    for (_, item) in sent {
        items.push(item)?;
    }
    Ok(items)
}
