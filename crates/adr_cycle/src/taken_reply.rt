//! The whole of a reply.

ghost use Rattle.std.specs.Prelude.{◌≡◌, ◌≤◌, [], None, Some, Ok, Err, IfOk, IsErrOf, unwrap_or};
ghost use Rattle.adr_call.specs.declared.refusal.TakeRefusal.{TakeRefusal};
ghost use Rattle.adr_model.specs.Change.{after};
ghost use Rattle.adr_model.specs.Take.{over_limit, take_refusal, same_mark, shown_by_last, take, taken_change, times_brought};
ghost use Rattle.adr_model.specs.Write.{usn_limit};
ghost use Rattle.adr_cycle.specs.ReplyRefused.{refusal_before};

use crate::taking::{Taking, take_items};
use crate::{NoMemory, Reply};
use adr_call::{Failure, Table, TakeRefusal};
use adr_overlay::len_after;
use adr_state::{
    CURSOR_LIMIT, Change, LINK_LIMIT, MARK_LIMIT, Mode, OBJECT_LIMIT, PartnerMark, State,
    USN_LIMIT, is_same,
};
use adr_values::{Mark, Times, Vector};
use std::alloc::Global;

/// What a reply does to a controller: the change that it makes, or why it is refused (MS-DRSR, processing a
/// GetNCChanges reply; the refusals and their order are this project's own). The controller stays as it is. A fault of
/// an item whose place needs more than 32 bits counts as want of memory.
pub fn take(alloc: Global, state: &State, reply: &Reply) -> Result<Change, Failure<TakeRefusal>>
    requires { state.now.store.usn ≤ usn_limit }
    ensures ok { IfOk result (λ change. take state.now reply.now ≡ Ok change) }
    ensures within { IfOk result (λ change. change.usn ≤ usn_limit) }
    ensures refused { (refusal : TakeRefusal) → IsErrOf result (Failure.Refused refusal)
        → take state.now reply.now ≡ Err refusal }

    // Want of memory never stands for a refusal that comes before the items are looked at.
    ensures before { (refusal : TakeRefusal) → refusal_before state.now reply.now ≡ Some refusal
        → IsErrOf result (Failure.Refused refusal) }
{
    if let Some(refusal) = refusal_before(state, reply) {
        return Err(Failure::Refused(refusal));
    }
    outcome(alloc, state, reply)
}

/// The change of a reply that isn't refused before its items are looked at, or why it is refused.
fn outcome(alloc: Global, state: &State, reply: &Reply) -> Result<Change, Failure<TakeRefusal>>
    requires usn { state.now.store.usn ≤ usn_limit }
    requires before { refusal_before state.now reply.now ≡ None }
    ensures ok { IfOk result (λ change. take state.now reply.now ≡ Ok change) }
    ensures refused { (refusal : TakeRefusal) → IsErrOf result (Failure.Refused refusal)
        → take state.now reply.now ≡ Err refusal }
{
    let taking = take_items(alloc, state, reply.items())?;
    match refusal_after(state, reply, &taking) {
        Some(refusal) => Err(Failure::Refused(refusal)),
        None => Ok(taken_change(alloc, state, reply, taking)?),
    }
}

/// Why a reply is refused before its items are looked at, first in order.
fn refusal_before(state: &State, reply: &Reply) -> Option<TakeRefusal>
    ensures { result ≡ refusal_before state.now reply.now }
{
    if state.mode().is_quarantined() {
        return Some(TakeRefusal::Quarantined);
    }
    if !is_same(reply.dest(), state.dsa()) {
        return Some(TakeRefusal::NotMine { dest: reply.dest() });
    }
    let kept = state.marks().mark(reply.source(), reply.inv());
    if !is_same_mark(reply.from(), kept) {
        return Some(TakeRefusal::Stale {
            mark: kept,
            from: reply.from(),
        });
    }
    if let Some((inv, has, needs)) = reply.asked().first_gap(state.vector()) {
        return Some(TakeRefusal::VectorBehind { inv, has, needs });
    }
    let mine = state.schema().number();
    if reply.schema() != mine {
        return Some(TakeRefusal::SchemaMismatch {
            mine,
            theirs: reply.schema(),
        });
    }
    let shown = shown_by_last(state, reply);
    if state.usn() < shown {
        return Some(TakeRefusal::RolledBack {
            inv: state.inv(),
            mine: state.usn(),
            shown,
        });
    }
    None
}

fn is_same_mark(a: Mark, b: Mark) -> bool
    ensures { result ≡ same_mark a b }
{
    a.obj == b.obj && a.prop == b.prop && a.seen == b.seen
}

/// How much of this incarnation the source has seen.
fn shown_by_last(state: &State, reply: &Reply) -> u64
    ensures { result ≡ shown_by_last state.now reply.now }
{
    match reply.last() {
        Some(vector) => vector.at(state.inv()),
        None => 0,
    }
}

/// Why a reply whose items were taken is refused, first in order.
fn refusal_after(state: &State, reply: &Reply, taking: &Taking) -> Option<TakeRefusal>
    requires { refusal_before state.now reply.now ≡ None }
    ensures { let taken = after state.now (taken_change state.now reply.now taking.now) in
        result ≡ take_refusal state.now reply.now taking.now taken }
{
    if let Some(refusal) = taking.refusal() {
        return Some(refusal);
    }
    if USN_LIMIT < taking.usn() {
        return Some(TakeRefusal::UsnLimit);
    }
    let cursors = len_after(state.vector(), reply.last(), state.inv(), taking.usn());
    over_limit(Table::Objects, OBJECT_LIMIT, taking.objects())
        .or(over_limit(Table::Links, LINK_LIMIT, taking.links()))
        .or(over_limit(Table::Cursors, CURSOR_LIMIT, cursors))
        .or(over_limit(
            Table::Marks,
            MARK_LIMIT,
            state.marks().len_with(reply.source()),
        ))
}

/// The refusal of a table that passes its limit.
fn over_limit(table: Table, limit: u64, count: usize) -> Option<TakeRefusal>
    ensures { result ≡ over_limit table limit count }
{
    if limit < count as u64 {
        Some(TakeRefusal::Full { table, limit })
    } else {
        None
    }
}

/// The change of a taken reply; the last one brings the source's vector and its times.
fn taken_change(
    alloc: Global,
    state: &State,
    reply: &Reply,
    taking: Taking,
) -> Result<Change, NoMemory>
    ensures { IfOk result (λ change. change ≡ taken_change state.now reply.now taking.entry) }
{
    let joined = joined_by(alloc, reply)?;
    let times = times_brought(alloc, reply)?;
    let mark = PartnerMark::new(reply.inv(), reply.to());
    Ok(Change::new(
        taking.usn(),
        Mode::Normal,
        state.schema(),
        Some((reply.source(), mark)),
        joined,
        times,
        Vector::new(alloc),
        Vec::new(alloc),
        taking.into_writes(),
    ))
}

/// What the source has seen, if the reply is its last.
fn joined_by(alloc: Global, reply: &Reply) -> Result<Vector, NoMemory>
    ensures { IfOk result (λ joined. joined ≡ unwrap_or reply.now.last []) }
{
    match reply.last() {
        Some(vector) => vector.copy(alloc),
        None => Ok(Vector::new(alloc)),
    }
}

/// What the source tells of times, if the reply is its last.
fn times_brought(alloc: Global, reply: &Reply) -> Result<Times, NoMemory>
    ensures { IfOk result (λ times. times ≡ times_brought reply.now) }
{
    if reply.last().is_some() {
        reply.times().copy(alloc)
    } else {
        Ok(Times::new(alloc))
    }
}
