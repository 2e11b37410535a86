//! Reads a log from its bytes.

ghost use Rattle.std.specs.Prelude.{◌≡◌, ◌≤◌, ◌<◌, ◌+◌, ◌^◌, ◌++◌, ℕ, List, false, true, Some, Err, IfOk, IfErr, IfSome, IfNone, OnOk, IsErrOf, length, drop, get_or};
ghost use Rattle.std.specs.Int.{w64, from_be_bytes};
ghost use Rattle.adr_model.specs.Lengths.{area_version};
ghost use Rattle.adr_law_journal.specs.Log.{body_at, open_gate, with_length};
ghost use Rattle.adr_law_journal.specs.Areas.{start_of, window};
ghost use Rattle.adr_law_journal.specs.Begun.{IsNamed};
ghost use Rattle.adr_journal.specs.Ended.{IsDamageOf};
ghost use Rattle.adr_journal.specs.Reached.{IsOwned, IsReached, IsLog};

use crate::form::{AreaRead, FollowRefusal, Form, Owner};
use crate::keeper::StartRefusal;
use crate::layout::{FIRST_SLOT, OPEN_GATE, SECOND_SLOT, SELECTOR, SELECTS_SECOND, slot_of};
use adr_state::{FIRST_AREA, Log, State};
use adr_values::Failure;
use adr_wire::Reader;
use std::alloc::Global;

/// An area whose records are read: whether the second slot selects it, its place and version, and the place of its
/// first gate; places in bytes.
#[derive(Clone, Copy)]
struct Area {
    second: bool,
    place: usize,
    version: u16,
    first: usize,
}

/// The body that stands behind a gate, if all of it is there.
fn body_of(bytes: &[u8]) -> Option<&[u8]>
    requires { length bytes.now < 2 ^ 63 }
    ensures some { IfSome result (λ body. (bytes.now ≡ with_length body.now ++ drop (4 + length body.now) bytes.now) × (length body.now < 2 ^ 32)) }
    ensures none { IfNone result ((place : ℕ) → (p : ℕ) × (body_at (record { place = place; bytes = bytes.now }) ≡ Err p)) }
{
    let mut reader = Reader::new(bytes);
    let len = match reader.read_u32() {
        Ok(len) => len,
        Err(_) => return None,
    };
    let (_, rest) = bytes.split_at(4);
    if rest.len() < len as usize {
        return None;
    }
    let (body, _) = rest.split_at(len as usize);
    Some(body)
}

fn damaged(place: u64) -> StartRefusal
    ensures { result ≡ StartRefusal.Damaged place }
{
    StartRefusal::Damaged { place }
}

/// Whose log it is, as its head says behind an open gate.
fn read_owner<F: Form>(bytes: &[u8]) -> Result<Owner, StartRefusal>
    ensures owned { IfOk result (λ o. IsOwned F.head (o.dsa, o.inv) bytes.now) }
    ensures damaged { IfErr result (λ e. IsDamageOf e (Some (start_of F.head F.area F.following bytes.now))) }
    ensures refused { IsErrOf result StartRefusal.DiskFault → ⊥ }
    ensures settled { IsErrOf result (StartRefusal.NoMemory false) → ⊥ }
{
    if bytes.len() < 2 {
        return Err(damaged(0));
    }
    if bytes[0] != OPEN_GATE {
        return Err(damaged(0));
    }
    match F::read_front(bytes) {
        Ok(owner) => Ok(owner),
        Err(Failure::Refused(malformed)) => Err(StartRefusal::Damaged {
            place: malformed.place,
        }),
        Err(Failure::NoMemory) => Err(StartRefusal::NoMemory { settled: true }),
    }
}

/// The eight bytes at a place as a number, the high byte first.
fn number_at(bytes: &[u8], place: usize) -> u64
    requires { place + 8 ≤ length bytes.now }
    ensures { result ≡ from_be_bytes w64 (window place 8 bytes.now) }
{
    let (_, rest) = bytes.split_at(place);
    match rest.split_first_chunk::<8>() {
        Some((number, _)) => u64::from_be_bytes(*number),
        None => unreachable!(),
    }
}

/// Whether the second slot is selected, and the place that the selected one holds. The file is damaged at the field
/// that it ends within, or at the selected slot where no area can stand at its place.
fn read_selected<F: Form>(bytes: &[u8]) -> Result<(bool, usize), StartRefusal>
    requires short { length bytes.now < 2 ^ 63 }
    requires owned { (o : List ℕ × List ℕ) × IsOwned F.head o bytes.now }
    ensures named { IfOk result (λ r. IsNamed r.0 r.1 bytes.now) }
    ensures damaged { IfErr result (λ e. IsDamageOf e (Some (start_of F.head F.area F.following bytes.now))) }
    ensures refused { IsErrOf result StartRefusal.DiskFault → ⊥ }
    ensures settled { IsErrOf result (StartRefusal.NoMemory false) → ⊥ }
{
    let len = bytes.len() as u64;
    if len < FIRST_SLOT {
        return Err(damaged(SELECTOR));
    }
    if len < SECOND_SLOT {
        return Err(damaged(FIRST_SLOT));
    }
    if len < FIRST_AREA {
        return Err(damaged(SECOND_SLOT));
    }
    let second = bytes[SELECTOR as usize] == SELECTS_SECOND;
    let slot = slot_of(second);
    let place = number_at(bytes, slot as usize);
    if place < FIRST_AREA {
        return Err(damaged(slot));
    }
    if place >= len {
        return Err(damaged(slot));
    }
    Ok((second, place as usize))
}

/// The state that the selected area begins with.
fn read_first<F: Form>(alloc: Global, bytes: &[u8]) -> Result<(State, Area), StartRefusal>
    requires { length bytes.now < 2 ^ 63 }
    ensures reached { IfOk result (λ r. IsReached F.head F.area F.following r.1.second r.1.place r.1.version r.1.first r.1.first bytes.now r.0) }
    ensures formed { IfOk result (λ r. F.is_formed r.0) }
    ensures version { IfOk result (λ r. r.1.version ≤ area_version) }
    ensures apart { IfOk result (λ r. r.1.place + 6 ≤ r.1.first) }
    ensures damaged { IfErr result (λ e. IsDamageOf e (Some (start_of F.head F.area F.following bytes.now))) }
    ensures refused { IsErrOf result StartRefusal.DiskFault → ⊥ }
    ensures settled { IsErrOf result (StartRefusal.NoMemory false) → ⊥ }
{
    let owner = read_owner::<F>(bytes)?;
    let (second, place) = read_selected::<F>(bytes)?;
    match F::read_area(alloc, bytes, place, owner) {
        Ok(
            AreaRead {
                state,
                first,
                version,
            },
        ) => Ok((
            state,
            Area {
                second,
                place,
                version,
                first,
            },
        )),
        Err(Failure::Refused(malformed)) => Err(StartRefusal::Damaged {
            place: malformed.place,
        }),
        Err(Failure::NoMemory) => Err(StartRefusal::NoMemory { settled: true }),
    }
}

/// Takes the record behind an open gate, and tells the place of the next gate.
fn take_record<F: Form>(
    alloc: Global,
    state: &mut State,
    bytes: &[u8],
    area: Area,
    gate: usize,
) -> Result<usize, StartRefusal>
    requires short { length bytes.now < 2 ^ 63 }
    requires there { gate < length bytes.now }
    requires open { get_or bytes.now gate 0 ≡ open_gate }
    requires reached { IsReached F.head F.area F.following area.second area.place area.version area.first gate bytes.now state.old }
    requires formed { F.is_formed state.old }
    ensures further { IfOk result (λ next. gate < next) }
    ensures reached { IfOk result (λ next. IsReached F.head F.area F.following area.second area.place area.version area.first next bytes.now state.new) }
    ensures formed { OnOk result (F.is_formed state.new) }
    ensures damaged { IfErr result (λ e. IsDamageOf e (Some (start_of F.head F.area F.following bytes.now))) }
    ensures refused { IsErrOf result StartRefusal.DiskFault → ⊥ }
    ensures settled { IsErrOf result (StartRefusal.NoMemory false) → ⊥ }
{
    let (_, behind) = bytes.split_at(gate + 1);
    let Some(body) = body_of(behind) else {
        return Err(damaged(gate as u64));
    };
    match F::follow(alloc, area.version, state, body) {
        Ok(()) => Ok(gate + 5 + body.len()),
        Err(FollowRefusal::CannotFollow) => Err(damaged(gate as u64)),
        Err(FollowRefusal::NoMemory) => Err(StartRefusal::NoMemory { settled: true }),
    }
}

/// Takes the records of an area from its first gate on, and tells the place behind the closed one.
fn take_records<F: Form>(
    alloc: Global,
    state: &mut State,
    bytes: &[u8],
    area: Area,
) -> Result<usize, StartRefusal>
    requires short { length bytes.now < 2 ^ 63 }
    requires reached { IsReached F.head F.area F.following area.second area.place area.version area.first area.first bytes.now state.old }
    requires formed { F.is_formed state.old }
    ensures rests { IfOk result (λ end. IsLog F.head F.area F.following bytes.now state.new
        (record { second = area.second; place = area.place; version = area.version; first = area.first; log_end = end })) }
    ensures within { IfOk result (λ end. (area.first < end) × (end ≤ length bytes.now)) }
    ensures formed { OnOk result (F.is_formed state.new) }
    ensures damaged { IfErr result (λ e. IsDamageOf e (Some (start_of F.head F.area F.following bytes.now))) }
    ensures refused { IsErrOf result StartRefusal.DiskFault → ⊥ }
    ensures settled { IsErrOf result (StartRefusal.NoMemory false) → ⊥ }
{
    let mut gate = area.first;
    'records: while gate < bytes.len() {
        if bytes[gate] != OPEN_GATE {
            return Ok(gate + 1);
        }
        gate = take_record::<F>(alloc, state, bytes, area, gate)?;
    }
    Err(damaged(gate as u64))
}

/// The state that a log leads to, and where the log stands.
pub fn replay<F: Form>(alloc: Global, bytes: &[u8]) -> Result<(State, Log), StartRefusal>
    requires { length bytes.now < 2 ^ 63 }
    ensures rests { IfOk result (λ r. IsLog F.head F.area F.following bytes.now r.0 r.1) }
    ensures within { IfOk result (λ r. (r.1.first < r.1.log_end) × (r.1.log_end ≤ length bytes.now)) }
    ensures apart { IfOk result (λ r. r.1.place + 6 ≤ r.1.first) }
    ensures version { IfOk result (λ r. r.1.version ≤ area_version) }
    ensures formed { IfOk result (λ r. F.is_formed r.0) }
    ensures damaged { IfErr result (λ e. IsDamageOf e (Some (start_of F.head F.area F.following bytes.now))) }
    ensures refused { IsErrOf result StartRefusal.DiskFault → ⊥ }
    ensures settled { IsErrOf result (StartRefusal.NoMemory false) → ⊥ }
{
    let (mut state, area) = read_first::<F>(alloc, bytes)?;
    let end = take_records::<F>(alloc, &mut state, bytes, area)?;
    let log = Log::found(
        area.second,
        area.place as u64,
        area.version,
        area.first as u64,
        end as u64,
    );
    Ok((state, log))
}
