//! A keeper in memory alone. It stands on the keepers of `adr_journal`, and on the bytes of logs there.
#![tactic(auto)]

ghost use Rattle.std.specs.Prelude.{◌≡◌, ◌+◌, ◌-◌, ◌≤◌, ◌<◌, ◌^◌, ℕ, List, [], ◌∷◌, length, vec_capacity, Some, IfOk};
ghost use Rattle.adr_disk.specs.Disk.{put as put_over};
ghost use Rattle.adr_wire.specs.Fields.{u64};
ghost use Rattle.adr_model.specs.Store.{State as Defined};
ghost use Rattle.adr_model.specs.Lengths.{Log as Logs};
ghost use Rattle.adr_law_journal.specs.Log.{open_gate};
ghost use Rattle.adr_law_journal.specs.Areas.{selector_place, slot_place};
ghost use Rattle.adr_law_journal.specs.Commits.{selector_of};
ghost use Rattle.adr_law_journal.specs.Kept.{Layout, IsSettled};
ghost use Rattle.adr_law_journal.specs.Recording.{log_behind};
ghost use Rattle.adr_journal.specs.Written.{TakesBoth};

use adr_journal::{Form, Keeper, KeeperRefusal, OPEN_GATE, StartRefusal, new_log, replay, spell};
use adr_run_disk::put;
use adr_state::{Change, Log, State};
use adr_values::NoMemory;
use std::alloc::Global;
use std::marker::PhantomData;

/// The place of the byte that selects a slot, and of the slots.
const SELECTOR: usize = 39;

const FIRST_SLOT: usize = 40;

const SECOND_SLOT: usize = 48;

/// The selector that selects the second slot; every other one selects the first.
const SELECTS_SECOND: u8 = 0xC3;

/// A log in memory, for whom no disk is at hand: nothing of it is lost at a crash, and nothing outlives the program.
/// Before it is formatted or started, `log` has no bytes. The next commit puts `area` there, which has no bytes where no
/// checkpoint is due, and `prepared`, and then the log is `next`.
#[derive(Drop)]
pub struct Plain<F> {
    alloc: Global,
    bytes: Vec<u8>,
    log: Log,
    area: Vec<u8>,
    prepared: Vec<u8>,
    next: Log,
    form: PhantomData<F>,
}

impl<F: Form> Plain<F> {
    /// A keeper that is neither formatted nor started.
    pub fn new(alloc: Global) -> Plain<F>
        ensures { ⟦<Plain<F> as Keeper>⟧.is_empty result }
    {
        let none = Log::found(false, 0, 0, 0, 0);
        Plain {
            alloc,
            bytes: Vec::new(alloc),
            log: none,
            area: Vec::new(alloc),
            prepared: Vec::new(alloc),
            next: none,
            form: PhantomData,
        }
    }
}

/// A log behind its open gate.
fn opened(alloc: Global, written: &[u8]) -> Result<Vec<u8>, NoMemory>
    ensures { IfOk result (λ log. log.items ≡ open_gate ∷ written.now) }
{
    let mut log = Vec::new(alloc);
    log.push(OPEN_GATE)?;
    log.extend_from_slice(written)?;
    Ok(log)
}

/// Puts an area at a place and the place into a slot, and selects it.
#[tactic(auto, unfolding(adr_wire::specs::Fields::u64))]
fn put_area(bytes: &mut Vec<u8>, place: u64, second: bool, area: &[u8])
    requires within { place ≤ length bytes.old.items }
    requires slots { 57 ≤ length bytes.old.items }
    requires room { length bytes.old.items + length area.now ≤ vec_capacity bytes.old }
    ensures items { bytes.new.items
        ≡ put_over (put_over (put_over bytes.old.items place area.now) (slot_place second) (u64 place)) selector_place (selector_of second ∷ []) }
    ensures long { length bytes.new.items ≤ length bytes.old.items + length area.now }
    ensures capacity { vec_capacity bytes.old ≤ vec_capacity bytes.new }
{
    let (slot, selector) = if second {
        (SECOND_SLOT, SELECTS_SECOND)
    } else {
        (FIRST_SLOT, 0)
    };
    put(bytes, place as usize, area);
    put(bytes, slot, &place.to_be_bytes());
    put(bytes, SELECTOR, &[selector]);
}

/// Puts a record where a log ends, behind its closed gate, and opens the gate.
fn put_record(bytes: &mut Vec<u8>, end: u64, written: &[u8])
    requires begun { 1 ≤ end }
    requires within { end ≤ length bytes.old.items }
    requires room { length bytes.old.items + length written.now ≤ vec_capacity bytes.old }
    ensures { bytes.new.items ≡ put_over (put_over bytes.old.items end written.now) (end - 1) (open_gate ∷ []) }
{
    put(bytes, end as usize, written);
    put(bytes, end as usize - 1, &[OPEN_GATE]);
}

/// Puts an area, if there is one, and selects it, and then a record.
fn put_commit(bytes: &mut Vec<u8>, area: &[u8], written: &[u8], next: Log)
    requires takes { (l : Layout (List ℕ × List ℕ) Defined) × (s : Defined) × (t : Defined) × (log : Logs) × (mid : Logs) × (body : List ℕ)
        × TakesBoth l (λ there. Some there) (λ there left. left ≡ there) bytes.old.items area.now next (next.log_end - length written.now) written.now s t log mid body }
    requires begun { length written.now < next.log_end }
    requires room { length bytes.old.items + length area.now + length written.now ≤ vec_capacity bytes.old }
    ensures { (l : Layout (List ℕ × List ℕ) Defined) (s t : Defined) (log mid : Logs) (body : List ℕ)
        → TakesBoth l (λ there. Some there) (λ there left. left ≡ there) bytes.old.items area.now next (next.log_end - length written.now) written.now s t log mid body
        → IsSettled l (λ there. Some there) (λ there left. left ≡ there) bytes.new.items t (log_behind mid body) }
{
    let end = next.end() - written.len() as u64;
    if area.is_empty() {
        put_record(bytes, end, written);
        return;
    }
    put_area(bytes, next.place(), next.second(), area);
    put_record(bytes, end, written);
}

impl<F: Form> Keeper for Plain<F> {
    ghost use Rattle.std.specs.Prelude.{◌≡◌, false, Some, [], vec_capacity, ⊤};
    ghost use Rattle.std.proofs.Common.{refl};
    ghost use Rattle.adr_law_journal.specs.Areas.{start_of};
    ghost use Rattle.adr_test_plain.specs.Kept.{IsAtBytes, IsNext};
    ghost use Rattle.adr_test_plain.specs.Laws.{log_tells, log_leaves};

    ghost faults = { λ _. 0 };

    ghost is_failed = { λ _. false };

    ghost is_empty = { λ p. p.bytes.items ≡ [] };

    ghost is_at = { λ p f. IsAtBytes F.head F.area F.following p.bytes.items p.log f };

    ghost is_prepared = { λ p s c. IsNext (vec_capacity p.bytes) p.bytes.items p.log p.next p.area.items p.prepared.items (F.area_of s) (F.body_of c) s c };

    ghost is_within = { λ _ _ _ _. ⊤ };

    ghost content = { λ p. Some p.bytes.items };

    ghost told = { λ p. Some (start_of F.head F.area F.following p.bytes.items) };

    ghost may_leave = { λ p t. t ≡ start_of F.head F.area F.following p.bytes.items };

    ghost moment = { λ _. 0 };

    ghost left_since = { λ p _ t. t ≡ start_of F.head F.area F.following p.bytes.items };

    ghost can_begin = { F.can_begin };

    ghost can_follow = { F.can_follow };

    ghost is_formed = { F.is_formed };

    ghost tells = { λ p f at up. log_tells F.head F.area F.following p.bytes.items p.log f at };

    ghost leaves = { λ p f t at up told left. log_leaves F.head F.area F.following p.bytes.items p.log f at t left };

    ghost honest = { λ p. refl };

    ghost only_now = { λ p t left. left };

    fn format(&mut self, state: &State) -> Result<(), KeeperRefusal> {
        let (written, log) = match new_log::<F>(self.alloc, state) {
            Ok(both) => both,
            Err(refusal) => return Err(refusal),
        };
        let Ok(bytes) = opened(self.alloc, &written) else {
            return Err(KeeperRefusal::NoMemory);
        };
        self.bytes = bytes;
        self.log = log;
        Ok(())
    }

    fn prepare(&mut self, state: &State, change: &Change) -> Result<(), KeeperRefusal> {
        let spelled = match spell::<F>(self.alloc, self.log, state, change) {
            Ok(spelled) => spelled,
            Err(refusal) => return Err(refusal),
        };
        let Ok(()) = self
            .bytes
            .reserve(spelled.area.len() + spelled.written.len())
        else {
            return Err(KeeperRefusal::NoMemory);
        };
        self.area = spelled.area;
        self.prepared = spelled.written;
        self.next = spelled.next;
        Ok(())
    }

    fn commit(&mut self) -> Result<(), KeeperRefusal> {
        put_commit(&mut self.bytes, &self.area, &self.prepared, self.next);
        self.area = Vec::new(self.alloc);
        self.log = self.next;
        Ok(())
    }

    fn start(&mut self) -> Result<State, StartRefusal> {
        match replay::<F>(self.alloc, &self.bytes) {
            Ok((state, log)) => {
                self.log = log;
                Ok(state)
            }
            Err(refusal) => Err(refusal),
        }
    }
}
