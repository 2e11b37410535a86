//! A keeper that holds records in memory until they are settled.

ghost use Rattle.std.specs.Prelude.{◌≡◌, ◌⊎◌, ℕ, ◌+◌, ◌<◌, ◌^◌, [], true, false, Ok, IfSome, OnOk, OnErr, IsErrOf, length, List};
ghost use Rattle.std.specs.Option.{ForSome, option_map};
ghost use Rattle.adr_disk.specs.Disk.{Among, Only, Keeps, Counts, IsSpare, LeavesOnly};
ghost use Rattle.adr_model.specs.Store.{State as Defined};
ghost use Rattle.adr_law_journal.specs.Areas.{Found, start_of};
ghost use Rattle.adr_law_journal.specs.Kept.{Finds};
ghost use Rattle.adr_journal.specs.Kept.{IsAt};
ghost use Rattle.adr_gather.specs.Gathered.{IsBeforeOr};

use crate::beginning::write_log;
use crate::checkpoint::move_log;
use crate::joining::join;
use crate::restarting::read_written;
use crate::settling::settle_all;
use adr_disk::Disk;
use adr_io::Fault;
use adr_journal::{Form, Keeper, KeeperRefusal, StartRefusal, new_log, replay, spell};
use adr_state::{Change, Log, State};
use std::alloc::Global;
use std::marker::PhantomData;

/// A log on a disk, in bytes of a form, and what is held of it in memory: records behind the closed gate at `gate`, in
/// bytes, the last with its closed gate, which aren't written yet. The log is `log` once they are. The next commit writes
/// `area`, which has no bytes where no checkpoint is due, and holds `prepared`, and then the log is `next`.
///
/// As a keeper it tells what a start of its own finds, which first writes what is held. Until all is settled, a crash loses
/// what is held, so nothing of it may be acknowledged.
#[derive(Drop)]
pub struct Gathering<D, F> {
    alloc: Global,
    disk: D,
    gate: u64,
    held: Vec<u8>,
    log: Log,
    failed: bool,
    area: Vec<u8>,
    prepared: Vec<u8>,
    next: Log,
    form: PhantomData<F>,
}

/// Makes room for what a checkpoint writes: so many bytes that are held, and an area, if there is one.
fn make_room<D: Disk>(disk: &mut D, held: usize, area: &[u8]) -> Result<(), Fault>
    requires { (held < 2 ^ 63) × (length area.now < 2 ^ 33) }
    ensures room { OnOk result ((area.now ≡ []) ⊎ IsSpare 9 (held + length area.now + 10) (D.spare_calls disk.new) (D.spare_bytes disk.new)) }
    ensures keeps { Keeps D.content D.may_leave D.moment D.left_since disk.old disk.new }
    ensures cause { Counts (D.faults disk.old) (D.faults disk.new) result }
{
    if area.is_empty() {
        return Ok(());
    }
    disk.reserve(9, held as u64 + area.len() as u64 + 10)
}

impl<D: Disk, F: Form> Gathering<D, F> {
    /// A keeper that holds nothing, and is neither formatted nor started.
    pub fn new(alloc: Global, disk: D) -> Gathering<D, F>
        ensures disk { result.disk ≡ disk }
        ensures empty { ForSome (D.content disk) (λ there. there ≡ []) → ForSome (D.content disk) (λ there. Only there (D.may_leave disk))
            → ⟦<Gathering<D, F> as Keeper>⟧.is_empty result }
        ensures up { ⟦<Gathering<D, F> as Keeper>⟧.is_failed result ≡ false }
        ensures told { ⟦<Gathering<D, F> as Keeper>⟧.told result ≡ option_map (start_of F.head F.area F.following) (D.content disk) }
    {
        let none = Log::found(false, 0, 0, 0, 0);
        Gathering {
            alloc,
            disk,
            gate: 0,
            held: Vec::new(alloc),
            log: none,
            failed: false,
            area: Vec::new(alloc),
            prepared: Vec::new(alloc),
            next: none,
            form: PhantomData,
        }
    }

    /// Its disk, without what is held.
    pub fn into_disk(self) -> D
        ensures { result ≡ self.disk }
    {
        let Gathering {
            disk,
            held,
            area,
            prepared,
            ..
        } = self;
        drop(held);
        drop(area);
        drop(prepared);
        disk
    }

    /// Its disk.
    pub fn disk(&self) -> &D
        ensures { result.now ≡ self.now.disk }
    {
        &self.disk
    }

    /// Whether all that was committed is on the disk, where a start finds it also after a crash. Nothing may be acknowledged
    /// before.
    pub fn is_settled(&self) -> bool
        ensures told { result ≡ true → ⟦<Gathering<D, F> as Keeper>⟧.told self.now ≡ option_map (start_of F.head F.area F.following) (D.content self.now.disk) }
        ensures left { result ≡ true → Among (⟦<Gathering<D, F> as Keeper>⟧.may_leave self.now) (Finds F.head F.area F.following (D.may_leave self.now.disk)) }
    {
        self.held.is_empty()
    }

    /// Writes all that is held, with two syncs, however many records there are. Behind an `Ok` all that was committed may be
    /// acknowledged.
    pub fn settle(&mut self) -> Result<(), KeeperRefusal>
        requires up { ⟦<Gathering<D, F> as Keeper>⟧.is_failed self.old ≡ false }
        requires at { (f : Found Defined) × ⟦<Gathering<D, F> as Keeper>⟧.is_at self.old f }
        ensures at { (f : Found Defined) → ⟦<Gathering<D, F> as Keeper>⟧.is_at self.old f → ⟦<Gathering<D, F> as Keeper>⟧.is_at self.new f }
        ensures up { OnOk result (⟦<Gathering<D, F> as Keeper>⟧.is_failed self.new ≡ false) }

        // The disk stands for the same by itself then, and all of it is synced.
        ensures durable { OnOk result ((f : Found Defined) → ⟦<Gathering<D, F> as Keeper>⟧.is_at self.old f
            → IsAt F.head F.area F.following D.content D.may_leave self.new.disk f.log f) }

        // Whatever it answers, what a start finds of the disk after a crash at any moment of the call, and after one from then
        // on: what it would have found before, with none of the records that are held, or all.
        ensures any_moment { (f : Found Defined) → ⟦<Gathering<D, F> as Keeper>⟧.is_at self.old f
            → IfSome (D.content self.old.disk) (λ there. LeavesOnly D.moment D.left_since self.old.disk self.new.disk
            (λ bytes. IsBeforeOr (start_of F.head F.area F.following) f there bytes)) }
        ensures left { (f : Found Defined) → ⟦<Gathering<D, F> as Keeper>⟧.is_at self.old f
            → IfSome (D.content self.old.disk) (λ there.
            Among (λ bytes. IsBeforeOr (start_of F.head F.area F.following) f there bytes) (D.may_leave self.new.disk)) }

        ensures refused { OnErr result (IsErrOf result KeeperRefusal.DiskFault ⊎ IsErrOf result KeeperRefusal.NoMemory) }
        ensures fault { IsErrOf result KeeperRefusal.DiskFault → (D.faults self.old.disk < D.faults self.new.disk)
            × (⟦<Gathering<D, F> as Keeper>⟧.is_failed self.new ≡ true) }
        ensures no_memory { IsErrOf result KeeperRefusal.NoMemory → ⟦<Gathering<D, F> as Keeper>⟧.is_failed self.new ≡ false }
    {
        match self.disk.reserve(4, self.held.len() as u64 + 1) {
            Ok(()) => {}
            Err(Fault::Failed) => {
                self.failed = true;
                return Err(KeeperRefusal::DiskFault);
            }
            Err(Fault::NoMemory) => return Err(KeeperRefusal::NoMemory),
        }
        match settle_all(&mut self.disk, &mut self.gate, &mut self.held) {
            Ok(()) => Ok(()),
            Err(_) => {
                self.failed = true;
                Err(KeeperRefusal::DiskFault)
            }
        }
    }
}

impl<D: Disk, F: Form> Keeper for Gathering<D, F> {
    ghost use Rattle.std.specs.Prelude.{◌≡◌, [], false, vec_capacity, ⊤};
    ghost use Rattle.std.specs.Option.{option_map};
    ghost use Rattle.adr_law_journal.specs.Areas.{start_of};
    ghost use Rattle.adr_law_journal.specs.Kept.{Finds};
    ghost use Rattle.adr_journal.specs.Kept.{IsEmpty};
    ghost use Rattle.adr_journal.specs.Laws.{at_tells, at_leaves, is_honest};
    ghost use Rattle.adr_gather.specs.Gathered.{IsGathered, IsNext, content_of, gathered, images_of};
    ghost use Rattle.adr_gather.specs.Laws.{images_honest};

    ghost faults = { λ k. D.faults k.disk };

    ghost is_failed = { λ k. k.failed };

    ghost is_empty = { λ k. IsEmpty D.content D.may_leave k.disk × (k.held.items ≡ []) };

    ghost is_at = { λ k f. k.failed ≡ false → IsGathered F.head F.area F.following D.content D.may_leave (gathered k.disk k.gate k.held.items) k.log f };

    ghost is_prepared = { λ k s c. IsNext D.spare_calls D.spare_bytes k.disk (vec_capacity k.held) k.held.items k.log k.next k.area.items k.prepared.items (F.area_of s) (F.body_of c) s c };

    ghost is_within = { λ _ _ _ _. ⊤ };

    ghost content = { λ k. content_of D.content (gathered k.disk k.gate k.held.items) };

    ghost told = { λ k. option_map (start_of F.head F.area F.following) (content_of D.content (gathered k.disk k.gate k.held.items)) };

    ghost may_leave = { λ k. Finds F.head F.area F.following (images_of D.content D.may_leave (gathered k.disk k.gate k.held.items)) };

    ghost moment = { λ _. 0 };

    ghost left_since = { λ k _. Finds F.head F.area F.following (images_of D.content D.may_leave (gathered k.disk k.gate k.held.items)) };

    ghost can_begin = { F.can_begin };

    ghost can_follow = { F.can_follow };

    ghost is_formed = { F.is_formed };

    ghost tells = { λ k f at up. at_tells F.head F.area F.following (content_of D.content) (images_of D.content D.may_leave) (gathered k.disk k.gate k.held.items) k.log f (at up).at };

    ghost leaves = { λ k f t at up told left. at_leaves F.head F.area F.following (content_of D.content) (images_of D.content D.may_leave) (gathered k.disk k.gate k.held.items) k.log f (at up).at t told left };

    ghost honest = { λ k. is_honest F.head F.area F.following (content_of D.content (gathered k.disk k.gate k.held.items)) (images_of D.content D.may_leave (gathered k.disk k.gate k.held.items))
        (images_honest D.content D.may_leave (gathered k.disk k.gate k.held.items) (D.honest k.disk)) };

    ghost only_now = { λ k t left. left };

    fn format(&mut self, state: &State) -> Result<(), KeeperRefusal> {
        let (written, log) = new_log::<F>(self.alloc, state)?;
        match self.disk.reserve(6, written.len() as u64 + 2) {
            Ok(()) => {}
            Err(Fault::Failed) => {
                self.failed = true;
                return Err(KeeperRefusal::DiskFault);
            }
            Err(Fault::NoMemory) => return Err(KeeperRefusal::NoMemory),
        }
        match write_log(&mut self.disk, &written) {
            Ok(()) => {
                self.gate = log.end() - 1;
                self.log = log;
                self.failed = false;
                Ok(())
            }
            Err(_) => {
                self.failed = true;
                Err(KeeperRefusal::DiskFault)
            }
        }
    }

    fn prepare(&mut self, state: &State, change: &Change) -> Result<(), KeeperRefusal> {
        if self.failed {
            return Err(KeeperRefusal::Failed);
        }
        let spelled = spell::<F>(self.alloc, self.log, state, change)?;
        self.held.reserve(spelled.written.len())?;
        match make_room(&mut self.disk, self.held.len(), &spelled.area) {
            Ok(()) => {
                self.area = spelled.area;
                self.prepared = spelled.written;
                self.next = spelled.next;
                Ok(())
            }
            Err(Fault::Failed) => {
                self.failed = true;
                Err(KeeperRefusal::DiskFault)
            }
            Err(Fault::NoMemory) => Err(KeeperRefusal::NoMemory),
        }
    }

    fn commit(&mut self) -> Result<(), KeeperRefusal> {
        let moved = move_log(
            &mut self.disk,
            &mut self.gate,
            &mut self.held,
            &self.area,
            self.next,
            self.prepared.len(),
        );
        self.area = Vec::new(self.alloc);
        match moved {
            Ok(()) => {
                join(&mut self.held, &self.prepared);
                self.log = self.next;
                Ok(())
            }
            Err(_) => {
                self.failed = true;
                Err(KeeperRefusal::DiskFault)
            }
        }
    }

    fn start(&mut self) -> Result<State, StartRefusal> {
        let bytes = match read_written(self.alloc, &mut self.disk, self.gate, &mut self.held) {
            Ok(bytes) => bytes,
            Err(StartRefusal::DiskFault) => {
                self.failed = true;
                return Err(StartRefusal::DiskFault);
            }
            Err(StartRefusal::NoMemory { settled }) => return Err(StartRefusal::NoMemory {
                settled,
            }),
            Err(StartRefusal::Damaged { .. }) => unreachable!(),
        };
        let (state, log) = replay::<F>(self.alloc, &bytes)?;
        self.failed = false;
        self.gate = log.end() - 1;
        self.log = log;
        Ok(state)
    }
}
