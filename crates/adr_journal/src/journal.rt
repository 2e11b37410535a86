//! A journal on a disk.

ghost use Rattle.std.specs.Prelude.{◌≡◌, ℕ, [], false};
ghost use Rattle.std.specs.Fn.{FnOnceReturnsAtMut};
ghost use Rattle.std.specs.Option.{ForSome, option_map};
ghost use Rattle.adr_disk.specs.Disk.{Among, Only};
ghost use Rattle.adr_law_journal.specs.Areas.{start_of};
ghost use Rattle.adr_law_journal.specs.Kept.{Finds};

use crate::committing::{reserve, spell, write_commit};
use crate::form::Form;
use crate::formatting::{new_log, write_log};
use crate::keeper::{Keeper, KeeperRefusal, StartRefusal};
use crate::reading::read_synced;
use crate::replaying::replay;
use adr_disk::Disk;
use adr_io::Fault;
use adr_state::{Change, Log, State};
use std::alloc::Global;
use std::marker::PhantomData;

/// A log on a disk, in bytes of a form. Before it is formatted or started, `log` has no bytes. The next commit writes
/// `area`, which has no bytes where no checkpoint is due, and `prepared`, and then the log is `next`.
#[derive(Drop)]
pub struct Journal<D, F> {
    pub(crate) alloc: Global,
    pub(crate) disk: D,
    pub(crate) log: Log,
    pub(crate) failed: bool,
    pub(crate) area: Vec<u8>,
    pub(crate) prepared: Vec<u8>,
    pub(crate) next: Log,
    pub(crate) form: PhantomData<F>,
}

impl<D: Disk, F: Form> Journal<D, F> {
    /// A journal that is neither formatted nor started.
    pub fn new(alloc: Global, disk: D) -> Journal<D, F>
        ensures disk { result.disk ≡ disk }
        ensures empty { ForSome (D.content disk) (λ there. there ≡ []) → ForSome (D.content disk) (λ there. Only there (D.may_leave disk))
            → ⟦<Journal<D, F> as Keeper>⟧.is_empty result }
        ensures up { ⟦<Journal<D, F> as Keeper>⟧.is_failed result ≡ false }
        ensures told { ⟦<Journal<D, F> as Keeper>⟧.told result ≡ option_map (start_of F.head F.area F.following) (D.content disk) }
    {
        Journal::over(alloc, disk)
    }

    /// Its disk, of which a start finds what one would have found of the journal.
    pub fn into_disk(self) -> D
        ensures told { ⟦<Journal<D, F> as Keeper>⟧.told self ≡ option_map (start_of F.head F.area F.following) (D.content result) }
        ensures left { Among (⟦<Journal<D, F> as Keeper>⟧.may_leave self) (Finds F.head F.area F.following (D.may_leave result)) }
        ensures since { (t : ℕ) → Among (⟦<Journal<D, F> as Keeper>⟧.left_since self t) (Finds F.head F.area F.following (D.left_since result t)) }
        ensures moment { D.moment result ≡ ⟦<Journal<D, F> as Keeper>⟧.moment self }
        ensures faults { D.faults result ≡ ⟦<Journal<D, F> as Keeper>⟧.faults self }
        ensures content { D.content result ≡ ⟦<Journal<D, F> as Keeper>⟧.content self }
    {
        let Journal {
            disk,
            area,
            prepared,
            ..
        } = self;
        drop(area);
        drop(prepared);
        disk
    }

    /// Its disk.
    pub fn disk(&self) -> &D
        ensures { result.now ≡ self.now.disk }
    {
        &self.disk
    }

    /// Has something done to its disk, as whoever rehearses faults does.
    pub fn attend<A: FnOnce(&mut D)>(&mut self, act: A)
        requires { A.IsAlwaysCallable act }
        ensures acted { FnOnceReturnsAtMut A.FnOnce act self.old.disk tt self.new.disk }
        ensures stays { self.new ≡ record self.old { disk = self.new.disk } }
    {
        act(&mut self.disk);
    }

    pub(crate) fn over(alloc: Global, disk: D) -> Journal<D, F>
        ensures disk { result.disk ≡ disk }
        ensures up { result.failed ≡ false }
    {
        let none = Log::found(false, 0, 0, 0, 0);
        Journal {
            alloc,
            disk,
            log: none,
            failed: false,
            area: Vec::new(alloc),
            prepared: Vec::new(alloc),
            next: none,
            form: PhantomData,
        }
    }
}

impl<D: Disk, F: Form> Keeper for Journal<D, F> {
    ghost use Rattle.std.specs.Prelude.{◌≡◌, false};
    ghost use Rattle.std.specs.Option.{option_map};
    ghost use Rattle.adr_law_journal.specs.Areas.{start_of};
    ghost use Rattle.adr_law_journal.specs.Kept.{Finds};
    ghost use Rattle.adr_journal.specs.Ran.{FormatsDisk, Prepares, CommitsDisk, Starts};
    ghost use Rattle.adr_journal.specs.Kept.{IsEmpty, IsAt, IsPrepared, IsWithin};
    ghost use Rattle.adr_journal.specs.Laws.{at_tells, at_leaves, is_honest};

    ghost faults = { λ j. D.faults j.disk };

    ghost is_failed = { λ j. j.failed };

    ghost is_empty = { λ j. IsEmpty D.content D.may_leave j.disk };

    ghost is_at = { λ j f. j.failed ≡ false → IsAt F.head F.area F.following D.content D.may_leave j.disk j.log f };

    ghost is_prepared = { λ j s c. IsPrepared D.spare_calls D.spare_bytes j.disk j.log j.next j.area.items j.prepared.items (F.area_of s) (F.body_of c) s c };

    ghost is_within = { λ j file image longest. IsWithin F.head F.area F.following D.content D.may_leave j.disk file image longest };

    ghost content = { λ j. D.content j.disk };

    ghost told = { λ j. option_map (start_of F.head F.area F.following) (D.content j.disk) };

    ghost may_leave = { λ j. Finds F.head F.area F.following (D.may_leave j.disk) };

    ghost moment = { λ j. D.moment j.disk };

    ghost left_since = { λ j t. Finds F.head F.area F.following (D.left_since j.disk t) };

    ghost can_begin = { F.can_begin };

    ghost can_follow = { F.can_follow };

    ghost is_formed = { F.is_formed };

    ghost formats = { λ j e new. FormatsDisk D.gives j.disk e new.disk };

    ghost prepares = { λ j e new. Prepares D.gives j.disk e new.disk };

    ghost commits = { λ j c e new. CommitsDisk D.gives j.area.items j.next (F.body_of c) j.disk e new.disk };

    ghost starts = { λ j e new. Starts D.gives j.disk e new.disk };

    ghost tells = { λ j f at up. at_tells F.head F.area F.following D.content D.may_leave j.disk j.log f (at up) };

    ghost leaves = { λ j f t at up told left. at_leaves F.head F.area F.following D.content D.may_leave j.disk j.log f (at up) t told left };

    ghost honest = { λ j. is_honest F.head F.area F.following (D.content j.disk) (D.may_leave j.disk) (D.honest j.disk) };

    ghost only_now = { λ j t left. (left.0, D.only_now j.disk left.0 left.1, left.2) };

    fn format(&mut self, state: &State) -> Result<(), KeeperRefusal> {
        let (written, log) = new_log::<F>(self.alloc, state)?;
        match self.disk.reserve(6, written.len() as u64 + 2) {
            Ok(()) => {}
            Err(Fault::Failed) => {
                self.failed = true;
                return Err(KeeperRefusal::DiskFault);
            }
            Err(Fault::NoMemory) => return Err(KeeperRefusal::NoMemory),
        }
        match write_log(&mut self.disk, &written) {
            Ok(()) => {
                self.log = log;
                self.failed = false;
                Ok(())
            }
            Err(_) => {
                self.failed = true;
                Err(KeeperRefusal::DiskFault)
            }
        }
    }

    fn prepare(&mut self, state: &State, change: &Change) -> Result<(), KeeperRefusal> {
        if self.failed {
            return Err(KeeperRefusal::Failed);
        }
        let spelled = spell::<F>(self.alloc, self.log, state, change)?;
        match reserve(&mut self.disk, &spelled.area, &spelled.written) {
            Ok(()) => {
                self.area = spelled.area;
                self.prepared = spelled.written;
                self.next = spelled.next;
                Ok(())
            }
            Err(Fault::Failed) => {
                self.failed = true;
                Err(KeeperRefusal::DiskFault)
            }
            Err(Fault::NoMemory) => Err(KeeperRefusal::NoMemory),
        }
    }

    fn commit(&mut self) -> Result<(), KeeperRefusal> {
        let written = write_commit(&mut self.disk, &self.area, &self.prepared, self.next);
        self.area = Vec::new(self.alloc);
        match written {
            Ok(()) => {
                self.log = self.next;
                Ok(())
            }
            Err(_) => {
                self.failed = true;
                Err(KeeperRefusal::DiskFault)
            }
        }
    }

    fn start(&mut self) -> Result<State, StartRefusal> {
        let bytes = match read_synced(self.alloc, &mut self.disk) {
            Ok(bytes) => bytes,
            Err(StartRefusal::DiskFault) => {
                self.failed = true;
                return Err(StartRefusal::DiskFault);
            }
            Err(StartRefusal::NoMemory { settled }) => return Err(StartRefusal::NoMemory {
                settled,
            }),
            Err(StartRefusal::Damaged { .. }) => unreachable!(),
        };
        let (state, log) = replay::<F>(self.alloc, &bytes)?;
        self.failed = false;
        self.log = log;
        Ok(state)
    }
}
