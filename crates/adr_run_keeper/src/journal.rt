//! A journal on a disk in memory, under a plan.

ghost use Rattle.std.specs.Prelude.{◌≡◌, false, None};

use crate::planned::PlannedKeeper;
use adr_disk::Crash;
use adr_journal::{Form, Journal, Keeper};
use adr_run_disk::MemDisk;
use adr_values::NoMemory;
use std::alloc::Global;

/// A journal on an empty disk, without a plan.
pub fn in_memory<F: Form>(alloc: Global) -> Journal<MemDisk, F>
    ensures empty { ⟦<Journal<MemDisk, F> as Keeper>⟧.is_empty result }
    ensures up { ⟦<Journal<MemDisk, F> as Keeper>⟧.is_failed result ≡ false }
    ensures running { ⟦<Journal<MemDisk, F> as PlannedKeeper>⟧.has_stopped result ≡ false }
    ensures plan { ⟦<Journal<MemDisk, F> as PlannedKeeper>⟧.plan result ≡ None }
{
    Journal::new(alloc, MemDisk::new(alloc))
}

/// A journal on a disk with these bytes, all of them synced, without a plan.
pub fn with_bytes<F: Form>(alloc: Global, bytes: Vec<u8>) -> Journal<MemDisk, F>
    ensures read { ⟦<Journal<MemDisk, F> as PlannedKeeper>⟧.read result
        ≡ ⟦<Journal<MemDisk, F> as PlannedKeeper>⟧.found_in bytes.items }
    ensures safe { ⟦<Journal<MemDisk, F> as PlannedKeeper>⟧.safe result
        ≡ ⟦<Journal<MemDisk, F> as PlannedKeeper>⟧.found_in bytes.items }
    ensures torn { ⟦<Journal<MemDisk, F> as PlannedKeeper>⟧.torn result
        ≡ ⟦<Journal<MemDisk, F> as PlannedKeeper>⟧.found_in bytes.items }
    ensures up { ⟦<Journal<MemDisk, F> as Keeper>⟧.is_failed result ≡ false }
    ensures running { ⟦<Journal<MemDisk, F> as PlannedKeeper>⟧.has_stopped result ≡ false }
    ensures plan { ⟦<Journal<MemDisk, F> as PlannedKeeper>⟧.plan result ≡ None }
{
    Journal::new(alloc, MemDisk::of(alloc, bytes))
}

impl<F: Form> PlannedKeeper for Journal<MemDisk, F> {
    ghost use Rattle.std.proofs.Common.{refl};
    ghost use Rattle.adr_disk.specs.Memory.{read_of, left_by};
    ghost use Rattle.adr_disk.specs.declared.memory.Crash.TheVariants.{Torn};
    ghost use Rattle.adr_law_journal.specs.Areas.{start_of};
    ghost use Rattle.adr_run_keeper.specs.PlanLaws.{prepares_so, commits_so, starts_so, formats_so, keeps_so};

    ghost read = { λ j. start_of F.head F.area F.following (read_of j.disk.held.surface) };

    ghost safe = { λ j. start_of F.head F.area F.following j.disk.held.surface.synced };

    ghost torn = { λ j. start_of F.head F.area F.following (left_by Torn j.disk.held.surface) };

    ghost plan = { λ j. j.disk.plan };

    ghost has_stopped = { λ j. j.disk.stopped };

    ghost found_in = { start_of F.head F.area F.following };

    ghost tells_read = { λ k. refl };

    ghost keeps_it = { λ k f at up. keeps_so F.head F.area F.following k.disk k.log f (at up) };

    ghost formats_unplanned = { λ k new e up none ran. formats_so F.head F.area F.following (λ j. j.disk) k new e up none ran };

    ghost prepares_unmet = { λ k new e r up has ran. prepares_so F.head F.area F.following (λ j. j.disk) k new e r up has ran };

    ghost commits_as_planned = { λ k new c e book r p at running prepared follows up same has of_p ran.
        commits_so F.head F.area F.following (λ j. j.disk) k new k.log k.next k.area.items k.prepared.items (F.area_of r.safe) (F.body_of c) c book r p
        (at running) prepared.before prepared.leads prepared.fits
        (λ short place. F.tells_area place r.safe (F.begins_anew r.safe c follows) short) (λ short. F.area_length r.safe (F.begins_anew r.safe c follows))
        (F.body_follows r.safe c follows) (F.body_length r.safe c follows) up same has of_p e ran };

    ghost starts_as_planned = { λ k new e book r up has ran. starts_so F.head F.area F.following (λ j. j.disk) k new book r up has e ran };

    #[tactic(auto, using(crate::proofs::Plans::held_at))]
    fn stop_after(&mut self, calls: u32, how: Crash) {
        self.attend(|disk| disk.stop_after(calls, how));
    }

    #[tactic(auto, using(crate::proofs::Plans::held_at))]
    fn fail_after(&mut self, calls: u32) {
        self.attend(|disk| disk.fail_after(calls));
    }

    fn crash(&mut self, how: Crash) {
        self.attend(|disk| disk.crash(how));
    }

    fn is_stopped(&self) -> bool {
        self.disk().is_stopped()
    }

    #[tactic(auto, using(crate::proofs::Plans::held_at))]
    fn revive(&mut self) {
        self.attend(|disk| disk.revive());
    }

    fn bytes(&self, alloc: Global) -> Result<Vec<u8>, NoMemory> {
        self.disk().bytes(alloc)
    }
}
