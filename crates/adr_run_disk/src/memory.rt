//! A disk in memory, for which a crash or a failure can be planned.

ghost use Rattle.std.specs.Prelude.{◌≡◌, ◌⊎◌, ◌+◌, ◌-◌, ◌≤◌, ◌<◌, ◌^◌, true, false, [], Option, Some, None, IfOk, OnOk, IsErrOf, length, drop};
ghost use Rattle.adr_disk.specs.Disk.{Writes, Syncs, Looks, IsSpare, ended};

use crate::platter::Platter;
use adr_disk::{Crash, Disk, Mishap, Plan};
use adr_io::{Failures, Fault};
use std::alloc::{AllocError, Global};
use std::marker::Model;

/// A disk in memory. What it was at each earlier moment only proofs tell.
pub struct MemDisk {
    platter: Platter,
    plan: Option<Plan>,
    stopped: bool,
    failures: Failures,
}

impl Drop for MemDisk {
    fn drop(self) {
        let MemDisk {
            platter: _platter,
            plan: _,
            stopped: _,
            failures: _failures,
        } = self;
    }
}

impl Model for MemDisk {
    ghost use Rattle.adr_disk.specs.Memory.{DiskState};

    ghost Value = { DiskState };

    ghost view = { λ m. record { held = m.platter; plan = m.plan; stopped = m.stopped; faults = m.failures } };
}

impl MemDisk {
    ghost use Rattle.adr_disk.specs.Memory.{DiskState, all_synced, read_of, crashed, SameState, Does, one_less, spare_calls_of};

    /// An empty disk.
    pub fn new(alloc: Global) -> MemDisk
        ensures surface { result.held.surface ≡ all_synced [] }
        ensures past { result.held.past ≡ [] }
        ensures plan { result.plan ≡ None }
        ensures running { result.stopped ≡ false }
        ensures faults { result.faults ≡ 0 }
    {
        MemDisk::of(alloc, Vec::new(alloc))
    }

    /// A disk with these bytes, all of them synced.
    pub fn of(alloc: Global, bytes: Vec<u8>) -> MemDisk
        ensures surface { result.held.surface ≡ all_synced bytes.items }
        ensures past { result.held.past ≡ [] }
        ensures plan { result.plan ≡ None }
        ensures running { result.stopped ≡ false }
        ensures faults { result.faults ≡ 0 }
    {
        MemDisk {
            platter: Platter::new(alloc, bytes),
            plan: None,
            stopped: false,
            failures: Failures::new(),
        }
    }

    /// What a read gives now, also while the disk is stopped.
    pub fn bytes(&self, alloc: Global) -> Result<Vec<u8>, AllocError>
        ensures { IfOk result (λ bytes. bytes.items ≡ read_of self.now.held.surface) }
    {
        self.platter.bytes().to_vec(alloc)
    }

    /// Lets so many writes and syncs pass, and crashes within the next.
    pub fn stop_after(&mut self, calls: u32, how: Crash)
        ensures { self.new ≡ record self.old { plan = Some (record { calls = calls; mishap = Mishap.Stops how }) } }
    {
        self.plan = Some(Plan {
            calls,
            mishap: Mishap::Stops(how),
        });
    }

    /// Lets so many writes and syncs pass, and fails the next, which changes nothing.
    pub fn fail_after(&mut self, calls: u32)
        ensures { self.new ≡ record self.old { plan = Some (record { calls = calls; mishap = Mishap.Fails }) } }
    {
        self.plan = Some(Plan {
            calls,
            mishap: Mishap::Fails,
        });
    }

    /// Crashes now, and drops a plan.
    pub fn crash(&mut self, how: Crash)
        ensures crashed { SameState (crashed how self.old) self.new }
        ensures spare { IsSpare (spare_calls_of self.old) self.old.held.room_bytes (spare_calls_of self.new) self.new.held.room_bytes }
    {
        self.platter.end(how);
        self.plan = None;
        self.stopped = true;
    }

    /// Whether it has crashed and was not revived.
    pub fn is_stopped(&self) -> bool
        ensures { result ≡ self.now.stopped }
    {
        self.stopped
    }

    /// Ends a crash, and keeps a plan that was set after it.
    pub fn revive(&mut self)
        ensures { self.new ≡ record self.old { stopped = false } }
    {
        self.stopped = false;
    }
}

/// The calls, without what a disk in general promises of them.
impl MemDisk {
    ghost use Rattle.adr_disk.specs.Memory.{DiskState, read_of, meets, one_less, passed, failed, SameState, Does, spare_calls_of};

    /// What becomes of the next write or sync.
    fn mishap(&self) -> Option<Mishap>
        ensures { result ≡ meets self.now Syncs }
    {
        if self.stopped {
            return Some(Mishap::Fails);
        }
        match self.plan {
            Some(Plan { calls: 0, mishap }) => Some(mishap),
            _ => None,
        }
    }

    /// Fails a call. A plan that has met it is done.
    fn fail(&mut self) -> Fault
        ensures failed { result ≡ Fault.Failed → self.new ≡ failed Mishap.Fails Syncs self.old }
        ensures no_memory { result ≡ Fault.NoMemory → self.new ≡ self.old }
        ensures limit { result ≡ Fault.NoMemory → self.old.faults ≡ 2 ^ 64 - 1 }
    {
        let fault = self.failures.fail();
        if fault == Fault::Failed {
            self.plan = if self.stopped { self.plan } else { None };
        }
        fault
    }

    /// Counts a call that passes.
    fn pass(&mut self)
        ensures { self.new ≡ record self.old { plan = one_less self.old.plan } }
    {
        if let Some(plan) = self.plan {
            self.plan = Some(Plan {
                calls: plan.calls.saturating_sub(1),
                mishap: plan.mishap,
            });
        }
    }

    /// A call that neither writes nor syncs.
    fn look(&mut self) -> Result<(), Fault>
        ensures does { Does self.old Looks (ended result) self.new }
        ensures uncounted { IsErrOf result Fault.NoMemory → self.old.faults ≡ 2 ^ 64 - 1 }
        ensures held { self.new.held ≡ self.old.held }
        ensures same { OnOk result (self.new ≡ self.old) }
    {
        if self.stopped {
            return Err(self.fail());
        }
        Ok(())
    }

    /// A write that passes.
    fn pass_write(&mut self, at: usize, bytes: &[u8])
        requires within { at ≤ length (read_of self.old.held.surface) }
        requires calls { 0 < self.old.held.room_calls }
        requires room { length bytes.now ≤ self.old.held.room_bytes }
        ensures passed { SameState (passed (Writes at bytes.now) self.old) self.new }
        ensures spare { IsSpare (spare_calls_of self.old) self.old.held.room_bytes (spare_calls_of self.new + 1) (self.new.held.room_bytes + length bytes.now) }
    {
        self.platter.write(at, bytes);
        self.pass();
    }

    /// A write within which it crashes.
    fn crash_in_write(&mut self, at: usize, bytes: &[u8], how: Crash) -> Fault
        requires running { self.old.stopped ≡ false }
        requires within { at ≤ length (read_of self.old.held.surface) }
        requires calls { 0 < self.old.held.room_calls }
        requires room { length bytes.now ≤ self.old.held.room_bytes }
        ensures failed { result ≡ Fault.Failed
            → SameState (failed (Mishap.Stops how) (Writes at bytes.now) self.old) self.new }
        ensures no_memory { result ≡ Fault.NoMemory → self.new ≡ self.old }
        ensures limit { result ≡ Fault.NoMemory → self.old.faults ≡ 2 ^ 64 - 1 }
        ensures spare { IsSpare (spare_calls_of self.old) self.old.held.room_bytes (spare_calls_of self.new + 1) (self.new.held.room_bytes + length bytes.now) }
    {
        let fault = self.fail();
        if fault == Fault::NoMemory {
            return fault;
        }
        self.platter.write(at, bytes);
        self.crash(how);
        fault
    }

    fn write(&mut self, at: usize, bytes: &[u8]) -> Result<(), Fault>
        requires within { at ≤ length (read_of self.old.held.surface) }
        ensures does { Does self.old (Writes at bytes.now) (ended result) self.new }
        ensures no_memory_only { IsErrOf result Fault.NoMemory
            → (spare_calls_of self.old ≡ 0) ⊎ (self.old.held.room_bytes < length bytes.now) }
        ensures spare { IsSpare (spare_calls_of self.old) self.old.held.room_bytes (spare_calls_of self.new + 1) (self.new.held.room_bytes + length bytes.now) }
    {
        if self.platter.make_room(1, bytes.len()).is_err() {
            return Err(Fault::NoMemory);
        }
        match self.mishap() {
            None => {
                self.pass_write(at, bytes);
                Ok(())
            }
            Some(Mishap::Fails) => Err(self.fail()),
            Some(Mishap::Stops(how)) => Err(self.crash_in_write(at, bytes, how)),
        }
    }

    /// A sync that passes.
    fn pass_sync(&mut self)
        ensures passed { SameState (passed Syncs self.old) self.new }
        ensures spare { IsSpare (spare_calls_of self.old) self.old.held.room_bytes (spare_calls_of self.new) self.new.held.room_bytes }
    {
        self.platter.end(Crash::Kept);
        self.pass();
    }

    /// A sync within which it crashes.
    fn crash_in_sync(&mut self, how: Crash) -> Fault
        requires { self.old.stopped ≡ false }
        ensures failed { result ≡ Fault.Failed → SameState (failed (Mishap.Stops how) Syncs self.old) self.new }
        ensures no_memory { result ≡ Fault.NoMemory → self.new ≡ self.old }
        ensures limit { result ≡ Fault.NoMemory → self.old.faults ≡ 2 ^ 64 - 1 }
        ensures spare { IsSpare (spare_calls_of self.old) self.old.held.room_bytes (spare_calls_of self.new + 1) self.new.held.room_bytes }
    {
        let fault = self.fail();
        if fault == Fault::NoMemory {
            return fault;
        }
        self.crash(how);
        fault
    }

    fn sync_all(&mut self) -> Result<(), Fault>
        ensures does { Does self.old Syncs (ended result) self.new }
        ensures no_memory_only { IsErrOf result Fault.NoMemory → spare_calls_of self.old ≡ 0 }
        ensures uncounted { IsErrOf result Fault.NoMemory → self.old.faults ≡ 2 ^ 64 - 1 }
        ensures spare { IsSpare (spare_calls_of self.old) self.old.held.room_bytes (spare_calls_of self.new + 1) self.new.held.room_bytes }
    {
        match self.mishap() {
            None => {
                self.pass_sync();
                Ok(())
            }
            Some(Mishap::Fails) => Err(self.fail()),
            Some(Mishap::Stops(how)) => Err(self.crash_in_sync(how)),
        }
    }
}

impl Disk for MemDisk {
    ghost use Rattle.std.specs.Prelude.{◌⊎◌, Some, drop, length};
    ghost use Rattle.std.proofs.Common.{inl};
    ghost use Rattle.adr_disk.specs.Memory.{read_of, IsImage, IsImageOfOne, spare_calls_of, Does};
    ghost use Rattle.adr_disk.proofs.Honest.{MayLeave-over, only_present};

    ghost faults = { λ d. d.faults };

    ghost content = { λ d. Some (read_of d.held.surface) };

    ghost may_leave = { λ d bytes. IsImage d.held.surface bytes };

    ghost moment = { λ d. length d.held.past };

    ghost left_since = { λ d t bytes. IsImage d.held.surface bytes ⊎ IsImageOfOne (drop t d.held.past) bytes };

    ghost spare_calls = { spare_calls_of };

    ghost spare_bytes = { λ d. d.held.room_bytes };

    ghost gives = { Does };

    ghost honest = { λ d. MayLeave-over d.held.surface.written d.held.surface.synced };

    ghost counts_now = { λ d t bytes le now. inl now };

    ghost only_now = { λ d bytes left. only_present d.held.surface d.held.past bytes left };

    /// Changes nothing.
    fn attach(&mut self, _name: &str) -> Result<(), Fault> {
        self.look()
    }

    fn len(&mut self) -> Result<u64, Fault> {
        self.look()?;
        Ok(self.platter.bytes().len() as u64)
    }

    fn read(&mut self, at: u64, into: &mut [u8]) -> Result<usize, Fault> {
        self.look()?;
        let bytes = self.platter.bytes();
        let rest = &bytes[bytes.len().min(at as usize)..];
        let count = rest.len().min(into.len());
        into[..count].copy_from_slice(&rest[..count]);
        Ok(count)
    }

    fn write_at(&mut self, at: u64, bytes: &[u8]) -> Result<(), Fault> {
        self.write(at as usize, bytes)
    }

    fn sync(&mut self) -> Result<(), Fault> {
        self.sync_all()
    }

    fn reserve(&mut self, calls: u32, bytes: u64) -> Result<(), Fault> {
        self.look()?;
        if !self.failures.has_room(calls) {
            return Err(Fault::NoMemory);
        }
        match self.platter.make_room(calls as usize, bytes as usize) {
            Ok(()) => Ok(()),
            Err(_) => Err(Fault::NoMemory),
        }
    }
}
