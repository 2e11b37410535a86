//! A disk over a file of a folder.

ghost use Rattle.std.specs.Prelude.{◌≡◌, ◌+◌, ◌-◌, ◌^◌, ◌≤◌, Option, Some, true, false, IfOk, IfSome, OnOk, OnErr, IsErr, IsErrOf, IsSome, is_some, length, take, drop, min};
ghost use Rattle.std.specs.Option.{ForSome, option_map};
ghost use Rattle.adr_disk.specs.Disk.{After, Torn, Only, Counts, IsSpare, put};
ghost use Rattle.adr_file.specs.Device.{bytes_of, AsBytes, IsNamed, IsSeen};
ghost use Rattle.adr_file.specs.Known.{KeepsFile, Turns};
ghost use Rattle.adr_file.specs.State.{CountsOne};

use crate::device::Folder;
use crate::held::Held;
use adr_disk::Disk;
use adr_io::{Failures, Fault};
use std::marker::Model;

/// A file in a folder, and how many calls have failed.
///
/// It is made at its first write, with mode 0600 and never over another, and is locked while it is attached: a second
/// process that would open or make it meets a fault, and so does whoever names a link, a device or a directory. Where it
/// isn't there it has no bytes. Before the first sync answers `Ok` the folder is synced too, so that a power failure leaves
/// the file's name.
///
/// The file is that of its name. Behind the lock, and before a sync answers `Ok`, the name's device, number and count of
/// links are compared with those of the open file, and its length with what was written; the length before each write,
/// too. So a file that was removed, moved, replaced or cut is a fault.
///
/// Where a sync failed, the file is let go, and each further call but `reserve` fails until `attach` opens it anew. By
/// then Linux may have forgotten which bytes were not written, and a sync that passes says nothing of those. So `attach`
/// has the system drop what it keeps of the file in memory and needn't write.
#[derive(Drop)]
pub struct FileDisk<F: Folder> {
    held: Held<F>,
    failures: Failures,
}

impl<F: Folder> Model for FileDisk<F> {
    ghost use Rattle.std.specs.Prelude.{is_some};
    ghost use Rattle.adr_file.specs.State.{FileState};
    ghost use Rattle.adr_file.specs.Known.{IsKnown};

    ghost Value = { FileState F };

    ghost view = { λ d. record { folder = d.held.folder; is_attached = is_some d.held.path; faults = d.failures } };

    ghost invariant = { λ d. IsKnown F.Folder d.held.folder (is_some d.held.path) d.held.is_open d.held.is_name_safe };
}

impl<F: Folder> FileDisk<F> {
    /// No file as yet: `attach` opens it.
    pub fn new(folder: F) -> FileDisk<F>
        ensures { result ≡ record { folder = folder; is_attached = false; faults = 0 } }
    {
        FileDisk {
            held: Held::new(folder),
            failures: Failures::new(),
        }
    }

    /// Its folder, as its calls left it.
    pub fn into_folder(self) -> F
        ensures { result ≡ self.folder }
    {
        self.held.into_folder()
    }
}

impl<F: Folder> Disk for FileDisk<F> {
    ghost use Rattle.adr_file.specs.Laws.{file_honest};

    ghost faults = { λ d. d.faults };

    ghost content = { λ d. option_map bytes_of (F.file d.folder) };

    ghost may_leave = { λ d. AsBytes (F.may_leave d.folder) };

    ghost moment = { λ d. F.moment d.folder };

    ghost left_since = { λ d t. AsBytes (F.left_since d.folder t) };

    // A call that wants no memory fails by its count alone.
    ghost spare_calls = { λ d. 2 ^ 64 - 1 - d.faults };

    ghost spare_bytes = { λ _. 2 ^ 64 };

    ghost honest = { λ d. file_honest (F.file d.folder) (F.may_leave d.folder) (F.honest d.folder) };

    ghost counts_now = { λ d t bytes le left. (left.0, F.counts_now d.folder t left.0 le left.1, left.2) };

    ghost only_now = { λ d bytes left. (left.0, F.only_now d.folder left.0 left.1, left.2) };

    /// Opens `NAME.adr` in the folder, if it is there, in place of the file before. A name with a slash is none.
    fn attach(&mut self, name: &str) -> Result<(), Fault>
        ensures attached { OnOk result (self.new.is_attached ≡ true) }
        ensures detached { OnErr result (self.new.is_attached ≡ false) }
        ensures keeps { KeepsFile F.Folder self.old.folder self.new.folder }
        ensures counts { CountsOne self.old result self.new }
    {
        match self.held.attach(name) {
            Ok(()) => Ok(()),
            Err(_) => Err(self.failures.fail()),
        }
    }

    fn len(&mut self) -> Result<u64, Fault>
        ensures len { IfOk result (λ len. ForSome (F.file self.old.folder) (λ there. len ≡ length (bytes_of there))) }
        ensures refused { self.old.is_attached ≡ false → IsErr result }
        ensures stays { self.new.is_attached ≡ self.old.is_attached }
        ensures keeps { KeepsFile F.Folder self.old.folder self.new.folder }
        ensures counts { CountsOne self.old result self.new }
    {
        match self.held.count() {
            Ok(count) => Ok(count),
            Err(_) => Err(self.failures.fail()),
        }
    }

    fn read(&mut self, at: u64, into: &mut [u8]) -> Result<usize, Fault>
        ensures within { IfOk result (λ n. n ≤ length into.new) }
        ensures filled { IfOk result (λ n. ForSome (F.file self.old.folder) (λ there.
            n ≡ min (length into.old) (length (bytes_of there) - at))) }
        ensures read { IfOk result (λ n. ForSome (F.file self.old.folder) (λ there.
            take n into.new ≡ take n (drop at (bytes_of there)))) }
        ensures refused { self.old.is_attached ≡ false → IsErr result }
        ensures stays { self.new.is_attached ≡ self.old.is_attached }
        ensures keeps { KeepsFile F.Folder self.old.folder self.new.folder }
        ensures counts { CountsOne self.old result self.new }
    {
        match self.held.read(at, into) {
            Ok(count) => Ok(count),
            Err(_) => Err(self.failures.fail()),
        }
    }

    /// Makes the file where it isn't there. A failure that can't be counted is told before anything is written.
    fn write_at(&mut self, at: u64, bytes: &[u8]) -> Result<(), Fault>
        requires { ForSome (F.file self.old.folder) (λ there. at ≤ length (bytes_of there)) }
        ensures written { OnOk result (ForSome (F.file self.old.folder) (λ there.
            F.file self.new.folder ≡ Some (Some (put (bytes_of there) at bytes.now)))) }
        ensures turns { Turns F.Folder self.old.folder self.new.folder (After (Torn at (length bytes.now)) (AsBytes (F.may_leave self.old.folder))) }
        ensures refused { self.old.is_attached ≡ false → IsErr result }
        ensures stays { self.new.is_attached ≡ self.old.is_attached }
        ensures no_memory { IsErrOf result Fault.NoMemory → KeepsFile F.Folder self.old.folder self.new.folder }
        ensures counts { CountsOne self.old result self.new }
    {
        if !self.failures.has_room(1) {
            return Err(self.failures.fail());
        }
        match self.held.write(at, bytes) {
            Ok(()) => Ok(()),
            Err(_) => Err(self.failures.fail()),
        }
    }

    /// Lets go of the file where it fails.
    fn sync(&mut self) -> Result<(), Fault>
        ensures durable { OnOk result (ForSome (F.file self.new.folder) (λ there. Only (bytes_of there) (AsBytes (F.may_leave self.new.folder)))) }
        ensures named { OnOk result (ForSome (F.file self.new.folder) (λ there. IsNamed there (F.may_leave self.new.folder))) }
        ensures its_own { OnOk result (ForSome (F.file self.new.folder) (λ there.
            IsSome there → IsSeen F.file F.opened F.seen self.new.folder)) }
        ensures same { OnOk result (F.file self.new.folder ≡ F.file self.old.folder) }
        ensures turns { Turns F.Folder self.old.folder self.new.folder (AsBytes (F.may_leave self.old.folder)) }
        ensures refused { self.old.is_attached ≡ false → IsErr result }
        ensures stays { OnOk result (self.new.is_attached ≡ true) }
        ensures lets_go { OnErr result (self.new.is_attached ≡ false) }
        ensures no_memory { IsErrOf result Fault.NoMemory → KeepsFile F.Folder self.old.folder self.new.folder }
        ensures counts { CountsOne self.old result self.new }
    {
        if !self.failures.has_room(1) {
            self.held.let_go();
            return Err(self.failures.fail());
        }
        match self.held.sync() {
            Ok(()) => Ok(()),
            Err(_) => Err(self.failures.fail()),
        }
    }

    /// It does nothing with the file.
    fn reserve(&mut self, calls: u32, _bytes: u64) -> Result<(), Fault>
        ensures reserved { OnOk result (IsSpare calls _bytes (2 ^ 64 - 1 - self.new.faults) (2 ^ 64)) }
        ensures cause { Counts self.old.faults self.new.faults result }
        ensures same { self.new ≡ self.old }
    {
        if self.failures.has_room(calls) {
            Ok(())
        } else {
            Err(Fault::NoMemory)
        }
    }
}
