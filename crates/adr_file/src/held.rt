//! A folder, and the file in it that a disk has.

ghost use Rattle.std.specs.Prelude.{◌≡◌, ◌⊎◌, ◌-◌, ◌≤◌, ℕ, List, true, false, Option, Some, None, IfOk, OnOk, OnErr, IsErr, IsSome, is_some, length, take, drop, min};
ghost use Rattle.std.specs.Option.{ForSome};
ghost use Rattle.adr_disk.specs.Disk.{After, Torn, Only, put};
ghost use Rattle.adr_file.specs.Device.{bytes_of, AsBytes, IsNamed, IsSeen};
ghost use Rattle.adr_file.specs.Known.{KeepsFile, IsOwnFile, IsKnown, Turns};

use crate::calls::{check, check_length, fill, length_of, make_file, open_file, sync, write};
use crate::device::Folder;
use crate::folder::{FileName, file_name};
use std::io;

#[derive(Drop)]
pub struct Held<F: Folder> {
    pub(crate) folder: F,
    /// None while no name was told, or a sync has failed since.
    pub(crate) path: Option<FileName>,
    /// The file is there, and is open.
    pub(crate) is_open: bool,
    /// How many bytes it has; unknown behind a write that failed.
    pub(crate) length: Option<u64>,
    /// Whether the folder was synced since the file was looked for or made.
    pub(crate) is_name_safe: bool,
}

fn not_attached() -> io::Error {
    io::Error::from(io::ErrorKind::NotConnected)
}

/// Where a write ends. One of no bytes makes no file longer.
fn end_of(at: u64, bytes: &[u8]) -> u64 {
    if bytes.is_empty() {
        0
    } else {
        at.saturating_add(bytes.len() as u64)
    }
}

impl<F: Folder> Held<F> {
    pub fn new(folder: F) -> Held<F>
        ensures folder { result.folder ≡ folder }
        ensures detached { is_some result.path ≡ false }
        ensures known { IsKnown F.Folder result.folder (is_some result.path) result.is_open result.is_name_safe }
    {
        Held {
            folder,
            path: None,
            is_open: false,
            length: None,
            is_name_safe: false,
        }
    }

    pub fn into_folder(self) -> F
        ensures { result ≡ self.folder }
    {
        let Held { folder, .. } = self;
        folder
    }

    pub fn let_go(&mut self)
        ensures detached { is_some self.new.path ≡ false }
        ensures closed { self.new.is_open ≡ false }
        ensures known { IsKnown F.Folder self.new.folder (is_some self.new.path) self.new.is_open self.new.is_name_safe }
        ensures keeps { KeepsFile F.Folder self.old.folder self.new.folder }
    {
        self.path = None;
        self.is_open = false;
        self.length = None;
        self.is_name_safe = false;
        self.folder.close();
    }

    /// Looks for the file of a name, and opens it if it is there.
    pub fn attach(&mut self, name: &str) -> io::Result<()>
        ensures attached { OnOk result (is_some self.new.path ≡ true) }
        ensures detached { OnErr result (is_some self.new.path ≡ false) }
        ensures known { IsKnown F.Folder self.new.folder (is_some self.new.path) self.new.is_open self.new.is_name_safe }
        ensures keeps { KeepsFile F.Folder self.old.folder self.new.folder }
    {
        // The lock of a file that is still open would stand in the way.
        self.let_go();
        let Some(path) = file_name(name) else {
            return Err(io::Error::from(io::ErrorKind::InvalidInput));
        };
        match open_file(&mut self.folder, &path) {
            Ok(Some(length)) => {
                self.length = Some(length);
                self.is_open = true;
                self.path = Some(path);
                Ok(())
            }
            Ok(None) => {
                self.length = Some(0);
                self.path = Some(path);
                Ok(())
            }
            Err(e) => {
                self.folder.close();
                Err(e)
            }
        }
    }

    /// How many bytes there are.
    pub fn count(&mut self) -> io::Result<u64>
        requires { IsKnown F.Folder self.old.folder (is_some self.old.path) self.old.is_open self.old.is_name_safe }
        ensures count { IfOk result (λ count. ForSome (F.file self.old.folder) (λ there. count ≡ length (bytes_of there))) }
        ensures refused { is_some self.old.path ≡ false → IsErr result }
        ensures stays { self.new.path ≡ self.old.path }
        ensures known { IsKnown F.Folder self.new.folder (is_some self.new.path) self.new.is_open self.new.is_name_safe }
        ensures keeps { KeepsFile F.Folder self.old.folder self.new.folder }
    {
        if self.path.is_none() {
            return Err(not_attached());
        }
        if self.is_open {
            length_of(&mut self.folder)
        } else {
            Ok(0)
        }
    }

    /// Reads until the buffer is full or the file ends.
    pub fn read(&mut self, at: u64, into: &mut [u8]) -> io::Result<usize>
        requires { IsKnown F.Folder self.old.folder (is_some self.old.path) self.old.is_open self.old.is_name_safe }
        ensures within { IfOk result (λ n. n ≤ length into.new) }
        ensures filled { IfOk result (λ n. ForSome (F.file self.old.folder) (λ there.
            n ≡ min (length into.old) (length (bytes_of there) - at))) }
        ensures read { IfOk result (λ n. ForSome (F.file self.old.folder) (λ there.
            take n into.new ≡ take n (drop at (bytes_of there)))) }
        ensures refused { is_some self.old.path ≡ false → IsErr result }
        ensures stays { self.new.path ≡ self.old.path }
        ensures known { IsKnown F.Folder self.new.folder (is_some self.new.path) self.new.is_open self.new.is_name_safe }
        ensures keeps { KeepsFile F.Folder self.old.folder self.new.folder }
    {
        if self.path.is_none() {
            return Err(not_attached());
        }
        if self.is_open {
            fill(&mut self.folder, at, into)
        } else {
            Ok(0)
        }
    }

    /// The file, which is made where it isn't there.
    fn made(&mut self) -> io::Result<()>
        requires { IsKnown F.Folder self.old.folder (is_some self.old.path) self.old.is_open self.old.is_name_safe }
        ensures is_open { OnOk result (self.new.is_open ≡ true) }
        ensures same { ForSome (F.file self.old.folder) (λ there. ForSome (F.file self.new.folder) (λ now. bytes_of now ≡ bytes_of there)) }
        ensures refused { is_some self.old.path ≡ false → IsErr result }
        ensures stays { self.new.path ≡ self.old.path }
        ensures known { IsKnown F.Folder self.new.folder (is_some self.new.path) self.new.is_open self.new.is_name_safe }
        ensures turns { Turns F.Folder self.old.folder self.new.folder (AsBytes (F.may_leave self.old.folder)) }
    {
        let Some(path) = &self.path else {
            return Err(not_attached());
        };
        if self.is_open {
            return Ok(());
        }
        self.is_name_safe = false;
        match make_file(&mut self.folder, path) {
            Ok(()) => {
                self.is_open = true;
                self.length = Some(0);
                Ok(())
            }
            Err(e) => {
                self.folder.close();
                Err(e)
            }
        }
    }

    /// Writes to the open file, which is as long as it was left.
    fn write_on(&mut self, at: u64, bytes: &[u8]) -> io::Result<()>
        requires known { IsKnown F.Folder self.old.folder (is_some self.old.path) self.old.is_open self.old.is_name_safe }
        requires is_open { self.old.is_open ≡ true }
        requires within { ForSome (F.file self.old.folder) (λ there. at ≤ length (bytes_of there)) }
        ensures written { OnOk result (ForSome (F.file self.old.folder) (λ there.
            F.file self.new.folder ≡ Some (Some (put (bytes_of there) at bytes.now)))) }
        ensures stays { self.new.path ≡ self.old.path }
        ensures known { IsKnown F.Folder self.new.folder (is_some self.new.path) self.new.is_open self.new.is_name_safe }
        ensures turns { Turns F.Folder self.old.folder self.new.folder (After (Torn at (length bytes.now)) (AsBytes (F.may_leave self.old.folder))) }
    {
        check_length(&mut self.folder, self.length)?;
        let left = self.length.take();
        write(&mut self.folder, at, bytes)?;
        self.length = left.map(|length| length.max(end_of(at, bytes)));
        Ok(())
    }

    /// Makes the file where it isn't there.
    pub fn write(&mut self, at: u64, bytes: &[u8]) -> io::Result<()>
        requires known { IsKnown F.Folder self.old.folder (is_some self.old.path) self.old.is_open self.old.is_name_safe }
        requires within { ForSome (F.file self.old.folder) (λ there. at ≤ length (bytes_of there)) }
        ensures written { OnOk result (ForSome (F.file self.old.folder) (λ there.
            F.file self.new.folder ≡ Some (Some (put (bytes_of there) at bytes.now)))) }
        ensures refused { is_some self.old.path ≡ false → IsErr result }
        ensures stays { self.new.path ≡ self.old.path }
        ensures known { IsKnown F.Folder self.new.folder (is_some self.new.path) self.new.is_open self.new.is_name_safe }
        ensures turns { Turns F.Folder self.old.folder self.new.folder (After (Torn at (length bytes.now)) (AsBytes (F.may_leave self.old.folder))) }
    {
        self.made()?;
        self.write_on(at, bytes)
    }

    fn sync_whole(&mut self) -> io::Result<()>
        requires { IsKnown F.Folder self.old.folder (is_some self.old.path) self.old.is_open self.old.is_name_safe }
        ensures durable { OnOk result (ForSome (F.file self.new.folder) (λ there. Only (bytes_of there) (AsBytes (F.may_leave self.new.folder)))) }
        ensures named { OnOk result (ForSome (F.file self.new.folder) (λ there. IsNamed there (F.may_leave self.new.folder))) }
        ensures its_own { OnOk result (ForSome (F.file self.new.folder) (λ there. IsSome there → IsSeen F.file F.opened F.seen self.new.folder)) }
        ensures same { OnOk result (F.file self.new.folder ≡ F.file self.old.folder) }
        ensures refused { is_some self.old.path ≡ false → IsErr result }
        ensures stays { self.new.path ≡ self.old.path }
        ensures known { OnOk result (IsKnown F.Folder self.new.folder (is_some self.new.path) self.new.is_open self.new.is_name_safe) }
        ensures turns { Turns F.Folder self.old.folder self.new.folder (AsBytes (F.may_leave self.old.folder)) }
    {
        let Some(path) = &self.path else {
            return Err(not_attached());
        };
        sync(&mut self.folder, self.is_open, self.is_name_safe)?;
        self.is_name_safe = true;
        check(&mut self.folder, path, self.is_open, self.length)
    }

    /// Lets go of the file where it fails.
    pub fn sync(&mut self) -> io::Result<()>
        requires { IsKnown F.Folder self.old.folder (is_some self.old.path) self.old.is_open self.old.is_name_safe }
        ensures durable { OnOk result (ForSome (F.file self.new.folder) (λ there. Only (bytes_of there) (AsBytes (F.may_leave self.new.folder)))) }
        ensures named { OnOk result (ForSome (F.file self.new.folder) (λ there. IsNamed there (F.may_leave self.new.folder))) }
        ensures its_own { OnOk result (ForSome (F.file self.new.folder) (λ there. IsSome there → IsSeen F.file F.opened F.seen self.new.folder)) }
        ensures same { OnOk result (F.file self.new.folder ≡ F.file self.old.folder) }
        ensures refused { is_some self.old.path ≡ false → IsErr result }
        ensures stays { OnOk result (self.new.path ≡ self.old.path) }
        ensures lets_go { OnErr result (is_some self.new.path ≡ false) }
        ensures known { IsKnown F.Folder self.new.folder (is_some self.new.path) self.new.is_open self.new.is_name_safe }
        ensures turns { Turns F.Folder self.old.folder self.new.folder (AsBytes (F.may_leave self.old.folder)) }
    {
        match self.sync_whole() {
            Ok(()) => Ok(()),
            Err(e) => {
                self.let_go();
                Err(e)
            }
        }
    }
}
