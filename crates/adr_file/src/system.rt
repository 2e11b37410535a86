//! The present folder as the system has it. It tells nothing, and each call is one of the system's.

ghost use Rattle.std.specs.Prelude.{◌≤◌, ⊤, None, IfOk, length};

use crate::device::Folder;
use crate::folder::{Found, Identity, Measured};
use std::fs::{File, Files, Metadata, OpenFile, OpenOptions, symlink_metadata};
use std::io;
use std::os::fd::AsRawFd;
use std::os::unix::fs::{FileExt, MetadataExt, OpenOptionsExt};

/// The present folder, and the file in it that is open.
#[derive(Drop)]
pub struct SystemFolder<R> {
    files: R,
    file: Option<File>,
}

impl<R> SystemFolder<R> {
    /// No file is open as yet.
    pub fn new(files: R) -> SystemFolder<R> {
        SystemFolder { files, file: None }
    }

    fn opened(&self) -> io::Result<&File> {
        match &self.file {
            Some(file) => Ok(file),
            None => Err(io::Error::from(io::ErrorKind::NotConnected)),
        }
    }
}

/// What the system tells of which file one is.
fn identity_of(found: &Metadata) -> Identity {
    Identity {
        device: found.dev(),
        number: found.ino(),
        names: found.nlink(),
    }
}

/// Reads some bytes, at the end none. A read that a signal interrupts is made again, as std does with writes.
fn read_some(file: &File, at: u64, into: &mut [u8]) -> io::Result<usize>
    ensures { IfOk result (λ n. n ≤ length into.new) }
{
    for _ in 0..u64::MAX {
        match file.read_at(into, at) {
            Err(e) if e.kind() == io::ErrorKind::Interrupted => {}
            told => return told,
        }
    }
    Err(io::Error::from(io::ErrorKind::Interrupted))
}

impl<R: Files<File = File> + Drop> Folder for SystemFolder<R> {
    ghost use Rattle.adr_file.specs.Device.{no_identity};

    ghost file = { λ _. None };

    ghost named = { λ _. no_identity };

    ghost opened = { λ _. None };

    ghost seen = { λ _. None };

    ghost is_sure = { λ _. ⊤ };

    ghost may_leave = { λ _ _. ⊤ };

    ghost moment = { λ _. 0 };

    ghost left_since = { λ _ _ _. ⊤ };

    ghost honest = { λ _ _ _. tt };

    ghost counts_now = { λ _ _ _ _ _. tt };

    ghost only_now = { λ _ _ _. tt };

    fn look(&mut self, name: &str) -> io::Result<Option<Found>> {
        match symlink_metadata(&self.files, name) {
            Ok(found) => Ok(Some(Found {
                identity: identity_of(&found),
                is_regular: found.is_file(),
            })),
            Err(e) if e.kind() == io::ErrorKind::NotFound => Ok(None),
            Err(e) => Err(e),
        }
    }

    fn measure(&mut self) -> io::Result<Measured> {
        let found = self.opened()?.metadata()?;
        Ok(Measured {
            identity: identity_of(&found),
            length: found.len(),
        })
    }

    fn open(&mut self, name: &str) -> io::Result<()> {
        let file = OpenOptions::new()
            .read(true)
            .write(true)
            .open(&self.files, name)?;
        self.file = Some(file);
        Ok(())
    }

    fn lock(&mut self) -> io::Result<()> {
        self.opened()?.try_lock()?;
        Ok(())
    }

    fn forget(&mut self) -> io::Result<()> {
        let file = self.opened()?.as_raw_fd();
        match libc::posix_fadvise(file, 0, 0, libc::POSIX_FADV_DONTNEED) {
            0 => Ok(()),
            code => Err(io::Error::from_raw_os_error(code)),
        }
    }

    fn close(&mut self) {
        self.file = None;
    }

    /// Its owner alone may read and write it.
    fn make(&mut self, name: &str) -> io::Result<()> {
        let file = OpenOptions::new()
            .read(true)
            .write(true)
            .create_new(true)
            .mode(0o600)
            .open(&self.files, name)?;
        self.file = Some(file);
        Ok(())
    }

    fn read(&mut self, at: u64, into: &mut [u8]) -> io::Result<usize> {
        read_some(self.opened()?, at, into)
    }

    fn write(&mut self, at: u64, bytes: &[u8]) -> io::Result<()> {
        self.opened()?.write_all_at(bytes, at)
    }

    fn sync(&mut self) -> io::Result<()> {
        self.opened()?.sync_all()
    }

    fn sync_names(&mut self) -> io::Result<()> {
        File::open(&self.files, ".")?.sync_all()
    }
}
