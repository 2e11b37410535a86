//! A folder in memory.

ghost use Rattle.std.specs.Prelude.{◌≡◌, ◌≤◌, ◌++◌, ◌∷◌, [], true, false, Some, None, IfOk, OnOk, OnErr, length};
ghost use Rattle.std.specs.Option.{ForSome};
ghost use Rattle.adr_disk.specs.Disk.{put as put_over};
ghost use Rattle.adr_test_folder.specs.Kept.{Kept as KeptState, file_of};

use crate::kept::Kept;
use adr_file::{Folder, Found, Identity, Measured};
use std::alloc::{AllocError, Global};
use std::io;
use std::marker::Model;

/// The one file of the folder.
const THE_FILE: Identity = Identity {
    device: 1,
    number: 1,
    names: 1,
};

/// What becomes of the calls behind so many that pass.
#[derive(Clone, Copy)]
pub enum Mishap {
    Never,
    /// The next one fails.
    Fails { after: u32 },
    /// Each one fails.
    Stops { after: u32 },
    /// Another hand moves the file, so that each look fails.
    Moves { after: u32 },
}

/// A folder in memory with one file, whatever it is called, and calls that fail as planned.
#[derive(Drop)]
pub struct MemFolder {
    alloc: Global,
    kept: Kept,
    past: Vec<Kept>,
    is_open: bool,
    is_seen: bool,
    is_sure: bool,
    mishap: Mishap,
}

impl Model for MemFolder {
    ghost use Rattle.adr_test_folder.specs.Kept.{FolderState};

    ghost Value = { FolderState };

    ghost view = { λ f. record { kept = f.kept; past = f.past.items; is_open = f.is_open; is_seen = f.is_seen; is_sure = f.is_sure } };
}

fn failed() -> io::Error {
    io::Error::from(io::ErrorKind::Other)
}

fn no_memory() -> io::Error {
    io::Error::from(io::ErrorKind::OutOfMemory)
}

impl MemFolder {
    /// A folder that has this.
    fn of(alloc: Global, kept: Kept) -> MemFolder
        ensures { result.kept ≡ kept }
    {
        MemFolder {
            alloc,
            kept,
            past: Vec::new(alloc),
            is_open: false,
            is_seen: false,
            is_sure: true,
            mishap: Mishap::Never,
        }
    }

    /// A folder where the file isn't there.
    pub fn new(alloc: Global) -> MemFolder
        ensures { result.kept.is_there ≡ false }
    {
        MemFolder::of(alloc, Kept::none(alloc))
    }

    pub fn plan(&mut self, mishap: Mishap)
        ensures { self.new ≡ self.old }
    {
        self.mishap = mishap;
    }

    /// Starts anew behind a crash that loses what wasn't synced, or, where it `keeps`, nothing.
    pub fn crash(self, keeps: bool) -> Result<MemFolder, AllocError> {
        let MemFolder {
            alloc,
            kept,
            past,
            ..
        } = self;
        drop(past);
        Ok(MemFolder::of(alloc, kept.crash(keeps, alloc)?))
    }

    /// Fails where that is planned.
    fn tick(&mut self) -> io::Result<()>
        ensures { self.new ≡ self.old }
    {
        match self.mishap {
            Mishap::Never | Mishap::Moves { after: 0 } => Ok(()),
            Mishap::Fails { after: 0 } => {
                self.mishap = Mishap::Never;
                Err(failed())
            }
            Mishap::Stops { after: 0 } => Err(failed()),
            Mishap::Fails { after } => {
                self.mishap = Mishap::Fails { after: after - 1 };
                Ok(())
            }
            Mishap::Stops { after } => {
                self.mishap = Mishap::Stops { after: after - 1 };
                Ok(())
            }
            Mishap::Moves { after } => {
                self.mishap = Mishap::Moves { after: after - 1 };
                Ok(())
            }
        }
    }

    /// Keeps what it has as a moment that has passed.
    fn pass(&mut self) -> io::Result<()>
        ensures passed { OnOk result (self.new ≡ record self.old { past = self.old.past ++ self.old.kept ∷ [] }) }
        ensures same { OnErr result (self.new ≡ self.old) }
    {
        let Ok(copy) = self.kept.copy(self.alloc) else {
            return Err(no_memory());
        };
        match self.past.push(copy) {
            Ok(()) => Ok(()),
            Err(_) => Err(no_memory()),
        }
    }

    fn make_now(&mut self) -> io::Result<()>
        ensures made { OnOk result (self.new ≡ record self.old {
          kept = record { is_there = true; is_named = false; synced = []; bytes = [] };
          past = self.old.past ++ self.old.kept ∷ [];
          is_open = true;
          is_sure = true;
        }) }
        ensures same { OnErr result (self.new ≡ self.old) }
    {
        self.pass()?;
        self.kept = Kept::made(self.alloc);
        self.is_open = true;
        self.is_sure = true;
        Ok(())
    }

    fn write_now(&mut self, at: usize, new: &[u8]) -> io::Result<()>
        requires { at ≤ length self.old.kept.bytes }
        ensures written { OnOk result (self.new ≡ record self.old {
          kept = record self.old.kept { bytes = put_over self.old.kept.bytes at new.now };
          past = self.old.past ++ self.old.kept ∷ [];
          is_seen = false;
        }) }
        ensures same { OnErr result (self.new ≡ self.old) }
    {
        let Ok(bytes) = self.kept.bytes_with(self.alloc, at, new) else {
            return Err(no_memory());
        };
        self.pass()?;
        self.kept.write(bytes);
        self.is_seen = false;
        Ok(())
    }

    fn sync_now(&mut self) -> io::Result<()>
        ensures synced { OnOk result (self.new ≡ record self.old {
          kept = record self.old.kept { synced = self.old.kept.bytes };
          past = self.old.past ++ self.old.kept ∷ [];
          is_seen = false;
        }) }
        ensures same { OnErr result (self.new ≡ self.old) }
    {
        let Ok(bytes) = self.kept.bytes(self.alloc) else {
            return Err(no_memory());
        };
        self.pass()?;
        self.kept.sync(bytes);
        self.is_seen = false;
        Ok(())
    }

    fn sync_names_now(&mut self) -> io::Result<()>
        ensures named { OnOk result (self.new ≡ record self.old {
          kept = record self.old.kept { is_named = self.old.kept.is_there };
          past = self.old.past ++ self.old.kept ∷ [];
          is_seen = false;
        }) }
        ensures same { OnErr result (self.new ≡ self.old) }
    {
        self.pass()?;
        self.kept.sync_name();
        self.is_seen = false;
        Ok(())
    }
}

impl Folder for MemFolder {
    ghost use Rattle.std.specs.Prelude.{◌≡◌, true, Some, length};
    ghost use Rattle.adr_test_folder.specs.Kept.{file_of, some_if, the_file, IsLeft, IsLeftSince};
    ghost use Rattle.adr_test_folder.specs.Laws.{kept_honest, now_counts, now_only};

    ghost file = { λ f. Some (file_of f.kept) };

    ghost named = { λ _. the_file };

    ghost opened = { λ f. some_if f.is_open the_file };

    ghost seen = { λ f. some_if f.is_seen the_file };

    ghost is_sure = { λ f. f.is_sure ≡ true };

    ghost may_leave = { λ f. IsLeft f.kept };

    ghost moment = { λ f. length f.past };

    ghost left_since = { IsLeftSince };

    ghost honest = { λ f. kept_honest f.kept };

    ghost counts_now = { λ f t left le now. now_counts f t left now };

    ghost only_now = { λ f left now. now_only f left now };

    fn look(&mut self, _name: &str) -> io::Result<Option<Found>> {
        self.tick()?;
        if matches!(self.mishap, Mishap::Moves { after: 0 }) {
            return Err(failed());
        }
        self.is_seen = self.kept.is_there();
        if self.is_seen {
            Ok(Some(Found {
                identity: THE_FILE,
                is_regular: true,
            }))
        } else {
            Ok(None)
        }
    }

    fn measure(&mut self) -> io::Result<Measured> {
        self.tick()?;
        if self.is_open && self.kept.is_there() {
            Ok(Measured {
                identity: THE_FILE,
                length: self.kept.len(),
            })
        } else {
            Err(failed())
        }
    }

    fn open(&mut self, _name: &str) -> io::Result<()> {
        self.tick()?;
        self.is_open = self.kept.is_there();
        Ok(())
    }

    fn lock(&mut self) -> io::Result<()> {
        self.tick()
    }

    fn forget(&mut self) -> io::Result<()> {
        self.tick()?;
        self.is_sure = true;
        Ok(())
    }

    fn close(&mut self) {
        self.is_open = false;
    }

    fn make(&mut self, _name: &str) -> io::Result<()> {
        self.tick()?;
        if self.kept.is_there() {
            return Err(failed());
        }
        self.make_now()
    }

    fn read(&mut self, at: u64, into: &mut [u8]) -> io::Result<usize> {
        self.tick()?;
        Ok(self.kept.read(at, into))
    }

    fn write(&mut self, at: u64, bytes: &[u8]) -> io::Result<()> {
        self.tick()?;
        self.write_now(at as usize, bytes)
    }

    /// Where it fails, nothing is sure any more.
    fn sync(&mut self) -> io::Result<()> {
        if self.tick().is_err() {
            self.is_sure = false;
            return Err(failed());
        }
        self.sync_now()
    }

    fn sync_names(&mut self) -> io::Result<()> {
        self.tick()?;
        self.sync_names_now()
    }
}
