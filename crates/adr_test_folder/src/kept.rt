//! What a folder in memory has of its file.

ghost use Rattle.std.specs.Prelude.{◌≡◌, ◌≤◌, ◌-◌, [], true, false, IfOk, length, take, drop, min};
ghost use Rattle.adr_disk.specs.Disk.{put as put_over};

use adr_run_disk::put;
use std::alloc::{AllocError, Global};
use std::marker::Model;

/// Whether the file is there, and whether its name is safe; its bytes as they were synced, and as they read.
#[derive(Drop)]
pub struct Kept {
    is_there: bool,
    is_named: bool,
    synced: Vec<u8>,
    bytes: Vec<u8>,
}

impl Model for Kept {
    ghost use Rattle.adr_test_folder.specs.Kept.{Kept as KeptState};

    ghost Value = { KeptState };

    ghost view = { λ k. record { is_there = k.is_there; is_named = k.is_named; synced = k.synced.items; bytes = k.bytes.items } };
}

impl Kept {
    /// No file.
    pub fn none(alloc: Global) -> Kept
        ensures { result ≡ record { is_there = false; is_named = false; synced = []; bytes = [] } }
    {
        Kept {
            is_there: false,
            is_named: false,
            synced: Vec::new(alloc),
            bytes: Vec::new(alloc),
        }
    }

    /// A file whose name isn't safe.
    pub fn made(alloc: Global) -> Kept
        ensures { result ≡ record { is_there = true; is_named = false; synced = []; bytes = [] } }
    {
        Kept {
            is_there: true,
            is_named: false,
            synced: Vec::new(alloc),
            bytes: Vec::new(alloc),
        }
    }

    pub fn copy(&self, alloc: Global) -> Result<Kept, AllocError>
        ensures { IfOk result (λ copy. copy ≡ self.now) }
    {
        Ok(Kept {
            is_there: self.is_there,
            is_named: self.is_named,
            synced: self.synced.to_vec(alloc)?,
            bytes: self.bytes.to_vec(alloc)?,
        })
    }

    pub fn is_there(&self) -> bool
        ensures { result ≡ self.now.is_there }
    {
        self.is_there
    }

    pub fn len(&self) -> u64
        ensures { result ≡ length self.now.bytes }
    {
        self.bytes.len() as u64
    }

    /// Reads into the front of a buffer.
    pub fn read(&self, at: u64, into: &mut [u8]) -> usize
        ensures count { result ≡ min (length into.old) (length self.now.bytes - at) }
        ensures read { take result into.new ≡ take result (drop at self.now.bytes) }
    {
        let bytes = self.bytes.as_slice();
        let rest = &bytes[bytes.len().min(at as usize)..];
        let count = rest.len().min(into.len());
        into[..count].copy_from_slice(&rest[..count]);
        count
    }

    pub fn bytes(&self, alloc: Global) -> Result<Vec<u8>, AllocError>
        ensures { IfOk result (λ bytes. bytes.items ≡ self.now.bytes) }
    {
        self.bytes.to_vec(alloc)
    }

    /// The bytes as a write leaves them.
    pub fn bytes_with(&self, alloc: Global, at: usize, new: &[u8]) -> Result<Vec<u8>, AllocError>
        requires { at ≤ length self.now.bytes }
        ensures { IfOk result (λ bytes. bytes.items ≡ put_over self.now.bytes at new.now) }
    {
        let mut bytes = self.bytes.to_vec(alloc)?;
        bytes.reserve(new.len())?;
        put(&mut bytes, at, new);
        Ok(bytes)
    }

    pub fn write(&mut self, bytes: Vec<u8>)
        ensures { self.new ≡ record self.old { bytes = bytes.items } }
    {
        self.bytes = bytes;
    }

    pub fn sync(&mut self, bytes: Vec<u8>)
        ensures { self.new ≡ record self.old { synced = bytes.items } }
    {
        self.synced = bytes;
    }

    pub fn sync_name(&mut self)
        ensures { self.new ≡ record self.old { is_named = self.old.is_there } }
    {
        self.is_named = self.is_there;
    }

    /// What a crash leaves, which loses what wasn't synced, or, where it keeps all, nothing.
    pub fn crash(self, keeps: bool, alloc: Global) -> Result<Kept, AllocError> {
        let Kept {
            is_there,
            is_named,
            synced,
            bytes,
        } = self;
        let left = if keeps { bytes } else { synced };
        let copy = left.to_vec(alloc)?;
        let is_left = if keeps { is_there } else { is_named };
        Ok(Kept {
            is_there: is_left,
            is_named: is_left,
            synced: left,
            bytes: copy,
        })
    }
}
