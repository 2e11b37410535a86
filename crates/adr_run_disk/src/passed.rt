//! What a disk in memory was before. Only proofs read it, and it takes no memory. Its functions are proved by hand,
//! since only such a proof sets what no field holds.

ghost use Rattle.std.specs.Prelude.{◌≡◌, List, [], ◌∷◌, ◌++◌};
ghost use Rattle.std.specs.Borrow.{ftrue};
ghost use Rattle.adr_disk.specs.Memory.{Surface};

use crate::platter::Entry;
use std::marker::Model;

/// The surfaces that a disk had, in order.
#[derive(Drop)]
pub struct Passed {
    pub ghost surfaces: { List Surface },
}

impl Model for Passed {
    ghost also_owns = { λ _. ftrue };
}

impl Passed {
    ghost use Rattle.adr_run_disk.specs.Entries.{surface_at};

    /// None yet.
    pub fn new() -> Passed
        ensures { result.surfaces ≡ [] }
    {
        Passed {}
    }

    /// Adds the surface of these bytes after these writes, whose bytes are in the log, over the covered ones.
    pub fn add(&mut self, _bytes: &[u8], _entries: &[Entry], _log: &[u8], _covered: &[u8])
        ensures { self.new.surfaces
            ≡ self.old.surfaces ++ surface_at _bytes.now _log.now _covered.now _entries.now ∷ [] }
    {}
}
