//! The identifiers that lines gave of one kind.

ghost use Rattle.std.specs.Prelude.{◌≡◌, false, [], ◌∷◌, ◌++◌, OnOk, IfErr};
ghost use Rattle.adr_schedule.specs.Seen.{is_bound};

use crate::fault::Cause;
use adr_call::Failure;
use adr_values::Guid;
use indexmap::IndexSet;
use std::alloc::Global;
use std::marker::Model;

/// Identifiers in the order in which they were given. There may be very many, so they are looked up by hash of their bytes.
pub struct GivenIdentifiers {
    set: IndexSet<[u8; 16]>,
}

impl Drop for GivenIdentifiers {
    fn drop(self) {
        let GivenIdentifiers { set: _set } = self;
    }
}

impl Model for GivenIdentifiers {
    ghost use Rattle.std.specs.Prelude.{List, ℕ};

    ghost Value = { List (List ℕ) };

    ghost view = { λ g. g.set.keys };
}

impl GivenIdentifiers {
    /// No identifiers.
    pub fn new(alloc: Global) -> GivenIdentifiers
        ensures { result ≡ [] }
    {
        GivenIdentifiers {
            set: IndexSet::new(alloc),
        }
    }

    /// Whether the identifier was given.
    #[tactic(auto, using(crate::proofs::NameLemmas::kept))]
    pub fn contains(&self, id: &Guid) -> bool
        ensures { result ≡ is_bound self.now id.now }
    {
        self.set.contains(id.as_bytes())
    }

    /// Gives an identifier. After an error it isn't said what is given.
    pub fn give(&mut self, id: &Guid) -> Result<(), Failure<Cause>>
        requires { is_bound self.old id.now ≡ false }
        ensures given { OnOk result (self.new ≡ self.old ++ id.now ∷ []) }
        ensures memory { IfErr result (λ failure. failure ≡ Failure.NoMemory) }
    {
        match self.set.insert(*id.as_bytes()) {
            Ok(_) => Ok(()),
            Err(_) => Err(Failure::NoMemory),
        }
    }
}
