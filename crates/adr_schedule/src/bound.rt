//! The names that lines bound of one kind.

ghost use Rattle.std.specs.Prelude.{◌≡◌, false, [], ◌∷◌, ◌++◌, length, OnOk, IfErr};
ghost use Rattle.adr_schedule.specs.Seen.{is_bound};

use crate::fault::Cause;
use adr_call::Failure;
use adr_values::Text;
use indexmap::IndexSet;
use std::alloc::Global;
use std::marker::Model;

/// Names in the order in which they were bound. There may be very many, so they are looked up by hash.
pub struct BoundNames {
    set: IndexSet<String>,
}

impl Drop for BoundNames {
    fn drop(self) {
        let BoundNames { set: _set } = self;
    }
}

impl Model for BoundNames {
    ghost use Rattle.std.specs.Prelude.{List, ℕ, map, string_bytes};

    ghost Value = { List (List ℕ) };

    ghost view = { λ n. map string_bytes n.set.keys };
}

impl BoundNames {
    /// No names.
    pub fn new(alloc: Global) -> BoundNames
        ensures { result ≡ [] }
    {
        BoundNames {
            set: IndexSet::new(alloc),
        }
    }

    pub fn len(&self) -> usize
        ensures { result ≡ length self.now }
    {
        self.set.len()
    }

    /// Whether the name was bound.
    pub fn contains(&self, name: &Text) -> bool
        ensures { result ≡ is_bound self.now name.now }
    {
        self.set.contains(name.as_str())
    }

    /// Binds a name. After an error it isn't said what is bound.
    pub fn bind(&mut self, alloc: Global, name: &Text) -> Result<(), Failure<Cause>>
        requires { is_bound self.old name.now ≡ false }
        ensures bound { OnOk result (self.new ≡ self.old ++ name.now ∷ []) }
        ensures memory { IfErr result (λ failure. failure ≡ Failure.NoMemory) }
    {
        let Ok(name) = String::from_str(alloc, name.as_str()) else {
            return Err(Failure::NoMemory);
        };
        match self.set.insert(name) {
            Ok(_) => Ok(()),
            Err(_) => Err(Failure::NoMemory),
        }
    }
}
