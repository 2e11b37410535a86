//! What lines bound to names.

ghost use Rattle.std.specs.Prelude.{◌≡◌, [], IfOk, IsSome, OnErr, OnOk};
ghost use Rattle.std.specs.Option.{option_copied};
ghost use Rattle.adr_model.specs.Convergence.{IsUnbound};
ghost use Rattle.adr_model.specs.World.{bound, bound_at};

use adr_values::{NoMemory, Text};
use indexmap::IndexMap;
use std::alloc::Global;
use std::marker::Model;

/// What lines bound of one kind, in the order in which they were bound. There may be very many messages, so names are looked
/// up by hash.
#[derive(Drop)]
pub struct Bindings<M> {
    table: IndexMap<String, M>,
}

impl<M> Model for Bindings<M> {
    ghost use Rattle.std.specs.Prelude.{List, ℕ, map, string_bytes};

    ghost Value = { List (List ℕ × M) };

    ghost view = { λ m. map (λ p. (string_bytes p.0, p.1)) m.table.entries };
}

impl<M> Bindings<M> {
    /// Nothing yet.
    pub fn new(alloc: Global) -> Bindings<M>
        ensures { result ≡ [] }
    {
        Bindings {
            table: IndexMap::new(alloc),
        }
    }

    /// What is bound to a name.
    pub fn get(&self, name: &Text) -> Option<&M>
        ensures { option_copied result ≡ bound_at self.now name.now }
    {
        self.table.get(name.as_str())
    }

    /// Binds what a call sent to a name, if it sent something, and gives what is answered.
    pub fn bind<O: Drop>(
        &mut self,
        alloc: Global,
        name: &Text,
        sent: (O, Option<M>),
    ) -> Result<O, NoMemory>
    where
        M: Drop,
        requires { IsUnbound self.old name.now }
        ensures outcome { IfOk result (λ outcome. outcome ≡ sent.0) }
        ensures ok { OnOk result (self.new ≡ bound self.old name.now sent.1) }
        ensures err { OnErr result (self.new ≡ self.old) }
        ensures some { OnErr result (IsSome sent.1) }
    {
        let (outcome, made) = sent;
        match made {
            None => Ok(outcome),
            Some(made) => {
                let name = String::from_str(alloc, name.as_str())?;
                self.table.insert(name, made)?;
                Ok(outcome)
            }
        }
    }
}
