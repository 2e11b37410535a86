//! Values given to attributes.
ghost use Rattle.std.specs.Prelude.{◌≡◌, ◌↔◌, List, IsTrue, [], IsSome, OnOk, OnErr, IsErrOf};
ghost use Rattle.std.specs.List.Sorted.{IsStrictlySortedBy};
ghost use Rattle.std.specs.Ordering.{nat_cmp};
ghost use Rattle.std.specs.Map.{lookup};
ghost use Rattle.std.specs.Option.{option_copied};
ghost use Rattle.std.specs.BTreeMap.{is_at};
ghost use Rattle.adr_values.specs.Assignments.{attributes, given, placed, repeated};

use crate::content::{Value, Values};
use crate::failure::Failure;
use std::alloc::Global;
use std::collections::BTreeMap;
use std::marker::Model;
use thiserror::Error;

/// The attribute is given values already.
#[derive(Clone, Copy, Debug, Error)]
#[error("the attribute is given values already")]
pub struct Repeated;

/// Attributes with their values, rising by attribute.
pub struct Assignments {
    map: BTreeMap<u16, Values>,
}

impl Drop for Assignments {
    fn drop(self) {
        let Assignments { map: _map } = self;
    }
}

impl Model for Assignments {
    ghost use Rattle.std.specs.Prelude.{List};
    ghost use Rattle.adr_values.specs.Assignments.{Given};

    ghost Value = { List Given };

    ghost view = { λ a. a.map.entries };

    ghost use Rattle.std.specs.Ordering.{nat_cmp};
    ghost use Rattle.std.specs.BTreeMap.{IsOrdered};

    ghost invariant = { λ a. IsOrdered nat_cmp a.map };
}

impl Assignments {
    pub fn new(alloc: Global) -> Assignments
        ensures { result ≡ [] }
    {
        Assignments {
            map: BTreeMap::new(alloc),
        }
    }

    /// Gives an attribute its values.
    pub fn add(&mut self, attr: u16, values: Vec<Value>) -> Result<(), Failure<Repeated>>
        ensures ok { OnOk result (self.new ≡ placed attr values.items self.old) }
        ensures repeated { IsErrOf result repeated
            ↔ IsSome (lookup (is_at (nat_cmp attr)) self.old) }
        ensures err { OnErr result (self.new ≡ self.old) }
    {
        if self.map.contains_key(&attr) {
            return Err(Failure::Refused(Repeated));
        }
        match self.map.insert(attr, Values::of(values)) {
            Ok(_) => Ok(()),
            Err(_) => Err(Failure::NoMemory),
        }
    }

    /// The values of an attribute.
    pub fn get(&self, attr: u16) -> Option<&[Value]>
        ensures { option_copied result ≡ given attr self.now }
    {
        let values = self.map.get(&attr)?;
        Some(values.items())
    }

    /// All of them.
    pub fn entries(&self) -> &BTreeMap<u16, Values>
        ensures all { result.now.entries ≡ self.now }
        ensures rising { IsStrictlySortedBy nat_cmp (attributes self.now) }
    {
        &self.map
    }

    pub fn is_empty(&self) -> bool
        ensures { IsTrue result ↔ (self.now ≡ []) }
    {
        self.map.is_empty()
    }
}
