//! A list that rises by identifier, looked up at identifiers that rise.

ghost use Rattle.std.specs.Prelude.{◌≡◌, List, ℕ};
ghost use Rattle.std.specs.declared.cmp.Ordering.TheVariants.{Less};
ghost use Rattle.std.specs.List.Sorted.{IsStrictlySortedBy};
ghost use Rattle.std.specs.Map.{keys_of};
ghost use Rattle.adr_values.specs.Order.{identifier_order};
ghost use Rattle.adr_values.specs.Vector.{at};

use crate::guid::Guid;
use std::cmp::Ordering;
use std::marker::Model;

/// What is left of a list of numbers that rises by identifier. Whoever asks at identifiers that rise reads the list once,
/// where a search for each would begin anew.
#[derive(Drop)]
pub struct Walk<'a> {
    rest: &'a [(Guid, u64)],
}

impl<'a> Model for Walk<'a> {
    ghost use Rattle.std.specs.List.Sorted.{IsStrictlySortedBy};
    ghost use Rattle.std.specs.Map.{keys_of};
    ghost use Rattle.adr_values.specs.Order.{identifier_order};
    ghost use Rattle.adr_values.specs.Vector.{Cursors};

    ghost Value = { Cursors };

    ghost view = { λ w. w.rest.now };

    ghost invariant = { λ w. IsStrictlySortedBy identifier_order (keys_of w.rest.now) };
}

impl<'a> Walk<'a> {
    pub(crate) fn new(numbers: &'a [(Guid, u64)]) -> Walk<'a>
        requires { IsStrictlySortedBy identifier_order (keys_of numbers.now) }
        ensures { result ≡ numbers.now }
    {
        Walk { rest: numbers }
    }

    /// The number at an identifier, 0 where there is none. What stands at lesser identifiers is passed, and found no more.
    pub fn at(&mut self, inv: Guid) -> u64
        ensures here { result ≡ at self.old inv }
        ensures above { (other : List ℕ) → identifier_order inv other ≡ Less → at self.new other ≡ at self.old other }
    {
        while let Some((number, rest)) = self.rest.split_first() {
            match number.0.cmp(&inv) {
                Ordering::Less => self.rest = rest,
                Ordering::Equal => {
                    self.rest = rest;
                    return number.1;
                }
                Ordering::Greater => break,
            }
        }
        0
    }
}
