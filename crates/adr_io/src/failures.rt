//! A count of failed calls.

ghost use Rattle.std.specs.Prelude.{◌≡◌, ◌↔◌, ℕ, ◌+◌, ◌-◌, ◌^◌, ◌≤◌, IsTrue};

use crate::Fault;
use std::marker::Model;

/// How many calls have failed so far.
#[derive(Drop)]
pub struct Failures {
    count: u64,
}

impl Model for Failures {
    ghost Value = { ℕ };

    ghost view = { λ f. f.count };
}

impl Failures {
    pub fn new() -> Failures
        ensures { result ≡ 0 }
    {
        Failures { count: 0 }
    }

    /// Whether so many more can be counted.
    pub fn has_room(&self, calls: u32) -> bool
        ensures { IsTrue result ↔ (calls ≤ 2 ^ 64 - 1 - self.now) }
    {
        u64::from(calls) <= u64::MAX - self.count
    }

    /// Counts a failure. One that can't be counted is told as want of memory.
    pub fn fail(&mut self) -> Fault
        ensures failed { result ≡ Fault.Failed → self.new ≡ self.old + 1 }
        ensures no_memory { result ≡ Fault.NoMemory → self.new ≡ self.old }
        ensures limit { (result ≡ Fault.NoMemory) ↔ (self.old ≡ 2 ^ 64 - 1) }
    {
        if self.count == u64::MAX {
            return Fault::NoMemory;
        }
        self.count += 1;
        Fault::Failed
    }
}
