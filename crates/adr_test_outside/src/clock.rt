//! A clock in memory.

ghost use Rattle.std.specs.Prelude.{Some};
ghost use Rattle.adr_test_outside.specs.Memory.{Gives};

use crate::supply::Supply;
use adr_io::Fault;
use adr_outside::Clock;

/// A clock that gives these moments, in seconds since 1970.
pub type MemClock = Supply<u64>;

impl Clock for Supply<u64> {
    ghost faults = { λ c. c.faults };

    ghost moments = { λ c. Some c.left };

    fn now(&mut self) -> Result<u64, Fault>
        ensures { Gives self.old result self.new }
    {
        self.give()
    }
}
