//! The clock of the system. It tells nothing of its moments.

ghost use Rattle.std.specs.Prelude.{◌≡◌, None};

use crate::clock::Clock;
use adr_io::{Failures, Fault};

/// The system's clock, and how many calls have failed. It may be set back between two calls.
#[derive(Drop)]
pub struct SystemClock<R> {
    clock: R,
    failures: Failures,
}

impl<R: std::rt::Clock + Drop> SystemClock<R> {
    pub fn new(clock: R) -> SystemClock<R>
        ensures { ⟦<SystemClock<R> as Clock>⟧.faults result ≡ 0 }
    {
        SystemClock {
            clock,
            failures: Failures::new(),
        }
    }
}

impl<R: std::rt::Clock + Drop> Clock for SystemClock<R> {
    ghost faults = { λ c. c.failures };

    ghost moments = { λ _. None };

    fn now(&mut self) -> Result<u64, Fault> {
        match self.clock.since_1970() {
            Ok(since) => Ok(since.as_secs()),
            Err(_) => Err(self.failures.fail()),
        }
    }
}
