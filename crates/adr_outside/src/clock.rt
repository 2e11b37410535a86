//! The time.

ghost use Rattle.std.specs.Prelude.{ℕ, List, Option};
ghost use Rattle.adr_outside.specs.Given.{GivesNext};

use adr_io::Fault;

/// A clock.
pub trait Clock {
    /// How many calls have failed so far.
    ghost faults: { Self → ℕ };

    /// The moments that it is going to give, where they are told.
    ghost moments: { Self → Option (List ℕ) };

    /// The present moment, in whole seconds since 1970 began in UTC. A later call may give an earlier one. A call that
    /// fails takes no moment. Memory is wanting only where one more failure can't be counted.
    fn now(&mut self) -> Result<u64, Fault>
        ensures { GivesNext (moments self.old) (moments self.new) (faults self.old) (faults self.new) result };
}
