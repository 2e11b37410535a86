//! Identifiers in memory.

ghost use Rattle.std.specs.Prelude.{Some};
ghost use Rattle.adr_test_outside.specs.Memory.{Gives};

use crate::supply::Supply;
use adr_io::Fault;
use adr_outside::Fresh;
use adr_values::Guid;

/// Identifiers, given one after the other. That they differ is the caller's to see to.
pub type MemFresh = Supply<Guid>;

impl Fresh for Supply<Guid> {
    ghost faults = { λ f. f.faults };

    ghost identifiers = { λ f. Some f.left };

    fn identifier(&mut self) -> Result<Guid, Fault>
        ensures { Gives self.old result self.new }
    {
        self.give()
    }
}
