//! Fresh identifiers.

ghost use Rattle.std.specs.Prelude.{ℕ, List, Option};
ghost use Rattle.adr_outside.specs.Given.{GivesNext};

use adr_io::Fault;
use adr_values::Guid;

/// Identifiers that nobody has used. That they are new is a promise of who gives them, and nothing here can test it.
pub trait Fresh {
    /// How many calls have failed so far.
    ghost faults: { Self → ℕ };

    /// The identifiers that it is going to give, where they are told.
    ghost identifiers: { Self → Option (List (List ℕ)) };

    /// The next identifier. A call that fails takes none. Memory is wanting only where one more failure can't be
    /// counted.
    fn identifier(&mut self) -> Result<Guid, Fault>
        ensures { GivesNext (identifiers self.old) (identifiers self.new) (faults self.old) (faults self.new) result };
}
