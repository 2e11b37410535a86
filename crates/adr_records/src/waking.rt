//! A controller is made of what an image says.

ghost use Rattle.std.specs.Prelude.{◌≡◌, ◌<◌, [], Ok, Err, IfOk, OnOk, OnErr, IsErrOf, length};
ghost use Rattle.adr_values.specs.declared.failure.Failure.TheVariants.{NoMemory as no_memory};
ghost use Rattle.adr_values.specs.Refusal.{full};
ghost use Rattle.adr_values.specs.Vector.{cursor_limit, raised};
ghost use Rattle.adr_model.specs.Collect.{woken};
ghost use Rattle.adr_model.specs.Formed.{IsFormedStore};
ghost use Rattle.adr_image.specs.Stored.{IsSpelled};
ghost use Rattle.adr_records.specs.Woken.{unmade, with_marks};

use adr_image::Contents;
use adr_state::{Full, Marks, State};
use adr_values::{Failure, Guid, NoMemory};
use std::alloc::{AllocError, Global};

/// Makes all of an empty controller.
fn fill(alloc: Global, state: &mut State, contents: Contents) -> Result<(), Failure<Full>>
    requires formed { IsFormedStore contents }
    requires spelled { IsSpelled contents }
    requires empty { state.old ≡ unmade contents.schema state.old.dsa state.old.inv }
    ensures ok { OnOk result (state.new ≡ woken contents state.old.dsa state.old.inv) }
    ensures full { IsErrOf result full
        → cursor_limit < length (raised contents.vector state.old.inv contents.usn) }
{
    let (change, marks) = contents.into_change(alloc)?;
    state.apply(change)?;
    state.set_marks(Marks::of(alloc, &marks)?);
    Ok(())
}

/// A controller of what an image says, whose rows are moved: its own cursor is raised to the update sequence number. `Full`
/// where that needs one cursor too many.
pub(crate) fn wake(
    alloc: Global,
    contents: Contents,
    dsa: Guid,
    inv: Guid,
) -> Result<State, Failure<Full>>
    requires formed { IsFormedStore contents }
    requires spelled { IsSpelled contents }
    ensures ok { IfOk result (λ state. state ≡ woken contents dsa inv) }
    ensures full { IsErrOf result full → cursor_limit < length (raised contents.vector inv contents.usn) }
{
    let mut state = State::new(alloc, dsa, inv, contents.schema);
    fill(alloc, &mut state, contents)?;
    Ok(state)
}

/// What a call gave that can't be refused as full: memory alone may be wanting.
pub(crate) fn unless_full<T>(given: Result<T, Failure<Full>>) -> Result<T, NoMemory>
    requires { IsErrOf given full → ⊥ }
    ensures ok { IfOk result (λ made. given ≡ Ok made) }
    ensures err { OnErr result (given ≡ Err no_memory) }
{
    match given {
        Ok(made) => Ok(made),
        Err(Failure::NoMemory) => Err(AllocError),
        Err(Failure::Refused(_)) => unreachable!(),
    }
}
