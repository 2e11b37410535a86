//! A change is kept, and made in memory.

ghost use Rattle.std.specs.Prelude.{◌≡◌, None, OnErr, OnOk};
ghost use Rattle.adr_model.specs.Change.{after};
ghost use Rattle.adr_state.specs.Refusal.{IsOverfull};
ghost use Rattle.adr_controller.specs.Running.{IsUp};
ghost use Rattle.adr_controller.specs.Able.{CanCommit};
ghost use Rattle.adr_controller.specs.Ended.{hindrance_of};
ghost use Rattle.adr_controller.specs.Did.{KeepsChange, up_behind};

use crate::refusal::Hindrance;
use adr_journal::Keeper;
use adr_state::{Change, State};
use adr_values::{Failure, NoMemory};
use std::alloc::AllocError;

/// Makes a change of a state that it fits into.
fn apply(state: &mut State, change: Change) -> Result<(), NoMemory>
    requires { ¬ IsOverfull (after state.old change) }
    ensures ok { OnOk result (state.new ≡ after state.old change) }
    ensures err { OnErr result (state.new ≡ state.old) }
{
    match state.apply(change) {
        Ok(()) => Ok(()),
        Err(Failure::Refused(_)) => unreachable!(),
        Err(Failure::NoMemory) => Err(AllocError),
    }
}

/// Commits a change of the state that a keeper stands for, and makes it in memory. All that can want memory comes
/// before the first call of the disk. After a fault the state in memory is of no use.
pub(crate) fn keep<K: Keeper>(
    keeper: &mut K,
    state: &mut State,
    change: Change,
) -> Result<(), Hindrance>
    requires up { IsUp K.Keeper keeper.old state.old }
    requires able { CanCommit K.Keeper state.old change }
    ensures { let how = hindrance_of result in
        KeepsChange K.Keeper state.old change (up_behind None keeper.old state.old) (up_behind how keeper.new state.new) how }
{
    keeper.prepare(state, &change)?;
    apply(state, change)?;
    Ok(keeper.commit()?)
}
