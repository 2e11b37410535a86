//! Changing over to schema 2.

ghost use Rattle.std.specs.Prelude.{◌≡◌, Ok, Err, IfOk, IsErrOf};
ghost use Rattle.std.specs.Result.{result_err};
ghost use Rattle.adr_call.specs.declared.refusal.UpgradeRefusal.{UpgradeRefusal};
ghost use Rattle.adr_model.specs.Upgrade.{upgrade, upgrade_refusal, upgraded};

use adr_call::UpgradeRefusal;
use adr_checks::Schema;
use adr_state::{Change, Mode, State};
use adr_values::{Times, Vector};
use std::alloc::Global;

/// The number of the schema that a controller changes over to.
const SECOND_SCHEMA: u32 = 2;

/// What changing over to schema 2 makes of a controller: the change, or why it is refused, first in order (the change-over
/// is this project's own). It writes no row, takes no update sequence number, and wants no memory.
pub fn upgrade(alloc: Global, state: &State) -> Result<Change, UpgradeRefusal>
    ensures ok { IfOk result (λ change. upgrade state.now ≡ Ok change) }
    ensures refused { (refusal : UpgradeRefusal) → IsErrOf result refusal → upgrade state.now ≡ Err refusal }
{
    check_upgrade(state)?;
    Ok(upgraded(alloc, state))
}

/// Tests that a controller may change over.
fn check_upgrade(state: &State) -> Result<(), UpgradeRefusal>
    ensures { result_err result ≡ upgrade_refusal state.now }
{
    if state.mode().is_quarantined() {
        return Err(UpgradeRefusal::Quarantined);
    }
    let number = state.schema().number();
    if number == SECOND_SCHEMA {
        return Err(UpgradeRefusal::SchemaThere { number });
    }
    Ok(())
}

/// The schema that a controller changes over to.
fn second_schema() -> Schema
    ensures { result.number ≡ 2 }
{
    match Schema::new(SECOND_SCHEMA) {
        Some(schema) => schema,
        None => unreachable!(),
    }
}

/// The change: nothing but the number of the schema.
fn upgraded(alloc: Global, state: &State) -> Change
    ensures { result ≡ upgraded state.now }
{
    Change::new(
        state.usn(),
        Mode::Normal,
        second_schema(),
        None,
        Vector::new(alloc),
        Times::new(alloc),
        Vector::new(alloc),
        Vec::new(alloc),
        Vec::new(alloc),
    )
}
