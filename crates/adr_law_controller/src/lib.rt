//! One controller, end to end: over whatever keeper, its state is the fold of the changes of the calls that were answered,
//! in order, and whatever crash comes, a start finds that fold for a front of the calls.
//!
//! A step is a call, a stop or a start, with how it ended. A list of steps leads from one controller to another where each
//! is what the contract of the public call says. `specs/Called` has the calls, `specs/Behind` the fold, `specs/Laws` the
//! laws, `specs/Keeping` what a node asks of its keeper. The functions here have no code.
#![tactic(auto)]

ghost use Rattle.adr_law_controller.specs.Keeping.{KeepsLog};
ghost use Rattle.adr_law_controller.specs.Laws.{GivenCallsFollow, StandsBehindSteps, UpStandsAtItsState};
ghost use Rattle.adr_law_controller.specs.Worked.{IsWorked};

use adr_controller::Keeper;
use adr_disk::Disk;
use adr_journal::Journal;
use adr_law_recorded::{
    collections_are_recorded, logged_states_fit, quarantines_are_recorded,
    recorded_changes_leave_logged_states, taken_replies_are_recorded, upgrades_are_recorded,
    writes_are_recorded,
};
use adr_records::Records;

/// A controller that is up stands at its state, and whatever steps follow, it stands behind them: over whatever keeper.
#[tactic(none)]
pub fn controllers_stand_behind_their_steps<K: Keeper>()
    ensures up { UpStandsAtItsState ⟦<K as Keeper>⟧ }
    ensures steps { StandsBehindSteps ⟦<K as Keeper>⟧ }
{}

/// So does a controller over a log, on whatever disk.
pub fn logs_stand_behind_their_steps<D: Disk>()
    ensures up { UpStandsAtItsState ⟦<Journal<D, Records> as Keeper>⟧ }
    ensures steps { StandsBehindSteps ⟦<Journal<D, Records> as Keeper>⟧ }
{
    controllers_stand_behind_their_steps::<Journal<D, Records>>();
}

/// Every call that has the form of one may be made of a controller over a log.
pub fn given_calls_follow<D: Disk>()
    ensures { GivenCallsFollow ⟦<Journal<D, Records> as Keeper>⟧ }
{
    writes_are_recorded();
    taken_replies_are_recorded();
    collections_are_recorded();
    upgrades_are_recorded();
    quarantines_are_recorded();
    recorded_changes_leave_logged_states();
    logged_states_fit();
}

/// So a log, on whatever disk, keeps what a node is asked for.
pub fn logs_keep<D: Disk>()
    ensures { KeepsLog ⟦<Journal<D, Records> as Keeper>⟧ }
{
    given_calls_follow::<D>();
}

/// The fold, worked out on a call that was answered, one that met a fault of the disk, and a start.
#[tactic(none)]
pub fn worked_calls()
    ensures { IsWorked }
{}
