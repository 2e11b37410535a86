//! What holds of every controller of a run, as laws.

ghost use Rattle.adr_controller.specs.Running.{IsInOrder};
ghost use Rattle.adr_run_replica.specs.Planned.{GoesAsPlanned};

use adr_controller::{Controller, Keeper};
use adr_journal::Journal;
use adr_records::Records;
use adr_run_disk::MemDisk;
use adr_run_keeper::{PlannedKeeper, commits_go_as_planned};

/// Every controller over a keeper under a plan is in order, and the keeper goes as planned.
#[tactic(none)]
fn keepers_go_as_planned<K: PlannedKeeper>(controller: &Controller<K>)
    ensures in_order { IsInOrder ⟦<K as Keeper>⟧ controller.now }
    ensures planned { GoesAsPlanned ⟦<K as Keeper>⟧ K.read K.safe K.torn K.plan K.has_stopped }
{
    commits_go_as_planned::<K>();
    let _ = controller.state();
}

/// A controller of a run is in order, and its journal goes as planned.
pub(crate) fn goes_as_planned(controller: &Controller<Journal<MemDisk, Records>>)
    ensures in_order { IsInOrder ⟦<Journal<MemDisk, Records> as Keeper>⟧ controller.now }
    ensures planned { GoesAsPlanned ⟦<Journal<MemDisk, Records> as Keeper>⟧ ⟦<Journal<MemDisk, Records> as PlannedKeeper>⟧.read
        ⟦<Journal<MemDisk, Records> as PlannedKeeper>⟧.safe ⟦<Journal<MemDisk, Records> as PlannedKeeper>⟧.torn
        ⟦<Journal<MemDisk, Records> as PlannedKeeper>⟧.plan ⟦<Journal<MemDisk, Records> as PlannedKeeper>⟧.has_stopped }
{
    keepers_go_as_planned(controller);
}
