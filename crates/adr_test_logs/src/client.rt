//! A client of one controller, each of whose calls is a step of the law over calls.

ghost use Rattle.std.specs.Prelude.{◌≡◌, Some, IsSome, OnOk};
ghost use Rattle.adr_model.specs.Store.{State as Defined};
ghost use Rattle.adr_controller.specs.Able.{AllFollow, written_in};
ghost use Rattle.adr_test_logs.specs.Client.{IsBeforeOrBehind};

use adr_call::Write;
use adr_controller::{Controller, Keeper, StartRefusal};
use adr_law_controller::controllers_stand_behind_their_steps;
use std::alloc::Global;

/// A write, a stop and a start. Whatever the write was answered, the start finds the state before it or the one behind it.
pub fn write_and_restart<K: Keeper>(
    alloc: Global,
    controller: &mut Controller<K>,
    what: &Write,
    now: u64,
) -> Result<(), StartRefusal>
    requires { AllFollow K.Keeper (written_in what.now now) }
    ensures { OnOk result ((s t : Defined) → IsSome (K.told controller.old.keeper)
        → controller.old.state ≡ Some s → controller.new.state ≡ Some t
        → IsBeforeOrBehind (written_in what.now now) s t) }
{
    controllers_stand_behind_their_steps::<K>();
    let _ = controller.state();
    let _ = controller.write(alloc, what, now).is_ok();
    let _ = controller.state();
    controller.stop();
    let _ = controller.state();
    let started = controller.start();
    let _ = controller.state();
    started
}
