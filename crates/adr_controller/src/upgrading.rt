//! Changing over to schema 2.

ghost use Rattle.std.specs.Prelude.{◌≡◌, Some, Ok, Err, IfOk, IsErrOf};
ghost use Rattle.adr_call.specs.declared.refusal.UpgradeRefusal.{UpgradeRefusal};
ghost use Rattle.adr_model.specs.Store.{State as Defined};
ghost use Rattle.adr_model.specs.Change.{Change as Changes};
ghost use Rattle.adr_model.specs.Upgrade.{upgrade};
ghost use Rattle.adr_controller.specs.Able.{AllFollow, upgraded_in};
ghost use Rattle.adr_controller.specs.Ended.{call_hindrance};
ghost use Rattle.adr_controller.specs.Did.{Calls};

use crate::controller::Controller;
use crate::refusal::CallRefusal;
use adr_call::UpgradeRefusal;
use adr_journal::Keeper;
use adr_origin::upgrade;
use std::alloc::Global;

impl<K: Keeper> Controller<K> {
    /// Changes over to schema 2.
    pub(crate) fn upgrade(&mut self, alloc: Global) -> Result<(), CallRefusal<UpgradeRefusal>>
        requires follows { AllFollow K.Keeper upgraded_in }
        ensures upgraded { IfOk result (λ _. (s : Defined) → self.old.state ≡ Some s
            → (c : Changes) × (upgrade s ≡ Ok c)) }
        ensures refused { (s : Defined) (refusal : UpgradeRefusal) → self.old.state ≡ Some s
            → IsErrOf result (CallRefusal.Refused refusal) → upgrade s ≡ Err refusal }
        ensures calls { Calls K.Keeper upgraded_in self.old self.new (call_hindrance result) }
    {
        let state = self.running()?;
        match upgrade(alloc, state) {
            Ok(change) => self.conclude(change, Ok(())),
            Err(refusal) => Err(CallRefusal::Refused(refusal)),
        }
    }
}
