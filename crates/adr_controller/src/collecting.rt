//! Collections.

ghost use Rattle.std.specs.Prelude.{◌≡◌, Some, Ok, Err, IfOk, IsErrOf, length};
ghost use Rattle.adr_call.specs.declared.refusal.CollectRefusal.{CollectRefusal};
ghost use Rattle.adr_model.specs.Store.{State as Defined};
ghost use Rattle.adr_model.specs.Change.{Change as Changes};
ghost use Rattle.adr_model.specs.Collect.{collect};
ghost use Rattle.adr_controller.specs.Able.{AllFollow, collected_in};
ghost use Rattle.adr_controller.specs.Ended.{call_hindrance};
ghost use Rattle.adr_controller.specs.Did.{Calls};

use crate::controller::Controller;
use crate::refusal::CallRefusal;
use adr_call::CollectRefusal;
use adr_collect::collect;
use adr_cycle::count;
use adr_journal::Keeper;
use std::alloc::Global;

impl<K: Keeper> Controller<K> {
    /// Collects tombstones at a time and after a lifetime, both in seconds; it answers how many objects went.
    pub(crate) fn collect(
        &mut self,
        alloc: Global,
        now: u64,
        lifetime: u64,
    ) -> Result<u32, CallRefusal<CollectRefusal>>
        requires follows { AllFollow K.Keeper (collected_in now lifetime) }
        ensures collected { IfOk result (λ removed. (s : Defined) → self.old.state ≡ Some s
            → (c : Changes) × (collect s now lifetime ≡ Ok c) × (removed ≡ length c.removed)) }
        ensures refused { (s : Defined) (refusal : CollectRefusal) → self.old.state ≡ Some s
            → IsErrOf result (CallRefusal.Refused refusal) → collect s now lifetime ≡ Err refusal }
        ensures calls { Calls K.Keeper (collected_in now lifetime) self.old self.new (call_hindrance result) }
    {
        let state = self.running()?;
        let change = collect(alloc, state, now, lifetime)?;
        let removed = count(change.removed().len());
        self.conclude(change, removed)
    }
}
