//! Which call fails.

ghost use Rattle.std.specs.Prelude.{◌≡◌, ◌↔◌, ◌+◌, ◌^◌, ◌-◌, Some, None, IsTrue};
ghost use Rattle.adr_test_io.specs.Memory.{one_less, met};

use adr_io::{Failures, Fault};
use std::marker::Model;

/// The call after so many fails, or none does.
#[derive(Drop)]
pub struct Plan {
    calls: Option<u32>,
}

impl Model for Plan {
    ghost use Rattle.std.specs.Prelude.{ℕ, Option};

    ghost Value = { Option ℕ };

    ghost view = { λ p. p.calls };
}

impl Plan {
    pub fn none() -> Plan
        ensures { result ≡ None }
    {
        Plan { calls: None }
    }

    pub fn after(calls: u32) -> Plan
        ensures { result ≡ Some calls }
    {
        Plan { calls: Some(calls) }
    }

    pub fn is_due(&self) -> bool
        ensures { IsTrue result ↔ (self.now ≡ Some 0) }
    {
        matches!(self.calls, Some(0))
    }

    /// Counts a call that passes.
    pub fn pass(&mut self)
        ensures { self.new ≡ one_less self.old }
    {
        if let Some(calls) = self.calls {
            self.calls = Some(calls.saturating_sub(1));
        }
    }

    /// A call fails, as is counted: a plan that was due is done. A failure that can't be counted is want of memory.
    pub fn fail(&mut self, failures: &mut Failures) -> Fault
        ensures met { result ≡ Fault.Failed → self.new ≡ met self.old }
        ensures counted { result ≡ Fault.Failed → failures.new ≡ failures.old + 1 }
        ensures no_memory { result ≡ Fault.NoMemory → self.new ≡ self.old }
        ensures uncounted { result ≡ Fault.NoMemory → failures.new ≡ failures.old }
        ensures limit { (result ≡ Fault.NoMemory) ↔ (failures.old ≡ 2 ^ 64 - 1) }
    {
        let fault = failures.fail();
        if fault == Fault::Failed && self.is_due() {
            self.calls = None;
        }
        fault
    }
}
