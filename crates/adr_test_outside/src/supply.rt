//! Values that are given one by one.

ghost use Rattle.std.specs.Prelude.{◌≡◌, ◌≢◌, ◌⊎◌, ◌≤◌, [], ◌∷◌, None, Some, IsNone, IfNone, IfSome, length, drop};
ghost use Rattle.adr_test_outside.specs.Memory.{Supply as Left, Gives};
ghost use Rattle.adr_test_io.specs.Memory.{one_less};

use adr_io::{Failures, Fault};
use adr_test_io::Plan;
use std::marker::Model;

/// Values, how many of them were given, which call fails, and how many have failed.
#[derive(Drop)]
pub struct Supply<T> {
    items: Vec<T>,
    given: usize,
    plan: Plan,
    failures: Failures,
}

impl<T> Model for Supply<T> {
    ghost Value = { Left T };

    ghost view = { λ s. record { left = drop s.given s.items.items; plan = s.plan; faults = s.failures } };

    ghost invariant = { λ s. s.given ≤ length s.items.items };
}

impl<T: Copy> Supply<T> {
    /// These values. Once there are no more, a call fails.
    pub fn new(items: Vec<T>) -> Supply<T>
        ensures { result ≡ record { left = items.items; plan = None; faults = 0 } }
    {
        Supply {
            items,
            given: 0,
            plan: Plan::none(),
            failures: Failures::new(),
        }
    }

    /// Lets so many calls pass, and fails the next.
    pub fn fail_after(&mut self, calls: u32)
        ensures { self.new ≡ record self.old { plan = Some calls } }
    {
        self.plan = Plan::after(calls);
    }

    /// The value that the next call gives, if that doesn't fail.
    fn next(&self) -> Option<T>
        ensures due { (self.now.plan ≡ Some 0) ⊎ (self.now.left ≡ []) → IsNone result }
        ensures none { IfNone result ((self.now.plan ≡ Some 0) ⊎ (self.now.left ≡ [])) }
        ensures first { IfSome result (λ item. self.now.left ≡ item ∷ drop 1 self.now.left) }
    {
        if self.plan.is_due() {
            return None;
        }
        self.items.get(self.given).copied()
    }

    /// Counts a call that passes.
    fn pass(&mut self)
        requires { self.old.left ≢ [] }
        ensures { self.new ≡ record self.old { left = drop 1 self.old.left; plan = one_less self.old.plan } }
    {
        self.given += 1;
        self.plan.pass();
    }

    /// The next value.
    pub fn give(&mut self) -> Result<T, Fault>
        ensures { Gives self.old result self.new }
    {
        match self.next() {
            Some(item) => {
                self.pass();
                Ok(item)
            }
            None => Err(self.plan.fail(&mut self.failures)),
        }
    }
}
