//! A generator of pseudo-random numbers.

ghost use Rattle.std.specs.Prelude.{◌≡◌, ◌<◌};
ghost use Rattle.adr_run_exercise.specs.Generated.{drawn, next_state};

use std::marker::Model;

/// A linear congruential generator, by its state (Knuth's MMIX generator, of 64 bits).
#[derive(Drop)]
pub struct Generator {
    x: u64,
}

impl Model for Generator {
    ghost use Rattle.std.specs.Prelude.{ℕ};

    ghost Value = { ℕ };

    ghost view = { λ g. g.x };
}

impl Generator {
    pub fn from_seed(seed: u64) -> Generator
        ensures { result ≡ seed }
    {
        Generator { x: seed }
    }

    /// The next number below a bound, of the state's upper half.
    #[tactic(auto, unfolding(crate::specs::Generated::drawn))]
    pub fn below(&mut self, bound: u64) -> u64
        requires { 0 < bound }
        ensures state { self.new ≡ next_state self.old }
        ensures drawn { result ≡ drawn self.new bound }
        ensures below { result < bound }
    {
        self.x = next_state(self.x);
        (self.x >> 33) % bound
    }
}

#[tactic(auto, unfolding(crate::specs::Generated::next_state))]
fn next_state(x: u64) -> u64
    ensures { result ≡ next_state x }
{
    x.wrapping_mul(6_364_136_223_846_793_005)
        .wrapping_add(1_442_695_040_888_963_407)
}
