//! Rings: rounds of whole cycles, behind which controllers are compared.

ghost use Rattle.std.specs.Prelude.{◌≡◌, ◌∷◌, [], IfOk, OnErr};
ghost use Rattle.adr_model.specs.Convergence.{IsAmidCycles};
ghost use Rattle.adr_model.specs.Rings.{cycles, is_fine, last_of, ring, rings, times, unfinished};
ghost use Rattle.adr_run_world.specs.Rung.{IsAmidPulls, whole_cycle};
ghost use Rattle.adr_run_world.specs.Run.{IsSoundRun, world_of};

use crate::lists::put;
use crate::pulling::REPLY_LIMIT;
use crate::run::Run;
use adr_answers::Heading;
use adr_call::{Answer, Names, Outcome};
use adr_values::{NoMemory, Text};
use std::alloc::Global;

/// Whether an answer of a pull lets it go on.
fn is_fine(outcome: &Outcome) -> bool
    ensures { result ≡ is_fine outcome.now }
{
    matches!(
        outcome,
        Outcome::Ok | Outcome::Served { .. } | Outcome::Took { .. }
    )
}

/// The first answer of a pull that isn't ok, if there is one.
fn unfinished(answers: Vec<Answer>) -> Option<Answer>
    ensures { result ≡ unfinished answers.items }
{
    for answer in answers {
        if !is_fine(&answer.outcome) {
            return Some(answer);
        }
    }
    None
}

/// The last of some controllers.
fn last_of<'a>(first: &'a Text, others: &'a [Text]) -> &'a Text
    ensures { result.now ≡ last_of first.now others.now }
{
    match others.last() {
        Some(last) => last,
        None => first,
    }
}

impl Run {
    /// A cycle, and why it isn't whole, if it isn't. Answers that are ok are let go.
    fn whole_cycle(
        &mut self,
        alloc: Global,
        dest: &Text,
        source: &Text,
        max: u32,
    ) -> Result<Option<Answer>, NoMemory>
        requires { IsSoundRun self.old }
        ensures cycled { IfOk result (λ left.
            whole_cycle (world_of self.old) dest.now source.now max ≡ (world_of self.new, left)) }
        ensures err { OnErr result (IsAmidPulls (world_of self.old) dest.now source.now max (world_of self.new)) }
        ensures sound { IsSoundRun self.new }
    {
        let heading = Heading::new(alloc, "cycle", dest)?;
        'pulls: for turn in 0..REPLY_LIMIT {
            let (answers, goes_on) = self.pull(alloc, dest, source, max)?;
            if !goes_on {
                return Ok(unfinished(answers));
            }
        }
        Ok(Some(heading.of(Outcome::More)))
    }

    /// A round: the first pulls a cycle from the last, and then each from the one before it. A cycle that isn't whole ends it.
    fn round(
        &mut self,
        alloc: Global,
        first: &Text,
        others: &[Text],
        max: u32,
    ) -> Result<Option<Answer>, NoMemory>
        requires { IsSoundRun self.old }
        ensures cycled { IfOk result (λ left.
            cycles (ring first.now others.now) max (world_of self.old) ≡ (world_of self.new, left)) }
        ensures err { OnErr result (IsAmidCycles (ring first.now others.now) max (world_of self.old) (world_of self.new)) }
        ensures sound { IsSoundRun self.new }
    {
        let last = last_of(first, others);
        if let Some(left) = self.whole_cycle(alloc, first, last, max)? {
            return Ok(Some(left));
        }
        let mut before = first;
        for name in others {
            if let Some(left) = self.whole_cycle(alloc, name, before, max)? {
                return Ok(Some(left));
            }
            before = name;
        }
        Ok(None)
    }

    /// So many rounds, up to a cycle that isn't whole.
    fn rounds(
        &mut self,
        alloc: Global,
        first: &Text,
        others: &[Text],
        rounds: u32,
        max: u32,
    ) -> Result<Option<Answer>, NoMemory>
        requires { IsSoundRun self.old }
        ensures cycled { IfOk result (λ left.
            cycles (times rounds (ring first.now others.now)) max (world_of self.old) ≡ (world_of self.new, left)) }
        ensures err { OnErr result (IsAmidCycles (times rounds (ring first.now others.now)) max (world_of self.old) (world_of self.new)) }
        ensures sound { IsSoundRun self.new }
    {
        'rounds: for done in 0..rounds {
            if let Some(left) = self.round(alloc, first, others, max)? {
                return Ok(Some(left));
            }
        }
        Ok(None)
    }

    /// What a ring is answered: that of a cycle that isn't whole, or whether all are alike.
    fn rung(
        &mut self,
        alloc: Global,
        first: &Text,
        others: &[Text],
        rounds: u32,
        max: u32,
    ) -> Result<Answer, NoMemory>
        requires { IsSoundRun self.old }
        ensures rung { IfOk result (λ answer.
            rings (world_of self.old) first.now others.now rounds max ≡ (world_of self.new, answer ∷ [])) }
        ensures err { OnErr result (IsAmidCycles (times rounds (ring first.now others.now)) max (world_of self.old) (world_of self.new)) }
        ensures sound { IsSoundRun self.new }
    {
        let heading = Heading::new(alloc, "ring", first)?;
        if let Some(left) = self.rounds(alloc, first, others, rounds, max)? {
            return Ok(left);
        }
        let directories = self.show_alike(alloc, first, others)?;
        let vectors = self.vectors_alike(alloc, first, others)?;
        Ok(heading.of(Outcome::Compared {
            rounds,
            directories,
            vectors,
        }))
    }

    /// A ring. There is room for its answer before anything is done.
    pub fn ring(
        &mut self,
        alloc: Global,
        first: &Text,
        others: &Names,
        rounds: u32,
        max: u32,
    ) -> Result<Vec<Answer>, NoMemory>
        requires { IsSoundRun self.old }
        ensures rung { IfOk result (λ answers.
            rings (world_of self.old) first.now others.now rounds max ≡ (world_of self.new, answers.items)) }
        ensures err { OnErr result (IsAmidCycles (times rounds (ring first.now others.now)) max (world_of self.old) (world_of self.new)) }
        ensures sound { IsSoundRun self.new }
    {
        let mut answers = Vec::new(alloc);
        answers.reserve(1)?;
        let answer = self.rung(alloc, first, others.items(), rounds, max)?;
        put(&mut answers, answer);
        Ok(answers)
    }
}
