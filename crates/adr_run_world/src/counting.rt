//! Lines whose answers are counted, and not written.

ghost use Rattle.std.specs.Prelude.{◌≡◌, OnOk};
ghost use Rattle.adr_law_recorded.specs.Typed.{IsTyped};
ghost use Rattle.adr_model.specs.Convergence.{MayHappen};
ghost use Rattle.adr_model.specs.Step.{step};
ghost use Rattle.adr_run_world.specs.Counted.{counted, with_outcome};
ghost use Rattle.adr_run_world.specs.Run.{IsSoundRun, world_of};

use crate::pulling::REPLY_LIMIT;
use crate::run::Run;
use adr_call::{Answer, Event, Outcome};
use adr_values::NoMemory;
use std::alloc::{AllocError, Global};

/// What the answers to some lines come to.
#[derive(Clone, Copy)]
pub struct Tally {
    /// How many of them are refusals.
    pub refused: u64,
    /// How many tombstones were collected.
    pub removed: u64,
}

impl Tally {
    /// Counts one more answer. A number beyond 64 bits wants memory that isn't there.
    fn add(&mut self, outcome: &Outcome) -> Result<(), NoMemory>
        ensures { OnOk result (self.new ≡ with_outcome self.old outcome.now) }
    {
        match outcome {
            Outcome::Refused { .. } => {
                self.refused = self.refused.checked_add(1).ok_or(AllocError)?;
            }
            Outcome::Removed(removed) => {
                self.removed = self
                    .removed
                    .checked_add(u64::from(*removed))
                    .ok_or(AllocError)?;
            }
            _ => {}
        }
        Ok(())
    }

    /// Counts some answers more.
    fn add_all(&mut self, answers: &[Answer]) -> Result<(), NoMemory>
        ensures { OnOk result (self.new ≡ counted self.old answers.now) }
    {
        for answer in answers {
            self.add(&answer.outcome)?;
        }
        Ok(())
    }
}

impl Run {
    /// Does what a line says, turn by turn, and counts its answers.
    pub fn count(&mut self, alloc: Global, event: &Event, tally: &mut Tally) -> Result<(), NoMemory>
        requires sound { IsSoundRun self.old }
        requires may { MayHappen (world_of self.old) event.now }
        requires typed { IsTyped event.now }
        ensures stepped { OnOk result (world_of self.new ≡ (step (world_of self.old) event.now).0) }
        ensures counted { OnOk result (tally.new ≡ counted tally.old (step (world_of self.old) event.now).1) }
        ensures sound { IsSoundRun self.new }
    {
        for turn in 0..=REPLY_LIMIT {
            let (answers, goes_on) = self.turn(alloc, event, turn)?;
            tally.add_all(answers.as_slice())?;
            if !goes_on {
                return Ok(());
            }
        }
        unreachable!()
    }
}
