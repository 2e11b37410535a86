//! The sets of a line.

ghost use Rattle.std.specs.Prelude.{◌≡◌, ◌<◌, Some, IfErr, OnOk};
ghost use Rattle.adr_token.specs.Gives.{Answers, Stops};
ghost use Rattle.adr_schedule.specs.Sets.{sets_at, with_set};

use adr_token::{Bad, Line, Stop};
use adr_values::{Assignments, Failure, Value};
use std::alloc::Global;

/// Gives an attribute its values. That it has values already is outside the grammar.
fn give(given: &mut Assignments, attr: u16, values: Vec<Value>) -> Result<(), Stop>
    ensures given { OnOk result (with_set given.old (attr, values.items) ≡ Some given.new) }
    ensures stop { IfErr result (λ stop. Stops stop (with_set given.old (attr, values.items))) }
{
    match given.add(attr, values) {
        Ok(()) => Ok(()),
        Err(Failure::Refused(_)) => Err(Failure::Refused(Bad)),
        Err(Failure::NoMemory) => Err(Failure::NoMemory),
    }
}

/// The values that the sets give, to the end of the line.
#[tactic(auto, unfolding(crate::specs::Sets::sets_at))]
pub fn sets(alloc: Global, line: &mut Line<'_>) -> Result<Assignments, Stop>
    ensures { Answers result (sets_at line.old) }
{
    let mut given = Assignments::new(alloc);
    'sets: while !line.is_ended() {
        let (attr, values) = line.set(alloc)?;
        give(&mut given, attr, values)?;
    }
    Ok(given)
}
