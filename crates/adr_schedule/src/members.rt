//! The names of a ring's line.

ghost use Rattle.std.specs.Prelude.{◌≡◌, Some, IfErr, OnOk, map};
ghost use Rattle.adr_token.specs.Gives.{Answers, Stops};
ghost use Rattle.adr_schedule.specs.Members.{is_member, names_at, with_name};

use crate::limits::CONTROLLER_LIMIT;
use adr_call::Names;
use adr_token::{Bad, Line, Stop};
use adr_values::{Failure, Text};
use std::alloc::Global;

/// Whether a name is among these.
fn is_member(names: &[Text], name: &Text) -> bool
    ensures { result ≡ is_member names.now name.now }
{
    names.iter().any(|member| member.items() == name.items())
}

/// One more name. That it is there already, or that there are as many as there may be, is outside the grammar.
fn join(first: &Text, names: &mut Vec<Text>, name: Text) -> Result<(), Stop>
    ensures joined { OnOk result (with_name first.now names.old.items name ≡ Some names.new.items) }
    ensures stop { IfErr result (λ stop. Stops stop (with_name first.now names.old.items name)) }
{
    if first.items() == name.items()
        || is_member(names.as_slice(), &name)
        || names.len() + 1 >= CONTROLLER_LIMIT
    {
        return Err(Failure::Refused(Bad));
    }
    match names.push(name) {
        Ok(()) => Ok(()),
        Err(_) => Err(Failure::NoMemory),
    }
}

/// The names behind a first one, to the end of the line.
#[tactic(auto, unfolding(crate::specs::Members::names_at))]
pub fn members(alloc: Global, first: &Text, line: &mut Line<'_>) -> Result<Names, Stop>
    ensures { Answers result (names_at first.now line.old) }
{
    let mut names = Vec::new(alloc);
    'members: while !line.is_ended() {
        let name = line.name(alloc)?;
        join(first, &mut names, name)?;
    }
    Ok(Names::of(names))
}
