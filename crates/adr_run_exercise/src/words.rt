//! Names and identifiers of the schedule.

ghost use Rattle.std.specs.Prelude.{◌≡◌, ◌<◌, ◌^◌, IfOk};
ghost use Rattle.adr_run_exercise.specs.Generated.{controller, group, identifier, numbered, person, root};

use adr_values::{Guid, NoMemory, Text};
use std::alloc::Global;

/// The name of a controller: 0 is A, 1 is B, 2 is C, and any other number is D.
#[tactic(auto, unfolding(crate::specs::Generated::controller))]
pub fn controller(alloc: Global, number: u64) -> Result<Text, NoMemory>
    ensures { IfOk result (λ name. name ≡ controller number) }
{
    let name = if number == 0 {
        "A"
    } else if number == 1 {
        "B"
    } else if number == 2 {
        "C"
    } else {
        "D"
    };
    Text::from_str(alloc, name)
}

/// The identifier of a number.
#[tactic(auto, unfolding(crate::specs::Generated::identifier))]
pub fn identifier(number: u128) -> Guid
    ensures { result ≡ identifier number }
{
    Guid::from_u128(number)
}

/// The identifier of the root.
pub fn root() -> Guid
    ensures { result ≡ root }
{
    identifier(1)
}

/// The identifier of a group.
pub fn group(g: u64) -> Guid
    requires { g < 10 }
    ensures { result ≡ group g }
{
    identifier(0x100 + u128::from(g))
}

/// The identifier of a person.
pub fn person(k: u128) -> Guid
    requires { k < 2 ^ 72 }
    ensures { result ≡ person k }
{
    identifier(0x1000 + k)
}

/// A word with a number behind it.
#[tactic(auto, unfolding(crate::specs::Generated::numbered))]
pub fn numbered(alloc: Global, word: &str, number: u128) -> Result<Text, NoMemory>
    ensures { IfOk result (λ text. text ≡ numbered word.now number) }
{
    Ok(Text::from_string(format!(in alloc; "{word}{number}")?))
}
