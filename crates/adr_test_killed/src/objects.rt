//! The objects that are added, each by its number.

ghost use Rattle.std.specs.Prelude.{◌≡◌, ◌<◌, ◌^◌, ℕ, IfOk, Some};
ghost use Rattle.adr_test_killed.specs.Objects.{IsAddition, guid_of};

use adr_call::Write;
use adr_update::root;
use adr_values::{Assignments, Guid, NoMemory, Text};
use std::alloc::Global;
use uuid::Uuid;

/// The high half of the GUIDs of objects: "objects" and a zero.
const OBJECTS: u64 = 0x6f62_6a65_6374_7300;

/// The class of a container.
const CONTAINER: u16 = 4;

/// The GUID of a number.
fn guid_of(number: u64) -> Guid
    ensures { result ≡ guid_of number }
{
    Guid::from_bytes(Uuid::from_u64_pair(OBJECTS, number).into_bytes())
}

/// The number of a GUID, if it has one.
pub fn number_of(guid: Guid) -> Option<u64>
    ensures { (number : ℕ) → number < 2 ^ 64 → guid ≡ guid_of number → result ≡ Some number }
{
    let (high, number) = Uuid::from_bytes(*guid.as_bytes()).as_u64_pair();
    if high == OBJECTS { Some(number) } else { None }
}

/// What adds the object of a number.
pub fn addition(alloc: Global, number: u64) -> Result<Write, NoMemory>
    ensures { IfOk result (IsAddition number) }
{
    let text = Text::from_string(format!(in alloc; "o{number}")?);
    let _ = text.items();
    Ok(Write::Add {
        guid: guid_of(number),
        class: CONTAINER,
        parent: root(),
        text,
        values: Assignments::new(alloc),
    })
}
