//! What clients write: containers, and descriptions of them.

ghost use Rattle.std.specs.Prelude.{◌≡◌, ◌≢◌, IfOk, []};
ghost use Rattle.adr_law_recorded.specs.Typed.{AreTypedValues, IsTypedValue};
ghost use Rattle.adr_model.specs.Given.{AreInOrder};
ghost use Rattle.adr_model.specs.Member.{Each};
ghost use Rattle.adr_test_logs.specs.Takes.{IsWrite};

use adr_call::Write;
use adr_update::root;
use adr_values::{Assignments, Guid, NoMemory, Text, Value};
use std::alloc::{AllocError, Global};

/// The class of a container, and the attribute that describes one.
const CONTAINER: u16 = 4;

const DESCRIPTION: u16 = 12;

/// The container that is described.
const DESCRIBED: u64 = 0x10;

/// A description of 256 bytes, which begins with a digit.
fn description(alloc: Global, digit: u8) -> Result<Value, NoMemory>
    ensures { IfOk result IsTypedValue }
{
    let tail = "x".repeat(alloc, 255)?;
    let text = Text::from_string(format!(in alloc; "{digit}{tail}")?);
    let _ = text.items();
    Ok(Value::Text(text))
}

/// Eight of them.
fn descriptions(alloc: Global) -> Result<Vec<Value>, NoMemory>
    ensures { IfOk result (λ values. Each IsTypedValue values.items) }
{
    let mut values = Vec::new(alloc);
    for digit in 0..8 {
        values.push(description(alloc, digit)?)?;
    }
    Ok(values)
}

/// These are what describes a container.
fn described(alloc: Global) -> Result<Assignments, NoMemory>
    ensures typed { IfOk result AreTypedValues }
    ensures in_order { IfOk result AreInOrder }
    ensures some { IfOk result (λ given. given ≢ []) }
{
    let mut given = Assignments::new(alloc);
    match given.add(DESCRIPTION, descriptions(alloc)?) {
        Ok(()) => Ok(given),
        Err(_) => Err(AllocError),
    }
}

/// What adds a container of a number under the root, with a name and the values of its attributes.
fn addition(number: u64, name: String, values: Assignments) -> Write
    requires typed { AreTypedValues values }
    requires in_order { AreInOrder values }
    ensures { IsWrite result }
{
    let text = Text::from_string(name);
    let _ = text.items();
    Write::Add {
        guid: Guid::from_u128(number.into()),
        class: CONTAINER,
        parent: root(),
        text,
        values,
    }
}

/// What adds the container #10 named "x".
fn plain(alloc: Global) -> Result<Write, NoMemory>
    ensures { IfOk result IsWrite }
{
    let name = String::from_str(alloc, "x")?;
    Ok(addition(DESCRIBED, name, Assignments::new(alloc)))
}

/// What describes it.
fn modification(alloc: Global) -> Result<Write, NoMemory>
    ensures { IfOk result IsWrite }
{
    Ok(Write::Modify {
        guid: Guid::from_u128(DESCRIBED.into()),
        values: described(alloc)?,
    })
}

/// What adds a described container of a number, by which it is named.
fn whole(alloc: Global, number: u64) -> Result<Write, NoMemory>
    ensures { IfOk result IsWrite }
{
    let name = format!(in alloc; "{number}")?;
    Ok(addition(number, name, described(alloc)?))
}

/// What a client does.
#[derive(Clone, Copy)]
pub enum Deed {
    /// It adds the container #10 named "x" under the root.
    Adds,
    /// It describes it, in eight texts of 256 bytes.
    Describes,
    /// It adds a container of this number so described, which is its name.
    AddsDescribed(u64),
}

/// What it writes.
pub fn write_of(alloc: Global, deed: Deed) -> Result<Write, NoMemory>
    ensures { IfOk result IsWrite }
{
    match deed {
        Deed::Adds => plain(alloc),
        Deed::Describes => modification(alloc),
        Deed::AddsDescribed(number) => whole(alloc, number),
    }
}
