//! The lines of a node's commands that no answer of a schedule has, and how lines are written.

ghost use Rattle.std.specs.Prelude.{◌≡◌, ◌++◌, ◌<◌, ◌≤◌, IfOk, IsErrOf, OnErr, OnOk, codes};
ghost use Rattle.std.specs.Fmt.{decimal};
ghost use Rattle.adr_io.specs.Told.{Adds, AddsFront};
ghost use Rattle.adr_node.specs.Lines.{damaged_line, refusal_line};

use adr_answers::{push_number_behind, result_line};
use adr_call::Outcome;
use adr_io::{Fault, Sink};
use adr_token::push;
use adr_values::NoMemory;
use std::alloc::Global;

/// The line of a number behind some text.
pub(crate) fn number_line(alloc: Global, text: &[u8], number: u64) -> Result<Vec<u8>, NoMemory>
    ensures { IfOk result (λ bytes. bytes.items ≡ text.now ++ decimal number ++ codes "\n") }
{
    let mut out = Vec::new(alloc);
    push_number_behind(&mut out, text, number)?;
    push(&mut out, b"\n")?;
    Ok(out)
}

/// The line of damage at a place, in bytes.
#[tactic(auto, unfolding(crate::specs::Lines::damaged_line))]
pub(crate) fn damaged_line(alloc: Global, place: u64) -> Result<Vec<u8>, NoMemory>
    ensures { IfOk result (λ bytes. bytes.items ≡ damaged_line place) }
{
    number_line(alloc, b"damaged ", place)
}

/// The line of a refusal that has a number.
#[tactic(auto, unfolding(crate::specs::Lines::refusal_line))]
pub(crate) fn refusal_line(alloc: Global, outcome: &Outcome) -> Result<Vec<u8>, NoMemory>
    ensures { IfOk result (λ bytes. bytes.items ≡ refusal_line outcome.now) }
{
    result_line(alloc, outcome)
}

/// Writes what was made, if it could be.
pub(crate) fn write<K: Sink>(made: Result<Vec<u8>, NoMemory>, sink: &mut K) -> Result<(), Fault>
    ensures ok { OnOk result (IfOk made (λ bytes. Adds (K.written sink.old) (K.written sink.new) bytes.items)) }
    ensures made { OnOk result (OnErr made ⊥) }
    ensures front { OnErr result (IfOk made (λ bytes. AddsFront (K.written sink.old) (K.written sink.new) bytes.items)) }
    ensures unmade { OnErr made (sink.new ≡ sink.old) }
    ensures never_falls { K.faults sink.old ≤ K.faults sink.new }
    ensures failed { IsErrOf result Fault.Failed → K.faults sink.old < K.faults sink.new }
    ensures not_counted { OnOk result (K.faults sink.new ≡ K.faults sink.old) }
    ensures no_memory_counted { IsErrOf result Fault.NoMemory → K.faults sink.new ≡ K.faults sink.old }
{
    let bytes = made?;
    sink.write(bytes.as_slice())
}
