//! The line of what came of a request.

ghost use Rattle.std.specs.Prelude.{◌≡◌, ◌⊎◌, ◌<◌, ◌≤◌, IfErr, IfOk, IsErrOf, OnErr, OnOk, codes};
ghost use Rattle.adr_io.specs.Told.{Adds, AddsFront};
ghost use Rattle.adr_answers.specs.Line.{line as defined};
ghost use Rattle.adr_pull.specs.Fetch.{line_of};

use crate::came::Came;
use crate::fault::PullFault;
use adr_answers::{Heading, NoMemory, line, result_line};
use adr_call::Outcome;
use adr_controller::Taken;
use adr_io::{Fault, Sink};
use adr_values::Text;
use std::alloc::Global;

/// The line of a reply that was taken.
fn delivered(alloc: Global, name: &Text, taken: Taken) -> Result<Vec<u8>, NoMemory>
    ensures { IfOk result (λ bytes.
        bytes.items
        ≡ defined (record {
          verb = codes "deliver";
          name = name.now;
          outcome = Outcome.Took taken.items taken.wrote taken.usn;
        })) }
{
    let heading = Heading::new(alloc, "deliver", name)?;
    let answer = heading.of(Outcome::Took {
        items: taken.items,
        wrote: taken.wrote,
        usn: taken.usn,
    });
    line(alloc, &answer)
}

fn line_of(alloc: Global, name: &Text, came: &Came) -> Result<Vec<u8>, NoMemory>
    ensures { IfOk result (λ bytes. bytes.items ≡ line_of name.now came.now) }
{
    match came {
        Came::Took { taken, .. } => delivered(alloc, name, *taken),
        Came::Declined(outcome) => result_line(alloc, outcome),
    }
}

/// Writes the line of what came of a request.
pub(crate) fn tell<S: Sink>(
    alloc: Global,
    name: &Text,
    came: &Came,
    sink: &mut S,
) -> Result<(), PullFault>
    ensures told { OnOk result (Adds (S.written sink.old) (S.written sink.new) (line_of name.now came.now)) }
    ensures front { OnErr result (AddsFront (S.written sink.old) (S.written sink.new) (line_of name.now came.now)) }
    ensures only { IfErr result (λ fault. (fault ≡ PullFault.Write) ⊎ (fault ≡ PullFault.NoMemory)) }
    ensures never_falls { S.faults sink.old ≤ S.faults sink.new }
    ensures write { IsErrOf result PullFault.Write → S.faults sink.old < S.faults sink.new }
{
    let bytes = line_of(alloc, name, came)?;
    match sink.write(&bytes) {
        Ok(()) => Ok(()),
        Err(Fault::Failed) => Err(PullFault::Write),
        Err(Fault::NoMemory) => Err(PullFault::NoMemory),
    }
}
