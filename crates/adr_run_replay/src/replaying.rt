//! Replaying the schedule that is read.

ghost use Rattle.std.specs.Prelude.{◌≡◌, ◌⊎◌, ◌<◌, ◌≤◌, ◌+◌, ℕ, List, [], OnOk, OnErr, IfSome, IsErrOf, drop, Some};
ghost use Rattle.adr_io.specs.Told.{Adds, AddsFront};
ghost use Rattle.adr_schedule.specs.Limits.{text_limit};
ghost use Rattle.adr_schedule.specs.Telling.{fault_line};
ghost use Rattle.adr_run_replay.specs.Outcome.{Gives, ended};
ghost use Rattle.adr_run_replay.specs.Shown.{AtEachShow};
ghost use Rattle.adr_run_replay.specs.Walked.{outcome};

use adr_io::{Fault, Sink, Source, read_at_most};
use adr_run_world::play;
use adr_schedule::{Failure, ScheduleFault, TEXT_LIMIT, fault_line, parse};
use std::alloc::Global;
use std::mem::forget;

/// The status after a write: this one, or that of its fault, 5 where it failed and 8 for want of memory.
pub fn ended(status: u8, written: Result<(), Fault>) -> u8
    ensures { result ≡ ended status written }
{
    match written {
        Ok(()) => status,
        Err(Fault::Failed) => 5,
        Err(Fault::NoMemory) => 8,
    }
}

/// Writes the line of a fault.
fn tell_fault<K: Sink>(alloc: Global, fault: ScheduleFault, sink: &mut K) -> Result<(), Fault>
    ensures ok { OnOk result (Adds (K.written sink.old) (K.written sink.new) (fault_line fault)) }
    ensures front { OnErr result (AddsFront (K.written sink.old) (K.written sink.new) (fault_line fault)) }
    ensures never_falls { K.faults sink.old ≤ K.faults sink.new }
    ensures failed { IsErrOf result Fault.Failed → K.faults sink.old < K.faults sink.new }
{
    let bytes = fault_line(alloc, fault)?;
    sink.write(bytes.as_slice())
}

/// Runs a text, or tells its fault: the status but for a write that fails, and how the writes went.
#[tactic(auto, unfolding(crate::specs::Walked::outcome))]
fn perform<K: Sink>(alloc: Global, text: &[u8], sink: &mut K) -> (u8, Result<(), Fault>)
    ensures status { OnOk result.1 (result.0 ≡ (outcome text.now).0) }
    ensures ok { OnOk result.1 (Adds (K.written sink.old) (K.written sink.new) (outcome text.now).1) }
    ensures front { OnErr result.1 (AddsFront (K.written sink.old) (K.written sink.new) (outcome text.now).1) }
    ensures statuses { (result.0 ≡ 0) ⊎ (result.0 ≡ 3) }
    ensures never_falls { K.faults sink.old ≤ K.faults sink.new }
    ensures failed { IsErrOf result.1 Fault.Failed → K.faults sink.old < K.faults sink.new }
{
    match parse(alloc, text) {
        Ok(events) => {
            let played = play(alloc, events.as_slice(), sink);
            // The process ends with the run, and the system takes its memory back whole.
            forget(events);
            (0, played)
        }
        Err(Failure::Refused(fault)) => (3, tell_fault(alloc, fault, sink)),
        Err(Failure::NoMemory) => (0, Err(Fault::NoMemory)),
    }
}

/// Reads a text, runs the schedule that it is, and writes the answers; or writes its fault. It answers the status: 0 done,
/// 3 a text that is no schedule, 4 a read that failed, 5 a write that failed, 8 want of memory.
pub fn replay<S: Source, K: Sink>(alloc: Global, source: &mut S, sink: &mut K) -> u8
    ensures written { (result ≡ 0) ⊎ (result ≡ 3)
        → IfSome (S.left source.old) (λ text. (given : List ℕ) × Gives text result given
        × Adds (K.written sink.old) (K.written sink.new) given) }
    ensures front { (result ≡ 5) ⊎ (result ≡ 8)
        → IfSome (S.left source.old) (λ text. (status : ℕ) × (given : List ℕ) × Gives text status given
        × AddsFront (K.written sink.old) (K.written sink.new) given) }
    ensures printed { result ≡ 0
        → IfSome (S.left source.old) (λ text. AtEachShow text (Adds (K.written sink.old) (K.written sink.new))) }
    ensures read { IfSome (S.left source.old) (λ before. (n : ℕ) × (n ≤ text_limit + 1)
        × (S.left source.new ≡ Some (drop n before))) }
    ensures read_whole { (result ≡ 0) ⊎ (result ≡ 3)
        → IfSome (S.left source.old) (λ text. S.left source.new ≡ Some (drop (text_limit + 1) text)) }
    ensures ended { result ≡ 0 → IfSome (S.left source.old) (λ text. S.left source.new ≡ Some []) }
    ensures read_fault { result ≡ 4 → S.faults source.old < S.faults source.new }
    ensures unwritten { result ≡ 4 → sink.new ≡ sink.old }
    ensures write_fault { result ≡ 5 → K.faults sink.old < K.faults sink.new }
    ensures statuses { (result ≡ 0) ⊎ ((result ≡ 3) ⊎ ((result ≡ 4) ⊎ ((result ≡ 5) ⊎ (result ≡ 8)))) }
    ensures source_faults { S.faults source.old ≤ S.faults source.new }
    ensures sink_faults { K.faults sink.old ≤ K.faults sink.new }
{
    let text = match read_at_most(alloc, source, TEXT_LIMIT + 1) {
        Ok(text) => text,
        Err(Fault::Failed) => return 4,
        Err(Fault::NoMemory) => return 8,
    };
    let (status, written) = perform(alloc, text.as_slice(), sink);
    ended(status, written)
}
