//! Running events, whose answers are written as they come.

ghost use Rattle.std.specs.Prelude.{◌<◌, ◌≤◌, All, OnOk, OnErr, IsErrOf};
ghost use Rattle.adr_io.specs.Told.{Adds, AddsFront};
ghost use Rattle.adr_law_recorded.specs.Typed.{AreTyped};
ghost use Rattle.adr_model.specs.Convergence.{MayAllHappen};
ghost use Rattle.adr_model.specs.World.{empty_world};
ghost use Rattle.adr_run_world.specs.Played.{output_from};

use crate::world::World;
use adr_call::Event;
use adr_io::{Fault, Sink};
use std::alloc::Global;
use std::mem::forget;

/// Runs the events from where the world stands on, and writes the answers to each as they come.
fn play_on<K: Sink>(
    alloc: Global,
    world: &mut World,
    events: &[Event],
    sink: &mut K,
) -> Result<(), Fault>
    requires may { MayAllHappen world.old events.now }
    requires typed { AreTyped events.now }
    ensures ok { OnOk result (Adds (K.written sink.old) (K.written sink.new) (output_from world.old events.now)) }
    ensures front { OnErr result (AddsFront (K.written sink.old) (K.written sink.new) (output_from world.old events.now)) }
    ensures never_falls { K.faults sink.old ≤ K.faults sink.new }
    ensures failed { IsErrOf result Fault.Failed → K.faults sink.old < K.faults sink.new }
{
    for event in events {
        world.step(alloc, event, sink)?;
    }
    Ok(())
}

/// Runs the events from an empty world on.
pub fn play<K: Sink>(alloc: Global, events: &[Event], sink: &mut K) -> Result<(), Fault>
    requires may { MayAllHappen empty_world events.now }
    requires typed { AreTyped events.now }
    ensures ok { OnOk result (Adds (K.written sink.old) (K.written sink.new) (output_from empty_world events.now)) }
    ensures front { OnErr result (AddsFront (K.written sink.old) (K.written sink.new) (output_from empty_world events.now)) }
    ensures never_falls { K.faults sink.old ≤ K.faults sink.new }
    ensures failed { IsErrOf result Fault.Failed → K.faults sink.old < K.faults sink.new }
{
    let mut world = World::new(alloc);
    let played = play_on(alloc, &mut world, events, sink);
    // The process ends with the run, and the system takes its memory back whole.
    forget(world);
    played
}
