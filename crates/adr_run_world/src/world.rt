//! The world of a run.

ghost use Rattle.std.specs.Prelude.{◌≡◌, ◌<◌, ◌≤◌, ◌⊎◌, ◌∷◌, true, IfOk, OnErr, OnOk, IsErrOf, flat_map};
ghost use Rattle.adr_io.specs.Told.{Adds, AddsFront};
ghost use Rattle.adr_law_recorded.specs.Typed.{IsTyped};
ghost use Rattle.adr_model.specs.Convergence.{AreAcknowledged, MayHappen, OwnIsInView, ShowAlike, ShowWhatIsVisible};
ghost use Rattle.adr_model.specs.Rings.{show_alike, told_of};
ghost use Rattle.adr_model.specs.Member.{Each};
ghost use Rattle.adr_model.specs.Sound.{IsWorldOfRun, WereTold};
ghost use Rattle.adr_model.specs.Step.{step};
ghost use Rattle.adr_model.specs.World.{empty_world, shown};
ghost use Rattle.adr_answers.specs.Line.{line};
ghost use Rattle.adr_answers.specs.Room.{MayWant};
ghost use Rattle.adr_run_world.specs.Counted.{counted};
ghost use Rattle.adr_run_world.specs.Door.{IsCompletedBy, IsLeftBy, IsShortBy, IsUndoneBy};
ghost use Rattle.adr_run_world.specs.Rung.{IsRungBy};

use crate::counting::Tally;
use crate::run::Run;
use adr_call::Event;
use adr_io::{Fault, Sink};
use adr_values::{NoMemory, Text};
use adr_view::Directory;
use std::alloc::Global;
use std::marker::Model;

/// The controllers of a run, with all that was written and sent. A contract sees it as the world of the definitions,
/// which is that of a run: sound until a line puts a database back as it was, and in order also behind such a line.
#[derive(Drop)]
pub struct World {
    run: Run,
}

impl Model for World {
    ghost use Rattle.adr_model.specs.World.{World as Defined};

    ghost Value = { Defined };

    ghost use Rattle.adr_run_world.specs.Run.{IsSoundRun, world_of};

    ghost view = { λ w. world_of w.run };

    ghost invariant = { λ w. IsSoundRun w.run };
}

impl World {
    /// A world without controllers, at time 0.
    pub fn new(alloc: Global) -> World
        ensures { result ≡ empty_world }
    {
        World {
            run: Run::new(alloc),
        }
    }

    /// Does what a line says, whatever its kind of those that the program does as yet, and writes its answers as they come:
    /// none to a `time`, those of each call to a pull or a cycle, and else one.
    pub fn step<K: Sink>(&mut self, alloc: Global, event: &Event, sink: &mut K) -> Result<(), Fault>
        requires may { MayHappen self.old event.now }
        requires typed { IsTyped event.now }
        ensures stepped { OnOk result (self.new ≡ (step self.old event.now).0) }
        ensures told { OnOk result (Adds (K.written sink.old) (K.written sink.new) (flat_map line (step self.old event.now).1)) }

        // With a fault a front of that is written, and what is written was done: so many turns of the line are done, and a
        // front of their lines is written. A pull is a turn of a cycle, and any other line is one turn. Where memory was
        // wanting the lines that are written are whole, and the world is as behind the turns whose lines are written, or
        // behind one more, some of whose lines are wanting. Of a start that wanted memory its sync may stand, and of such a
        // ring some of its pulls may be done, with nothing written. A write that failed was counted.
        ensures front { OnErr result (AddsFront (K.written sink.old) (K.written sink.new) (flat_map line (step self.old event.now).1)) }
        ensures err { OnErr result (IsLeftBy self.old event.now self.new (K.written sink.old) (K.written sink.new)) }
        ensures short { IsErrOf result Fault.NoMemory → IsShortBy self.old event.now self.new (K.written sink.old) (K.written sink.new) }

        // Where memory was wanting, and not in the sink, no answer is wanting of what was done: the world is as it was and
        // nothing is written. But of a start its sync may stand, and of a ring some of its pulls may be done; and of a cycle
        // the pulls are done whose answers are written.
        ensures undone { IsErrOf result Fault.NoMemory
            → IsUndoneBy self.old event.now self.new (K.written sink.old) (K.written sink.new) ⊎ MayWant K.keeps (K.faults sink.old) }
        ensures never_falls { K.faults sink.old ≤ K.faults sink.new }
        ensures failed { IsErrOf result Fault.Failed → K.faults sink.old < K.faults sink.new }

        // Wherever the run stands, the world is that of a run. While no database was put back as it was, each controller shows
        // the directory of the issued updates that it covers or holds, controllers that cover the same, and hold nothing
        // beyond, show the same, and whatever was acknowledged is in view.
        ensures sound { IsWorldOfRun self.new }
        ensures shown { self.new.clean ≡ true → ShowWhatIsVisible self.new }
        ensures equal { self.new.clean ≡ true → ShowAlike self.new }
        ensures acknowledged { OnOk result (self.new.clean ≡ true → AreAcknowledged self.old event.now (step self.old event.now).1 self.new) }
        ensures own { self.new.clean ≡ true → OwnIsInView self.new }

        // Each time that a controller has of an incarnation was told by a last reply of that one, at that time.
        ensures told_times { self.new.clean ≡ true → Each (λ r. WereTold self.new r.safe.store.vector r.safe.store.times) self.new.replicas }

        // And a cycle with nothing in the way ends with everything, or says that there is more.
        ensures completed { OnOk result (self.new.clean ≡ true → IsCompletedBy self.old event.now (step self.old event.now).1 self.new) }

        // And a ring that is answered ok says that all show the same, and have one vector, where there were rounds enough.
        ensures rung { OnOk result (self.old.clean ≡ true → IsRungBy self.old event.now (step self.old event.now).1) }
    {
        self.run.step(alloc, event, sink)?;
        Ok(())
    }

    /// Does what a line says, as `step`, and counts its answers in place of writing them.
    pub fn count(&mut self, alloc: Global, event: &Event, tally: &mut Tally) -> Result<(), NoMemory>
        requires may { MayHappen self.old event.now }
        requires typed { IsTyped event.now }
        ensures stepped { OnOk result (self.new ≡ (step self.old event.now).0) }
        ensures counted { OnOk result (tally.new ≡ counted tally.old (step self.old event.now).1) }
        ensures sound { IsWorldOfRun self.new }
    {
        self.run.count(alloc, event, tally)
    }

    /// What a controller shows, where it is up.
    pub fn shown(&self, alloc: Global, name: &Text) -> Result<Option<Directory>, NoMemory>
        ensures { IfOk result (λ told. told ≡ told_of self.now (shown self.now) name.now) }
    {
        self.run.shown(alloc, name)
    }

    /// Whether all of these show what the first shows, where those that are not up show nothing.
    pub fn show_alike(&self, alloc: Global, first: &Text, others: &[Text]) -> Result<bool, NoMemory>
        ensures { IfOk result (λ alike. alike ≡ show_alike self.now (first.now ∷ others.now)) }
    {
        self.run.show_alike(alloc, first, others)
    }
}
