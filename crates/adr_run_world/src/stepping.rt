//! What each line does, by its kind.

ghost use Rattle.std.specs.Prelude.{◌≡◌, ◌<◌, ◌≤◌, ◌⊎◌, IfOk, OnErr, OnOk, IsErrOf, flat_map};
ghost use Rattle.adr_call.specs.Verbs.{name_of, verb_of, word_of};
ghost use Rattle.adr_io.specs.Told.{Adds, AddsFront};
ghost use Rattle.adr_law_recorded.specs.Typed.{IsTyped};
ghost use Rattle.adr_model.specs.Convergence.{MayHappen};
ghost use Rattle.adr_model.specs.Step.{comes, makes, meets, step, told, uses};
ghost use Rattle.adr_model.specs.World.{of_made, replica_at, stays};
ghost use Rattle.adr_call.specs.declared.event.Event.TheVariants.{Binds, Comes, Goes, Meets, Uses};
ghost use Rattle.adr_answers.specs.Line.{line};
ghost use Rattle.adr_answers.specs.Room.{MayWant};
ghost use Rattle.adr_answers.specs.Alone.{HasOneAnswer};
ghost use Rattle.adr_run_world.specs.Door.{IsLeftBy, IsShortBy, IsUndoneBy};
ghost use Rattle.adr_run_world.specs.Pulls.{IsTurn};
ghost use Rattle.adr_run_world.specs.Run.{IsSoundRun, IsTidy, world_of};
ghost use Rattle.adr_run_world.specs.Short.{IsCutShort};

use crate::lists::put;
use crate::pulling::REPLY_LIMIT;
use crate::room::room_for;
use crate::run::Run;
use adr_answers::{Heading, name_of, tell};
use adr_call::{Answer, Coming, Event, Exchange, Made, Meeting, Outcome, Use};
use adr_io::{Fault, Sink};
use adr_run_replica::Revival;
use adr_values::{Guid, NoMemory, Text};
use std::alloc::Global;

impl Run {
    /// Does what a line says, turn by turn, and writes the answers to a turn before the next. The room of their lines is
    /// made before the turn.
    pub fn step<K: Sink>(&mut self, alloc: Global, event: &Event, sink: &mut K) -> Result<(), Fault>
        requires sound { IsSoundRun self.old }
        requires may { MayHappen (world_of self.old) event.now }
        requires typed { IsTyped event.now }
        ensures stepped { OnOk result (world_of self.new ≡ (step (world_of self.old) event.now).0) }
        ensures told { OnOk result (Adds (K.written sink.old) (K.written sink.new) (flat_map line (step (world_of self.old) event.now).1)) }
        ensures front { OnErr result (AddsFront (K.written sink.old) (K.written sink.new) (flat_map line (step (world_of self.old) event.now).1)) }
        ensures err { OnErr result (IsLeftBy (world_of self.old) event.now (world_of self.new) (K.written sink.old) (K.written sink.new)) }
        ensures short { IsErrOf result Fault.NoMemory → IsShortBy (world_of self.old) event.now (world_of self.new) (K.written sink.old) (K.written sink.new) }
        ensures undone { IsErrOf result Fault.NoMemory
            → IsUndoneBy (world_of self.old) event.now (world_of self.new) (K.written sink.old) (K.written sink.new) ⊎ MayWant K.keeps (K.faults sink.old) }
        ensures never_falls { K.faults sink.old ≤ K.faults sink.new }
        ensures failed { IsErrOf result Fault.Failed → K.faults sink.old < K.faults sink.new }
        ensures sound { IsSoundRun self.new }
    {
        for turn in 0..=REPLY_LIMIT {
            let mut room = room_for(alloc, event)?;
            let (answers, goes_on) = self.turn(alloc, event, turn)?;
            tell(&mut room, answers.as_slice(), sink)?;
            if !goes_on {
                return Ok(());
            }
        }
        unreachable!()
    }

    /// A turn of a line, by its number from 0: its answers, at most three, and whether the line goes on.
    pub fn turn(
        &mut self,
        alloc: Global,
        event: &Event,
        turn: u32,
    ) -> Result<(Vec<Answer>, bool), NoMemory>
        requires sound { IsSoundRun self.old }
        requires may { MayHappen (world_of self.old) event.now }
        requires typed { IsTyped event.now }
        ensures turned { IfOk result (λ told.
            IsTurn turn (world_of self.old) event.now (world_of self.new, told.0.items, told.1)) }
        ensures err { OnErr result (IsCutShort (world_of self.old) event.now (world_of self.new)) }
        ensures tidy { IsTidy self.new }
    {
        match event {
            Event::Goes { name, what } => self.goes(alloc, name, what, turn),
            Event::Time { now } => {
                self.time = *now;
                Ok((Vec::new(alloc), false))
            }
            _ => Ok((self.step_alone(alloc, event)?, false)),
        }
    }

    /// A turn of pulls, by its number from 0.
    fn goes(
        &mut self,
        alloc: Global,
        name: &Text,
        what: &Exchange,
        turn: u32,
    ) -> Result<(Vec<Answer>, bool), NoMemory>
        requires sound { IsSoundRun self.old }
        ensures turned { IfOk result (λ told.
            IsTurn turn (world_of self.old) (Goes name.now what.now) (world_of self.new, told.0.items, told.1)) }
        ensures err { OnErr result (IsCutShort (world_of self.old) (Goes name.now what.now) (world_of self.new)) }
        ensures tidy { IsTidy self.new }
    {
        match what {
            Exchange::Pull { source, max } => {
                let (answers, _) = self.pull(alloc, name, source, *max)?;
                Ok((answers, false))
            }
            Exchange::Cycle { source, max } => self.cycle_turn(alloc, name, source, *max, turn),
            Exchange::Ring {
                others,
                rounds,
                max,
            } => Ok((self.ring(alloc, name, others, *rounds, *max)?, false)),
        }
    }

    /// A line that has one answer. There is room for it, and its heading is made, before anything is done: then nothing fails
    /// behind the change.
    fn step_alone(&mut self, alloc: Global, event: &Event) -> Result<Vec<Answer>, NoMemory>
        requires sound { IsSoundRun self.old }
        requires alone { HasOneAnswer event.now }
        requires may { MayHappen (world_of self.old) event.now }
        requires typed { IsTyped event.now }
        ensures stepped { IfOk result (λ answers.
            step (world_of self.old) event.now ≡ (world_of self.new, answers.items)) }
        ensures err { OnErr result (IsCutShort (world_of self.old) event.now (world_of self.new)) }
        ensures tidy { IsTidy self.new }
    {
        let mut answers = Vec::new(alloc);
        answers.reserve(1)?;
        let heading = Heading::new(alloc, event.verb().word(), name_of(event))?;
        let outcome = self.outcome(alloc, event)?;
        put(&mut answers, heading.of(outcome));
        Ok(answers)
    }

    /// What a line is answered that has one answer.
    fn outcome(&mut self, alloc: Global, event: &Event) -> Result<Outcome, NoMemory>
        requires sound { IsSoundRun self.old }
        requires alone { HasOneAnswer event.now }
        requires may { MayHappen (world_of self.old) event.now }
        requires typed { IsTyped event.now }
        ensures stepped { IfOk result (λ outcome.
            step (world_of self.old) event.now ≡ told (word_of (verb_of event.now)) (name_of event.now) (world_of self.new, outcome)) }
        ensures err { OnErr result (IsCutShort (world_of self.old) event.now (world_of self.new)) }
        ensures tidy { IsTidy self.new }
    {
        match event {
            Event::Comes { name, inv, how } => self.comes(alloc, name, *inv, how),
            Event::Calls { name, what } => self.called(alloc, name, what),
            Event::Uses { name, what, bound } => self.uses(alloc, name, what, bound),
            Event::Binds { name, what, bound } => self.makes(alloc, name, what, bound),
            Event::Asks { name, what } => self.reported(alloc, name, *what),
            Event::Meets { name, what } => self.meets(name, *what),
            Event::Time { .. } | Event::Goes { .. } => unreachable!(),
        }
    }

    /// What is answered where a controller comes to be, or comes back.
    fn comes(
        &mut self,
        alloc: Global,
        name: &Text,
        inv: Guid,
        how: &Coming,
    ) -> Result<Outcome, NoMemory>
        requires tidy { IsTidy self.old }
        requires may { MayHappen (world_of self.old) (Comes name.now inv how.now) }
        requires typed { IsTyped (Comes name.now inv how.now) }
        ensures done { IfOk result (λ outcome. comes (world_of self.old) name.now inv how.now ≡ (world_of self.new, outcome)) }
        ensures err { OnErr result (world_of self.new ≡ world_of self.old) }
        ensures tidy { IsTidy self.new }
    {
        match how {
            Coming::Fresh { dsa } => self.controller(alloc, name, *dsa, inv),
            Coming::Installed { dsa, image } => self.install(alloc, name, *dsa, image, inv),
            Coming::Restored { image } => self.restore(alloc, name, image, inv),
        }
    }

    /// What a controller is answered that uses what is bound to a name.
    fn uses(
        &mut self,
        alloc: Global,
        name: &Text,
        what: &Use,
        bound: &Text,
    ) -> Result<Outcome, NoMemory>
        requires tidy { IsTidy self.old }
        requires typed { IsTyped (Uses name.now what.now bound.now) }
        ensures done { IfOk result (λ outcome. uses (world_of self.old) name.now what.now bound.now ≡ (world_of self.new, outcome)) }
        ensures err { OnErr result (world_of self.new ≡ world_of self.old) }
        ensures tidy { IsTidy self.new }
    {
        match what {
            Use::Deliver => self.take_bound(alloc, name, bound),
            Use::Revive { guid, parent, text } => {
                let revival = Revival {
                    guid: *guid,
                    parent: *parent,
                    text,
                };
                self.revive(alloc, name, bound, &revival)
            }
            Use::Rollback => self.put_back(alloc, name, bound),
        }
    }

    /// What a controller is answered that makes what is bound to a name.
    fn makes(
        &mut self,
        alloc: Global,
        name: &Text,
        what: &Made,
        bound: &Text,
    ) -> Result<Outcome, NoMemory>
        requires tidy { IsTidy self.old }
        requires may { MayHappen (world_of self.old) (Binds name.now what.now bound.now) }
        requires typed { IsTyped (Binds name.now what.now bound.now) }
        ensures done { IfOk result (λ outcome. makes (world_of self.old) name.now what.now bound.now ≡ (world_of self.new, outcome)) }
        ensures err { OnErr result (world_of self.new ≡ world_of self.old) }
        ensures tidy { IsTidy self.new }
    {
        match what {
            Made::Ask {
                partner,
                max,
                version,
            } => self.ask(alloc, name, partner, *max, *version, bound),
            Made::Serve { request } => self.serve(alloc, name, request, bound),
            Made::Backup => self.backup(alloc, name, bound),
            Made::Snapshot => self.snapshot(alloc, name, bound),
        }
    }

    /// What is answered where something befalls a controller or its disk.
    fn meets(&mut self, name: &Text, what: Meeting) -> Result<Outcome, NoMemory>
        requires { IsTidy self.old }
        ensures done { IfOk result (λ outcome. let w = world_of self.old in
            of_made (stays w) (replica_at w name.now) (λ r. meets w r what) ≡ (world_of self.new, outcome)) }
        ensures err { OnErr result (IsCutShort (world_of self.old) (Meets name.now what) (world_of self.new)) }
        ensures tidy { IsTidy self.new }
    {
        match what {
            Meeting::Stop => Ok(self.stop(name)),
            Meeting::Start => self.start(name),
            Meeting::StopAfter { calls, how } => Ok(self.stop_after(name, calls, how)),
            Meeting::Fail { calls } => Ok(self.fail_after(name, calls)),
        }
    }
}
