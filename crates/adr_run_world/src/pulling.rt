//! Pulls.

ghost use Rattle.std.specs.Prelude.{◌≡◌, ◌++◌, ◌+◌, ◌∷◌, ◌≤◌, [], Some, codes, vec_len, IfOk, IfSome, OnErr, OnOk};
ghost use Rattle.std.specs.Vec.{vec_capacity};
ghost use Rattle.adr_model.specs.Spelled.{IsSpelledReply};
ghost use Rattle.adr_law_recorded.specs.Ranged.{IsRangedReply, IsRangedRequest};
ghost use Rattle.adr_model.specs.Cycles.{pull, pull_asked, pull_served, pull_version, was_taken};
ghost use Rattle.adr_model.specs.World.{answer, asks, serves_request};
ghost use Rattle.adr_run_world.specs.Pulls.{IsCycleTurn, behind};
ghost use Rattle.adr_run_world.specs.Run.{IsTidy, with_past, world_of};

use crate::lists::put;
use crate::run::Run;
use adr_answers::Heading;
use adr_call::{Answer, Outcome};
use adr_cycle::{Reply, Request};
use adr_run_replica::Past;
use adr_values::{NoMemory, Text};
use std::alloc::Global;

/// The version in which pulls ask.
const PULL_VERSION: u16 = 2;

/// The most replies of a cycle.
pub const REPLY_LIMIT: u32 = 1_000_000;

fn was_taken(outcome: &Outcome) -> bool
    ensures { result ≡ was_taken outcome.now }
{
    matches!(outcome, Outcome::Took { .. })
}

impl Run {
    /// The request of a pull, if there is one; what its asker is answered comes to the answers.
    fn asked(
        &self,
        alloc: Global,
        dest: &Text,
        source: &Text,
        max: u32,
        answers: &mut Vec<Answer>,
    ) -> Result<Option<Request>, NoMemory>
        requires { vec_len answers.old + 1 ≤ vec_capacity answers.old }
        ensures sent { IfOk result (λ request. let t = asks (world_of self.now) dest.now source.now max pull_version in
            t ≡ (world_of self.now, t.1, request)) }
        ensures ranged { IfOk result (λ request. IfSome request IsRangedRequest) }
        ensures told { OnOk result (answers.new.items
            ≡ answers.old.items ++ answer (codes "ask") dest.now (asks (world_of self.now) dest.now source.now max pull_version).1 ∷ []) }
        ensures len { OnOk result (vec_len answers.new ≡ vec_len answers.old + 1) }
        ensures capacity { vec_capacity answers.old ≤ vec_capacity answers.new }
    {
        let heading = Heading::new(alloc, "ask", dest)?;
        let (outcome, request) = self.request(alloc, dest, source, max, PULL_VERSION)?;
        put(answers, heading.of(outcome));
        Ok(request)
    }

    /// The reply to the request of a pull, if it isn't refused; what its source is answered comes to the answers.
    fn served(
        &mut self,
        alloc: Global,
        source: &Text,
        request: &Request,
        answers: &mut Vec<Answer>,
    ) -> Result<Option<Reply>, NoMemory>
        requires tidy { IsTidy self.old }
        requires ranged { IsRangedRequest request.now }
        requires room { vec_len answers.old + 1 ≤ vec_capacity answers.old }
        ensures sent { IfOk result (λ reply. let t = serves_request (world_of self.old) source.now (Some request.now) in
            t ≡ (world_of self.new, t.1, reply)) }
        ensures spelled { IfOk result (λ reply. IfSome reply (λ reply. IsSpelledReply reply × IsRangedReply reply)) }
        ensures told { OnOk result (answers.new.items
            ≡ answers.old.items ++ answer (codes "serve") source.now (serves_request (world_of self.old) source.now (Some request.now)).1 ∷ []) }
        ensures err { OnErr result (world_of self.new ≡ world_of self.old) }
        ensures tidy { IsTidy self.new }
        ensures len { OnOk result (vec_len answers.new ≡ vec_len answers.old + 1) }
        ensures capacity { vec_capacity answers.old ≤ vec_capacity answers.new }
    {
        let heading = Heading::new(alloc, "serve", source)?;
        let (outcome, reply) = self.reply(alloc, source, request)?;
        put(answers, heading.of(outcome));
        Ok(reply)
    }

    /// The end of a pull: the reply is taken. It gives whether the pulls go on.
    fn pull_served(
        &mut self,
        alloc: Global,
        dest: &Text,
        reply: &Reply,
        answers: &mut Vec<Answer>,
    ) -> Result<bool, NoMemory>
        requires tidy { IsTidy self.old }
        requires spelled { IsSpelledReply reply.now }
        requires ranged { IsRangedReply reply.now }
        requires room { vec_len answers.old + 1 ≤ vec_capacity answers.old }
        ensures pulled { IfOk result (λ goes_on.
            behind answers.old.items (pull_served dest.now (world_of self.old) (Some reply.now))
            ≡ (world_of self.new, answers.new.items, goes_on)) }
        ensures err { OnErr result (world_of self.new ≡ world_of self.old) }
        ensures tidy { IsTidy self.new }
    {
        let heading = Heading::new(alloc, "deliver", dest)?;
        let outcome = self.take(alloc, dest, reply)?;
        let goes_on = was_taken(&outcome) && reply.last().is_none();
        put(answers, heading.of(outcome));
        Ok(goes_on)
    }

    /// The end of a pull, as `pull_served`. Where memory is wanting the reply is taken as one that wasn't sent: the past is
    /// this one, from before.
    fn pull_ended(
        &mut self,
        alloc: Global,
        dest: &Text,
        reply: &Reply,
        before: Past,
        answers: &mut Vec<Answer>,
    ) -> Result<bool, NoMemory>
        requires tidy { IsTidy self.old }
        requires spelled { IsSpelledReply reply.now }
        requires ranged { IsRangedReply reply.now }
        requires room { vec_len answers.old + 1 ≤ vec_capacity answers.old }
        ensures pulled { IfOk result (λ goes_on.
            behind answers.old.items (pull_served dest.now (world_of self.old) (Some reply.now))
            ≡ (world_of self.new, answers.new.items, goes_on)) }
        ensures err { OnErr result (world_of self.new ≡ with_past before (world_of self.old)) }
        ensures tidy { IsTidy self.new }
    {
        match self.pull_served(alloc, dest, reply, answers) {
            Ok(goes_on) => Ok(goes_on),
            Err(failure) => {
                self.past = before;
                Err(failure)
            }
        }
    }

    /// The pull of a request that was made. The source's answer comes first.
    fn pull_asked(
        &mut self,
        alloc: Global,
        dest: &Text,
        source: &Text,
        request: &Request,
        answers: &mut Vec<Answer>,
    ) -> Result<bool, NoMemory>
        requires tidy { IsTidy self.old }
        requires ranged { IsRangedRequest request.now }
        requires room { vec_len answers.old + 2 ≤ vec_capacity answers.old }
        ensures pulled { IfOk result (λ goes_on.
            behind answers.old.items (pull_asked dest.now source.now (world_of self.old) (Some request.now))
            ≡ (world_of self.new, answers.new.items, goes_on)) }
        ensures err { OnErr result (world_of self.new ≡ world_of self.old) }
        ensures tidy { IsTidy self.new }
    {
        let before = self.past.again();
        let served = self.served(alloc, source, request, answers)?;
        match served {
            None => Ok(false),
            Some(reply) => self.pull_ended(alloc, dest, &reply, before, answers),
        }
    }

    /// A controller asks another one, which serves, and it takes the reply. An answer other than ok ends it. It gives
    /// whether a reply was taken that isn't the last.
    fn pull_once(
        &mut self,
        alloc: Global,
        dest: &Text,
        source: &Text,
        max: u32,
        answers: &mut Vec<Answer>,
    ) -> Result<bool, NoMemory>
        requires tidy { IsTidy self.old }
        requires room { vec_len answers.old + 3 ≤ vec_capacity answers.old }
        ensures pulled { IfOk result (λ goes_on.
            behind answers.old.items (pull (world_of self.old) dest.now source.now max)
            ≡ (world_of self.new, answers.new.items, goes_on)) }
        ensures err { OnErr result (world_of self.new ≡ world_of self.old) }
        ensures tidy { IsTidy self.new }
    {
        let asked = self.asked(alloc, dest, source, max, answers)?;
        match asked {
            None => Ok(false),
            Some(request) => self.pull_asked(alloc, dest, source, &request, answers),
        }
    }

    /// A pull: its answers, and whether a reply was taken that isn't the last. There is room for its answers, and each
    /// heading is made, before the call that may change something: serving changes nothing where a reply is made, but that
    /// it is noted. So where memory is wanting nothing has changed.
    pub fn pull(
        &mut self,
        alloc: Global,
        dest: &Text,
        source: &Text,
        max: u32,
    ) -> Result<(Vec<Answer>, bool), NoMemory>
        requires { IsTidy self.old }
        ensures pulled { IfOk result (λ told.
            pull (world_of self.old) dest.now source.now max ≡ (world_of self.new, told.0.items, told.1)) }
        ensures err { OnErr result (world_of self.new ≡ world_of self.old) }
        ensures tidy { IsTidy self.new }
    {
        let mut answers = Vec::new(alloc);
        answers.reserve(3)?;
        let goes_on = self.pull_once(alloc, dest, source, max, &mut answers)?;
        Ok((answers, goes_on))
    }

    /// A turn of a cycle, by its number from 0: a pull, and after a million replies the answer that there is more.
    pub fn cycle_turn(
        &mut self,
        alloc: Global,
        dest: &Text,
        source: &Text,
        max: u32,
        turn: u32,
    ) -> Result<(Vec<Answer>, bool), NoMemory>
        requires { IsTidy self.old }
        ensures turned { IfOk result (λ told. IsCycleTurn turn (world_of self.old) dest.now source.now max
            (world_of self.new, told.0.items, told.1)) }
        ensures err { OnErr result (world_of self.new ≡ world_of self.old) }
        ensures tidy { IsTidy self.new }
    {
        if turn < REPLY_LIMIT {
            return self.pull(alloc, dest, source, max);
        }
        let heading = Heading::new(alloc, "cycle", dest)?;
        Ok((vec![in alloc; heading.of(Outcome::More)]?, false))
    }
}
