//! Requests and replies.

ghost use Rattle.std.specs.Prelude.{◌≡◌, Some, codes, IfOk, IfSome, IsSome, OnErr, OnOk, true};
ghost use Rattle.adr_call.specs.declared.event.Made.TheVariants.{Ask, Serve};
ghost use Rattle.adr_wire.specs.Headed.{is_version};
ghost use Rattle.adr_model.specs.Spelled.{IsSpelledReply};
ghost use Rattle.adr_law_recorded.specs.Ranged.{IsRangedReply, IsRangedRequest};
ghost use Rattle.adr_model.specs.Convergence.{IsUnbound};
ghost use Rattle.adr_model.specs.Step.{makes};
ghost use Rattle.adr_model.specs.World.{asks, bound, bound_at, delivers, serves_request};
ghost use Rattle.adr_run_world.specs.Run.{IsTidy, world_of};

use crate::controller::not_there;
use crate::run::Run;
use adr_call::Outcome;
use adr_cycle::{Reply, Request};
use adr_run_replica::Past;
use adr_values::{NoMemory, Text};
use std::alloc::Global;

impl Run {
    /// What a controller is answered that asks a partner in a version; the request is bound to a name.
    pub fn ask(
        &mut self,
        alloc: Global,
        name: &Text,
        partner: &Text,
        max: u32,
        version: u16,
        bound: &Text,
    ) -> Result<Outcome, NoMemory>
        requires tidy { IsTidy self.old }
        requires version { is_version version ≡ true }
        requires unbound { IsUnbound (world_of self.old).requests bound.now }
        ensures done { IfOk result (λ outcome.
            makes (world_of self.old) name.now (Ask partner.now max version) bound.now ≡ (world_of self.new, outcome)) }
        ensures err { OnErr result (world_of self.new ≡ world_of self.old) }
        ensures tidy { IsTidy self.new }
    {
        let sent = self.request(alloc, name, partner, max, version)?;
        self.requests.bind(alloc, bound, sent)
    }

    /// What a controller that asks a partner in a version is answered, and the request if there is one.
    pub fn request(
        &self,
        alloc: Global,
        name: &Text,
        partner: &Text,
        max: u32,
        version: u16,
    ) -> Result<(Outcome, Option<Request>), NoMemory>
        requires version { is_version version ≡ true }
        ensures asked { IfOk result (λ sent.
            asks (world_of self.now) name.now partner.now max version ≡ (world_of self.now, sent.0, sent.1)) }
        ensures ranged { IfOk result (λ sent. IfSome sent.1 IsRangedRequest) }
    {
        let Some(asker) = self.place_of(name) else {
            return Ok((Outcome::Absent, None));
        };
        let Some(asked) = self.place_of(partner) else {
            return Ok((Outcome::Absent, None));
        };
        let dsa = self.controllers[asked].dsa();
        self.controllers[asker].ask(alloc, dsa, max, version)
    }

    /// What a controller is answered that serves a request, which was bound to a name and is read where it stands;
    /// the reply is bound to another.
    pub fn serve(
        &mut self,
        alloc: Global,
        name: &Text,
        request: &Text,
        bound: &Text,
    ) -> Result<Outcome, NoMemory>
        requires tidy { IsTidy self.old }
        requires unbound { IsUnbound (world_of self.old).replies bound.now }
        ensures done { IfOk result (λ outcome.
            makes (world_of self.old) name.now (Serve request.now) bound.now ≡ (world_of self.new, outcome)) }
        ensures err { OnErr result (world_of self.new ≡ world_of self.old) }
        ensures tidy { IsTidy self.new }
    {
        let Some(place) = self.place_of(name) else {
            return Ok(Outcome::Absent);
        };
        let Some(request) = self.requests.get(request) else {
            return Ok(not_there(&self.controllers[place]));
        };
        let before = self.past.again();
        let sent = self.controllers[place].serve(alloc, &mut self.past, request, self.time)?;
        self.bind_reply(alloc, bound, sent, before)
    }

    /// Binds the reply of a call to a name, if it made one, and gives what is answered. One that can't be kept is taken as
    /// one that wasn't sent: the past is this one, from before the call.
    fn bind_reply(
        &mut self,
        alloc: Global,
        name: &Text,
        sent: (Outcome, Option<Reply>),
        before: Past,
    ) -> Result<Outcome, NoMemory>
        requires { IsUnbound self.old.replies name.now }
        ensures outcome { IfOk result (λ outcome. outcome ≡ sent.0) }
        ensures ok { OnOk result (self.new ≡ record self.old { replies = bound self.old.replies name.now sent.1 }) }
        ensures err { OnErr result (self.new ≡ record self.old { past = before }) }
        ensures some { OnErr result (IsSome sent.1) }
    {
        match self.replies.bind(alloc, name, sent) {
            Ok(outcome) => Ok(outcome),
            Err(failure) => {
                self.past = before;
                Err(failure)
            }
        }
    }

    /// What comes of a request, and the reply if it isn't refused.
    pub fn reply(
        &mut self,
        alloc: Global,
        name: &Text,
        request: &Request,
    ) -> Result<(Outcome, Option<Reply>), NoMemory>
        requires tidy { IsTidy self.old }
        requires ranged { IsRangedRequest request.now }
        ensures served { IfOk result (λ sent.
            serves_request (world_of self.old) name.now (Some request.now) ≡ (world_of self.new, sent.0, sent.1)) }
        ensures spelled { IfOk result (λ sent. IfSome sent.1 (λ reply. IsSpelledReply reply × IsRangedReply reply)) }
        ensures err { OnErr result (world_of self.new ≡ world_of self.old) }
        ensures tidy { IsTidy self.new }
    {
        let Some(place) = self.place_of(name) else {
            return Ok((Outcome::Absent, None));
        };
        self.controllers[place].serve(alloc, &mut self.past, request, self.time)
    }

    /// What a controller that takes a reply is answered, which was bound to a name. It is read where it stands: it may be
    /// large.
    pub fn take_bound(
        &mut self,
        alloc: Global,
        name: &Text,
        reply: &Text,
    ) -> Result<Outcome, NoMemory>
        requires { IsTidy self.old }
        ensures taken { IfOk result (λ outcome.
            delivers (world_of self.old) name.now (bound_at (world_of self.old).replies reply.now) ≡ (world_of self.new, outcome)) }
        ensures err { OnErr result (world_of self.new ≡ world_of self.old) }
        ensures tidy { IsTidy self.new }
    {
        let Some(place) = self.place_of(name) else {
            return Ok(Outcome::Absent);
        };
        let Some(reply) = self.replies.get(reply) else {
            return Ok(not_there(&self.controllers[place]));
        };
        self.controllers[place].take(alloc, &mut self.past, reply)
    }

    /// What a controller that takes a reply is answered.
    pub fn take(&mut self, alloc: Global, name: &Text, reply: &Reply) -> Result<Outcome, NoMemory>
        requires tidy { IsTidy self.old }
        requires spelled { IsSpelledReply reply.now }
        requires ranged { IsRangedReply reply.now }
        ensures taken { IfOk result (λ outcome.
            delivers (world_of self.old) name.now (Some reply.now) ≡ (world_of self.new, outcome)) }
        ensures err { OnErr result (world_of self.new ≡ world_of self.old) }
        ensures tidy { IsTidy self.new }
    {
        let Some(place) = self.place_of(name) else {
            return Ok(Outcome::Absent);
        };
        self.controllers[place].take(alloc, &mut self.past, reply)
    }
}
