//! What earlier lines bound and gave.

ghost use Rattle.std.specs.Prelude.{◌≡◌, [], ◌∷◌, ◌++◌, ◌||◌, false, None, OnOk, IfErr};
ghost use Rattle.adr_schedule.specs.Faults.{RefusesEvent};
ghost use Rattle.adr_values.specs.First.{first_of};
ghost use Rattle.adr_schedule.specs.Seen.{nothing_seen, is_bound, is_any_unbound, unless_all_bound, unless_bound, if_bound, if_inv_given, if_given, if_full, cause_after, cause_of_coming, cause_of_going, cause_of_making, names_used, with_coming, with_controller, seen_after};

use crate::bound::BoundNames;
use crate::fault::Cause;
use crate::given::GivenIdentifiers;
use crate::limits::CONTROLLER_LIMIT;
use adr_call::{Coming, Event, Exchange, Failure, Made, Use};
use adr_values::{Guid, Text};
use std::alloc::Global;
use std::marker::Model;

/// The names that lines bound, and the identifiers that they gave.
pub struct Seen {
    controllers: BoundNames,
    requests: BoundNames,
    replies: BoundNames,
    images: BoundNames,
    snapshots: BoundNames,
    dsas: GivenIdentifiers,
    invs: GivenIdentifiers,
}

impl Drop for Seen {
    fn drop(self) {
        let Seen {
            controllers: _controllers,
            requests: _requests,
            replies: _replies,
            images: _images,
            snapshots: _snapshots,
            dsas: _dsas,
            invs: _invs,
        } = self;
    }
}

impl Model for Seen {
    ghost use Rattle.adr_schedule.specs.Faults.{RefusesEvent};
    ghost use Rattle.adr_schedule.specs.Seen.{Seen as Bindings};

    ghost Value = { Bindings };

    ghost view = { λ s. record { controllers = s.controllers; requests = s.requests; replies = s.replies; images = s.images; snapshots = s.snapshots; dsas = s.dsas; invs = s.invs } };
}

impl Seen {
    /// Nothing was bound or given yet.
    pub fn nothing(alloc: Global) -> Seen
        ensures { result ≡ nothing_seen }
    {
        Seen {
            controllers: BoundNames::new(alloc),
            requests: BoundNames::new(alloc),
            replies: BoundNames::new(alloc),
            images: BoundNames::new(alloc),
            snapshots: BoundNames::new(alloc),
            dsas: GivenIdentifiers::new(alloc),
            invs: GivenIdentifiers::new(alloc),
        }
    }

    fn unless_controller(&self, name: &Text) -> Option<Cause>
        ensures { result ≡ unless_bound self.now.controllers name.now }
    {
        if self.controllers.contains(name) {
            None
        } else {
            Some(Cause::UnknownName)
        }
    }

    /// A line uses a controller, and a name of another kind or a second controller.
    fn cause_of_use(&self, name: &Text, names: &BoundNames, used: &Text) -> Option<Cause>
        ensures { result
            ≡ first_of (unless_bound self.now.controllers name.now ∷ unless_bound names.now used.now ∷ []) }
    {
        if self.controllers.contains(name) && names.contains(used) {
            None
        } else {
            Some(Cause::UnknownName)
        }
    }

    /// Whether one of these is no controller.
    fn lacks_any(&self, names: &[Text]) -> bool
        ensures { result ≡ is_any_unbound self.now.controllers names.now }
    {
        names.iter().any(|name| !self.controllers.contains(name))
    }

    /// A line uses controllers.
    fn unless_controllers(&self, names: &[Text]) -> Option<Cause>
        ensures { result ≡ unless_all_bound self.now.controllers names.now }
    {
        if self.lacks_any(names) {
            Some(Cause::UnknownName)
        } else {
            None
        }
    }

    fn cause_of_ring(&self, name: &Text, others: &[Text]) -> Option<Cause>
        ensures { result ≡ unless_all_bound self.now.controllers (name.now ∷ others.now) }
    {
        if !self.controllers.contains(name) {
            return Some(Cause::UnknownName);
        }
        self.unless_controllers(others)
    }

    /// A line uses a controller, and binds a name of another kind.
    fn cause_of_copy(&self, name: &Text, names: &BoundNames, bound: &Text) -> Option<Cause>
        ensures { result
            ≡ first_of (unless_bound self.now.controllers name.now ∷ if_bound names.now bound.now ∷ []) }
    {
        if !self.controllers.contains(name) {
            return Some(Cause::UnknownName);
        }
        if names.contains(bound) {
            return Some(Cause::NameUsed);
        }
        None
    }

    fn cause_of_controller(&self, name: &Text, dsa: &Guid, inv: &Guid) -> Option<Cause>
        ensures { result
            ≡ first_of (if_bound self.now.controllers name.now ∷ if_given self.now dsa.now inv.now
            ∷ if_full self.now ∷ []) }
    {
        if self.controllers.contains(name) {
            return Some(Cause::NameUsed);
        }
        if self.dsas.contains(dsa) || self.invs.contains(inv) {
            return Some(Cause::IdentifierUsed);
        }
        if self.controllers.len() >= CONTROLLER_LIMIT {
            return Some(Cause::TooMany);
        }
        None
    }

    fn cause_of_ask(&self, name: &Text, partner: &Text, bound: &Text) -> Option<Cause>
        ensures { result
            ≡ first_of (unless_bound self.now.controllers name.now
            ∷ unless_bound self.now.controllers partner.now ∷ if_bound self.now.requests bound.now ∷ []) }
    {
        if !self.controllers.contains(name) || !self.controllers.contains(partner) {
            return Some(Cause::UnknownName);
        }
        if self.requests.contains(bound) {
            return Some(Cause::NameUsed);
        }
        None
    }

    fn cause_of_serve(&self, name: &Text, request: &Text, bound: &Text) -> Option<Cause>
        ensures { result
            ≡ first_of (unless_bound self.now.controllers name.now ∷ unless_bound self.now.requests request.now
            ∷ if_bound self.now.replies bound.now ∷ []) }
    {
        if !self.controllers.contains(name) || !self.requests.contains(request) {
            return Some(Cause::UnknownName);
        }
        if self.replies.contains(bound) {
            return Some(Cause::NameUsed);
        }
        None
    }

    fn cause_of_restore(&self, name: &Text, image: &Text, inv: &Guid) -> Option<Cause>
        ensures { result
            ≡ first_of (unless_bound self.now.controllers name.now ∷ unless_bound self.now.images image.now
            ∷ if_inv_given self.now inv.now ∷ []) }
    {
        if !self.controllers.contains(name) || !self.images.contains(image) {
            return Some(Cause::UnknownName);
        }
        if self.invs.contains(inv) {
            return Some(Cause::IdentifierUsed);
        }
        None
    }

    fn cause_of_install(&self, name: &Text, dsa: &Guid, image: &Text, inv: &Guid) -> Option<Cause>
        ensures { result
            ≡ first_of (unless_bound self.now.images image.now ∷ if_bound self.now.controllers name.now
            ∷ if_given self.now dsa.now inv.now ∷ if_full self.now ∷ []) }
    {
        if !self.images.contains(image) {
            return Some(Cause::UnknownName);
        }
        self.cause_of_controller(name, dsa, inv)
    }

    fn cause_of_coming(&self, name: &Text, inv: &Guid, how: &Coming) -> Option<Cause>
        ensures { result ≡ cause_of_coming self.now name.now inv.now how.now }
    {
        match how {
            Coming::Fresh { dsa } => self.cause_of_controller(name, dsa, inv),
            Coming::Installed { dsa, image } => self.cause_of_install(name, dsa, image, inv),
            Coming::Restored { image } => self.cause_of_restore(name, image, inv),
        }
    }

    /// The names of what is used.
    fn names_used(&self, what: &Use) -> &BoundNames
        ensures { result.now ≡ names_used self.now what.now }
    {
        match what {
            Use::Deliver => &self.replies,
            Use::Revive { .. } => &self.images,
            Use::Rollback => &self.snapshots,
        }
    }

    fn cause_of_making(&self, name: &Text, what: &Made, bound: &Text) -> Option<Cause>
        ensures { result ≡ cause_of_making self.now name.now what.now bound.now }
    {
        match what {
            Made::Ask { partner, .. } => self.cause_of_ask(name, partner, bound),
            Made::Serve { request } => self.cause_of_serve(name, request, bound),
            Made::Backup => self.cause_of_copy(name, &self.images, bound),
            Made::Snapshot => self.cause_of_copy(name, &self.snapshots, bound),
        }
    }

    fn cause_of_going(&self, name: &Text, what: &Exchange) -> Option<Cause>
        ensures { result ≡ cause_of_going self.now name.now what.now }
    {
        match what {
            Exchange::Pull { source, .. } | Exchange::Cycle { source, .. } => {
                self.cause_of_use(name, &self.controllers, source)
            }
            Exchange::Ring { others, .. } => self.cause_of_ring(name, others.items()),
        }
    }

    /// Why the event may not follow, if it may not.
    pub fn cause_after(&self, event: &Event) -> Option<Cause>
        ensures { result ≡ cause_after self.now event.now }
    {
        match event {
            Event::Time { .. } => None,
            Event::Comes { name, inv, how } => self.cause_of_coming(name, inv, how),
            Event::Uses { name, what, bound } => {
                self.cause_of_use(name, self.names_used(what), bound)
            }
            Event::Binds { name, what, bound } => self.cause_of_making(name, what, bound),
            Event::Goes { name, what } => self.cause_of_going(name, what),
            Event::Calls { name, .. } | Event::Asks { name, .. } | Event::Meets { name, .. } => {
                self.unless_controller(name)
            }
        }
    }

    /// One more controller, with its identifiers.
    fn note_controller(
        &mut self,
        alloc: Global,
        name: &Text,
        dsa: &Guid,
        inv: &Guid,
    ) -> Result<(), Failure<Cause>>
        requires name { is_bound self.old.controllers name.now ≡ false }
        requires dsa { is_bound self.old.dsas dsa.now ≡ false }
        requires inv { is_bound self.old.invs inv.now ≡ false }
        ensures seen { OnOk result (self.new ≡ with_controller self.old name.now dsa.now inv.now) }
        ensures memory { IfErr result (λ failure. failure ≡ Failure.NoMemory) }
    {
        self.controllers.bind(alloc, name)?;
        self.dsas.give(dsa)?;
        self.invs.give(inv)
    }

    /// Notes the identifiers that are given by how a controller comes, and the name of a new one.
    fn note_coming(
        &mut self,
        alloc: Global,
        name: &Text,
        inv: &Guid,
        how: &Coming,
    ) -> Result<(), Failure<Cause>>
        requires { cause_of_coming self.old name.now inv.now how.now ≡ None }
        ensures seen { OnOk result (self.new ≡ with_coming self.old name.now inv.now how.now) }
        ensures memory { IfErr result (λ failure. failure ≡ Failure.NoMemory) }
    {
        match how {
            Coming::Fresh { dsa } => self.note_controller(alloc, name, dsa, inv),
            Coming::Installed { dsa, .. } => self.note_controller(alloc, name, dsa, inv),
            Coming::Restored { .. } => self.invs.give(inv),
        }
    }

    /// Notes what the event, which may follow, binds and gives. After an error it isn't said what was noted.
    pub fn note(&mut self, alloc: Global, event: &Event) -> Result<(), Failure<Cause>>
        requires { cause_after self.old event.now ≡ None }
        ensures seen { OnOk result (self.new ≡ seen_after self.old event.now) }
        ensures memory { IfErr result (λ failure. failure ≡ Failure.NoMemory) }
    {
        match event {
            Event::Comes { name, inv, how } => self.note_coming(alloc, name, inv, how),
            Event::Binds {
                what: Made::Ask { .. },
                bound,
                ..
            } => self.requests.bind(alloc, bound),
            Event::Binds {
                what: Made::Serve { .. },
                bound,
                ..
            } => self.replies.bind(alloc, bound),
            Event::Binds {
                what: Made::Backup,
                bound,
                ..
            } => self.images.bind(alloc, bound),
            Event::Binds {
                what: Made::Snapshot,
                bound,
                ..
            } => self.snapshots.bind(alloc, bound),
            _ => Ok(()),
        }
    }

    /// Notes what the event binds and gives, if it may follow. After an error it isn't said what was noted.
    pub fn admit(&mut self, alloc: Global, event: &Event) -> Result<(), Failure<Cause>>
        ensures follows { OnOk result (cause_after self.old event.now ≡ None) }
        ensures seen { OnOk result (self.new ≡ seen_after self.old event.now) }
        ensures refused { IfErr result (λ failure. RefusesEvent failure (cause_after self.old event.now)) }
    {
        match self.cause_after(event) {
            Some(cause) => Err(Failure::Refused(cause)),
            None => self.note(alloc, event),
        }
    }
}
