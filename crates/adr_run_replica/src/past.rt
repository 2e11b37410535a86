//! What happened in a run so far, and the call that a controller keeps.

ghost use Rattle.std.specs.Prelude.{◌≡◌, ◌++◌, ◌∷◌, [], None};
ghost use Rattle.adr_model.specs.Replica.{begun};
ghost use Rattle.adr_run_replica.specs.Past.{noting, nothing_yet};
ghost use Rattle.adr_run_replica.specs.Told.{told_of};

use crate::replica::Replica;
use crate::told::{Deed, Told};
use adr_call::Call;
use adr_cycle::{Reply, Request};
use adr_restore::Image;
use adr_state::State;
use adr_values::{Guid, Text};
use std::marker::Model;

/// The book of a run: what clients wrote, in the order in which it became safe, and the log of each incarnation, by its
/// invocation identifier; the last replies that were sent, each with its time; and the identifiers that lines gave to controllers and to their databases, in order. It keeps
/// nothing when it runs: contracts see it.
#[derive(Drop)]
pub struct Past {
    told: Told,
}

impl Model for Past {
    ghost use Rattle.adr_run_replica.specs.Past.{Past as Defined};

    ghost Value = { Defined };

    ghost view = { λ p. p.told.ahead.past };
}

impl Past {
    /// The past of a run that hasn't begun.
    pub fn new() -> Past
        ensures { result ≡ nothing_yet }
    {
        Past { told: Told::new() }
    }

    /// The same past.
    pub fn again(&self) -> Past
        ensures { result ≡ self.now }
    {
        let still = Deed::Still;
        Past {
            told: self.told.with(&still),
        }
    }

    /// An incarnation begins with what its state has.
    pub fn begin(&mut self, state: &State)
        ensures { self.new ≡ record self.old { book = begun self.old.book state.now } }
    {
        let begun = Deed::Begun(state);
        self.told = self.told.with(&begun);
    }

    /// A line gives the identifiers of a controller and of its database.
    pub fn give(&mut self, dsa: Guid, inv: Guid)
        ensures { self.new
            ≡ record self.old { given = record { dsas = self.old.given.dsas ++ dsa ∷ []; invs = self.old.given.invs ++ inv ∷ [] } } }
    {
        let gave = Deed::Gave { dsa, inv };
        self.told = self.told.with(&gave);
    }

    /// This was sent at a time in seconds, if anything was.
    pub(crate) fn note(&mut self, sent: &Option<Reply>, now: u64)
        ensures { self.new ≡ noting self.old now sent.now }
    {
        if let Some(reply) = sent {
            let noted = Deed::Noted { reply, now };
            self.told = self.told.with(&noted);
        }
    }

    /// A line gives the identifier of a database alone.
    pub fn give_inv(&mut self, inv: Guid)
        ensures { self.new
            ≡ record self.old { given = record { dsas = self.old.given.dsas ++ []; invs = self.old.given.invs ++ inv ∷ [] } } }
    {
        let gave = Deed::GaveInv { inv };
        self.told = self.told.with(&gave);
    }
}

/// The call of a controller that is on its disk and isn't safe, if there is one. It keeps nothing when it runs: contracts
/// see it.
#[derive(Drop)]
pub(crate) struct KeptCall {
    told: Told,
}

impl Model for KeptCall {
    ghost use Rattle.std.specs.Prelude.{Option};
    ghost use Rattle.adr_model.specs.Replica.{Pending};

    ghost Value = { Option Pending };

    ghost view = { λ k. k.told.ahead.kept };
}

impl KeptCall {
    /// No call.
    pub(crate) fn none() -> KeptCall
        ensures { result ≡ None }
    {
        KeptCall { told: Told::new() }
    }
}

/// The past, and a controller's kept call, behind a call that is about to be made.
#[derive(Drop)]
pub(crate) struct Ahead {
    pub(crate) past: Past,
    pub(crate) kept: KeptCall,
}

impl Ahead {
    pub(crate) fn of(
        past: &Past,
        deed: &Deed<'_, State, Replica, Call, Request, Reply, Image, Text>,
    ) -> Ahead
        ensures past { result.past ≡ (told_of past.now deed.now).past }
        ensures kept { result.kept ≡ (told_of past.now deed.now).kept }
    {
        Ahead {
            past: Past {
                told: past.told.with(deed),
            },
            kept: KeptCall {
                told: past.told.with(deed),
            },
        }
    }
}
