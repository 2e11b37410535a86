//! What a run was told. Only proofs read it, and it takes no memory.

ghost use Rattle.std.specs.Prelude.{◌≡◌};
ghost use Rattle.adr_run_replica.specs.Past.{Ahead, nothing_yet};
ghost use Rattle.adr_run_replica.specs.Told.{keeping_none, told_of};

use crate::replica::Replica;
use adr_call::Call;
use adr_cycle::{Reply, Request};
use adr_restore::Image;
use adr_state::State;
use adr_values::{Guid, Text};
use std::marker::Model;

/// What a past is told, also before a call that may commit something. The types behind the references are parameters,
/// since the check isn't told which modules hold a type that an enum has behind a reference.
#[derive(Drop)]
pub(crate) enum Deed<'a, S, R, C, Q, A, I, T> {
    /// Nothing more.
    Still,
    /// An incarnation begins with what its state has.
    Begun(&'a S),
    /// A line gives the identifiers of a controller and of its database.
    Gave {
        dsa: Guid,
        inv: Guid,
    },
    /// A line gives the identifier of a database alone.
    GaveInv {
        inv: Guid,
    },
    /// A reply was sent, at a time.
    Noted {
        reply: &'a A,
        now: u64,
    },
    /// A controller is about to do what a client calls for, at a time.
    Calls {
        replica: &'a R,
        what: &'a C,
        now: u64,
    },
    /// An object of an image is about to come again at it, under a name, at a time.
    Revives {
        replica: &'a R,
        image: &'a I,
        guid: Guid,
        parent: Guid,
        text: &'a T,
        now: u64,
    },
    /// It is about to answer a request.
    Serves {
        replica: &'a R,
        request: &'a Q,
    },
    /// It is about to take a reply.
    Takes {
        replica: &'a R,
        reply: &'a A,
    },
    /// It is about to be stopped.
    Stops(&'a R),
    /// It is about to be started.
    Starts(&'a R),
}

/// All that a run was told so far, and the call that a controller keeps behind the last of it.
#[derive(Drop)]
pub(crate) struct Told {
    pub(crate) ghost ahead: { Ahead },
}

impl Model for Told {
    ghost use Rattle.std.specs.Borrow.{ftrue};

    ghost also_owns = { λ _. ftrue };
}

impl Told {
    /// Nothing yet.
    pub(crate) fn new() -> Told
        ensures { result.ahead ≡ keeping_none nothing_yet }
    {
        Told {}
    }

    /// And one thing more.
    pub(crate) fn with(
        &self,
        _deed: &Deed<'_, State, Replica, Call, Request, Reply, Image, Text>,
    ) -> Told
        ensures { result.ahead ≡ told_of self.now.ahead.past _deed.now }
    {
        Told {}
    }
}
