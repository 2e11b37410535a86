//! Where a run stands.

ghost use Rattle.std.specs.Prelude.{◌≡◌};
ghost use Rattle.adr_model.specs.World.{empty_world};
ghost use Rattle.adr_run_world.specs.Run.{IsTidy, world_of};

use crate::bound::Bindings;
use adr_cycle::{Reply, Request};
use adr_run_replica::{Image, Past, Replica, Snapshot};
use std::alloc::Global;

/// What a world has, without its invariant, which holds between lines alone: the time, whether no database was put back
/// so far, the past, the controllers, and what lines bound to names.
#[derive(Drop)]
pub struct Run {
    pub time: u64,
    pub clean: bool,
    pub past: Past,
    pub controllers: Vec<Replica>,
    pub requests: Bindings<Request>,
    pub replies: Bindings<Reply>,
    pub images: Bindings<Image>,
    pub snapshots: Bindings<Snapshot>,
}

impl Run {
    /// Before the first event.
    pub fn new(alloc: Global) -> Run
        ensures world { world_of result ≡ empty_world }
        ensures tidy { IsTidy result }
    {
        Run {
            time: 0,
            clean: true,
            past: Past::new(),
            controllers: Vec::new(alloc),
            requests: Bindings::new(alloc),
            replies: Bindings::new(alloc),
            images: Bindings::new(alloc),
            snapshots: Bindings::new(alloc),
        }
    }
}
