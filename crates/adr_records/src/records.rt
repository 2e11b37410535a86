//! The form of a controller's log.

use crate::following::follow;
use crate::head::{read_area, read_front, write_area, write_front};
use adr_image::encode_change;
use adr_journal::{AreaRead, FollowRefusal, Form, Owner};
use adr_state::{Change, State};
use adr_values::NoMemory;
use adr_wire::WireRefusal;
use std::alloc::Global;

/// The bytes of a controller's log. It has no values: a journal takes it as a type.
pub enum Records {}

impl Form for Records {
    ghost use Rattle.adr_records.specs.Body.{body_of, following_in};
    ghost use Rattle.adr_records.specs.Head.{area, area_at, front, front_at};
    ghost use Rattle.adr_records.specs.Logged.{IsLogged, MayBegin, MayBeRecorded};
    ghost use Rattle.adr_records.specs.BodyLaws.{begins_anew, body_follows_in, body_long, stays_owned};
    ghost use Rattle.adr_records.specs.HeadLaws.{area_formed, area_long, area_read, area_told, front_read, front_told};

    ghost head = { front_at };

    ghost area = { area_at };

    ghost following = { following_in };

    ghost front_of = { front };

    ghost area_of = { area };

    ghost body_of = { body_of };

    ghost can_begin = { MayBegin };

    ghost can_follow = { MayBeRecorded };

    ghost is_formed = { IsLogged };

    ghost tells_front = { λ s logged. front_told (s.dsa, s.inv) (logged.dsa, logged.inv) };

    ghost tells_area = { λ place s begins short. area_told place s begins short };

    ghost area_length = { λ s begins. area_long s begins.logged };

    ghost head_read = { λ bytes o rest are read. front_read bytes o rest are read };

    ghost area_read = { λ place o bytes began rest are read. area_read place o bytes began rest are read };

    ghost area_formed = { λ place front o bytes began rest head are read. area_formed place front o bytes began rest head are read };

    ghost body_follows = { λ s c may. body_follows_in s c may };

    ghost body_length = { λ s c may. body_long s c may };

    ghost follows_formed = { λ s c may. may.logged };

    ghost begins_anew = { λ s c may. begins_anew s c may };

    ghost begins_formed = { λ s begins. begins.logged };

    ghost stays_formed = { λ version s t body are logged follows. stays_owned version s t body are logged follows };

    fn write_front(alloc: Global, state: &State) -> Result<Vec<u8>, NoMemory> {
        write_front(alloc, state)
    }

    fn write_area(alloc: Global, state: &State) -> Result<Option<Vec<u8>>, NoMemory> {
        write_area(alloc, state)
    }

    fn write_change(alloc: Global, change: &Change) -> Result<Vec<u8>, NoMemory> {
        encode_change(alloc, change)
    }

    fn read_front(bytes: &[u8]) -> Result<Owner, WireRefusal> {
        read_front(bytes)
    }

    fn read_area(
        alloc: Global,
        bytes: &[u8],
        place: usize,
        owner: Owner,
    ) -> Result<AreaRead, WireRefusal> {
        read_area(alloc, bytes, place, owner)
    }

    fn follow(
        alloc: Global,
        version: u16,
        state: &mut State,
        body: &[u8],
    ) -> Result<(), FollowRefusal> {
        follow(alloc, version, state, body)
    }
}
