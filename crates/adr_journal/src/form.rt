//! How states and changes are told in the bytes of a log.

ghost use Rattle.std.specs.Prelude.{◌≡◌, ◌≤◌, ◌<◌, ◌+◌, ℕ, List, Option, Some, None, Ok, is_some, nat_lt, take, drop, length, IfSome, IfOk, IfErr, OnOk, OnErr, IsErrOf};
ghost use Rattle.adr_wire.specs.Reading.{Reading, Rest, Refuses};
ghost use Rattle.adr_wire.specs.Spelling.{AreBytes};
ghost use Rattle.adr_model.specs.Store.{State as Defined};
ghost use Rattle.adr_model.specs.Change.{Change as Changes, after};
ghost use Rattle.adr_model.specs.Lengths.{change_length, image_length, length_limit, area_version};
ghost use Rattle.adr_law_journal.specs.Areas.{Began, IsHead, TellsArea, WasArea};
ghost use Rattle.adr_journal.specs.Kept.{ids_of};

use adr_state::{Change, State};
use adr_values::{Guid, NoMemory};
use adr_wire::WireRefusal;
use std::alloc::Global;
use thiserror::Error;

/// Why a record was not taken.
#[derive(Clone, Copy, Debug, Error)]
pub enum FollowRefusal {
    /// Its body spells no change, or one that can't follow the state.
    #[error("the record can't follow the state")]
    CannotFollow,
    #[error("no memory")]
    NoMemory,
}

/// Whose log it is: the controller's identifier, and that of its database.
#[derive(Clone, Copy)]
pub struct Owner {
    pub dsa: Guid,
    pub inv: Guid,
}

/// The state that an area begins with, the place behind it, in bytes, and the version by which its records are read.
#[derive(Drop)]
pub struct AreaRead {
    pub state: State,
    pub first: usize,
    pub version: u16,
}

/// The bytes of a state and of a change. It has no values: a journal takes it as a type.
pub trait Form {
    /// What is read behind the first gate of a log, 38 bytes: whose it is.
    ghost head: { Reading (List ℕ × List ℕ) };

    /// What is read of an area in a log of these identifiers.
    ghost area: { List ℕ × List ℕ → Reading (Began Defined) };

    /// What a record of this body makes of a state, where it may follow, in an area of this version.
    ghost following: { ℕ → Defined → List ℕ → Option Defined };

    /// The bytes behind the first gate, those of an area without records up to its closed gate, and those of a change as
    /// the body of a record.
    ghost front_of: { List ℕ × List ℕ → List ℕ };

    ghost area_of: { Defined → List ℕ };

    ghost body_of: { Changes → List ℕ };

    /// Which state may begin a log or an area, however long its image is; which change may follow a state; and what every
    /// state of a log is.
    ghost can_begin: { Defined → Type 0 };

    ghost can_follow: { Defined → Changes → Type 0 };

    ghost is_formed: { Defined → Type 0 };

    /// The bytes behind the first gate of a state's log.
    fn write_front(alloc: Global, state: &State) -> Result<Vec<u8>, NoMemory>
        requires { is_formed state.now }
        ensures { IfOk result (λ bytes. bytes.items ≡ front_of (state.now.dsa, state.now.inv)) };

    /// The bytes of a new area of the state, without its closed gate; none where its image would be 4 GiB or longer.
    fn write_area(alloc: Global, state: &State) -> Result<Option<Vec<u8>>, NoMemory>
        requires { is_formed state.now }
        ensures bytes { IfOk result (λ area. IfSome area (λ bytes. bytes.items ≡ area_of state.now)) }
        ensures long { IfOk result (λ area. IfSome area (λ bytes. length bytes.items ≡ 6 + image_length state.now.store)) }
        ensures fits { IfOk result (λ area. is_some area ≡ nat_lt (image_length state.now.store) length_limit) };

    /// The bytes of a change.
    fn write_change(alloc: Global, change: &Change) -> Result<Vec<u8>, NoMemory>
        requires { (s : Defined) × can_follow s change.now }
        ensures { IfOk result (λ bytes. bytes.items ≡ body_of change.now) };

    /// Reads whose log it is. The gate in front isn't looked at.
    fn read_front(bytes: &[u8]) -> Result<Owner, WireRefusal>
        ensures ok { IfOk result (λ o. head (record { place = 1; bytes = drop 1 bytes.now })
            ≡ Ok ((o.dsa, o.inv), record { place = 39; bytes = drop 39 bytes.now })) }
        ensures err { IfErr result (λ e. Refuses e (head (record { place = 1; bytes = drop 1 bytes.now }))) };

    /// Reads the area at a place, in bytes, of a log of this owner. Six bytes or more stand in front of what it begins with.
    fn read_area(
        alloc: Global,
        bytes: &[u8],
        place: usize,
        owner: Owner,
    ) -> Result<AreaRead, WireRefusal>
        requires { place < length bytes.now }
        ensures ok { IfOk result (λ r. area (owner.dsa, owner.inv) (record { place = place; bytes = drop place bytes.now })
            ≡ Ok (record { version = r.version; state = r.state }, record { place = r.first; bytes = drop r.first bytes.now })) }
        ensures apart { IfOk result (λ r. place + 6 ≤ r.first) }
        ensures err { IfErr result (λ e. Refuses e (area (owner.dsa, owner.inv) (record { place = place; bytes = drop place bytes.now }))) };

    /// Takes a record of this body in an area of this version.
    fn follow(
        alloc: Global,
        version: u16,
        state: &mut State,
        body: &[u8],
    ) -> Result<(), FollowRefusal>
        requires { is_formed state.old }
        ensures ok { OnOk result (following version state.old body.now ≡ Some state.new) }
        ensures refused { IsErrOf result FollowRefusal.CannotFollow → following version state.old body.now ≡ None }
        ensures err { OnErr result (state.new ≡ state.old) };

    /// A head and an area are read as they were written, in a log of the state's identifiers, where its image isn't too long.
    ghost tells_front: { (s : Defined) → is_formed s → IsHead head (front_of (s.dsa, s.inv)) (s.dsa, s.inv) };

    ghost tells_area: { (place : ℕ) (s : Defined) → can_begin s → image_length s.store < length_limit
        → TellsArea (area (s.dsa, s.inv)) place (area_of s) area_version s };

    ghost area_length: { (s : Defined) → can_begin s → length (area_of s) ≡ 6 + image_length s.store };

    /// What was read of a head and of an area depends on no byte behind them.
    ghost head_read: { (bytes : List ℕ) (o : List ℕ × List ℕ) (rest : Rest) → AreBytes bytes
        → head (record { place = 1; bytes = bytes }) ≡ Ok (o, rest) → IsHead head (take 38 bytes) o × (rest ≡ record { place = 39; bytes = drop 38 bytes }) };

    ghost area_read: { (place : ℕ) (o : List ℕ × List ℕ) (bytes : List ℕ) (began : Began Defined) (rest : Rest) → AreBytes bytes
        → area o (record { place = place; bytes = bytes }) ≡ Ok (began, rest) → WasArea (area o) place bytes began rest };

    /// What an area of a log with a head begins with is formed, has the identifiers of its log, and is of a version that is written or an earlier one.
    ghost area_formed: { (place : ℕ) (front : List ℕ) (o : List ℕ × List ℕ) (bytes : List ℕ) (began : Began Defined) (rest : Rest)
        → IsHead head front o → AreBytes bytes → area o (record { place = place; bytes = bytes }) ≡ Ok (began, rest)
        → is_formed began.state × ((began.state.dsa, began.state.inv) ≡ o) × (began.version ≤ area_version) };

    /// A change that may follow is read so, and is as long as the model says.
    ghost body_follows: { (s : Defined) (c : Changes) → can_follow s c → following area_version s (body_of c) ≡ Some (after s c) };

    ghost body_length: { (s : Defined) (c : Changes) → can_follow s c → length (body_of c) ≡ change_length c };

    /// A state that a change may follow is formed, and may begin an area.
    ghost follows_formed: { (s : Defined) (c : Changes) → can_follow s c → is_formed s };

    ghost begins_anew: { (s : Defined) (c : Changes) → can_follow s c → can_begin s };

    /// Each state of a log is formed, and has the identifiers that the log began with.
    ghost begins_formed: { (s : Defined) → can_begin s → is_formed s };

    ghost stays_formed: { (version : ℕ) (s t : Defined) (body : List ℕ) → AreBytes body → is_formed s
        → following version s body ≡ Some t → is_formed t × (ids_of t ≡ ids_of s) };
}
