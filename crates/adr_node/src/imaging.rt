//! A controller of the image that a source gives.

ghost use Rattle.std.specs.Prelude.{◌≡◌, ◌⊎◌, ◌<◌, ◌≤◌, take, Ok, Err, IfOk, IfErr, IfSome, IsErrOf, OnOk};
ghost use Rattle.adr_model.specs.Collect.{adopt};
ghost use Rattle.adr_image.specs.Stored.{decoded};
ghost use Rattle.adr_node.specs.Makes.{Adopts, AdoptsImage, IsReadAtMost, IsReadWhole, MadeOn, ReadsSo, Says, ended_as, image_limit};
ghost use Rattle.adr_node.specs.Seen.{Untouched};
ghost use Rattle.adr_node.specs.declared.ended.Refusal.{Refusal};
ghost use Rattle.adr_records.specs.Logged.{MayBegin};
ghost use Rattle.adr_call.specs.declared.refusal.AdoptRefusal.{AdoptRefusal};
ghost use Rattle.adr_wire.specs.declared.refusal.DecodeRefusal.{DecodeRefusal};
ghost use Rattle.adr_wire.specs.Ranges.{IsId};

use crate::drawing::draw;
use crate::ended::{Refusal, by_fault};
use crate::making::{Unmade, find_empty, format_empty};
use adr_call::{Failure, Text};
use adr_disk::Disk;
use adr_image::{Dormant, decode};
use adr_io::{Source, read_at_most};
use adr_law_recorded::adopted_states_are_logged;
use adr_outside::Fresh;
use adr_records::adopt;
use adr_state::State;
use adr_values::Guid;
use std::alloc::Global;

/// So many bytes of a source are read at most, one more than an image of a log may have: 4 GiB.
const IMAGE_LIMIT: usize = 4_294_967_296;

/// The bytes of an image.
fn read_bytes<S: Source>(alloc: Global, source: &mut S) -> Result<Vec<u8>, Unmade>
    ensures read { IfOk result (λ bytes. IfSome (S.left source.old) (λ text. bytes.items ≡ take image_limit text)) }
    ensures whole { OnOk result (IsReadWhole (S.left source.old) (S.left source.new)) }
    ensures at_most { IsReadAtMost (S.left source.old) (S.left source.new) }
    ensures why { IfErr result (λ e. (e ≡ Unmade.ReadFault) ⊎ (e ≡ Unmade.NoMemory)) }
    ensures fault { IsErrOf result Unmade.ReadFault → S.faults source.old < S.faults source.new }
    ensures later { S.faults source.old ≤ S.faults source.new }
{
    match read_at_most(alloc, source, IMAGE_LIMIT) {
        Ok(bytes) => Ok(bytes),
        Err(fault) => Err(by_fault(fault, Unmade::ReadFault, Unmade::NoMemory)),
    }
}

/// What bytes say of an image.
fn decode_bytes(alloc: Global, bytes: &[u8]) -> Result<Dormant, Unmade>
    ensures read { IfOk result (λ image. decoded bytes.now ≡ Ok image) }
    ensures refused { (why : DecodeRefusal) → IsErrOf result (Unmade.Refused (Refusal.Image why))
        → decoded bytes.now ≡ Err why }
    ensures why { IfErr result (λ e.
        ((why : DecodeRefusal) × (e ≡ Unmade.Refused (Refusal.Image why))) ⊎ (e ≡ Unmade.NoMemory)) }
{
    match decode(alloc, bytes) {
        Ok(image) => Ok(image),
        Err(Failure::Refused(why)) => Err(Unmade::Refused(Refusal::Image(why))),
        Err(Failure::NoMemory) => Err(Unmade::NoMemory),
    }
}

/// The image that a source gives.
fn read_image<S: Source>(alloc: Global, source: &mut S) -> Result<Dormant, Unmade>
    ensures read { IfOk result (λ image. Says (S.left source.old) (Ok image)) }
    ensures refused { (why : DecodeRefusal) → IsErrOf result (Unmade.Refused (Refusal.Image why))
        → Says (S.left source.old) (Err why) }
    ensures reads { ReadsSo (S.left source.old) (S.left source.new) (ended_as result) }
    ensures at_most { IsReadAtMost (S.left source.old) (S.left source.new) }
    ensures why { IfErr result (λ e.
        ((why : DecodeRefusal) × (e ≡ Unmade.Refused (Refusal.Image why))) ⊎ ((e ≡ Unmade.ReadFault) ⊎ (e ≡ Unmade.NoMemory))) }
    ensures fault { IsErrOf result Unmade.ReadFault → S.faults source.old < S.faults source.new }
    ensures later { S.faults source.old ≤ S.faults source.new }
{
    let bytes = read_bytes(alloc, source)?;
    decode_bytes(alloc, bytes.as_slice())
}

/// A controller of an image under its identifiers.
fn adopted(alloc: Global, image: Dormant, dsa: Guid, inv: Guid) -> Result<State, Unmade>
    requires dsa { IsId dsa }
    requires inv { IsId inv }
    ensures ok { IfOk result (λ state. adopt image dsa inv ≡ Ok state) }
    ensures begins { IfOk result MayBegin }
    ensures refused { (why : AdoptRefusal) → IsErrOf result (Unmade.Refused (Refusal.Adoption why))
        → adopt image dsa inv ≡ Err why }
    ensures why { IfErr result (λ e.
        ((why : AdoptRefusal) × (e ≡ Unmade.Refused (Refusal.Adoption why))) ⊎ (e ≡ Unmade.NoMemory)) }
{
    adopted_states_are_logged();
    match adopt(alloc, image.into_contents(), dsa, inv) {
        Ok(state) => Ok(state),
        Err(Failure::Refused(why)) => Err(Unmade::Refused(Refusal::Adoption(why))),
        Err(Failure::NoMemory) => Err(Unmade::NoMemory),
    }
}

/// A controller of the image under identifiers that are drawn.
fn adopt_drawn<F: Fresh>(
    alloc: Global,
    given: Option<Guid>,
    image: Dormant,
    fresh: &mut F,
) -> Result<State, Unmade>
    ensures ok { IfOk result (λ state.
        AdoptsImage given image (F.identifiers fresh.old) (F.identifiers fresh.new) (Ok state)) }
    ensures begins { IfOk result MayBegin }
    ensures refused { (why : AdoptRefusal) → IsErrOf result (Unmade.Refused (Refusal.Adoption why))
        → AdoptsImage given image (F.identifiers fresh.old) (F.identifiers fresh.new) (Err why) }
    ensures why { IfErr result (λ e.
        ((why : AdoptRefusal) × (e ≡ Unmade.Refused (Refusal.Adoption why)))
        ⊎ ((e ≡ Unmade.FreshFault) ⊎ (e ≡ Unmade.NoMemory))) }
    ensures fault { IsErrOf result Unmade.FreshFault → F.faults fresh.old < F.faults fresh.new }
    ensures later { F.faults fresh.old ≤ F.faults fresh.new }
{
    let (dsa, inv) = draw(given, fresh)?;
    adopted(alloc, image, dsa, inv)
}

/// A controller of the image that a source gives.
fn adopt_read<S: Source, F: Fresh>(
    alloc: Global,
    given: Option<Guid>,
    source: &mut S,
    fresh: &mut F,
) -> Result<State, Unmade>
    ensures ok { IfOk result (λ state.
        Adopts given (S.left source.old) (F.identifiers fresh.old) (F.identifiers fresh.new) (Ok state)) }
    ensures begins { IfOk result MayBegin }
    ensures refused { (why : Refusal) → IsErrOf result (Unmade.Refused why)
        → Adopts given (S.left source.old) (F.identifiers fresh.old) (F.identifiers fresh.new) (Err why) }
    ensures reads { ReadsSo (S.left source.old) (S.left source.new) (ended_as result) }
    ensures at_most { IsReadAtMost (S.left source.old) (S.left source.new) }
    ensures not_disk { IsErrOf result Unmade.DiskFault → ⊥ }
    ensures read_fault { IsErrOf result Unmade.ReadFault → S.faults source.old < S.faults source.new }
    ensures read_later { S.faults source.old ≤ S.faults source.new }
    ensures fault { IsErrOf result Unmade.FreshFault → F.faults fresh.old < F.faults fresh.new }
    ensures later { F.faults fresh.old ≤ F.faults fresh.new }
{
    let image = read_image(alloc, source)?;
    adopt_drawn(alloc, given, image, fresh)
}

/// Makes a controller of the image that a source gives, on the disk of this name.
pub(crate) fn image_on<D: Disk, S: Source, F: Fresh>(
    alloc: Global,
    given: Option<Guid>,
    name: &Text,
    source: &mut S,
    mut disk: D,
    fresh: &mut F,
) -> (Result<(), Unmade>, D)
    ensures made { let comes = Adopts given (S.left source.old) (F.identifiers fresh.old) (F.identifiers fresh.new) in
        let untaken = (source.new ≡ source.old) × (fresh.new ≡ fresh.old) in
        MadeOn D.Disk comes untaken disk result.1 result.0 }
    ensures reads { ReadsSo (S.left source.old) (S.left source.new) (ended_as result.0) }
    ensures at_most { IsReadAtMost (S.left source.old) (S.left source.new) }
    ensures read_fault { IsErrOf result.0 Unmade.ReadFault
        → (S.faults source.old < S.faults source.new) × Untouched D.Disk disk result.1 }
    ensures read_later { S.faults source.old ≤ S.faults source.new }
    ensures fault { IsErrOf result.0 Unmade.FreshFault
        → (F.faults fresh.old < F.faults fresh.new) × Untouched D.Disk disk result.1 }
    ensures later { F.faults fresh.old ≤ F.faults fresh.new }
{
    match find_empty(name, &mut disk) {
        Ok(()) => {}
        Err(unmade) => return (Err(unmade), disk),
    }
    match adopt_read(alloc, given, source, fresh) {
        Ok(state) => format_empty(alloc, disk, state),
        Err(unmade) => (Err(unmade), disk),
    }
}
