//! `install` and `restore`: a controller of an image, on an empty disk.

ghost use Rattle.std.specs.Prelude.{◌≡◌, ◌<◌, ◌≤◌};
ghost use Rattle.adr_node.specs.Makes.{Adopts, IsReadAtMost, Makes, ReadsSo};
ghost use Rattle.adr_node.specs.Seen.{Untouched};

use crate::ended::Creation;
use crate::imaging::image_on;
use crate::making::tell;
use adr_call::Text;
use adr_disk::Disk;
use adr_io::{Sink, Source};
use adr_outside::Fresh;
use adr_values::Guid;
use std::alloc::Global;

/// Makes a controller of the image that the source gives, on the disk of this name, which has to be empty, and writes the
/// line of that, which begins with a verb. It has the given identifier, or else a fresh one, and its database a fresh one.
/// These are drawn in this order. The disk is attached, and comes back.
pub fn adopt<D: Disk, S: Source, F: Fresh, K: Sink>(
    alloc: Global,
    verb: &str,
    name: &Text,
    given: Option<Guid>,
    source: &mut S,
    disk: D,
    fresh: &mut F,
    sink: &mut K,
) -> (Creation, D)
    ensures makes { let comes = Adopts given (S.left source.old) (F.identifiers fresh.old) (F.identifiers fresh.new) in
        let untaken = (source.new ≡ source.old) × (fresh.new ≡ fresh.old) in
        Makes D.Disk K.Sink comes untaken verb.now name.now disk result.1 sink.old sink.new result.0 }
    ensures write_later { K.faults sink.old ≤ K.faults sink.new }

    // Of the source no more is read than an image may have, 2^32 bytes; and so much, or all, where the command came further.
    ensures read { IsReadAtMost (S.left source.old) (S.left source.new) }
    ensures read_whole { ReadsSo (S.left source.old) (S.left source.new) result.0 }

    // Where the image can't be read, or no identifier is given, nothing has changed of the disk.
    ensures read_fault { result.0 ≡ Creation.ReadFault
        → (S.faults source.old < S.faults source.new) × Untouched D.Disk disk result.1 }
    ensures read_later { S.faults source.old ≤ S.faults source.new }
    ensures fresh_fault { result.0 ≡ Creation.FreshFault
        → (F.faults fresh.old < F.faults fresh.new) × Untouched D.Disk disk result.1 }
    ensures fresh_later { F.faults fresh.old ≤ F.faults fresh.new }
{
    let (made, disk) = image_on(alloc, given, name, source, disk, fresh);
    (tell(alloc, verb, name, made, sink), disk)
}
