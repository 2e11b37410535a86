//! What is known of the units read so far: their last local USNs, and which objects are dead.

ghost use Rattle.std.specs.Prelude.{◌≡◌};
ghost use Rattle.adr_values.specs.Table.{has};
ghost use Rattle.adr_model.specs.Live.{is_among};

use adr_values::Oid;
use std::collections::BTreeSet;

/// Whether a local USN is the last one of a unit.
#[tactic(auto, using(crate::proofs::Sets::used_is))]
pub fn is_used(used: &BTreeSet<u64>, local: u64) -> bool
    ensures { result ≡ has used.now.keys local }
{
    used.contains(&local)
}

/// Whether an object is dead.
#[tactic(auto, using(crate::proofs::Sets::dead_is))]
pub fn is_dead(dead: &BTreeSet<Oid>, oid: &Oid) -> bool
    ensures { result ≡ is_among dead.now.keys oid.now }
{
    dead.contains(oid)
}
