//! How many cursors a vector comes to have.

ghost use Rattle.std.specs.Prelude.{◌≡◌, [], length, unwrap_or};
ghost use Rattle.std.specs.Option.{option_copied};
ghost use Rattle.adr_values.specs.Vector.{joined, raised};
ghost use Rattle.adr_overlay.specs.Cursors.{new_at};

use adr_values::{Guid, Vector, seen_by_both};

/// How many cursors there are when a vector takes over what another has seen, if there is another, and is then raised
/// at one identifier.
pub fn len_after(vector: &Vector, other: Option<&Vector>, inv: Guid, usn: u64) -> usize
    ensures { result ≡ length (raised (joined vector.now (unwrap_or (option_copied other.entry) [])) inv usn) }
{
    match other {
        Some(other) => len_of_both(vector, other, inv, usn),
        None => vector.cursors().len() + new_at(vector.at(inv), usn),
    }
}

/// How many there are of both, raised at one identifier.
fn len_of_both(vector: &Vector, other: &Vector, inv: Guid, usn: u64) -> usize
    ensures { result ≡ length (raised (joined vector.now other.now) inv usn) }
{
    vector.is_vector();
    vector.len_joined(other) + new_at(seen_by_both(vector, other, inv), usn)
}

/// How many cursors are new where a number is raised: one, if it was 0.
fn new_at(from: u64, to: u64) -> usize
    ensures { result ≡ new_at from to }
{
    if from < to && from == 0 { 1 } else { 0 }
}
