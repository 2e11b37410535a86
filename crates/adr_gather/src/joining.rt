//! Puts one more record behind those that are held.

ghost use Rattle.std.specs.Prelude.{◌≡◌, ◌+◌, ◌≤◌, length, vec_capacity};
ghost use Rattle.adr_gather.specs.Held.{joined};

use adr_journal::OPEN_GATE;

/// Opens the last gate of what is held, if there is one, and puts a record behind it.
pub(crate) fn join(held: &mut Vec<u8>, written: &[u8])
    requires { length held.old.items + length written.now ≤ vec_capacity held.old }
    ensures { held.new.items ≡ joined held.old.items written.now }
{
    let last = held.len().saturating_sub(1);
    if let Some(gate) = held.get_mut(last) {
        *gate = OPEN_GATE;
    }
    held.extend_from_slice(written).unwrap();
}
