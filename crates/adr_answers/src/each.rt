//! Texts that are written one after the other.

ghost use Rattle.std.specs.Prelude.{◌≡◌, ◌++◌, ℕ, List, OnOk, flat_map};

use adr_values::NoMemory;

/// What has a text.
pub trait PushText {
    ghost text: { Self → List ℕ };

    /// Adds the text.
    fn push_to(&self, out: &mut Vec<u8>) -> Result<(), NoMemory>
        ensures { OnOk result (out.new.items ≡ out.old.items ++ text self.now) };
}

/// Adds the text of each.
pub fn push_each<T: PushText>(out: &mut Vec<u8>, list: &[T]) -> Result<(), NoMemory>
    ensures { OnOk result (out.new.items ≡ out.old.items ++ flat_map T.text list.now) }
{
    for item in list {
        item.push_to(out)?;
    }
    Ok(())
}
