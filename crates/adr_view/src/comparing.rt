//! Whether two controllers show the same, or have seen the same. Lists are compared by loops: they may be long.

ghost use Rattle.std.specs.Prelude.{◌≡◌, Bool};
ghost use Rattle.std.specs.Cmp.Lexicographic.{pointwise};
ghost use Rattle.std.specs.Str.{bytes_eq};
ghost use Rattle.adr_values.specs.Values.{same_value};
ghost use Rattle.adr_model.specs.Rings.{same_cursor, same_entry, same_links, same_values};

use adr_call::{Directory, Entry, Guids};
use adr_checks::is_same_value;
use adr_values::{Guid, Text, Value, Values, Vector};

/// What two lists are compared by.
trait Compared {
    /// Whether two are the same.
    ghost same: { Self → Self → Bool };

    /// Whether it is the same as another.
    fn is_same(&self, other: &Self) -> bool
        ensures { result ≡ same self.now other.now };
}

/// Whether two lists have the same, pair by pair.
fn same_all<T: Compared>(a: &[T], b: &[T]) -> bool
    ensures { result ≡ pointwise T.same a.now b.now }
{
    if a.len() != b.len() {
        return false;
    }
    'pairs: for k in 0..a.len() {
        if !a[k].is_same(&b[k]) {
            return false;
        }
    }
    true
}

/// Whether two names are one.
fn same_name(a: &Text, b: &Text) -> bool
    ensures { result ≡ bytes_eq a.now b.now }
{
    a.items() == b.items()
}

/// Whether two lists of GUIDs are one.
fn same_guids(a: &[Guid], b: &[Guid]) -> bool
    ensures { result ≡ pointwise bytes_eq a.now b.now }
{
    a == b
}

impl Compared for Value {
    ghost same = { same_value };

    fn is_same(&self, other: &Value) -> bool {
        is_same_value(self, other)
    }
}

// An attribute with its values.
impl Compared for (u16, Values) {
    ghost same = { same_values };

    fn is_same(&self, other: &(u16, Values)) -> bool {
        self.0 == other.0 && same_all(self.1.items(), other.1.items())
    }
}

// A link attribute with the objects at its other ends.
impl Compared for (u16, Guids) {
    ghost same = { same_links };

    fn is_same(&self, other: &(u16, Guids)) -> bool {
        self.0 == other.0 && same_guids(self.1.items(), other.1.items())
    }
}

impl Compared for Entry {
    ghost same = { same_entry };

    fn is_same(&self, other: &Entry) -> bool {
        self.guid == other.guid
            && self.class == other.class
            && self.parent == other.parent
            && same_name(&self.name, &other.name)
            && same_all(self.values.items(), other.values.items())
            && same_all(self.links.items(), other.links.items())
    }
}

// A cursor of a vector.
impl Compared for (Guid, u64) {
    ghost same = { same_cursor };

    fn is_same(&self, other: &(Guid, u64)) -> bool {
        self.0 == other.0 && self.1 == other.1
    }
}

/// Whether two directories show the same.
pub fn same_directory(a: &Directory, b: &Directory) -> bool
    ensures { result ≡ pointwise same_entry a.now b.now }
{
    same_all(a.entries(), b.entries())
}

/// Whether two vectors have the same cursors.
pub fn same_vector(a: &Vector, b: &Vector) -> bool
    ensures { result ≡ pointwise same_cursor a.now b.now }
{
    same_all(a.cursors(), b.cursors())
}
