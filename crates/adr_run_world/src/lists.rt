//! Lists that grow where there is room, and whose items are replaced.

ghost use Rattle.std.specs.Prelude.{◌≡◌, ◌++◌, ◌+◌, ◌<◌, ◌∷◌, ◌≤◌, [], length, slice_set, vec_len};
ghost use Rattle.std.specs.Vec.{vec_capacity};

/// Adds an item where there is room for it.
pub fn put<T: Drop>(list: &mut Vec<T>, item: T)
    requires { vec_len list.old + 1 ≤ vec_capacity list.old }
    ensures items { list.new.items ≡ list.old.items ++ item ∷ [] }
    ensures len { vec_len list.new ≡ vec_len list.old + 1 }
    ensures capacity { vec_capacity list.old ≤ vec_capacity list.new }
{
    let _ = list.push(item);
}

/// Puts an item in place of another.
pub fn replace<T: Drop>(list: &mut Vec<T>, place: usize, item: T)
    requires { place < length list.old.items }
    ensures { list.new.items ≡ slice_set list.old.items place item }
{
    list[place] = item;
}
