//! The raw calls of the present folder and of one file in it, and what is trusted of each.

ghost use Rattle.std.specs.Prelude.{◌≡◌, ◌⊎◌, ℕ, ◌≤◌, List, [], Option, Some, None, IfOk, OnOk, IsSome, length};
ghost use Rattle.std.specs.Option.{ForSome, option_map};
ghost use Rattle.adr_disk.specs.Disk.{put, Keeps};

use arrayvec::ArrayString;
use std::io;

/// The longest name that a file can have, in bytes.
const LONGEST_NAME: usize = 255;

pub type FileName = ArrayString<LONGEST_NAME>;

/// `NAME.adr`; none where no file of the present folder can be called so.
pub fn file_name(name: &str) -> Option<FileName> {
    if name.contains('/') {
        return None;
    }
    let mut path = ArrayString::new();
    if path.try_push_str(name).is_err() {
        return None;
    }
    if path.try_push_str(".adr").is_err() {
        return None;
    }
    Some(path)
}

/// Which file one is: its device, its number there, and how many names it has.
#[derive(Clone, Copy)]
pub struct Identity {
    pub device: u64,
    pub number: u64,
    pub names: u64,
}

/// What stands under a name: which file, and whether it is a regular one. A link is looked at itself.
#[derive(Clone, Copy)]
pub struct Found {
    pub identity: Identity,
    pub is_regular: bool,
}

/// Which file is open, and how many bytes it has.
#[derive(Clone, Copy)]
pub struct Measured {
    pub identity: Identity,
    pub length: u64,
}
