//! What several raw calls do together.

ghost use Rattle.std.specs.Prelude.{◌≡◌, ◌⊎◌, ◌-◌, ◌≤◌, ℕ, List, [], true, false, Option, Some, None, IfOk, OnOk, IsSome, length, take, drop, min};
ghost use Rattle.std.specs.Option.{ForSome};
ghost use Rattle.adr_disk.specs.Disk.{After, Torn, Only, put};
ghost use Rattle.adr_file.specs.Device.{bytes_of, AsBytes, Changes, IsNamed, IsSeen, Made};
ghost use Rattle.adr_file.specs.Known.{KeepsFile, StaysOpen, IsOwnFile, Turns};

use crate::device::Folder;
use crate::folder::Identity;
use std::io;

/// A file that another hand moved, removed, replaced or cut.
fn moved() -> io::Error {
    io::Error::from(io::ErrorKind::NotFound)
}

fn is_same(one: Identity, other: Identity) -> bool
    ensures { result ≡ true → one ≡ other }
{
    one.device == other.device && one.number == other.number && one.names == other.names
}

/// Fails unless a name is that of the open file, itself and not by a link.
fn check_name<F: Folder>(folder: &mut F, path: &str) -> io::Result<()>
    ensures own { OnOk result (IsOwnFile F.Folder folder.new) }
    ensures seen { OnOk result (IsSeen F.file F.opened F.seen folder.new) }
    ensures keeps { KeepsFile F.Folder folder.old folder.new }
    ensures stays { StaysOpen F.Folder folder.old folder.new }
{
    let held = folder.measure()?;
    match folder.look(path)? {
        Some(found) if is_same(found.identity, held.identity) => Ok(()),
        _ => Err(moved()),
    }
}

/// Fails unless the open file is as long as it was left. Nobody knows how long one is behind a write that failed.
pub fn check_length<F: Folder>(folder: &mut F, left: Option<u64>) -> io::Result<()>
    ensures seen { F.seen folder.new ≡ F.seen folder.old }
    ensures keeps { KeepsFile F.Folder folder.old folder.new }
    ensures stays { StaysOpen F.Folder folder.old folder.new }
{
    if Some(folder.measure()?.length) == left {
        Ok(())
    } else {
        Err(moved())
    }
}

/// Fails unless the name is that of the open file, and the file as long as it was left.
fn check_open<F: Folder>(folder: &mut F, path: &str, left: Option<u64>) -> io::Result<()>
    ensures own { OnOk result (IsOwnFile F.Folder folder.new) }
    ensures seen { OnOk result (IsSeen F.file F.opened F.seen folder.new) }
    ensures keeps { KeepsFile F.Folder folder.old folder.new }
    ensures stays { StaysOpen F.Folder folder.old folder.new }
{
    check_name(folder, path)?;
    check_length(folder, left)
}

/// Fails unless there is nothing of that name.
fn check_free<F: Folder>(folder: &mut F, path: &str) -> io::Result<()>
    ensures free { OnOk result (ForSome (F.file folder.old) (λ there. there ≡ None)) }
    ensures keeps { KeepsFile F.Folder folder.old folder.new }
    ensures stays { StaysOpen F.Folder folder.old folder.new }
{
    match folder.look(path)? {
        Some(_) => Err(moved()),
        None => Ok(()),
    }
}

/// Whether a file is there. What is no regular file of the folder itself is refused before it is opened: of a device
/// length 0 is told, and a symbolic link may lead to a folder that is never synced.
fn is_there<F: Folder>(folder: &mut F, path: &str) -> io::Result<bool>
    ensures none { IfOk result (λ is. is ≡ false → ForSome (F.file folder.old) (λ there. there ≡ None)) }
    ensures keeps { KeepsFile F.Folder folder.old folder.new }
{
    match folder.look(path)? {
        Some(found) if found.is_regular => Ok(true),
        Some(_) => Err(io::Error::from(io::ErrorKind::InvalidInput)),
        None => Ok(false),
    }
}

/// Locks the open file. Before the lock another process may have put another file in its place, or a link may have stood
/// there.
fn lock<F: Folder>(folder: &mut F, path: &str) -> io::Result<()>
    ensures own { OnOk result (IsOwnFile F.Folder folder.new) }
    ensures keeps { KeepsFile F.Folder folder.old folder.new }
    ensures stays { StaysOpen F.Folder folder.old folder.new }
{
    folder.lock()?;
    check_name(folder, path)
}

/// Opens a file. Behind a sync that failed, memory may hold what the device never got.
fn open_there<F: Folder>(folder: &mut F, path: &str) -> io::Result<()>
    ensures own { OnOk result (IsOwnFile F.Folder folder.new) }
    ensures sure { OnOk result (F.is_sure folder.new) }
    ensures keeps { KeepsFile F.Folder folder.old folder.new }
{
    folder.open(path)?;
    lock(folder, path)?;
    folder.forget()
}

/// How many bytes the open file has.
pub fn length_of<F: Folder>(folder: &mut F) -> io::Result<u64>
    requires { IsOwnFile F.Folder folder.old }
    ensures length { IfOk result (λ count. ForSome (F.file folder.old) (λ there. count ≡ length (bytes_of there))) }
    ensures keeps { KeepsFile F.Folder folder.old folder.new }
    ensures stays { StaysOpen F.Folder folder.old folder.new }
{
    Ok(folder.measure()?.length)
}

/// Opens a file, if it is there, and answers its length.
pub fn open_file<F: Folder>(folder: &mut F, path: &str) -> io::Result<Option<u64>>
    ensures none { IfOk result (λ length. length ≡ None → ForSome (F.file folder.new) (λ there. there ≡ None)) }
    ensures own { IfOk result (λ length. IsSome length → IsOwnFile F.Folder folder.new) }
    ensures sure { IfOk result (λ length. IsSome length → F.is_sure folder.new) }
    ensures keeps { KeepsFile F.Folder folder.old folder.new }
{
    if !is_there(folder, path)? {
        return Ok(None);
    }
    open_there(folder, path)?;
    Ok(Some(length_of(folder)?))
}

/// Makes a file that isn't there.
pub fn make_file<F: Folder>(folder: &mut F, path: &str) -> io::Result<()>
    ensures made { ForSome (F.file folder.old) (λ there. ForSome (F.file folder.new) (Made there)) }
    ensures own { OnOk result (IsOwnFile F.Folder folder.new) }
    ensures sure { OnOk result (F.is_sure folder.new) }
    ensures turns { Turns F.Folder folder.old folder.new (AsBytes (F.may_leave folder.old)) }
{
    folder.make(path)?;
    lock(folder, path)
}

/// Reads until the buffer is full or the file ends.
pub fn fill<F: Folder>(folder: &mut F, at: u64, into: &mut [u8]) -> io::Result<usize>
    requires own { IsOwnFile F.Folder folder.old }
    requires sure { F.is_sure folder.old }
    ensures within { IfOk result (λ n. n ≤ length into.new) }
    ensures filled { IfOk result (λ n. ForSome (F.file folder.old) (λ there.
        n ≡ min (length into.old) (length (bytes_of there) - at))) }
    ensures read { IfOk result (λ n. ForSome (F.file folder.old) (λ there.
        take n into.new ≡ take n (drop at (bytes_of there)))) }
    ensures keeps { KeepsFile F.Folder folder.old folder.new }
    ensures stays { StaysOpen F.Folder folder.old folder.new }
{
    let mut filled = 0;
    'parts: while filled < into.len() {
        let Some(place) = at.checked_add(filled as u64) else {
            return Err(io::Error::from(io::ErrorKind::InvalidInput));
        };
        match folder.read(place, &mut into[filled..])? {
            0 => return Ok(filled),
            n => filled += n,
        }
    }
    Ok(filled)
}

/// Writes to the open file. What a crash leaves of the name stays.
pub fn write<F: Folder>(folder: &mut F, at: u64, bytes: &[u8]) -> io::Result<()>
    requires own { IsOwnFile F.Folder folder.old }
    requires within { ForSome (F.file folder.old) (λ there. at ≤ length (bytes_of there)) }
    ensures written { OnOk result (ForSome (F.file folder.old) (λ there.
        F.file folder.new ≡ Some (Some (put (bytes_of there) at bytes.now)))) }
    ensures still { IsOwnFile F.Folder folder.new }
    ensures named { ForSome (F.file folder.old) (λ there. IsNamed there (F.may_leave folder.old))
        → ForSome (F.file folder.new) (λ there. IsNamed there (F.may_leave folder.new)) }
    ensures turns { Turns F.Folder folder.old folder.new (After (Torn at (length bytes.now)) (AsBytes (F.may_leave folder.old))) }
    ensures stays { StaysOpen F.Folder folder.old folder.new }
{
    folder.write(at, bytes)
}

/// Syncs the open file, if there is one.
fn sync_file<F: Folder>(folder: &mut F, is_open: bool) -> io::Result<()>
    requires own { is_open ≡ true → IsOwnFile F.Folder folder.old }
    ensures durable { OnOk result (is_open ≡ true → F.is_sure folder.old → ForSome (F.file folder.old) (λ there.
        (left : Option (List ℕ)) → F.may_leave folder.new left → (left ≡ None) ⊎ (left ≡ there))) }
    ensures same { OnOk result (F.file folder.new ≡ F.file folder.old) }
    ensures changes { Changes F.file F.may_leave F.moment F.left_since folder.old folder.new (F.may_leave folder.old) }
    ensures stays { OnOk result (StaysOpen F.Folder folder.old folder.new) }
{
    if is_open { folder.sync() } else { Ok(()) }
}

/// Syncs the names, unless that was done.
fn sync_name<F: Folder>(folder: &mut F, is_name_safe: bool) -> io::Result<()>
    requires { is_name_safe ≡ true → ForSome (F.file folder.old) (λ there. IsNamed there (F.may_leave folder.old)) }
    ensures named { OnOk result (ForSome (F.file folder.old) (λ there. IsNamed there (F.may_leave folder.new))) }
    ensures same { F.file folder.new ≡ F.file folder.old }
    ensures changes { Changes F.file F.may_leave F.moment F.left_since folder.old folder.new (F.may_leave folder.old) }
    ensures stays { StaysOpen F.Folder folder.old folder.new }
{
    if is_name_safe {
        Ok(())
    } else {
        folder.sync_names()
    }
}

/// Has the device keep the open file's bytes, and its name.
pub fn sync<F: Folder>(folder: &mut F, is_open: bool, is_name_safe: bool) -> io::Result<()>
    requires own { is_open ≡ true → IsOwnFile F.Folder folder.old }
    requires sure { is_open ≡ true → F.is_sure folder.old }
    requires safe { is_name_safe ≡ true → ForSome (F.file folder.old) (λ there. IsNamed there (F.may_leave folder.old)) }
    ensures durable { OnOk result (is_open ≡ true → ForSome (F.file folder.new) (λ there. Only (bytes_of there) (AsBytes (F.may_leave folder.new)))) }
    ensures named { OnOk result (ForSome (F.file folder.new) (λ there. IsNamed there (F.may_leave folder.new))) }
    ensures same { OnOk result (F.file folder.new ≡ F.file folder.old) }
    ensures turns { Turns F.Folder folder.old folder.new (AsBytes (F.may_leave folder.old)) }
    ensures stays { OnOk result (StaysOpen F.Folder folder.old folder.new) }
{
    sync_file(folder, is_open)?;
    sync_name(folder, is_name_safe)
}

/// Fails unless the name is that of the open file, which has the length that it was left with, or of none.
pub fn check<F: Folder>(
    folder: &mut F,
    path: &str,
    is_open: bool,
    left: Option<u64>,
) -> io::Result<()>
    ensures seen { OnOk result (is_open ≡ true → IsSeen F.file F.opened F.seen folder.new) }
    ensures free { OnOk result (is_open ≡ false → ForSome (F.file folder.new) (λ there. there ≡ None)) }
    ensures keeps { KeepsFile F.Folder folder.old folder.new }
    ensures stays { StaysOpen F.Folder folder.old folder.new }
{
    if is_open {
        check_open(folder, path, left)
    } else {
        check_free(folder, path)
    }
}
