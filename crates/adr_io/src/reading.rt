//! Reading a source to its end, or to a limit.

ghost use Rattle.std.specs.Prelude.{◌≡◌, ◌<◌, ◌≤◌, ℕ, length, take, drop, [], ◌++◌, ◌+◌, Some, Ok, IfOk, IfSome, IsErrOf};

use crate::{Fault, Source};
use std::alloc::Global;

/// Reads some bytes, at most so many; at the end none.
fn read_some<S: Source>(source: &mut S, bytes: &mut Vec<u8>, room: usize) -> Result<usize, Fault>
    requires { 0 < room }
    ensures read { IfOk result (λ n. IfSome (S.left source.old) (λ before.
        (n ≤ length before) × (S.left source.new ≡ Some (drop n before)) × (bytes.new.items ≡ bytes.old.items ++ take n before))) }
    ensures count { IfOk result (λ n. (n ≤ room) × (length bytes.new.items ≡ length bytes.old.items + n)) }
    ensures end { result ≡ Ok 0 → IfSome (S.left source.old) (λ before. before ≡ []) }
    ensures at_most { IfSome (S.left source.old) (λ before. (n : ℕ) × (n ≤ room)
        × (S.left source.new ≡ Some (drop n before))) }
    ensures never_falls { S.faults source.old ≤ S.faults source.new }
    ensures failed { IsErrOf result Fault.Failed → S.faults source.old < S.faults source.new }
{
    let mut buffer = [0u8; 4096];
    let size = room.min(4096);
    let (front, _) = buffer.split_at_mut(size);
    let count = source.read(front)?;
    bytes.extend_from_slice(&front[..count])?;
    Ok(count)
}

/// Reads to the end, or until there are as many bytes as are wanted at most.
pub fn read_at_most<S: Source>(alloc: Global, source: &mut S, most: usize) -> Result<Vec<u8>, Fault>
    ensures read { IfOk result (λ bytes. IfSome (S.left source.old) (λ before. bytes.items ≡ take most before)) }
    ensures left { IfOk result (λ bytes. IfSome (S.left source.old) (λ before.
        S.left source.new ≡ Some (drop most before))) }
    ensures at_most { IfSome (S.left source.old) (λ before. (n : ℕ) × (n ≤ most)
        × (S.left source.new ≡ Some (drop n before))) }
    ensures never_falls { S.faults source.old ≤ S.faults source.new }
    ensures failed { IsErrOf result Fault.Failed → S.faults source.old < S.faults source.new }
{
    let mut bytes = Vec::new(alloc);
    'turns: for turn in 0..most {
        let room = most - bytes.len();
        if room == 0 {
            return Ok(bytes);
        }
        let count = read_some(source, &mut bytes, room)?;
        if count == 0 {
            return Ok(bytes);
        }
    }
    Ok(bytes)
}
