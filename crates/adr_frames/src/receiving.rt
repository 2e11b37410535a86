//! Bytes of a connection, piece by piece.

ghost use Rattle.std.specs.Prelude.{◌≡◌, ◌<◌, ◌≤◌, ◌++◌, ◌+◌, ℕ, IfOk, IfSome, IsErrOf, OnOk, Ok, Some, [], drop, length, take};
ghost use Rattle.adr_outside.specs.Calls.{CountsLine};
ghost use Rattle.adr_outside.specs.Traffic.{Traffic};
ghost use Rattle.adr_frames.specs.Hearing.{IsPartReceived};

use adr_io::Fault;
use adr_outside::Net;
use std::alloc::Global;

/// Receives some bytes, at most so many; at the end none.
fn receive_some<N: Net>(net: &mut N, bytes: &mut Vec<u8>, room: usize) -> Result<usize, Fault>
    requires { 0 < room }
    ensures received { IfOk result (λ n. IfSome (N.traffic net.old) (λ t. (n ≤ length t.left)
        × (N.traffic net.new ≡ Some (record t { left = drop n t.left }))
        × (bytes.new.items ≡ bytes.old.items ++ take n t.left))) }
    ensures count { IfOk result (λ n. (n ≤ room) × (length bytes.new.items ≡ length bytes.old.items + n)) }
    ensures end { result ≡ Ok 0 → IfSome (N.traffic net.old) (λ t. t.left ≡ []) }
    ensures part { IsPartReceived (N.traffic net.old) (N.traffic net.new) }
    ensures counts { CountsLine N.Net net.old net.new result }
{
    let mut buffer = [0u8; 4096];
    let size = room.min(4096);
    let (front, _) = buffer.split_at_mut(size);
    let count = net.receive(front)?;
    bytes.extend_from_slice(&front[..count])?;
    Ok(count)
}

/// Receives so many bytes, or all that come before the peer's end, if they are fewer. They are kept as they come, so
/// that no memory is taken for bytes which were only promised.
pub(crate) fn receive_at_most<N: Net>(
    alloc: Global,
    net: &mut N,
    most: usize,
) -> Result<Vec<u8>, Fault>
    ensures received { IfOk result (λ bytes. IfSome (N.traffic net.old) (λ t. bytes.items ≡ take most t.left)) }
    ensures left { OnOk result (IfSome (N.traffic net.old) (λ t.
        N.traffic net.new ≡ Some (record t { left = drop most t.left }))) }
    ensures at_most { IfOk result (λ bytes. length bytes.items ≤ most) }
    ensures part { IsPartReceived (N.traffic net.old) (N.traffic net.new) }
    ensures counts { CountsLine N.Net net.old net.new result }
{
    let mut bytes = Vec::new(alloc);
    'turns: for turn in 0..most {
        let room = most - bytes.len();
        if room == 0 {
            return Ok(bytes);
        }
        let count = receive_some(net, &mut bytes, room)?;
        if count == 0 {
            return Ok(bytes);
        }
    }
    Ok(bytes)
}
