//! From frames to bytes.

ghost use Rattle.std.specs.Prelude.{◌≡◌, ◌<◌, ◌≤◌, IfSome, IsErrOf, OnErr, OnOk, length};
ghost use Rattle.adr_outside.specs.Calls.{CountsLine};
ghost use Rattle.adr_outside.specs.Traffic.{Sends, SendsFront};
ghost use Rattle.adr_frames.specs.Frames.{IsFrameLength, frame};

use adr_io::Fault;
use adr_outside::Net;
use adr_wire::Writer;
use std::alloc::Global;

/// The most bytes of a frame, behind its length: 8 MiB.
pub const FRAME_LIMIT: u32 = 8_388_608;

/// Sends a frame of these bytes in the open connection, or fails after a front of it. Memory is wanting also for a frame
/// of no bytes, and for one above the limit. Where it is, nothing is sent.
pub fn say<N: Net>(alloc: Global, net: &mut N, bytes: &[u8]) -> Result<(), Fault>
    ensures sent { OnOk result (IfSome (N.traffic net.old) (λ t. Sends t (N.traffic net.new) (frame bytes.now))) }
    ensures limit { OnOk result (IsFrameLength (length bytes.now)) }
    ensures front { OnErr result (IfSome (N.traffic net.old) (λ t.
        SendsFront t (N.traffic net.new) (frame bytes.now))) }
    ensures no_memory { IsErrOf result Fault.NoMemory → N.traffic net.new ≡ N.traffic net.old }
    ensures counts { CountsLine N.Net net.old net.new result }
{
    let len = bytes.len();
    if len == 0 || len > FRAME_LIMIT as usize {
        return Err(Fault::NoMemory);
    }
    let mut writer = Writer::new(alloc);
    writer.write_u32(&(len as u32))?;
    writer.write_bytes(bytes)?;
    let whole = writer.into_bytes();
    net.send(&whole)
}
