//! Frames that come in pieces, are cut anywhere, or are none.

ghost use Rattle.std.specs.Prelude.{◌<◌};

use adr_frames::{Heard, hear, say};
use adr_io::Fault;
use adr_outside::Net;
use adr_test_outside::MemNet;
use std::alloc::Global;
use std::test::Fail;

/// A frame that greets, and one that answers it: the controller's identifier, `#a0`.
const FRAMES: &[u8] =
    b"\x00\x00\x00\x01\x06\x00\x00\x00\x11\x07\x00\x00\x00\x00\x00\x00\x00\x00\x00\x00\x00\x00\x00\x00\x00\xa0";

/// A network in whose open connection these bytes come, at most so many at a time.
fn coming(alloc: Global, bytes: &[u8], piece: usize) -> Result<MemNet, Fail>
    requires { 0 < piece }
{
    let mut connections = Vec::new(alloc);
    connections.push(Vec::from_slice(alloc, bytes)?)?;
    let mut net = MemNet::in_pieces(alloc, connections, piece);
    net.accept()?;
    Ok(net)
}

/// How many frames are heard, and whether the connection is over behind them, or else broken.
fn heard(alloc: Global, bytes: &[u8], piece: usize) -> Result<(u32, bool), Fail>
    requires { 0 < piece }
{
    let mut net = coming(alloc, bytes, piece)?;
    let mut frames = 0;
    for _ in 0..3 {
        match hear(alloc, &mut net)? {
            Heard::Over => return Ok((frames, true)),
            Heard::Broken => return Ok((frames, false)),
            Heard::Frame(_) => frames = frames.saturating_add(1),
        }
    }
    Ok((frames, false))
}

#[test]
fn frames_that_are_cut_anywhere(rt: HostRuntime) -> Result<(), Fail> {
    for cut in 0..27 {
        for piece in [1, 3, 100] {
            let want = match cut {
                0 => (0, true),
                1..=4 => (0, false),
                5 => (1, true),
                26 => (2, true),
                _ => (1, false),
            };
            assert_eq!(rt;
                heard(rt.alloc(), &FRAMES[..cut], piece)?,
                want,
                "{cut} bytes by {piece}"
            );
        }
    }
    assert_eq!(rt; heard(rt.alloc(), b"\x00\x00\x00\x00", 3)?, (0, false));
    assert_eq!(rt; heard(rt.alloc(), b"\x00\x80\x00\x01\x06", 3)?, (0, false));
    Ok(())
}

#[test]
fn frames_that_are_sent(rt: HostRuntime) -> Result<(), Fail> {
    let mut net = coming(rt.alloc(), b"", 1)?;
    say(rt.alloc(), &mut net, b"\x06")?;
    assert_eq!(rt; say(rt.alloc(), &mut net, b""), Err(Fault::NoMemory));
    assert_eq!(rt;
        net.sent()[0].as_slice(),
        b"\x00\x00\x00\x01\x06".as_slice()
    );
    net.fail_after(0);
    assert_eq!(rt; say(rt.alloc(), &mut net, b"\x06"), Err(Fault::Failed));
    Ok(())
}
