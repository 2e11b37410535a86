//! Connections over TCP, on this machine alone. They tell nothing of their bytes.

ghost use Rattle.std.specs.Prelude.{◌≡◌, ◌≤◌, None, IfOk, length};

use crate::line::Line;
use crate::net::Net;
use adr_io::{Failures, Fault};
use std::io::{self, Read, Write};
use std::net::{Ipv4Addr, OpenListener, OpenStream, SocketAddr};
use std::rt::Clock;
use std::time::Duration;

/// How long a connect may take, in seconds.
const PATIENCE: u64 = 60;

/// A listener and an open stream at 127.0.0.1, and how many calls have failed.
///
/// Only `accept` may wait for ever. A connect is given up after 60 seconds. So is a receive or a send, where the peer
/// lets so long go by without a byte, and where a whole message takes longer than 60 seconds from its first byte and one
/// more for each 64 KiB of it. What is received between two sends is one message, and so is what is sent at once. Small
/// sends aren't held back to be joined to the next (`TCP_NODELAY`). Of a socket it can't be claimed that sent bytes
/// arrive, who the peer is, or that a call returns at all.
#[derive(Drop)]
pub struct TcpNet<R: std::net::Net> {
    net: R,
    listener: Option<R::Listener>,
    line: Option<Line<R::Stream>>,
    doors: Failures,
    lines: Failures,
}

/// A port of this machine.
fn address(port: u16) -> SocketAddr {
    SocketAddr::from((Ipv4Addr::LOCALHOST, port))
}

fn not_connected() -> io::Error {
    io::Error::from(io::ErrorKind::NotConnected)
}

impl<R: std::net::Net + Clock + Drop> TcpNet<R> {
    /// It listens nowhere yet, and has no connection.
    pub fn new(net: R) -> TcpNet<R>
        ensures doors { ⟦<TcpNet<R> as Net>⟧.doors result ≡ 0 }
        ensures lines { ⟦<TcpNet<R> as Net>⟧.lines result ≡ 0 }
    {
        TcpNet {
            net,
            listener: None,
            line: None,
            doors: Failures::new(),
            lines: Failures::new(),
        }
    }

    fn next_line(&self) -> io::Result<Line<R::Stream>> {
        match &self.listener {
            Some(listener) => {
                let (stream, _) = listener.accept()?;
                Line::new(stream)
            }
            None => Err(not_connected()),
        }
    }

    fn line_to(&self, port: u16) -> io::Result<Line<R::Stream>> {
        Line::new(
            self.net
                .connect_timeout(address(port), Duration::from_secs(PATIENCE))?,
        )
    }
}

/// Receives some bytes in the open line, if there is one.
fn receive_in<S: OpenStream + Read + Write + Drop, C: Clock>(
    line: &mut Option<Line<S>>,
    clock: &C,
    into: &mut [u8],
) -> io::Result<usize>
    ensures { IfOk result (λ n. n ≤ length into.new) }
{
    match line {
        Some(line) => line.receive(clock, into),
        None => Err(not_connected()),
    }
}

fn send_in<S: OpenStream + Read + Write + Drop, C: Clock>(
    line: &mut Option<Line<S>>,
    clock: &C,
    bytes: &[u8],
) -> io::Result<()> {
    match line {
        Some(line) => line.send(clock, bytes),
        None => Err(not_connected()),
    }
}

impl<R: std::net::Net + Clock + Drop> Net for TcpNet<R> {
    ghost doors = { λ n. n.doors };

    ghost lines = { λ n. n.lines };

    ghost traffic = { λ _. None };

    ghost keeps = { λ _. ⊥ };

    fn listen(&mut self, port: u16) -> Result<(), Fault> {
        match self.net.bind(address(port)) {
            Ok(listener) => {
                self.listener = Some(listener);
                Ok(())
            }
            Err(_) => Err(self.doors.fail()),
        }
    }

    fn accept(&mut self) -> Result<(), Fault> {
        self.line = None;
        match self.next_line() {
            Ok(line) => {
                self.line = Some(line);
                Ok(())
            }
            Err(_) => Err(self.doors.fail()),
        }
    }

    fn connect(&mut self, port: u16) -> Result<(), Fault> {
        self.line = None;
        match self.line_to(port) {
            Ok(line) => {
                self.line = Some(line);
                Ok(())
            }
            Err(_) => Err(self.doors.fail()),
        }
    }

    fn receive(&mut self, into: &mut [u8]) -> Result<usize, Fault> {
        match receive_in(&mut self.line, &self.net, into) {
            Ok(count) => Ok(count),
            Err(_) => Err(self.lines.fail()),
        }
    }

    fn send(&mut self, bytes: &[u8]) -> Result<(), Fault> {
        match send_in(&mut self.line, &self.net, bytes) {
            Ok(()) => Ok(()),
            Err(_) => Err(self.lines.fail()),
        }
    }

    fn hang_up(&mut self) {
        self.line = None;
    }
}
