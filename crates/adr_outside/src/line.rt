//! One open stream, and the time that its messages may take.

ghost use Rattle.std.specs.Prelude.{◌<◌, ◌≤◌, IfOk, length};

use std::io::{self, Read, Write};
use std::net::OpenStream;
use std::rt::Clock;
use std::time::{Duration, Instant};

/// How long one wait for a peer may take, and a message from its first byte, in seconds.
const PATIENCE: u64 = 60;

/// For so many bytes of it a message may take a second more.
const BYTES_A_SECOND: u64 = 65_536;

/// When the first byte of a message came or went, and how many bytes there were of it so far.
#[derive(Clone, Copy)]
struct Message {
    begun: Instant,
    bytes: u64,
}

impl Message {
    /// How many seconds, rounded up, the next wait within it may take; at most 60. None where its time is over.
    fn wait<C: Clock>(&self, clock: &C) -> io::Result<u64> {
        let due = Duration::from_secs(PATIENCE + self.bytes / BYTES_A_SECOND);
        let left = due.saturating_sub(self.begun.elapsed(clock)?);
        if left.is_zero() {
            return Err(io::Error::from(io::ErrorKind::TimedOut));
        }
        let whole = left.as_secs();
        Ok(if whole < PATIENCE {
            whole + 1
        } else {
            PATIENCE
        })
    }
}

/// An open stream, the message that is being received in it, and for how many seconds a call of it waits.
#[derive(Drop)]
pub struct Line<S> {
    stream: S,
    heard: Option<Message>,
    read_wait: u64,
    write_wait: u64,
}

impl<S: OpenStream + Read + Write + Drop> Line<S> {
    /// A stream that sends at once, and whose calls don't wait for ever.
    pub fn new(stream: S) -> io::Result<Line<S>> {
        stream.set_nodelay(true)?;
        stream.set_read_timeout(Some(Duration::from_secs(PATIENCE)))?;
        stream.set_write_timeout(Some(Duration::from_secs(PATIENCE)))?;
        Ok(Line {
            stream,
            heard: None,
            read_wait: PATIENCE,
            write_wait: PATIENCE,
        })
    }

    /// The stream's next read waits as long as the message that is under way may still take.
    fn limit_read<C: Clock>(&mut self, clock: &C) -> io::Result<()> {
        let wait = match &self.heard {
            Some(message) => message.wait(clock)?,
            None => PATIENCE,
        };
        if wait != self.read_wait {
            self.stream
                .set_read_timeout(Some(Duration::from_secs(wait)))?;
            self.read_wait = wait;
        }
        Ok(())
    }

    fn limit_write<C: Clock>(&mut self, clock: &C, message: Message) -> io::Result<()> {
        let wait = message.wait(clock)?;
        if wait != self.write_wait {
            self.stream
                .set_write_timeout(Some(Duration::from_secs(wait)))?;
            self.write_wait = wait;
        }
        Ok(())
    }

    /// So many bytes more were received of the message.
    fn note<C: Clock>(&mut self, clock: &C, count: usize) -> io::Result<()> {
        let before = match self.heard {
            Some(message) => message,
            None => Message {
                begun: Instant::now(clock)?,
                bytes: 0,
            },
        };
        self.heard = Some(Message {
            begun: before.begun,
            bytes: before.bytes.saturating_add(count as u64),
        });
        Ok(())
    }

    /// Receives some bytes; only at the peer's end, none. What a signal interrupts is done again.
    pub fn receive<C: Clock>(&mut self, clock: &C, into: &mut [u8]) -> io::Result<usize>
        ensures { IfOk result (λ n. n ≤ length into.new) }
    {
        for _ in 0..u64::MAX {
            self.limit_read(clock)?;
            match self.stream.read(into) {
                Err(e) if e.kind() == io::ErrorKind::Interrupted => {}
                Err(e) => return Err(e),
                Ok(count) => {
                    self.note(clock, count)?;
                    return Ok(count);
                }
            }
        }
        Err(io::Error::from(io::ErrorKind::Interrupted))
    }

    /// Sends some of the bytes, which are a message's next ones. What a signal interrupts is done again.
    fn send_some<C: Clock>(
        &mut self,
        clock: &C,
        message: Message,
        bytes: &[u8],
    ) -> io::Result<usize>
        ensures { IfOk result (λ n. (0 < n) × (n ≤ length bytes.now)) }
    {
        for _ in 0..u64::MAX {
            self.limit_write(clock, message)?;
            match self.stream.write(bytes) {
                Err(e) if e.kind() == io::ErrorKind::Interrupted => {}
                Err(e) => return Err(e),
                Ok(0) => return Err(io::Error::from(io::ErrorKind::WriteZero)),
                Ok(count) => return Ok(count),
            }
        }
        Err(io::Error::from(io::ErrorKind::Interrupted))
    }

    /// Sends a message. What is received from then on is the next one.
    pub fn send<C: Clock>(&mut self, clock: &C, bytes: &[u8]) -> io::Result<()> {
        let begun = Instant::now(clock)?;
        let mut sent = 0;
        'parts: while sent < bytes.len() {
            let message = Message {
                begun,
                bytes: sent as u64,
            };
            sent += self.send_some(clock, message, &bytes[sent..])?;
        }
        self.heard = None;
        Ok(())
    }
}
