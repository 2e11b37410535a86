//! The program's top call over a source, a sink, a disk, a network, a clock and identifiers in memory, each of which can be
//! told to fail at a call. It is for tests, and doesn't know what the words mean.

ghost use Rattle.std.specs.Prelude.{◌≡◌, ◌<◌};

use adr_run_disk::MemDisk;
use adr_test_io::{MemSink, MemSource};
use adr_test_outside::{MemClock, MemFresh, MemNet};
use adr_values::Guid;
use std::alloc::{AllocError, Global};

/// Which call fails: the one after so many.
#[derive(Clone, Copy, Debug)]
pub enum Failing {
    Never,
    Source(u32),
    Sink(u32),
    Disk(u32),
    Net(u32),
    Clock(u32),
    Fresh(u32),
}

/// The words of a command.
pub fn said(alloc: Global, words: &[&str]) -> Result<Vec<String>, AllocError> {
    let mut said = Vec::new(alloc);
    for word in words {
        said.push(String::from_str(alloc, word)?)?;
    }
    Ok(said)
}

/// Identifiers of these numbers.
pub fn identifiers(alloc: Global, numbers: &[u128]) -> Result<MemFresh, AllocError> {
    let mut given = Vec::new(alloc);
    for number in numbers {
        given.push(Guid::from_u128(*number))?;
    }
    Ok(MemFresh::new(given))
}

/// What a command is run over.
#[derive(Drop)]
pub struct Memory {
    pub source: MemSource,
    pub sink: MemSink,
    pub disk: MemDisk,
    pub net: MemNet,
    pub clock: MemClock,
    pub fresh: MemFresh,
}

impl Memory {
    /// A text that is read in pieces, and an empty disk. No connection comes, no moment is told, and no identifier given.
    pub fn new(alloc: Global, text: &[u8], piece: usize) -> Result<Memory, AllocError>
        requires { 0 < piece }
    {
        Ok(Memory {
            source: MemSource::new(Vec::from_slice(alloc, text)?, piece),
            sink: MemSink::new(alloc),
            disk: MemDisk::new(alloc),
            net: MemNet::new(alloc, Vec::new(alloc)),
            clock: MemClock::new(Vec::new(alloc)),
            fresh: MemFresh::new(Vec::new(alloc)),
        })
    }

    /// Lets a call fail.
    pub fn fail(&mut self, failing: Failing) {
        match failing {
            Failing::Never => {}
            Failing::Source(calls) => self.source.fail_after(calls),
            Failing::Sink(calls) => self.sink.fail_after(calls),
            Failing::Disk(calls) => self.disk.fail_after(calls),
            Failing::Net(calls) => self.net.fail_after(calls),
            Failing::Clock(calls) => self.clock.fail_after(calls),
            Failing::Fresh(calls) => self.fresh.fail_after(calls),
        }
    }

    /// Does what the words say: the status, and what has become of all.
    pub fn run(self, alloc: Global, words: &[&str]) -> Result<(u8, Memory), AllocError> {
        let words = said(alloc, words)?;
        let Memory {
            mut source,
            mut sink,
            disk,
            mut net,
            mut clock,
            mut fresh,
        } = self;
        let (status, disk) = adr_cmd::run(
            alloc,
            words.as_slice(),
            &mut source,
            &mut sink,
            disk,
            &mut net,
            &mut clock,
            &mut fresh,
        );
        let after = Memory {
            source,
            sink,
            disk,
            net,
            clock,
            fresh,
        };
        Ok((status, after))
    }

    /// The disk alone.
    pub fn into_disk(self) -> MemDisk
        ensures { result ≡ self.disk }
    {
        let Memory {
            source: _source,
            sink: _sink,
            disk,
            net: _net,
            clock: _clock,
            fresh: _fresh,
        } = self;
        disk
    }
}
