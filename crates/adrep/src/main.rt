//! `adrep`: the program's words over standard input and standard output, a file of the present folder, TCP on this machine,
//! and the system's clock and random numbers.
#![tactic(auto)]

use adr_cmd::run;
use adr_file::{FileDisk, SystemFolder, hold_streams};
use adr_io::{ReadSource, WriteSink};
use adr_outside::{RandomFresh, SystemClock, TcpNet};
use std::process::ExitCode;
use std::{env, io};

/// The words, without the program's name. No command has a word that isn't UTF-8, so where there is one, none is given.
fn words(rt: &HostRuntime) -> io::Result<Vec<String>> {
    match env::args(rt) {
        Ok(all) => Ok(all.skip(1).collect(rt.alloc())?),
        Err(e) if e.kind() == io::ErrorKind::OutOfMemory => Err(e),
        Err(_) => Ok(Vec::new(rt.alloc())),
    }
}

fn main(rt: HostRuntime) -> ExitCode {
    let Ok(_held) = hold_streams(&rt) else {
        return ExitCode::from(6);
    };
    let Ok(words) = words(&rt) else {
        return ExitCode::from(8);
    };
    let mut source = ReadSource::new(rt.reader());
    let mut sink = WriteSink::new(io::writer(&rt));
    let disk = FileDisk::new(SystemFolder::new(&rt));
    let mut net = TcpNet::new(&rt);
    let mut clock = SystemClock::new(&rt);
    let mut fresh = RandomFresh::new(&rt);
    let (status, _disk) = run(
        rt.alloc(),
        words.as_slice(),
        &mut source,
        &mut sink,
        disk,
        &mut net,
        &mut clock,
        &mut fresh,
    );
    ExitCode::from(status)
}
