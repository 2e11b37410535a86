//! Replays the schedules named by its words. In each the answers stand as comments, each behind the
//! line that it answers: a line that begins with `;> ` is what the program has to write there.
//!
//! Beside it, tests of what no clause says of the program's top call: its words, commands over a disk and over a network,
//! and sources, sinks, disks, networks, clocks and identifiers that fail. All run the call over all in memory.
#![tactic(auto)]

mod memory;
#[cfg(test)]
mod nodes;
#[cfg(test)]
mod sessions;
#[cfg(test)]
mod tests;
#[cfg(test)]
mod words;

use crate::memory::Memory;
use std::alloc::Global;
use std::process::ExitCode;
use std::{env, fs, io};

/// What begins the comment of an answer.
const ANSWER: &[u8] = b";> ";

/// The answers that stand in a schedule.
fn answers_in(alloc: Global, schedule: &[u8]) -> io::Result<Vec<u8>> {
    let mut answers = Vec::new(alloc);
    for line in schedule.split(|byte| *byte == b'\n') {
        if let Some(answer) = line.strip_prefix(ANSWER) {
            answers.extend_from_slice(answer)?;
            answers.push(b'\n')?;
        }
    }
    Ok(answers)
}

/// Whether the program writes these answers for the schedule, of which it is given some bytes at a time.
fn is_answered(alloc: Global, schedule: &[u8], answers: &[u8]) -> io::Result<bool> {
    let (status, after) = Memory::new(alloc, schedule, 7)?.run(alloc, &["replay"])?;
    let due = if answers.starts_with(b"line ".as_slice()) {
        3
    } else {
        0
    };
    Ok(status == due && after.sink.bytes() == answers)
}

/// Whether the schedule in a file is answered as it says.
fn is_as_written(rt: &HostRuntime, name: &str) -> io::Result<bool> {
    let schedule = fs::read(rt, format!(in rt.alloc(); "{name}.schedule")?)?;
    let answers = answers_in(rt.alloc(), schedule.as_slice())?;
    is_answered(rt.alloc(), schedule.as_slice(), answers.as_slice())
}

/// Whether all are as written; each is told.
fn are_as_written(rt: &HostRuntime) -> io::Result<bool> {
    let mut all = true;
    for name in env::args(rt)?.skip(1) {
        let same = is_as_written(rt, name.as_str())?;
        let told = if same { "as written" } else { "other answers" };
        println!(rt; "{name}: {told}")?;
        all = all && same;
    }
    Ok(all)
}

fn main(rt: HostRuntime) -> ExitCode {
    match are_as_written(&rt) {
        Ok(true) => ExitCode::from(0),
        Ok(false) => ExitCode::from(1),
        Err(_) => ExitCode::from(2),
    }
}
