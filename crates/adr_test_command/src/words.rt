//! Each command by its words, and words that are none.

use crate::memory::said;
use adr_words::{Command, DiskCommand, command};
use std::alloc::Global;
use std::test::Fail;

/// Words, and what they are.
const CASES: [(&[&str], &str); 25] = [
    (&["replay"], "replay"),
    (&["exercise", "40"], "exercise 40"),
    (&["create", "N1"], "create N1"),
    (&["install", "N1"], "install N1"),
    (&["restore", "N1", "#a0"], "restore N1 160"),
    (&["backup", "N1"], "backup N1"),
    (&["show", "N1"], "show N1"),
    (&["export", "N1"], "export N1"),
    (&["serve", "N1", "4000", "1000"], "serve N1 4000 1000"),
    (&["pull", "N1", "65535"], "pull N1 65535"),
    (&["send", "1"], "send 1"),
    (&[], "none"),
    (&[""], "none"),
    (&["help"], "none"),
    (&["--help"], "none"),
    (&["replay", "x"], "none"),
    (&["replay", "--"], "none"),
    (&["create"], "none"),
    (&["create", ""], "none"),
    (&["create", "1N"], "none"),
    (&["create", "N1", "-h"], "none"),
    (&["exercise", "01"], "none"),
    (&["restore", "N1", "a0"], "none"),
    (&["serve", "N1", "65536", "1"], "none"),
    (&["serve", "N1", "4000", "1001"], "none"),
];

/// The word and values of a command over a disk.
fn told_on_disk(alloc: Global, command: &DiskCommand) -> Result<String, Fail> {
    Ok(match command {
        DiskCommand::Create { name } => format!(in alloc; "create {}", name.as_str())?,
        DiskCommand::Install { name } => format!(in alloc; "install {}", name.as_str())?,
        DiskCommand::Restore { name, dsa } => {
            format!(in alloc; "restore {} {}", name.as_str(), dsa.as_u128())?
        }
        DiskCommand::Backup { name } => format!(in alloc; "backup {}", name.as_str())?,
        DiskCommand::Show { name } => format!(in alloc; "show {}", name.as_str())?,
        DiskCommand::Export { name } => format!(in alloc; "export {}", name.as_str())?,
    })
}

/// The command's word and values.
fn told(alloc: Global, command: &Command) -> Result<String, Fail> {
    Ok(match command {
        Command::Replay => format!(in alloc; "replay")?,
        Command::Exercise { number } => format!(in alloc; "exercise {number}")?,
        Command::OnDisk(command) => told_on_disk(alloc, command)?,
        Command::Serve { name, port, count } => {
            format!(in alloc; "serve {} {port} {count}", name.as_str())?
        }
        Command::Pull { name, port } => format!(in alloc; "pull {} {port}", name.as_str())?,
        Command::Send { port } => format!(in alloc; "send {port}")?,
    })
}

fn read(alloc: Global, words: &[&str]) -> Result<String, Fail> {
    let words = said(alloc, words)?;
    match command(alloc, words.as_slice())? {
        Some(command) => told(alloc, &command),
        None => Ok(format!(in alloc; "none")?),
    }
}

#[test]
fn words_are_commands(rt: HostRuntime) -> Result<(), Fail> {
    for (words, is) in &CASES {
        assert!(rt; read(rt.alloc(), words)?.as_str() == *is);
    }
    Ok(())
}
