//! The command that the matches ask for.

ghost use Rattle.std.specs.Prelude.{◌≡◌, ◌∷◌, [], IfOk};
ghost use Rattle.clap.specs.Words.{found_of, rows_of, subcommand_rows_of};
ghost use Rattle.adr_words.specs.Asked.{asked, asked_by, asked_of};
ghost use Rattle.adr_words.specs.Commands.{COUNT, DSA, NAME, PORT};

use crate::arguments::{count, dsa, name, number, port};
use crate::kinds::Command;
use crate::kinds::DiskCommand::{self, Backup, Create, Export, Install, Show};
use adr_values::NoMemory;
use clap::ArgMatches;
use std::alloc::Global;

/// NAME DSA, behind `restore`.
fn restore(alloc: Global, matches: &ArgMatches<'_>) -> Result<Option<Command>, NoMemory>
    ensures { IfOk result (λ c. c ≡ asked_by (NAME ∷ DSA ∷ [])
        (λ name dsa. Command.OnDisk (DiskCommand.Restore name dsa)) (rows_of (found_of matches.now))) }
{
    let Some(name) = name(alloc, matches)? else {
        return Ok(None);
    };
    let Some(dsa) = dsa(matches)? else {
        return Ok(None);
    };
    Ok(Some(Command::OnDisk(DiskCommand::Restore { name, dsa })))
}

/// NAME PORT COUNT, behind `serve`.
fn serve(alloc: Global, matches: &ArgMatches<'_>) -> Result<Option<Command>, NoMemory>
    ensures { IfOk result (λ c. c ≡ asked_by (NAME ∷ PORT ∷ COUNT ∷ []) Command.Serve (rows_of (found_of matches.now))) }
{
    let Some(name) = name(alloc, matches)? else {
        return Ok(None);
    };
    let Some(port) = port(matches)? else {
        return Ok(None);
    };
    let Some(count) = count(matches)? else {
        return Ok(None);
    };
    Ok(Some(Command::Serve { name, port, count }))
}

/// NAME PORT, behind `pull`.
fn pull(alloc: Global, matches: &ArgMatches<'_>) -> Result<Option<Command>, NoMemory>
    ensures { IfOk result (λ c. c ≡ asked_by (NAME ∷ PORT ∷ []) Command.Pull (rows_of (found_of matches.now))) }
{
    let Some(name) = name(alloc, matches)? else {
        return Ok(None);
    };
    let Some(port) = port(matches)? else {
        return Ok(None);
    };
    Ok(Some(Command::Pull { name, port }))
}

/// What a subcommand and its matches ask for.
fn asked_of(
    alloc: Global,
    word: &str,
    matches: &ArgMatches<'_>,
) -> Result<Option<Command>, NoMemory>
    ensures { IfOk result (λ c. c ≡ asked_of word.now (rows_of (found_of matches.now))) }
{
    match word {
        "replay" => Ok(Some(Command::Replay)),
        "exercise" => Ok(number(matches)?.map(|number| Command::Exercise { number })),
        "create" => Ok(name(alloc, matches)?.map(|name| Command::OnDisk(Create { name }))),
        "install" => Ok(name(alloc, matches)?.map(|name| Command::OnDisk(Install { name }))),
        "restore" => restore(alloc, matches),
        "backup" => Ok(name(alloc, matches)?.map(|name| Command::OnDisk(Backup { name }))),
        "show" => Ok(name(alloc, matches)?.map(|name| Command::OnDisk(Show { name }))),
        "export" => Ok(name(alloc, matches)?.map(|name| Command::OnDisk(Export { name }))),
        "serve" => serve(alloc, matches),
        "pull" => pull(alloc, matches),
        "send" => Ok(port(matches)?.map(|port| Command::Send { port })),
        _ => Ok(None),
    }
}

/// What the matches ask for.
pub fn asked(alloc: Global, matches: &ArgMatches<'_>) -> Result<Option<Command>, NoMemory>
    ensures { IfOk result (λ c. c ≡ asked (subcommand_rows_of matches.now)) }
{
    match matches.subcommand() {
        Some((word, matches)) => asked_of(alloc, word, matches),
        None => Ok(None),
    }
}
