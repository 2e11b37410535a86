//! The parser of the words.

ghost use Rattle.std.specs.Prelude.{◌≡◌, IfOk, false, map};
ghost use Rattle.clap.specs.Words.{app_of, shape_of};
ghost use Rattle.clap.specs.declared.builder.command.Command.TheViews.{out-Command};
ghost use Rattle.adr_words.specs.Parser.{bare, leaf, parser, with_leaf, with_leaves};

use adr_values::NoMemory;
use clap::{Arg, Command};
use std::alloc::Global;

/// A subcommand's word, and the names of the words that it wants behind it.
struct Subcommand {
    word: &'static str,
    ids: &'static [&'static str],
}

#[rattlefmt::skip]
static SUBCOMMANDS: [Subcommand; 11] = [
    Subcommand { word: "replay", ids: &[] },
    Subcommand { word: "exercise", ids: &["N"] },
    Subcommand { word: "create", ids: &["NAME"] },
    Subcommand { word: "install", ids: &["NAME"] },
    Subcommand { word: "restore", ids: &["NAME", "DSA"] },
    Subcommand { word: "backup", ids: &["NAME"] },
    Subcommand { word: "show", ids: &["NAME"] },
    Subcommand { word: "export", ids: &["NAME"] },
    Subcommand { word: "serve", ids: &["NAME", "PORT", "COUNT"] },
    Subcommand { word: "pull", ids: &["NAME", "PORT"] },
    Subcommand { word: "send", ids: &["PORT"] },
];

/// A subcommand with these arguments, each at its place.
fn leaf<'a>(alloc: Global, word: &'a str, ids: &[&'a str]) -> Result<Command<'a>, NoMemory>
    ensures shape { IfOk result (λ c. shape_of c ≡ leaf word.now (map (λ id. id.now) ids.now)) }
    ensures local { IfOk result (λ c. (out-Command c).has_globals ≡ false) }
{
    let mut command = Command::new(alloc, word);
    for id in ids {
        command = command.arg(Arg::new(alloc, *id).required(true))?;
    }
    Ok(command)
}

/// The parser with one more subcommand.
fn with_leaf<'a>(
    alloc: Global,
    parser: Command<'a>,
    word: &'a str,
    ids: &[&'a str],
) -> Result<Command<'a>, NoMemory>
    ensures { IfOk result (λ c. app_of c ≡ with_leaf (app_of parser.entry) word.now (map (λ id. id.now) ids.now)) }
{
    parser.subcommand(leaf(alloc, word, ids)?)
}

/// The parser with no subcommand yet. It has no flag, and `clap` adds none and no subcommand of its own.
fn bare<'a>(alloc: Global) -> Command<'a>
    ensures { app_of result ≡ bare }
{
    Command::new(alloc, "adrep")
        .no_binary_name(true)
        .disable_help_flag(true)
        .disable_help_subcommand(true)
        .subcommand_required(true)
}

/// The parser with these subcommands too.
fn with_leaves<'a>(
    alloc: Global,
    parser: Command<'a>,
    leaves: &'static [Subcommand],
) -> Result<Command<'a>, NoMemory>
    ensures { IfOk result (λ c. app_of c ≡ with_leaves (app_of parser.entry) leaves.now) }
{
    let mut parser = parser;
    for leaf in leaves {
        parser = with_leaf(alloc, parser, leaf.word, leaf.ids)?;
    }
    Ok(parser)
}

/// The subcommands of the words.
fn subcommands() -> &'static [Subcommand]
    ensures { with_leaves bare result.now ≡ parser }
{
    &SUBCOMMANDS
}

/// The parser of the words.
pub fn parser<'a>(alloc: Global) -> Result<Command<'a>, NoMemory>
    ensures { IfOk result (λ c. app_of c ≡ parser) }
{
    with_leaves(alloc, bare(alloc), subcommands())
}
