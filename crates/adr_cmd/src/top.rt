//! The top call.

ghost use Rattle.std.specs.Prelude.{◌≡◌, ◌⊎◌, ◌<◌, ◌≤◌, ℕ, List, map, string_bytes, None, Some};
ghost use Rattle.adr_io.specs.Told.{Adds, AddsFront};
ghost use Rattle.adr_run_replay.specs.Headline.{IsHeadline};
ghost use Rattle.adr_answers.specs.Laws.{EqualEntryLinesMeanEqualDirectories, EqualLinesMeanEqualDirectories, LinesAreToldFromWhatFollows};
ghost use Rattle.adr_json.specs.Laws.{EqualJsonMeansEqualDirectories};
ghost use Rattle.adr_run_replay.specs.Exercised.{ExercisesEndEqual};
ghost use Rattle.adr_run_replay.specs.Exportable.{TextsAreExportable};
ghost use Rattle.adr_run_replay.specs.Outcome.{GeneratedRunsAreSo, TextsGiveOne};
ghost use Rattle.adr_words.specs.Commands.{command_of};
ghost use Rattle.adr_cmd.specs.Usage.{usage_line};
ghost use Rattle.adr_cmd.specs.Obeys.{FaultsAreCaused, Obeys};

use crate::disk::perform;
use crate::online::{pull_from, send_to, serve_at};
use adr_disk::Disk;
use adr_io::{Sink, Source};
use adr_outside::{Clock, Fresh, Net};
use adr_run_replay::{ended, exercise, replay, runs_are_so};
use adr_words::{Command, command};
use std::alloc::Global;

/// Writes the usage line.
#[tactic(auto, unfolding(crate::specs::Usage::usage_line))]
fn usage<K: Sink>(sink: &mut K) -> u8
    ensures statuses { (result ≡ 2) ⊎ ((result ≡ 5) ⊎ (result ≡ 8)) }
    ensures added { result ≡ 2 → Adds (K.written sink.old) (K.written sink.new) usage_line }
    ensures front { (result ≡ 5) ⊎ (result ≡ 8) → AddsFront (K.written sink.old) (K.written sink.new) usage_line }
    ensures failed { result ≡ 5 → K.faults sink.old < K.faults sink.new }
    ensures sink_faults { K.faults sink.old ≤ K.faults sink.new }
{
    ended(2, sink.write(USAGE.as_bytes()))
}

/// Does what a command says, and answers the status. The disk comes back.
fn obey<S: Source, K: Sink, D: Disk, N: Net, C: Clock, F: Fresh>(
    alloc: Global,
    command: Command,
    source: &mut S,
    sink: &mut K,
    disk: D,
    net: &mut N,
    clock: &mut C,
    fresh: &mut F,
) -> (u8, D)
    ensures obeys { Obeys S.Source K.Sink D.Disk N.Net C.Clock F.Fresh (Some command)
        (record { source = source.old; sink = sink.old; disk = disk; net = net.old; clock = clock.old; fresh = fresh.old })
        (record { source = source.new; sink = sink.new; disk = result.1; net = net.new; clock = clock.new; fresh = fresh.new }) result.0 }
    ensures caused { FaultsAreCaused S.Source K.Sink D.Disk N.Net C.Clock F.Fresh
        (record { source = source.old; sink = sink.old; disk = disk; net = net.old; clock = clock.old; fresh = fresh.old })
        (record { source = source.new; sink = sink.new; disk = result.1; net = net.new; clock = clock.new; fresh = fresh.new }) result.0 }

    // The usage line is for wrong words alone.
    ensures known { result.0 ≡ 2 → ⊥ }
{
    match command {
        Command::Replay => (replay(alloc, source, sink), disk),
        Command::Exercise { number } => (exercise(alloc, number, sink), disk),
        Command::OnDisk(command) => {
            let done = perform(alloc, &command, source, sink, disk, fresh);
            drop(command);
            done
        }
        Command::Serve { name, port, count } => {
            serve_at(alloc, &name, port, count, disk, net, clock, sink)
        }
        Command::Pull { name, port } => pull_from(alloc, &name, port, disk, net, sink),
        Command::Send { port } => (send_to(alloc, port, source, net, sink), disk),
    }
}

/// Runs the program's words, without its name, over a source, a sink, a disk that is attached by a name, a network, a clock,
/// and fresh identifiers. It answers the status, and the disk comes back: 0 done, 2 wrong words, 3 a text that is no schedule,
/// or has a line that no client says, 4 a read that failed, 5 a write that failed, 6 a call of the disk that failed, 7 a call
/// of the network that failed, 8 want of memory, 9 refused, 10 a disk whose bytes are no log, 11 a cycle that would go on, 12
/// a clock that couldn't be read, 13 an identifier that couldn't be drawn, 14 a peer that says what isn't due.
pub fn run<S: Source, K: Sink, D: Disk, N: Net, C: Clock, F: Fresh>(
    alloc: Global,
    words: &[String],
    source: &mut S,
    sink: &mut K,
    disk: D,
    net: &mut N,
    clock: &mut C,
    fresh: &mut F,
) -> (u8, D)
    // What the words ask for is done: of `replay`, `exercise`, each command over a disk, `serve`, `pull` and `send` what is read
    // and written, what is left, and with which status. Wrong words get the usage line, and no other words do.
    ensures obeys { Obeys S.Source K.Sink D.Disk N.Net C.Clock F.Fresh (command_of (map string_bytes words.now))
        (record { source = source.old; sink = sink.old; disk = disk; net = net.old; clock = clock.old; fresh = fresh.old })
        (record { source = source.new; sink = sink.new; disk = result.1; net = net.new; clock = clock.new; fresh = fresh.new }) result.0 }
    ensures usage { result.0 ≡ 2 → command_of (map string_bytes words.now) ≡ None }

    // A fault has its cause.
    ensures caused { FaultsAreCaused S.Source K.Sink D.Disk N.Net C.Clock F.Fresh
        (record { source = source.old; sink = sink.old; disk = disk; net = net.old; clock = clock.old; fresh = fresh.old })
        (record { source = source.new; sink = sink.new; disk = result.1; net = net.new; clock = clock.new; fresh = fresh.new }) result.0 }

    // Of every text that is a schedule, wherever its run stands while no database was put back, as none is without a
    // `rollback`: each controller shows the directory of the issued updates that it covers or holds, controllers that cover
    // the same, and hold nothing beyond, show the same, and every write that was acknowledged is in view for whoever has its
    // identifier. A cycle with nothing in its way, where no limit is met, ends with everything or says that there is more.
    // Whole cycles that come in rounds bring together whom they connect, and a `ring` line that is answered ok tells so. No
    // controller is quarantined, and no answer is that one is, or was put back, or that an item is broken or incomplete, nor
    // that someone is too old while everyone covers what was collected. And always each state is formed, and each directory
    // printable.
    ensures headline { (text : List ℕ) → IsHeadline text }

    // Each text is a schedule of some events or has a fault, by the grammar, and so gives one status and one output.
    ensures texts { TextsGiveOne }

    // All that is claimed of the schedules that are read is claimed of those that `exercise` generates. And at the end of such
    // a run, of a number up to 60,000, the four directories are equal where nothing was refused.
    ensures generated { GeneratedRunsAreSo }
    ensures equal { ExercisesEndEqual }

    // Equal lines mean equal directories, of entries that are printable, as those of every run are (*headline*): the lines of
    // one controller, the lines of the entries below the names of two, and lines with whatever follows them.
    ensures directories { EqualLinesMeanEqualDirectories }
    ensures entries { EqualEntryLinesMeanEqualDirectories }
    ensures followed { LinesAreToldFromWhatFollows }

    // So does equal JSON, of entries that are exportable, as those of every run of a text are.
    ensures json { EqualJsonMeansEqualDirectories }
    ensures exportable { TextsAreExportable }
{
    runs_are_so();
    match command(alloc, words) {
        Ok(Some(command)) => obey(alloc, command, source, sink, disk, net, clock, fresh),
        Ok(None) => (usage(sink), disk),
        Err(_) => (8, disk),
    }
}

const USAGE: &str =
    "usage: adrep replay | exercise N | create NAME | install NAME | restore NAME DSA | backup NAME | show NAME | export NAME | serve NAME PORT COUNT | pull NAME PORT | send PORT\n";
