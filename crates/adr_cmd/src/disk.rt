//! The commands over a disk.

ghost use Rattle.std.specs.Prelude.{◌≡◌};
ghost use Rattle.adr_cmd.specs.OnDisk.{DoesSo, HasCauses, status_of_look, status_of_making};

use adr_disk::Disk;
use adr_io::{Sink, Source};
use adr_node::{Creation, Looked, Sight, adopt, create, look};
use adr_outside::Fresh;
use adr_words::DiskCommand;
use std::alloc::Global;

/// The status of a command that only looked.
fn looked(how: Looked) -> u8
    ensures { result ≡ status_of_look how }
{
    match how {
        Looked::Done => 0,
        Looked::WriteFault => 5,
        Looked::DiskFault => 6,
        Looked::NoMemory => 8,
        Looked::Refused => 9,
        Looked::Damaged { .. } => 10,
    }
}

/// The status of a command that made a controller, or didn't.
fn made(how: Creation) -> u8
    ensures { result ≡ status_of_making how }
{
    match how {
        Creation::Done => 0,
        Creation::ReadFault => 4,
        Creation::WriteFault => 5,
        Creation::DiskFault => 6,
        Creation::NoMemory => 8,
        Creation::Refused(_) => 9,
        Creation::FreshFault => 13,
    }
}

/// Does a command over the disk of its name, and answers the status. The disk comes back.
pub fn perform<S: Source, K: Sink, D: Disk, F: Fresh>(
    alloc: Global,
    command: &DiskCommand,
    source: &mut S,
    sink: &mut K,
    disk: D,
    fresh: &mut F,
) -> (u8, D)
    ensures does { DoesSo S.Source K.Sink D.Disk F.Fresh command.now
        (record { source = source.old; sink = sink.old; disk = disk; fresh = fresh.old })
        (record { source = source.new; sink = sink.new; disk = result.1; fresh = fresh.new }) result.0 }
    ensures causes { HasCauses S.Source K.Sink D.Disk F.Fresh
        (record { source = source.old; sink = sink.old; disk = disk; fresh = fresh.old })
        (record { source = source.new; sink = sink.new; disk = result.1; fresh = fresh.new }) result.0 }
{
    match command {
        DiskCommand::Create { name } => {
            let (how, disk) = create(alloc, name, disk, fresh, sink);
            (made(how), disk)
        }
        DiskCommand::Install { name } => {
            let (how, disk) = adopt(alloc, "install", name, None, source, disk, fresh, sink);
            (made(how), disk)
        }
        DiskCommand::Restore { name, dsa } => {
            let (how, disk) = adopt(
                alloc,
                "restore",
                name,
                Some(*dsa),
                source,
                disk,
                fresh,
                sink,
            );
            (made(how), disk)
        }
        DiskCommand::Backup { name } => {
            let (how, disk) = look(alloc, Sight::Image, name, disk, sink);
            (looked(how), disk)
        }
        DiskCommand::Show { name } => {
            let (how, disk) = look(alloc, Sight::Directory, name, disk, sink);
            (looked(how), disk)
        }
        DiskCommand::Export { name } => {
            let (how, disk) = look(alloc, Sight::Json, name, disk, sink);
            (looked(how), disk)
        }
    }
}
