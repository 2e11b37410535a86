//! A disk over a file of the present folder.

use adr_disk::Disk;
use adr_file::{FileDisk, SystemFolder};
use adr_io::Fault;
use std::fs::{self, OpenOptions};
use std::io;
use std::test::Fail;

type File<'a> = FileDisk<SystemFolder<&'a HostRuntime>>;

/// A disk over the present folder.
fn disk_over(rt: &HostRuntime) -> File<'_> {
    FileDisk::new(SystemFolder::new(rt))
}

/// A disk over a new file of that name, with four bytes that are synced.
fn written<'a>(rt: &'a HostRuntime, name: &str) -> Result<File<'a>, Fault> {
    let mut disk = disk_over(rt);
    disk.attach(name)?;
    disk.write_at(0, b"abcd")?;
    disk.sync()?;
    Ok(disk)
}

/// How long a file is, and what is read of it from its third byte on.
fn opened_again(rt: &HostRuntime, name: &str) -> Result<(u64, usize, [u8; 8]), Fault> {
    let mut disk = disk_over(rt);
    disk.attach(name)?;
    let mut into = [0; 8];
    let len = disk.len()?;
    let count = disk.read(2, &mut into)?;
    Ok((len, count, into))
}

#[test]
fn a_file_is_written_and_opened_again(rt: HostRuntime) -> Result<(), Fail> {
    drop(written(&rt, "whole")?);
    assert_eq!(rt; opened_again(&rt, "whole"), Ok((4, 2, *b"cd\0\0\0\0\0\0")));
    fs::remove_file(&rt, "whole.adr")?;
    Ok(())
}

#[test]
fn without_a_file_of_the_folder_each_call_fails(rt: HostRuntime) {
    let mut disk = disk_over(&rt);
    let told = [
        disk.sync(),
        disk.write_at(0, b"x"),
        disk.attach("no_such_folder/whole"),
        disk.sync(),
    ];
    assert_eq!(rt; told, [Err(Fault::Failed); 4]);
}

#[test]
fn a_file_is_locked_while_it_is_attached(rt: HostRuntime) -> Result<(), Fail> {
    let first = written(&rt, "locked")?;
    let mut second = disk_over(&rt);
    let beside = second.attach("locked");
    drop(first);
    assert_eq!(rt;
        [beside, second.attach("locked")],
        [Err(Fault::Failed), Ok(())]
    );
    fs::remove_file(&rt, "locked.adr")?;
    Ok(())
}

/// What another hand does with the file of that path.
#[derive(Clone, Copy)]
enum Hand {
    Removes,
    Moves,
    Replaces,
    Cuts,
}

fn take_away(rt: &HostRuntime, hand: Hand, path: &str) -> io::Result<()> {
    match hand {
        Hand::Removes => fs::remove_file(rt, path),
        Hand::Moves => fs::rename(rt, path, "elsewhere"),
        Hand::Replaces => {
            fs::write(rt, "other", b"other")?;
            fs::rename(rt, "other", path)
        }
        Hand::Cuts => OpenOptions::new().write(true).open(rt, path)?.set_len(1),
    }
}

/// What the disk answers behind that: a write of a fifth byte if `writes`, a sync, and a sync once more.
fn behind(rt: &HostRuntime, hand: Hand, writes: bool) -> Result<[Result<(), Fault>; 3], Fail> {
    let mut disk = written(rt, "taken")?;
    take_away(rt, hand, "taken.adr")?;
    let wrote = if writes {
        disk.write_at(4, b"e")
    } else {
        Ok(())
    };
    let told = [wrote, disk.sync(), disk.sync()];
    drop(disk);
    let _ = fs::remove_file(rt, "taken.adr");
    Ok(told)
}

#[test]
fn a_file_that_another_hand_takes_is_a_fault(rt: HostRuntime) -> Result<(), Fail> {
    let failed = Err(Fault::Failed);
    for hand in [Hand::Removes, Hand::Moves, Hand::Replaces] {
        assert_eq!(rt; behind(&rt, hand, true)?, [Ok(()), failed, failed]);
        assert_eq!(rt; behind(&rt, hand, false)?, [Ok(()), failed, failed]);
    }
    assert_eq!(rt; behind(&rt, Hand::Cuts, true)?, [failed, failed, failed]);
    assert_eq!(rt; behind(&rt, Hand::Cuts, false)?, [Ok(()), failed, failed]);
    Ok(())
}

#[test]
fn a_file_that_comes_where_none_was_is_a_fault(rt: HostRuntime) -> Result<(), Fail> {
    let mut disk = disk_over(&rt);
    disk.attach("come")?;
    fs::write(&rt, "come.adr", b"other")?;
    assert_eq!(rt;
        [disk.write_at(0, b"abcd"), disk.sync()],
        [Err(Fault::Failed); 2]
    );
    fs::remove_file(&rt, "come.adr")?;
    Ok(())
}
