//! A disk over the file of a folder in memory.

use crate::folder::{MemFolder, Mishap};
use adr_disk::Disk;
use adr_file::FileDisk;
use adr_io::Fault;
use std::alloc::{AllocError, Global};
use std::test::Fail;

/// How many of two syncs answer `Ok`, each behind a write: of `abcd`, and of `abcdef` over it.
fn write_both(disk: &mut FileDisk<MemFolder>) -> u8 {
    if disk.attach("x").is_err() || disk.write_at(0, b"abcd").is_err() || disk.sync().is_err() {
        return 0;
    }
    if disk.write_at(0, b"abcdef").is_err() || disk.sync().is_err() {
        return 1;
    }
    2
}

/// What a disk reads of a folder.
fn read_all(alloc: Global, folder: MemFolder) -> Result<Vec<u8>, Fault> {
    let mut disk = FileDisk::new(folder);
    disk.attach("x")?;
    let mut into = [0; 8];
    let count = disk.read(0, &mut into)?;
    drop(disk);
    Ok(into[..count].to_vec(alloc)?)
}

/// How many syncs answer `Ok` before all calls behind so many fail, and what is there behind the crash.
fn crash_behind(alloc: Global, after: u32, keeps: bool) -> Result<(u8, Vec<u8>), Fault> {
    let mut folder = MemFolder::new(alloc);
    folder.plan(Mishap::Stops { after });
    let mut disk = FileDisk::new(folder);
    let synced = write_both(&mut disk);
    Ok((synced, read_all(alloc, disk.into_folder().crash(keeps)?)?))
}

/// Whether bytes are a front of what is written, as long as those that were synced or longer.
fn holds(synced: u8, bytes: &[u8]) -> bool {
    let (first, both) = (b"abcd".as_slice(), b"abcdef".as_slice());
    match synced {
        0 => bytes.is_empty() || bytes == first,
        1 => bytes == first || bytes == both,
        _ => bytes == both,
    }
}

#[test]
fn a_crash_behind_each_call_leaves_what_was_synced(rt: HostRuntime) -> Result<(), Fail> {
    for after in 0..20 {
        for keeps in [false, true] {
            let (synced, bytes) = crash_behind(rt.alloc(), after, keeps)?;
            assert!(rt; holds(synced, &bytes));
        }
    }
    Ok(())
}

/// What `len`, `write_at`, `sync` and `len` behind an `attach` answer where a mishap meets the first sync.
fn behind(alloc: Global, mishap: Mishap) -> Result<[Result<u64, Fault>; 4], Fault> {
    let mut folder = MemFolder::new(alloc);
    folder.plan(mishap);
    let mut disk = FileDisk::new(folder);
    disk.attach("x")?;
    disk.write_at(0, b"abcd")?;
    let synced = disk.sync().map(|_| 0);
    let told = [
        synced,
        disk.len(),
        disk.write_at(0, b"x").map(|_| 0),
        match disk.attach("x") {
            Ok(()) => disk.len(),
            Err(fault) => Err(fault),
        },
    ];
    drop(disk);
    Ok(told)
}

#[test]
fn a_file_is_let_go_behind_a_failed_sync(rt: HostRuntime) -> Result<(), Fail> {
    let failed = Err(Fault::Failed);
    let told = behind(rt.alloc(), Mishap::Fails { after: 7 })?;
    assert_eq!(rt; told, [failed, failed, failed, Ok(4)]);
    Ok(())
}

#[test]
fn a_file_that_is_moved_is_a_fault(rt: HostRuntime) -> Result<(), Fail> {
    let failed = Err(Fault::Failed);
    let told = behind(rt.alloc(), Mishap::Moves { after: 7 })?;
    assert_eq!(rt; told, [failed; 4]);
    Ok(())
}
