//! The bytes of a disk in memory, and the writes since the last sync with what they wrote over, so that they can be
//! undone.

ghost use Rattle.std.specs.Prelude.{◌≡◌, ◌+◌, ◌-◌, ◌/◌, ◌≤◌, ◌<◌, ◌^◌, ◌⊎◌, [], length, take, drop, map, All, OnOk, OnErr, vec_capacity};
ghost use Rattle.adr_disk.specs.Disk.{put as put_over, IsSpare};
ghost use Rattle.adr_disk.specs.Memory.{Held, over, read_of, left_by, torn_half, torn_write, all_synced, after_write, after_end, SameBytes};
ghost use Rattle.adr_run_disk.specs.Entries.{IsInRange, IsUndoable, write_of, without, without_all, surface_at};

use crate::passed::Passed;
use adr_disk::Crash;
use std::alloc::{AllocError, Global};
use std::marker::Model;

/// What the rest of a torn write holds.
const FILLER: u8 = 0xC3;

/// A write since the last sync, and what undoes it.
#[derive(Clone, Copy)]
pub struct Entry {
    at: usize,
    /// The place of its bytes in the log.
    from: usize,
    len: usize,
    /// How many bytes there were before it.
    before: usize,
    /// The place, among the covered bytes, of those that it wrote over.
    covered_from: usize,
    covered_len: usize,
}

#[derive(Drop)]
pub struct Platter {
    /// What it was before.
    past: Passed,
    /// The writes since the last sync or crash, in order, their bytes, and those that they wrote over.
    entries: Vec<Entry>,
    log: Vec<u8>,
    covered: Vec<u8>,
    /// What a read gives.
    bytes: Vec<u8>,
}

impl Model for Platter {
    ghost use Rattle.adr_disk.specs.Memory.{Held};

    ghost Value = { Held };

    ghost use Rattle.adr_run_disk.specs.Platter.{held_of, IsWhole};

    ghost view = { held_of };

    ghost invariant = { IsWhole };
}

/// Writes over what is there, and past the end.
pub fn put(bytes: &mut Vec<u8>, at: usize, new: &[u8])
    requires { length (put_over bytes.old.items at new.now) ≤ vec_capacity bytes.old }
    ensures items { bytes.new.items ≡ put_over bytes.old.items at new.now }
    ensures capacity { vec_capacity bytes.old ≤ vec_capacity bytes.new }
{
    if new.len() < bytes.len().saturating_sub(at) {
        bytes[at..at + new.len()].copy_from_slice(new);
    } else {
        bytes.truncate(at);
        bytes.extend_from_slice(new).unwrap();
    }
}

/// Writes the first half of the bytes over what is there, and fills the rest of the range.
fn put_torn(bytes: &mut Vec<u8>, at: usize, new: &[u8])
    requires fits { at + length new.now < 2 ^ 64 }
    requires room { length (put_over bytes.old.items at new.now) ≤ vec_capacity bytes.old }
    ensures items { bytes.new.items ≡ put_over bytes.old.items at (torn_half new.now) }
    ensures capacity { vec_capacity bytes.old ≤ vec_capacity bytes.new }
{
    let half = new.len() / 2;
    put(bytes, at, &new[..half]);
    'rest: for place in half..new.len() {
        put(bytes, at + place, &[FILLER]);
    }
}

/// The bytes from that place on, so many of them or all that there are.
fn part_of(bytes: &[u8], at: usize, len: usize) -> &[u8]
    requires { at ≤ length bytes.now }
    ensures { result.now ≡ take len (drop at bytes.now) }
{
    let rest = &bytes[at..];
    &rest[..len.min(rest.len())]
}

/// Undoes a write: cuts off what it added past the end, and puts back what it wrote over.
fn undo(bytes: &mut Vec<u8>, entry: Entry, covered: &[u8])
    requires { IsUndoable (length covered.now) (vec_capacity bytes.old) entry }
    ensures items { bytes.new.items ≡ without covered.now entry bytes.old.items }
    ensures capacity { vec_capacity bytes.old ≤ vec_capacity bytes.new }
{
    let end = entry.covered_from + entry.covered_len;
    bytes.truncate(entry.before);
    put(bytes, entry.at, &covered[entry.covered_from..end]);
}

/// Undoes the writes, the last one first.
fn undo_all(bytes: &mut Vec<u8>, entries: &[Entry], covered: &[u8])
    requires { All (IsUndoable (length covered.now) (vec_capacity bytes.old)) entries.now }
    ensures items { bytes.new.items ≡ without_all covered.now entries.now bytes.old.items }
    ensures capacity { vec_capacity bytes.old ≤ vec_capacity bytes.new }
{
    'writes: for index in (0..entries.len()).rev() {
        undo(bytes, entries[index], covered);
    }
}

/// Applies a torn form of the writes.
fn tear(bytes: &mut Vec<u8>, entries: &[Entry], log: &[u8])
    requires in_range { All (IsInRange (length log.now)) entries.now }
    requires room { length (over bytes.old.items (map (write_of log.now) entries.now)) ≤ vec_capacity bytes.old }
    ensures items { bytes.new.items ≡ over bytes.old.items (map torn_write (map (write_of log.now) entries.now)) }
    ensures capacity { vec_capacity bytes.old ≤ vec_capacity bytes.new }
{
    'writes: for entry in entries {
        put_torn(bytes, entry.at, &log[entry.from..entry.from + entry.len]);
    }
}

/// Turns what a read gives into what the end of the writes leaves.
fn settle(bytes: &mut Vec<u8>, entries: &[Entry], log: &[u8], covered: &[u8], how: Crash)
    requires in_range { All (IsInRange (length log.now)) entries.now }
    requires undoable { All (IsUndoable (length covered.now) (vec_capacity bytes.old)) entries.now }
    requires bytes { bytes.old.items ≡ read_of (surface_at bytes.old.items log.now covered.now entries.now) }
    ensures items { bytes.new.items ≡ left_by how (surface_at bytes.old.items log.now covered.now entries.now) }
    ensures capacity { vec_capacity bytes.old ≤ vec_capacity bytes.new }
{
    match how {
        Crash::Kept => {}
        Crash::Lost => undo_all(bytes, entries, covered),
        Crash::Torn => {
            undo_all(bytes, entries, covered);
            tear(bytes, entries, log);
        }
    }
}

impl Platter {
    /// These bytes, all of them synced.
    pub fn new(alloc: Global, bytes: Vec<u8>) -> Platter
        ensures surface { result.surface ≡ all_synced bytes.items }
        ensures past { result.past ≡ [] }
    {
        Platter {
            past: Passed::new(),
            entries: Vec::new(alloc),
            log: Vec::new(alloc),
            covered: Vec::new(alloc),
            bytes,
        }
    }

    /// What a read gives.
    pub fn bytes(&self) -> &[u8]
        ensures { result.now ≡ read_of self.now.surface }
    {
        self.bytes.as_slice()
    }

    pub fn make_room(&mut self, calls: usize, bytes: usize) -> Result<(), AllocError>
        ensures same { SameBytes self.old self.new }
        ensures ok { OnOk result (IsSpare calls bytes self.new.room_calls self.new.room_bytes) }
        ensures room { IsSpare self.old.room_calls self.old.room_bytes self.new.room_calls self.new.room_bytes }
        ensures full { OnErr result ((self.old.room_calls < calls) ⊎ (self.old.room_bytes < bytes)) }
    {
        self.entries.reserve(calls)?;
        self.log.reserve(bytes)?;
        self.covered.reserve(bytes)?;
        self.bytes.reserve(bytes)
    }

    pub fn write(&mut self, at: usize, new: &[u8])
        requires within { at ≤ length (read_of self.old.surface) }
        requires calls { 0 < self.old.room_calls }
        requires bytes { length new.now ≤ self.old.room_bytes }
        ensures written { SameBytes (after_write (record { at = at; bytes = new.now }) self.old) self.new }
        ensures room { IsSpare self.old.room_calls self.old.room_bytes (self.new.room_calls + 1) (self.new.room_bytes + length new.now) }
    {
        let covered = part_of(&self.bytes, at, new.len());
        let entry = Entry {
            at,
            from: self.log.len(),
            len: new.len(),
            before: self.bytes.len(),
            covered_from: self.covered.len(),
            covered_len: covered.len(),
        };
        self.past
            .add(&self.bytes, &self.entries, &self.log, &self.covered);
        self.covered.extend_from_slice(covered).unwrap();
        self.log.extend_from_slice(new).unwrap();
        self.entries.push(entry).unwrap();
        put(&mut self.bytes, at, new);
    }

    /// A sync, which keeps the unsynced writes, or a crash.
    pub fn end(&mut self, how: Crash)
        ensures ended { SameBytes (after_end how self.old) self.new }
        ensures room { IsSpare self.old.room_calls self.old.room_bytes self.new.room_calls self.new.room_bytes }
    {
        if self.entries.is_empty() {
            return;
        }
        self.past
            .add(&self.bytes, &self.entries, &self.log, &self.covered);
        settle(
            &mut self.bytes,
            &self.entries,
            &self.log,
            &self.covered,
            how,
        );
        self.entries.clear();
        self.log.clear();
        self.covered.clear();
    }
}
