//! What a disk gives, what a crash may leave of it, and what each call changes of both.

ghost use Rattle.std.specs.Prelude.{◌≡◌, ◌⊎◌, ℕ, ◌+◌, ◌-◌, ◌^◌, ◌≤◌, ◌<◌, ⊤, List, Option, Some, IsSome, ◌↔◌, IfOk, IfSome, OnOk, IsErrOf, length, take, drop, min};
ghost use Rattle.std.specs.Option.{ForSome};
ghost use Rattle.adr_io.specs.declared.Fault.{Fault as Cause};
ghost use Rattle.adr_disk.specs.Disk.{put, Torn, After, Among, Only, Elapses, Counts, Keeps, IsSpare, Call, Writes, Syncs, Looks, ended};

use adr_io::Fault;

/// A list of bytes that outlives a crash, of which only what was synced is sure to. Naming, measuring, reading and syncing
/// it want no memory, but where one more failure can't be counted.
pub trait Disk {
    /// How many calls have failed so far.
    ghost faults: { Self → ℕ };

    /// The bytes that a read gives, where they are told.
    ghost content: { Self → Option (List ℕ) };

    /// The byte lists that a crash now may leave.
    ghost may_leave: { Self → List ℕ → Type 0 };

    /// The present moment, a number that doesn't fall.
    ghost moment: { Self → ℕ };

    /// The byte lists that a crash at that moment or later might have left, during a call or between two.
    ghost left_since: { Self → ℕ → List ℕ → Type 0 };

    /// How many writes and syncs memory is sure to suffice for.
    ghost spare_calls: { Self → ℕ };

    /// How many bytes of writes memory is sure to suffice for.
    ghost spare_bytes: { Self → ℕ };

    /// What a call did, where the disk tells it to the last: from a disk, by a call that ended so, to a disk.
    ghost gives: { Self → Call → Option Cause → Self → Type 0 } = { λ _ _ _ _. ⊤ };

    /// Names the file.
    fn attach(&mut self, name: &str) -> Result<(), Fault>
        ensures keeps { Keeps content may_leave moment left_since self.old self.new }
        ensures cause { Counts (faults self.old) (faults self.new) result }
        ensures uncounted { IsErrOf result Fault.NoMemory → faults self.old ≡ 2 ^ 64 - 1 }
        ensures spare { OnOk result (IsSpare (spare_calls self.old) (spare_bytes self.old) (spare_calls self.new) (spare_bytes self.new)) }
        ensures gives { gives self.old Looks (ended result) self.new };

    /// How many bytes there are.
    fn len(&mut self) -> Result<u64, Fault>
        ensures len { IfOk result (λ len. IfSome (content self.old) (λ bytes. len ≡ length bytes)) }
        ensures keeps { Keeps content may_leave moment left_since self.old self.new }
        ensures cause { Counts (faults self.old) (faults self.new) result }
        ensures uncounted { IsErrOf result Fault.NoMemory → faults self.old ≡ 2 ^ 64 - 1 }
        ensures spare { OnOk result (IsSpare (spare_calls self.old) (spare_bytes self.old) (spare_calls self.new) (spare_bytes self.new)) }
        ensures gives { gives self.old Looks (ended result) self.new };

    /// Reads into the front of the buffer, as far as the bytes from that place on go: fewer mean the end.
    fn read(&mut self, at: u64, into: &mut [u8]) -> Result<usize, Fault>
        ensures within { IfOk result (λ n. n ≤ length into.new) }
        ensures filled { IfOk result (λ n. IfSome (content self.old) (λ bytes.
            n ≡ min (length into.old) (length bytes - at))) }
        ensures read { IfOk result (λ n. IfSome (content self.old) (λ bytes.
            take n into.new ≡ take n (drop at bytes))) }
        ensures keeps { Keeps content may_leave moment left_since self.old self.new }
        ensures cause { Counts (faults self.old) (faults self.new) result }
        ensures uncounted { IsErrOf result Fault.NoMemory → faults self.old ≡ 2 ^ 64 - 1 }
        ensures spare { OnOk result (IsSpare (spare_calls self.old) (spare_bytes self.old) (spare_calls self.new) (spare_bytes self.new)) }
        ensures gives { gives self.old Looks (ended result) self.new };

    /// Writes over what is there, and past the end. Until a sync, a crash may leave anything in the range. A write
    /// that fails may have done a part of it.
    fn write_at(&mut self, at: u64, bytes: &[u8]) -> Result<(), Fault>
        requires { ForSome (content self.old) (λ there. at ≤ length there) }

        ensures written { OnOk result (IfSome (content self.old) (λ there.
            content self.new ≡ Some (put there at bytes.now))) }
        ensures told { IsSome (content self.new) ↔ IsSome (content self.old) }

        // What a crash may leave, now and at each moment of the call.
        ensures crash { Among (After (Torn at (length bytes.now)) (may_leave self.old)) (may_leave self.new) }
        ensures time { Elapses (moment self.old) (moment self.new) (left_since self.old) (left_since self.new)
            (After (Torn at (length bytes.now)) (may_leave self.old)) }

        ensures cause { Counts (faults self.old) (faults self.new) result }
        ensures no_memory { IsErrOf result Fault.NoMemory
            → Keeps content may_leave moment left_since self.old self.new }
        ensures no_memory_only { IsErrOf result Fault.NoMemory
            → (spare_calls self.old ≡ 0) ⊎ (spare_bytes self.old < length bytes.now) }
        ensures spare { IsSpare (spare_calls self.old) (spare_bytes self.old) (spare_calls self.new + 1) (spare_bytes self.new + length bytes.now) }
        ensures gives { gives self.old (Writes at bytes.now) (ended result) self.new };

    /// After it a crash leaves what a read gives.
    fn sync(&mut self) -> Result<(), Fault>
        ensures durable { OnOk result (IfSome (content self.old) (λ bytes. Only bytes (may_leave self.new))) }
        ensures same { OnOk result (content self.new ≡ content self.old) }
        ensures told { IsSome (content self.new) ↔ IsSome (content self.old) }

        // What a crash may leave, now and at each moment of the call.
        ensures crash { Among (may_leave self.old) (may_leave self.new) }
        ensures time { Elapses (moment self.old) (moment self.new) (left_since self.old) (left_since self.new) (may_leave self.old) }

        ensures cause { Counts (faults self.old) (faults self.new) result }
        ensures uncounted { IsErrOf result Fault.NoMemory → faults self.old ≡ 2 ^ 64 - 1 }
        ensures no_memory { IsErrOf result Fault.NoMemory
            → Keeps content may_leave moment left_since self.old self.new }
        ensures no_memory_only { IsErrOf result Fault.NoMemory → spare_calls self.old ≡ 0 }
        ensures spare { IsSpare (spare_calls self.old) (spare_bytes self.old) (spare_calls self.new + 1) (spare_bytes self.new) }
        ensures gives { gives self.old Syncs (ended result) self.new };

    /// Makes room for so many writes and syncs, and for so many bytes of writes.
    fn reserve(&mut self, calls: u32, bytes: u64) -> Result<(), Fault>
        ensures reserved { OnOk result (IsSpare calls bytes (spare_calls self.new) (spare_bytes self.new)) }
        ensures keeps { Keeps content may_leave moment left_since self.old self.new }
        ensures cause { Counts (faults self.old) (faults self.new) result }
        ensures gives { gives self.old Looks (ended result) self.new };

    /// A disk as it reads is one of its crash images.
    ghost honest: { (disk : Self) → IfSome (content disk) (may_leave disk) };

    /// This moment is one of those since an earlier one.
    ghost counts_now: { (disk : Self) (t : ℕ) (bytes : List ℕ) → t ≤ moment disk → may_leave disk bytes → left_since disk t bytes };

    /// Since this moment there is no other.
    ghost only_now: { (disk : Self) (bytes : List ℕ) → left_since disk (moment disk) bytes → may_leave disk bytes };
}
