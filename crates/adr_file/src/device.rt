//! The raw calls of the present folder and of one file in it. What is said of each is what is trusted of the system.

ghost use Rattle.std.specs.Prelude.{◌≡◌, ◌⊎◌, ℕ, ◌≤◌, List, [], Option, Some, None, IfOk, OnOk, IsSome, length};
ghost use Rattle.std.specs.Option.{ForSome, option_map};
ghost use Rattle.adr_disk.specs.Disk.{put, Keeps};
ghost use Rattle.adr_file.specs.declared.folder.Identity.{Identity};
ghost use Rattle.adr_file.specs.Device.{bytes_of, Behind, Made, TornFile, IsNamed, IsFound, ReadsAt, Changes, Stays, IsOwn};

use crate::folder::{Found, Measured};
use std::io;

/// The present folder, and a file in it, of which at most one is open. A folder that tells has one file, whatever it is
/// called, and no other hand touches it: where one does, each look fails. One that tells nothing promises nothing.
pub trait Folder {
    /// The file's bytes, or that it isn't there, where this is told: what a read gives, if it is sure.
    ghost file: { Self → Option (Option (List ℕ)) };

    /// Which file has the name.
    ghost named: { Self → Identity };

    /// Which file is open.
    ghost opened: { Self → Option Identity };

    /// Which file had the name at the last look. A call that writes or syncs says nothing of it, so that it wants a look
    /// anew.
    ghost seen: { Self → Option Identity };

    /// No sync has failed since the file was made, or what memory keeps of it was forgotten. Else memory may give bytes
    /// that the device never gets.
    ghost is_sure: { Self → Type 0 };

    /// What a crash now may leave under the name: these bytes, or nothing.
    ghost may_leave: { Self → Option (List ℕ) → Type 0 };

    /// The present moment, a number that doesn't fall.
    ghost moment: { Self → ℕ };

    /// What a crash at that moment or later might have left, during a call or between two.
    ghost left_since: { Self → ℕ → Option (List ℕ) → Type 0 };

    /// What stands under a name.
    fn look(&mut self, name: &str) -> io::Result<Option<Found>>
        ensures found { IfOk result (λ found. ForSome (file self.old) (λ there. IsFound (named self.old) there found)) }
        ensures seen { IfOk result (λ found. ForSome (file self.old) (λ _. seen self.new ≡ option_map (λ f. f.identity) found)) }
        ensures keeps { Keeps file may_leave moment left_since self.old self.new }
        ensures stays { Stays named opened is_sure self.old self.new };

    /// Which file is open, and its length.
    fn measure(&mut self) -> io::Result<Measured>
        ensures opened { IfOk result (λ m. ForSome (file self.old) (λ _. opened self.old ≡ Some m.identity)) }
        ensures length { IfOk result (λ m. ForSome (file self.old) (λ there. m.identity ≡ named self.old
            → m.length ≡ length (bytes_of there))) }
        ensures seen { seen self.new ≡ seen self.old }
        ensures keeps { Keeps file may_leave moment left_since self.old self.new }
        ensures stays { Stays named opened is_sure self.old self.new };

    /// Opens what stands under a name by now, whatever a look before found. No other is open.
    fn open(&mut self, name: &str) -> io::Result<()>
        ensures keeps { Keeps file may_leave moment left_since self.old self.new }
        ensures named { named self.new ≡ named self.old };

    /// Locks the open file against other processes, until it is closed or this process ends. Fails where another has it.
    fn lock(&mut self) -> io::Result<()>
        ensures keeps { Keeps file may_leave moment left_since self.old self.new }
        ensures stays { Stays named opened is_sure self.old self.new };

    /// Forgets what memory keeps of the open file and needn't write, so that what is read comes from the device.
    fn forget(&mut self) -> io::Result<()>
        ensures sure { OnOk result (is_sure self.new) }
        ensures keeps { Keeps file may_leave moment left_since self.old self.new }
        ensures stays { Stays named opened is_sure self.old self.new };

    /// Closes the open file, if there is one.
    fn close(&mut self)
        ensures keeps { Keeps file may_leave moment left_since self.old self.new }
        ensures named { named self.new ≡ named self.old };

    /// Makes a file that isn't there, and opens it. No other is open. Until the names are synced a crash may leave none.
    fn make(&mut self, name: &str) -> io::Result<()>
        ensures made { ForSome (file self.old) (λ there. ForSome (file self.new) (Made there)) }
        ensures is_new { OnOk result (ForSome (file self.old) (λ there. (there ≡ None) × (file self.new ≡ Some (Some [])))) }
        ensures sure { OnOk result (is_sure self.new) }
        ensures changes { Changes file may_leave moment left_since self.old self.new (Behind Made (may_leave self.old)) };

    /// Reads some of the bytes from a place on into the front of the buffer. Only at the end, none.
    fn read(&mut self, at: u64, into: &mut [u8]) -> io::Result<usize>
        requires { IsOwn file named opened self.old }
        ensures within { IfOk result (λ n. n ≤ length into.new) }
        ensures read { IfOk result (λ n. is_sure self.old → ForSome (file self.old) (λ there. ReadsAt (bytes_of there) at into.new n)) }
        ensures keeps { Keeps file may_leave moment left_since self.old self.new }
        ensures stays { Stays named opened is_sure self.old self.new };

    /// Writes all of the bytes over what is there, and past the end. Where it fails, it may have done a part, and until a
    /// sync a crash may leave anything in the range.
    fn write(&mut self, at: u64, bytes: &[u8]) -> io::Result<()>
        requires own { IsOwn file named opened self.old }
        requires within { ForSome (file self.old) (λ there. at ≤ length (bytes_of there)) }
        ensures written { OnOk result (ForSome (file self.old) (λ there.
            file self.new ≡ Some (Some (put (bytes_of there) at bytes.now)))) }
        ensures torn { ForSome (file self.old) (λ there. ForSome (file self.new) (TornFile at (length bytes.now) there)) }
        ensures changes { Changes file may_leave moment left_since self.old self.new (Behind (TornFile at (length bytes.now)) (may_leave self.old)) }
        ensures stays { Stays named opened is_sure self.old self.new };

    /// Has the device keep the open file's bytes. Where it fails, nothing is sure any more.
    fn sync(&mut self) -> io::Result<()>
        requires { IsOwn file named opened self.old }
        ensures durable { OnOk result (is_sure self.old → ForSome (file self.old) (λ there.
            (left : Option (List ℕ)) → may_leave self.new left → (left ≡ None) ⊎ (left ≡ there))) }
        ensures same { OnOk result (file self.new ≡ file self.old) }
        ensures changes { Changes file may_leave moment left_since self.old self.new (may_leave self.old) }
        ensures stays { OnOk result (Stays named opened is_sure self.old self.new) };

    /// Has the device keep the names that the folder has.
    fn sync_names(&mut self) -> io::Result<()>
        ensures named { OnOk result (ForSome (file self.old) (λ there. IsNamed there (may_leave self.new))) }
        ensures same { file self.new ≡ file self.old }
        ensures changes { Changes file may_leave moment left_since self.old self.new (may_leave self.old) }
        ensures stays { Stays named opened is_sure self.old self.new };

    /// The file as it reads is one of the outcomes of a crash.
    ghost honest: { (folder : Self) → ForSome (file folder) (may_leave folder) };

    /// This moment is one of those since an earlier one.
    ghost counts_now: { (folder : Self) (t : ℕ) (left : Option (List ℕ)) → t ≤ moment folder → may_leave folder left → left_since folder t left };

    /// Since this moment there is no other.
    ghost only_now: { (folder : Self) (left : Option (List ℕ)) → left_since folder (moment folder) left → may_leave folder left };
}
