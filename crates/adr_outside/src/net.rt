//! Connections.

ghost use Rattle.std.specs.Prelude.{◌≡◌, ◌⊎◌, ◌<◌, ◌≤◌, ◌-◌, ◌^◌, ℕ, [], Option, IfOk, IfSome, IsErrOf, OnErr, OnOk, length};
ghost use Rattle.std.specs.Option.{option_map};
ghost use Rattle.adr_outside.specs.Counted.{IsCounted};
ghost use Rattle.adr_outside.specs.Traffic.{Traffic, Opens, Receives, Sends, SendsFront, hung_up};

use adr_io::Fault;

/// One connection after the other, at most one of which is open. To open one hangs up the one before it.
///
/// What it tells can be told of a network in memory alone. Of a real one nothing is claimed but its counts, and that
/// no more is received than there was room for. Bytes that were sent may never arrive, and those that come may be
/// anybody's. An end may be the peer's or a break, and a call may not return.
pub trait Net {
    /// How many calls of its doors have failed so far: `listen`, `accept` and `connect`.
    ghost doors: { Self → ℕ };

    /// How many calls of its lines have failed so far: `receive` and `send`.
    ghost lines: { Self → ℕ };

    /// What comes in and what was sent, where that is told.
    ghost traffic: { Self → Option Traffic };

    /// Whether it keeps what is sent in memory, which may be wanting for it.
    ghost keeps: { Self → Type 0 };

    /// Listens at a port of this machine, from then on in place of the port before. Memory is wanting only where one
    /// more failure can't be counted.
    fn listen(&mut self, port: u16) -> Result<(), Fault>
        ensures stays { traffic self.new ≡ traffic self.old }
        ensures no_memory_only { IsErrOf result Fault.NoMemory → doors self.old ≡ 2 ^ 64 - 1 }
        ensures counts { IsCounted (doors self.old) (doors self.new) (lines self.old) (lines self.new) result };

    /// Opens the next connection that a peer makes to the port where it listens, and waits for it as long as that
    /// takes. One that fails leaves none open.
    fn accept(&mut self) -> Result<(), Fault>
        ensures opens { OnOk result (IfSome (traffic self.old) (λ before. Opens before (traffic self.new))) }
        ensures closes { IsErrOf result Fault.Failed → traffic self.new ≡ option_map hung_up (traffic self.old) }
        ensures no_memory { IsErrOf result Fault.NoMemory → traffic self.new ≡ traffic self.old }
        ensures no_memory_only { IsErrOf result Fault.NoMemory → keeps self.old ⊎ (doors self.old ≡ 2 ^ 64 - 1) }
        ensures counts { IsCounted (doors self.old) (doors self.new) (lines self.old) (lines self.new) result };

    /// Opens a connection to a port of this machine. One that fails leaves none open.
    fn connect(&mut self, port: u16) -> Result<(), Fault>
        ensures opens { OnOk result (IfSome (traffic self.old) (λ before. Opens before (traffic self.new))) }
        ensures closes { IsErrOf result Fault.Failed → traffic self.new ≡ option_map hung_up (traffic self.old) }
        ensures no_memory { IsErrOf result Fault.NoMemory → traffic self.new ≡ traffic self.old }
        ensures no_memory_only { IsErrOf result Fault.NoMemory → keeps self.old ⊎ (doors self.old ≡ 2 ^ 64 - 1) }
        ensures counts { IsCounted (doors self.old) (doors self.new) (lines self.old) (lines self.new) result };

    /// Reads some of what comes in the open connection into the front of the buffer, and waits for some. Only at its
    /// end, none. Where none is open it fails. Memory is wanting only where one more failure can't be counted.
    fn receive(&mut self, into: &mut [u8]) -> Result<usize, Fault>
        ensures within { IfOk result (λ n. n ≤ length into.new) }
        ensures read { IfOk result (λ n. IfSome (traffic self.old) (λ before.
            Receives before (traffic self.new) into.new n)) }
        ensures end { result ≡ Ok 0 → 0 < length into.old → IfSome (traffic self.old) (λ before. before.left ≡ []) }
        ensures unread { OnErr result (traffic self.new ≡ traffic self.old) }
        ensures no_memory_only { IsErrOf result Fault.NoMemory → lines self.old ≡ 2 ^ 64 - 1 }
        ensures counts { IsCounted (lines self.old) (lines self.new) (doors self.old) (doors self.new) result };

    /// Sends all of the bytes in the open connection, or fails behind a front of them that isn't all. Where none is open it
    /// fails.
    fn send(&mut self, bytes: &[u8]) -> Result<(), Fault>
        ensures sent { OnOk result (IfSome (traffic self.old) (λ before. Sends before (traffic self.new) bytes.now)) }
        ensures front { OnErr result (IfSome (traffic self.old) (λ before.
            SendsFront before (traffic self.new) bytes.now)) }
        ensures no_memory { IsErrOf result Fault.NoMemory → traffic self.new ≡ traffic self.old }
        ensures no_memory_only { IsErrOf result Fault.NoMemory → keeps self.old ⊎ (lines self.old ≡ 2 ^ 64 - 1) }
        ensures counts { IsCounted (lines self.old) (lines self.new) (doors self.old) (doors self.new) result };

    /// Hangs up the open connection, if there is one.
    fn hang_up(&mut self)
        ensures hung_up { traffic self.new ≡ option_map hung_up (traffic self.old) }
        ensures doors { doors self.new ≡ doors self.old }
        ensures lines { lines self.new ≡ lines self.old };
}
