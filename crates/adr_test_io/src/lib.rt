//! A source and a sink in memory, which tell all that they hold and can be told to fail at a call, and the plan of that.
//! It stands on adr_io, and doesn't know what the bytes mean.
#![tactic(auto)]

ghost use Rattle.std.specs.Prelude.{◌≡◌, ◌↔◌, ⊤, ◌+◌, ◌-◌, ◌^◌, ◌≤◌, ◌<◌, ◌++◌, [], Some, None, IsErr, IfOk, OnOk, OnErr, IsErrOf, length, take, drop, min};
ghost use Rattle.adr_test_io.specs.Memory.{Supply, Gathered, one_less};

mod plan;

pub use crate::plan::Plan;
use adr_io::{Failures, Fault, Sink, Source};
use std::alloc::Global;
use std::marker::Model;

/// Bytes in memory, read in pieces.
#[derive(Drop)]
pub struct MemSource {
    bytes: Vec<u8>,
    at: usize,
    piece: usize,
    plan: Plan,
    failures: Failures,
}

impl Model for MemSource {
    ghost Value = { Supply };

    ghost view = { λ s. record { left = drop s.at s.bytes.items; piece = s.piece; plan = s.plan; faults = s.failures } };

    ghost invariant = { λ s. (s.at ≤ length s.bytes.items) × (0 < s.piece) };
}

impl MemSource {
    /// These bytes, at most so many in a read.
    pub fn new(bytes: Vec<u8>, piece: usize) -> MemSource
        requires { 0 < piece }
        ensures { result ≡ record { left = bytes.items; piece = piece; plan = None; faults = 0 } }
    {
        MemSource {
            bytes,
            at: 0,
            piece,
            plan: Plan::none(),
            failures: Failures::new(),
        }
    }

    /// Lets so many calls pass, and fails the next.
    pub fn fail_after(&mut self, calls: u32)
        ensures { self.new ≡ record self.old { plan = Some calls } }
    {
        self.plan = Plan::after(calls);
    }
}

impl Source for MemSource {
    ghost faults = { λ s. s.faults };

    ghost left = { λ s. Some s.left };

    fn read(&mut self, into: &mut [u8]) -> Result<usize, Fault>
        ensures fails { IsErr result ↔ (self.old.plan ≡ Some 0) }
        ensures count { IfOk result (λ n. n ≡ min (length self.old.left) (min (length into.old) self.old.piece)) }
        ensures bytes { IfOk result (λ n. take n into.new ≡ take n self.old.left) }
        ensures end { result ≡ Ok 0 → 0 < length into.old → self.old.left ≡ [] }
        ensures after { IfOk result (λ n.
            self.new ≡ record self.old { left = drop n self.old.left; plan = one_less self.old.plan }) }
        ensures unread { OnErr result (self.new.left ≡ self.old.left) }
        ensures fault { IsErrOf result Fault.Failed
            → self.new ≡ record self.old { plan = None; faults = self.old.faults + 1 } }
        ensures no_memory { IsErrOf result Fault.NoMemory → self.new ≡ self.old }
        ensures no_memory_only { IsErrOf result Fault.NoMemory
            ↔ (self.old.plan ≡ Some 0) × (self.old.faults ≡ 2 ^ 64 - 1) }
    {
        if self.plan.is_due() {
            return Err(self.plan.fail(&mut self.failures));
        }
        let rest = &self.bytes[self.at..];
        let count = rest.len().min(into.len()).min(self.piece);
        into[..count].copy_from_slice(&rest[..count]);
        self.at += count;
        self.plan.pass();
        Ok(count)
    }
}

/// A list of bytes in memory, written at its end.
#[derive(Drop)]
pub struct MemSink {
    bytes: Vec<u8>,
    plan: Plan,
    failures: Failures,
}

impl Model for MemSink {
    ghost Value = { Gathered };

    ghost view = { λ s. record { written = s.bytes.items; plan = s.plan; faults = s.failures } };
}

impl MemSink {
    pub fn new(alloc: Global) -> MemSink
        ensures { result ≡ record { written = []; plan = None; faults = 0 } }
    {
        MemSink {
            bytes: Vec::new(alloc),
            plan: Plan::none(),
            failures: Failures::new(),
        }
    }

    /// What was written.
    pub fn bytes(&self) -> &[u8]
        ensures { result.now ≡ self.now.written }
    {
        self.bytes.as_slice()
    }

    /// Lets so many calls pass, and fails the next.
    pub fn fail_after(&mut self, calls: u32)
        ensures { self.new ≡ record self.old { plan = Some calls } }
    {
        self.plan = Plan::after(calls);
    }
}

impl Sink for MemSink {
    ghost faults = { λ s. s.faults };

    ghost written = { λ s. Some s.written };

    ghost keeps = { λ _. ⊤ };

    /// A write that fails adds nothing. At the planned call memory is wanting only to count the failure.
    fn write(&mut self, bytes: &[u8]) -> Result<(), Fault>
        ensures due { self.old.plan ≡ Some 0 → IsErr result }
        ensures added { OnOk result (self.new
            ≡ record self.old { written = self.old.written ++ bytes.now; plan = one_less self.old.plan }) }
        ensures fault { IsErrOf result Fault.Failed
            → (self.old.plan ≡ Some 0)
            × (self.new ≡ record self.old { plan = None; faults = self.old.faults + 1 }) }
        ensures no_memory { IsErrOf result Fault.NoMemory → self.new ≡ self.old }
        ensures no_memory_due { self.old.plan ≡ Some 0
            → IsErrOf result Fault.NoMemory ↔ (self.old.faults ≡ 2 ^ 64 - 1) }
    {
        if self.plan.is_due() {
            return Err(self.plan.fail(&mut self.failures));
        }
        match self.bytes.extend_from_slice(bytes) {
            Ok(()) => {
                self.plan.pass();
                Ok(())
            }
            Err(_) => Err(Fault::NoMemory),
        }
    }
}
