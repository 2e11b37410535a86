//! A network in memory.

ghost use Rattle.std.specs.Prelude.{◌≡◌, ⊤, ◌<◌, ◌-◌, ◌^◌, None, Some, [], IsErr, IfOk, OnOk, IsErrOf, length, take, drop, min};
ghost use Rattle.adr_outside.specs.Traffic.{Sends, hung_up};
ghost use Rattle.adr_test_outside.specs.Connections.{bytes_of};
ghost use Rattle.adr_test_outside.specs.Memory.{Network, CannotTalk, OpensNext, not_opened, all_sent, passed, door_failed, line_failed};

use crate::connections::Connections;
use adr_io::{Failures, Fault};
use adr_outside::Net;
use adr_test_io::Plan;
use std::alloc::Global;
use std::marker::Model;

/// Connections whose bytes are known beforehand, and what was sent in them.
#[derive(Drop)]
pub struct MemNet {
    alloc: Global,
    connections: Connections,
    piece: usize,
    plan: Plan,
    doors: Failures,
    lines: Failures,
}

impl Model for MemNet {
    ghost Value = { Network };

    ghost view = { λ n. record { traffic = n.connections; piece = n.piece; plan = n.plan; doors = n.doors; lines = n.lines } };

    ghost invariant = { λ n. 0 < n.piece };
}

impl MemNet {
    /// What comes in each connection, in the order in which they are opened: each `accept` or `connect` opens the next
    /// one. A `receive` gives as many bytes as there are and as there is room for.
    pub fn new(alloc: Global, connections: Vec<Vec<u8>>) -> MemNet
        ensures { result ≡ record {
          traffic = not_opened (bytes_of connections.items);
          piece = usize.MAX;
          plan = None;
          doors = 0;
          lines = 0;
        } }
    {
        MemNet::in_pieces(alloc, connections, usize::MAX)
    }

    /// The same, and at most so many bytes in a `receive`.
    pub fn in_pieces(alloc: Global, connections: Vec<Vec<u8>>, piece: usize) -> MemNet
        requires { 0 < piece }
        ensures { result ≡ record {
          traffic = not_opened (bytes_of connections.items);
          piece = piece;
          plan = None;
          doors = 0;
          lines = 0;
        } }
    {
        MemNet {
            alloc,
            connections: Connections::new(alloc, connections),
            piece,
            plan: Plan::none(),
            doors: Failures::new(),
            lines: Failures::new(),
        }
    }

    /// What was sent, a list of bytes for each connection that was opened.
    pub fn sent(&self) -> &[Vec<u8>]
        ensures { bytes_of result.now ≡ all_sent self.now.traffic }
    {
        self.connections.sent()
    }

    /// Lets so many calls pass, and fails the next. `hang_up` isn't counted.
    pub fn fail_after(&mut self, calls: u32)
        ensures { self.new ≡ record self.old { plan = Some calls } }
    {
        self.plan = Plan::after(calls);
    }

    fn fail_opening(&mut self) -> Fault
        ensures failed { result ≡ Fault.Failed
            → self.new ≡ record (door_failed self.old) { traffic = hung_up self.old.traffic } }
        ensures no_memory { result ≡ Fault.NoMemory → self.new ≡ self.old }
        ensures limit { result ≡ Fault.NoMemory → self.old.doors ≡ 2 ^ 64 - 1 }
    {
        let fault = self.plan.fail(&mut self.doors);
        if fault == Fault::Failed {
            self.connections.hang_up();
        }
        fault
    }

    fn open_next(&mut self) -> Result<(), Fault>
        ensures { OpensNext self.old result self.new }
    {
        if self.plan.is_due() || self.connections.is_none_waiting() {
            return Err(self.fail_opening());
        }
        self.connections.open_next(self.alloc)?;
        self.plan.pass();
        Ok(())
    }
}

impl Net for MemNet {
    ghost doors = { λ n. n.doors };

    ghost lines = { λ n. n.lines };

    ghost traffic = { λ n. Some n.traffic };

    ghost keeps = { λ _. ⊤ };

    fn listen(&mut self, _port: u16) -> Result<(), Fault>
        ensures due { self.old.plan ≡ Some 0 → IsErr result }
        ensures passes { OnOk result (self.new ≡ passed self.old) }
        ensures fault { IsErrOf result Fault.Failed
            → (self.old.plan ≡ Some 0) × (self.new ≡ door_failed self.old) }
        ensures no_memory { IsErrOf result Fault.NoMemory → self.new ≡ self.old }
        ensures no_memory_only { IsErrOf result Fault.NoMemory → self.old.doors ≡ 2 ^ 64 - 1 }
    {
        if self.plan.is_due() {
            return Err(self.plan.fail(&mut self.doors));
        }
        self.plan.pass();
        Ok(())
    }

    fn accept(&mut self) -> Result<(), Fault>
        ensures { OpensNext self.old result self.new }
    {
        self.open_next()
    }

    /// Opens the next connection, whatever the port.
    fn connect(&mut self, _port: u16) -> Result<(), Fault>
        ensures { OpensNext self.old result self.new }
    {
        self.open_next()
    }

    fn receive(&mut self, into: &mut [u8]) -> Result<usize, Fault>
        ensures due { CannotTalk self.old → IsErr result }
        ensures count { IfOk result (λ n.
            n ≡ min (length self.old.traffic.left) (min (length into.old) self.old.piece)) }
        ensures bytes { IfOk result (λ n. take n into.new ≡ take n self.old.traffic.left) }
        ensures end { result ≡ Ok 0 → 0 < length into.old → self.old.traffic.left ≡ [] }
        ensures passes { IfOk result (λ n. self.new ≡ record (passed self.old)
            { traffic = record self.old.traffic { left = drop n self.old.traffic.left } }) }
        ensures fault { IsErrOf result Fault.Failed
            → CannotTalk self.old × (self.new ≡ line_failed self.old) }
        ensures no_memory { IsErrOf result Fault.NoMemory → self.new ≡ self.old }
        ensures no_memory_only { IsErrOf result Fault.NoMemory → self.old.lines ≡ 2 ^ 64 - 1 }
    {
        if self.plan.is_due() || !self.connections.is_open() {
            return Err(self.plan.fail(&mut self.lines));
        }
        let count = self.connections.receive(into, self.piece);
        self.plan.pass();
        Ok(count)
    }

    /// One that fails sends nothing. Where it is due to fail, memory is wanting only to count that.
    fn send(&mut self, bytes: &[u8]) -> Result<(), Fault>
        ensures due { CannotTalk self.old → IsErr result }
        ensures sent { OnOk result (Sends self.old.traffic (Some self.new.traffic) bytes.now) }
        ensures passes { OnOk result (self.new ≡ record (passed self.old) { traffic = self.new.traffic }) }
        ensures fault { IsErrOf result Fault.Failed
            → CannotTalk self.old × (self.new ≡ line_failed self.old) }
        ensures no_memory { IsErrOf result Fault.NoMemory → self.new ≡ self.old }
        ensures no_memory_due { CannotTalk self.old → IsErrOf result Fault.NoMemory → self.old.lines ≡ 2 ^ 64 - 1 }
    {
        if self.plan.is_due() || !self.connections.is_open() {
            return Err(self.plan.fail(&mut self.lines));
        }
        self.connections.send(bytes)?;
        self.plan.pass();
        Ok(())
    }

    fn hang_up(&mut self)
        ensures { self.new ≡ record self.old { traffic = hung_up self.old.traffic } }
    {
        self.connections.hang_up();
    }
}
