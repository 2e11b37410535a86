//! Connections in memory.

ghost use Rattle.std.specs.Prelude.{◌≡◌, ◌↔◌, ◌≢◌, true, false, [], Some, IsTrue, OnOk, OnErr, length, take, drop, min};
ghost use Rattle.adr_outside.specs.Traffic.{Traffic as Told, Opens, Sends, hung_up};
ghost use Rattle.adr_test_outside.specs.Connections.{bytes_of, told_of, IsWhole};
ghost use Rattle.adr_test_outside.specs.Memory.{not_opened, all_sent};

use std::alloc::{AllocError, Global};
use std::marker::Model;

#[derive(Drop)]
pub struct Connections {
    /// What comes in each, in the order in which they are opened.
    incoming: Vec<Vec<u8>>,
    /// What was sent in each that was opened.
    sent: Vec<Vec<u8>>,
    /// How many were hung up. The open one, if there is one, comes behind these.
    hung_up: usize,
    /// How many bytes of the open one were received.
    received: usize,
}

impl Model for Connections {
    ghost Value = { Told };

    ghost view = { λ c. told_of c.incoming.items c.sent.items c.hung_up c.received };

    ghost invariant = { λ c. IsWhole c.incoming.items c.sent.items c.hung_up c.received };
}

impl Connections {
    /// None is open yet.
    pub fn new(alloc: Global, incoming: Vec<Vec<u8>>) -> Connections
        ensures { result ≡ not_opened (bytes_of incoming.items) }
    {
        Connections {
            incoming,
            sent: Vec::new(alloc),
            hung_up: 0,
            received: 0,
        }
    }

    pub fn is_open(&self) -> bool
        ensures { result ≡ self.now.is_open }
    {
        self.hung_up < self.sent.len()
    }

    pub fn is_none_waiting(&self) -> bool
        ensures { IsTrue result ↔ (self.now.waiting ≡ []) }
    {
        self.sent.len() == self.incoming.len()
    }

    /// What was sent in each that was opened.
    pub fn sent(&self) -> &[Vec<u8>]
        ensures { bytes_of result.now ≡ all_sent self.now }
    {
        self.sent.as_slice()
    }

    /// Opens the next one.
    pub fn open_next(&mut self, alloc: Global) -> Result<(), AllocError>
        requires { self.old.waiting ≢ [] }
        ensures opens { OnOk result (Opens self.old (Some self.new)) }
        ensures no_memory { OnErr result (self.new ≡ self.old) }
    {
        let opened = self.sent.len();
        self.sent.push(Vec::new(alloc))?;
        self.hung_up = opened;
        self.received = 0;
        Ok(())
    }

    pub fn hang_up(&mut self)
        ensures { self.new ≡ hung_up self.old }
    {
        self.hung_up = self.sent.len();
        self.received = 0;
    }

    /// Reads what comes in the open one, at most so many bytes.
    pub fn receive(&mut self, into: &mut [u8], most: usize) -> usize
        requires { self.old.is_open ≡ true }
        ensures count { result ≡ min (length self.old.left) (min (length into.old) most) }
        ensures bytes { take result into.new ≡ take result self.old.left }
        ensures left { self.new ≡ record self.old { left = drop result self.old.left } }
    {
        let bytes = &self.incoming[self.hung_up];
        let rest = &bytes[self.received..];
        let count = rest.len().min(into.len()).min(most);
        into[..count].copy_from_slice(&rest[..count]);
        self.received += count;
        count
    }

    /// Sends in the open one.
    pub fn send(&mut self, bytes: &[u8]) -> Result<(), AllocError>
        requires { self.old.is_open ≡ true }
        ensures sent { OnOk result (Sends self.old (Some self.new) bytes.now) }
        ensures no_memory { OnErr result (self.new ≡ self.old) }
    {
        self.sent[self.hung_up].extend_from_slice(bytes)?;
        Ok(())
    }
}
