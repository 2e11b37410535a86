//! A writer of bytes, field by field.

ghost use Rattle.std.specs.Prelude.{◌≡◌, ◌++◌, [], IfOk, OnOk, OnErr};
ghost use Rattle.adr_wire.specs.Fields.{u8, u16, u32, u64, i64, id, flag, text, octets};
ghost use Rattle.adr_wire.specs.Composites.{IsShort};

use adr_values::{Guid, NoMemory, Octets, Text};
use std::alloc::Global;
use std::marker::Model;

/// Writes bytes at the end. Where memory runs out within a value, a part of its bytes may have been written.
#[derive(Drop)]
pub struct Writer {
    bytes: Vec<u8>,
}

impl Model for Writer {
    ghost use Rattle.std.specs.Prelude.{List, ℕ};

    ghost Value = { List ℕ };

    ghost view = { λ w. w.bytes.items };
}

impl Writer {
    pub fn new(alloc: Global) -> Writer
        ensures { result ≡ [] }
    {
        Writer {
            bytes: Vec::new(alloc),
        }
    }

    /// One with room for so many bytes, which are then written without more memory.
    pub fn with_room(alloc: Global, room: usize) -> Result<Writer, NoMemory>
        ensures { IfOk result (λ writer. writer ≡ []) }
    {
        Ok(Writer {
            bytes: Vec::with_capacity(alloc, room)?,
        })
    }

    /// What has been written.
    pub fn into_bytes(self) -> Vec<u8>
        ensures { result.items ≡ self }
    {
        self.bytes
    }

    /// Writes bytes as they are.
    pub fn write_bytes(&mut self, bytes: &[u8]) -> Result<(), NoMemory>
        ensures ok { OnOk result (self.new ≡ self.old ++ bytes.now) }
        ensures err { OnErr result (self.new ≡ self.old) }
    {
        self.bytes.extend_from_slice(bytes)
    }

    pub fn write_u8(&mut self, value: &u8) -> Result<(), NoMemory>
        ensures ok { OnOk result (self.new ≡ self.old ++ u8 value.now) }
        ensures err { OnErr result (self.new ≡ self.old) }
    {
        self.write_bytes(&[*value])
    }

    #[tactic(auto, unfolding(crate::specs::Fields::u16))]
    pub fn write_u16(&mut self, value: &u16) -> Result<(), NoMemory>
        ensures ok { OnOk result (self.new ≡ self.old ++ u16 value.now) }
        ensures err { OnErr result (self.new ≡ self.old) }
    {
        self.write_bytes(&value.to_be_bytes())
    }

    #[tactic(auto, unfolding(crate::specs::Fields::u32))]
    pub fn write_u32(&mut self, value: &u32) -> Result<(), NoMemory>
        ensures ok { OnOk result (self.new ≡ self.old ++ u32 value.now) }
        ensures err { OnErr result (self.new ≡ self.old) }
    {
        self.write_bytes(&value.to_be_bytes())
    }

    #[tactic(auto, unfolding(crate::specs::Fields::u64))]
    pub fn write_u64(&mut self, value: &u64) -> Result<(), NoMemory>
        ensures ok { OnOk result (self.new ≡ self.old ++ u64 value.now) }
        ensures err { OnErr result (self.new ≡ self.old) }
    {
        self.write_bytes(&value.to_be_bytes())
    }

    #[tactic(auto, unfolding(crate::specs::Fields::i64, crate::specs::Fields::u64))]
    pub fn write_i64(&mut self, value: &i64) -> Result<(), NoMemory>
        ensures ok { OnOk result (self.new ≡ self.old ++ i64 value.now) }
        ensures err { OnErr result (self.new ≡ self.old) }
    {
        self.write_bytes(&value.to_be_bytes())
    }

    pub fn write_id(&mut self, value: &Guid) -> Result<(), NoMemory>
        ensures ok { OnOk result (self.new ≡ self.old ++ id value.now) }
        ensures err { OnErr result (self.new ≡ self.old) }
    {
        self.write_bytes(value.as_bytes())
    }

    pub fn write_flag(&mut self, value: &bool) -> Result<(), NoMemory>
        ensures ok { OnOk result (self.new ≡ self.old ++ flag value.now) }
        ensures err { OnErr result (self.new ≡ self.old) }
    {
        if *value {
            return self.write_u8(&1);
        }
        self.write_u8(&0)
    }

    /// An update sequence number. Only one from 1 to 2^63 - 1 can be read again.
    pub fn write_usn(&mut self, value: &u64) -> Result<(), NoMemory>
        ensures ok { OnOk result (self.new ≡ self.old ++ u64 value.now) }
        ensures err { OnErr result (self.new ≡ self.old) }
    {
        self.write_u64(value)
    }

    /// An update sequence number, or 0. Only one up to 2^63 - 1 can be read again.
    pub fn write_usn0(&mut self, value: &u64) -> Result<(), NoMemory>
        ensures ok { OnOk result (self.new ≡ self.old ++ u64 value.now) }
        ensures err { OnErr result (self.new ≡ self.old) }
    {
        self.write_u64(value)
    }

    /// A version. Only one from 1 on can be read again.
    pub fn write_version(&mut self, value: &u32) -> Result<(), NoMemory>
        ensures ok { OnOk result (self.new ≡ self.old ++ u32 value.now) }
        ensures err { OnErr result (self.new ≡ self.old) }
    {
        self.write_u32(value)
    }

    #[tactic(auto, unfolding(crate::specs::Fields::text))]
    pub fn write_text(&mut self, value: &Text) -> Result<(), NoMemory>
        requires { IsShort value.now }
        ensures { OnOk result (self.new ≡ self.old ++ text value.now) }
    {
        self.push_octets(value.items())
    }

    pub fn write_octets(&mut self, value: &Octets) -> Result<(), NoMemory>
        requires { IsShort value.now }
        ensures { OnOk result (self.new ≡ self.old ++ octets value.now) }
    {
        self.push_octets(value.items())
    }

    /// A length, and so many bytes.
    #[tactic(auto, unfolding(crate::specs::Fields::octets))]
    fn push_octets(&mut self, bytes: &[u8]) -> Result<(), NoMemory>
        requires { IsShort bytes.now }
        ensures { OnOk result (self.new ≡ self.old ++ octets bytes.now) }
    {
        self.write_u16(&(bytes.len() as u16))?;
        self.write_bytes(bytes)
    }
}
