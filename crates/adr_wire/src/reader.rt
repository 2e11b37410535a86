//! A reader of bytes, field by field.

ghost use Rattle.std.specs.Prelude.{◌≡◌, ◌↔◌, ◌+◌, ◌≤◌, ◌<◌, ◌^◌, IsOk, IfErr, [], drop, length};
ghost use Rattle.std.specs.Str.{is_utf8};
ghost use Rattle.adr_wire.specs.Reading.{Gives, Tells, TellsAs, bytes_at};
ghost use Rattle.adr_wire.specs.Fields.{u8_at, u16_at, u32_at, u64_at, i64_at, id_at, flag_at, usn_at, usn0_at, version_at, text_at, octets_at, magic_at, format_version_at};

use crate::refusal::{Malformed, WireRefusal};
use adr_values::{Failure, Guid, Octets, Text};
use std::alloc::Global;
use std::marker::Model;

/// Reads bytes from the front. After a refusal a reader is of no more use.
#[derive(Drop)]
pub struct Reader<'a> {
    place: u64,
    bytes: &'a [u8],
}

impl<'a> Model for Reader<'a> {
    ghost use Rattle.adr_wire.specs.Reading.{Rest};
    ghost use Rattle.std.specs.Prelude.{◌+◌, ◌<◌, ◌^◌, length};

    ghost Value = { Rest };

    ghost view = { λ r. record { place = r.place; bytes = r.bytes.now } };

    ghost invariant = { λ r. r.place + length r.bytes.now < 2 ^ 64 };
}

impl<'a> Reader<'a> {
    pub fn new(bytes: &'a [u8]) -> Reader<'a>
        ensures { result ≡ record { place = 0; bytes = bytes.now } }
    {
        Reader { place: 0, bytes }
    }

    /// A reader of bytes from a place on.
    pub fn at(bytes: &'a [u8], place: usize) -> Reader<'a>
        requires { place ≤ length bytes.now }
        ensures { result ≡ record { place = place; bytes = drop place bytes.now } }
    {
        Reader {
            place: place as u64,
            bytes: &bytes[place..],
        }
    }

    /// A reader of the same bytes from the same place.
    pub fn again(&self) -> Reader<'a>
        ensures { result ≡ self.now }
    {
        Reader {
            place: self.place,
            bytes: self.bytes,
        }
    }

    /// The place of the next byte, counted from 0.
    pub fn place(&self) -> u64
        ensures { result ≡ self.now.place }
    {
        self.place
    }

    /// Refuses bytes that are left, at the first of them.
    pub fn end(&self) -> Result<(), WireRefusal>
        ensures end { IsOk result ↔ (self.now.bytes ≡ []) }
        ensures place { IfErr result (λ e. e ≡ Failure.Refused (record { place = self.now.place })) }
    {
        if self.bytes.is_empty() {
            return Ok(());
        }
        Err(Failure::Refused(Malformed { place: self.place }))
    }

    /// Reads so many bytes.
    pub fn take<const N: usize>(&mut self) -> Result<[u8; N], WireRefusal>
        ensures { Tells result self.new (bytes_at N self.old) }
    {
        let Some((front, rest)) = self.bytes.split_first_chunk::<N>() else {
            return Err(Failure::Refused(Malformed { place: self.place }));
        };
        self.place += N as u64;
        self.bytes = rest;
        Ok(*front)
    }

    #[tactic(auto, unfolding(crate::specs::Fields::u8_at))]
    pub fn read_u8(&mut self) -> Result<u8, WireRefusal>
        ensures { Tells result self.new (u8_at self.old) }
    {
        let [byte] = self.take::<1>()?;
        Ok(byte)
    }

    #[tactic(auto, unfolding(crate::specs::Fields::u16_at))]
    pub fn read_u16(&mut self) -> Result<u16, WireRefusal>
        ensures { Tells result self.new (u16_at self.old) }
    {
        self.take::<2>().map(u16::from_be_bytes)
    }

    #[tactic(auto, unfolding(crate::specs::Fields::u32_at))]
    pub fn read_u32(&mut self) -> Result<u32, WireRefusal>
        ensures { Tells result self.new (u32_at self.old) }
    {
        self.take::<4>().map(u32::from_be_bytes)
    }

    #[tactic(auto, unfolding(crate::specs::Fields::u64_at))]
    pub fn read_u64(&mut self) -> Result<u64, WireRefusal>
        ensures { Tells result self.new (u64_at self.old) }
    {
        self.take::<8>().map(u64::from_be_bytes)
    }

    #[tactic(auto, unfolding(crate::specs::Fields::i64_at, crate::specs::Fields::u64_at))]
    pub fn read_i64(&mut self) -> Result<i64, WireRefusal>
        ensures { Tells result self.new (i64_at self.old) }
    {
        self.take::<8>().map(i64::from_be_bytes)
    }

    #[tactic(auto, unfolding(crate::specs::Fields::flag_at))]
    pub fn read_flag(&mut self) -> Result<bool, WireRefusal>
        ensures { Tells result self.new (flag_at self.old) }
    {
        let place = self.place;
        match self.read_u8()? {
            0 => Ok(false),
            1 => Ok(true),
            _ => Err(Failure::Refused(Malformed { place })),
        }
    }

    #[tactic(auto, unfolding(crate::specs::Fields::id_at))]
    pub fn read_id(&mut self) -> Result<Guid, WireRefusal>
        ensures { Tells result self.new (id_at self.old) }
    {
        self.take::<16>().map(Guid::from_bytes)
    }

    #[tactic(auto, unfolding(crate::specs::Fields::usn_at))]
    pub fn read_usn(&mut self) -> Result<u64, WireRefusal>
        ensures { Tells result self.new (usn_at self.old) }
    {
        let place = self.place;
        let usn = self.read_u64()?;
        if usn >= 1 && usn < LIMIT {
            return Ok(usn);
        }
        Err(Failure::Refused(Malformed { place }))
    }

    #[tactic(auto, unfolding(crate::specs::Fields::usn0_at))]
    pub fn read_usn0(&mut self) -> Result<u64, WireRefusal>
        ensures { Tells result self.new (usn0_at self.old) }
    {
        let place = self.place;
        let usn = self.read_u64()?;
        if usn < LIMIT {
            return Ok(usn);
        }
        Err(Failure::Refused(Malformed { place }))
    }

    #[tactic(auto, unfolding(crate::specs::Fields::version_at))]
    pub fn read_version(&mut self) -> Result<u32, WireRefusal>
        ensures { Tells result self.new (version_at self.old) }
    {
        let place = self.place;
        let version = self.read_u32()?;
        if version >= 1 {
            return Ok(version);
        }
        Err(Failure::Refused(Malformed { place }))
    }

    #[tactic(auto, unfolding(crate::specs::Fields::text_at))]
    pub fn read_text(&mut self, alloc: Global) -> Result<Text, WireRefusal>
        ensures { Gives result self.new (text_at self.old) }
    {
        let place = self.place;
        let bytes = self.take_octets()?;
        if !is_text(bytes) {
            return Err(Failure::Refused(Malformed { place }));
        }
        Ok(Text::of(Vec::from_slice(alloc, bytes)?))
    }

    pub fn read_octets(&mut self, alloc: Global) -> Result<Octets, WireRefusal>
        ensures { Gives result self.new (octets_at self.old) }
    {
        let bytes = self.take_octets()?;
        Ok(Octets::of(Vec::from_slice(alloc, bytes)?))
    }

    /// The magic with which a format begins; other bytes are refused at the first of them.
    pub fn read_magic(&mut self, magic: &[u8; 4]) -> Result<[u8; 4], WireRefusal>
        ensures { Tells result self.new (magic_at magic.now self.old) }
    {
        let place = self.place;
        let found = self.take::<4>()?;
        if found != *magic {
            return Err(Failure::Refused(Malformed { place }));
        }
        Ok(found)
    }

    /// The version of a format; another one is refused at its place.
    pub fn read_format_version(&mut self, version: u16) -> Result<u16, WireRefusal>
        ensures { Tells result self.new (format_version_at version self.old) }
    {
        let place = self.place;
        let found = self.read_u16()?;
        if found != version {
            return Err(Failure::Refused(Malformed { place }));
        }
        Ok(found)
    }

    /// Reads a length, and so many bytes.
    #[tactic(auto, unfolding(crate::specs::Fields::octets_at))]
    fn take_octets(&mut self) -> Result<&'a [u8], WireRefusal>
        ensures { TellsAs (λ b. b.now) result self.new (octets_at self.old) }
    {
        let place = self.place;
        let len = self.read_u16()? as usize;
        if self.bytes.len() < len {
            return Err(Failure::Refused(Malformed { place }));
        }
        let (front, rest) = self.bytes.split_at(len);
        self.place += len as u64;
        self.bytes = rest;
        Ok(front)
    }
}

/// Whether the bytes are UTF-8.
fn is_text(bytes: &[u8]) -> bool
    ensures { result ≡ is_utf8 bytes.now }
{
    match std::str::from_utf8(bytes) {
        Ok(_) => true,
        Err(_) => false,
    }
}

/// One more than the greatest update sequence number.
const LIMIT: u64 = 1 << 63;
