//! With what a message begins: its magic, and its version.

ghost use Rattle.std.specs.Prelude.{◌≡◌, ◌++◌, ◌==◌, IfErr, IfOk, Ok, OnOk, true};
ghost use Rattle.adr_wire.specs.Fields.{u16_at};
ghost use Rattle.adr_wire.specs.Headed.{IsHeadRefused, as_decoding, head, head_at, is_version};
ghost use Rattle.adr_wire.specs.Reading.{Tells, where_at};

use crate::reader::Reader;
use crate::refusal::{DecodeRefusal, Malformed, WireRefusal};
use crate::writer::Writer;
use adr_values::{Failure, NoMemory};

impl Reader<'_> {
    /// The version of a message, behind its magic. Other first bytes are refused at the first of them.
    #[tactic(auto, unfolding(crate::specs::Headed::head_at))]
    pub fn read_head(&mut self, magic: &[u8; 4]) -> Result<u16, WireRefusal>
        ensures { Tells result self.new (head_at magic.now self.old) }
    {
        self.read_magic(magic)?;
        self.read_u16()
    }

    /// A version of a format that has two, else a fault at its place.
    pub fn read_known_version(&mut self) -> Result<u16, WireRefusal>
        ensures { Tells result self.new (where_at is_version u16_at self.old) }
    {
        let place = self.place();
        let version = self.read_u16()?;
        if !is_version(version) {
            return Err(Failure::Refused(Malformed { place }));
        }
        Ok(version)
    }
}

/// Whether this is a version of a format that has two.
fn is_version(version: u16) -> bool
    ensures { result ≡ is_version version }
{
    version == 1 || version == 2
}

/// A reader that stands behind the head of a message: its magic, and this version.
pub fn open_message<'a>(
    bytes: &'a [u8],
    magic: &[u8; 4],
    version: u16,
) -> Result<Reader<'a>, Failure<DecodeRefusal>>
    ensures ok { IfOk result (λ reader. head_at magic.now (record { place = 0; bytes = bytes.now }) ≡ Ok (version, reader)) }
    ensures err { IfErr result (IsHeadRefused (λ found. found == version) (head_at magic.now (record { place = 0; bytes = bytes.now }))) }
{
    let mut reader = Reader::new(bytes);
    let found = match reader.read_head(magic) {
        Ok(found) => found,
        Err(refusal) => return Err(malformed(refusal)),
    };
    if found != version {
        return Err(Failure::Refused(DecodeRefusal::WrongVersion { found }));
    }
    Ok(reader)
}

/// The version of a message that may have either of two, and a reader that stands behind its head.
pub fn open_known<'a>(
    bytes: &'a [u8],
    magic: &[u8; 4],
) -> Result<(u16, Reader<'a>), Failure<DecodeRefusal>>
    ensures ok { IfOk result (λ opened. head_at magic.now (record { place = 0; bytes = bytes.now }) ≡ Ok opened) }
    ensures known { IfOk result (λ opened. is_version opened.0 ≡ true) }
    ensures err { IfErr result (IsHeadRefused is_version (head_at magic.now (record { place = 0; bytes = bytes.now }))) }
{
    let mut reader = Reader::new(bytes);
    let found = match reader.read_head(magic) {
        Ok(found) => found,
        Err(refusal) => return Err(malformed(refusal)),
    };
    if !is_version(found) {
        return Err(Failure::Refused(DecodeRefusal::WrongVersion { found }));
    }
    Ok((found, reader))
}

impl Writer {
    /// Writes a magic, and a version.
    pub fn write_head(&mut self, magic: &[u8; 4], version: &u16) -> Result<(), NoMemory>
        ensures { OnOk result (self.new ≡ self.old ++ head magic.now version.now) }
    {
        self.write_bytes(magic)?;
        self.write_u16(version)
    }
}

/// The refusal of a message whose version is known.
pub fn malformed(refusal: WireRefusal) -> Failure<DecodeRefusal>
    ensures { result ≡ as_decoding refusal }
{
    match refusal {
        Failure::Refused(Malformed { place }) => Failure::Refused(DecodeRefusal::Malformed {
            place,
        }),
        Failure::NoMemory => Failure::NoMemory,
    }
}
