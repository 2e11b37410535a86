//! GUIDs: the sixteen bytes that name an object, a controller or a database (MS-DTYP 2.3.4, RFC 9562).
//!
//! Their order is that of the bytes, the first byte first. `uuid` reads and writes their text, and no signature names it: a
//! crate whose public types reach one of another library carries all that the library states.

ghost use Rattle.std.specs.Prelude.{◌≡◌, ◌<◌, ℕ, get_or, length, refl};
ghost use Rattle.std.proofs.Common.{sym};
ghost use Rattle.std.specs.Cmp.Lexicographic.{slice_cmp};
ghost use Rattle.std.specs.Ordering.{nat_cmp};
ghost use Rattle.std.specs.Cmp.{partial_order_from_agreeing_total};
ghost use Rattle.std.proofs.lemmas.Cmp.{nat_list_cmp_total};
ghost use Rattle.std.proofs.lemmas.Map.Text.{is_eq-slice_cmp};
ghost use Rattle.std.specs.Int.{from_be_bytes, to_be_bytes, w128};
ghost use Rattle.uuid.specs.Text.{hyphenated_text, lower, parsed};

use std::cmp::Ordering;
use std::fmt;
use std::marker::Model;
use uuid::Uuid;

/// A GUID.
#[derive(Clone, Copy, PartialEq, Eq)]
pub struct Guid([u8; 16]);

impl Model for Guid {
    ghost use Rattle.std.specs.Prelude.{List, ℕ};

    ghost Value = { List ℕ };

    ghost view = { λ guid. guid.0 };

    ghost inverse = { λ bytes. record { 0 = bytes } };
}

impl Guid {
    /// The GUID of these bytes.
    pub const fn from_bytes(bytes: [u8; 16]) -> Guid
        ensures { result ≡ bytes }
    {
        Guid(bytes)
    }

    /// The GUID whose bytes are a number's, the high byte first.
    pub const fn from_u128(number: u128) -> Guid
        ensures { result ≡ to_be_bytes w128 number }
    {
        Guid(number.to_be_bytes())
    }

    /// The bytes.
    pub const fn as_bytes(&self) -> &[u8; 16]
        ensures { result.now ≡ self.now }
    {
        &self.0
    }

    /// The bytes as one number, the high byte first.
    pub const fn as_u128(&self) -> u128
        ensures { result ≡ from_be_bytes w128 self.now }
    {
        u128::from_be_bytes(self.0)
    }

    /// The GUID that a text spells, in one of the forms that `uuid` reads.
    pub fn parse_str(text: &str) -> Option<Guid>
        ensures { result ≡ parsed text.now }
    {
        match Uuid::parse_str(text) {
            Ok(uuid) => Some(Guid(uuid.into_bytes())),
            Err(_) => None,
        }
    }

    /// Its text of 36 bytes, in lower case (RFC 9562).
    pub fn hyphenated<'b>(&self, buffer: &'b mut [u8; 36]) -> &'b str
        ensures { result.now ≡ hyphenated_text lower self.now }
    {
        Uuid::from_bytes(self.0).hyphenated().encode_lower(buffer)
    }
}

// Its text of 36 bytes, in lower case.
impl fmt::Display for Guid {
    fn fmt<W: fmt::Write>(&self, f: &mut fmt::Formatter<W>) -> fmt::Result {
        f.write_str(self.hyphenated(&mut [0; 36]))
    }
}

impl fmt::Debug for Guid {
    fn fmt<W: fmt::Write>(&self, f: &mut fmt::Formatter<W>) -> fmt::Result {
        fmt::Display::fmt(self, f)
    }
}

// By the bytes, the first one first.
impl Ord for Guid {
    ghost use Rattle.std.specs.Cmp.Lexicographic.{slice_cmp};
    ghost use Rattle.std.specs.Ordering.{nat_cmp};

    ghost cmp = { slice_cmp nat_cmp };

    ghost total = { nat_list_cmp_total };

    ghost matches_partial_cmp = { λ x y. refl };

    ghost matches_eq = { λ x y. sym (is_eq-slice_cmp x y) };

    fn cmp(&self, other: &Guid) -> Ordering {
        compared(&self.0, &other.0)
    }
}

impl PartialOrd for Guid {
    ghost use Rattle.std.specs.Cmp.Lexicographic.{slice_cmp};
    ghost use Rattle.std.specs.Ordering.{as_partial_cmp, nat_cmp};

    ghost partial_cmp = { as_partial_cmp (slice_cmp nat_cmp) };

    ghost laws = { partial_order_from_agreeing_total (slice_cmp nat_cmp) nat_list_cmp_total (λ x y. refl) (λ x y. sym (is_eq-slice_cmp x y)) };

    fn partial_cmp(&self, other: &Guid) -> Option<Ordering> {
        Some(self.cmp(other))
    }
}

/// The order of bytes, the first one first, is that of the numbers that they spell.
fn compared(mine: &[u8; 16], theirs: &[u8; 16]) -> Ordering
    ensures { result ≡ slice_cmp nat_cmp mine.now theirs.now }
{
    bytes_fit(mine);
    bytes_fit(theirs);
    u128::from_be_bytes(*mine).cmp(&u128::from_be_bytes(*theirs))
}

// Each byte fits, which a clause can't say of an array: this walk reads them, and is compiled away.
#[inline]
fn bytes_fit(bytes: &[u8; 16])
    ensures length { length bytes.now ≡ 16 }
    ensures fit { (k : ℕ) → k < 16 → get_or bytes.now k 0 < 256 }
{
    'bytes: for i in 0..16 {
        let _ = bytes[i];
    }
}
