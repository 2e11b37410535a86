//! Whether values are as a test asks.

ghost use Rattle.std.specs.Prelude.{◌≡◌, IfOk, map, option_map};
ghost use Rattle.std.specs.List.{list_any};
ghost use Rattle.std.specs.Str.{bytes_eq};
ghost use Rattle.adr_values.specs.declared.content.Value.TheVariants as datums;
ghost use Rattle.adr_search.specs.Match.{bytes_meet, equal_meets, is_met, judged, number_meets, same_flag, under, values_at};
ghost use Rattle.adr_search.specs.Seen.{bytes_in, equal_in, number_in, test_in};
ghost use Rattle.adr_search.specs.Truths.{told};

use crate::asked::{BytesTest, NumberTest, Test};
use crate::fields::{Place, class_text};
use crate::pieces::is_like;
use crate::truth::Truth;
use adr_call::{Entry, EntryLinks, EntryValues};
use adr_values::{Guid, NoMemory, Value, fold_name};
use std::alloc::Global;

impl BytesTest {
    fn meets(&self, bytes: &[u8]) -> bool
        ensures { result ≡ bytes_meet (bytes_in self.now) bytes.now }
    {
        match self {
            BytesTest::Present => true,
            BytesTest::Equal(value) => value.items() == bytes,
            BytesTest::AtLeast(value) => value.items().cmp(bytes).is_le(),
            BytesTest::AtMost(value) => bytes.cmp(value.items()).is_le(),
            BytesTest::Like(pattern) => is_like(pattern, bytes),
        }
    }
}

impl NumberTest {
    fn meets(self, number: i64) -> bool
        ensures { result ≡ number_meets (number_in self) number }
    {
        match self {
            NumberTest::Present => true,
            NumberTest::Equal(value) => value == number,
            NumberTest::AtLeast(value) => value <= number,
            NumberTest::AtMost(value) => number <= value,
        }
    }
}

fn flag_meets(wanted: Option<bool>, flag: bool) -> bool
    ensures { result ≡ equal_meets same_flag (equal_in wanted) flag }
{
    match wanted {
        None => true,
        Some(value) => { if value { flag } else { !flag } }
    }
}

fn guid_meets(wanted: Option<Guid>, guid: Guid) -> bool
    ensures { result ≡ equal_meets bytes_eq (equal_in wanted) guid }
{
    match wanted {
        None => true,
        Some(value) => value == guid,
    }
}

impl Test {
    fn meets_text(&self, alloc: Global, text: &str) -> Result<bool, NoMemory>
        ensures { IfOk result (λ met. met ≡ is_met (test_in self.now) (datums.Text text.now)) }
    {
        match self {
            Test::Texts(test) => Ok(test.meets(fold_name(alloc, text)?.items())),
            Test::Octets(_) | Test::Numbers(_) | Test::Flags(_) | Test::Guids(_) => Ok(false),
        }
    }

    fn meets_octets(&self, octets: &[u8]) -> bool
        ensures { result ≡ is_met (test_in self.now) (datums.Octets octets.now) }
    {
        match self {
            Test::Octets(test) => test.meets(octets),
            Test::Texts(_) | Test::Numbers(_) | Test::Flags(_) | Test::Guids(_) => false,
        }
    }

    fn meets_number(&self, number: i64) -> bool
        ensures { result ≡ is_met (test_in self.now) (datums.Number number) }
    {
        match self {
            Test::Numbers(test) => test.meets(number),
            Test::Texts(_) | Test::Octets(_) | Test::Flags(_) | Test::Guids(_) => false,
        }
    }

    fn meets_flag(&self, flag: bool) -> bool
        ensures { result ≡ is_met (test_in self.now) (datums.Flag flag) }
    {
        match self {
            Test::Flags(wanted) => flag_meets(*wanted, flag),
            Test::Texts(_) | Test::Octets(_) | Test::Numbers(_) | Test::Guids(_) => false,
        }
    }

    fn meets_guid(&self, guid: Guid) -> bool
        ensures { result ≡ is_met (test_in self.now) (datums.Ref guid) }
    {
        match self {
            Test::Guids(wanted) => guid_meets(*wanted, guid),
            Test::Texts(_) | Test::Octets(_) | Test::Numbers(_) | Test::Flags(_) => false,
        }
    }

    fn meets(&self, alloc: Global, value: &Value) -> Result<bool, NoMemory>
        ensures { IfOk result (λ met. met ≡ is_met (test_in self.now) value.now) }
    {
        match value {
            Value::Text(text) => self.meets_text(alloc, text.as_str()),
            Value::Number(number) => Ok(self.meets_number(*number)),
            Value::Flag(flag) => Ok(self.meets_flag(*flag)),
            Value::Octets(octets) => Ok(self.meets_octets(octets.items())),
            Value::Ref(guid) => Ok(self.meets_guid(*guid)),
        }
    }

    fn meets_one(&self, alloc: Global, values: &[Value]) -> Result<bool, NoMemory>
        ensures { IfOk result (λ met. met ≡ list_any (is_met (test_in self.now)) values.now) }
    {
        for value in values {
            if self.meets(alloc, value)? {
                return Ok(true);
            }
        }
        Ok(false)
    }

    fn meets_one_guid(&self, guids: &[Guid]) -> bool
        ensures { result ≡ list_any (is_met (test_in self.now)) (map datums.Ref guids.now) }
    {
        for guid in guids {
            if self.meets_guid(*guid) {
                return true;
            }
        }
        false
    }
}

/// The values under an attribute.
fn values_under(pairs: &EntryValues, attr: u16) -> &[Value]
    ensures { result.now ≡ under attr pairs.now }
{
    for (number, values) in pairs.items() {
        if *number == attr {
            return values.items();
        }
    }
    &[]
}

/// The GUIDs under an attribute.
fn links_under(pairs: &EntryLinks, attr: u16) -> &[Guid]
    ensures { result.now ≡ under attr pairs.now }
{
    for (number, guids) in pairs.items() {
        if *number == attr {
            return guids.items();
        }
    }
    &[]
}

/// Whether a value in a place of an entry is as a test asks.
fn is_met(alloc: Global, place: Place, test: &Test, entry: &Entry) -> Result<bool, NoMemory>
    ensures { IfOk result (λ met. met ≡ list_any (is_met (test_in test.now)) (values_at place entry.now)) }
{
    match place {
        Place::Class => test.meets_text(alloc, class_text(entry.class)),
        Place::Name => test.meets_text(alloc, entry.name.as_str()),
        Place::Values(attr) => test.meets_one(alloc, values_under(&entry.values, attr)),
        Place::Links(attr) => Ok(test.meets_one_guid(links_under(&entry.links, attr))),
    }
}

/// What a test is of an entry; one that couldn't be read is undefined.
pub fn judged(
    alloc: Global,
    place: Place,
    test: &Option<Test>,
    entry: &Entry,
) -> Result<Truth, NoMemory>
    ensures { IfOk result (λ truth. truth ≡ judged place (option_map test_in test.now) entry.now) }
{
    match test {
        None => Ok(Truth::Undefined),
        Some(test) => Ok(Truth::told(is_met(alloc, place, test, entry)?)),
    }
}
