//! How long items and changes are as bytes, as far as a limit goes, and where a log stands before and after a change.

ghost use Rattle.std.specs.Prelude.{◌≡◌, ◌≤◌, ◌<◌, ◌+◌, ◌*◌, ◌^◌, ◌&&◌, false, None, Some, fold, min, nat_le, nat_lt, if◌then◌else◌};
ghost use Rattle.adr_model.specs.Update.{Update as Row};
ghost use Rattle.adr_model.specs.Change.{Written as Wrote};
ghost use Rattle.adr_model.specs.Store.{Store};
ghost use Rattle.adr_model.specs.Lengths.{area_at, change_length, checkpointed, first_area, image_length, is_due, length_limit, log_after, log_limit, timed_length};
ghost use Rattle.adr_model.specs.Serve.{content_length, item_length, value_length, vector_length};
ghost use Rattle.adr_update.specs.Said.{said_of};

use adr_change::Change;
use adr_update::{Item, LOG_LIMIT, Said, Update, Written};
use adr_values::{Content, Unit, Value, Vector};
use std::marker::Model;

/// An image and the body of a record are shorter than this, in bytes: 4 GiB.
pub const LENGTH_LIMIT: u64 = 4_294_967_296;

/// The version of the areas that are written.
const AREA_VERSION: u16 = 2;

/// The place of the area of a new log, and the first at which any area stands, in bytes.
pub const FIRST_AREA: u64 = 56;

/// How many bytes of an area stand in front of its image, and how many beside it: those, and its closed gate.
pub const AREA_FRONT: u64 = 6;

pub const AREA_FRAME: u64 = 7;

/// Where a log stands on a disk: whether the second slot selects its area, the area's place and version, the place of
/// the first gate behind the area's image, and where the log ends, behind its closed gate; all places in bytes.
#[derive(Clone, Copy)]
pub struct Log {
    second: bool,
    place: u64,
    version: u16,
    first: u64,
    end: u64,
}

impl Model for Log {
    ghost use Rattle.adr_model.specs.Lengths.{Log as Defined};

    ghost Value = { Defined };

    ghost view = { λ l. record { second = l.second; place = l.place; version = l.version; first = l.first; log_end = l.end } };

    ghost inverse = { λ l. record { second = l.second; place = l.place; version = l.version; first = l.first; end = l.log_end } };
}

impl Log {
    /// The log on a new disk of a state whose image is so long, in bytes.
    pub fn new(image: u64) -> Log
        requires { image < 2 ^ 63 }
        ensures { (s : Store) → image ≡ image_length s → result ≡ area_at false first_area s }
    {
        Log::at(false, FIRST_AREA, image)
    }

    /// A log that was found.
    pub fn found(second: bool, place: u64, version: u16, first: u64, end: u64) -> Log
        ensures { result ≡ record { second = second; place = place; version = version; first = first; log_end = end } }
    {
        Log {
            second,
            place,
            version,
            first,
            end,
        }
    }

    /// The log of an area without records, whose image is so long.
    fn at(second: bool, place: u64, image: u64) -> Log
        requires { place + 7 + image < 2 ^ 64 }
        ensures { (s : Store) → image ≡ image_length s → result ≡ area_at second place s }
    {
        Log {
            second,
            place,
            version: AREA_VERSION,
            first: place + AREA_FRONT + image,
            end: place + AREA_FRAME + image,
        }
    }

    /// Whether the second slot selects its area.
    pub fn second(&self) -> bool
        ensures { result ≡ self.now.second }
    {
        self.second
    }

    /// The place of its area.
    pub fn place(&self) -> u64
        ensures { result ≡ self.now.place }
    {
        self.place
    }

    /// The version of its area, by which its records are read.
    pub fn version(&self) -> u16
        ensures { result ≡ self.now.version }
    {
        self.version
    }

    /// The place of its first gate.
    pub fn first(&self) -> u64
        ensures { result ≡ self.now.first }
    {
        self.first
    }

    /// The place behind its closed gate.
    pub fn end(&self) -> u64
        ensures { result ≡ self.now.log_end }
    {
        self.end
    }

    /// Whether a checkpoint comes before this change is recorded.
    pub fn is_due(&self, change: &Change) -> bool
        requires { self.now.first < 2 ^ 63 }
        ensures { result ≡ is_due self.now change.now }
    {
        let image = self
            .first
            .saturating_sub(self.place)
            .saturating_sub(AREA_FRONT);
        let records = self.end.saturating_sub(self.first).saturating_sub(1);
        let record = sum_within(u64::MAX, 5, change_length_within(change, u64::MAX));
        let after = sum_within(u64::MAX, records, record);
        0 < records && image + 65536 < after || self.version < AREA_VERSION
    }

    /// The log after a checkpoint of a state whose image is so long: a new area in the other slot, before the live one
    /// where it fits there, and else behind it.
    pub fn checkpointed(&self, image: u64) -> Log
        requires ends { self.now.log_end < 2 ^ 63 }
        requires short { image < length_limit }
        ensures { (s : Store) → image ≡ image_length s → result ≡ checkpointed self.now s }
    {
        let place = if FIRST_AREA + AREA_FRAME + image <= self.place {
            FIRST_AREA
        } else {
            self.end
        };
        Log::at(!self.second, place, image)
    }

    /// The log behind the record of a change; none where it would end beyond its limit, or the change is too long for
    /// the field that tells its length.
    pub fn after(&self, change: &Change) -> Option<Log>
        ensures { result
            ≡ (if nat_le (log_after self.now change.now).log_end log_limit && nat_lt (change_length change.now) length_limit then Some (log_after self.now change.now) else None) }
    {
        let length = change_length_within(change, LENGTH_LIMIT);
        if LENGTH_LIMIT <= length || LOG_LIMIT < self.end {
            return None;
        }
        let end = self.end + 5 + length;
        if LOG_LIMIT < end {
            return None;
        }
        Some(Log { end, ..*self })
    }
}

/// The length of a change as the body of a record in bytes, or the limit if it is longer.
fn change_length_within(change: &Change, limit: u64) -> u64
    ensures { result ≡ min limit (change_length change.now) }
{
    let head = sum_within(limit, 22, mark_within(limit, change.mark().is_some()));
    let joined = timed_within(limit, change.joined());
    let purged = vector_within(limit, change.purged());
    let removed = product_within(limit, 40, change.removed().len() as u64);
    let writes = writes_within(limit, change.writes());
    let vectors = sum_within(limit, sum_within(limit, head, joined), purged);
    sum_within(limit, sum_within(limit, vectors, removed), writes)
}

/// The length of a mark, if there is one.
fn mark_within(limit: u64, is_there: bool) -> u64
    ensures { result ≡ min limit (if is_there then 56 else 0) }
{
    if is_there { limit.min(56) } else { 0 }
}

/// The length of a vector.
fn vector_within(limit: u64, vector: &Vector) -> u64
    ensures { result ≡ min limit (vector_length vector.now) }
{
    sum_within(limit, 4, product_within(limit, 24, vector.len() as u64))
}

/// The length of a vector with its times.
fn timed_within(limit: u64, vector: &Vector) -> u64
    ensures { result ≡ min limit (timed_length vector.now) }
{
    sum_within(limit, 4, product_within(limit, 32, vector.len() as u64))
}

/// The length of writes, each with its local update sequence number.
fn writes_within(limit: u64, writes: &[Written]) -> u64
    ensures { result ≡ min limit (fold (λ n (w : Wrote). n + 8 + item_length w.item) 0 writes.now) }
{
    let mut sum = 0;
    for written in writes {
        sum = sum_within(limit, sum, 8);
        sum = sum_within(limit, sum, item_length_within(written.item(), limit));
    }
    sum
}

/// The length of an item in bytes, or the limit if the item is longer.
pub fn item_length_within(item: &Item, limit: u64) -> u64
    ensures { result ≡ min limit (item_length item.now) }
{
    match item.unit() {
        Unit::Object(_) => sum_within(limit, 43, rows_within(limit, item.rows())),
        Unit::Link(_) => limit.min(128),
    }
}

/// The sum, or the limit if the sum is greater.
fn sum_within(limit: u64, one: u64, other: u64) -> u64
    ensures { result ≡ min limit (one + other) }
{
    one.saturating_add(other).min(limit)
}

/// The product, or the limit if the product is greater.
fn product_within(limit: u64, one: u64, other: u64) -> u64
    ensures { result ≡ min limit (one * other) }
{
    one.saturating_mul(other).min(limit)
}

/// The length of rows of an object.
fn rows_within(limit: u64, rows: &[Update]) -> u64
    ensures { result ≡ min limit (fold (λ n (u : Row). n + 38 + content_length u.said) 0 rows.now) }
{
    let mut sum = 0;
    for row in rows {
        sum = sum_within(limit, sum, 38);
        sum = sum_within(limit, sum, said_within(limit, row.said()));
    }
    sum
}

/// The length of what a row says.
fn said_within(limit: u64, said: &Said) -> u64
    ensures { result ≡ min limit (content_length (said_of said.now)) }
{
    match said {
        Said::Holds(content) => content_within(limit, content),
        Said::IsPresent(_) => limit.min(1),
    }
}

fn content_within(limit: u64, content: &Content) -> u64
    ensures { result ≡ min limit (content_length (said_of (Said.Holds content.now))) }
{
    match content {
        Content::Class(_) => limit.min(2),
        Content::Name { text, .. } => sum_within(limit, 18, text.items().len() as u64),
        Content::Dead => 0,
        Content::Values(values) => sum_within(limit, 1, values_within(limit, values.items())),
    }
}

/// The length of values of an attribute.
fn values_within(limit: u64, values: &[Value]) -> u64
    ensures { result ≡ min limit (fold (λ n v. n + value_length v) 0 values.now) }
{
    let mut sum = 0;
    for value in values {
        sum = sum_within(limit, sum, value_length(value));
    }
    sum
}

/// The length of a value: its kind, the length of text or octets in two bytes, and what it holds.
fn value_length(value: &Value) -> u64
    ensures { result ≡ value_length value.now }
{
    match value {
        Value::Text(text) => 3 + text.items().len() as u64,
        Value::Number(_) => 9,
        Value::Flag(_) => 2,
        Value::Octets(octets) => 3 + octets.items().len() as u64,
        Value::Ref(_) => 17,
    }
}
