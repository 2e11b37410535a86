//! What stands behind the version of an image.

ghost use Rattle.std.specs.Prelude.{◌≡◌, ◌≤◌, IfOk, IfSome, is_some};
ghost use Rattle.adr_values.specs.Numbered.{numbered};
ghost use Rattle.adr_model.specs.Write.{usn_limit};
ghost use Rattle.adr_values.specs.Vector.{at_most};
ghost use Rattle.adr_wire.specs.Composites.{vector_at};
ghost use Rattle.adr_wire.specs.Fields.{u32_at};
ghost use Rattle.adr_wire.specs.Reading.{Gives, TellsAs, then_at, where_at};
ghost use Rattle.adr_image.specs.Seen.{GivesSeen};
ghost use Rattle.adr_image.specs.Stored.{rows_of, store_of};
ghost use Rattle.adr_image.specs.Whole.{is_schema_of, links_at, objects_at, parts_at};

use crate::gathered::{read_links, read_objects};
use crate::marks::read_marks;
use adr_change::PartnerMark;
use adr_checks::Schema;
use adr_update::Held;
use adr_values::{Guid, Times, Vector};
use adr_wire::{Failure, Malformed, Reader, WireRefusal};
use std::alloc::Global;
use std::marker::Model;

/// A database, as it was read.
pub struct Contents {
    pub schema: Schema,
    /// The last update sequence number that was used.
    pub usn: u64,
    /// The rows, in order of their keys.
    pub rows: Vec<Held>,
    /// Up to where the writes of each incarnation have been seen.
    pub vector: Vector,
    /// When each incarnation was last read whole, where that is known.
    pub times: Times,
    /// What covers the births and deaths of the objects that were collected.
    pub purged: Vector,
    /// How far each partner was read, by its controller's identifier, rising.
    pub marks: Vec<(Guid, PartnerMark)>,
}

impl Drop for Contents {
    fn drop(self) {
        let Contents {
            schema: _,
            usn: _,
            rows: _rows,
            vector: _vector,
            times: _times,
            purged: _purged,
            marks: _marks,
        } = self;
    }
}

impl Model for Contents {
    ghost use Rattle.std.specs.Prelude.{◌≡◌, []};
    ghost use Rattle.adr_values.specs.Numbered.{numbered};
    ghost use Rattle.adr_model.specs.Store.{Store};

    ghost Value = { Store };

    ghost view = { λ c. record { schema = c.schema.number; usn = c.usn; rows = c.rows.items; vector = c.vector; times = c.times; purged = c.purged; marks = c.marks.items } };

    ghost invariant = { λ c. c.schema ≡ numbered c.schema.number };
}

impl Contents {
    /// Its rows, what was seen and when, what was collected, and its marks.
    pub(crate) fn into_parts(self) -> (Vec<Held>, Vector, Times, Vector, Vec<(Guid, PartnerMark)>)
        ensures rows { result.0.items ≡ self.rows }
        ensures vector { result.1 ≡ self.vector }
        ensures times { result.2 ≡ self.times }
        ensures purged { result.3 ≡ self.purged }
        ensures marks { result.4.items ≡ self.marks }
    {
        let Contents {
            schema: _,
            usn: _,
            rows,
            vector,
            times,
            purged,
            marks,
        } = self;
        (rows, vector, times, purged, marks)
    }
}

/// A database by reference, of which an image is written; none of its rows is copied.
#[derive(Drop)]
pub struct ContentsRef<'a> {
    pub schema: Schema,
    /// The last update sequence number that was used.
    pub usn: u64,
    /// The rows, in order of their keys.
    pub rows: &'a [&'a Held],
    /// Up to where the writes of each incarnation have been seen.
    pub vector: &'a Vector,
    /// When each incarnation was last read whole, where that is known.
    pub times: &'a Times,
    /// What covers the births and deaths of the objects that were collected.
    pub purged: &'a Vector,
    /// How far each partner was read, by its controller's identifier, rising.
    pub marks: &'a [(Guid, PartnerMark)],
}

impl<'a> Model for ContentsRef<'a> {
    ghost use Rattle.std.specs.Prelude.{◌≡◌, []};
    ghost use Rattle.adr_values.specs.Numbered.{numbered};
    ghost use Rattle.adr_model.specs.Store.{Store};
    ghost use Rattle.adr_update.specs.Referents.{referents};

    ghost Value = { Store };

    ghost view = { λ c. record { schema = c.schema.number; usn = c.usn; rows = referents c.rows.now; vector = c.vector.now; times = c.times.now; purged = c.purged.now; marks = c.marks.now } };

    ghost invariant = { λ c. c.schema ≡ numbered c.schema.number };
}

/// The schema of a number, if a version tells that number.
fn schema_of(version: u16, number: u32) -> Option<Schema>
    ensures told { is_some result ≡ is_schema_of version number }
    ensures number { IfSome result (λ schema. schema.number ≡ number) }
    ensures table { IfSome result (λ schema. schema ≡ numbered schema.number) }
{
    if version == 1 && number != 1 {
        return None;
    }
    Schema::new(number)
}

/// The schema that a version tells, by its number.
pub fn read_schema(reader: &mut Reader<'_>, version: u16) -> Result<Schema, WireRefusal>
    ensures number { TellsAs (λ schema. schema.number) result reader.new
        (where_at (is_schema_of version) u32_at reader.old) }
    ensures table { IfOk result (λ schema. schema ≡ numbered schema.number) }
{
    let place = reader.place();
    let number = reader.read_u32()?;
    match schema_of(version, number) {
        Some(schema) => Ok(schema),
        None => Err(Failure::Refused(Malformed { place })),
    }
}

/// The vector of what was collected, which is within the other.
fn read_purged(
    reader: &mut Reader<'_>,
    alloc: Global,
    vector: &Vector,
) -> Result<Vector, WireRefusal>
    ensures { Gives result reader.new (where_at (λ p. at_most p vector.now) vector_at reader.old) }
{
    let place = reader.place();
    let purged = reader.read_vector(alloc)?;
    if purged.first_gap(vector).is_some() {
        return Err(Failure::Refused(Malformed { place }));
    }
    Ok(purged)
}

/// The rows of all objects, and all links.
fn read_rows(
    reader: &mut Reader<'_>,
    alloc: Global,
    usn: u64,
    schema: &Schema,
) -> Result<Vec<Held>, WireRefusal>
    requires { usn ≤ usn_limit }
    ensures { GivesSeen (λ rows p. rows.items ≡ rows_of p) result reader.new
        (then_at (objects_at usn schema.now) (links_at usn schema.now) reader.old) }
{
    let objects = read_objects(reader, alloc, usn, schema)?;
    let links = read_links(reader, usn, schema, objects)?;
    Ok(links.rows)
}

/// What stands behind the version.
#[tactic(auto, unfolding(crate::specs::Whole::parts_at, crate::specs::Whole::tuple_at))]
pub fn read_contents(
    reader: &mut Reader<'_>,
    alloc: Global,
    version: u16,
) -> Result<Contents, WireRefusal>
    ensures { GivesSeen (λ contents p. contents ≡ store_of p) result reader.new (parts_at version reader.old) }
{
    let schema = read_schema(reader, version)?;
    let usn = reader.read_usn0()?;
    let (vector, times) = reader.read_timed(alloc, version)?;
    let purged = read_purged(reader, alloc, &vector)?;
    let marks = read_marks(reader, alloc)?;
    let rows = read_rows(reader, alloc, usn, &schema)?;
    Ok(Contents {
        schema,
        usn,
        rows,
        vector,
        times,
        purged,
        marks,
    })
}
