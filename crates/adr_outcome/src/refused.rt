//! Refusals as they are answered. None wants memory.

ghost use Rattle.std.specs.Prelude.{◌≡◌, ◌∷◌, [], codes};
ghost use Rattle.adr_model.specs.Refused.{adopt_refused, attr_field, collect_refused, fault_name, field, full, id_field, number_field, quarantined, rolled_back, schema_name, schema_refused, schemas_differ, serve_refused, table_name, take_refused, upgrade_refused, write_refused};

use adr_call::{
    AdoptRefusal, CollectRefusal, Field, Fields, ItemFault, Label, Outcome, Plainly, ServeRefusal,
    Table, TakeRefusal, UpgradeRefusal, WriteRefusal,
};
use adr_values::{Guid, Mark, SchemaRefusal};

fn table_name(table: Table) -> &'static str
    ensures { result.now ≡ table_name table }
{
    match table {
        Table::Objects => "Objects",
        Table::Links => "Links",
        Table::Cursors => "Cursors",
        Table::Marks => "Marks",
        Table::Log => "Log",
    }
}

fn schema_name(refusal: SchemaRefusal) -> &'static str
    ensures { result.now ≡ schema_name refusal }
{
    match refusal {
        SchemaRefusal::UnknownClass => "UnknownClass",
        SchemaRefusal::UnknownAttribute { .. } => "UnknownAttribute",
        SchemaRefusal::NotAllowed { .. } => "NotAllowed",
        SchemaRefusal::MissingMust { .. } => "MissingMust",
        SchemaRefusal::BadValue { .. } => "BadValue",
        SchemaRefusal::IsLink { .. } => "IsLink",
        SchemaRefusal::NotLink { .. } => "NotLink",
        SchemaRefusal::BadName { .. } => "BadName",
    }
}

fn fault_name(fault: ItemFault) -> &'static str
    ensures { result.now ≡ fault_name fault }
{
    match fault {
        ItemFault::Schema(refusal) => schema_name(refusal),
        ItemFault::WrongBirth => "WrongBirth",
    }
}

/// A refusal with its fields.
fn refused(number: u8, label: &'static str, fields: Fields) -> Outcome
    ensures { result ≡ Outcome.Refused number label.now fields }
{
    Outcome::Refused {
        number,
        label: Label::of(label),
        fields,
    }
}

fn plain(number: u8, label: &'static str) -> Outcome
    ensures { result ≡ Outcome.Refused number label.now [] }
{
    refused(number, label, Fields::none())
}

fn id_field(name: &'static str, id: Guid) -> Field
    ensures { result ≡ id_field name.now id }
{
    Field::new(name, Plainly::Id(id))
}

fn number_field(name: &'static str, number: u64) -> Field
    ensures { result ≡ number_field name.now number }
{
    Field::new(name, Plainly::Number(number))
}

fn mark_field(name: &'static str, mark: Mark) -> Field
    ensures { result ≡ field name.now (Plainly.Mark mark) }
{
    Field::new(name, Plainly::Mark(mark))
}

fn word_field(name: &'static str, word: &'static str) -> Field
    ensures { result ≡ field name.now (Plainly.Word word.now) }
{
    Field::new(name, Plainly::Word(Label::of(word)))
}

fn attr_field(attr: u16) -> Field
    ensures { result ≡ attr_field attr }
{
    Field::new("attr", Plainly::Attr(attr))
}

fn of_attr(number: u8, label: &'static str, attr: u16) -> Outcome
    ensures { result ≡ Outcome.Refused number label.now (attr_field attr ∷ []) }
{
    refused(number, label, Fields::one(attr_field(attr)))
}

fn of_id(number: u8, label: &'static str, name: &'static str, id: Guid) -> Outcome
    ensures { result ≡ Outcome.Refused number label.now (id_field name.now id ∷ []) }
{
    refused(number, label, Fields::one(id_field(name, id)))
}

/// A refusal that names an incarnation and two of its numbers.
fn of_inv(number: u8, label: &'static str, inv: Guid, first: Field, second: Field) -> Outcome
    ensures { result ≡ Outcome.Refused number label.now (id_field (codes "inv") inv ∷ first ∷ second ∷ []) }
{
    refused(
        number,
        label,
        Fields::three(id_field("inv", inv), first, second),
    )
}

/// A table, or a log, has no room. It wants no memory, so that an answer can be made behind a change.
pub fn full(table: Table, limit: u64) -> Outcome
    ensures { result ≡ full table limit }
{
    let fields = Fields::two(
        word_field("table", table_name(table)),
        number_field("limit", limit),
    );
    refused(22, "Full", fields)
}

fn schema_refused(refusal: SchemaRefusal) -> Outcome
    ensures { result ≡ schema_refused refusal }
{
    match refusal {
        SchemaRefusal::UnknownClass => plain(1, "UnknownClass"),
        SchemaRefusal::UnknownAttribute { attr } => of_attr(2, "UnknownAttribute", attr),
        SchemaRefusal::NotAllowed { attr } => of_attr(3, "NotAllowed", attr),
        SchemaRefusal::MissingMust { attr } => of_attr(4, "MissingMust", attr),
        SchemaRefusal::BadValue { attr, place } => {
            let fields = Fields::two(attr_field(attr), number_field("place", u64::from(place)));
            refused(5, "BadValue", fields)
        },
        SchemaRefusal::IsLink { attr } => of_attr(6, "IsLink", attr),
        SchemaRefusal::NotLink { attr } => of_attr(7, "NotLink", attr),
        SchemaRefusal::BadName { place } => {
            let fields = Fields::one(number_field("place", u64::from(place)));
            refused(9, "BadName", fields)
        },
    }
}

/// A refused write as it is answered. It wants no memory, so that an answer can be made behind a change.
pub fn write_refused(refusal: WriteRefusal) -> Outcome
    ensures { result ≡ write_refused refusal }
{
    match refusal {
        WriteRefusal::Schema(refusal) => schema_refused(refusal),
        WriteRefusal::BadSuperior => plain(8, "BadSuperior"),
        WriteRefusal::NoObject { guid } => of_id(10, "NoObject", "guid", guid),
        WriteRefusal::Deleted { guid } => of_id(11, "Deleted", "guid", guid),
        WriteRefusal::NoParent { guid } => of_id(12, "NoParent", "guid", guid),
        WriteRefusal::NameTaken { holder } => of_id(13, "NameTaken", "holder", holder),
        WriteRefusal::WouldLoop => plain(14, "WouldLoop"),
        WriteRefusal::HasChildren { child } => of_id(15, "HasChildren", "child", child),
        WriteRefusal::Fixed { guid } => of_id(16, "Fixed", "guid", guid),
        WriteRefusal::GuidThere { guid } => of_id(17, "GuidThere", "guid", guid),
        WriteRefusal::LinkThere => plain(18, "LinkThere"),
        WriteRefusal::LinkNotThere => plain(19, "LinkNotThere"),
        WriteRefusal::VersionLimit { attr } => of_attr(20, "VersionLimit", attr),
        WriteRefusal::UsnLimit => plain(21, "UsnLimit"),
        WriteRefusal::Full { table, limit } => full(table, limit),
        WriteRefusal::Quarantined => quarantined(),
        WriteRefusal::SchemaMismatch { mine, theirs } => schemas_differ(mine, theirs),
        WriteRefusal::NotInImage { guid } => of_id(60, "NotInImage", "guid", guid),
        WriteRefusal::StillLive { guid } => of_id(61, "StillLive", "guid", guid),
        WriteRefusal::BirthThere { guid } => of_id(62, "BirthThere", "guid", guid),
    }
}

fn schemas_differ(mine: u32, theirs: u32) -> Outcome
    ensures { result ≡ schemas_differ mine theirs }
{
    let fields = Fields::two(
        number_field("mine", u64::from(mine)),
        number_field("theirs", u64::from(theirs)),
    );
    refused(31, "SchemaMismatch", fields)
}

fn rolled_back(inv: Guid, mine: u64, shown: u64) -> Outcome
    ensures { result ≡ rolled_back inv mine shown }
{
    let (mine, shown) = (number_field("mine", mine), number_field("shown", shown));
    of_inv(33, "RolledBack", inv, mine, shown)
}

/// A refused request as it is answered. It wants no memory, so that an answer can be made behind a change.
pub fn serve_refused(refusal: ServeRefusal) -> Outcome
    ensures { result ≡ serve_refused refusal }
{
    match refusal {
        ServeRefusal::Quarantined => quarantined(),
        ServeRefusal::WrongController { mine, asked } => {
            let fields = Fields::two(id_field("mine", mine), id_field("asked", asked));
            refused(30, "WrongController", fields)
        }
        ServeRefusal::BadMark { prop, obj, seen } => {
            let fields = Fields::three(
                number_field("prop", prop),
                number_field("obj", obj),
                number_field("seen", seen),
            );
            refused(34, "BadMark", fields)
        }
        ServeRefusal::RolledBack { inv, mine, shown } => rolled_back(inv, mine, shown),
        ServeRefusal::SchemaMismatch { mine, theirs } => schemas_differ(mine, theirs),
        ServeRefusal::TooOld { inv, purged, has } => {
            let (purged, has) = (number_field("purged", purged), number_field("has", has));
            of_inv(32, "TooOld", inv, purged, has)
        }
    }
}

/// A refused reply as it is answered. It wants no memory, so that an answer can be made behind a change.
pub fn take_refused(refusal: TakeRefusal) -> Outcome
    ensures { result ≡ take_refused refusal }
{
    match refusal {
        TakeRefusal::Quarantined => quarantined(),
        TakeRefusal::NotMine { dest } => of_id(40, "NotMine", "dest", dest),
        TakeRefusal::Stale { mark, from } => {
            let fields = Fields::two(mark_field("mark", mark), mark_field("from", from));
            refused(41, "Stale", fields)
        }
        TakeRefusal::VectorBehind { inv, has, needs } => {
            let (has, needs) = (number_field("has", has), number_field("needs", needs));
            of_inv(42, "VectorBehind", inv, has, needs)
        }
        TakeRefusal::SchemaMismatch { mine, theirs } => schemas_differ(mine, theirs),
        TakeRefusal::RolledBack { inv, mine, shown } => rolled_back(inv, mine, shown),
        TakeRefusal::BadItem { place, cause } => {
            let fields = Fields::two(
                number_field("place", u64::from(place)),
                word_field("cause", fault_name(cause)),
            );
            refused(44, "BadItem", fields)
        }
        TakeRefusal::Incomplete { object } => { of_id(43, "Incomplete", "object", object.guid) }
        TakeRefusal::UsnLimit => plain(21, "UsnLimit"),
        TakeRefusal::Full { table, limit } => full(table, limit),
    }
}

/// What a quarantined controller answers. It wants no memory, so that an answer can be made behind a change.
pub fn quarantined() -> Outcome
    ensures { result ≡ quarantined }
{
    plain(23, "Quarantined")
}

/// A refused collection as it is answered. It wants no memory, so that an answer can be made behind a change.
pub fn collect_refused(refusal: CollectRefusal) -> Outcome
    ensures { result ≡ collect_refused refusal }
{
    match refusal {
        CollectRefusal::Quarantined => quarantined(),
        CollectRefusal::UsnLimit => plain(21, "UsnLimit"),
    }
}

/// A refused change-over to schema 2 as it is answered. It wants no memory, so that an answer can be made behind a change.
pub fn upgrade_refused(refusal: UpgradeRefusal) -> Outcome
    ensures { result ≡ upgrade_refused refusal }
{
    match refusal {
        UpgradeRefusal::Quarantined => quarantined(),
        UpgradeRefusal::SchemaThere { number } => {
            let fields = Fields::one(number_field("number", u64::from(number)));
            refused(52, "SchemaThere", fields)
        }
    }
}

/// A refused image as it is answered. It wants no memory, so that an answer can be made behind a change.
pub fn adopt_refused(refusal: AdoptRefusal) -> Outcome
    ensures { result ≡ adopt_refused refusal }
{
    match refusal {
        AdoptRefusal::IdentifierUsed => plain(50, "IdentifierUsed"),
        AdoptRefusal::Full { table, limit } => full(table, limit),
    }
}
