//! The rows of the GUIDs that a change touches, as it leaves them.

ghost use Rattle.std.specs.Prelude.{◌≡◌, List, Some, IfOk, OnOk, fold};
ghost use Rattle.adr_model.specs.Change.{put, rows_after, without_object};
ghost use Rattle.adr_model.specs.Formed.{AreRising};
ghost use Rattle.adr_model.specs.Store.{Held as Row};
ghost use Rattle.adr_table.specs.Table.{IsKept, rows_in};
ghost use Rattle.adr_state.specs.Core.{core_object};
ghost use Rattle.adr_state.specs.Drafts.{AreDrafts};

use crate::NoMemory;
use crate::draft::{Draft, core_object};
use adr_table::Table;
use adr_update::Held;
use adr_values::{Guid, Oid};
use std::alloc::Global;
use std::collections::BTreeMap;

/// The drafts of rows that are written and objects that are removed.
pub fn drafts_of<'a>(
    alloc: Global,
    table: &'a Table,
    rows: &'a [Held],
    removed: &[Oid],
) -> Result<BTreeMap<Guid, Draft<'a>>, NoMemory>
    requires kept { IsKept table.now }
    requires rising { AreRising (rows_in table.now) }
    ensures { IfOk result (λ drafts.
        AreDrafts (rows_in table.now) (rows_after removed.now rows.now (rows_in table.now)) drafts) }
{
    let mut drafts = BTreeMap::new(alloc);
    write_rows(alloc, table, &mut drafts, rows)?;
    remove_all(alloc, table, &mut drafts, removed)?;
    Ok(drafts)
}

/// Writes rows into drafts, one after the other.
fn write_rows<'a>(
    alloc: Global,
    table: &'a Table,
    drafts: &mut BTreeMap<Guid, Draft<'a>>,
    rows: &'a [Held],
) -> Result<(), NoMemory>
    requires kept { IsKept table.now }
    requires rising { AreRising (rows_in table.now) }
    requires drafts { AreDrafts (rows_in table.now) (rows_in table.now) drafts.old }
    ensures { OnOk result (AreDrafts (rows_in table.now) (fold put (rows_in table.now) rows.now) drafts.new) }
{
    for row in rows {
        write_row(alloc, table, drafts, row)?;
    }
    Ok(())
}

/// Removes objects from drafts.
fn remove_all<'a>(
    alloc: Global,
    table: &'a Table,
    drafts: &mut BTreeMap<Guid, Draft<'a>>,
    objects: &[Oid],
) -> Result<(), NoMemory>
    requires { IsKept table.now }
    ensures { OnOk result ((seen : List Row) → AreDrafts (rows_in table.now) seen drafts.old
        → AreDrafts (rows_in table.now) (fold without_object seen objects.now) drafts.new) }
{
    for object in objects {
        remove_object(alloc, table, drafts, object)?;
    }
    Ok(())
}

/// Removes an object from the draft of its GUID, which begins with what the table has.
fn remove_object<'a>(
    alloc: Global,
    table: &'a Table,
    drafts: &mut BTreeMap<Guid, Draft<'a>>,
    object: &Oid,
) -> Result<(), NoMemory>
    requires { IsKept table.now }
    ensures { OnOk result ((seen : List Row) → AreDrafts (rows_in table.now) seen drafts.old
        → AreDrafts (rows_in table.now) (without_object seen object.now) drafts.new) }
{
    match drafts.get_mut(&object.guid) {
        Some(draft) => draft.remove(object),
        None => {
            let mut draft = Draft::of(alloc, table, object.guid)?;
            draft.remove(object);
            drafts.insert(object.guid, draft)?;
        }
    }
    Ok(())
}

/// Writes a row into the draft of its GUID, if it says anything of live objects.
fn write_row<'a>(
    alloc: Global,
    table: &'a Table,
    drafts: &mut BTreeMap<Guid, Draft<'a>>,
    row: &'a Held,
) -> Result<(), NoMemory>
    requires { IsKept table.now }
    ensures { OnOk result ((seen : List Row) → AreRising seen → AreDrafts (rows_in table.now) seen drafts.old
        → AreDrafts (rows_in table.now) (put seen row.now) drafts.new) }
{
    match core_object(&row.key()) {
        None => Ok(()),
        Some(object) => write_core(alloc, table, drafts, &object, row),
    }
}

/// Writes a row of an object into the draft of its GUID, which begins with what the table has.
fn write_core<'a>(
    alloc: Global,
    table: &'a Table,
    drafts: &mut BTreeMap<Guid, Draft<'a>>,
    object: &Oid,
    row: &'a Held,
) -> Result<(), NoMemory>
    requires kept { IsKept table.now }
    requires core { core_object row.now.update.key ≡ Some object.now }
    ensures { OnOk result ((seen : List Row) → AreRising seen → AreDrafts (rows_in table.now) seen drafts.old
        → AreDrafts (rows_in table.now) (put seen row.now) drafts.new) }
{
    match drafts.get_mut(&object.guid) {
        Some(draft) => draft.write(row),
        None => {
            let mut draft = Draft::of(alloc, table, object.guid)?;
            draft.write(row)?;
            drafts.insert(object.guid, draft)?;
            Ok(())
        }
    }
}
