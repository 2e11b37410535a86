//! What becomes of the live objects.

ghost use Rattle.std.specs.Prelude.{◌≡◌, ◌∷◌, ◌++◌, [], IfOk, OnOk, map};
ghost use Rattle.std.specs.BTreeMap.{IsOrdered};
ghost use Rattle.adr_values.specs.Order.{identifier_order};
ghost use Rattle.adr_model.specs.Change.{rows_after};
ghost use Rattle.adr_model.specs.Formed.{AreRising};
ghost use Rattle.adr_model.specs.Place.{node_at};
ghost use Rattle.adr_model.specs.Store.{updates_of};
ghost use Rattle.adr_model.specs.Update.{Identifier};
ghost use Rattle.adr_model.specs.Write.{nodes_held};
ghost use Rattle.adr_table.specs.Table.{IsKept, rows_in};
ghost use Rattle.adr_tree.specs.Edits.{AreOwn, edited};
ghost use Rattle.adr_state.specs.Drafts.{DoRise, edit_of};

use crate::NoMemory;
use crate::draft::Draft;
use crate::drafts::drafts_of;
use adr_table::Table;
use adr_tree::Edit;
use adr_update::Held;
use adr_values::{Guid, Oid};
use std::alloc::Global;
use std::collections::BTreeMap;

/// What becomes of the live objects where rows are written and then objects removed. A GUID of which neither a class,
/// nor a name, nor a death is written, and no object removed, has no edit.
pub fn edits_of(
    alloc: Global,
    table: &Table,
    rows: &[Held],
    removed: &[Oid],
) -> Result<Vec<Edit>, NoMemory>
    requires { IsKept table.now }
    ensures own { IfOk result (λ edits. AreOwn edits.items) }
    ensures nodes { IfOk result (λ edits. (guid : Identifier)
        → edited edits.items guid (node_at (nodes_held (updates_of (rows_in table.now))) guid)
        ≡ node_at (nodes_held (updates_of (rows_after removed.now rows.now (rows_in table.now)))) guid) }
{
    table.are_rising();
    let drafts = drafts_of(alloc, table, rows, removed)?;
    are_ordered(&drafts);
    let edits = edits_to(alloc, &drafts)?;
    Ok(edits)
}

/// Drafts are in order of GUID.
fn are_ordered(drafts: &BTreeMap<Guid, Draft<'_>>)
    ensures { IsOrdered identifier_order drafts.now }
{
    drafts.len();
}

/// The edits to which drafts come.
fn edits_to(alloc: Global, drafts: &BTreeMap<Guid, Draft<'_>>) -> Result<Vec<Edit>, NoMemory>
    requires { DoRise drafts.now.entries }
    ensures { IfOk result (λ edits. edits.items ≡ map edit_of drafts.now.entries) }
{
    let mut edits = Vec::with_capacity(alloc, drafts.len())?;
    for (guid, draft) in drafts {
        push_edit(alloc, &mut edits, *guid, draft)?;
    }
    Ok(edits)
}

/// Adds the edit to which a draft of a GUID comes.
fn push_edit(
    alloc: Global,
    edits: &mut Vec<Edit>,
    guid: Guid,
    draft: &Draft<'_>,
) -> Result<(), NoMemory>
    requires { AreRising draft.now }
    ensures { OnOk result (edits.new.items ≡ edits.old.items ++ edit_of (guid, draft.now) ∷ []) }
{
    let node = draft.node(alloc, guid)?;
    edits.push(Edit { guid, node })?;
    Ok(())
}
