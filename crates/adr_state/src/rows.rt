//! The rows that a controller holds, and its live objects.

ghost use Rattle.std.specs.Prelude.{◌≡◌, ◌+◌, [], IfOk, IsSome, OnOk, OnErr, Some, false, filter, is_some, length};
ghost use Rattle.std.specs.List.{find, list_any};
ghost use Rattle.std.specs.Option.{option_copied, option_map};
ghost use Rattle.adr_model.specs.Change.{killed_by, rows_after};
ghost use Rattle.adr_model.specs.Formed.{AreRising};
ghost use Rattle.adr_model.specs.Live.{objects_of};
ghost use Rattle.adr_model.specs.Place.{is_fixed, node_at, place, upward};
ghost use Rattle.adr_model.specs.Shown.{name_holder};
ghost use Rattle.adr_model.specs.Store.{is_row_of, row_held, updates_of};
ghost use Rattle.adr_model.specs.Update.{same_identifier};
ghost use Rattle.adr_model.specs.Write.{holds_guid, is_of_guid, is_taken, links_in, nodes_held};
ghost use Rattle.adr_update.specs.Key.{key_of};
ghost use Rattle.adr_update.specs.Referents.{referents};
ghost use Rattle.adr_update.specs.Sought.{IsNextLocal, is_link_from, is_link_to, rows_of_unit, units_at};
ghost use Rattle.adr_table.specs.Lasts.{AreLasts};
ghost use Rattle.adr_table.specs.Table.{IsKept, rows_in};
ghost use Rattle.adr_tree.specs.Parent.{IsParent};

use crate::NoMemory;
use crate::edits::edits_of;
use adr_table::{Table, Walk};
use adr_tree::Tree;
use adr_update::{Held, Key, Node};
use adr_values::{Guid, Oid, Text, Unit};
use std::alloc::Global;
use std::marker::Model;

/// The rows of a controller, each under its key, and the live objects that they make.
pub struct Rows {
    table: Table,
    tree: Tree,
}

impl Drop for Rows {
    fn drop(self) {
        let Rows {
            table: _table,
            tree: _tree,
        } = self;
    }
}

impl Model for Rows {
    ghost use Rattle.std.specs.Prelude.{List};
    ghost use Rattle.adr_model.specs.Store.{Held as Defined};
    ghost use Rattle.adr_table.specs.Table.{rows_in};
    ghost use Rattle.adr_state.specs.Rows.{AreTied};

    ghost Value = { List Defined };

    ghost view = { λ r. rows_in r.table };

    ghost invariant = { λ r. AreTied r.table r.tree };
}

impl Rows {
    /// No rows.
    pub fn new(alloc: Global) -> Rows
        ensures { result ≡ [] }
    {
        Rows {
            table: Table::new(alloc),
            tree: Tree::new(alloc),
        }
    }

    /// The row of a key.
    pub fn row(&self, key: Key) -> Option<&Held>
        ensures { option_copied result ≡ row_held self.now (key_of key) }
    {
        self.table.row(key)
    }

    /// Whether an object of a GUID is held, live or dead.
    pub fn holds_guid(&self, guid: Guid) -> bool
        ensures { result ≡ holds_guid (updates_of self.now) guid }
    {
        self.table.holds_guid(guid)
    }

    /// How many objects are held, live or dead.
    pub fn objects(&self) -> usize
        ensures { result ≡ length (objects_of (updates_of self.now)) }
    {
        self.table.objects()
    }

    /// How many link rows are held, present or not.
    pub fn links(&self) -> usize
        ensures { result ≡ links_in self.now }
    {
        self.table.links()
    }

    /// All rows, in order of their keys.
    pub fn to_vec(&self, alloc: Global) -> Result<Vec<&Held>, NoMemory>
        ensures { IfOk result (λ rows. referents rows.items ≡ self.now) }
    {
        self.table.to_vec(alloc)
    }

    /// The rows of an object, in order.
    pub fn rows_of(&self, alloc: Global, object: &Oid) -> Result<Vec<&Held>, NoMemory>
        ensures { IfOk result (λ rows.
            referents rows.items ≡ filter (λ h. is_row_of object.now h.update.key) self.now) }
    {
        self.table.rows_of(alloc, object)
    }

    /// The rows of the objects of a GUID, live or not, in order.
    pub fn rows_of_guid(&self, alloc: Global, guid: Guid) -> Result<Vec<&Held>, NoMemory>
        ensures { IfOk result (λ rows.
            referents rows.items ≡ filter (λ h. is_of_guid guid h.update.key) self.now) }
    {
        self.table.rows_of_guid(alloc, guid)
    }

    /// The link rows from an object, in order.
    pub fn links_from(&self, alloc: Global, object: &Oid) -> Result<Vec<&Held>, NoMemory>
        ensures { IfOk result (λ rows.
            referents rows.items ≡ filter (λ h. is_link_from object.now h.update.key) self.now) }
    {
        self.table.links_from(alloc, object)
    }

    /// The link rows to an object, in order.
    pub fn links_to(&self, alloc: Global, object: &Oid) -> Result<Vec<&Held>, NoMemory>
        ensures { IfOk result (λ rows.
            referents rows.items ≡ filter (λ h. is_link_to object.now h.update.key) self.now) }
    {
        self.table.links_to(alloc, object)
    }

    /// The death rows, in order. It takes time by them alone.
    pub fn deaths(&self, alloc: Global) -> Result<Vec<&Held>, NoMemory>
        ensures { IfOk result (λ rows.
            referents rows.items ≡ filter (λ h. is_some (killed_by h.update.key)) self.now) }
    {
        self.table.deaths(alloc)
    }

    /// The rows of a unit, in order.
    pub fn rows_of_unit(&self, alloc: Global, unit: &Unit) -> Result<Vec<&Held>, NoMemory>
        ensures { IfOk result (λ rows. referents rows.items ≡ rows_of_unit self.now unit.now) }
    {
        self.table.rows_of_unit(alloc, unit)
    }

    /// The next number behind this one that may be the last local update sequence number of a unit: none lies between.
    pub fn next_local(&self, usn: u64) -> Option<u64>
        ensures { IsNextLocal self.now usn result }
    {
        self.table.next_local(usn)
    }

    /// The units whose last local update sequence number is this, rising.
    pub fn units_at(&self, alloc: Global, usn: u64) -> Result<Vec<Unit>, NoMemory>
        ensures { IfOk result (λ units. units.items ≡ units_at self.now usn) }
    {
        self.table.units_at(alloc, usn)
    }

    /// The units whose last local update sequence numbers are behind this one, each with its number, rising by it.
    pub fn walk(&self, usn: u64) -> Walk<'_>
        ensures { AreLasts self.now (usn + 1) result }
    {
        self.table.walk(usn)
    }

    /// The rows alone.
    pub fn table(&self) -> &Table
        ensures rows { rows_in result.now ≡ self.now }
        ensures kept { IsKept result.now }
    {
        &self.table
    }

    /// The keys of rows rise.
    pub fn are_rising(&self)
        ensures { AreRising self.now }
    {
        self.table.are_rising();
    }
}

impl Rows {
    /// The live object of a GUID.
    pub fn node(&self, guid: Guid) -> Option<&Node>
        ensures { option_copied result ≡ node_at (nodes_held (updates_of self.now)) guid }
    {
        self.tree.get(guid)
    }

    /// The live objects, rising by GUID.
    pub fn nodes(&self, alloc: Global) -> Result<Vec<&Node>, NoMemory>
        ensures { IfOk result (λ live. referents live.items ≡ nodes_held (updates_of self.now)) }
    {
        self.tree.nodes(alloc)
    }

    /// The GUID under which a live object is shown (MS-ADTS, LostAndFound container).
    pub fn place(&self, node: &Node) -> Guid
        requires { node_at (nodes_held (updates_of self.now)) node.now.object.guid ≡ Some node.now }
        ensures { result ≡ place (nodes_held (updates_of self.now)) node.now }
    {
        self.tree.place(node)
    }

    /// Whether an object of a GUID is met going up from a place, which it may be itself.
    pub fn is_met_above(&self, place: Guid, guid: Guid) -> bool
        ensures { let nodes = nodes_held (updates_of self.now) in
            result ≡ list_any (λ m. same_identifier m.object.guid guid) (upward nodes (length nodes) place) }
    {
        self.tree.is_met_above(place, guid)
    }

    /// The least GUID of an object that is shown under a live one.
    pub fn first_child(&self, guid: Guid) -> Option<Guid>
        requires live { IsSome (node_at (nodes_held (updates_of self.now)) guid) }
        requires free { is_fixed guid ≡ false }
        ensures { let nodes = nodes_held (updates_of self.now) in
            result ≡ option_map (λ m. m.object.guid) (find (λ m. same_identifier (place nodes m) guid) nodes) }
    {
        self.tree.first_child(guid)
    }

    /// The GUID of the object that keeps a text in a place, in whatever case it is written.
    pub fn holder(&self, alloc: Global, parent: Guid, text: &Text) -> Result<Option<Guid>, NoMemory>
        requires { IsParent (nodes_held (updates_of self.now)) parent }
        ensures { IfOk result (λ holder.
            holder ≡ name_holder (nodes_held (updates_of self.now)) parent text.now) }
    {
        self.tree.holder(alloc, parent, text)
    }

    /// Whether a place has another object than that of a GUID, or LostAndFound, of a name that folds alike.
    pub fn is_taken(
        &self,
        alloc: Global,
        guid: Guid,
        parent: Guid,
        text: &Text,
    ) -> Result<bool, NoMemory>
        requires { IsParent (nodes_held (updates_of self.now)) parent }
        ensures { IfOk result (λ taken.
            taken ≡ is_taken (nodes_held (updates_of self.now)) guid parent text.now) }
    {
        self.tree.is_taken(alloc, guid, parent, text)
    }
}

impl Rows {
    /// Puts rows, one after the other, each in the place of the row of its key, and then removes objects. A death takes
    /// its object's other rows and its links.
    pub fn write(&mut self, alloc: Global, rows: Vec<Held>, removed: &[Oid]) -> Result<(), NoMemory>
        ensures ok { OnOk result (self.new ≡ rows_after removed.now rows.items self.old) }
        ensures err { OnErr result (self.new ≡ self.old) }
    {
        let edits = edits_of(alloc, &self.table, rows.as_slice(), removed)?;
        self.tree.reserve(edits.as_slice())?;
        let spare = self.table.reserve(alloc, rows.as_slice(), removed)?;
        self.table.write(rows, removed, spare);
        self.tree.apply(edits);
        self.table.are_rising();
        self.tree.are_in_order();
        Ok(())
    }
}
