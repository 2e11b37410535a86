//! The items of a reply, one after the other.

ghost use Rattle.std.specs.Prelude.{◌≡◌, ◌+◌, ◌<◌, ◌≤◌, ◌^◌, [], ◌++◌, IfOk, IfSome, OnOk, false, length};
ghost use Rattle.adr_model.specs.Store.{holds_object};
ghost use Rattle.adr_model.specs.Change.{held_of, rows_after};
ghost use Rattle.adr_model.specs.Take.{begin, take_item, take_items, writes_of};
ghost use Rattle.adr_model.specs.Write.{usn_limit};

use crate::NoMemory;
use crate::taken_item::item_refusal;
use crate::taken_rows::rows_taken;
use adr_call::TakeRefusal;
use adr_checks::Schema;
use adr_overlay::{Overlay, new_object, standing_of};
use adr_state::{Item, State, Update, Written};
use adr_values::{Oid, Vector};
use std::alloc::Global;
use std::marker::Model;

/// How far a reply has been taken: what is told, the update sequence number and the writes so far, the first refusal,
/// how many items there were, and the most objects and links on the way.
pub struct Taking<'a> {
    told: Overlay<'a>,
    usn: u64,
    writes: Vec<Written>,
    refusal: Option<TakeRefusal>,
    place: usize,
    objects: usize,
    links: usize,
}

impl Drop for Taking<'_> {
    fn drop(self) {
        let Taking {
            told: _told,
            usn: _,
            writes: _writes,
            refusal: _,
            place: _,
            objects: _,
            links: _,
        } = self;
    }
}

impl<'a> Model for Taking<'a> {
    ghost use Rattle.adr_model.specs.Take.{Taking as Defined};

    ghost Value = { Defined };

    ghost view = { λ t. record { rows = t.told; usn = t.usn; writes = t.writes.items; refusal = t.refusal; place = t.place; objects = t.objects; links = t.links } };
}

impl<'a> Taking<'a> {
    /// Before the first item.
    pub fn begin(alloc: Global, state: &'a State) -> Taking<'a>
        ensures { result ≡ begin state.now }
    {
        Taking {
            told: Overlay::new(alloc, state.rows().table()),
            usn: state.usn(),
            writes: Vec::new(alloc),
            refusal: None,
            place: 0,
            objects: 0,
            links: 0,
        }
    }

    /// Takes one item, which is judged against what the items before it left, with the vector of the start.
    pub fn take_item(
        &mut self,
        alloc: Global,
        schema: Schema,
        vector: &Vector,
        item: &Item,
    ) -> Result<(), NoMemory>
        requires usn { self.old.usn + 1 < 2 ^ 64 }
        requires place { self.old.place + 1 < 2 ^ 64 }
        ensures item { OnOk result (self.new ≡ take_item schema vector.now self.old item.now) }
        ensures usn { OnOk result (self.new.usn ≤ self.old.usn + 1) }
        ensures place { OnOk result (self.new.place ≡ self.old.place + 1) }
    {
        let unit = item.unit();
        let standing = standing_of(vector, &self.told, &unit);
        let refusal = item_refusal(schema, standing, self.place, item)?;
        let rows = rows_taken(alloc, &self.told, standing, item)?;
        self.write(alloc, item, rows, new_object(&unit, standing))?;
        self.refusal = self.refusal.or(refusal);
        self.place += 1;
        self.objects = self.objects.max(self.told.objects());
        self.links = self.links.max(self.told.links());
        Ok(())
    }

    /// Writes rows of an item's unit under the next update sequence number, where there are any. An object may be known
    /// of which nothing is held yet.
    fn write(
        &mut self,
        alloc: Global,
        item: &Item,
        rows: Vec<Update>,
        unheld: Option<Oid>,
    ) -> Result<(), NoMemory>
        requires usn { self.old.usn + 1 < 2 ^ 64 }
        requires unheld { IfSome unheld (λ o. holds_object self.old.rows o ≡ false) }
        ensures { OnOk result (let writes = writes_of self.old.usn item.now rows.items in self.new
            ≡ record self.old {
              rows = rows_after [] (held_of writes) self.old.rows;
              usn = self.old.usn + length writes;
              writes = self.old.writes ++ writes;
            }) }
    {
        if rows.is_empty() {
            return Ok(());
        }
        let local = self.usn + 1;
        self.told.put_all(alloc, local, rows.as_slice(), unheld)?;
        self.writes
            .push(Written::new(local, Item::new(item.unit(), rows)))?;
        self.usn = local;
        Ok(())
    }

    pub fn usn(&self) -> u64
        ensures { result ≡ self.now.usn }
    {
        self.usn
    }

    pub fn refusal(&self) -> Option<TakeRefusal>
        ensures { result ≡ self.now.refusal }
    {
        self.refusal
    }

    pub fn objects(&self) -> usize
        ensures { result ≡ self.now.objects }
    {
        self.objects
    }

    pub fn links(&self) -> usize
        ensures { result ≡ self.now.links }
    {
        self.links
    }

    pub fn into_writes(self) -> Vec<Written>
        ensures { result.items ≡ self.entry.writes }
    {
        let Taking {
            told: _told,
            usn: _,
            writes,
            refusal: _,
            place: _,
            objects: _,
            links: _,
        } = self;
        writes
    }
}

/// Takes all items.
pub fn take_items<'a>(
    alloc: Global,
    state: &'a State,
    items: &[Item],
) -> Result<Taking<'a>, NoMemory>
    requires { state.now.store.usn ≤ usn_limit }
    ensures { IfOk result (λ taking. taking ≡ take_items state.now items.now) }
{
    let mut taking = Taking::begin(alloc, state);
    for item in items {
        taking.take_item(alloc, state.schema(), state.vector(), item)?;
    }
    Ok(taking)
}
