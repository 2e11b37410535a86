//! Rows of one unit.

ghost use Rattle.std.specs.Prelude.{◌≡◌, ◌∷◌, ◌++◌, [], OnOk};
ghost use Rattle.adr_model.specs.Change.{held_of};

use crate::NoMemory;
use crate::held::Held;
use crate::update::Update;
use adr_values::Unit;
use std::marker::Model;

/// Rows of one object, or a link row.
pub struct Item {
    unit: Unit,
    rows: Vec<Update>,
}

impl Drop for Item {
    fn drop(self) {
        let Item {
            unit: _,
            rows: _rows,
        } = self;
    }
}

impl Model for Item {
    ghost use Rattle.adr_model.specs.Change.{Item as Defined};

    ghost Value = { Defined };

    ghost view = { λ i. record { unit = i.unit; rows = i.rows.items } };
}

impl Item {
    pub fn new(unit: Unit, rows: Vec<Update>) -> Item
        ensures { result ≡ record { unit = unit; rows = rows.items } }
    {
        Item { unit, rows }
    }

    pub fn unit(&self) -> Unit
        ensures { result ≡ self.now.unit }
    {
        self.unit
    }

    pub fn rows(&self) -> &[Update]
        ensures { result.now ≡ self.now.rows }
    {
        self.rows.as_slice()
    }

    pub fn into_rows(self) -> Vec<Update>
        ensures { result.items ≡ self.rows }
    {
        let Item { unit: _, rows } = self;
        rows
    }
}

/// Rows of one unit that are written under one local update sequence number.
pub struct Written {
    local: u64,
    item: Item,
}

impl Drop for Written {
    fn drop(self) {
        let Written {
            local: _,
            item: _item,
        } = self;
    }
}

impl Model for Written {
    ghost use Rattle.adr_model.specs.Change.{Written as Defined};

    ghost Value = { Defined };

    ghost view = { λ w. record { local = w.local; item = w.item } };
}

impl Written {
    pub fn new(local: u64, item: Item) -> Written
        ensures { result ≡ record { local = local; item = item } }
    {
        Written { local, item }
    }

    /// The update sequence number under which the rows are written here.
    pub fn local(&self) -> u64
        ensures { result ≡ self.now.local }
    {
        self.local
    }

    pub fn item(&self) -> &Item
        ensures { result.now ≡ self.now.item }
    {
        &self.item
    }

    /// Adds the rows to others, each under the local update sequence number.
    pub fn push_held(self, rows: &mut Vec<Held>) -> Result<(), NoMemory>
        ensures { OnOk result (rows.new.items ≡ rows.old.items ++ held_of (self ∷ [])) }
    {
        let Written { local, item } = self;
        for update in item.into_rows() {
            rows.push(Held::new(update, local))?;
        }
        Ok(())
    }
}
