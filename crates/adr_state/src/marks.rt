//! How far each partner has been read.

ghost use Rattle.std.specs.Prelude.{◌≡◌, [], fold, length, Some, IfOk, IfSome, IfNone, IsSome, OnOk, is_some, unwrap_or};
ghost use Rattle.std.specs.BTreeMap.{IsOrdered, insert_entry, is_at};
ghost use Rattle.std.specs.Map.{lookup};
ghost use Rattle.adr_values.specs.Order.{identifier_order};
ghost use Rattle.adr_model.specs.Update.{Identifier};
ghost use Rattle.adr_model.specs.Store.{PartnerMark as Defined, kept_of, mark_of};
ghost use Rattle.adr_model.specs.Change.{with_mark};
ghost use Rattle.adr_state.specs.Known.{IsOfKnown};
ghost use Rattle.adr_state.specs.Marks.{of_marks};

use crate::NoMemory;
use adr_change::{PartnerMark, no_mark};
use adr_values::{Guid, Mark};
use std::alloc::Global;
use std::collections::BTreeMap;
use std::marker::Model;

/// What is kept of each partner, by its controller's identifier.
#[derive(Drop)]
pub struct Marks {
    map: BTreeMap<Guid, PartnerMark>,
}

impl Model for Marks {
    ghost use Rattle.std.specs.Prelude.{List};
    ghost use Rattle.adr_model.specs.Update.{Identifier};
    ghost use Rattle.adr_model.specs.Store.{PartnerMark as Defined};

    ghost Value = { List (Identifier × Defined) };

    ghost view = { λ m. m.map.entries };

    ghost use Rattle.adr_values.specs.Order.{identifier_order};
    ghost use Rattle.std.specs.BTreeMap.{IsOrdered};

    ghost invariant = { λ m. IsOrdered identifier_order m.map };
}

impl Marks {
    /// Nothing of any partner.
    pub fn new(alloc: Global) -> Marks
        ensures { result ≡ [] }
    {
        Marks {
            map: BTreeMap::new(alloc),
        }
    }

    /// What is kept of each partner; a later one takes the place of an earlier one of the same partner.
    pub fn of(alloc: Global, list: &[(Guid, PartnerMark)]) -> Result<Marks, NoMemory>
        ensures { IfOk result (λ marks.
            marks ≡ fold (λ ms (m : Identifier × Defined). with_mark (Some m) ms) [] list.now) }
    {
        let mut map = BTreeMap::new(alloc);
        for (partner, kept) in list {
            put(&mut map, *partner, *kept)?;
        }
        Ok(Marks { map })
    }

    /// What is kept of a partner; of one of whom nothing was read, the mark at nothing of no incarnation.
    pub fn kept(&self, partner: Guid) -> PartnerMark
        ensures { result ≡ kept_of (of_marks self.now) partner }
    {
        match self.map.get(&partner) {
            Some(kept) => *kept,
            None => PartnerMark::new(Guid::from_u128(0), no_mark()),
        }
    }

    /// The mark of a partner, as far as it is of this incarnation.
    pub fn mark(&self, partner: Guid, inv: Guid) -> Mark
        ensures { result ≡ mark_of (kept_of (of_marks self.now) partner) inv }
    {
        self.kept(partner).mark_of(inv)
    }

    /// Whether anything is kept of a partner.
    fn has(&self, partner: Guid) -> bool
        ensures { result ≡ is_some (lookup (is_at (identifier_order partner)) self.now) }
    {
        self.map.contains_key(&partner)
    }

    /// These marks with what is kept of a new partner; nothing where no partner is given or it is known.
    pub(crate) fn with_new(
        &self,
        alloc: Global,
        mark: Option<(Guid, PartnerMark)>,
    ) -> Result<Option<Marks>, NoMemory>
        ensures new { IfOk result (λ marks. IfSome marks (λ with. with ≡ with_mark mark self.now)) }
        ensures known { IfOk result (λ marks. IfNone marks (IsOfKnown self.now mark)) }
    {
        let Some((partner, kept)) = mark else {
            return Ok(None);
        };
        if self.has(partner) {
            return Ok(None);
        }
        let mut marks = self.copy(alloc)?;
        put(&mut marks.map, partner, kept)?;
        Ok(Some(marks))
    }

    /// Other marks take the place of these, if there are any; else what is given of a known partner is kept.
    pub(crate) fn renew(&mut self, marks: Option<Marks>, mark: Option<(Guid, PartnerMark)>)
        requires { IfNone marks (IsOfKnown self.old mark) }
        ensures { self.new ≡ unwrap_or marks (with_mark mark self.old) }
    {
        match marks {
            Some(marks) => *self = marks,
            None => self.keep_known(mark),
        }
    }

    /// Keeps what is given of a known partner, in place of what was kept of it.
    fn keep_known(&mut self, mark: Option<(Guid, PartnerMark)>)
        requires { IsOfKnown self.old mark }
        ensures { self.new ≡ with_mark mark self.old }
    {
        if let Some((partner, kept)) = mark {
            overwrite(&mut self.map, partner, kept);
        }
    }

    /// How many partners there are of whom something is kept.
    pub fn len(&self) -> usize
        ensures { result ≡ length self.now }
    {
        self.map.len()
    }

    /// How many partners there are of whom something is kept, together with this one.
    pub fn len_with(&self, partner: Guid) -> usize
        ensures { (kept : Defined) → result ≡ length (with_mark (Some (partner, kept)) self.now) }
    {
        let len = self.map.len();
        if self.map.contains_key(&partner) {
            len
        } else {
            len + 1
        }
    }

    /// What is kept of each partner, by its controller's identifier, rising.
    pub fn to_vec(&self, alloc: Global) -> Result<Vec<(Guid, PartnerMark)>, NoMemory>
        ensures { IfOk result (λ list. list.items ≡ self.now) }
    {
        let mut list = Vec::new(alloc);
        for (partner, kept) in &self.map {
            list.push((*partner, *kept))?;
        }
        Ok(list)
    }

    /// Equal marks.
    pub fn copy(&self, alloc: Global) -> Result<Marks, NoMemory>
        ensures { IfOk result (λ copy. copy ≡ self.now) }
    {
        let mut map = BTreeMap::new(alloc);
        for (partner, kept) in &self.map {
            put(&mut map, *partner, *kept)?;
        }
        Ok(Marks { map })
    }
}

/// Puts what is kept of a partner into a table, over what is there.
fn put(
    map: &mut BTreeMap<Guid, PartnerMark>,
    partner: Guid,
    kept: PartnerMark,
) -> Result<(), NoMemory>
    ensures entries { OnOk result (map.new.entries ≡ insert_entry identifier_order map.old.entries partner kept) }
    ensures ordered { IsOrdered identifier_order map.new }
{
    map.insert(partner, kept)?;
    Ok(())
}

/// Puts what is kept of a partner in the place of what a table has of it.
fn overwrite(map: &mut BTreeMap<Guid, PartnerMark>, partner: Guid, kept: PartnerMark)
    requires { IsSome (lookup (is_at (identifier_order partner)) map.old.entries) }
    ensures entries { map.new.entries ≡ insert_entry identifier_order map.old.entries partner kept }
    ensures ordered { IsOrdered identifier_order map.new }
{
    match map.insert(partner, kept) {
        Ok(_) => {}
        Err(_) => unreachable!(),
    }
}
