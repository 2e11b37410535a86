//! Where names are taken, as the keys of sorted collections.

ghost use Rattle.std.specs.Prelude.{◌≡◌, refl};
ghost use Rattle.std.specs.Cmp.{partial_equiv_from_equiv};
ghost use Rattle.std.specs.Ordering.{as_partial_cmp};
ghost use Rattle.adr_view.specs.Slots.{same_slot, slot_order, slots_equivalent, slots_partly, slots_total};

use adr_values::{Guid, Text};
use std::cmp::Ordering;
use std::marker::Model;

/// A place, and a name in the form in which names are compared.
#[derive(Drop)]
pub struct Slot<'a> {
    place: Guid,
    name: &'a Text,
}

impl<'a> Model for Slot<'a> {
    ghost use Rattle.adr_view.specs.Slots.{Slot as Defined};

    ghost Value = { Defined };

    ghost view = { λ s. (s.place, s.name.now) };
}

impl<'a> Slot<'a> {
    pub fn new(place: Guid, name: &'a Text) -> Slot<'a>
        ensures { result ≡ (place, name.now) }
    {
        Slot { place, name }
    }
}

impl<'a> PartialEq for Slot<'a> {
    ghost eq = { same_slot };

    ghost laws = { partial_equiv_from_equiv slots_equivalent };

    fn eq(&self, other: &Slot<'a>) -> bool {
        self.cmp(other).is_eq()
    }
}

impl<'a> Eq for Slot<'a> {
    ghost laws = { slots_equivalent };
}

impl<'a> PartialOrd for Slot<'a> {
    ghost partial_cmp = { as_partial_cmp slot_order };

    ghost laws = { slots_partly };

    fn partial_cmp(&self, other: &Slot<'a>) -> Option<Ordering> {
        Some(self.cmp(other))
    }
}

impl<'a> Ord for Slot<'a> {
    ghost cmp = { slot_order };

    ghost total = { slots_total };

    ghost matches_partial_cmp = { λ x y. refl };

    ghost matches_eq = { λ x y. refl };

    fn cmp(&self, other: &Slot<'a>) -> Ordering {
        let by_place = self.place.cmp(&other.place);
        by_place.then(self.name.items().cmp(other.name.items()))
    }
}
