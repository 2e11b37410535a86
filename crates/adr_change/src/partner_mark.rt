//! What is kept of a partner.

ghost use Rattle.std.specs.Prelude.{◌≡◌};
ghost use Rattle.adr_model.specs.Store.{mark_of, no_mark};

use adr_update::is_same;
use adr_values::{Guid, Mark};
use std::marker::Model;

/// How far an incarnation of a partner's database was read (MS-DRSR, USN_VECTOR).
#[derive(Clone, Copy)]
pub struct PartnerMark {
    inv: Guid,
    mark: Mark,
}

impl Model for PartnerMark {
    ghost use Rattle.adr_model.specs.Store.{PartnerMark as Defined};

    ghost Value = { Defined };

    ghost view = { λ k. record { inv = k.inv; mark = k.mark } };

    ghost inverse = { λ k. record { inv = k.inv; mark = k.mark } };
}

impl PartnerMark {
    pub fn new(inv: Guid, mark: Mark) -> PartnerMark
        ensures { result ≡ record { inv = inv; mark = mark } }
    {
        PartnerMark { inv, mark }
    }

    /// The invocation identifier that was read.
    pub fn inv(&self) -> Guid
        ensures { result ≡ self.now.inv }
    {
        self.inv
    }

    pub fn mark(&self) -> Mark
        ensures { result ≡ self.now.mark }
    {
        self.mark
    }

    /// The mark, as far as it is of this incarnation.
    pub fn mark_of(&self, inv: Guid) -> Mark
        ensures { result ≡ mark_of self.now inv }
    {
        if is_same(self.inv, inv) {
            self.mark
        } else {
            no_mark()
        }
    }
}

/// The mark of a partner of whom nothing was read.
pub fn no_mark() -> Mark
    ensures { result ≡ no_mark }
{
    Mark {
        obj: 0,
        prop: 0,
        seen: 0,
    }
}
