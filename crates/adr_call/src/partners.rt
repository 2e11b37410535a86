//! How far partners were read.

ghost use Rattle.std.specs.Prelude.{◌≡◌};

use adr_values::{Guid, Mark};
use std::marker::Model;

/// For each partner, by its controller's identifier, the invocation identifier of its database that was read, and how
/// far. In an answer the partners rise.
#[derive(Drop)]
pub struct PartnerMarks {
    list: Vec<(Guid, Guid, Mark)>,
}

impl Model for PartnerMarks {
    ghost use Rattle.std.specs.Prelude.{List, ℕ};
    ghost use Rattle.adr_values.specs.declared.mark.Mark.{Mark};

    ghost Value = { List (List ℕ × List ℕ × Mark) };

    ghost view = { λ m. m.list.items };
}

impl PartnerMarks {
    pub fn of(items: Vec<(Guid, Guid, Mark)>) -> PartnerMarks
        ensures { result ≡ items.items }
    {
        PartnerMarks { list: items }
    }

    pub fn items(&self) -> &[(Guid, Guid, Mark)]
        ensures { result.now ≡ self.now }
    {
        self.list.as_slice()
    }
}
