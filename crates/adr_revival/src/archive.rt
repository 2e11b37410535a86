//! What is revived from: the rows of an image.

ghost use Rattle.std.specs.Prelude.{◌≡◌, IfOk};
ghost use Rattle.std.specs.Option.{option_map};
ghost use Rattle.adr_model.specs.Formed.{IsFormedStore};
ghost use Rattle.adr_model.specs.Store.{Store};
ghost use Rattle.adr_model.specs.Write.{shown_in};
ghost use Rattle.adr_view.specs.Seen.{seen_of};
ghost use Rattle.adr_revival.specs.Archived.{IsArchive, stored};

use crate::NoMemory;
use adr_checks::Schema;
use adr_state::Rows;
use adr_values::Guid;
use adr_view::{Shown, formed_rows_have_back_links, shown_at};
use std::alloc::Global;
use std::marker::Model;

/// The rows of an image, and the number of its schema. They are those of a store that is formed.
#[derive(Drop)]
pub struct Archive {
    schema: u32,
    rows: Rows,
}

impl Model for Archive {
    ghost use Rattle.std.specs.Prelude.{◌≡◌};
    ghost use Rattle.adr_model.specs.Formed.{IsFormedStore};
    ghost use Rattle.adr_model.specs.Store.{Store};
    ghost use Rattle.adr_revival.specs.Archived.{Archived, IsArchive};

    ghost Value = { Archived };

    ghost view = { λ a. record { schema = a.schema; rows = a.rows } };

    ghost invariant = { λ a. (image : Store) × IsArchive image (record { schema = a.schema; rows = a.rows }) × IsFormedStore image };
}

impl Archive {
    /// What an image with this schema has, by its rows.
    pub fn of(schema: Schema, rows: Rows) -> Archive
        requires { (image : Store) × IsArchive image (record { schema = schema.number; rows = rows }) × IsFormedStore image }
        ensures { result ≡ record { schema = schema.number; rows = rows } }
    {
        Archive {
            schema: schema.number(),
            rows,
        }
    }

    /// The number of the image's schema.
    pub(crate) fn schema(&self) -> u32
        ensures { result ≡ self.now.schema }
    {
        self.schema
    }

    /// It is of an image that is formed.
    pub(crate) fn is_of_image(&self)
        ensures { (image : Store) × IsArchive image self.now × IsFormedStore image }
    {
        let _ = &self.schema;
    }

    fn rows(&self) -> &Rows
        ensures { result.now ≡ self.now.rows }
    {
        &self.rows
    }

    /// What the image shows of a GUID.
    pub(crate) fn shown_at(&self, alloc: Global, guid: Guid) -> Result<Option<Shown>, NoMemory>
        ensures { IfOk result (λ shown. shown ≡ option_map seen_of (shown_in (stored self.now) guid)) }
    {
        self.is_of_image();
        formed_rows_have_back_links();
        shown_at(alloc, self.rows(), guid)
    }
}
