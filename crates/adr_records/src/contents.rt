//! What a state says, as an image.

ghost use Rattle.std.specs.Prelude.{◌≡◌, IfOk, length};
ghost use Rattle.adr_update.specs.Referents.{referents};
ghost use Rattle.adr_model.specs.Lengths.{image_length};
ghost use Rattle.adr_image.specs.Stored.{image};
ghost use Rattle.adr_records.specs.Logged.{IsLogged};

use adr_image::{ContentsRef, encode};
use adr_state::{Held, PartnerMark, State};
use adr_values::{Guid, NoMemory};
use std::alloc::Global;

/// What a state's database says, by its rows and marks.
fn contents_of<'a>(
    state: &'a State,
    rows: &'a [&'a Held],
    marks: &'a [(Guid, PartnerMark)],
) -> ContentsRef<'a>
    requires rows { referents rows.now ≡ state.now.store.rows }
    requires marks { marks.now ≡ state.now.store.marks }
    ensures { result ≡ state.now.store }
{
    ContentsRef {
        schema: state.schema(),
        usn: state.usn(),
        rows,
        vector: state.vector(),
        times: state.times(),
        purged: state.purged(),
        marks,
    }
}

/// The image of a state of a log, as bytes.
pub fn image_of(alloc: Global, state: &State) -> Result<Vec<u8>, NoMemory>
    requires { IsLogged state.now }
    ensures written { IfOk result (λ bytes. bytes.items ≡ image state.now.store) }
    ensures long { IfOk result (λ bytes. length bytes.items ≡ image_length state.now.store) }
{
    let marks = state.marks().to_vec(alloc)?;
    let rows = state.rows().to_vec(alloc)?;
    let contents = contents_of(state, rows.as_slice(), marks.as_slice());
    encode(alloc, &contents)
}
