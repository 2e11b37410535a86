//! The rows of an image, as those of a controller.

ghost use Rattle.std.specs.Prelude.{◌≡◌, IfOk};
ghost use Rattle.adr_model.specs.Formed.{IsFormedStore};

use adr_image::Contents;
use adr_state::Rows;
use adr_values::NoMemory;
use std::alloc::Global;

/// The rows of what an image says, with the live objects that they make. None is copied, and the rest is let go.
pub fn rows_of(alloc: Global, contents: Contents) -> Result<Rows, NoMemory>
    requires { IsFormedStore contents }
    ensures { IfOk result (λ rows. rows ≡ contents.rows) }
{
    let (mut change, _marks) = contents.into_change(alloc)?;
    let held = change.take_held(alloc)?;
    let mut rows = Rows::new(alloc);
    rows.write(alloc, held, &[])?;
    Ok(rows)
}
