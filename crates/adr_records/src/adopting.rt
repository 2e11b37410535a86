//! A controller adopts what an image says.

ghost use Rattle.std.specs.Prelude.{◌≡◌, Ok, Err, IfOk, IsErrOf};
ghost use Rattle.adr_call.specs.declared.refusal.AdoptRefusal.{AdoptRefusal};
ghost use Rattle.adr_model.specs.Collect.{adopt, adopt_refusal, woken};
ghost use Rattle.adr_model.specs.Formed.{IsFormedStore};
ghost use Rattle.adr_model.specs.Update.{Identifier};
ghost use Rattle.adr_image.specs.Stored.{IsSpelled};

use crate::waking::{unless_full, wake};
use adr_call::{AdoptRefusal, Table};
use adr_image::{Contents, names_inv};
use adr_state::{CURSOR_LIMIT, State};
use adr_values::{Failure, Guid};
use std::alloc::Global;

/// Why a database can't be adopted under an identifier, first in order.
fn adopt_refusal(contents: &Contents, inv: Guid) -> Option<AdoptRefusal>
    ensures { (dsa : Identifier) → result ≡ adopt_refusal contents.now inv (woken contents.now dsa inv) }
{
    if names_inv(contents, inv) {
        return Some(AdoptRefusal::IdentifierUsed);
    }
    if contents.vector.is_full_for(inv, contents.usn) {
        return Some(AdoptRefusal::Full {
            table: Table::Cursors,
            limit: CURSOR_LIMIT,
        });
    }
    None
}

/// A controller of a database, whose rows are moved, under an identifier that it doesn't name.
pub fn adopt(
    alloc: Global,
    contents: Contents,
    dsa: Guid,
    inv: Guid,
) -> Result<State, Failure<AdoptRefusal>>
    requires formed { IsFormedStore contents }
    requires spelled { IsSpelled contents }
    ensures ok { IfOk result (λ state. adopt contents dsa inv ≡ Ok state) }
    ensures refused { (refusal : AdoptRefusal) → IsErrOf result (Failure.Refused refusal)
        → adopt contents dsa inv ≡ Err refusal }
{
    match adopt_refusal(&contents, inv) {
        Some(refusal) => Err(Failure::Refused(refusal)),
        None => Ok(unless_full(wake(alloc, contents, dsa, inv))?),
    }
}
