//! What a controller asks a partner.

ghost use Rattle.std.specs.Prelude.{◌≡◌, IfOk};
ghost use Rattle.adr_model.specs.Serve.{ask};

use crate::{NoMemory, Request};
use adr_state::State;
use adr_values::Guid;
use std::alloc::Global;

/// What the controller asks a partner: the changes behind the mark that it has of the partner, at most `max` items in
/// one reply, in a version of the protocol (MS-DRSR, DRS_MSG_GETCHGREQ).
pub fn ask(
    alloc: Global,
    state: &State,
    partner: Guid,
    max: u32,
    version: u16,
) -> Result<Request, NoMemory>
    ensures { IfOk result (λ request. request ≡ ask state.now partner max version) }
{
    let kept = state.marks().kept(partner);
    Ok(Request::new(
        version,
        state.dsa(),
        partner,
        kept.inv(),
        kept.mark(),
        state.schema().number(),
        max,
        state.vector().copy(alloc)?,
    ))
}
