//! What is answered where a vector would have too many cursors, which no clause tells from want of memory.

use crate::holding::{change, controller, id};
use adr_state::{Failure, Full, Mode, State};
use adr_values::{CURSOR_LIMIT, Vector};
use std::alloc::Global;
use std::process::Abort;

/// Has a controller see one write of each of so many others, and make a write of its own.
fn see(
    rt: &impl Abort,
    alloc: Global,
    state: &mut State,
    others: u64,
) -> Result<(), Failure<Full>> {
    let mut seen = Vector::new(alloc);
    for other in 0..others {
        seen.raise(id(u128::from(other)), 1)
            .ok()
            .expect(rt, "a cursor");
    }
    let change = change(
        alloc,
        1,
        Mode::Normal,
        state.schema(),
        seen,
        Vec::new(alloc),
    );
    state.apply(change)
}

/// What it is answered, and whether it is as new then.
fn answered(rt: &impl Abort, alloc: Global, others: u64) -> (Result<(), Failure<Full>>, bool) {
    let mut state = controller(alloc, 20_000);
    let answer = see(rt, alloc, &mut state, others);
    (answer, state.usn() == 0 && state.vector().is_empty())
}

#[test]
fn a_change_with_too_many_cursors_is_refused(rt: HostRuntime) {
    let alloc = rt.alloc();
    let taken = answered(&rt, alloc, CURSOR_LIMIT - 1);
    assert!(rt; matches!(taken, (Ok(()), false)));
    let refused = answered(&rt, alloc, CURSOR_LIMIT);
    assert!(rt; matches!(refused, (Err(Failure::Refused(Full)), true)));
}
