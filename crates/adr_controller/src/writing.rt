//! Clients' writes.

ghost use Rattle.std.specs.Prelude.{◌≡◌, Some, Ok, Err, IfOk, IsErrOf};
ghost use Rattle.adr_call.specs.declared.refusal.WriteRefusal.{WriteRefusal};
ghost use Rattle.adr_model.specs.Store.{State as Defined};
ghost use Rattle.adr_model.specs.Change.{Change as Changes};
ghost use Rattle.adr_model.specs.Write.{write, write_meant};
ghost use Rattle.adr_controller.specs.Able.{AllFollow, written_in};
ghost use Rattle.adr_controller.specs.Ended.{call_hindrance};
ghost use Rattle.adr_controller.specs.Did.{Calls};

use crate::controller::Controller;
use crate::refusal::CallRefusal;
use adr_call::{Failure, Write, WriteRefusal};
use adr_journal::Keeper;
use adr_origin::{LinkEnds, NewObject, add, delete, link, modify, rename, unlink};
use adr_state::{Change, State};
use std::alloc::Global;

/// What a client's write makes of a state at a time in seconds, or why it is refused.
fn change_of(
    alloc: Global,
    state: &State,
    what: &Write,
    now: u64,
) -> Result<Change, Failure<WriteRefusal>>
    ensures ok { IfOk result (λ change. write state.now (write_meant what.now) now ≡ Ok change) }
    ensures refused { (refusal : WriteRefusal) → IsErrOf result (Failure.Refused refusal) → write state.now (write_meant what.now) now ≡ Err refusal }
{
    match what {
        Write::Add {
            guid,
            class,
            parent,
            text,
            values,
        } => {
            let object = NewObject {
                guid: *guid,
                class: *class,
                parent: *parent,
                text,
                values,
            };
            add(alloc, state, &object, now)
        }
        Write::Modify { guid, values } => modify(alloc, state, *guid, values, now),
        Write::Rename { guid, parent, text } => rename(alloc, state, *guid, *parent, text, now),
        Write::Delete { guid } => delete(alloc, state, *guid, now),
        Write::Link { from, attr, to } => {
            let ends = LinkEnds {
                from: *from,
                attr: *attr,
                to: *to,
            };
            link(alloc, state, &ends, now)
        }
        Write::Unlink { from, attr, to } => {
            let ends = LinkEnds {
                from: *from,
                attr: *attr,
                to: *to,
            };
            unlink(alloc, state, &ends, now)
        }
    }
}

impl<K: Keeper> Controller<K> {
    /// A client's write at a time in seconds; it answers the USN of what was written.
    pub fn write(
        &mut self,
        alloc: Global,
        what: &Write,
        now: u64,
    ) -> Result<u64, CallRefusal<WriteRefusal>>
        requires follows { AllFollow K.Keeper (written_in what.now now) }
        ensures written { IfOk result (λ usn. (s : Defined) → self.old.state ≡ Some s
            → (c : Changes) × (write s (write_meant what.now) now ≡ Ok c) × (usn ≡ c.usn)) }
        ensures refused { (s : Defined) (refusal : WriteRefusal) → self.old.state ≡ Some s
            → IsErrOf result (CallRefusal.Refused refusal) → write s (write_meant what.now) now ≡ Err refusal }
        ensures calls { Calls K.Keeper (written_in what.now now) self.old self.new (call_hindrance result) }
    {
        let state = self.running()?;
        let change = change_of(alloc, state, what, now)?;
        let usn = change.usn();
        self.conclude(change, Ok(usn))
    }
}
