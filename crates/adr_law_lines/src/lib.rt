//! What a line says is typed, and a call that it says is one that a client may send.
//!
//! It stands on the grammar of lines in `adr_schedule`, on what the types of events say in `adr_law_recorded`, and on what a
//! client may ask in `adr_model`. It knows no run. Its functions have no code: each contract is a law.
#![tactic(auto)]

ghost use Rattle.adr_call.specs.declared.call.Call.{Call};
ghost use Rattle.adr_call.specs.declared.event.Event.{Event};
ghost use Rattle.adr_law_recorded.specs.Typed.{IsTyped};
ghost use Rattle.adr_model.specs.Client.{IsWellAsked};
ghost use Rattle.adr_schedule.specs.Grammar.{HasCallLine, IsAllowed};

/// An event that some line says is typed: the identifiers that it gives and writes have sixteen bytes, written texts are
/// UTF-8, number values have 64 bits, and a request is of a version that is known.
#[tactic(auto, using(crate::proofs::Typing::event_typed))]
pub fn said_events_are_typed()
    ensures { (event : Event) → IsAllowed event → IsTyped event }
{}

/// A call that some line says is one that a client may send: it gives each attribute once, in rising order, and modifies
/// one or more.
#[tactic(auto, using(crate::proofs::Asking::well_asked))]
pub fn said_calls_are_well_asked()
    ensures { (call : Call) → HasCallLine call → IsWellAsked call }
{}
