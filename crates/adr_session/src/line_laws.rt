//! What one line says, whatever stood before it: it is typed, and its write may be made of a controller over a log.

ghost use Rattle.adr_session.specs.Said.{LinesAreTyped, LinesSayGivenCalls};

/// What a line says is typed, and a write that a line says has the form of a call, at each moment of 64 bits: the
/// attributes rise, texts are UTF-8, identifiers have sixteen bytes, and number values have 64 bits.
#[tactic(none)]
pub fn lines_say_given_calls()
    ensures typed { LinesAreTyped }
    ensures given { LinesSayGivenCalls }
{}
