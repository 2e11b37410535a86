//! What is sent.

ghost use Rattle.adr_law_recorded.specs.Laws.{AskedIsRanged, ServedIsRanged};

/// What a controller asks is in range.
#[tactic(none)]
pub fn requests_are_in_range()
    ensures { AskedIsRanged }
{}

/// What a controller answers to a request in range is a reply in range, and of the form of one.
#[tactic(none)]
pub fn replies_are_in_range()
    ensures { ServedIsRanged }
{}
