//! How long what is answered is.

ghost use Rattle.adr_law_frames.specs.Fits.{OfferedAreShort, ServedFits};

/// Each item that a state of a log can send, an object with its rows or a link, has fewer than 5,120 bytes in a message.
#[tactic(none)]
pub fn offered_items_are_short()
    ensures { OfferedAreShort }
{}

/// What a state of a log answers to a request of the form fits a frame, whose bytes are at most 8 MiB.
#[tactic(none)]
pub fn served_replies_fit()
    ensures { ServedFits }
{}
