//! Where states begin.

ghost use Rattle.adr_law_calls.specs.Laws.{NewIsFormed, AdoptedIsFormed, AdoptedHasKnownClasses};

/// A new, empty controller is formed, and its classes are known.
#[tactic(none)]
pub fn new_controllers_are_formed()
    ensures { NewIsFormed }
{}

/// A controller that is made of a formed image under a fresh identifier is formed (*formed*), and classes
/// that are known in the image stay known (*classes*).
#[tactic(none)]
pub fn adopted_controllers_are_formed()
    ensures formed { AdoptedIsFormed }
    ensures classes { AdoptedHasKnownClasses }
{}
