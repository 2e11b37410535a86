//! Where logs begin, and which states they lead to.

ghost use Rattle.adr_law_recorded.specs.Laws.{AdoptedIsLogged, LoggedFits, NewMayBegin, RecordedIsLogged};

/// A log may begin with a new, empty controller.
#[tactic(none)]
pub fn new_controllers_may_begin()
    ensures { NewMayBegin }
{}

/// A controller that is made of an image under a fresh identifier is up, and its state is one of a log.
#[tactic(none)]
pub fn adopted_states_are_logged()
    ensures { AdoptedIsLogged }
{}

/// A change that may be recorded leaves a state of a log.
#[tactic(none)]
pub fn recorded_changes_leave_logged_states()
    ensures { RecordedIsLogged }
{}

/// No vector of a state of a log has more cursors than a vector has.
#[tactic(none)]
pub fn logged_states_fit()
    ensures { LoggedFits }
{}
