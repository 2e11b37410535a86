//! What controllers of a sound world show, and what of it is their own.

ghost use Rattle.adr_model.specs.Convergence.{AcknowledgedIsIssued, AcknowledgedStaysInView, EqualCoverageShowsEqual, IssuedStays, OwnIsVisible, RunsConverge, ShowsWhatIsVisible, TimesAreTrue};

/// In a sound world, what a controller holds shows what is visible to it: the directory of its rows is
/// that of the issued updates that it covers or holds. All that was issued under its present
/// identifier is among these.
pub fn controllers_show_what_is_visible()
    ensures shown { ShowsWhatIsVisible }
    ensures own { OwnIsVisible }
{}

/// A line that was answered by a USN was a client's write, and each row of its items was issued, under
/// the identifier of the controller that wrote it and the item's USN; there is a row (*issued*). What
/// was issued stays so, whatever comes (*stays*).
pub fn acknowledged_writes_are_issued()
    ensures issued { AcknowledgedIsIssued }
    ensures stays { IssuedStays }
{}

/// In a sound world, controllers that cover the same of what was issued, and hold nothing beyond, show
/// the same.
pub fn equal_coverage_shows_equal()
    ensures { EqualCoverageShowsEqual }
{}

/// After every run that ends in a clean world, as each does in which no database is put back, whatever
/// messages it loses, repeats or reorders, and whatever stops, faults and restores it has: each
/// controller shows what is visible to it, and controllers that cover the same, and hold nothing beyond,
/// show the same (*shown*).
/// What was acknowledged on the way is visible to its end to whoever has the identifier under which it
/// was issued (*acknowledged*).
pub fn every_run_converges()
    ensures shown { RunsConverge }
    ensures acknowledged { AcknowledgedStaysInView }
{}

/// In a sound world a controller that has a time of an incarnation has it of a last reply: one was made by
/// that incarnation then, and the controller covers all that the incarnation had.
pub fn times_were_told()
    ensures { TimesAreTrue }
{}
