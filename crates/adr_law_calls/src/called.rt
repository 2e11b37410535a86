//! What calls change, and what a call answers.

ghost use Rattle.adr_law_calls.specs.Laws.{TakenFollows, WrittenFollows, CollectedFollows, QuarantineFollows, UpgradeFollows, SaidsStay, ServedIsSpelled, ItemsMayBeTaken, TakenIsBare, WrittenIsBare, CollectedRises};

/// Of an item that isn't refused nothing is taken, or rows that may be put among formed rows, keep them
/// formed, and may follow.
#[tactic(none)]
pub fn items_may_be_taken()
    ensures { ItemsMayBeTaken }
{}

/// The change of a taken reply can follow its state and leaves a formed one (*follows*). Whether the reply
/// is true doesn't matter, as long as it is of the form of one. Beside a death only class, name and
/// deleted rows are written (*bare*).
#[tactic(none)]
pub fn taken_replies_follow()
    ensures follows { TakenFollows }
    ensures bare { TakenIsBare }
{}

/// The change of a client's write can follow its state and leaves a formed one (*follows*). Beside a death
/// only class, name and deleted rows are written (*bare*).
#[tactic(none)]
pub fn writes_follow()
    ensures follows { WrittenFollows }
    ensures bare { WrittenIsBare }
{}

/// The change of a collection can follow its state and leaves a formed one (*follows*). The removed objects
/// rise by their names (*rises*).
#[tactic(none)]
pub fn collections_follow()
    ensures follows { CollectedFollows }
    ensures rises { CollectedRises }
{}

/// A quarantine can follow a state that is up.
#[tactic(none)]
pub fn quarantines_follow()
    ensures { QuarantineFollows }
{}

/// A change-over to schema 2 can follow a state that is up, and leaves a formed one.
#[tactic(none)]
pub fn upgrades_follow()
    ensures { UpgradeFollows }
{}

/// Rows that say what rows of their keys say do so behind each change that can follow (*stay*), and a formed
/// state of such rows answers with a reply that is of the form of one (*spelled*).
#[tactic(none)]
pub fn served_replies_are_spelled()
    ensures stay { SaidsStay }
    ensures spelled { ServedIsSpelled }
{}
