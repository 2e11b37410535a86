//! What calls change.

ghost use Rattle.adr_law_recorded.specs.Laws.{CollectedIsRecorded, QuarantineIsRecorded, TakenIsRecorded, UpgradeIsRecorded, WrittenIsRecorded};

/// The change of a client's write can be recorded.
#[tactic(none)]
pub fn writes_are_recorded()
    ensures { WrittenIsRecorded }
{}

/// The change of a taken reply can be recorded. Whether the reply is true doesn't matter, as long as it is of the form of
/// one.
#[tactic(none)]
pub fn taken_replies_are_recorded()
    ensures { TakenIsRecorded }
{}

/// The change of a collection can be recorded.
#[tactic(none)]
pub fn collections_are_recorded()
    ensures { CollectedIsRecorded }
{}

/// A quarantine can be recorded.
#[tactic(none)]
pub fn quarantines_are_recorded()
    ensures { QuarantineIsRecorded }
{}

/// A change-over to schema 2 can be recorded.
#[tactic(none)]
pub fn upgrades_are_recorded()
    ensures { UpgradeIsRecorded }
{}
