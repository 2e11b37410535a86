//! What can follow, told by what a change touches.

ghost use Rattle.adr_law_calls.specs.Laws.{TouchedIsEnough, TouchedIsAsked, WritesAreTold, WritesPass, ChangesAreTold, ChangesPass};

/// Of a formed state it is enough to look at the objects and links that a change writes (*enough*), and no
/// more is asked so than by looking at all that it leaves (*asked*).
#[tactic(none)]
pub fn touched_units_are_enough()
    ensures enough { TouchedIsEnough }
    ensures asked { TouchedIsAsked }
{}

/// The test of writes that are spelled tells whether they may follow one after the other (*told*); writes
/// that may, pass (*pass*).
#[tactic(none)]
pub fn writes_are_tested()
    ensures told { WritesAreTold }
    ensures pass { WritesPass }
{}

/// The test of a change that is spelled tells whether it can follow a formed state (*told*); a change that
/// can, passes (*pass*).
#[tactic(none)]
pub fn changes_are_tested()
    ensures told { ChangesAreTold }
    ensures pass { ChangesPass }
{}
