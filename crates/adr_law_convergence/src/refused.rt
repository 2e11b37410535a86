//! Refusals that don't come.

ghost use Rattle.adr_model.specs.Convergence.{NeverTooOld, NoDamage, StaysCovered};

/// In a sound world no answer to a line is that a controller was put back, or that an item is broken or
/// incomplete.
pub fn no_damage_is_found()
    ensures { NoDamage }
{}

/// In a sound world where what was collected anywhere is covered by everyone who may still ask, no
/// answer to a line is that someone is too old.
pub fn no_one_is_too_old()
    ensures { NeverTooOld }
{}

/// What was collected stays covered by everyone in each clean world on the way of a line, where a
/// collection that is done removes only what all cover and new, empty controllers come only while
/// nothing was collected.
pub fn coverage_stays()
    ensures { StaysCovered }
{}
