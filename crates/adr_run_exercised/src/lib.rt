//! How the run of a generated schedule ends: its four controllers show the same directory.
//!
//! Stands on the definitions of `adr_model` and of `adr_run_exercise`, and on the laws of rounds and of what each line leaves
//! of a sound world (`adr_law_convergence`). It knows nothing of the code that runs a schedule. Its functions have no code
//! but the law that they cite.
#![tactic(auto)]

ghost use Rattle.adr_run_exercised.specs.Exercised.{ExercisesEndEqual, LastRoundsMakeEqual, UncutExercisesEndEqual, UnlimitedExercisesEndEqual};

use adr_run_exercise::schedules_follow;

/// The four directories are equal at the end where each cycle behind the deletions and behind the collections is whole.
/// Nothing is asked of what was answered before: lines may be refused there.
pub fn last_rounds_make_equal()
    ensures { LastRoundsMakeEqual }
{
    schedules_follow();
}

/// They are equal where no limit was met, of USNs, of a table or of the log, and no cycle was cut off, as one is that would
/// take more replies than it may. Nothing else comes in the way of these cycles, whatever was refused before.
pub fn uncut_exercises_end_equal()
    ensures { UncutExercisesEndEqual }
{
    schedules_follow();
}

/// Up to 60,000 the lines write less often than a cycle may take replies, and none of these cycles is cut off. There the
/// directories are equal where no limit was met.
pub fn unlimited_exercises_end_equal()
    ensures { UnlimitedExercisesEndEqual }
{
    schedules_follow();
}

/// And so they are where the summary counts no refusal.
pub fn exercises_end_equal()
    ensures { ExercisesEndEqual }
{
    schedules_follow();
}
