//! The laws of the schedule.

ghost use Rattle.adr_run_exercise.specs.Laws.{GeneratedAreRead, SchedulesFollow};

use adr_run_print::events_are_read_again;

/// The lines of the schedule of every number may follow one another from the beginning on.
#[tactic(auto, using(crate::proofs::Followed::schedules_follow))]
pub fn schedules_follow()
    ensures { SchedulesFollow }
{}

/// What is printed of the schedule is read again, up to the limit of a text.
pub fn schedules_are_read()
    ensures { GeneratedAreRead }
{
    events_are_read_again();
}
