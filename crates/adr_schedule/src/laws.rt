//! The laws of lines and of texts.

ghost use Rattle.adr_schedule.specs.Grammar.{SpelledLinesAreRead, LinesWereSpelled, LinesSpellOneEvent, SpelledEventsAreAllowed};
ghost use Rattle.adr_schedule.specs.Schedules.{SchedulesAreRead, ReadTextsAreSchedules, FaultyTextsAreRefused, RefusedTextsHaveTheFault};

/// A line is read as an event exactly where the grammar spells that event so.
pub fn lines_read_back()
    ensures again { SpelledLinesAreRead }
    ensures only { LinesWereSpelled }
    ensures one { LinesSpellOneEvent }
    ensures allowed { SpelledEventsAreAllowed }
{}

/// A text is read as events exactly where its lines say them, one after the other, and the program does each of them.
pub fn schedules_read_back()
    ensures again { SchedulesAreRead }
    ensures only { ReadTextsAreSchedules }
{}

/// A text is refused with a fault exactly where that is the first bad line and its first cause.
pub fn faults_read_back()
    ensures again { FaultyTextsAreRefused }
    ensures only { RefusedTextsHaveTheFault }
{}
