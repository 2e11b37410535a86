//! Rounds of whole cycles: controllers that do nothing else come to show the same directory, and then to have one vector.

ghost use Rattle.adr_law_convergence.specs.Rounds.{HearersHaveOneVector, HearersShowTheSame, NearRoundsConverge, RingsAreConnected, RingsTellTrue, RoundsConverge, RoundsReach, RoundsSettle, RunsComeTogether};

/// Behind whole cycles, in whatever order, by which word from each of some controllers has come to each, these show the
/// same directory: that of all that any of them had in view. Nothing is asked of devices, plans, limits or other
/// controllers: each cycle was answered ok.
pub fn hearers_show_the_same()
    ensures { HearersShowTheSame }
{}

/// Behind n - 1 rounds over the same connections among n controllers, in any order within a round, nobody has anything
/// left to write: whatever is pulled over these connections then leaves rows and USNs as they are.
pub fn rounds_settle()
    ensures { RoundsSettle }
{}

/// And as soon as word from each has come to each once more, all have one vector.
pub fn hearers_have_one_vector()
    ensures { HearersHaveOneVector }
{}

/// Word comes from each to each within as many rounds as the longest of the shortest ways has steps, and within n - 1
/// where there is some way from each to each.
pub fn rounds_reach()
    ensures { RoundsReach }
{}

/// So n controllers of a sound world that are connected in whatever way have equal directories behind n - 1 rounds of whole
/// cycles, and equal vectors behind 2(n - 1).
pub fn rounds_converge()
    ensures { RoundsConverge }
{}

/// Where word from each comes to each in at most so many steps, as many rounds do for directories, and n - 1 more for
/// vectors. Twice as many do not: a death that was held by one and covered by none may take a longer way, where others hold
/// a later one, and each that takes it writes.
pub fn near_rounds_converge()
    ensures { NearRoundsConverge }
{}

/// Controllers in a ring are connected.
pub fn rings_are_connected()
    ensures { RingsAreConnected }
{}

/// So a `ring` line of a sound world that is answered ok tells that the directories are equal where there were as many rounds
/// as others beside the first, and that the vectors are where there were twice as many.
pub fn rings_tell_true()
    ensures { RingsTellTrue }
{}

/// In every run, as long as no database was put back: whole cycles that come in rounds bring together whom they connect, and
/// a `ring` line that is answered ok tells so.
pub fn runs_come_together()
    ensures { RunsComeTogether }
{}
