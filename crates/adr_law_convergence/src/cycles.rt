//! Cycles of pulls.

ghost use Rattle.adr_model.specs.Convergence.{CycleEnds};

/// Between two controllers of a sound world that are up, with one schema, no plan, nothing collected
/// that the one doesn't cover and no limit met, a cycle takes as many replies as one may and says that
/// there are more, or it ends with the last reply, within as many replies as the source has units beyond
/// the mark that is kept of it, and at least one. Then the destination has read the source whole and
/// has taken all that it holds, has gained only what it had not taken before, has lost nothing, and has
/// the join of both vectors and the purged vector that it had; it has written nothing if it had taken all
/// of it before. Nothing more was issued, and all other controllers are as they were.
pub fn cycles_end()
    ensures { CycleEnds }
{}
