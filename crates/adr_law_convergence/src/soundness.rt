//! Which worlds are sound.

ghost use Rattle.adr_law_convergence.specs.CutShort.{StartsCutShort};
ghost use Rattle.adr_model.specs.Convergence.{BeginsSound, RunsAreSound, RunsStayClean, StaysClean, StaysSound, StaysUnclean};

/// The world before the first line is that of a run.
pub fn the_empty_world_is_sound()
    ensures { BeginsSound }
{}

/// A line that may happen leads from the world of a run only to worlds of a run, also within a cycle of
/// pulls (*lines*). Always, also after a database was put back, names and identifiers are in order; states,
/// images and snapshots are formed and replies are spelled; a controller that is up is settled, and no log
/// is over its limit. While none was put back the world is sound. A world that isn't clean never becomes so
/// again (*unclean*), and only a line that puts a database back makes a clean one unclean (*clean*). So
/// every run is in a world of a run after each of its lines, whatever messages it loses, repeats or
/// reorders, and whatever stops, faults and restores it has (*runs*), and in a clean one as long as no line
/// puts a database back (*runs_clean*).
pub fn every_line_keeps_worlds_sound()
    ensures lines { StaysSound }
    ensures unclean { StaysUnclean }
    ensures clean { StaysClean }
    ensures runs { RunsAreSound }
    ensures runs_clean { RunsStayClean }
{}

/// A start that wants memory when its sync was made leaves the world of a run: the sync stands, and the
/// controller is as down or failed as before.
pub fn starts_cut_short_keep_worlds_sound()
    ensures { StartsCutShort }
{}
