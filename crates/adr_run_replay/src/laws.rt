//! What is claimed of every run.

ghost use Rattle.std.specs.Prelude.{ℕ, List};
ghost use Rattle.adr_answers.specs.Laws.{EqualEntryLinesMeanEqualDirectories, EqualLinesMeanEqualDirectories, LinesAreToldFromWhatFollows};
ghost use Rattle.adr_json.specs.Laws.{EqualJsonMeansEqualDirectories};
ghost use Rattle.adr_run_exercised.specs.Exercised.{ExercisesEndEqual};
ghost use Rattle.adr_law_headline.specs.Exportable.{TextsAreExportable};
ghost use Rattle.adr_law_headline.specs.Headline.{IsHeadline};
ghost use Rattle.adr_run_replay.specs.Outcome.{GeneratedRunsAreSo, TextsGiveOne};

use adr_answers::equal_lines_mean_equal_directories;
use adr_json::equal_json_means_equal_directories;
use adr_law_headline::directories_of_texts_are_exportable;
use adr_run_exercise::schedules_follow;
use adr_run_exercised::exercises_end_equal;

/// All that is claimed of the run of a text is claimed of that of a generated schedule.
fn generated_runs_are_so()
    ensures { GeneratedRunsAreSo }
{
    schedules_follow();
}

/// Each text gives one status and one output, and the theorem holds of the run of each that is a schedule, and of the runs
/// of those that are generated. Equal lines, and equal JSON, mean equal directories. The four directories at the end of a
/// generated run, of a number up to 60,000, are equal where nothing was refused.
pub fn runs_are_so()
    ensures texts { TextsGiveOne }
    ensures headline { (text : List ℕ) → IsHeadline text }
    ensures generated { GeneratedRunsAreSo }
    ensures directories { EqualLinesMeanEqualDirectories }
    ensures entries { EqualEntryLinesMeanEqualDirectories }
    ensures followed { LinesAreToldFromWhatFollows }
    ensures json { EqualJsonMeansEqualDirectories }
    ensures exportable { TextsAreExportable }
    ensures equal { ExercisesEndEqual }
{
    generated_runs_are_so();
    equal_lines_mean_equal_directories();
    equal_json_means_equal_directories();
    directories_of_texts_are_exportable();
    exercises_end_equal();
}
