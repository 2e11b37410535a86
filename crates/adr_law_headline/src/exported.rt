//! What is shown in every run of a text is told by its JSON, and so is the directory of every state of a log whose rows
//! are whole.
//!
//! Every state of a run is formed and every directory printable. What is asked of a directory beside that is defined in
//! `adr_json`. A formed store has only values of their attribute's syntax, and live rows rise, so the attributes of an
//! object do.

ghost use Rattle.adr_law_headline.specs.Exportable.{LogsAreExportable, RunsAreExportable, TextsAreExportable};

/// Every directory of a run is exportable where its lines are typed, say what the program does, and write what is whole.
/// That is so of what a controller holds and of what it answers, at every place and on the way of every line, and also
/// behind a `rollback`.
pub fn directories_are_exportable()
    ensures { RunsAreExportable }
{}

/// Every directory of the run of every text that is a schedule is exportable.
pub fn directories_of_texts_are_exportable()
    ensures { TextsAreExportable }
{}

/// The directory of every state of a log is exportable where the identifiers in its rows are of sixteen bytes. The state
/// of a log has sixteen numbers in each; that these are below 256 is what is asked.
pub fn directories_of_logs_are_exportable()
    ensures { LogsAreExportable }
{}
