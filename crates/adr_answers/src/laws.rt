//! The laws of the lines.

ghost use Rattle.adr_answers.specs.Laws.{EqualLinesMeanEqualDirectories, EqualEntryLinesMeanEqualDirectories, LinesAreToldFromWhatFollows, EqualLinesMeanEqualVectors, EqualLinesMeanEqualMarks, KnownClassesArePrintable, AllowedValuesArePrintable, LinksArePrintable};

/// What a `show` writes tells the directory.
pub fn equal_lines_mean_equal_directories()
    ensures alone { EqualLinesMeanEqualDirectories }
    ensures below { EqualEntryLinesMeanEqualDirectories }
    ensures followed { LinesAreToldFromWhatFollows }
{}

/// What a `vector` writes tells the cursors and their moments, and what a `marks` writes the marks.
pub fn equal_lines_mean_equal_knowledge()
    ensures vectors { EqualLinesMeanEqualVectors }
    ensures marks { EqualLinesMeanEqualMarks }
{}

/// What a schema knows and allows is told by its lines.
pub fn what_is_allowed_is_printable()
    ensures classes { KnownClassesArePrintable }
    ensures values { AllowedValuesArePrintable }
    ensures links { LinksArePrintable }
{}
