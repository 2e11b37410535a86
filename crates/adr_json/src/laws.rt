//! The laws of the text, and its worked examples.

ghost use Rattle.std.specs.Prelude.{◌≡◌, [], codes};
ghost use Rattle.adr_json.specs.Laws.{AllowedValuesAreOfKind, EqualJsonMeansEqualDirectories, JsonReadsBack};
ghost use Rattle.adr_json.specs.Text.{json_text};
ghost use Rattle.adr_json.specs.Worked.{one_container, one_container_text, two_objects, two_objects_text};

/// The text is JSON (RFC 8259), and reads back as the objects of the entries.
pub fn json_reads_back()
    ensures { JsonReadsBack }
{}

/// The text tells the directory: what reads it as JSON loses nothing.
pub fn equal_json_means_equal_directories()
    ensures { EqualJsonMeansEqualDirectories }
{}

/// What a schema allows of an attribute is of the attribute's syntax.
pub fn allowed_values_are_of_kind()
    ensures { AllowedValuesAreOfKind }
{}

/// Small directories, and their texts.
#[tactic(none)]
pub fn worked_directories()
    ensures none { json_text [] ≡ codes "[]" }
    ensures container { json_text one_container ≡ one_container_text }
    ensures objects { json_text two_objects ≡ two_objects_text }
{}
