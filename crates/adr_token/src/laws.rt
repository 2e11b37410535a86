//! The laws of the tokens.

ghost use Rattle.adr_token.specs.Laws.{NamesAreReadAgain, NamesWereSpelled, NumbersAreReadAgain, NumbersWereSpelled, IdentifiersAreReadAgain, IdentifiersWereSpelled, TextsAreReadAgain, TextsWereSpelled};
ghost use Rattle.adr_token.specs.Classes.{attribute_at, class_at};
ghost use Rattle.adr_token.specs.Spelled.{SpellsAttribute, SpellsClass};
ghost use Rattle.adr_token.specs.Spelling.{attribute_token, class_token};
ghost use Rattle.adr_token.specs.SetLaws.{AreReadAgain, AreSpelled, SetsAreReadAgain, SetsAreSpelled, SetsWereSpelled, WereSpelled};

/// A name is spelled as it is.
pub fn names_read_back()
    ensures again { NamesAreReadAgain }
    ensures only { NamesWereSpelled }
{}

/// A number has one spelling.
pub fn numbers_read_back()
    ensures again { NumbersAreReadAgain }
    ensures only { NumbersWereSpelled }
{}

/// An identifier has its full spelling, and below 2^32 a short one too.
pub fn identifiers_read_back()
    ensures again { IdentifiersAreReadAgain }
    ensures only { IdentifiersWereSpelled }
{}

/// A text has one spelling.
pub fn texts_read_back()
    ensures again { TextsAreReadAgain }
    ensures only { TextsWereSpelled }
{}

/// A class is spelled by its number, and by its name too where it has one.
pub fn classes_read_back()
    ensures again { AreReadAgain SpellsClass class_at }
    ensures only { WereSpelled SpellsClass class_at }
    ensures token { AreSpelled SpellsClass class_token }
{}

/// An attribute is spelled by its number, and by its name too where it has one.
pub fn attributes_read_back()
    ensures again { AreReadAgain SpellsAttribute attribute_at }
    ensures only { WereSpelled SpellsAttribute attribute_at }
    ensures token { AreSpelled SpellsAttribute attribute_token }
{}

/// An attribute with its values is spelled by each of its spellings and those of its values.
pub fn sets_read_back()
    ensures again { SetsAreReadAgain }
    ensures only { SetsWereSpelled }
    ensures token { SetsAreSpelled }
{}
