//! What formed rows mean for what is shown: a contract is a law, and its body is empty.

ghost use Rattle.std.specs.Prelude.{ℕ, List, IsTrue};
ghost use Rattle.adr_values.specs.Numbered.{numbered};
ghost use Rattle.adr_model.specs.Update.{Update};
ghost use Rattle.adr_model.specs.Formed.{AreFormedRows};
ghost use Rattle.adr_view.specs.BackLinks.{have_back_links};

/// Rows that keep to a schema have links only under attributes whose back links have numbers.
pub fn formed_rows_have_back_links()
    ensures { (schema : ℕ) (us : List Update) → AreFormedRows (numbered schema) us → IsTrue (have_back_links us) }
{}
