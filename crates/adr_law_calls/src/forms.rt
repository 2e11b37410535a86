//! Objects and links that stay as a schema wants them, and closed.

ghost use Rattle.std.specs.Prelude.{◌≡◌, ◌⊎◌, ℕ, List, true};
ghost use Rattle.adr_values.specs.declared.stamp.Oid.{Oid};
ghost use Rattle.adr_values.specs.declared.stamp.LinkKey.{LinkKey};
ghost use Rattle.adr_values.specs.declared.stamp.Unit.TheVariants.{Object, Link};
ghost use Rattle.adr_values.specs.Table.{kind_at, is_forward};
ghost use Rattle.adr_values.specs.Numbered.{numbered};
ghost use Rattle.adr_model.specs.Member.{Each};
ghost use Rattle.adr_model.specs.Update.{Update, LinkOf, ends};
ghost use Rattle.adr_model.specs.Reflects.{Numbers, CoversBirth, HoldsObject, IsTombstoned};
ghost use Rattle.adr_model.specs.Store.{Held, updates_of};
ghost use Rattle.adr_model.specs.Formed.{AreRising, AreFormedRows};
ghost use Rattle.adr_model.specs.Sound.{AreClassesKnown};
ghost use Rattle.adr_law_calls.specs.Puts.{MayPut, ArePut, AreClosed};
ghost use Rattle.adr_law_calls.specs.Forms.{MayChange, MayCome};

/// Rows of an object that may change or may come are put: everything stays as the schema wants it,
/// classes stay known, and no link loses an end.
#[tactic(none)]
pub fn forms_stay()
    ensures formed { (schema usn : ℕ) (before after : List Held) (V : Numbers) (o : Oid) (class : ℕ) (us : List Update)
        → AreRising before → AreRising after → AreFormedRows (numbered schema) (updates_of before)
        → MayPut (updates_of before) V (Object o) us → ArePut usn us before after
        → MayChange (numbered schema) (updates_of before) o class us ⊎ MayCome (numbered schema) (updates_of before) o class us → AreFormedRows (numbered schema) (updates_of after) }
    ensures classes { (schema usn : ℕ) (before after : List Held) (V : Numbers) (o : Oid) (class : ℕ) (us : List Update)
        → AreClassesKnown (numbered schema) (updates_of before)
        → MayPut (updates_of before) V (Object o) us → ArePut usn us before after
        → MayChange (numbered schema) (updates_of before) o class us ⊎ MayCome (numbered schema) (updates_of before) o class us → AreClassesKnown (numbered schema) (updates_of after) }
    ensures closed { (usn : ℕ) (before after : List Held) (V : Numbers) (o : Oid) (us : List Update)
        → AreClosed V (updates_of before)
        → MayPut (updates_of before) V (Object o) us → ArePut usn us before after → AreClosed V (updates_of after) }
{}

/// Link rows of one forward link without a dead end are put, and everything stays as the schema wants
/// it. Links stay closed where each end is held or wasn't born where the vector covers.
#[tactic(none)]
pub fn links_stay_formed()
    ensures formed { (schema usn : ℕ) (before after : List Held) (V : Numbers) (l : LinkKey) (us : List Update)
        → AreFormedRows (numbered schema) (updates_of before)
        → MayPut (updates_of before) V (Link l) us → ArePut usn us before after
        → is_forward (kind_at (numbered schema) l.attr) ≡ true → Each (λ o. IsTombstoned (updates_of before) o → ⊥) (ends (LinkOf l)) → AreFormedRows (numbered schema) (updates_of after) }
    ensures closed { (usn : ℕ) (before after : List Held) (V : Numbers) (l : LinkKey) (us : List Update)
        → AreClosed V (updates_of before)
        → MayPut (updates_of before) V (Link l) us → ArePut usn us before after
        → Each (λ o. HoldsObject (updates_of before) o ⊎ (CoversBirth V o → ⊥)) (ends (LinkOf l)) → AreClosed V (updates_of after) }
{}
