//! What stands after rows of one unit were put.

ghost use Rattle.std.specs.Prelude.{◌≡◌, ◌≤◌, ◌<◌, ℕ, List, fold};
ghost use Rattle.adr_values.specs.declared.stamp.Oid.{Oid};
ghost use Rattle.adr_values.specs.declared.stamp.Unit.{Unit as Named};
ghost use Rattle.adr_model.specs.Member.{Each};
ghost use Rattle.adr_model.specs.Update.{Update};
ghost use Rattle.adr_model.specs.Reflects.{Numbers, AtMost, HoldsObject};
ghost use Rattle.adr_model.specs.Store.{Held, updates_of};
ghost use Rattle.adr_model.specs.Change.{put, rows_after};
ghost use Rattle.adr_model.specs.Formed.{AreRising, AreAlone};
ghost use Rattle.adr_law_knowledge.specs.Grows.{Grows};
ghost use Rattle.adr_law_calls.specs.Puts.{under, MayPut, ArePut};

/// Rows of one unit that may be put stand behind it, and nothing that was taken is lost. No object
/// is lost either.
#[tactic(none)]
pub fn rows_of_a_unit_are_put()
    ensures put { (usn : ℕ) (before : List Held) (V : Numbers) (unit : Named) (us : List Update)
        → MayPut (updates_of before) V unit us → ArePut usn us before (fold put before (under usn us)) }
    ensures grows { (issued : List Update) (usn : ℕ) (before after : List Held) (V P : Numbers) (unit : Named) (us : List Update)
        → MayPut (updates_of before) V unit us → ArePut usn us before after → AtMost P V
        → Grows issued (record { rows = updates_of before; vector = V; purged = P }) (record { rows = updates_of after; vector = V; purged = P }) }
    ensures objects { (usn : ℕ) (before after : List Held) (us : List Update) (o : Oid)
        → ArePut usn us before after → HoldsObject (updates_of before) o → HoldsObject (updates_of after) o }
{}

/// Rows stay in order of their keys, of each key one, whatever a change writes and removes. No two
/// units share their last local USN where the rows are put under a new one.
#[tactic(none)]
pub fn order_stays()
    ensures one { (rows : List Held) → AreRising rows
        → Each (λ x. Each (λ y. x.update.key ≡ y.update.key → x ≡ y) rows) rows }
    ensures rising { (removed : List Oid) (writes rows : List Held) → AreRising rows
        → AreRising (rows_after removed writes rows) }
    ensures alone { (last usn : ℕ) (before after : List Held) (V : Numbers) (unit : Named) (us : List Update)
        → AreAlone before → Each (λ x. x.local ≤ last) before → last < usn
        → MayPut (updates_of before) V unit us → ArePut usn us before after → AreAlone after }
{}
