//! Up-to-dateness vectors as numbers.

ghost use Rattle.std.specs.Prelude.{◌≡◌, ◌≢◌, ◌↔◌, ℕ, max, true};
ghost use Rattle.adr_values.specs.Vector.{Cursors, IsVector, at, at_most, joined, raised};
ghost use Rattle.adr_model.specs.Update.{Identifier, Update};
ghost use Rattle.adr_model.specs.Reflects.{AtMost, Covers, Numbers};
ghost use Rattle.adr_model.specs.Visible.{covers_update};

/// A vector that is at most another one covers no more.
pub fn vectors_are_compared()
    ensures itself { (v : Numbers) → AtMost v v }
    ensures onward { (v w x : Numbers) → AtMost v w → AtMost w x → AtMost v x }
    ensures covers { (v w : Numbers) (u : Update) → AtMost v w → Covers v u → Covers w u }
    ensures at_most { (v w : Cursors) → IsVector v → (at_most v w ≡ true) ↔ AtMost (at v) (at w) }
    ensures tested { (v : Cursors) (u : Update) → (covers_update v u ≡ true) ↔ Covers (at v) u }
{}

/// What a vector is after it was raised or joined, by MS-DRSR's merge of UPTODATE_VECTOR.
pub fn vectors_grow()
    ensures raised_here { (v : Cursors) (i : Identifier) (usn : ℕ) → at (raised v i usn) i ≡ max (at v i) usn }
    ensures raised_elsewhere { (v : Cursors) (i j : Identifier) (usn : ℕ) → j ≢ i → at (raised v i usn) j ≡ at v j }
    ensures raised { (v : Cursors) (i : Identifier) (usn : ℕ) → AtMost (at v) (at (raised v i usn)) }
    ensures joined_at { (v w : Cursors) (i : Identifier) → IsVector w → at (joined v w) i ≡ max (at v i) (at w i) }
    ensures joined { (v w : Cursors) → IsVector w
        → AtMost (at v) (at (joined v w)) × AtMost (at w) (at (joined v w)) }
    ensures least { (v w : Cursors) (x : Numbers) → IsVector w → AtMost (at v) x → AtMost (at w) x
        → AtMost (at (joined v w)) x }
{}
