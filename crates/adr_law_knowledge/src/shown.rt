//! What a store shows.

ghost use Rattle.std.specs.Prelude.{◌≡◌, ◌⊎◌, ◌↔◌, List, Some, None, false};
ghost use Rattle.adr_values.specs.declared.stamp.Oid.{Oid};
ghost use Rattle.adr_values.specs.Vector.{Cursors, at};
ghost use Rattle.adr_model.specs.Member.{Member, Each};
ghost use Rattle.adr_model.specs.Update.{Identifier, Key, Update, ends, is_older};
ghost use Rattle.adr_model.specs.Winner.{winner, winners};
ghost use Rattle.adr_model.specs.Live.{live, live_rows, standing};
ghost use Rattle.adr_model.specs.Visible.{visible};
ghost use Rattle.adr_model.specs.Directory.{directory};
ghost use Rattle.adr_model.specs.Reflects.{AtMost, Covers, Knowledge, Reflects, Supersedes, knowledge_of};
ghost use Rattle.adr_model.specs.Formed.{IsFormedStore};
ghost use Rattle.adr_model.specs.Store.{Store, updates_of};
ghost use Rattle.adr_law_knowledge.specs.Known.{CoverAlike, IsInView, IsSoundKnowledge};
ghost use Rattle.adr_model.specs.Sound.{HasOneContent};
ghost use Rattle.adr_law_knowledge.specs.Stands.{Stands};

/// The winner at a key is one of the updates of that key, and none of them is younger. An object
/// stands where a birth of it is there and no death.
pub fn winners_are_greatest()
    ensures some { (us : List Update) (key : Key) (u : Update) → winner us key ≡ Some u
        → Member u us × (u.key ≡ key) × Each (λ v. v.key ≡ key → is_older u v ≡ false) us }
    ensures none { (us : List Update) (key : Key) → (winner us key ≡ None) ↔ Each (λ v. v.key ≡ key → ⊥) us }
    ensures all { (us : List Update) (u : Update) → Member u (winners us) ↔ (winner us u.key ≡ Some u) }
    ensures stands { (us : List Update) (o : Oid) → Member o (standing us) ↔ Stands us o }
{}

/// What is held and what is in view have the same objects, and at each key whose ends stand the
/// same winner.
pub fn views_agree()
    ensures standing { (issued : List Update) (k : Knowledge) (view : List Update) → HasOneContent issued
        → AtMost k.purged k.vector → IsInView issued k view
        → standing k.rows ≡ standing view }
    ensures winner { (issued : List Update) (k : Knowledge) (view : List Update) → HasOneContent issued
        → AtMost k.purged k.vector → IsInView issued k view
        → (key : Key) → Each (λ o. Stands k.rows o) (ends key) → winner k.rows key ≡ winner view key }
    ensures live { (issued : List Update) (k : Knowledge) (view : List Update) → HasOneContent issued
        → AtMost k.purged k.vector → IsInView issued k view
        → live k.rows ≡ live view }
    ensures rows { (issued : List Update) (k : Knowledge) (view : List Update) → HasOneContent issued
        → AtMost k.purged k.vector → IsInView issued k view
        → live_rows k.rows ≡ live_rows view }
    ensures directory { (issued : List Update) (k : Knowledge) (view : List Update) → HasOneContent issued
        → AtMost k.purged k.vector → IsInView issued k view
        → directory k.rows ≡ directory view }
{}

/// What is visible was issued, and is covered or held. For a store of sound knowledge it lies between
/// what is held and what was issued. A well-formed store collects nothing beyond its vector.
pub fn visible_updates_are_in_view()
    ensures members { (issued : List Update) (vector : Cursors) (held : List Update) (u : Update)
        → Member u (visible issued vector held)
        ↔ (Member u issued × (Covers (at vector) u ⊎ ((h : Update) × Member h held × Supersedes h u × Supersedes u h))) }
    ensures formed { (issued : List Update) (s : Store) → IsFormedStore s
        → Each (λ u. Member u issued) (updates_of s.rows)
        → Each (λ u. Covers (at s.vector) u → Reflects issued (knowledge_of s) u) issued → IsSoundKnowledge issued (knowledge_of s) }
    ensures view { (issued : List Update) (s : Store) → IsSoundKnowledge issued (knowledge_of s)
        → IsInView issued (knowledge_of s) (visible issued s.vector (updates_of s.rows)) }
{}

/// The directory of what a store holds is that of the issued updates that it covers or holds.
pub fn what_is_held_shows_what_is_visible()
    ensures { (issued : List Update) (s : Store) → HasOneContent issued → IsSoundKnowledge issued (knowledge_of s)
        → directory (updates_of s.rows) ≡ directory (visible issued s.vector (updates_of s.rows)) }
{}

/// Stores that cover the same of what was issued, and hold nothing beyond, show the same. Those with
/// equal vectors cover the same.
pub fn equal_coverage_shows_equal_directories()
    ensures vectors { (issued : List Update) (s t : Store) → ((i : Identifier) → at s.vector i ≡ at t.vector i)
        → CoverAlike issued (at s.vector) (at t.vector) }
    ensures directories { (issued : List Update) (s t : Store) → HasOneContent issued
        → IsSoundKnowledge issued (knowledge_of s) → IsSoundKnowledge issued (knowledge_of t)
        → Each (λ u. Covers (at s.vector) u) (updates_of s.rows) → Each (λ u. Covers (at t.vector) u) (updates_of t.rows)
        → CoverAlike issued (at s.vector) (at t.vector) → directory (updates_of s.rows) ≡ directory (updates_of t.rows) }
{}
