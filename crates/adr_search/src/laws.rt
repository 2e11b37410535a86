//! What the definition of a scope is good for.

ghost use Rattle.std.specs.Prelude.{◌≡◌, ◌↔◌, ◌≤◌, ℕ, List, length, suc, true};
ghost use Rattle.adr_call.specs.declared.directory.Entry.{Entry};
ghost use Rattle.adr_filter.specs.declared.filter.Scope.{Scope};
ghost use Rattle.adr_search.specs.Below.{IsInScope};
ghost use Rattle.adr_search.specs.Scopes.{climbs, is_in_scope};

/// An entry is in scope exactly where the parents that are shown say so, however far up the base lies.
#[tactic(none)]
pub fn scopes_go_by_parents()
    ensures { (es : List Entry) (base : List ℕ) (scope : Scope) (e : Entry) → (is_in_scope es base scope e ≡ true) ↔ IsInScope es base scope e }
{}

/// More steps up than there are entries, and one from LostAndFound, meet nothing further.
#[tactic(none)]
pub fn further_steps_meet_nothing()
    ensures { (es : List Entry) (base : List ℕ) (n : ℕ) (guid : List ℕ) → suc (length es) ≤ n → climbs es base n guid ≡ climbs es base (suc (length es)) guid }
{}
