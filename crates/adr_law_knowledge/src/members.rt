//! Lists by their members.

ghost use Rattle.std.specs.Prelude.{◌≡◌, ◌⊎◌, ◌↔◌, ◌++◌, filter, map, List, Bool, true, false};
ghost use Rattle.std.specs.List.{list_any, list_all};
ghost use Rattle.std.specs.Cmp.{IsTotalOrder};
ghost use Rattle.std.specs.declared.cmp.Ordering.{Ordering};
ghost use Rattle.std.proofs.lemmas.Map.Lookups.{CmpEqualImpliesEq};
ghost use Rattle.adr_model.specs.Member.{Member, Each};
ghost use Rattle.adr_model.specs.Update.{Key, Update};
ghost use Rattle.adr_law_knowledge.specs.Rises.{Rises, in_order};

/// Members of a list that was put together, mapped or filtered, and tests of all members.
pub fn lists_have_members()
    ensures appended { (xs ys : List Update) (x : Update) → Member x (xs ++ ys) ↔ (Member x xs ⊎ Member x ys) }
    ensures mapped { (key : Update → Key) (xs : List Update) (k : Key)
        → Member k (map key xs) ↔ ((x : Update) × Member x xs × (k ≡ key x)) }
    ensures filtered { (test : Update → Bool) (xs : List Update) (x : Update)
        → Member x (filter test xs) ↔ (Member x xs × (test x ≡ true)) }
    ensures all { (test : Update → Bool) (xs : List Update)
        → (list_all test xs ≡ true) ↔ Each (λ x. test x ≡ true) xs }
    ensures none { (test : Update → Bool) (xs : List Update)
        → (list_any test xs ≡ false) ↔ Each (λ x. test x ≡ false) xs }
{}

/// Keys that were put in order rise, have the members that they had, and are told by these alone.
pub fn rising_lists_are_sets()
    ensures rises { (order : Key → Key → Ordering) → IsTotalOrder order → CmpEqualImpliesEq order
        → (ks : List Key) → Rises order (in_order order ks) }
    ensures members { (order : Key → Key → Ordering) → IsTotalOrder order → CmpEqualImpliesEq order
        → (ks : List Key) (k : Key) → Member k (in_order order ks) ↔ Member k ks }
    ensures same { (order : Key → Key → Ordering) → IsTotalOrder order → CmpEqualImpliesEq order
        → (ks ls : List Key) → Rises order ks → Rises order ls → Each (λ k. Member k ls) ks → Each (λ k. Member k ks) ls → ks ≡ ls }
{}
