//! The orders of keys and of stamps.

ghost use Rattle.std.specs.Prelude.{◌≡◌, ◌⊎◌, ◌↔◌, ◌<◌, List, true};
ghost use Rattle.std.specs.Cmp.{IsTotalOrder};
ghost use Rattle.std.proofs.lemmas.Map.Lookups.{CmpEqualImpliesEq};
ghost use Rattle.adr_model.specs.Member.{Member};
ghost use Rattle.adr_model.specs.Update.{Key, Update, at_least, is_older, key_order, same_key};
ghost use Rattle.adr_model.specs.Reflects.{Supersedes};
ghost use Rattle.adr_model.specs.Sound.{HasOneContent};

/// Keys are totally ordered, and told apart by their order.
pub fn keys_are_ordered()
    ensures total { IsTotalOrder key_order }
    ensures exact { CmpEqualImpliesEq key_order }
{}

/// Of updates of one key, one supersedes the other, the next version every earlier one, and both
/// each other only where they are one.
pub fn stamps_decide()
    ensures itself { (u : Update) → Supersedes u u }
    ensures onward { (u v w : Update) → Supersedes u v → Supersedes v w → Supersedes u w }
    ensures either { (u v : Update) → u.key ≡ v.key → Supersedes u v ⊎ Supersedes v u }
    ensures next { (u v : Update) → u.key ≡ v.key → u.stamp.created ≡ v.stamp.created
        → u.stamp.stamp.version < v.stamp.stamp.version → Supersedes v u × (is_older u v ≡ true) }
    ensures one { (issued : List Update) → HasOneContent issued → (u v : Update) → Member u issued
        → Member v issued → Supersedes u v → Supersedes v u → u ≡ v }
{}

/// The tests say what the facts say.
pub fn tests_are_exact()
    ensures key { (k l : Key) → (same_key k l ≡ true) ↔ (k ≡ l) }
    ensures supersedes { (u v : Update) → (at_least u v ≡ true) ↔ Supersedes u v }
{}
