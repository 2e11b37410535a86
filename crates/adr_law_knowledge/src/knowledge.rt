//! What a store reflects, and what is kept of it.

ghost use Rattle.std.specs.Prelude.{◌≡◌, ◌⊎◌, ℕ, List, true};
ghost use Rattle.adr_values.specs.declared.stamp.Oid.{Oid};
ghost use Rattle.adr_model.specs.Member.{Member, Each};
ghost use Rattle.adr_model.specs.Update.{Update, RowOf, class_attr, ends};
ghost use Rattle.adr_model.specs.Reflects.{AtMost, Covers, CoversBirth, HoldsAtLeast, HoldsObject, IsDeath, IsDeathOf, IsPurged, IsTombstoned, Knowledge, Reflects, Supersedes};
ghost use Rattle.adr_model.specs.Take.{is_birth};
ghost use Rattle.adr_law_knowledge.specs.Grows.{Grows, Keeps};

/// A death that was taken leaves its object dead or collected, and then stands for every update of
/// that object.
pub fn deaths_stand_for_updates()
    ensures superseded { (issued : List Update) (k : Knowledge) (r u : Update) → Reflects issued k r
        → Supersedes r u → (IsDeath u → Covers k.vector u) → Reflects issued k u }
    ensures taken { (issued : List Update) (k : Knowledge) (d : Update) (o : Oid) → IsDeathOf o d
        → Reflects issued k d → IsTombstoned k.rows o ⊎ IsPurged issued k o }
    ensures stands_for { (issued : List Update) (k : Knowledge) (u : Update) (o : Oid) → Member o (ends u.key)
        → IsTombstoned k.rows o ⊎ IsPurged issued k o
        → (IsDeath u → Covers k.vector u) → Reflects issued k u }
{}

/// An object of which an update was taken, and which isn't held, was collected.
pub fn absent_objects_were_collected()
    ensures taken { (issued : List Update) (k : Knowledge) (u : Update) (o : Oid) (attr : ℕ) → u.key ≡ RowOf o attr
        → Reflects issued k u
        → (HoldsObject k.rows o → ⊥) → IsPurged issued k o }
    ensures covered { (issued : List Update) (k : Knowledge) (b : Update) (o : Oid)
        → Each (λ u. Covers k.vector u → Reflects issued k u) issued
        → Member b issued → b.key ≡ RowOf o class_attr → is_birth o b ≡ true
        → CoversBirth k.vector o → (HoldsObject k.rows o → ⊥) → IsPurged issued k o }
{}

/// Where the ends of an update are held and not dead, what was taken is held itself, or superseded
/// by what is held.
pub fn standing_updates_are_held()
    ensures { (issued : List Update) (k : Knowledge) (u : Update)
        → Each (λ o. HoldsObject k.rows o × (IsTombstoned k.rows o → ⊥)) (ends u.key)
        → Reflects issued k u → HoldsAtLeast k.rows u }
{}

/// What one store has taken and its vector covers, another store has taken too that has taken each
/// of its rows and each issued update that it collected, and whose vector isn't less.
pub fn carried_knowledge_carries_over()
    ensures { (issued : List Update) (from to : Knowledge) → AtMost from.vector to.vector
        → Each (λ r. Reflects issued to r) from.rows
        → Each (λ d. Covers from.purged d → Reflects issued to d) issued
        → (u : Update) → Covers from.vector u → Reflects issued from u → Reflects issued to u }
{}

/// A step that loses nothing keeps all that was taken, and so do such steps one after the other, and
/// further issued updates.
pub fn growth_keeps_what_was_taken()
    ensures keeps { (issued : List Update) (before after : Knowledge) → Grows issued before after
        → Keeps issued before after }
    ensures itself { (issued : List Update) (k : Knowledge) → Grows issued k k }
    ensures onward { (issued : List Update) (a b c : Knowledge) → Grows issued a b → Grows issued b c
        → Grows issued a c }
    ensures issued { (issued more : List Update) (k : Knowledge) (u : Update) → Each (λ v. Member v more) issued
        → Reflects issued k u → Reflects more k u }
{}
