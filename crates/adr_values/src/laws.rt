//! What the definitions of this crate imply: each function's contract is a law, and its body is empty.

ghost use Rattle.std.specs.Prelude.{◌≡◌, ◌↔◌, IfSome, List, None, Some, ℕ};
ghost use Rattle.std.specs.List.{slice_get};
ghost use Rattle.std.specs.List.Sorted.{IsStrictlySortedBy};
ghost use Rattle.std.specs.Ordering.{nat_cmp};
ghost use Rattle.adr_values.specs.declared.content.Value.{Value as Item};
ghost use Rattle.adr_values.specs.declared.table.Syntax.{Syntax};
ghost use Rattle.adr_values.specs.Allowed.{AreAllowed, MayBeAdded, MayBeHeld, MayBeModified};
ghost use Rattle.adr_values.specs.Assignments.{Given, attributes};
ghost use Rattle.adr_values.specs.Names.{attribute_name, attribute_number, class_name, class_number};
ghost use Rattle.adr_values.specs.Extends.{SchemasGrow};
ghost use Rattle.adr_values.specs.Orderly.{IsOrderly};
ghost use Rattle.adr_values.specs.Rules.{add_refusal, modify_refusal, row_refusal};
ghost use Rattle.adr_values.specs.Schemas.{schema_table};
ghost use Rattle.adr_values.specs.Table.{Table};
ghost use Rattle.adr_values.specs.Values.{bad_place};

/// A name is read back as the number that it was written for, and a number is written as the name
/// that it was read from.
pub fn names_are_told_apart()
    ensures classes { (number : ℕ) (name : List ℕ)
        → (class_name number ≡ Some name) ↔ (class_number name ≡ Some number) }
    ensures attributes { (number : ℕ) (name : List ℕ)
        → (attribute_name number ≡ Some name) ↔ (attribute_number name ≡ Some number) }
{}

/// Nothing is refused exactly where the schema allows it.
pub fn refusals_are_exact()
    ensures values { (syntax : Syntax) (most : ℕ) (values : List Item)
        → (bad_place syntax most values ≡ None) ↔ AreAllowed syntax most values }
    ensures added { (t : Table) (class : ℕ) (gs : List Given)
        → (add_refusal t class gs ≡ None) ↔ MayBeAdded t class gs }
    ensures modified { (t : Table) (class : ℕ) (gs : List Given)
        → (modify_refusal t class gs ≡ None) ↔ MayBeModified t class gs }
{}

/// A row is not refused exactly where it may be held, and what is written may be held.
pub fn written_values_may_be_held()
    ensures held { (t : Table) (class attr : ℕ) (values : List Item)
        → (row_refusal t (Some class) attr values ≡ None) ↔ MayBeHeld t class attr values }

    ensures added { (t : Table) (class : ℕ) (gs : List Given) → add_refusal t class gs ≡ None
        → (place : ℕ) (g : Given) → slice_get gs place ≡ Some g → row_refusal t (Some class) g.0 g.1 ≡ None }

    ensures modified { (t : Table) (class : ℕ) (gs : List Given) → IsStrictlySortedBy nat_cmp (attributes gs)
        → modify_refusal t class gs ≡ None
        → (place : ℕ) (g : Given) → slice_get gs place ≡ Some g → row_refusal t (Some class) g.0 g.1 ≡ None }
{}

/// What a schema allows, each of a greater number allows.
#[tactic(none)]
pub fn schemas_grow()
    ensures { SchemasGrow }
{}

/// Each schema's table is in order, and its links are paired.
pub fn schemas_are_orderly()
    ensures { (number : ℕ) → IfSome (schema_table number) IsOrderly }
{}
