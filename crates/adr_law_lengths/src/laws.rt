//! Lengths by the model, and by the formats.

ghost use Rattle.std.specs.Prelude.{◌≡◌, ℕ, List, length};
ghost use Rattle.adr_values.specs.declared.stamp.Oid.{Oid};
ghost use Rattle.adr_values.specs.declared.content.Value.{Value};
ghost use Rattle.adr_values.specs.declared.content.Content.{Content};
ghost use Rattle.adr_values.specs.Vector.{Cursors};
ghost use Rattle.adr_wire.specs.Composites.{value, content, vector, Row, LinkItem};
ghost use Rattle.adr_wire.specs.Ranges.{IsValue, IsContent, IsObject, IsLink, IsCursors};
ghost use Rattle.adr_wire.specs.Timed.{Timed, timed, IsTimed};
ghost use Rattle.adr_model.specs.Update.{Holds};
ghost use Rattle.adr_model.specs.Serve.{value_length, content_length, item_length, vector_length};
ghost use Rattle.adr_model.specs.Lengths.{timed_length};
ghost use Rattle.adr_law_lengths.specs.Written.{object_item, link_item, object_bytes, link_bytes};

/// What is counted of an item or a vector is the number of bytes that a message writes of it; and what is counted of a
/// vector with its times, the number that an image or a record writes.
pub fn items_are_as_long_as_their_bytes()
    ensures values { (v : Value) → IsValue v → length (value v) ≡ value_length v }
    ensures contents { (attr : ℕ) (c : Content) → IsContent attr c → length (content c) ≡ content_length (Holds c) }
    ensures objects { (x : Oid × List Row) → IsObject x → length (object_bytes x) ≡ item_length (object_item x) }
    ensures links { (l : LinkItem) → IsLink l → length (link_bytes l) ≡ item_length (link_item l) }
    ensures vectors { (v : Cursors) → IsCursors v → length (vector v) ≡ vector_length v }
    ensures timed { (t : Timed) → IsTimed 2 t → length (timed 2 t) ≡ timed_length t.0 }
{}
