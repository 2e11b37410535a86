//! What is written is read again, and what is read was written so.

ghost use Rattle.std.specs.Prelude.{◌≡◌, ℕ, List, Ok, Err, Some, length, take, true};
ghost use Rattle.adr_wire.specs.declared.refusal.DecodeRefusal.TheVariants.{Malformed, WrongVersion};
ghost use Rattle.adr_values.specs.Numbered.{numbered};
ghost use Rattle.adr_wire.specs.Headed.{is_version};
ghost use Rattle.adr_wire.specs.Ranges.{IsId};
ghost use Rattle.adr_wire.specs.Spelling.{AreBytes, IsSpelling};
ghost use Rattle.adr_model.specs.Formed.{IsFormedStore};
ghost use Rattle.adr_model.specs.Change.{Change, after};
ghost use Rattle.adr_model.specs.Lengths.{change_length, image_length};
ghost use Rattle.adr_model.specs.Sound.{AreClassesKnown};
ghost use Rattle.adr_model.specs.Store.{State, Store, empty_store, updates_of};
ghost use Rattle.adr_image.specs.Body.{IsBody, body, body_at};
ghost use Rattle.adr_image.specs.Changes.{IsShortChange, HasBody, change_bytes, decoded_change};
ghost use Rattle.adr_image.specs.Lengths.{parts_length};
ghost use Rattle.adr_image.specs.Ranged.{AreParts};
ghost use Rattle.adr_image.specs.Stored.{IsSpelled, WasImage, decoded, image, image_at, image_version, parts_in};
ghost use Rattle.adr_image.specs.Whole.{IsOf, Parts, image_of, read_parts};
ghost use Rattle.adr_image.specs.Worked.{empty_image, empty_parts};

/// The parts of an image that are in range are read again, and what is read was in range and was written so.
pub fn parts_have_one_spelling()
    ensures again { (version : ℕ) (p : Parts) → is_version version ≡ true → AreParts p → IsOf version p
        → read_parts (image_of version p) ≡ Ok p }
    ensures only { (bytes : List ℕ) (p : Parts) → AreBytes bytes → read_parts bytes ≡ Ok p
        → (version : ℕ) × (is_version version ≡ true) × (AreParts p × IsOf version p) × (bytes ≡ image_of version p) }
{}

/// What is read of an image is a formed and spelled store whose image it was, in one of the versions. The image of such a
/// store is read again, and so is that of version 1 where this version can tell the store.
pub fn images_have_one_spelling()
    ensures formed { (bytes : List ℕ) (s : Store) → AreBytes bytes → decoded bytes ≡ Ok s
        → IsFormedStore s × IsSpelled s × WasImage bytes s }
    ensures again { (s : Store) → IsFormedStore s → IsSpelled s → decoded (image s) ≡ Ok s }
    ensures in_range { (s : Store) → IsFormedStore s → IsSpelled s → AreParts (parts_in s) }
    ensures again_1 { (s : Store) → IsFormedStore s → IsSpelled s → IsOf 1 (parts_in s)
        → decoded (image_of 1 (parts_in s)) ≡ Ok s }
    ensures placed { (version : ℕ) → is_version version ≡ true
        → IsSpelling (λ s. (IsFormedStore s × IsSpelled s) × IsOf version (parts_in s))
        (λ s. image_of version (parts_in s)) (image_at version) }
{}

/// An image is as long as is counted of its store.
pub fn images_are_as_long_as_counted()
    ensures parts { (p : Parts) → AreParts p → length (image_of image_version p) ≡ parts_length p }
    ensures stores { (s : Store) → IsFormedStore s → IsSpelled s → length (image s) ≡ image_length s }
{}

/// The body of a record of a version behind this USN and under this schema has one spelling.
pub fn bodies_have_one_spelling()
    ensures { (version before schema : ℕ) → IsSpelling (IsBody version before schema) (body version) (body_at version before schema) }
{}

/// A change that is that of a body in range is read again from its bytes, and what is read as a change was written so. Its
/// bytes can be written, and are as many as is counted.
pub fn changes_have_one_spelling()
    ensures again { (version before schema : ℕ) (c : Change) → HasBody version before schema c
        → decoded_change version before schema (change_bytes version c) ≡ Some c }
    ensures only { (version before schema : ℕ) (bytes : List ℕ) (c : Change) → AreBytes bytes
        → decoded_change version before schema bytes ≡ Some c
        → HasBody version before schema c × (bytes ≡ change_bytes version c) }
    ensures short { (version before schema : ℕ) (c : Change) → HasBody version before schema c → IsShortChange c }
    ensures long { (before schema : ℕ) (c : Change) → HasBody image_version before schema c
        → length (change_bytes image_version c) ≡ change_length c }
{}

/// The store of a new controller is spelled, and a spelled store stays so by a change that a body in range says under its
/// schema and that leaves known classes.
pub fn stores_stay_spelled()
    ensures begin { IsSpelled (empty_store 1) }
    ensures stay { (version : ℕ) (s : State) (c : Change) → IsId s.inv → IsSpelled s.store
        → HasBody version s.store.usn s.store.schema c
        → AreClassesKnown (numbered c.schema) (updates_of (after s c).store.rows) → IsSpelled (after s c).store }
{}

/// The image of an empty controller has 38 bytes in both versions, and without the last one it is refused at the field that
/// is cut. One of another version is refused for that.
pub fn worked_images()
    ensures written { image_of image_version empty_parts ≡ empty_image 2 }
    ensures long { length (empty_image 2) ≡ 38 }
    ensures read { read_parts (empty_image 2) ≡ Ok empty_parts }
    ensures read_1 { read_parts (empty_image 1) ≡ Ok empty_parts }
    ensures cut { read_parts (take 37 (empty_image 2)) ≡ Err (Malformed 34) }
    ensures other { read_parts (empty_image 3) ≡ Err (WrongVersion 3) }
{}
