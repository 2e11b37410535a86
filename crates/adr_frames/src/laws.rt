//! What is sent as a frame is heard as it, and what is heard was sent so.

ghost use Rattle.std.specs.Prelude.{◌≡◌, ◌++◌, ℕ, List, [], length};
ghost use Rattle.adr_wire.specs.Spelling.{AreBytes};
ghost use Rattle.adr_frames.specs.Frames.{IsFrame, IsFrameLength, IsOver, frame, next_in};

/// A frame has one spelling: it is the next one whatever follows, and nothing else is. A connection is over only where
/// nothing is left.
pub fn frames_have_one_spelling()
    ensures again { (bytes rest : List ℕ) → IsFrameLength (length bytes)
        → next_in (frame bytes ++ rest) ≡ IsFrame bytes rest }
    ensures only { (left bytes rest : List ℕ) → AreBytes left → next_in left ≡ IsFrame bytes rest
        → IsFrameLength (length bytes) × (left ≡ frame bytes ++ rest) }
    ensures over { (left : List ℕ) → next_in left ≡ IsOver → left ≡ [] }
{}
