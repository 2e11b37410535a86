//! How a start reads a log.

ghost use Rattle.std.specs.Prelude.{◌≡◌, ◌≢◌, ℕ, ◌+◌, ◌≤◌, ◌<◌, ◌^◌, Bool, List, ◌∷◌, ◌++◌, length, drop, get_or, Some, None, Err};
ghost use Rattle.adr_wire.specs.Reading.{Rest, Reading};
ghost use Rattle.adr_wire.specs.Spelling.{behind};
ghost use Rattle.adr_model.specs.Store.{State};
ghost use Rattle.adr_model.specs.Lengths.{first_area};
ghost use Rattle.adr_law_journal.specs.Log.{Following, open_gate, body_at, with_length};
ghost use Rattle.adr_law_journal.specs.Areas.{Began, start_of, slots_at, selector_place, slot_place, slot_of, is_second, window, Reaches, WasArea};
ghost use Rattle.adr_law_journal.specs.Begun.{HasFront, IsNamed};
ghost use Rattle.adr_law_journal.specs.Kept.{Layout, starts, Rests};

/// A log is damaged at its first byte where that gate is closed or nothing stands behind it, else where its head is,
/// where its bytes end within the selector or a slot, at the selected slot where no area can stand at its place, and
/// else where the area is. An area that was read leads to its state.
#[tactic(none)]
pub fn a_start_reads_an_area()
    ensures short { (head : Reading (List ℕ × List ℕ)) (area : List ℕ × List ℕ → Reading (Began State)) (following : ℕ → Following State) (bytes : List ℕ)
        → length bytes < 2 → start_of head area following bytes ≡ Err 0 }
    ensures shut { (head : Reading (List ℕ × List ℕ)) (area : List ℕ × List ℕ → Reading (Began State)) (following : ℕ → Following State) (gate : ℕ) (rest : List ℕ)
        → gate ≢ open_gate → start_of head area following (gate ∷ rest) ≡ Err 0 }
    ensures head_fails { (head : Reading (List ℕ × List ℕ)) (area : List ℕ × List ℕ → Reading (Began State)) (following : ℕ → Following State) (rest : List ℕ) (place : ℕ)
        → 1 ≤ length rest → head (record { place = 1; bytes = rest }) ≡ Err place → start_of head area following (open_gate ∷ rest) ≡ Err place }
    ensures slots_fail { (l : Layout (List ℕ × List ℕ) State) (bytes : List ℕ) (place : ℕ)
        → HasFront l.front bytes → slots_at (behind 1 l.front (drop selector_place bytes)) ≡ Err place → starts l bytes ≡ Err place }
    ensures too_low { (l : Layout (List ℕ × List ℕ) State) (bytes : List ℕ)
        → HasFront l.front bytes → first_area ≤ length bytes → slot_of (is_second bytes) bytes < first_area
        → starts l bytes ≡ Err (slot_place (is_second bytes)) }
    ensures too_far { (l : Layout (List ℕ × List ℕ) State) (bytes : List ℕ)
        → HasFront l.front bytes → first_area ≤ length bytes → first_area ≤ slot_of (is_second bytes) bytes
        → length bytes ≤ slot_of (is_second bytes) bytes → starts l bytes ≡ Err (slot_place (is_second bytes)) }
    ensures area_fails { (l : Layout (List ℕ × List ℕ) State) (bytes : List ℕ) (second : Bool) (place fault : ℕ)
        → HasFront l.front bytes → IsNamed second place bytes
        → l.area l.told (record { place = place; bytes = drop place bytes }) ≡ Err fault → starts l bytes ≡ Err fault }
    ensures reaches { (l : Layout (List ℕ × List ℕ) State) (bytes : List ℕ) (place n : ℕ) (began : Began State) (rest : Rest)
        → place ≤ length bytes → WasArea (l.area l.told) place (drop place bytes) began rest → rest.place ≡ place + n
        → (place + n ≤ length bytes) × Reaches (l.area l.told) l.following place began.version (place + n) (window place n bytes) began.state }
{}

/// Bytes of an area that lead to a state end at a closed gate, go on with a record that may follow, or are damaged at
/// the place where the next gate is due.
#[tactic(none)]
pub fn a_start_reads_an_area_record_by_record()
    ensures ends { (l : Layout (List ℕ × List ℕ) State) (bytes : List ℕ) (second : Bool) (place version first m : ℕ) (s : State)
        → HasFront l.front bytes → IsNamed second place bytes
        → Reaches (l.area l.told) l.following place version first (window place m bytes) s → place + m ≡ length bytes
        → starts l bytes ≡ Err (place + m) }
    ensures rests { (l : Layout (List ℕ × List ℕ) State) (bytes : List ℕ) (second : Bool) (place version first m : ℕ) (s : State)
        → HasFront l.front bytes → IsNamed second place bytes
        → Reaches (l.area l.told) l.following place version first (window place m bytes) s → place + m < length bytes
        → get_or bytes (place + m) 0 ≢ open_gate
        → Rests l s (record { second = second; place = place; version = version; first = first; log_end = place + m + 1 }) bytes }
    ensures cut { (l : Layout (List ℕ × List ℕ) State) (bytes : List ℕ) (second : Bool) (place version first m fault : ℕ) (s : State)
        → HasFront l.front bytes → IsNamed second place bytes
        → Reaches (l.area l.told) l.following place version first (window place m bytes) s → place + m < length bytes
        → get_or bytes (place + m) 0 ≡ open_gate
        → body_at (record { place = place + m + 1; bytes = drop (place + m + 1) bytes }) ≡ Err fault → starts l bytes ≡ Err (place + m) }
    ensures stops { (l : Layout (List ℕ × List ℕ) State) (bytes : List ℕ) (second : Bool) (place version first m : ℕ) (s : State) (body rest : List ℕ)
        → HasFront l.front bytes → IsNamed second place bytes
        → Reaches (l.area l.told) l.following place version first (window place m bytes) s → place + m < length bytes
        → get_or bytes (place + m) 0 ≡ open_gate
        → drop (place + m + 1) bytes ≡ with_length body ++ rest → length body < 2 ^ 32 → l.following version s body ≡ None
        → starts l bytes ≡ Err (place + m) }
    ensures goes_on { (l : Layout (List ℕ × List ℕ) State) (bytes : List ℕ) (second : Bool) (place version first m : ℕ) (s t : State) (body rest : List ℕ)
        → HasFront l.front bytes → IsNamed second place bytes
        → Reaches (l.area l.told) l.following place version first (window place m bytes) s → place + m < length bytes
        → get_or bytes (place + m) 0 ≡ open_gate
        → drop (place + m + 1) bytes ≡ with_length body ++ rest → length body < 2 ^ 32 → l.following version s body ≡ Some t
        → (place + (m + 5 + length body) ≤ length bytes) × Reaches (l.area l.told) l.following place version first (window place (m + 5 + length body) bytes) t }
{}
