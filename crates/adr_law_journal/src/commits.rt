//! What a crash leaves of a commit to an area, and of a format.

ghost use Rattle.std.specs.Prelude.{◌≡◌, ◌⊎◌, ℕ, ◌+◌, ◌<◌, ◌^◌, List, [], ◌∷◌, length, Some, Ok, Err};
ghost use Rattle.adr_disk.specs.Disk.{put, Torn};
ghost use Rattle.adr_wire.specs.Reading.{Reading};
ghost use Rattle.adr_model.specs.Store.{State};
ghost use Rattle.adr_model.specs.Lengths.{Log, first_area};
ghost use Rattle.adr_law_journal.specs.Log.{Following, open_gate, record_of};
ghost use Rattle.adr_law_journal.specs.Areas.{Began, Found, start_of, TellsArea};
ghost use Rattle.adr_law_journal.specs.Kept.{Layout, Rests};
ghost use Rattle.adr_law_journal.specs.Recording.{IsStaged, log_behind, new_bytes, first_log};

/// A commit writes twice, each time with a sync behind it: the record with the next closed gate, where a log at rest
/// ends; and then the record's gate. Whatever a crash leaves of the first write, the log is as it was. Whatever one
/// leaves of the second, it is so or has the record.
#[tactic(none)]
pub fn a_commit_to_an_area_is_there_or_not()
    ensures first { (l : Layout (List ℕ × List ℕ) State) (s : State) (log : Log) (n : ℕ) (there left : List ℕ)
        → Rests l s log there → Torn log.log_end n there left → Rests l s log left }
    ensures staged { (l : Layout (List ℕ × List ℕ) State) (s : State) (log : Log) (body there : List ℕ)
        → Rests l s log there → IsStaged (l.area l.told) l.following l.front s log body (put there log.log_end (record_of body)) }
    ensures second { (l : Layout (List ℕ × List ℕ) State) (s t : State) (log : Log) (gate : ℕ) (body there left : List ℕ)
        → gate + 1 ≡ log.log_end → IsStaged (l.area l.told) l.following l.front s log body there
        → l.following log.version s body ≡ Some t → length body < 2 ^ 32
        → Torn gate 1 there left → Rests l s log left ⊎ Rests l t (log_behind log body) left }
    ensures opened { (l : Layout (List ℕ × List ℕ) State) (s t : State) (log : Log) (gate : ℕ) (body there : List ℕ)
        → gate + 1 ≡ log.log_end → IsStaged (l.area l.told) l.following l.front s log body there
        → l.following log.version s body ≡ Some t → length body < 2 ^ 32
        → Rests l t (log_behind log body) (put there gate (open_gate ∷ [])) }
{}

/// A format of an empty disk writes three times, each time with a sync behind it: a closed gate; behind it all the rest;
/// and then the first gate. Whatever a crash leaves of the first two, the log is damaged at its first byte. Whatever one
/// leaves of the third, it's damaged there or stands for the area's state.
#[tactic(none)]
pub fn a_format_with_an_area_is_there_or_not()
    ensures first { (head : Reading (List ℕ × List ℕ)) (area : List ℕ × List ℕ → Reading (Began State)) (following : ℕ → Following State) (left : List ℕ)
        → Torn 0 1 [] left → start_of head area following left ≡ Err 0 }
    ensures second { (head : Reading (List ℕ × List ℕ)) (area : List ℕ × List ℕ → Reading (Began State)) (following : ℕ → Following State) (n : ℕ) (left : List ℕ)
        → Torn 1 n (0 ∷ []) left → start_of head area following left ≡ Err 0 }
    ensures third { (head : Reading (List ℕ × List ℕ)) (area : List ℕ × List ℕ → Reading (Began State)) (following : ℕ → Following State) (f : Found State) (rest left : List ℕ)
        → start_of head area following (open_gate ∷ rest) ≡ Ok f → Torn 0 1 (0 ∷ rest) left
        → (start_of head area following left ≡ Err 0) ⊎ (start_of head area following left ≡ Ok f) }
    ensures formatted { (l : Layout (List ℕ × List ℕ) State) (s : State) (version : ℕ) (image : List ℕ)
        → TellsArea (l.area l.told) first_area image version s
        → Rests l s (first_log version (length image)) (open_gate ∷ new_bytes l.front image) }
{}
