//! What a checkpoint leaves of a log.

ghost use Rattle.std.specs.Prelude.{◌≡◌, ◌⊎◌, ℕ, ◌+◌, ◌<◌, ◌^◌, not, List, [], ◌∷◌, ◌++◌, length, ◌==◌, Ok};
ghost use Rattle.adr_disk.specs.Disk.{put, Torn, TornTwice};
ghost use Rattle.adr_wire.specs.Fields.{u64};
ghost use Rattle.adr_model.specs.Store.{State};
ghost use Rattle.adr_model.specs.Lengths.{Log};
ghost use Rattle.adr_law_journal.specs.Areas.{found, selects_second, selector_place, slot_place, IsFree, TellsArea, other_log};
ghost use Rattle.adr_law_journal.specs.Kept.{Layout, starts, Rests, Ready};
ghost use Rattle.adr_law_journal.specs.Bound.{RecordsStay, AreasStay, FilesStay};

/// A checkpoint writes a new area where it is free and its place into the slot that isn't selected, with a sync behind
/// both, and then the selector. Whatever a crash leaves of the first two writes, a start finds what it would have found
/// before. Whatever one leaves of the third, it finds the same state, in one area or the other.
#[tactic(none)]
pub fn a_checkpoint_leaves_the_state()
    ensures stands { (l : Layout (List ℕ × List ℕ) State) (s : State) (log : Log) (there : List ℕ)
        → Rests l s log there → starts l there ≡ Ok (found s log) }
    ensures first { (l : Layout (List ℕ × List ℕ) State) (s : State) (log : Log) (place n : ℕ) (there left : List ℕ)
        → Rests l s log there → IsFree log place n → TornTwice place n (slot_place (not log.second)) 8 there left → Rests l s log left }
    ensures staged { (l : Layout (List ℕ × List ℕ) State) (s : State) (log : Log) (place version : ℕ) (image there : List ℕ)
        → Rests l s log there → IsFree log place (length image + 1) → TellsArea (l.area l.told) place image version s → place < 2 ^ 64
        → Ready l s log (put (put there place (image ++ 0 ∷ [])) (slot_place (not log.second)) (u64 place))
        × Ready l s (other_log log place version (length image)) (put (put there place (image ++ 0 ∷ [])) (slot_place (not log.second)) (u64 place)) }
    ensures second { (l : Layout (List ℕ × List ℕ) State) (s : State) (log other : Log) (there left : List ℕ)
        → other.second ≡ not log.second → Ready l s log there → Ready l s other there
        → Torn selector_place 1 there left → Rests l s log left ⊎ Rests l s other left }
    ensures selected { (l : Layout (List ℕ × List ℕ) State) (s : State) (other : Log) (there : List ℕ) (selector : ℕ)
        → (selector == selects_second) ≡ other.second → Ready l s other there → Rests l s other (put there selector_place (selector ∷ [])) }
{}

/// A log stays bounded by the greatest image, the greatest record and the length of the file that it began with, through
/// each record and each new area; and so does its file.
#[tactic(none)]
pub fn logs_stay_bounded()
    ensures records { RecordsStay }
    ensures areas { AreasStay }
    ensures files { FilesStay }
{}
