//! The laws.

ghost use Rattle.adr_law_tree.specs.Local.{LocalLaw};
ghost use Rattle.adr_law_tree.specs.Edits.{ChangeLaw, UntouchedLaw};
ghost use Rattle.adr_law_tree.specs.InOrder.{LookUpLaw, OrderLaw};
ghost use Rattle.adr_law_tree.specs.Kept.{LostSuperiorLaw, TreeLaw};
ghost use Rattle.adr_law_tree.specs.Breaker.{AbsentLaw, LoopLaw, RemoveLaw};
ghost use Rattle.adr_law_tree.specs.Closing.{ClosingLaw, NeverLaw};
ghost use Rattle.adr_law_tree.specs.Opening.{ClimbLaw, OpeningLaw};
ghost use Rattle.adr_law_tree.specs.Short.{ChildlessLaw, NoLoopLaw, SameParentLaw};
ghost use Rattle.adr_law_tree.specs.Names.{GivesWayLaw, HolderLaw, LeastLaw, NoHolderLaw, OneBreakerLaw, PlacedLaw, FreeNameLaw, TakenLaw};
ghost use Rattle.adr_law_tree.specs.Sets.{IndexPutLaw, IndexTakeLaw, PutLaw, TakeLaw};

/// Only the rows of a GUID decide which live object it names, and what a change makes of it.
#[tactic(none)]
pub fn one_guid_decides()
    ensures local { LocalLaw }
    ensures change { ChangeLaw }
    ensures untouched { UntouchedLaw }
{}

/// Live objects are in order of GUID, and a list in order is known by its look-ups.
#[tactic(none)]
pub fn live_objects_are_in_order()
    ensures order { OrderLaw }
    ensures known { LookUpLaw }
    ensures tree { TreeLaw }
{}

/// With one object more, the one that breaks its loop breaks a loop besides those that did.
#[tactic(none)]
pub fn loops_change_by_one()
    ensures more { LoopLaw }
    ensures less { RemoveLaw }
    ensures absent { AbsentLaw }
{}

/// One walk from an object that comes or goes finds who breaks its loop, and one walk tells who is met going up.
#[tactic(none)]
pub fn walks_find_who_breaks()
    ensures closing { ClosingLaw }
    ensures opening { OpeningLaw }
    ensures climb { ClimbLaw }
    ensures never { NeverLaw }
{}

/// Where no walk is needed.
#[tactic(none)]
pub fn walks_are_needed_seldom()
    ensures childless { ChildlessLaw }
    ensures parent { SameParentLaw }
    ensures free { NoLoopLaw }
{}

/// Places, children and names by look-ups.
#[tactic(none)]
pub fn names_are_looked_up()
    ensures placed { PlacedLaw }
    ensures breaker { OneBreakerLaw }
    ensures least { LeastLaw }
    ensures holder { HolderLaw }
    ensures nobody { NoHolderLaw }
    ensures gives_way { GivesWayLaw }
    ensures lost { LostSuperiorLaw }
    ensures taken { TakenLaw }
    ensures free { FreeNameLaw }
{}

/// The set of the breakers, and sets whose test looks at each node alone, with one object more and with one less.
#[tactic(none)]
pub fn sets_are_kept()
    ensures put { PutLaw }
    ensures take { TakeLaw }
    ensures index_put { IndexPutLaw }
    ensures index_take { IndexTakeLaw }
{}
