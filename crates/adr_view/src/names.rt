//! Of the names that live objects have in one place and in one folded form, the youngest.

ghost use Rattle.std.specs.Prelude.{◌≡◌, Some, false, IfOk, OnOk};
ghost use Rattle.std.specs.BTreeMap.{get};
ghost use Rattle.std.specs.Option.{option_copied, option_map_or};
ghost use Rattle.adr_values.specs.Folding.{folded};
ghost use Rattle.adr_model.specs.Store.{updates_of};
ghost use Rattle.adr_model.specs.Write.{nodes_held};
ghost use Rattle.adr_update.specs.Referents.{referents};
ghost use Rattle.adr_view.specs.Slots.{Slot as Where, same_slot, slot_order};
ghost use Rattle.adr_view.specs.Youngest.{AreYoungest, is_before, later, rank_of, with_rank};

use crate::NoMemory;
use crate::slot::Slot;
use adr_state::{Node, Rows};
use adr_values::{Guid, LinkStamp};
use std::alloc::Global;
use std::collections::BTreeMap;

/// The stamp of a name, and the GUID of the object that has it.
type Rank = (LinkStamp, Guid);

/// The youngest name wherever there is one.
#[derive(Drop)]
pub struct Names<'a> {
    pub(crate) map: BTreeMap<Slot<'a>, Rank>,
}

fn rank_of(node: &Node) -> Rank
    ensures { result ≡ rank_of node.now }
{
    (node.stamp(), node.object().guid)
}

/// Whether the second name is the younger one, or at equal stamps that of the greater GUID.
fn is_before(rank: &Rank, other: &Rank) -> bool
    ensures { result ≡ is_before rank.now other.now }
{
    rank.0.cmp(&other.0).then(rank.1.cmp(&other.1)).is_lt()
}

/// The younger of the youngest name so far, if there is one, and another.
fn later(youngest: Option<&Rank>, rank: Rank) -> Rank
    ensures { result ≡ later (option_copied youngest.entry) rank }
{
    match youngest {
        Some(youngest) => {
            if is_before(youngest, &rank) {
                rank
            } else {
                *youngest
            }
        }
        None => rank,
    }
}

/// Takes one more name into account.
fn put<'a>(names: &mut BTreeMap<Slot<'a>, Rank>, slot: Slot<'a>, rank: Rank) -> Result<(), NoMemory>
    ensures { OnOk result ((other : Where)
        → get slot_order names.new other ≡ with_rank (same_slot slot.entry other) rank (get slot_order names.old other)) }
{
    let youngest = later(names.get(&slot), rank);
    names.insert(slot, youngest)?;
    Ok(())
}

/// The youngest name of live objects wherever there is one.
pub fn youngest_names<'a>(
    alloc: Global,
    rows: &Rows,
    nodes: &[&'a Node],
) -> Result<Names<'a>, NoMemory>
    requires { referents nodes.now ≡ nodes_held (updates_of rows.now) }
    ensures { IfOk result (λ names. AreYoungest (nodes_held (updates_of rows.now)) names.map) }
{
    rows.are_rising();
    let mut names = BTreeMap::new(alloc);
    for node in nodes {
        let slot = Slot::new(rows.place(node), node.name());
        put(&mut names, slot, rank_of(node))?;
    }
    Ok(Names { map: names })
}

/// Whether another object has the name of this one in this place and is younger.
pub fn gives_way<'a>(names: &Names<'a>, place: Guid, node: &'a Node) -> bool
    ensures { result
        ≡ option_map_or (is_before (rank_of node.now)) (get slot_order names.now.map (place, folded node.now.text)) false }
{
    match names.map.get(&Slot::new(place, node.name())) {
        Some(youngest) => is_before(&rank_of(node), youngest),
        None => false,
    }
}
