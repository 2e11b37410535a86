//! The tree of live objects: what is looked up in it.

ghost use Rattle.std.specs.Prelude.{◌≡◌, [], true, false, Some, IfSome, IfNone, IfOk, IsSome, length};
ghost use Rattle.std.specs.List.{find, list_any};
ghost use Rattle.std.specs.Option.{option_copied, option_map};
ghost use Rattle.adr_model.specs.Place.{Node as Defined, is_fixed, node_at, place, upward};
ghost use Rattle.adr_model.specs.Update.{same_identifier};
ghost use Rattle.adr_law_tree.specs.InOrder.{AreInOrder};
ghost use Rattle.adr_update.specs.Referents.{referents};
ghost use Rattle.adr_tree.specs.Tree.{IsLive, IsTree, nodes_in};

use crate::NoMemory;
use crate::hints::Hint;
use crate::slots::{flag, slot};
use crate::walks::climbs;
use adr_update::{Node, is_fixed, is_same, lost_and_found};
use adr_values::Guid;
use std::alloc::Global;
use std::collections::{BTreeMap, BTreeSet};
use std::ops::Bound;

/// The live objects, each in the slot of its GUID, who of them breaks a loop of parents, and hints of who has which
/// parent and which name.
pub struct Tree {
    pub(crate) slots: BTreeMap<Guid, Option<Node>>,
    pub(crate) flags: BTreeMap<Guid, bool>,
    pub(crate) hints: BTreeSet<Hint>,
}

impl Drop for Tree {
    fn drop(self) {
        let Tree {
            slots: _slots,
            flags: _flags,
            hints: _hints,
        } = self;
    }
}

impl Tree {
    /// No live objects.
    pub fn new(alloc: Global) -> Tree
        ensures nodes { nodes_in result ≡ [] }
        ensures tree { IsTree result }
    {
        Tree {
            slots: BTreeMap::new(alloc),
            flags: BTreeMap::new(alloc),
            hints: BTreeSet::new(alloc),
        }
    }

    /// Nodes in order of GUID.
    pub fn are_in_order(&self)
        requires { IsTree self.now }
        ensures { AreInOrder (nodes_in self.now) }
    {}

    /// The live object of a GUID.
    pub fn get(&self, guid: Guid) -> Option<&Node>
        requires { IsTree self.now }
        ensures { option_copied result ≡ node_at (nodes_in self.now) guid }
    {
        slot(&self.slots, guid)
    }

    /// The live objects, rising by GUID.
    pub fn nodes(&self, alloc: Global) -> Result<Vec<&Node>, NoMemory>
        requires { IsTree self.now }
        ensures { IfOk result (λ live. referents live.items ≡ nodes_in self.now) }
    {
        let mut live = Vec::new(alloc);
        for (_, slot) in &self.slots {
            if let Some(node) = slot {
                live.push(node)?;
            }
        }
        Ok(live)
    }

    /// The GUID under which a live object is shown (MS-ADTS, LostAndFound container).
    pub fn place(&self, node: &Node) -> Guid
        requires tree { IsTree self.now }
        requires live { node_at (nodes_in self.now) node.now.object.guid ≡ Some node.now }
        ensures { result ≡ place (nodes_in self.now) node.now }
    {
        if flag(&self.flags, node.object().guid) {
            return lost_and_found();
        }
        let parent = node.parent();
        if is_fixed(parent) || self.get(parent).is_some() {
            parent
        } else {
            lost_and_found()
        }
    }

    /// Whether an object of a GUID is met going up from a place, which it may be itself.
    pub fn is_met_above(&self, place: Guid, guid: Guid) -> bool
        requires { IsTree self.now }
        ensures { result
            ≡ list_any (λ m. same_identifier m.object.guid guid)
            (upward (nodes_in self.now) (length (nodes_in self.now)) place) }
    {
        climbs(&self.slots, &self.flags, guid, place, self.slots.len())
    }

    /// The live object of a hint.
    pub(crate) fn at_hint(&self, hint: &Hint) -> Option<&Node>
        requires { IsTree self.now }
        ensures live { IfSome result (λ n. IsLive (nodes_in self.now) n.now) }
        ensures own { IfSome result (λ n. hint.now.guid ≡ Some n.now.object.guid) }
        ensures none { IfNone result ((m : Defined) → IsLive (nodes_in self.now) m → hint.now.guid ≡ Some m.object.guid → ⊥) }
    {
        match hint.guid {
            Some(guid) => self.get(guid),
            None => None,
        }
    }

    /// The live object of a hint, if it is placed there.
    pub(crate) fn placed(&self, parent: Guid, hint: &Hint) -> Option<&Node>
        requires { IsTree self.now }
        ensures live { IfSome result (λ n. IsLive (nodes_in self.now) n.now) }
        ensures own { IfSome result (λ n. hint.now.guid ≡ Some n.now.object.guid) }
        ensures placed { IfSome result (λ n. same_identifier (place (nodes_in self.now) n.now) parent ≡ true) }
        ensures none { IfNone result ((m : Defined) → IsLive (nodes_in self.now) m
            → hint.now.guid ≡ Some m.object.guid → same_identifier (place (nodes_in self.now) m) parent ≡ false) }
    {
        let node = self.at_hint(hint)?;
        if is_same(self.place(node), parent) {
            Some(node)
        } else {
            None
        }
    }

    /// The least GUID of an object that is shown under a live one.
    pub fn first_child(&self, guid: Guid) -> Option<Guid>
        requires tree { IsTree self.now }
        requires live { IsSome (node_at (nodes_in self.now) guid) }
        requires free { is_fixed guid ≡ false }
        ensures { result
            ≡ option_map (λ m. m.object.guid)
            (find (λ m. same_identifier (place (nodes_in self.now) m) guid) (nodes_in self.now)) }
    {
        let start = Hint {
            parent: guid,
            number: None,
            guid: None,
        };
        for hint in self.hints.range((Bound::Included(start), Bound::Unbounded)) {
            if !start.begins_run_of(hint) {
                return None;
            }
            if let Some(node) = self.placed(guid, hint) {
                return Some(node.object().guid);
            }
        }
        None
    }
}
