//! Who has which name in a place.

ghost use Rattle.std.specs.Prelude.{◌≡◌, ◌∷◌, [], ℕ, List, true, false, not, Some, IfSome, IfNone, IfOk};
ghost use Rattle.std.specs.List.{list_any};
ghost use Rattle.std.specs.Option.{option_copied, option_map};
ghost use Rattle.std.specs.Str.{bytes_eq};
ghost use Rattle.adr_values.specs.Folding.{folded};
ghost use Rattle.adr_model.specs.Member.{Each, Member};
ghost use Rattle.adr_model.specs.Place.{Node as Defined};
ghost use Rattle.adr_model.specs.Shown.{name_holder};
ghost use Rattle.adr_model.specs.Update.{same_identifier};
ghost use Rattle.adr_model.specs.Write.{is_taken};
ghost use Rattle.adr_law_tree.specs.Breaker.{youngest};
ghost use Rattle.adr_update.specs.Referents.{referents};
ghost use Rattle.adr_tree.specs.Names.{is_called, youngest_with};
ghost use Rattle.adr_tree.specs.Parent.{IsParent};
ghost use Rattle.adr_tree.specs.Tree.{IsLive, IsTree, nodes_in};

use crate::NoMemory;
use crate::hints::{Hint, number_of};
use crate::tree::Tree;
use crate::walks::younger;
use adr_update::{Node, is_lost_name, is_same, lost_and_found};
use adr_values::{Guid, Text, fold_name};
use std::alloc::Global;
use std::ops::Bound;

/// Whether the folded name of an object is this one.
fn has_name(node: &Node, name: &Text) -> bool
    ensures { result ≡ bytes_eq (folded node.now.text) name.now }
{
    node.name().items() == name.items()
}

/// The object whose name is the youngest.
fn youngest<'a>(nodes: &[&'a Node]) -> Option<&'a Node>
    ensures { option_copied result ≡ youngest (referents nodes.now) }
{
    let mut best = None;
    for node in nodes {
        best = Some(younger_of(best, *node));
    }
    best
}

/// The younger of two names, if there are two.
fn younger_of<'a>(best: Option<&'a Node>, node: &'a Node) -> &'a Node
    ensures { Some result.now ≡ youngest_with (option_copied best.entry) (node.now ∷ []) }
{
    match best {
        Some(best) => younger(best, node),
        None => node,
    }
}

/// The GUID of an object, where there is one.
fn guid_of(node: Option<&Node>) -> Option<Guid>
    ensures { result ≡ option_map (λ n. n.object.guid) (option_copied node.entry) }
{
    match node {
        Some(node) => Some(node.object().guid),
        None => None,
    }
}

/// Whether there is another object than that of a GUID.
fn has_other(nodes: &[&Node], guid: Guid) -> bool
    ensures { result ≡ list_any (λ m. not (same_identifier m.object.guid guid)) (referents nodes.now) }
{
    for node in nodes {
        if !is_same(node.object().guid, guid) {
            return true;
        }
    }
    false
}

impl Tree {
    /// The live object of a hint, if it stands in a place under a folded name.
    fn called(&self, parent: Guid, name: &Text, hint: &Hint) -> Option<&Node>
        requires { IsTree self.now }
        ensures live { IfSome result (λ n. IsLive (nodes_in self.now) n.now) }
        ensures own { IfSome result (λ n. hint.now.guid ≡ Some n.now.object.guid) }
        ensures called { IfSome result (λ n. is_called (nodes_in self.now) parent name.now n.now ≡ true) }
        ensures none { IfNone result ((m : Defined) → IsLive (nodes_in self.now) m
            → hint.now.guid ≡ Some m.object.guid → is_called (nodes_in self.now) parent name.now m ≡ false) }
    {
        let node = self.placed(parent, hint)?;
        if has_name(node, name) {
            Some(node)
        } else {
            None
        }
    }

    /// The live objects that stand in a place under a folded name.
    fn bearers(&self, alloc: Global, parent: Guid, name: &Text) -> Result<Vec<&Node>, NoMemory>
        requires tree { IsTree self.now }
        requires parent { IsParent (nodes_in self.now) parent }
        ensures live { IfOk result (λ nodes. Each (IsLive (nodes_in self.now)) (referents nodes.items)) }
        ensures called { IfOk result (λ nodes.
            Each (λ n. is_called (nodes_in self.now) parent name.now n ≡ true) (referents nodes.items)) }
        ensures all { IfOk result (λ nodes. (m : Defined) → IsLive (nodes_in self.now) m
            → is_called (nodes_in self.now) parent name.now m ≡ true → Member m (referents nodes.items)) }
    {
        let start = Hint {
            parent,
            number: Some(number_of(name)),
            guid: None,
        };
        let mut bearers = Vec::new(alloc);
        for hint in self.hints.range((Bound::Included(start), Bound::Unbounded)) {
            if !start.begins_run_of(hint) {
                return Ok(bearers);
            }
            if let Some(node) = self.called(parent, name, hint) {
                bearers.push(node)?;
            }
        }
        Ok(bearers)
    }

    /// The GUID of the object that holds a folded name in a place.
    fn holder_of_folded(
        &self,
        alloc: Global,
        parent: Guid,
        name: &Text,
    ) -> Result<Option<Guid>, NoMemory>
        requires tree { IsTree self.now }
        requires parent { IsParent (nodes_in self.now) parent }
        ensures { IfOk result (λ holder. (text : List ℕ)
            → name.now ≡ folded text → holder ≡ name_holder (nodes_in self.now) parent text) }
    {
        if is_lost_name(parent, name) {
            return Ok(Some(lost_and_found()));
        }
        let bearers = self.bearers(alloc, parent, name)?;
        Ok(guid_of(youngest(bearers.as_slice())))
    }

    /// Whether a place has another object than that of a GUID, or LostAndFound, of a folded name.
    fn is_taken_folded(
        &self,
        alloc: Global,
        guid: Guid,
        parent: Guid,
        name: &Text,
    ) -> Result<bool, NoMemory>
        requires tree { IsTree self.now }
        requires parent { IsParent (nodes_in self.now) parent }
        ensures { IfOk result (λ taken. (text : List ℕ)
            → name.now ≡ folded text → taken ≡ is_taken (nodes_in self.now) guid parent text) }
    {
        if is_lost_name(parent, name) {
            return Ok(true);
        }
        let bearers = self.bearers(alloc, parent, name)?;
        Ok(has_other(bearers.as_slice(), guid))
    }

    /// The GUID of the object that holds a text in a place, in whatever case it is written.
    pub fn holder(&self, alloc: Global, parent: Guid, text: &Text) -> Result<Option<Guid>, NoMemory>
        requires tree { IsTree self.now }
        requires parent { IsParent (nodes_in self.now) parent }
        ensures { IfOk result (λ holder. holder ≡ name_holder (nodes_in self.now) parent text.now) }
    {
        let name = fold_name(alloc, text.as_str())?;
        self.holder_of_folded(alloc, parent, &name)
    }

    /// Whether a place has another object than that of a GUID, or LostAndFound, of a name that folds alike.
    pub fn is_taken(
        &self,
        alloc: Global,
        guid: Guid,
        parent: Guid,
        text: &Text,
    ) -> Result<bool, NoMemory>
        requires tree { IsTree self.now }
        requires parent { IsParent (nodes_in self.now) parent }
        ensures { IfOk result (λ taken. taken ≡ is_taken (nodes_in self.now) guid parent text.now) }
    {
        let name = fold_name(alloc, text.as_str())?;
        self.is_taken_folded(alloc, guid, parent, &name)
    }
}
