//! Edits of the tree, which are made whole or not at all: room first, and then the edits, which can't fail.

ghost use Rattle.std.specs.Prelude.{◌≡◌, Some, None, IfSome, OnOk, cond, if◌then◌else◌};
ghost use Rattle.std.specs.Bool.{OnFalse};
ghost use Rattle.adr_model.specs.Place.{Node as Defined, node_at};
ghost use Rattle.adr_model.specs.Update.{Identifier, same_identifier};
ghost use Rattle.adr_tree.specs.Edits.{AreOwn, edited, put_at};
ghost use Rattle.adr_tree.specs.Hints.{child_hint, name_hint};
ghost use Rattle.adr_tree.specs.Tree.{HasRoom, HaveRoom, IsLive, IsTree, KeepsRoom, nodes_in};

use crate::NoMemory;
use crate::breakers::{clear, closer_if, has_child, has_child_if, opener_if, set};
use crate::edit::Edit;
use crate::hints::{Hint, remember};
use crate::slots::{empty, fill, free, reserve_flag, reserve_slot};
use crate::tree::Tree;
use adr_update::Node;
use adr_values::Guid;

impl Tree {
    /// Takes the live object of a GUID out.
    fn take_out(&mut self, guid: Guid) -> Option<Node>
        requires { IsTree self.old }
        ensures tree { IsTree self.new }
        ensures nodes { (g : Identifier) → node_at (nodes_in self.new) g
            ≡ cond (same_identifier guid g) None (node_at (nodes_in self.old) g) }
        ensures more { KeepsRoom self.old self.new }
    {
        let old = empty(&mut self.slots, guid);
        if old.is_none() {
            return old;
        }
        let is_parent = has_child_if(&self.slots, &self.hints, &old);
        let breaker = opener_if(&self.slots, &self.flags, is_parent, &old);
        clear(&mut self.flags, breaker);
        old
    }

    /// Puts a live object in.
    fn put_in(&mut self, node: Node)
        requires tree { IsTree self.old }
        requires fresh { node_at (nodes_in self.old) node.object.guid ≡ None }
        requires room { HasRoom self.old node }
        ensures tree { IsTree self.new }
        ensures nodes { (g : Identifier) → node_at (nodes_in self.new) g
            ≡ cond (same_identifier node.object.guid g) (Some node) (node_at (nodes_in self.old) g) }
        ensures more { KeepsRoom self.old self.new }
    {
        let is_parent = has_child(&self.slots, &self.hints, &node);
        let breaker = closer_if(&self.slots, &self.flags, is_parent, &node);
        set(&mut self.flags, breaker);
        fill(&mut self.slots, node);
    }

    /// Puts a live object in, if there is one.
    fn put_in_if(&mut self, node: Option<Node>)
        requires tree { IsTree self.old }
        requires fresh { IfSome node (λ n. node_at (nodes_in self.old) n.object.guid ≡ None) }
        requires room { IfSome node (HasRoom self.old) }
        ensures tree { IsTree self.new }
        ensures nodes { (g : Identifier) → node_at (nodes_in self.new) g
            ≡ put_at node g (node_at (nodes_in self.old) g) }
        ensures more { KeepsRoom self.old self.new }
    {
        match node {
            Some(node) => self.put_in(node),
            None => {}
        }
    }

    /// Makes an edit, which keeps what was there before.
    fn exchange(&mut self, edit: &mut Edit)
        requires tree { IsTree self.old }
        requires own { IfSome edit.old.node (λ n. n.object.guid ≡ edit.old.guid) }
        requires room { IfSome edit.old.node (HasRoom self.old) }
        ensures tree { IsTree self.new }
        ensures nodes { (g : Identifier) → node_at (nodes_in self.new) g
            ≡ (if same_identifier edit.old.guid g then edit.old.node else node_at (nodes_in self.old) g) }
        ensures more { KeepsRoom self.old self.new }
    {
        let node = edit.node.take();
        let old = self.take_out(edit.guid);
        self.put_in_if(node);
        edit.node = old;
    }

    /// Makes edits, one after the other. Each keeps what was there before.
    fn exchange_all(&mut self, edits: &mut [Edit])
        requires tree { IsTree self.old }
        requires own { AreOwn edits.old }
        requires room { HaveRoom self.old edits.old }
        ensures tree { IsTree self.new }
        ensures nodes { (g : Identifier) → node_at (nodes_in self.new) g
            ≡ edited edits.old g (node_at (nodes_in self.old) g) }
    {
        for edit in edits.iter_mut() {
            self.exchange(edit);
        }
    }

    /// Whether the live object of a hint has it.
    fn needs(&self, hint: &Hint) -> bool
        requires { IsTree self.now }
        ensures child { OnFalse result ((n : Defined) → IsLive (nodes_in self.now) n → child_hint n ≡ hint.now → ⊥) }
        ensures name { OnFalse result ((n : Defined) → IsLive (nodes_in self.now) n → name_hint n ≡ hint.now → ⊥) }
    {
        match self.at_hint(hint) {
            Some(node) => hint.is_of(node),
            None => false,
        }
    }

    /// Forgets a hint that no live object has.
    fn forget_hint(&mut self, hint: &Hint)
        requires { IsTree self.old }
        ensures tree { IsTree self.new }
        ensures nodes { nodes_in self.new ≡ nodes_in self.old }
    {
        if !self.needs(hint) {
            self.hints.remove(hint);
        }
    }

    /// Frees the slot and the flag of a GUID without a live object.
    fn free(&mut self, guid: Guid)
        requires { IsTree self.old }
        ensures tree { IsTree self.new }
        ensures nodes { nodes_in self.new ≡ nodes_in self.old }
    {
        if free(&mut self.slots, guid) {
            self.flags.remove(&guid);
        }
    }

    /// Forgets what was only of a live object that is gone, if there was one: an edit keeps it.
    fn forget(&mut self, edit: &Edit)
        requires { IsTree self.old }
        ensures tree { IsTree self.new }
        ensures nodes { nodes_in self.new ≡ nodes_in self.old }
    {
        if let Some(old) = &edit.node {
            self.forget_hint(&Hint::of_child(old));
            self.forget_hint(&Hint::of_name(old));
            self.free(edit.guid);
        }
    }

    /// Forgets what was only of live objects that are gone.
    fn forget_all(&mut self, edits: &[Edit])
        requires { IsTree self.old }
        ensures tree { IsTree self.new }
        ensures nodes { nodes_in self.new ≡ nodes_in self.old }
    {
        for edit in edits {
            self.forget(edit);
        }
    }

    /// Makes room for a live object. Nobody sees it.
    fn reserve_node(&mut self, node: &Node) -> Result<(), NoMemory>
        requires { IsTree self.old }
        ensures nodes { nodes_in self.new ≡ nodes_in self.old }
        ensures tree { IsTree self.new }
        ensures more { KeepsRoom self.old self.new }
        ensures ok { OnOk result (HasRoom self.new node.now) }
    {
        let guid = node.object().guid;
        remember(&mut self.hints, Hint::of_child(node))?;
        remember(&mut self.hints, Hint::of_name(node))?;
        reserve_flag(&mut self.flags, guid)?;
        reserve_slot(&mut self.slots, guid)
    }

    /// Makes room for an edit. Nobody sees it.
    fn reserve_edit(&mut self, edit: &Edit) -> Result<(), NoMemory>
        requires { IsTree self.old }
        ensures nodes { nodes_in self.new ≡ nodes_in self.old }
        ensures tree { IsTree self.new }
        ensures more { KeepsRoom self.old self.new }
        ensures ok { OnOk result (IfSome edit.now.node (HasRoom self.new)) }
    {
        match &edit.node {
            Some(node) => self.reserve_node(node),
            None => Ok(()),
        }
    }

    /// Makes room for edits. Nobody sees it.
    pub fn reserve(&mut self, edits: &[Edit]) -> Result<(), NoMemory>
        requires { IsTree self.old }
        ensures nodes { nodes_in self.new ≡ nodes_in self.old }
        ensures tree { IsTree self.new }
        ensures ok { OnOk result (HaveRoom self.new edits.now) }
    {
        for edit in edits {
            self.reserve_edit(edit)?;
        }
        Ok(())
    }

    /// Makes edits for which there is room, one after the other.
    pub fn apply(&mut self, edits: Vec<Edit>)
        requires tree { IsTree self.old }
        requires own { AreOwn edits.items }
        requires room { HaveRoom self.old edits.items }
        ensures tree { IsTree self.new }
        ensures nodes { (g : Identifier) → node_at (nodes_in self.new) g
            ≡ edited edits.items g (node_at (nodes_in self.old) g) }
    {
        let mut edits = edits;
        self.exchange_all(edits.as_mut_slice());
        self.forget_all(edits.as_slice());
    }
}
