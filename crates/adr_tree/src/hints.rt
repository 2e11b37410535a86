//! Hints of who has a parent, and of who has a name there. Whoever follows a hint reads the live object again.

ghost use Rattle.std.specs.Prelude.{◌≡◌, true, OnOk};
ghost use Rattle.std.specs.Bool.{OnFalse};
ghost use Rattle.std.specs.BTreeSet.{contains};
ghost use Rattle.adr_tree.specs.declared.hints.Hint.{Hint as Defined};
ghost use Rattle.adr_tree.specs.Hints.{child_hint, hint_order, is_in_run, name_hint, number_of};

use crate::NoMemory;
use adr_update::Node;
use adr_values::{Guid, Text};
use std::collections::BTreeSet;

/// A hint that an object may have a parent, as it was written, or with `number` that it may have a name of this number
/// there. The one without a GUID comes before the others of its run.
#[derive(Clone, Copy, PartialEq, Eq, PartialOrd, Ord)]
pub struct Hint {
    pub parent: Guid,
    pub number: Option<u64>,
    pub guid: Option<Guid>,
}

impl Hint {
    /// The hint of a child.
    pub(crate) fn of_child(node: &Node) -> Hint
        ensures { result ≡ child_hint node.now }
    {
        Hint {
            parent: node.parent(),
            number: None,
            guid: Some(node.object().guid),
        }
    }

    /// The hint of a name.
    pub(crate) fn of_name(node: &Node) -> Hint
        ensures { result ≡ name_hint node.now }
    {
        Hint {
            parent: node.parent(),
            number: Some(number_of(node.name())),
            guid: Some(node.object().guid),
        }
    }

    /// Whether an object has this hint.
    pub(crate) fn is_of(&self, node: &Node) -> bool
        ensures child { OnFalse result (child_hint node.now ≡ self.now → ⊥) }
        ensures name { OnFalse result (name_hint node.now ≡ self.now → ⊥) }
    {
        self.is_same(&Hint::of_child(node)) || self.is_same(&Hint::of_name(node))
    }

    fn is_same(&self, hint: &Hint) -> bool
        ensures { OnFalse result (hint.now ≡ self.now → ⊥) }
    {
        hint.cmp(self).is_eq()
    }

    /// Whether a hint is of the parent and the name of this one.
    pub(crate) fn begins_run_of(&self, hint: &Hint) -> bool
        ensures { result ≡ is_in_run self.now hint.now }
    {
        self.parent.cmp(&hint.parent).is_eq() && self.number.cmp(&hint.number).is_eq()
    }
}

/// A number of a text. Texts with different numbers differ.
pub(crate) fn number_of(text: &Text) -> u64
    ensures { result ≡ number_of text.now }
{
    let mut number: u64 = 0;
    for byte in text.items() {
        number = number
            .wrapping_mul(1_099_511_628_211)
            .wrapping_add(u64::from(*byte));
    }
    number
}

/// Keeps a hint.
pub(crate) fn remember(hints: &mut BTreeSet<Hint>, hint: Hint) -> Result<(), NoMemory>
    ensures more { (h : Defined) → contains hint_order hints.old h ≡ true
        → contains hint_order hints.new h ≡ true }
    ensures ok { OnOk result (contains hint_order hints.new hint ≡ true) }
{
    // The check knows the type of the field only once it is read.
    let _guid = hint.guid;
    hints.insert(hint)?;
    Ok(())
}
