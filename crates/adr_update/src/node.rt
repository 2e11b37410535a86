//! Live objects.

ghost use Rattle.std.specs.Prelude.{◌≡◌, IfOk};
ghost use Rattle.adr_values.specs.Folding.{folded};

use crate::NoMemory;
use adr_values::{Guid, LinkStamp, Oid, Text, fold_name};
use std::alloc::Global;
use std::marker::Model;

/// A live object with its class and its name as it was written.
pub struct Node {
    object: Oid,
    class: u16,
    text: Text,
    /// The text in the form in which names are compared.
    name: Text,
    parent: Guid,
    stamp: LinkStamp,
}

impl Drop for Node {
    fn drop(self) {
        let Node {
            object: _,
            class: _,
            text: _text,
            name: _name,
            parent: _,
            stamp: _,
        } = self;
    }
}

impl Model for Node {
    ghost use Rattle.adr_model.specs.Place.{Node as Defined};

    ghost Value = { Defined };

    ghost use Rattle.std.specs.Prelude.{◌≡◌};
    ghost use Rattle.adr_values.specs.Folding.{folded};

    ghost view = { λ n. record { object = n.object; class = n.class; text = n.text; parent = n.parent; stamp = n.stamp } };

    ghost invariant = { λ n. n.name ≡ folded n.text };
}

impl Node {
    pub fn new(
        alloc: Global,
        object: Oid,
        class: u16,
        text: Text,
        parent: Guid,
        stamp: LinkStamp,
    ) -> Result<Node, NoMemory>
        ensures { IfOk result (λ node.
            node ≡ record { object = object; class = class; text = text; parent = parent; stamp = stamp }) }
    {
        let name = fold_name(alloc, text.as_str())?;
        Ok(Node {
            object,
            class,
            text,
            name,
            parent,
            stamp,
        })
    }

    pub fn object(&self) -> Oid
        ensures { result ≡ self.now.object }
    {
        self.object
    }

    pub fn class(&self) -> u16
        ensures { result ≡ self.now.class }
    {
        self.class
    }

    /// The name as it was written.
    pub fn text(&self) -> &Text
        ensures { result.now ≡ self.now.text }
    {
        &self.text
    }

    /// The name in the form in which names are compared.
    pub fn name(&self) -> &Text
        ensures { result.now ≡ folded self.now.text }
    {
        &self.name
    }

    /// The GUID of the object above, as it was written.
    pub fn parent(&self) -> Guid
        ensures { result ≡ self.now.parent }
    {
        self.parent
    }

    /// The stamp of the name.
    pub fn stamp(&self) -> LinkStamp
        ensures { result ≡ self.now.stamp }
    {
        self.stamp
    }
}
