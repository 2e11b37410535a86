//! Values, and what a row contains.

ghost use Rattle.std.specs.Prelude.{◌≡◌, List, IfOk};

use crate::NoMemory;
use crate::guid::Guid;
use crate::text::{Octets, Text};
use std::alloc::Global;
use std::marker::Model;

/// A value of an attribute. A `Ref` names an object that need not be there.
pub enum Value {
    Text(Text),
    Number(i64),
    Flag(bool),
    Octets(Octets),
    Ref(Guid),
}

impl Drop for Value {
    fn drop(self) {
        match self {
            Value::Text(_text) => {}
            Value::Octets(_octets) => {}
            Value::Number(_) | Value::Flag(_) | Value::Ref(_) => {}
        }
    }
}

impl Value {
    /// An equal value.
    pub fn copy(&self, alloc: Global) -> Result<Value, NoMemory>
        ensures { IfOk result (λ copy. copy ≡ self.now) }
    {
        match self {
            Value::Text(text) => Ok(Value::Text(text.copy(alloc)?)),
            Value::Number(number) => Ok(Value::Number(*number)),
            Value::Flag(flag) => Ok(Value::Flag(*flag)),
            Value::Octets(octets) => Ok(Value::Octets(octets.copy(alloc)?)),
            Value::Ref(guid) => Ok(Value::Ref(*guid)),
        }
    }
}

/// The values of an attribute, in the order in which they were written.
#[derive(Drop)]
pub struct Values {
    list: Vec<Value>,
}

impl Model for Values {
    ghost use Rattle.std.specs.Prelude.{List};
    ghost use Rattle.adr_values.specs.declared.content.Value.{Value as Item};

    ghost Value = { List Item };

    ghost view = { λ v. v.list.items };
}

impl Values {
    pub fn of(items: Vec<Value>) -> Values
        ensures { result ≡ items.items }
    {
        Values { list: items }
    }

    pub fn items(&self) -> &[Value]
        ensures { result.now ≡ self.now }
    {
        self.list.as_slice()
    }

    pub fn copy(&self, alloc: Global) -> Result<Values, NoMemory>
        ensures { IfOk result (λ copy. copy ≡ self.now) }
    {
        Ok(Values {
            list: copy_values(alloc, self.list.as_slice())?,
        })
    }
}

/// Equal values, in their order.
fn copy_values(alloc: Global, values: &[Value]) -> Result<Vec<Value>, NoMemory>
    ensures { IfOk result (λ copy. copy.items ≡ values.now) }
{
    let mut copy = Vec::with_capacity(alloc, values.len())?;
    for value in values {
        copy.push(value.copy(alloc)?)?;
    }
    Ok(copy)
}

/// What a row contains.
pub enum Content {
    /// Of the attribute `class`.
    Class(u16),
    /// Of the attribute `name`; `parent` is the identifier of the object above.
    Name { text: Text, parent: Guid },
    /// Of the attribute `deleted`: the object is dead for good.
    Dead,
    /// Of every other attribute.
    Values(Values),
}

impl Drop for Content {
    fn drop(self) {
        match self {
            Content::Name {
                text: _text,
                parent: _,
            } => {}
            Content::Values(_values) => {}
            Content::Class(_) | Content::Dead => {}
        }
    }
}

impl Content {
    pub fn copy(&self, alloc: Global) -> Result<Content, NoMemory>
        ensures { IfOk result (λ copy. copy ≡ self.now) }
    {
        match self {
            Content::Class(class) => Ok(Content::Class(*class)),
            Content::Name { text, parent } => Ok(Content::Name {
                text: text.copy(alloc)?,
                parent: *parent,
            }),
            Content::Dead => Ok(Content::Dead),
            Content::Values(values) => Ok(Content::Values(values.copy(alloc)?)),
        }
    }
}
