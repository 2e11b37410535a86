//! The attributes of an entry as JSON.

ghost use Rattle.std.specs.Prelude.{◌≡◌, IfOk, OnOk};
ghost use Rattle.serde_json.specs.Data.{Data};
ghost use Rattle.serde_json.specs.View.{members_view, view};
ghost use Rattle.adr_json.specs.Text.{array_by, identifier_json, object_of, value_json, with_member};

use crate::values::{attribute_text, identifier_json, value_json};
use adr_call::Guids;
use adr_values::{Guid, NoMemory, Value, Values};
use serde_json::{Map, Value as Json};
use std::alloc::Global;

/// What has a form as JSON.
pub trait ToJson {
    ghost json: { Self → Data };

    fn to_json(&self, alloc: Global) -> Result<Json, NoMemory>
        ensures { IfOk result (λ value. view value ≡ json self.now) };
}

impl ToJson for Guid {
    ghost json = { identifier_json };

    fn to_json(&self, alloc: Global) -> Result<Json, NoMemory> {
        identifier_json(alloc, *self)
    }
}

impl ToJson for Value {
    ghost json = { value_json };

    fn to_json(&self, alloc: Global) -> Result<Json, NoMemory> {
        value_json(alloc, self)
    }
}

/// An array of these.
fn array_json<T: ToJson>(alloc: Global, list: &[T]) -> Result<Json, NoMemory>
    ensures { IfOk result (λ value. view value ≡ array_by T.json list.now) }
{
    let mut items = Vec::new(alloc);
    for item in list {
        items.push(item.to_json(alloc)?)?;
    }
    Ok(Json::Array(items))
}

// The identifiers at the other ends of a link attribute.
impl ToJson for Guids {
    ghost json = { array_by identifier_json };

    fn to_json(&self, alloc: Global) -> Result<Json, NoMemory> {
        array_json(alloc, self.items())
    }
}

// The values of an attribute.
impl ToJson for Values {
    ghost json = { array_by value_json };

    fn to_json(&self, alloc: Global) -> Result<Json, NoMemory> {
        array_json(alloc, self.items())
    }
}

/// Adds an attribute with what it has.
fn put_attribute<T: ToJson>(
    alloc: Global,
    members: &mut Map<String, Json>,
    attr: u16,
    what: &T,
) -> Result<(), NoMemory>
    ensures { OnOk result (members_view members.new.entries
        ≡ with_member T.json (members_view members.old.entries) (attr, what.now)) }
{
    let name = attribute_text(alloc, attr)?;
    let what = what.to_json(alloc)?;
    serde_json::put(members, alloc, name.as_str(), what)
}

/// An object of attributes, each with what it has.
pub fn object_json<T: ToJson>(alloc: Global, attributes: &[(u16, T)]) -> Result<Json, NoMemory>
    ensures { IfOk result (λ value. view value ≡ object_of T.json attributes.now) }
{
    let mut members = Map::new(alloc);
    for (attr, what) in attributes {
        put_attribute(alloc, &mut members, *attr, what)?;
    }
    Ok(Json::Object(members))
}
