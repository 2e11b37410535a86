//! A new object, and its rows.

ghost use Rattle.std.specs.Prelude.{◌≡◌, ◌++◌, IfOk, OnOk};
ghost use Rattle.adr_values.specs.declared.content.Content.TheVariants.{Name as named};
ghost use Rattle.adr_model.specs.Write.{new_rows, row};
ghost use Rattle.adr_origin.specs.GivenRows.{given_rows};

use crate::NoMemory;
use adr_state::{CLASS, Key, NAME, Said, Update};
use adr_values::{Assignments, Content, Guid, LinkStamp, Oid, Text};
use std::alloc::Global;

/// An object that a client adds.
#[derive(Drop)]
pub struct NewObject<'a> {
    pub guid: Guid,
    pub class: u16,
    /// The GUID of the object above, or of the root or LostAndFound.
    pub parent: Guid,
    /// The name.
    pub text: &'a Text,
    /// What its attributes hold.
    pub values: &'a Assignments,
}

/// A row of an object.
pub fn row(object: &Oid, stamp: &LinkStamp, attr: u16, content: Content) -> Update
    ensures { result ≡ row object.now stamp.now attr content }
{
    let key = Key::Row {
        object: *object,
        attr,
    };
    Update::new(key, *stamp, Said::Holds(content))
}

/// A name under a parent, as the content of a row.
pub fn name_content(alloc: Global, text: &Text, parent: Guid) -> Result<Content, NoMemory>
    ensures { IfOk result (λ content. content ≡ named text.now parent) }
{
    Ok(Content::Name {
        text: text.copy(alloc)?,
        parent,
    })
}

/// Adds the rows of the attributes that are given values, rising.
fn push_given(
    alloc: Global,
    rows: &mut Vec<Update>,
    object: &Oid,
    stamp: &LinkStamp,
    values: &Assignments,
) -> Result<(), NoMemory>
    ensures { OnOk result (rows.new.items ≡ rows.old.items ++ given_rows object.now stamp.now values.now) }
{
    'attributes: for (attr, list) in values.entries() {
        let content = Content::Values(list.copy(alloc)?);
        rows.push(row(object, stamp, *attr, content))?;
    }
    Ok(())
}

/// The rows of a new object: its class, its name and each attribute that is given, all with one stamp.
pub fn new_rows(
    alloc: Global,
    object: &Oid,
    stamp: &LinkStamp,
    new: &NewObject<'_>,
) -> Result<Vec<Update>, NoMemory>
    ensures { IfOk result (λ rows.
        rows.items
        ≡ new_rows object.now stamp.now new.now.class new.now.parent new.now.text.now new.now.values.now) }
{
    let name = name_content(alloc, new.text, new.parent)?;
    let class = Content::Class(new.class);
    let mut rows = vec![in alloc;
        row(object, stamp, CLASS, class),
        row(object, stamp, NAME, name),
    ]?;
    push_given(alloc, &mut rows, object, stamp, new.values)?;
    Ok(rows)
}
