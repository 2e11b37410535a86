//! The tables of the schemas, and the look-ups in them. A further schema is a further table, with its
//! arm in `table_numbered`.

ghost use Rattle.std.specs.Prelude.{◌≡◌};
ghost use Rattle.std.specs.Option.{option_copied, option_map};
ghost use Rattle.adr_values.specs.Table.{attribute_at, attribute_named, class_at, class_named, kind_at};
ghost use Rattle.adr_values.specs.Schemas.{schema_1, schema_2, schema_table, spoken};
ghost use Rattle.adr_checks.specs.View.{attribute_of, class_of, table_of};

use adr_values::Kind::{self, Back, Forward, Plain, Reserved};
use adr_values::Syntax::{Flag, Number, Octets, Ref, Text};

pub struct ClassEntry {
    pub number: u16,
    pub name: &'static str,
    pub must: &'static [u16],
    pub may: &'static [u16],
    pub superiors: &'static [u16],
}

pub struct AttributeEntry {
    pub number: u16,
    pub name: &'static str,
    pub kind: Kind,
}

pub struct TableData {
    pub number: u32,
    pub classes: &'static [ClassEntry],
    pub attributes: &'static [AttributeEntry],
}

/// The attributes of both schemas, ahead of more: those with values, and those of links.
#[rattlefmt::skip]
macro_rules! attributes {
    ($($value:expr,)* ; $($link:expr,)*) => {
        &[
            AttributeEntry { number: 1, name: "class", kind: Reserved },
            AttributeEntry { number: 2, name: "name", kind: Reserved },
            AttributeEntry { number: 3, name: "deleted", kind: Reserved },
            AttributeEntry { number: 10, name: "sAMAccountName", kind: Plain { syntax: Text { least: 1, greatest: 20 }, most: 1 } },
            AttributeEntry { number: 11, name: "displayName", kind: Plain { syntax: Text { least: 1, greatest: 256 }, most: 1 } },
            AttributeEntry { number: 12, name: "description", kind: Plain { syntax: Text { least: 1, greatest: 256 }, most: 8 } },
            AttributeEntry { number: 13, name: "mail", kind: Plain { syntax: Text { least: 1, greatest: 256 }, most: 1 } },
            AttributeEntry { number: 14, name: "telephoneNumber", kind: Plain { syntax: Text { least: 1, greatest: 64 }, most: 8 } },
            AttributeEntry { number: 15, name: "employeeNumber", kind: Plain { syntax: Number { least: 0, greatest: 999_999_999 }, most: 1 } },
            AttributeEntry { number: 16, name: "disabled", kind: Plain { syntax: Flag, most: 1 } },
            AttributeEntry { number: 17, name: "thumbprint", kind: Plain { syntax: Octets { least: 1, greatest: 64 }, most: 4 } },
            AttributeEntry { number: 18, name: "seeAlso", kind: Plain { syntax: Ref, most: 8 } },
            AttributeEntry { number: 19, name: "groupType", kind: Plain { syntax: Number { least: -2_147_483_648, greatest: 2_147_483_647 }, most: 1 } },
            AttributeEntry { number: 20, name: "location", kind: Plain { syntax: Text { least: 1, greatest: 128 }, most: 1 } },
            $($value,)*
            AttributeEntry { number: 30, name: "member", kind: Forward { back: 31 } },
            AttributeEntry { number: 31, name: "memberOf", kind: Back { forward: 30 } },
            AttributeEntry { number: 32, name: "manager", kind: Forward { back: 33 } },
            AttributeEntry { number: 33, name: "directReports", kind: Back { forward: 32 } },
            $($link,)*
        ]
    };
}

#[rattlefmt::skip]
static SCHEMA_1: TableData = TableData {
    number: 1,
    classes: &[
        ClassEntry { number: 3, name: "organizationalUnit", must: &[], may: &[12, 18, 20, 32], superiors: &[1, 3] },
        ClassEntry { number: 4, name: "container", must: &[], may: &[12], superiors: &[1, 3, 4] },
        ClassEntry { number: 5, name: "user", must: &[10], may: &[11, 12, 13, 14, 15, 16, 17, 18, 32], superiors: &[1, 3, 4] },
        ClassEntry { number: 6, name: "group", must: &[19], may: &[10, 12, 13, 18, 30], superiors: &[1, 3, 4] },
        ClassEntry { number: 7, name: "computer", must: &[10], may: &[12, 16, 17, 20], superiors: &[1, 3, 4] },
    ],
    attributes: attributes![;],
};

#[rattlefmt::skip]
static SCHEMA_2: TableData = TableData {
    number: 2,
    classes: &[
        ClassEntry { number: 3, name: "organizationalUnit", must: &[], may: &[12, 18, 20, 32, 34], superiors: &[1, 3] },
        ClassEntry { number: 4, name: "container", must: &[], may: &[12], superiors: &[1, 3, 4] },
        ClassEntry { number: 5, name: "user", must: &[10], may: &[11, 12, 13, 14, 15, 16, 17, 18, 21, 22, 23, 32], superiors: &[1, 3, 4] },
        ClassEntry { number: 6, name: "group", must: &[19], may: &[10, 12, 13, 18, 30, 34], superiors: &[1, 3, 4] },
        ClassEntry { number: 7, name: "computer", must: &[10], may: &[12, 16, 17, 20, 34], superiors: &[1, 3, 4] },
        ClassEntry { number: 8, name: "contact", must: &[], may: &[11, 12, 13, 14, 18, 21, 32], superiors: &[1, 3, 4] },
    ],
    attributes: attributes![
        AttributeEntry { number: 21, name: "title", kind: Plain { syntax: Text { least: 1, greatest: 128 }, most: 1 } },
        AttributeEntry { number: 22, name: "department", kind: Plain { syntax: Text { least: 1, greatest: 64 }, most: 1 } },
        AttributeEntry { number: 23, name: "accountExpires", kind: Plain { syntax: Number { least: 0, greatest: 9_223_372_036_854_775_807 }, most: 1 } },
        ;
        AttributeEntry { number: 34, name: "managedBy", kind: Forward { back: 35 } },
        AttributeEntry { number: 35, name: "managedObjects", kind: Back { forward: 34 } },
    ],
};

fn table_1() -> &'static TableData
    ensures { table_of result.now ≡ schema_1 }
{
    &SCHEMA_1
}

fn table_2() -> &'static TableData
    ensures { table_of result.now ≡ schema_2 }
{
    &SCHEMA_2
}

/// The table of a schema's number.
pub fn table_numbered(number: u32) -> Option<&'static TableData>
    ensures { option_map table_of (option_copied result) ≡ schema_table number }
{
    match number {
        1 => Some(table_1()),
        2 => Some(table_2()),
        _ => None,
    }
}

/// The schema that names are read and written by.
pub fn spoken_table() -> &'static TableData
    ensures { table_of result.now ≡ spoken }
{
    table_2()
}

impl TableData {
    /// What an attribute holds.
    pub fn kind(&self, attr: u16) -> Option<Kind>
        ensures { result ≡ kind_at (table_of self.now) attr }
    {
        let attribute = self.attribute(attr)?;
        Some(attribute.kind)
    }

    pub fn class(&self, number: u16) -> Option<&'static ClassEntry>
        ensures { option_map class_of (option_copied result) ≡ class_at (table_of self.now) number }
    {
        for class in self.classes {
            if class.number == number {
                return Some(class);
            }
        }
        None
    }

    pub fn class_named(&self, name: &[u8]) -> Option<&'static ClassEntry>
        ensures { option_map class_of (option_copied result) ≡ class_named (table_of self.now) name.now }
    {
        for class in self.classes {
            if class.name.as_bytes() == name {
                return Some(class);
            }
        }
        None
    }

    pub fn attribute(&self, number: u16) -> Option<&'static AttributeEntry>
        ensures { option_map attribute_of (option_copied result) ≡ attribute_at (table_of self.now) number }
    {
        for attribute in self.attributes {
            if attribute.number == number {
                return Some(attribute);
            }
        }
        None
    }

    pub fn attribute_named(&self, name: &[u8]) -> Option<&'static AttributeEntry>
        ensures { option_map attribute_of (option_copied result) ≡ attribute_named (table_of self.now) name.now }
    {
        for attribute in self.attributes {
            if attribute.name.as_bytes() == name {
                return Some(attribute);
            }
        }
        None
    }
}
