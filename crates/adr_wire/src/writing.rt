//! Composites are written field by field.

ghost use Rattle.std.specs.Prelude.{◌≡◌, ◌++◌, ◌<◌, ◌^◌, OnOk, All, length};
ghost use Rattle.std.specs.List.{flat_map};
ghost use Rattle.adr_wire.specs.Fields.{u8};
ghost use Rattle.adr_wire.specs.Composites.{IsShortValue, IsShortContent};
ghost use Rattle.adr_wire.specs.Composites as spelled;

use crate::writer::Writer;
use adr_values::{Content, Guid, LinkKey, LinkStamp, Mark, NoMemory, Oid, Stamp, Value, Vector};

/// The kind of a value, which says how it is read again.
fn kind_of(value: &Value) -> u8
    ensures { result ≡ spelled.kind_of value.now }
{
    match value {
        Value::Text(_) => 1,
        Value::Number(_) => 2,
        Value::Flag(_) => 3,
        Value::Octets(_) => 4,
        Value::Ref(_) => 5,
    }
}

impl Writer {
    pub fn write_mark(&mut self, value: &Mark) -> Result<(), NoMemory>
        ensures { OnOk result (self.new ≡ self.old ++ spelled.mark value.now) }
    {
        self.write_usn0(&value.obj)?;
        self.write_usn0(&value.prop)?;
        self.write_usn0(&value.seen)
    }

    pub fn write_oid(&mut self, value: &Oid) -> Result<(), NoMemory>
        ensures { OnOk result (self.new ≡ self.old ++ spelled.oid value.now) }
    {
        self.write_id(&value.guid)?;
        self.write_id(&value.birth.inv)?;
        self.write_usn(&value.birth.usn)
    }

    pub fn write_stamp(&mut self, value: &Stamp) -> Result<(), NoMemory>
        ensures { OnOk result (self.new ≡ self.old ++ spelled.stamp value.now) }
    {
        self.write_version(&value.version)?;
        self.write_u64(&value.time)?;
        self.write_id(&value.inv)?;
        self.write_usn(&value.usn)
    }

    pub fn write_value(&mut self, value: &Value) -> Result<(), NoMemory>
        requires { IsShortValue value.now }
        ensures { OnOk result (self.new ≡ self.old ++ spelled.value value.now) }
    {
        self.write_u8(&kind_of(value))?;
        match value {
            Value::Text(text) => self.write_text(text),
            Value::Number(number) => self.write_i64(number),
            Value::Flag(flag) => self.write_flag(flag),
            Value::Octets(octets) => self.write_octets(octets),
            Value::Ref(guid) => self.write_id(guid),
        }
    }

    /// The content of a row. The attribute, which says how it is read again, is not written.
    pub fn write_content(&mut self, value: &Content) -> Result<(), NoMemory>
        requires { IsShortContent value.now }
        ensures { OnOk result (self.new ≡ self.old ++ spelled.content value.now) }
    {
        match value {
            Content::Class(class) => self.write_u16(class),
            Content::Name { text, parent } => {
                self.write_id(parent)?;
                self.write_text(text)
            }
            Content::Dead => Ok(()),
            Content::Values(values) => self.write_values(values.items()),
        }
    }

    /// A count of values, and the values.
    fn write_values(&mut self, values: &[Value]) -> Result<(), NoMemory>
        requires count { length values.now < 2 ^ 8 }
        requires short { All IsShortValue values.now }
        ensures { OnOk result (self.new
            ≡ self.old ++ (u8 (length values.now) ++ flat_map spelled.value values.now)) }
    {
        self.write_u8(&(values.len() as u8))?;
        for value in values {
            self.write_value(value)?;
        }
        Ok(())
    }

    /// A row, of its parts.
    pub fn write_row_of(
        &mut self,
        attr: u16,
        stamp: &Stamp,
        content: &Content,
    ) -> Result<(), NoMemory>
        requires { IsShortContent content.now }
        ensures { OnOk result (self.new ≡ self.old ++ spelled.row (attr, stamp.now, content.now)) }
    {
        self.write_u16(&attr)?;
        self.write_stamp(stamp)?;
        self.write_content(content)
    }

    fn write_link_key(&mut self, value: &LinkKey) -> Result<(), NoMemory>
        ensures { OnOk result (self.new ≡ self.old ++ spelled.link_key value.now) }
    {
        self.write_oid(&value.from)?;
        self.write_u16(&value.attr)?;
        self.write_oid(&value.to)
    }

    fn write_link_stamp(&mut self, value: &LinkStamp) -> Result<(), NoMemory>
        ensures { OnOk result (self.new ≡ self.old ++ spelled.link_stamp value.now) }
    {
        self.write_u64(&value.created)?;
        self.write_stamp(&value.stamp)
    }

    /// A link item without its kind.
    pub fn write_link(&mut self, value: &(LinkKey, LinkStamp, bool)) -> Result<(), NoMemory>
        ensures { OnOk result (self.new ≡ self.old ++ spelled.link value.now) }
    {
        self.write_link_key(&value.0)?;
        self.write_link_stamp(&value.1)?;
        self.write_flag(&value.2)
    }

    pub fn write_vector(&mut self, value: &Vector) -> Result<(), NoMemory>
        ensures { OnOk result (self.new ≡ self.old ++ spelled.vector value.now) }
    {
        let cursors = value.cursors();
        self.write_u32(&(cursors.len() as u32))?;
        self.write_cursors(cursors)
    }

    /// Cursors, one behind the other.
    fn write_cursors(&mut self, cursors: &[(Guid, u64)]) -> Result<(), NoMemory>
        ensures { OnOk result (self.new ≡ self.old ++ flat_map spelled.cursor cursors.now) }
    {
        for cursor in cursors {
            self.write_id(&cursor.0)?;
            self.write_usn(&cursor.1)?;
        }
        Ok(())
    }
}
