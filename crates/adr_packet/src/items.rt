//! The items of a reply.

ghost use Rattle.std.specs.Prelude.{◌≡◌, ◌++◌, ◌<◌, ◌^◌, All, OnOk, length};
ghost use Rattle.adr_wire.specs.Reading.{Gives, GivesAs};
ghost use Rattle.adr_image.specs.Changes.{AreShort};
ghost use Rattle.adr_packet.specs.Parts as parts;

use adr_cycle::{Item, NoMemory};
use adr_image::{read_item, write_item};
use adr_wire::{Reader, WireRefusal, Writer};
use std::alloc::Global;

/// An item.
fn read_one(reader: &mut Reader<'_>, alloc: Global) -> Result<Item, WireRefusal>
    ensures { Gives result reader.new (parts.item_at reader.old) }
{
    read_item(reader, alloc)
}

/// A count, and so many items.
#[tactic(auto, unfolding(crate::specs::Parts::items_at))]
pub fn read_items(reader: &mut Reader<'_>, alloc: Global) -> Result<Vec<Item>, WireRefusal>
    ensures { GivesAs (λ items. items.items) result reader.new (parts.items_at reader.old) }
{
    let count = reader.read_u32()?;
    let mut items = Vec::new(alloc);
    for _ in 0..count {
        let item = read_one(reader, alloc)?;
        items.push(item)?;
    }
    Ok(items)
}

pub fn write_items(writer: &mut Writer, items: &[Item]) -> Result<(), NoMemory>
    requires few { length items.now < 2 ^ 32 }
    requires short { All (λ item. AreShort item.rows) items.now }
    ensures { OnOk result (writer.new ≡ writer.old ++ parts.items items.now) }
{
    writer.write_u32(&(items.len() as u32))?;
    for item in items {
        write_item(writer, &item.unit(), item.rows())?;
    }
    Ok(())
}
