ghost use Rattle.std.specs.Prelude.{◌≡◌, ◌++◌, IfOk, OnOk};
ghost use Rattle.vt_layout.specs.Fields.{field_bytes};
ghost use Rattle.resource_items.specs.Templates.{item_bytes, template_of};

use crate::resource_item::ResourceItem;
use std::alloc::Global;
use vt_layout::{Laid, put_rows, rows_of};
use vt_outside::{Bytes, OutOfMemory};

// How many bytes the longest item has.
const MOST: usize = 46;

// The End Tag (ACPI 6.5, 6.4.2.9). Its second byte is no checksum where it is 0.
const END_TAG: [u8; 2] = [0x79, 0];

/// Returns the resource template of `items`: their bytes, one after the other, and the End Tag. Its memory is taken from `alloc` at once,
/// beside that of the rows of one item at a time. Returns `OutOfMemory` when memory runs out.
pub fn resource_template(alloc: Global, items: &[ResourceItem]) -> Result<Bytes, OutOfMemory>
    ensures { IfOk result (λ bytes. bytes ≡ template_of items.now) }
{
    let room = items
        .len()
        .saturating_mul(MOST)
        .saturating_add(END_TAG.len());
    let mut bytes = Bytes::with_room(alloc, room)?;
    for item in items {
        put_item(item, &mut bytes)?;
    }
    bytes.extend(&END_TAG)?;
    Ok(bytes)
}

// Appends the bytes of an item. When memory runs out, `into` may end in a part of them.
fn put_item(item: &ResourceItem, into: &mut Bytes) -> Result<(), OutOfMemory>
    ensures { OnOk result (into.new ≡ into.old ++ item_bytes item.now) }
{
    match item {
        ResourceItem::Port(port) => put_laid(port, into),
        ResourceItem::Irq(irq) => put_laid(irq, into),
        ResourceItem::Memory(memory) => put_laid(memory, into),
        ResourceItem::Word(space) => put_laid(space, into),
        ResourceItem::Dword(space) => put_laid(space, into),
        ResourceItem::Qword(space) => put_laid(space, into),
    }
}

// Appends the bytes of a record, likewise.
fn put_laid<T: Laid>(laid: &T, into: &mut Bytes) -> Result<(), OutOfMemory>
    ensures { OnOk result (into.new ≡ into.old ++ field_bytes (T.fields laid.now)) }
{
    let rows = rows_of(into.allocator(), laid)?;
    put_rows(into, rows.rows())
}
