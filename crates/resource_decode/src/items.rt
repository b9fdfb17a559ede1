ghost use Rattle.std.specs.Prelude.{◌≡◌, ◌≤◌, eqb, length, IfOk};
ghost use Rattle.std.specs.List.{starts_with};
ghost use Rattle.vt_layout.specs.Fields.{field_bytes};
ghost use Rattle.resource_items.specs.Templates.{item_bytes};
ghost use Rattle.resource_decode.specs.Items.{laid_at, first_item, behind_item, items_in};

use resource_items::{
    DwordSpace, FixedMemory, IoPort, IrqMask, QwordSpace, ResourceItem, WordSpace,
};
use std::alloc::Global;
use vt_layout::{Laid, RecordFault, put_rows, read, rows_of};
use vt_outside::{Bytes, List, OutOfMemory};

/// Returns the items that stand at the front of `bytes`, one after the other, up to the first that is of another form than those of this
/// program, as the End Tag is. The list takes its memory from `alloc`. Returns `OutOfMemory` when memory runs out.
pub fn items_in(alloc: Global, bytes: &[u8]) -> Result<List<ResourceItem>, OutOfMemory>
    ensures { IfOk result (λ items. items ≡ items_in bytes.now) }
{
    let mut items = List::new(alloc);
    let mut left = bytes;
    while let Some(item) = first_item(alloc, left)? {
        left = behind_item(left, &item);
        items.push(item)?;
    }
    Ok(items)
}

// The item as which bytes begin.
fn first_item(alloc: Global, bytes: &[u8]) -> Result<Option<ResourceItem>, OutOfMemory>
    ensures { IfOk result (λ item. item ≡ first_item bytes.now) }
{
    match bytes.first().copied().unwrap_or(0) {
        0x47 => Ok(laid_at::<IoPort>(alloc, bytes)?.map(ResourceItem::Port)),
        0x22 => Ok(laid_at::<IrqMask>(alloc, bytes)?.map(ResourceItem::Irq)),
        0x86 => Ok(laid_at::<FixedMemory>(alloc, bytes)?.map(ResourceItem::Memory)),
        0x88 => Ok(laid_at::<WordSpace>(alloc, bytes)?.map(ResourceItem::Word)),
        0x87 => Ok(laid_at::<DwordSpace>(alloc, bytes)?.map(ResourceItem::Dword)),
        0x8A => Ok(laid_at::<QwordSpace>(alloc, bytes)?.map(ResourceItem::Qword)),
        _ => Ok(None),
    }
}

// The record of a type as which bytes begin, if there is one.
fn laid_at<T: Laid>(alloc: Global, bytes: &[u8]) -> Result<Option<T>, OutOfMemory>
    ensures { IfOk result (λ laid. laid ≡ laid_at T.fields T.made bytes.now) }
{
    match read::<T>(alloc, bytes, &[]) {
        Ok(laid) => {
            if begin_as(alloc, bytes, &laid)? {
                Ok(Some(laid))
            } else {
                Ok(None)
            }
        }
        Err(RecordFault::OutOfMemory) => Err(OutOfMemory),
        Err(_) => Ok(None),
    }
}

// Tells whether bytes begin as a record is written.
fn begin_as<T: Laid>(alloc: Global, bytes: &[u8], laid: &T) -> Result<bool, OutOfMemory>
    ensures { IfOk result (λ is. is ≡ starts_with eqb bytes.now (field_bytes (T.fields laid.now))) }
{
    let rows = rows_of(alloc, laid)?;
    let mut written = Bytes::new(alloc);
    put_rows(&mut written, rows.rows())?;
    Ok(bytes.starts_with(written.as_slice()))
}

// What stands behind an item.
fn behind_item<'a>(bytes: &'a [u8], item: &ResourceItem) -> &'a [u8]
    requires { length (item_bytes item.now) ≤ length bytes.now }
    ensures { result.now ≡ behind_item item.now bytes.now }
{
    &bytes[size_of_item(item)..]
}

// How many bytes an item has.
fn size_of_item(item: &ResourceItem) -> usize
    ensures { result ≡ length (item_bytes item.now) }
{
    match item {
        ResourceItem::Irq(_) => 3,
        ResourceItem::Port(_) => 8,
        ResourceItem::Memory(_) => 12,
        ResourceItem::Word(_) => 16,
        ResourceItem::Dword(_) => 26,
        ResourceItem::Qword(_) => 46,
    }
}
