ghost use Rattle.std.specs.Prelude.{◌≡◌, ◌+◌, ◌*◌, ◌<◌, ◌^◌, ◌++◌, length, IfOk, OnOk};
ghost use Rattle.std.specs.List.{AllByRecursion};
ghost use Rattle.vt_outside.specs.Name.{IsName};
ghost use Rattle.vt_layout.specs.Rows.{IsRow};
ghost use Rattle.cfg_directory.specs.Items.{IsItems, directory_of, entry_rows, entry_bytes};

use crate::item::Item;
use crate::items::Items;
use std::alloc::Global;
use vt_layout::{Row, put_rows};
use vt_outside::{Bytes, Name, OutOfMemory};

/// Writes the directory of `items`, which a device gives as item 0x0019 (QEMU, docs/specs/fw_cfg), in memory from `alloc`: the
/// number of files, high byte first, and an entry of 64 bytes for each. It fails with `OutOfMemory` only where memory runs out.
pub fn directory_bytes(alloc: Global, items: &Items) -> Result<Bytes, OutOfMemory>
    ensures directory { IfOk result (λ bytes. bytes ≡ directory_of items.now) }
    ensures size { IfOk result (λ bytes. length bytes ≡ 4 + 64 * length items.now) }
    ensures names { IfOk result (λ _. AllByRecursion (λ item. IsName item.name) items.now) }
{
    let mut bytes = Bytes::new(alloc);
    put_directory(&mut bytes, items.all())?;
    Ok(bytes)
}

/// Adds the directory of items.
pub(crate) fn put_directory(bytes: &mut Bytes, items: &[Item]) -> Result<(), OutOfMemory>
    requires { IsItems items.now }
    ensures directory { OnOk result (bytes.new ≡ bytes.old ++ directory_of items.now) }
    ensures names { OnOk result (AllByRecursion (λ item. IsName item.name) items.now) }
{
    bytes.extend(&(items.len() as u32).to_be_bytes())?;
    for item in items {
        put_entry(bytes, item)?;
    }
    Ok(())
}

// Adds the entry of an item.
fn put_entry(bytes: &mut Bytes, item: &Item) -> Result<(), OutOfMemory>
    requires { length item.now.bytes < 2 ^ 32 }
    ensures entry { OnOk result (bytes.new ≡ bytes.old ++ entry_bytes item.now) }
    ensures name { IsName item.now.name }
{
    put_rows(
        bytes,
        &entry_rows(item.bytes.len() as u32, item.select, &item.name),
    )
}

/// Makes the rows of an entry of the directory (QEMU, docs/specs/fw_cfg), by which it is written and read.
pub(crate) fn entry_rows(size: u32, select: u16, name: &Name) -> [Row; 4]
    ensures rows { result ≡ entry_rows size select name.now }
    ensures are_rows { AllByRecursion IsRow result }
    ensures name { IsName name.now }
{
    [
        Row::BigEndian(4, u64::from(size)),
        Row::BigEndian(2, u64::from(select)),
        Row::Reserved(2),
        Row::of_name(name),
    ]
}
