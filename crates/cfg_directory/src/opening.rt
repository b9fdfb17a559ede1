//! The entries and the flags of a head, once they are there, and the files that they open.

ghost use Rattle.std.specs.Prelude.{◌≡◌, ◌≢◌, ◌+◌, ◌*◌, ◌<◌, ◌≤◌, [], Err, IfOk, IfErr, length, map};
ghost use Rattle.cfg_directory.specs.declared.container.ImageFault.TheVariants.{OutOfMemory as NoMemory};
ghost use Rattle.cfg_directory.specs.Container.{item_so, items_so};
ghost use Rattle.cfg_directory.specs.Parts.{is_set};
ghost use Rattle.cfg_directory.specs.Items.{bytes_limit};
ghost use Rattle.cfg_directory.specs.Held.{HasCount, HasListed, IsOpened, IsRefusal, sizes_of};

use crate::container::ImageFault;
use crate::item::Item;
use crate::listed::Listed;
use crate::listing::ENTRY_SIZE;
use crate::reading::{read_directory, read_flags, total_of};
use std::alloc::Global;
use vt_outside::{Bytes, List, OutOfMemory};

// How many bytes the files may have in all.
const BYTES_LIMIT: u64 = 67_108_864;

/// Reads the entries of a head that ends with them.
pub(crate) fn read_entries(
    alloc: Global,
    count: u32,
    head: &[u8],
) -> Result<List<Listed>, ImageFault>
    requires counted { HasCount head.now count }
    requires there { 4 + 64 * count ≤ length head.now }
    ensures ok { IfOk result (HasListed head.now count) }
    ensures err { IfErr result (IsRefusal head.now) }
{
    let (_, entries) = head.split_at(4);
    let (listed, _) = read_directory(alloc, count, entries)?;
    Ok(listed)
}

/// Makes the files of a whole head, which have no bytes yet.
pub(crate) fn opened_items(
    alloc: Global,
    count: u32,
    head: &[u8],
    listed: &[Listed],
) -> Result<List<Item>, ImageFault>
    requires listed { HasListed head.now count listed.now }
    requires there { length head.now ≡ 4 + 65 * count }
    ensures ok { IfOk result (IsOpened head.now listed.now) }
    ensures err { IfErr result (IsRefusal head.now) }
    ensures sure { bytes_limit < sizes_of listed.now → result ≢ Err NoMemory }
{
    let (_, flags) = head.split_at(4 + ENTRY_SIZE * count as usize);
    let (flags, _) = read_flags(count, flags)?;
    if total_of(listed) > BYTES_LIMIT {
        return Err(ImageFault::TooLarge);
    }
    Ok(empty_items(alloc, listed, flags)?)
}

// The files of entries and flags, with no bytes.
fn empty_items(alloc: Global, listed: &[Listed], flags: &[u8]) -> Result<List<Item>, OutOfMemory>
    requires { length flags.now ≡ length listed.now }
    ensures { IfOk result (λ items. items ≡ items_so listed.now (map is_set flags.now) []) }
{
    let mut items = List::new(alloc);
    for (index, entry) in listed.iter().enumerate() {
        items.push(empty_item(alloc, entry, flags[index]))?;
    }
    Ok(items)
}

// The file of an entry and a flag, with no bytes.
fn empty_item(alloc: Global, entry: &Listed, flag: u8) -> Item
    ensures { result ≡ item_so entry.now (is_set flag) [] }
{
    Item {
        name: entry.name,
        select: entry.select,
        writable: flag == 1,
        bytes: Bytes::new(alloc),
    }
}
