ghost use Rattle.std.specs.Prelude.{◌≡◌, ◌++◌, List as ListOf, map, Ok, Err, IfOk, OnOk};
ghost use Rattle.std.specs.List.{flat_map};
ghost use Rattle.vt_outside.specs.Readings.{Agrees};
ghost use Rattle.cfg_directory.specs.declared.item.Item.{Item};
ghost use Rattle.cfg_directory.specs.declared.container.ImageFault.TheVariants.{OutOfMemory as NoMemory};
ghost use Rattle.cfg_directory.specs.Container.{IsContainer, HasEntries, read_so, container_of, flag_of, reported};

use crate::directory::put_directory;
use crate::item::Item;
use crate::items::Items;
use crate::reader::ImageReader;
use std::alloc::Global;
use vt_outside::{Bytes, OutOfMemory};

/// Why bytes are no container. An index is that of the file's entry, from 0.
#[derive(Clone, Copy, Debug, PartialEq, Eq)]
pub enum ImageFault {
    /// They end within the number of files, the entries, the flags or the files' contents, or before one of them.
    Truncated,
    /// There are more than 1,024 files.
    TooMany,
    /// The field of a name holds no file name.
    BadName(u32),
    /// An entry before this one has the same name.
    TwiceNamed(u32),
    /// An entry before this one has the same selector.
    TwiceSelected(u32),
    /// A selector is below 0x20 or above 0x3FFF.
    BadSelect(u32),
    /// A flag is a byte other than 0 and 1.
    BadFlag(u32),
    /// Bytes follow the files.
    TrailingBytes,
    /// The files have more than 67,108,864 bytes in all, by the sizes in their entries.
    TooLarge,
    /// Memory ran out. The bytes may be a container or not.
    OutOfMemory,
}

impl From<OutOfMemory> for ImageFault {
    ghost from_gives = { λ _ fault. fault ≡ NoMemory };

    fn from(_error: OutOfMemory) -> ImageFault {
        ImageFault::OutOfMemory
    }
}

/// Reads the items that `bytes` are a container of, into memory from `alloc`. It fails where `bytes` are no container, with the
/// first fault of its parts in turn: the number of files, the entries, the flags, and the files' contents. That all entries are
/// there is tested before the first of them is read, and so it is with the flags. It fails with `OutOfMemory` where memory runs out.
/// Memory is needed only once the number of files is there, is at most 1,024, and so many entries are there.
pub fn read_image(alloc: Global, bytes: &[u8]) -> Result<Items, ImageFault>
    // Bytes that are accepted are a container of the items.
    ensures found { IfOk result (λ items. IsContainer bytes.now items) }
    // A container is accepted as its items, unless memory runs out.
    ensures only { (items : ListOf Item) → IsContainer bytes.now items → Agrees reported (λ read. read) result (Ok items) }
    // Other bytes are refused for the first fault of their parts.
    ensures exact { Agrees reported (λ read. read) result (read_so bytes.now) }
    // Memory is needed only once the entries are there.
    ensures no_memory { result ≡ Err NoMemory → HasEntries bytes.now }
{
    let mut reader = ImageReader::new(alloc);
    reader.feed(bytes)?;
    reader.finish()
}

/// Writes the container of `items`, in memory from `alloc`, with zeros in reserved fields and behind names. `read_image` reads
/// the same items from it, unless memory runs out. It fails with `OutOfMemory` only where memory runs out.
pub fn write_image(alloc: Global, items: &Items) -> Result<Bytes, OutOfMemory>
    ensures spelled { IfOk result (λ bytes. bytes ≡ container_of items.now) }
    ensures read_again { IfOk result (λ bytes. IsContainer bytes items.now) }
{
    let items = items.all();
    let mut bytes = Bytes::new(alloc);
    put_directory(&mut bytes, items)?;
    put_flags(&mut bytes, items)?;
    put_contents(&mut bytes, items)?;
    Ok(bytes)
}

// Adds the flag of each item.
fn put_flags(bytes: &mut Bytes, items: &[Item]) -> Result<(), OutOfMemory>
    ensures { OnOk result (bytes.new ≡ bytes.old ++ map (λ item. flag_of item.writable) items.now) }
{
    for item in items {
        bytes.push(u8::from(item.writable))?;
    }
    Ok(())
}

// Adds what each item holds.
fn put_contents(bytes: &mut Bytes, items: &[Item]) -> Result<(), OutOfMemory>
    ensures { OnOk result (bytes.new ≡ bytes.old ++ flat_map (λ item. item.bytes) items.now) }
{
    for item in items {
        bytes.extend(item.bytes.as_slice())?;
    }
    Ok(())
}
