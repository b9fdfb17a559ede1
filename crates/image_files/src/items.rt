//! The items of fw_cfg that files are.

ghost use Rattle.std.specs.Prelude.{◌≡◌, ◌+◌, ◌≤◌, ◌<◌, ◌∷◌, ◌++◌, [], length, IfOk, OnOk};
ghost use Rattle.cfg_directory.specs.Items.{HasNoName, AreNumberedFrom, total_size};
ghost use Rattle.image_files.specs.Items.{items_from, total_bytes, image_limit};
ghost use Rattle.image_files.specs.Linkable.{AreDistinct};

use crate::file::ImageFile;
use blob_holes::Parts;
use cfg_directory::Items;
use std::alloc::Global;
use vt_outside::OutOfMemory;

// The items of files, in their order.
pub(crate) fn items_of(alloc: Global, files: Vec<ImageFile>) -> Result<Items, OutOfMemory>
    requires distinct { AreDistinct files.items }
    requires few { length files.items ≤ 1024 }
    requires few_bytes { total_bytes files.items ≤ image_limit }
    ensures { IfOk result (λ items. items ≡ items_from 0x20 files.items) }
{
    let mut items = Items::new(alloc);
    for file in files {
        add_item(&mut items, file)?;
    }
    Ok(items)
}

// Adds the item of a file.
fn add_item(items: &mut Items, file: ImageFile) -> Result<(), OutOfMemory>
    requires name { HasNoName items.old file.name }
    requires numbered { AreNumberedFrom 0x20 items.old }
    requires few { length items.old < 1024 }
    requires small { total_size items.old + length file.blob.bytes ≤ image_limit }
    ensures { OnOk result (items.new ≡ items.old ++ items_from (0x20 + length items.old) (file ∷ [])) }
{
    let ImageFile {
        name,
        parts,
        writable,
        ..
    } = file;
    let Parts { bytes, .. } = parts;
    items.add(name, writable, bytes)?;
    Ok(())
}
