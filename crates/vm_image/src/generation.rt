//! The files of the id of a machine's generation, and the command that tells the host where the id is (QEMU, docs/specs/vmgenid.rst).

ghost use Rattle.std.specs.Prelude.{◌≡◌, ◌↔◌, ◌<◌, ◌≤◌, ◌++◌, length, Err, IfOk, OnOk};
ghost use Rattle.dsdt_terms.specs.Dsdt.{generation_file};
ghost use Rattle.loader_script.specs.LoaderName.{loader_name};
ghost use Rattle.cfg_directory.specs.Items.{total_size};
ghost use Rattle.image_files.specs.declared.image.ImageBuildFault.TheVariants.{ImageTooLarge};
ghost use Rattle.image_files.specs.Files.{whole};
ghost use Rattle.image_files.specs.Items.{items_of, image_limit};
ghost use Rattle.image_files.specs.Script.{script_of};
ghost use Rattle.image_files.specs.Linkable.{HasNoName, AreDistinct};
ghost use Rattle.vm_image.specs.Image.{placed_file, id_bytes, address_file, generation_part, write_address, telling};

use crate::names::address_name;
use crate::placed::{placed_file, without_holes};
use aml_devices::generation_name;
use dsdt_terms::ID_OFFSET;
use image_files::{Image, ImageBuildFault, ImageFile, link};
use loader_script::Entry;
use machine_desc::uuid_bytes;
use std::alloc::Global;
use vt_outside::{Bytes, OutOfMemory};
use zone_alloc::Zone;

// How many bytes the file of the id has, which is a page of memory, and how many of them are behind the id.
const PAGE_SIZE: usize = 4096;

const BEHIND_ID: usize = 4040;

// How many bytes the file has that tells the host where the id is: those of an address.
const ADDRESS_SIZE: u8 = 8;

// Adds the files of the id of a generation, where there is one: the page that holds it, and the file that the firmware writes.
pub(crate) fn push_generation(
    alloc: Global,
    files: &mut Vec<ImageFile>,
    generation: Option<u128>,
) -> Result<(), OutOfMemory>
    ensures { OnOk result (files.new.items ≡ files.old.items ++ generation_part generation) }
{
    let Some(id) = generation else {
        return Ok(());
    };
    let page = placed_page(alloc, id)?;
    let address = address_file(alloc)?;
    files.push(page)?;
    files.push(address)?;
    Ok(())
}

// The file of the page that holds the id, which goes to high memory.
fn placed_page(alloc: Global, id: u128) -> Result<ImageFile, OutOfMemory>
    ensures { IfOk result (λ file. file ≡ placed_file generation_file (whole (id_bytes id)) Zone.High 4096) }
{
    let parts = without_holes(alloc, id_page(alloc, id)?);
    Ok(placed_file(generation_name(), parts, Zone::High, 4096))
}

// The page that holds the id, and else zeros.
fn id_page(alloc: Global, id: u128) -> Result<Bytes, OutOfMemory>
    ensures { IfOk result (λ bytes. bytes ≡ id_bytes id) }
{
    let mut page = Bytes::with_room(alloc, PAGE_SIZE)?;
    page.extend(&[0; ID_OFFSET as usize])?;
    page.extend(&uuid_bytes(id))?;
    page.extend(&[0; BEHIND_ID])?;
    Ok(page)
}

// The file that the firmware writes, which has no place in memory.
fn address_file(alloc: Global) -> Result<ImageFile, OutOfMemory>
    ensures { IfOk result (λ file. file ≡ address_file) }
{
    let mut bytes = Bytes::new(alloc);
    bytes.extend(&[0; ADDRESS_SIZE as usize])?;
    let parts = without_holes(alloc, bytes);
    Ok(ImageFile::new(address_name(), parts, None, true))
}

// The command that tells the host where the id is.
fn write_address() -> Entry
    ensures { result ≡ write_address }
{
    Entry::WritePointer {
        dest: address_name(),
        src: generation_name(),
        dst_offset: 0,
        src_offset: ID_OFFSET,
        size: ADDRESS_SIZE,
    }
}

// Makes the image of the files of a machine. Behind all that links them, its script tells the host where the id of the generation is, where
// there is one.
pub(crate) fn link_telling(
    alloc: Global,
    files: Vec<ImageFile>,
    generation: Option<u128>,
) -> Result<Image, ImageBuildFault>
    requires distinct { AreDistinct files.items }
    requires others { HasNoName files.items loader_name }
    requires few { length files.items < 1024 }
    ensures items { IfOk result (λ image. image.items ≡ items_of files.items (telling generation)) }
    ensures script { IfOk result (λ image. image.script ≡ script_of files.items (telling generation)) }
    ensures small { OnOk result (total_size (items_of files.items (telling generation)) ≤ image_limit) }
    ensures large { (result ≡ Err ImageTooLarge) ↔ (image_limit < total_size (items_of files.items (telling generation))) }
{
    match generation {
        Some(_) => link(alloc, files, &[write_address()]),
        None => link(alloc, files, &[]),
    }
}
