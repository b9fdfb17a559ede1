//! The files of a machine's SMBIOS structures.

ghost use Rattle.std.specs.Prelude.{◌≡◌, ◌<◌, ◌++◌, IfOk, OnOk};
ghost use Rattle.machine_desc.specs.Rules.{IsAccepted};
ghost use Rattle.smbios_model.specs.MachineStructures.{structures_of};
ghost use Rattle.smbios_model.specs.Smbios.{AreStructures};
ghost use Rattle.image_files.specs.Files.{whole};
ghost use Rattle.vm_image.specs.Image.{anchor_blob, smbios_placed, structures_file, placed_file};
ghost use Rattle.cfg_directory.specs.SmbiosNames.{anchor_name, structures_name};

use crate::placed::{placed_file, without_holes};
use blob_holes::{Blob, append_rows};
use cfg_directory::{anchor_name, structures_name};
use image_files::ImageFile;
use machine_desc::Machine;
use smbios_build::{SmbiosBuildFault, build_smbios};
use smbios_model::{anchor_of, anchor_rows, structures_of};
use std::alloc::Global;
use vt_layout::Row;
use vt_outside::{Bytes, OutOfMemory};
use zone_alloc::Zone;

// Adds the files of the SMBIOS structures of `machine`, which is accepted, and of their anchor.
pub(crate) fn push_smbios(
    alloc: Global,
    files: &mut Vec<ImageFile>,
    machine: &Machine,
) -> Result<(), OutOfMemory>
    requires { IsAccepted machine.now }
    ensures files { OnOk result (files.new.items ≡ files.old.items ++ smbios_placed (structures_file machine.now)) }
    ensures read { OnOk result (AreStructures (structures_file machine.now) (structures_of machine.now)) }
{
    let bytes = structures_file(alloc, machine)?;
    let anchor = placed_anchor(alloc, bytes.len() as u32)?;
    files.push(placed_structures(alloc, bytes))?;
    files.push(anchor)?;
    Ok(())
}

// The file of structures, which goes to high memory. Their anchor goes to the F segment, where a guest looks for it (DSP0134, 5.2.2).
fn placed_structures(alloc: Global, bytes: Bytes) -> ImageFile
    ensures { result ≡ placed_file structures_name (whole bytes) Zone.High 16 }
{
    let parts = without_holes(alloc, bytes);
    placed_file(structures_name(), parts, Zone::High, 16)
}

// The structures of a machine as bytes, which are few.
fn structures_file(alloc: Global, machine: &Machine) -> Result<Bytes, OutOfMemory>
    requires { IsAccepted machine.now }
    ensures bytes { IfOk result (λ bytes. bytes ≡ structures_file machine.now) }
    ensures read { OnOk result (AreStructures (structures_file machine.now) (structures_of machine.now)) }
{
    let structures = structures_of(alloc, machine)?;
    match build_smbios(alloc, structures.as_slice()) {
        Ok(bytes) => Ok(bytes),
        Err(SmbiosBuildFault::OutOfMemory) => Err(OutOfMemory),
        Err(SmbiosBuildFault::TableTooLarge) => unreachable!(),
    }
}

// The file of the anchor of structures that have `size` bytes. It gets their address.
fn placed_anchor(alloc: Global, size: u32) -> Result<ImageFile, OutOfMemory>
    ensures { IfOk result (λ file. file ≡ placed_file anchor_name (anchor_blob size) Zone.Fseg 16) }
{
    let structures = Row::Pointer(8, structures_name(), 0);
    let mut file = Blob::new(alloc);
    append_rows(&mut file, &anchor_rows(&anchor_of(size), structures))?;
    Ok(placed_file(anchor_name(), file.finish(), Zone::Fseg, 16))
}
