//! The files of a machine's ACPI tables.

ghost use Rattle.std.specs.Prelude.{◌≡◌, ◌++◌, Some, IfOk, OnOk};
ghost use Rattle.std.specs.List.{AllByRecursion};
ghost use Rattle.machine_desc.specs.Rules.{IsAccepted};
ghost use Rattle.acpi_model.specs.Header.{FitsHead, head_of};
ghost use Rattle.acpi_model.specs.Acpi.{IsWritable, tables_of};
ghost use Rattle.acpi_append.specs.Tables.{with_xsdt};
ghost use Rattle.blob_holes.specs.Grown.{IsLinkable};
ghost use Rattle.vm_image.specs.Image.{acpi_part, acpi_placed, acpi_files, tables_begin, with_tables, places_in, xsdt_place};
ghost use Rattle.vm_image.specs.AcpiHeld.{AreAcpiKnown, IsAcpiImage, IsTablesFile, AreAppended, AreFew};

use crate::names::{acpi_tables_name, rsdp_name};
use crate::placed::placed_file;
use acpi_append::{put_facs, put_rsdp, put_table, put_xsdt};
use acpi_model::{Head, Table, head_of, initial_facs, tables_of};
use aml_devices::append_dsdt;
use blob_holes::{Blob, Parts};
use image_files::ImageFile;
use machine_desc::{Acpi, Machine};
use std::alloc::Global;
use std::marker::Model;
use vt_outside::{List, OutOfMemory};
use zone_alloc::Zone;

/// The files of a machine's ACPI tables, with their holes.
#[derive(Drop)]
pub(crate) struct AcpiFiles {
    pub(crate) rsdp: Parts,
    pub(crate) tables: Parts,
}

impl Model for AcpiFiles {
    ghost use Rattle.vm_image.specs.Image.{AcpiImage};

    ghost Value = { AcpiImage };

    ghost view = { λ f. record {
      rsdp = record { bytes = f.rsdp.bytes; pointers = f.rsdp.pointers; sums = f.rsdp.sums };
      tables = record { bytes = f.tables.bytes; pointers = f.tables.pointers; sums = f.tables.sums };
    } };
}

// Adds the files of the ACPI tables of `machine`, which is accepted, where it has some.
pub(crate) fn push_acpi(
    alloc: Global,
    files: &mut Vec<ImageFile>,
    machine: &Machine,
) -> Result<(), OutOfMemory>
    requires { IsAccepted machine.now }
    ensures files { OnOk result (files.new.items ≡ files.old.items ++ acpi_part machine.now machine.now.acpi) }
    ensures known { OnOk result (AreAcpiKnown machine.now machine.now.acpi) }
{
    match &machine.acpi {
        Some(acpi) => {
            let tables = tables_of(alloc, machine, acpi)?;
            let begin = begin_tables(alloc, machine, acpi)?;
            push_placed(files, files_of(alloc, begin, acpi, tables.as_slice())?)
        }
        None => Ok(()),
    }
}

// Adds files of ACPI tables: the tables go to high memory, and the RSDP to the F segment, where a guest looks for it (ACPI 6.5,
// 5.2.5.1).
fn push_placed(files: &mut Vec<ImageFile>, acpi: AcpiFiles) -> Result<(), OutOfMemory>
    ensures { OnOk result (files.new.items ≡ files.old.items ++ acpi_placed acpi) }
{
    let AcpiFiles { rsdp, tables } = acpi;
    files.push(placed_file(acpi_tables_name(), tables, Zone::High, 64))?;
    files.push(placed_file(rsdp_name(), rsdp, Zone::Fseg, 16))?;
    Ok(())
}

// What the file of the tables of `machine`, which is accepted, begins with, in front of those that its XSDT names. `acpi` is their maker.
fn begin_tables(alloc: Global, machine: &Machine, acpi: &Acpi) -> Result<Blob, OutOfMemory>
    requires accepted { IsAccepted machine.now }
    requires maker { machine.now.acpi ≡ Some acpi.now }
    ensures { IfOk result (λ file. file ≡ tables_begin machine.now acpi.now) }
{
    let mut file = Blob::new(alloc);
    if machine.power.is_some() {
        put_facs(&mut file, &initial_facs())?;
        append_dsdt(&mut file, machine)?;
    }
    Ok(file)
}

// The files of `tables`, made by the maker `acpi`: that of the tables begins with `begin`, which can be linked.
fn files_of(
    alloc: Global,
    begin: Blob,
    acpi: &Acpi,
    tables: &[Table],
) -> Result<AcpiFiles, OutOfMemory>
    requires fits { FitsHead acpi.now }
    requires linkable { IsLinkable begin }
    requires writable { AllByRecursion IsWritable tables.now }
    requires few { AreFew begin tables.now }
    ensures files { IfOk result (λ files. files ≡ acpi_files acpi.now begin tables.now) }
    ensures held { OnOk result (IsAcpiImage acpi.now begin tables.now (acpi_files acpi.now begin tables.now)) }
{
    let head = head_of(acpi, 1);
    let mut file = begin;
    let xsdt = append_tables(alloc, &mut file, &head, tables)?;
    let mut rsdp = Blob::new(alloc);
    put_rsdp(&mut rsdp, &head.oem_id, xsdt)?;
    Ok(AcpiFiles {
        rsdp: rsdp.finish(),
        tables: file.finish(),
    })
}

// Appends `tables` to a file that can be linked, and the XSDT that names them, and gives the place of the XSDT.
fn append_tables(
    alloc: Global,
    file: &mut Blob,
    head: &Head,
    tables: &[Table],
) -> Result<u32, OutOfMemory>
    requires linkable { IsLinkable file.old }
    requires writable { AllByRecursion IsWritable tables.now }
    requires few { AreFew file.old tables.now }
    ensures place { IfOk result (λ place. place ≡ xsdt_place file.old tables.now) }
    ensures file { OnOk result (file.new ≡ with_xsdt (with_tables file.old tables.now) head.now (places_in file.old tables.now)) }
    ensures held { OnOk result (IsTablesFile file.old head.now tables.now file.new) }
{
    let places = append_each(alloc, file, tables)?;
    put_xsdt(file, head, places.as_slice())
}

// Appends `tables` to a file that can be linked, and gives their places.
fn append_each(alloc: Global, file: &mut Blob, tables: &[Table]) -> Result<List<u32>, OutOfMemory>
    requires linkable { IsLinkable file.old }
    requires writable { AllByRecursion IsWritable tables.now }
    requires few { AreFew file.old tables.now }
    ensures { IfOk result (λ places. AreAppended file.old tables.now places file.new) }
{
    let mut places = List::new(alloc);
    for table in tables {
        places.push(put_table(file, table)?)?;
    }
    Ok(places)
}
