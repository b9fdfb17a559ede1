//! What the tables of a machine say, as records. What is expected was made by hand from DSP0134 7.2, ACPI 6.5 5.2.6 and
//! IA-PC HPET 1.0a 3.2.4.

use crate::tables::built::{inventory_of_sketch, is};
use crate::tables::power::{FACS, FADT};
use acpi_model::{AcpiTables, Dsdt, GenericAddress, Head, HpetTable, head_of, hpet_of};
use fixtures::{FULL_MACHINE, HPET, Sketch, acpi};
use machine_desc::Acpi;
use smbios_model::{Body, SmbiosTable, Structure, SystemInfo, uuid_field};
use std::process::Abort;
use std::test::Fail;
use table_model::Inventory;
use vt_layout::read;
use vt_outside::{List, Text};

// What the statics below are made of.
const REVISION_1: Head = Head {
    revision: 1,
    oem_id: *b"ACME  ",
    oem_table_id: *b"VMTABLE ",
    oem_revision: 1,
    creator_id: *b"VMTB",
    creator_revision: 1,
};

// The header of each table of the machine.
static HEAD: Head = REVISION_1;

// The header of a table of another revision.
static OTHER_HEAD: Head = Head {
    revision: 3,
    ..REVISION_1
};

static HPET_TABLE: HpetTable = HpetTable {
    head: REVISION_1,
    block_id: 0x0102_0304,
    address: GenericAddress {
        space: 0,
        width: 64,
        offset: 0,
        access: 0,
        address: 0xFED0_0400,
    },
    number: 5,
    min_tick: 0x0607,
};

// The same table as bytes: its checksum makes them sum to zero.
static HPET_BYTES: &[u8] = b"HPET\x38\0\0\0\x01\xACACME  VMTABLE \x01\0\0\0VMTB\x01\0\0\0\
    \x04\x03\x02\x01\0\x40\0\0\0\x04\xD0\xFE\0\0\0\0\x05\x07\x06\0";

// The machine's UUID, whose first three fields are little-endian.
static UUID: [u8; 16] = [
    0x33, 0x22, 0x11, 0x00, 0x55, 0x44, 0x77, 0x66, 0x88, 0x99, 0xAA, 0xBB, 0xCC, 0xDD, 0xEE, 0xFF,
];

// A static, since a constant is made anew in the proof of whoever lends it.
static FULL: Sketch = FULL_MACHINE;

#[test]
fn the_inventory_of_a_machine(rt: HostRuntime) -> Result<(), Fail> {
    let inventory = inventory_of_sketch(rt.alloc(), &FULL)?;
    is_the_inventory(&rt, &inventory);
    drop(inventory);
    Ok(())
}

fn is_the_inventory(rt: &impl Abort, inventory: &Inventory) {
    is(rt, &inventory.top, &0x400_0000);
    has_the_smbios_table(rt, inventory);
    has_the_acpi_tables(rt, inventory);
}

fn has_the_smbios_table(rt: &impl Abort, inventory: &Inventory) {
    match &inventory.smbios {
        Some(smbios) => is_the_smbios_table(rt, smbios),
        None => panic!(rt; "no SMBIOS table"),
    }
}

fn has_the_acpi_tables(rt: &impl Abort, inventory: &Inventory) {
    match &inventory.acpi {
        Some(acpi) => are_the_acpi_tables(rt, acpi),
        None => panic!(rt; "no ACPI tables"),
    }
}

fn is_the_smbios_table(rt: &impl Abort, table: &SmbiosTable) {
    is(rt, &(table.major, table.minor, table.docrev), &(3, 0, 0));
    match table.structures.as_slice() {
        [first, end] => {
            is_the_first(rt, first);
            is_the_end(rt, end);
        }
        _ => panic!(rt; "another number of structures than two"),
    }
}

fn is_the_first(rt: &impl Abort, structure: &Structure) {
    is(rt, &structure.handle, &0x0100);
    match &structure.body {
        Body::System(info) => is_the_system(rt, info),
        _ => panic!(rt; "another structure before the system"),
    }
}

fn is_the_end(rt: &impl Abort, structure: &Structure) {
    is(rt, &structure.handle, &0x7F00);
    assert!(rt; matches!(structure.body, Body::End));
}

fn is_the_system(rt: &impl Abort, info: &SystemInfo) {
    is_text(rt, &info.manufacturer, b"ACME");
    is_text(rt, &info.product, b"VM");
    is_text(rt, &info.version, b"1.0");
    is_text(rt, &info.serial, b"SN 7");
    is(rt, &info.uuid, &UUID);
    is(rt, &info.wake_up, &6);
    is_text(rt, &info.sku, b"");
    is_text(rt, &info.family, b"Test");
}

fn is_text(rt: &impl Abort, text: &Text, wanted: &[u8]) {
    is(rt, &text.as_slice(), &wanted);
}

fn are_the_acpi_tables(rt: &impl Abort, tables: &AcpiTables) {
    is(rt, &tables.oem_id, b"ACME  ");
    is(rt, &tables.xsdt, &HEAD);
    is(rt, &tables.fadt, &Some(FADT));
    is(rt, &tables.facs, &Some(FACS));
    assert!(rt; matches!(tables.dsdt, Some(Dsdt::Terms { .. })));
    is(rt, &tables.hpet, &Some(HPET_TABLE));
    is(rt, &tables.others.len(), &0);
}

#[test]
fn the_records_of_acpi_tables(rt: HostRuntime) -> Result<(), Fail> {
    let acpi = acpi(rt.alloc(), "ACME", "VMTABLE")?;
    are_the_records_of(&rt, &acpi)
}

fn are_the_records_of(rt: &impl Abort, acpi: &Acpi) -> Result<(), Fail> {
    if acpi.oem_id.len() > 6 || acpi.oem_table_id.len() > 8 {
        return Err(Fail::from("identifiers that don't fit"));
    }
    is(rt, &head_of(acpi, 1), &HEAD);
    is(rt, &head_of(acpi, 3), &OTHER_HEAD);
    is(rt, &hpet_of(acpi, HPET), &HPET_TABLE);
    Ok(())
}

#[test]
fn an_hpet_table_is_read(rt: HostRuntime) {
    match read::<HpetTable>(rt.alloc(), HPET_BYTES, &[]) {
        Ok(table) => is(&rt, &table, &HPET_TABLE),
        Err(_) => panic!(&rt; "no HPET table"),
    }
    assert!(rt; read::<HpetTable>(rt.alloc(), &HPET_BYTES[..55], &[]).is_err());
}

#[test]
fn the_bytes_of_uuids(rt: HostRuntime) {
    let uuid = 0x0011_2233_4455_6677_8899_AABB_CCDD_EEFF;
    is(&rt, &uuid_field(Some(uuid)), &UUID);
    is(&rt, &uuid_field(None), &[0; 16]);
}
