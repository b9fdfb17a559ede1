//! The DSDT, as terms and as a file with holes. What is expected was made by a program apart from this one, from ACPI 6.5, 5.2.11.1, 6.1, 6.2,
//! 6.4 and 20.2; each checksum is still zero.

ghost use Rattle.std.specs.Prelude.{◌≡◌, length};

use crate::tables::built::{inventory_of_accepted, is};
use crate::tables::files::five_bytes;
use acpi_append::put_dsdt;
use acpi_model::{AcpiTables, Dsdt, Head};
use aml_decode::decode_terms;
use aml_devices::append_dsdt;
use aml_terms::{Term, are_all_equal};
use blob_holes::{Blob, Part, Parts, SumHole};
use fixtures::{
    Controllers, Devices, EACH_CONTROLLER, EACH_DEVICE, FULL_MACHINE, MINIMAL_MACHINE,
    NO_CONTROLLERS, NO_DEVICES, POWER, Sketch, machine_of, put_controllers, put_devices,
};
use machine_desc::{Machine, Power};
use std::alloc::Global;
use std::process::Abort;
use std::test::Fail;
use table_model::Inventory;
use vt_outside::{Name, OutOfMemory};

// Statics, since a constant is made anew in the proof of whoever lends it.
static FULL: Sketch = FULL_MACHINE;

static BARE: Sketch = Sketch {
    acpi: Some(("ACME", "VMTABLE")),
    power: Some(Power {
        rtc: false,
        keyboard: false,
        ..POWER
    }),
    ..MINIMAL_MACHINE
};

static EACH: Devices = EACH_DEVICE;

static NONE: Devices = NO_DEVICES;

static PROCESSORS: Controllers = EACH_CONTROLLER;

static NO_PROCESSORS: Controllers = NO_CONTROLLERS;

// Five bytes up to the next multiple of 16.
const FIVE_BYTES: &[u8] = b"\x07\x07\x07\x07\x07\0\0\0\0\0\0\0\0\0\0\0";

// The header of a table with a device of each kind, and its definition block.
const EACH_HEADER: &[u8] = b"DSDT\xF1\x02\0\0\x02\0ACME  VMTABLE \x01\0\0\0VMTB\x01\0\0\0";

const EACH_BLOCK: &[u8] = b"\x10\x4C\x2C\x5C_SB_\
    \x5B\x82\x4C\x11PCI0\x08_HID\x0C\x41\xD0\x0A\x08\x08_CID\x0C\x41\xD0\x0A\x03\x08_UID\0\x08_BBN\0\
    \x08_CRS\x11\x46\x0B\x0A\xB2\
    \x88\x0D\0\x02\x0C\0\0\0\0\0\x7F\0\0\0\x80\0\
    \x88\x0D\0\x01\x0C\x03\0\0\x02\x01\x05\x04\0\0\x04\x03\
    \x87\x17\0\0\x0C\x01\0\0\0\0\x04\x03\x02\x01\x0B\x0A\x08\x06\0\0\0\0\x08\x07\x06\x05\
    \x87\x17\0\0\x0C\x07\0\0\0\0\x04\x03\x02\x01\x0B\x0A\x08\x06\0\0\0\0\x08\x07\x06\x05\
    \x8A\x2B\0\0\x0C\x01\0\0\0\0\0\0\0\0\x07\x06\x05\x04\x03\x02\x01\0\x14\x13\x11\x0F\x0D\x0B\x09\0\0\0\0\0\0\0\0\0\x0E\x0D\x0C\x0B\x0A\x09\x08\0\
    \x8A\x2B\0\0\x0C\x07\0\0\0\0\0\0\0\0\0\0\0\0\x10\0\0\0\0\0\0\0\x10\0\0\0\0\0\0\0\0\0\0\0\x01\0\0\0\0\0\0\0\x79\0\
    \x08_PRT\x12\x34\x04\
    \x12\x09\x04\x0B\xFF\xFF\0\0\x0A\x10\
    \x12\x0C\x04\x0C\xFF\xFF\x01\0\0\0\x0B\0\x01\
    \x12\x0F\x04\x0C\xFF\xFF\x1F\0\x0A\x03\0\x0C\x04\x03\x02\x01\
    \x12\x0A\x04\x0C\xFF\xFF\x1F\0\x01\0\0\
    \x5B\x82\x2BCOM1\x08_HID\x0C\x41\xD0\x05\x01\x08_UID\x01\
    \x08_CRS\x11\x10\x0A\x0D\x47\x01\xF8\x03\xF8\x03\x01\x08\x22\x10\0\x79\0\
    \x5B\x82\x2CCOM2\x08_HID\x0C\x41\xD0\x05\x01\x08_UID\x0A\x02\
    \x08_CRS\x11\x10\x0A\x0D\x47\x01\xF8\x02\xF8\x02\x01\x08\x22\x08\0\x79\0\
    \x5B\x82\x2CCOM3\x08_HID\x0C\x41\xD0\x05\x01\x08_UID\x0A\x03\
    \x08_CRS\x11\x10\x0A\x0D\x47\x01\xF8\xFF\xF8\xFF\x01\x08\x22\0\x80\x79\0\
    \x5B\x82\x2CCOM4\x08_HID\x0C\x41\xD0\x05\x01\x08_UID\x0A\x04\
    \x08_CRS\x11\x10\x0A\x0D\x47\x01\0\0\0\0\x01\x08\x22\x01\0\x79\0\
    \x5B\x82\x25RTC_\x08_HID\x0C\x41\xD0\x0B\0\
    \x08_CRS\x11\x10\x0A\x0D\x47\x01\x70\0\x70\0\x01\x02\x22\0\x01\x79\0\
    \x5B\x82\x2DKBD_\x08_HID\x0C\x41\xD0\x03\x03\
    \x08_CRS\x11\x18\x0A\x15\x47\x01\x60\0\x60\0\x01\x01\x47\x01\x64\0\x64\0\x01\x01\x22\x02\0\x79\0\
    \x5B\x82\x26HPET\x08_HID\x0C\x41\xD0\x01\x03\
    \x08_CRS\x11\x11\x0A\x0E\x86\x09\0\x01\0\x04\xD0\xFE\0\x04\0\0\x79\0\
    \x5B\x82\x1AC000\x08_HID\x0DACPI0007\0\x08_UID\0\
    \x5B\x82\x1AC001\x08_HID\x0DACPI0007\0\x08_UID\x01\
    \x5B\x82\x1BC002\x08_HID\x0DACPI0007\0\x08_UID\x0A\x02\
    \x5B\x82\x1BC003\x08_HID\x0DACPI0007\0\x08_UID\x0A\x03";

// The table without devices.
const BARE_HEADER: &[u8] = b"DSDT\x2B\0\0\0\x02\0ACME  VMTABLE \x01\0\0\0VMTB\x01\0\0\0";

const BARE_BLOCK: &[u8] = b"\x10\x06\x5C_SB_";

static HEAD: Head = Head {
    revision: 2,
    oem_id: *b"ACME  ",
    oem_table_id: *b"VMTABLE ",
    oem_revision: 1,
    creator_id: *b"VMTB",
    creator_revision: 1,
};

#[test]
fn dsdts_behind_five_bytes(rt: HostRuntime) -> Result<(), Fail> {
    let each = file_of(rt.alloc(), &FULL, &PROCESSORS, &EACH)?;
    is_file(&rt, &each, EACH_HEADER, EACH_BLOCK);
    drop(each);
    let bare = file_of(rt.alloc(), &BARE, &NO_PROCESSORS, &NONE)?;
    is_file(&rt, &bare, BARE_HEADER, BARE_BLOCK);
    drop(bare);
    Ok(())
}

// The table is at the next multiple of 16 behind five bytes, and has no pointer.
fn is_file(rt: &impl Abort, parts: &Parts, header: &[u8], block: &[u8]) {
    let bytes = parts.bytes.as_slice();
    let split = (bytes.get(..16), bytes.get(16..52), bytes.get(52..));
    is(rt, &split, &(Some(FIVE_BYTES), Some(header), Some(block)));
    is(rt, &parts.pointers.len(), &0);
    has_a_sum(rt, parts.sums.as_slice(), bytes.len());
}

// There is one sum, over a table from 16 to the end.
fn has_a_sum(rt: &impl Abort, sums: &[SumHole], end: usize) {
    let sum = SumHole {
        at: 25,
        start: 16,
        length: u32::try_from(end).unwrap_or(0).saturating_sub(16),
    };
    is(rt, &sums, &[sum].as_slice());
}

fn file_of(
    alloc: Global,
    sketch: &Sketch,
    controllers: &Controllers,
    devices: &Devices,
) -> Result<Parts, Fail> {
    let mut blob = five_bytes(alloc)?;
    append_of(alloc, &mut blob, sketch, controllers, devices)?;
    Ok(blob.finish())
}

// Whoever has the blob doesn't own the machine.
fn append_of(
    alloc: Global,
    blob: &mut Blob,
    sketch: &Sketch,
    controllers: &Controllers,
    devices: &Devices,
) -> Result<(), Fail>
    requires { length blob.old.bytes ≡ 5 }
{
    let mut machine = machine_of(alloc, sketch)?;
    let appended = append_to(alloc, blob, &mut machine, controllers, devices);
    drop(machine);
    appended
}

fn append_to(
    alloc: Global,
    blob: &mut Blob,
    machine: &mut Machine,
    controllers: &Controllers,
    devices: &Devices,
) -> Result<(), Fail>
    requires { length blob.old.bytes ≡ 5 }
{
    put_controllers(machine, controllers)?;
    put_devices(alloc, machine, devices)?;
    append_accepted(blob, machine)
}

fn append_accepted(blob: &mut Blob, machine: &Machine) -> Result<(), Fail>
    requires { length blob.old.bytes ≡ 5 }
{
    if machine.check().is_err() {
        return Err(Fail::from("a machine that breaks a rule"));
    }
    if machine.power.is_none() {
        return Err(Fail::from("a machine without power management"));
    }
    append_dsdt(blob, machine)?;
    Ok(())
}

// A name whose value is a package of a dword, which has a pointer, and of a zero.
const POINTED: &[u8] = b"\x07\x07\x07\x07\x07\0\0\0\0\0\0\0\0\0\0\0\
    DSDT\x32\0\0\0\x02\0ACME  VMTABLE \x01\0\0\0VMTB\x01\0\0\0\
    \x08ADDR\x12\x08\x02\x0C\x28\0\0\0\0";

#[test]
fn a_dsdt_with_a_pointer(rt: HostRuntime) -> Result<(), Fail> {
    let target = Name::of("etc/vmgenid_guid")?;
    let mut blob = five_bytes(rt.alloc())?;
    put_pointed(&mut blob, target)?;
    let parts = blob.finish();
    is_pointed(&rt, &parts, target);
    drop(parts);
    Ok(())
}

fn put_pointed(blob: &mut Blob, target: Name) -> Result<(), OutOfMemory>
    requires { length blob.old.bytes ≡ 5 }
{
    let block = [
        Part::Bytes(b"\x08ADDR\x12\x08\x02\x0C"),
        Part::Pointer { target, offset: 40 },
        Part::Bytes(b"\0"),
    ];
    put_dsdt(blob, &HEAD, &block)?;
    Ok(())
}

fn is_pointed(rt: &impl Abort, parts: &Parts, target: Name) {
    is(rt, &parts.bytes.as_slice(), &POINTED);
    match parts.pointers.as_slice() {
        [pointer] => is(
            rt,
            &(pointer.at, pointer.size, pointer.target),
            &(61, 4, target),
        ),
        _ => panic!(rt; "another number of pointers than one"),
    }
    has_a_sum(rt, parts.sums.as_slice(), 66);
}

#[test]
fn the_dsdts_of_machines(rt: HostRuntime) -> Result<(), Fail> {
    has_terms(&rt, rt.alloc(), &FULL, &PROCESSORS, &EACH, EACH_BLOCK)?;
    has_terms(&rt, rt.alloc(), &BARE, &NO_PROCESSORS, &NONE, BARE_BLOCK)
}

// The machine's inventory has a DSDT with the terms that a definition block is read as.
fn has_terms(
    rt: &impl Abort,
    alloc: Global,
    sketch: &Sketch,
    controllers: &Controllers,
    devices: &Devices,
    block: &[u8],
) -> Result<(), Fail> {
    let inventory = inventory_of_devices(alloc, sketch, controllers, devices)?;
    let told = shows_terms(rt, alloc, &inventory, block);
    drop(inventory);
    told
}

fn inventory_of_devices(
    alloc: Global,
    sketch: &Sketch,
    controllers: &Controllers,
    devices: &Devices,
) -> Result<Inventory, Fail> {
    let mut machine = machine_of(alloc, sketch)?;
    let inventory = inventory_with(alloc, &mut machine, controllers, devices);
    drop(machine);
    inventory
}

fn inventory_with(
    alloc: Global,
    machine: &mut Machine,
    controllers: &Controllers,
    devices: &Devices,
) -> Result<Inventory, Fail> {
    put_controllers(machine, controllers)?;
    put_devices(alloc, machine, devices)?;
    inventory_of_accepted(alloc, machine)
}

fn shows_terms(
    rt: &impl Abort,
    alloc: Global,
    inventory: &Inventory,
    block: &[u8],
) -> Result<(), Fail> {
    match &inventory.acpi {
        Some(tables) => have_terms(rt, alloc, tables, block),
        None => Err(Fail::from("no ACPI tables")),
    }
}

fn have_terms(
    rt: &impl Abort,
    alloc: Global,
    tables: &AcpiTables,
    block: &[u8],
) -> Result<(), Fail> {
    match &tables.dsdt {
        Some(Dsdt::Terms { head, terms }) => {
            is(rt, head, &HEAD);
            are_terms(rt, alloc, terms.as_slice(), block)
        }
        _ => Err(Fail::from("no DSDT of terms")),
    }
}

fn are_terms(rt: &impl Abort, alloc: Global, terms: &[Term], block: &[u8]) -> Result<(), Fail> {
    if block.len() > 1000 {
        return Err(Fail::from("a long definition block"));
    }
    let wanted = decode_terms(alloc, block)?;
    assert!(rt; are_all_equal(terms, wanted.as_slice()));
    drop(wanted);
    Ok(())
}
