//! The MCFG of a bridge with configuration space in memory, as a record and as a file with holes. What is expected was made by hand from the
//! PCI Firmware Specification 3.3, 4.1.2, and ACPI 6.5, 5.2.6; each checksum is still zero.

ghost use Rattle.std.specs.Prelude.{◌≡◌, length, IfOk};
ghost use Rattle.acpi_model.specs.Acpi.{IsWritable};
ghost use Rattle.acpi_model.specs.declared.acpi.Table.TheVariants.{Mcfg as McfgTable};

use crate::tables::built::{inventory_of_accepted, is};
use crate::tables::files::five_bytes;
use acpi_append::put_table;
use acpi_fixed::append_mcfg;
use acpi_model::{Head, Mcfg, McfgAllocation, McfgFront, Table};
use blob_holes::{Blob, Parts, SumHole};
use fixtures::{
    BUSES, Buses, Devices, EACH_DEVICE, FULL_MACHINE, NO_DEVICES, Sketch, machine_of, put_devices,
};
use machine_desc::Machine;
use std::alloc::Global;
use std::process::Abort;
use std::test::Fail;
use table_model::Inventory;
use vt_layout::read;
use vt_outside::{List, OutOfMemory};

// Statics, since a constant is made anew in the proof of whoever lends it.
static SKETCH: Sketch = FULL_MACHINE;

static EACH: Devices = EACH_DEVICE;

// A bridge without configuration space in memory, and one with that at the highest address.
static UNMAPPED: Devices = Devices {
    bridge: Some(BUSES),
    ..NO_DEVICES
};

static HIGHEST: Devices = Devices {
    bridge: Some(Buses {
        ecam: 0xF_FFFF_FFF0_0000,
        ..BUSES
    }),
    ..NO_DEVICES
};

// Five bytes up to the next multiple of 16, and the table: header, eight zeros and an allocation.
const EACH_FILE: &[u8] = b"\x07\x07\x07\x07\x07\0\0\0\0\0\0\0\0\0\0\0\
    MCFG\x3C\0\0\0\x01\0ACME  VMTABLE \x01\0\0\0VMTB\x01\0\0\0\
    \0\0\0\0\0\0\0\0\
    \0\0\0\x07\x08\x09\x0A\0\0\0\0\x7F\0\0\0\0";

const HIGHEST_FILE: &[u8] = b"\x07\x07\x07\x07\x07\0\0\0\0\0\0\0\0\0\0\0\
    MCFG\x3C\0\0\0\x01\0ACME  VMTABLE \x01\0\0\0VMTB\x01\0\0\0\
    \0\0\0\0\0\0\0\0\
    \0\0\xF0\xFF\xFF\xFF\x0F\0\0\0\0\xFF\0\0\0\0";

#[test]
fn mcfgs_behind_five_bytes(rt: HostRuntime) -> Result<(), Fail> {
    has_file(&rt, rt.alloc(), &EACH, EACH_FILE)?;
    has_file(&rt, rt.alloc(), &HIGHEST, HIGHEST_FILE)
}

// The file has these bytes, no pointer, and one sum, over the table of 60 bytes.
fn has_file(rt: &impl Abort, alloc: Global, devices: &Devices, wanted: &[u8]) -> Result<(), Fail> {
    let parts = file_of(alloc, devices)?;
    is_file(rt, &parts, wanted, 60);
    drop(parts);
    Ok(())
}

fn is_file(rt: &impl Abort, parts: &Parts, wanted: &[u8], length: u32) {
    is(rt, &parts.bytes.as_slice(), &wanted);
    is(rt, &parts.pointers.len(), &0);
    let sum = SumHole {
        at: 25,
        start: 16,
        length,
    };
    is(rt, &parts.sums.as_slice(), &[sum].as_slice());
}

fn file_of(alloc: Global, devices: &Devices) -> Result<Parts, Fail> {
    let mut blob = five_bytes(alloc)?;
    append_of(alloc, &mut blob, devices)?;
    Ok(blob.finish())
}

// Whoever has the blob doesn't own the machine.
fn append_of(alloc: Global, blob: &mut Blob, devices: &Devices) -> Result<(), Fail>
    requires { length blob.old.bytes ≡ 5 }
{
    let mut machine = machine_of(alloc, &SKETCH)?;
    let appended = append_to(alloc, blob, &mut machine, devices);
    drop(machine);
    appended
}

fn append_to(
    alloc: Global,
    blob: &mut Blob,
    machine: &mut Machine,
    devices: &Devices,
) -> Result<(), Fail>
    requires { length blob.old.bytes ≡ 5 }
{
    put_devices(alloc, machine, devices)?;
    append_accepted(blob, machine)
}

fn append_accepted(blob: &mut Blob, machine: &Machine) -> Result<(), Fail>
    requires { length blob.old.bytes ≡ 5 }
{
    if machine.check().is_err() {
        return Err(Fail::from("a machine that breaks a rule"));
    }
    match &machine.bridge {
        Some(bridge) if bridge.ecam != 0 => {
            append_mcfg(blob, machine)?;
            Ok(())
        }
        _ => Err(Fail::from("no configuration space in memory")),
    }
}

// The table of each machine in front of its allocations.
static FRONT: McfgFront = McfgFront {
    head: Head {
        revision: 1,
        oem_id: *b"ACME  ",
        oem_table_id: *b"VMTABLE ",
        oem_revision: 1,
        creator_id: *b"VMTB",
        creator_revision: 1,
    },
};

// A table of two allocations, each of whose numbers differ in each byte.
const TWO_FILE: &[u8] = b"\x07\x07\x07\x07\x07\0\0\0\0\0\0\0\0\0\0\0\
    MCFG\x4C\0\0\0\x01\0ACME  VMTABLE \x01\0\0\0VMTB\x01\0\0\0\
    \0\0\0\0\0\0\0\0\
    \x08\x07\x06\x05\x04\x03\x02\x01\x0A\x09\0\x0B\0\0\0\0\
    \x13\x12\x11\x10\x0F\x0E\x0D\x0C\x15\x14\0\x16\0\0\0\0";

#[test]
fn an_mcfg_of_two_allocations(rt: HostRuntime) -> Result<(), Fail> {
    let mut blob = five_bytes(rt.alloc())?;
    put_two(rt.alloc(), &mut blob)?;
    let parts = blob.finish();
    is_file(&rt, &parts, TWO_FILE, 76);
    drop(parts);
    Ok(())
}

fn put_two(alloc: Global, blob: &mut Blob) -> Result<(), OutOfMemory>
    requires { length blob.old.bytes ≡ 5 }
{
    let table = Table::Mcfg(two(alloc)?);
    let put = put_table(blob, &table);
    drop(table);
    put?;
    Ok(())
}

#[tactic(auto, using(crate::proofs::TwoAllocations::two_written))]
fn two(alloc: Global) -> Result<Mcfg, OutOfMemory>
    ensures { IfOk result (λ mcfg. IsWritable (McfgTable mcfg)) }
{
    let mut allocations = List::new(alloc);
    allocations.push(McfgAllocation {
        base: 0x0102_0304_0506_0708,
        segment: 0x090A,
        last_bus: 0x0B,
    })?;
    allocations.push(McfgAllocation {
        base: 0x0C0D_0E0F_1011_1213,
        segment: 0x1415,
        last_bus: 0x16,
    })?;
    Ok(Mcfg::of(FRONT, allocations))
}

// That of the bridge.
static ALLOCATION: McfgAllocation = McfgAllocation {
    base: 0x000A_0908_0700_0000,
    segment: 0,
    last_bus: 0x7F,
};

#[test]
fn the_record_of_an_mcfg(rt: HostRuntime) -> Result<(), Fail> {
    let inventory = inventory_of_devices(rt.alloc(), &EACH)?;
    match mcfg_in(&inventory) {
        Some(mcfg) => is_mcfg(&rt, mcfg),
        None => panic!(&rt; "no MCFG"),
    }
    drop(inventory);
    Ok(())
}

fn is_mcfg(rt: &impl Abort, mcfg: &Mcfg) {
    is(rt, &mcfg.front(), &FRONT);
    is(rt, &mcfg.allocations.as_slice(), &[ALLOCATION].as_slice());
}

// A bridge whose configuration space isn't in memory, and no bridge.
#[test]
fn machines_without_an_mcfg(rt: HostRuntime) -> Result<(), Fail> {
    has_no_mcfg(&rt, rt.alloc(), &UNMAPPED)?;
    has_no_mcfg(&rt, rt.alloc(), &NONE)
}

static NONE: Devices = NO_DEVICES;

fn has_no_mcfg(rt: &impl Abort, alloc: Global, devices: &Devices) -> Result<(), Fail> {
    let inventory = inventory_of_devices(alloc, devices)?;
    assert!(rt; mcfg_in(&inventory).is_none());
    drop(inventory);
    Ok(())
}

fn mcfg_in(inventory: &Inventory) -> Option<&Mcfg> {
    match &inventory.acpi {
        Some(tables) => tables.mcfg.as_ref(),
        None => None,
    }
}

fn inventory_of_devices(alloc: Global, devices: &Devices) -> Result<Inventory, Fail> {
    let mut machine = machine_of(alloc, &SKETCH)?;
    let inventory = inventory_with(alloc, &mut machine, devices);
    drop(machine);
    inventory
}

fn inventory_with(
    alloc: Global,
    machine: &mut Machine,
    devices: &Devices,
) -> Result<Inventory, Fail> {
    put_devices(alloc, machine, devices)?;
    inventory_of_accepted(alloc, machine)
}

// The allocation begins at 60.
#[test]
fn an_mcfg_is_read(rt: HostRuntime) {
    match read::<McfgFront>(rt.alloc(), &EACH_FILE[16..60], &[]) {
        Ok(front) => is(&rt, &front, &FRONT),
        Err(_) => panic!(&rt; "no front of an MCFG"),
    }
    match read::<McfgAllocation>(rt.alloc(), &EACH_FILE[60..], &[]) {
        Ok(allocation) => is(&rt, &allocation, &ALLOCATION),
        Err(_) => panic!(&rt; "no allocation"),
    }
}
