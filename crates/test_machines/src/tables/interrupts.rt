//! The MADT of interrupt controllers, as a record and as a file with holes. What is expected was made by hand from ACPI 6.5, 5.2.12;
//! each checksum is still zero.

ghost use Rattle.std.specs.Prelude.{◌≡◌, length};

use crate::tables::built::{inventory_of_accepted, is};
use crate::tables::files::five_bytes;
use acpi_model::{
    AcpiTables, Head, IoApicEntry, LocalApicEntry, LocalNmiEntry, Madt, MadtEntry, MadtFront,
    OverrideEntry, X2ApicEntry,
};
use acpi_topo::append_madt;
use blob_holes::{Blob, Parts, SumHole};
use fixtures::{
    CPU, Controllers, EACH_CONTROLLER, MINIMAL_MACHINE, NO_CONTROLLERS, Sketch, machine_of,
    put_controllers,
};
use machine_desc::{Cpu, Machine, Nmi};
use std::alloc::Global;
use std::process::Abort;
use std::test::Fail;
use table_model::Inventory;
use vt_layout::read;
use vt_outside::{List, OutOfMemory};

static SKETCH: Sketch = Sketch {
    acpi: Some(("ACME", "VMTABLE")),
    ..MINIMAL_MACHINE
};

// Statics, since a constant is made anew in the proof of whoever lends it.
static EACH: Controllers = EACH_CONTROLLER;

static NONE: Controllers = NO_CONTROLLERS;

// The greatest id of a local APIC, and the least one that only an x2APIC has.
static IDS: Controllers = Controllers {
    cpus: &[Cpu { apic: 254, ..CPU }, Cpu { apic: 255, ..CPU }],
    ..NO_CONTROLLERS
};

// Five bytes up to the next multiple of 16.
const FIVE_BYTES: &[u8] = b"\x07\x07\x07\x07\x07\0\0\0\0\0\0\0\0\0\0\0";

// The tables of these controllers: header, address and flags, and an entry a line.
const EACH_TABLE: &[u8] = b"APIC\x94\0\0\0\x05\0ACME  VMTABLE \x01\0\0\0VMTB\x01\0\0\0\
    \x04\x03\x02\x01\0\0\0\0\
    \0\x08\0\x07\x01\0\0\0\
    \0\x08\x01\x08\0\0\0\0\
    \x09\x10\0\0\x08\x07\x06\x05\0\0\0\0\x02\0\0\0\
    \x09\x10\0\0\x0C\x0B\x0A\x09\x01\0\0\0\x03\0\0\0\
    \x01\x0C\x09\0\x10\x0F\x0E\x0D\x14\x13\x12\x11\
    \x01\x0C\0\0\0\0\xC0\xFE\0\0\0\0\
    \x02\x0A\0\x0F\x18\x17\x16\x15\x0D\0\
    \x02\x0A\0\0\x02\0\0\0\0\0\
    \x04\x06\xFF\x05\0\x01\
    \x04\x06\x03\x0F\0\0";

const NO_TABLE: &[u8] = b"APIC\x2C\0\0\0\x05\0ACME  VMTABLE \x01\0\0\0VMTB\x01\0\0\0\
    \0\0\xE0\xFE\x01\0\0\0";

const TABLE_OF_IDS: &[u8] = b"APIC\x44\0\0\0\x05\0ACME  VMTABLE \x01\0\0\0VMTB\x01\0\0\0\
    \0\0\xE0\xFE\x01\0\0\0\
    \0\x08\0\xFE\x01\0\0\0\
    \x09\x10\0\0\xFF\0\0\0\x01\0\0\0\x01\0\0\0";

#[test]
fn madts_behind_five_bytes(rt: HostRuntime) -> Result<(), Fail> {
    has_table(&rt, rt.alloc(), &EACH, EACH_TABLE)?;
    has_table(&rt, rt.alloc(), &NONE, NO_TABLE)?;
    has_table(&rt, rt.alloc(), &IDS, TABLE_OF_IDS)
}

// The table of these controllers has these bytes, and stands at the next multiple of 16.
fn has_table(
    rt: &impl Abort,
    alloc: Global,
    controllers: &Controllers,
    wanted: &[u8],
) -> Result<(), Fail> {
    let parts = file_of(alloc, controllers)?;
    let told = is_table(rt, &parts, wanted);
    drop(parts);
    told
}

fn is_table(rt: &impl Abort, parts: &Parts, wanted: &[u8]) -> Result<(), Fail> {
    let bytes = parts.bytes.as_slice();
    if bytes.len() < 16 || bytes.len() > 0xFFFF {
        return Err(Fail::from("no table"));
    }
    is(rt, &&bytes[..16], &FIVE_BYTES);
    is(rt, &&bytes[16..], &wanted);
    has_a_sum(rt, parts, bytes.len() as u32 - 16);
    Ok(())
}

// There is no pointer, and one sum, over a table of so many bytes at 16.
fn has_a_sum(rt: &impl Abort, parts: &Parts, length: u32) {
    is(rt, &parts.pointers.len(), &0);
    let sum = SumHole {
        at: 25,
        start: 16,
        length,
    };
    is(rt, &parts.sums.as_slice(), &[sum].as_slice());
}

fn file_of(alloc: Global, controllers: &Controllers) -> Result<Parts, Fail> {
    let mut blob = five_bytes(alloc)?;
    append_of(alloc, &mut blob, controllers)?;
    Ok(blob.finish())
}

// Whoever has the blob doesn't own the machine.
fn append_of(alloc: Global, blob: &mut Blob, controllers: &Controllers) -> Result<(), Fail>
    requires { length blob.old.bytes ≡ 5 }
{
    let mut machine = machine_of(alloc, &SKETCH)?;
    let appended = append_to(blob, &mut machine, controllers);
    drop(machine);
    appended
}

fn append_to(blob: &mut Blob, machine: &mut Machine, controllers: &Controllers) -> Result<(), Fail>
    requires { length blob.old.bytes ≡ 5 }
{
    put_controllers(machine, controllers)?;
    append_accepted(blob, machine)
}

fn append_accepted(blob: &mut Blob, machine: &Machine) -> Result<(), Fail>
    requires { length blob.old.bytes ≡ 5 }
{
    if machine.check().is_err() {
        return Err(Fail::from("a machine that breaks a rule"));
    }
    if machine.apic.is_none() {
        return Err(Fail::from("a machine without interrupt controllers"));
    }
    append_madt(blob, machine)?;
    Ok(())
}

// The NMIs of the last processor that an entry of a local APIC can name, and of the two behind it.
const FAR_NMIS: &[Nmi] = &[
    Nmi {
        cpu: Some(254),
        flags: 0,
        lint: 1,
    },
    Nmi {
        cpu: Some(255),
        flags: 0,
        lint: 1,
    },
    Nmi {
        cpu: Some(256),
        flags: 7,
        lint: 0,
    },
];

// The entries of processors at positions 45 and 46, with ids 255 and 254.
const AT_45: &[u8] = b"\x09\x10\0\0\xFF\0\0\0\x01\0\0\0\x2D\0\0\0\
    \0\x08\x2E\xFE\x01\0\0\0";

// Those at positions 254 to 256, whose ids are 46 to 44, and their NMIs.
const AT_254: &[u8] = b"\0\x08\xFE\x2E\x01\0\0\0\
    \x09\x10\0\0\x2D\0\0\0\x01\0\0\0\xFF\0\0\0\
    \x09\x10\0\0\x2C\0\0\0\x01\0\0\0\0\x01\0\0\
    \x04\x06\xFE\0\0\x01\
    \x0A\x0C\0\0\xFF\0\0\0\x01\0\0\0\
    \x0A\x0C\x07\0\0\x01\0\0\0\0\0\0";

// The processor at each position has the id 300 less the position.
#[test]
fn the_madt_of_many_processors(rt: HostRuntime) -> Result<(), Fail> {
    let parts = file_of_many(rt.alloc())?;
    let told = is_table_of_many(&rt, &parts);
    drop(parts);
    told
}

fn is_table_of_many(rt: &impl Abort, parts: &Parts) -> Result<(), Fail> {
    has_a_sum(rt, parts, 2514);
    let bytes = parts.bytes.as_slice();
    if bytes.len() != 2530 {
        return Err(Fail::from("another size than 2530 bytes"));
    }
    is(rt, &&bytes[780..804], &AT_45);
    is(rt, &&bytes[2460..], &AT_254);
    Ok(())
}

fn file_of_many(alloc: Global) -> Result<Parts, Fail> {
    let cpus = many_cpus(alloc)?;
    let parts = file_of_cpus(alloc, cpus.as_slice());
    drop(cpus);
    parts
}

fn file_of_cpus(alloc: Global, cpus: &[Cpu]) -> Result<Parts, Fail> {
    file_of(
        alloc,
        &Controllers {
            cpus,
            nmis: FAR_NMIS,
            ..NO_CONTROLLERS
        },
    )
}

fn many_cpus(alloc: Global) -> Result<List<Cpu>, OutOfMemory> {
    let mut cpus = List::new(alloc);
    for position in 0..257_u32 {
        cpus.push(Cpu {
            apic: 300 - position,
            ..CPU
        })?;
    }
    Ok(cpus)
}

// The table in front of its entries, and these.
static FRONT: MadtFront = MadtFront {
    head: Head {
        revision: 5,
        oem_id: *b"ACME  ",
        oem_table_id: *b"VMTABLE ",
        oem_revision: 1,
        creator_id: *b"VMTB",
        creator_revision: 1,
    },
    address: 0x0102_0304,
    flags: 0,
};

static ENTRIES: [MadtEntry; 10] = [
    MadtEntry::LocalApic(LocalApicEntry {
        uid: 0,
        apic: 7,
        flags: 1,
    }),
    MadtEntry::LocalApic(LocalApicEntry {
        uid: 1,
        apic: 8,
        flags: 0,
    }),
    MadtEntry::X2Apic(X2ApicEntry {
        apic: 0x0506_0708,
        flags: 0,
        uid: 2,
    }),
    MadtEntry::X2Apic(X2ApicEntry {
        apic: 0x090A_0B0C,
        flags: 1,
        uid: 3,
    }),
    MadtEntry::IoApic(IoApicEntry {
        id: 9,
        address: 0x0D0E_0F10,
        gsi: 0x1112_1314,
    }),
    MadtEntry::IoApic(IoApicEntry {
        id: 0,
        address: 0xFEC0_0000,
        gsi: 0,
    }),
    MadtEntry::Override(OverrideEntry {
        bus: 0,
        irq: 15,
        gsi: 0x1516_1718,
        flags: 13,
    }),
    MadtEntry::Override(OverrideEntry {
        bus: 0,
        irq: 0,
        gsi: 2,
        flags: 0,
    }),
    MadtEntry::LocalNmi(LocalNmiEntry {
        uid: 0xFF,
        flags: 5,
        lint: 1,
    }),
    MadtEntry::LocalNmi(LocalNmiEntry {
        uid: 3,
        flags: 15,
        lint: 0,
    }),
];

#[test]
fn the_record_of_a_madt(rt: HostRuntime) -> Result<(), Fail> {
    let inventory = inventory_of_each(rt.alloc())?;
    has_acpi_tables(&rt, &inventory);
    drop(inventory);
    Ok(())
}

fn inventory_of_each(alloc: Global) -> Result<Inventory, Fail> {
    let mut machine = machine_of(alloc, &SKETCH)?;
    let inventory = inventory_with_each(alloc, &mut machine);
    drop(machine);
    inventory
}

fn inventory_with_each(alloc: Global, machine: &mut Machine) -> Result<Inventory, Fail> {
    put_controllers(machine, &EACH)?;
    inventory_of_accepted(alloc, machine)
}

fn has_acpi_tables(rt: &impl Abort, inventory: &Inventory) {
    match &inventory.acpi {
        Some(acpi) => has_a_madt(rt, acpi),
        None => panic!(rt; "no ACPI tables"),
    }
}

fn has_a_madt(rt: &impl Abort, tables: &AcpiTables) {
    match &tables.madt {
        Some(madt) => is_the_madt(rt, madt),
        None => panic!(rt; "no MADT"),
    }
}

fn is_the_madt(rt: &impl Abort, madt: &Madt) {
    is(rt, &madt.front(), &FRONT);
    is(rt, &madt.entries.as_slice(), &ENTRIES.as_slice());
}

#[test]
fn the_front_of_a_madt_is_read(rt: HostRuntime) {
    match read::<MadtFront>(rt.alloc(), &EACH_TABLE[..44], &[]) {
        Ok(front) => is(&rt, &front, &FRONT),
        Err(_) => panic!(&rt; "no front"),
    }
    assert!(rt; read::<MadtFront>(rt.alloc(), &EACH_TABLE[..43], &[]).is_err());
}
