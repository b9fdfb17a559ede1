//! The SRAT and the SLIT of NUMA nodes, as records and as a file with holes. What is expected was made by hand from ACPI 6.5, 5.2.16 and
//! 5.2.17; each checksum is still zero.

ghost use Rattle.std.specs.Prelude.{◌≡◌, length};

use crate::tables::built::{inventory_of_accepted, is};
use crate::tables::files::five_bytes;
use acpi_model::{
    AcpiTables, ApicAffinity, Head, MemoryAffinity, Slit, SlitFront, Srat, SratEntry, SratFront,
    X2ApicAffinity,
};
use acpi_topo::{append_slit, append_srat};
use blob_holes::{Blob, Parts, SumHole};
use fixtures::{
    CPU, Controllers, MINIMAL_MACHINE, NO_CONTROLLERS, Nodes, ONE_NODE, Sketch, THREE_NODES,
    machine_of, put_controllers, put_nodes,
};
use machine_desc::{Cpu, Machine};
use std::alloc::Global;
use std::process::Abort;
use std::test::Fail;
use table_model::Inventory;
use vt_layout::read;
use vt_outside::{Bytes, OutOfMemory};

static SKETCH: Sketch = Sketch {
    acpi: Some(("ACME", "VMTABLE")),
    ..MINIMAL_MACHINE
};

// Statics, since a constant is made anew in the proof of whoever lends it.
static THREE: Nodes = THREE_NODES;

static ONE: Nodes = ONE_NODE;

static CONTROLLERS: Controllers = Controllers {
    cpus: &[
        Cpu {
            apic: 7,
            node: 1,
            ..CPU
        },
        Cpu {
            apic: 254,
            enabled: false,
            ..CPU
        },
        Cpu {
            apic: 0x0102_0304,
            node: 2,
            ..CPU
        },
    ],
    ..NO_CONTROLLERS
};

static NO_CPUS: Controllers = NO_CONTROLLERS;

// Five bytes up to the next multiple of 16.
const FIVE_BYTES: &[u8] = b"\x07\x07\x07\x07\x07\0\0\0\0\0\0\0\0\0\0\0";

// The tables of three nodes, and zeros up to the second. Of the SRAT the header, a 1 and eight zeros, and an entry a line, of the ranges
// in two; of the SLIT the header, the number of nodes, and their distances. The disabled processor has a node as any other.
const TABLES_OF_THREE: &[u8] = b"SRAT\xB8\0\0\0\x03\0ACME  VMTABLE \x01\0\0\0VMTB\x01\0\0\0\
    \x01\0\0\0\0\0\0\0\0\0\0\0\
    \0\x10\x01\x07\x01\0\0\0\0\0\0\0\0\0\0\0\
    \0\x10\0\xFE\x01\0\0\0\0\0\0\0\0\0\0\0\
    \x02\x18\0\0\x02\0\0\0\x04\x03\x02\x01\x01\0\0\0\0\0\0\0\0\0\0\0\
    \x01\x28\0\0\0\0\0\0\0\0\0\0\0\0\0\0\
    \0\0\0\x04\0\0\0\0\0\0\0\0\x01\0\0\0\0\0\0\0\0\0\0\0\
    \x01\x28\x02\0\0\0\0\0\0\0\0\0\x01\0\0\0\
    \0\0\0\0\xFF\xFF\x0F\0\0\0\0\0\x01\0\0\0\0\0\0\0\0\0\0\0\
    \0\0\0\0\0\0\0\0\
    SLIT\x35\0\0\0\x01\0ACME  VMTABLE \x01\0\0\0VMTB\x01\0\0\0\
    \x03\0\0\0\0\0\0\0\x0A\x14\xFE\xFF\x0A\x0B\x0C\x0D\x0A";

// Those of one node, without processors and memory.
const TABLES_OF_ONE: &[u8] = b"SRAT\x30\0\0\0\x03\0ACME  VMTABLE \x01\0\0\0VMTB\x01\0\0\0\
    \x01\0\0\0\0\0\0\0\0\0\0\0\
    SLIT\x2D\0\0\0\x01\0ACME  VMTABLE \x01\0\0\0VMTB\x01\0\0\0\
    \x01\0\0\0\0\0\0\0\x0A";

// The checksums of both, behind the five bytes.
static SUMS_OF_THREE: [SumHole; 2] = [
    SumHole {
        at: 25,
        start: 16,
        length: 184,
    },
    SumHole {
        at: 217,
        start: 208,
        length: 53,
    },
];

static SUMS_OF_ONE: [SumHole; 2] = [
    SumHole {
        at: 25,
        start: 16,
        length: 48,
    },
    SumHole {
        at: 73,
        start: 64,
        length: 45,
    },
];

#[test]
fn tables_behind_five_bytes(rt: HostRuntime) -> Result<(), Fail> {
    let (three, one) = (TABLES_OF_THREE, TABLES_OF_ONE);
    has_tables(&rt, rt.alloc(), &CONTROLLERS, &THREE, three, &SUMS_OF_THREE)?;
    has_tables(&rt, rt.alloc(), &NO_CPUS, &ONE, one, &SUMS_OF_ONE)
}

// The tables of these nodes have these bytes and sums, and stand at multiples of 16.
fn has_tables(
    rt: &impl Abort,
    alloc: Global,
    controllers: &Controllers,
    nodes: &Nodes,
    wanted: &[u8],
    sums: &[SumHole],
) -> Result<(), Fail> {
    let parts = file_of(alloc, controllers, nodes)?;
    let told = are_tables(rt, &parts, wanted, sums);
    drop(parts);
    told
}

fn are_tables(rt: &impl Abort, parts: &Parts, wanted: &[u8], sums: &[SumHole]) -> Result<(), Fail> {
    has_sums(rt, parts, sums);
    let bytes = parts.bytes.as_slice();
    if bytes.len() < 16 {
        return Err(Fail::from("no table"));
    }
    is(rt, &&bytes[..16], &FIVE_BYTES);
    is(rt, &&bytes[16..], &wanted);
    Ok(())
}

// There is no pointer, and these are the sums.
fn has_sums(rt: &impl Abort, parts: &Parts, sums: &[SumHole]) {
    is(rt, &parts.pointers.len(), &0);
    is(rt, &parts.sums.as_slice(), &sums);
}

fn file_of(alloc: Global, controllers: &Controllers, nodes: &Nodes) -> Result<Parts, Fail> {
    let mut blob = five_bytes(alloc)?;
    append_of(alloc, &mut blob, controllers, nodes)?;
    Ok(blob.finish())
}

// Whoever has the blob doesn't own the machine.
fn append_of(
    alloc: Global,
    blob: &mut Blob,
    controllers: &Controllers,
    nodes: &Nodes,
) -> Result<(), Fail>
    requires { length blob.old.bytes ≡ 5 }
{
    let mut machine = machine_of(alloc, &SKETCH)?;
    let appended = append_to(alloc, blob, &mut machine, controllers, nodes);
    drop(machine);
    appended
}

fn append_to(
    alloc: Global,
    blob: &mut Blob,
    machine: &mut Machine,
    controllers: &Controllers,
    nodes: &Nodes,
) -> Result<(), Fail>
    requires { length blob.old.bytes ≡ 5 }
{
    put_controllers(machine, controllers)?;
    put_nodes(alloc, machine, nodes)?;
    append_accepted(blob, machine)
}

fn append_accepted(blob: &mut Blob, machine: &Machine) -> Result<(), Fail>
    requires { length blob.old.bytes ≡ 5 }
{
    if machine.check().is_err() {
        return Err(Fail::from("a machine that breaks a rule"));
    }
    if machine.numa.is_none() {
        return Err(Fail::from("a machine without nodes"));
    }
    append_srat(blob, machine)?;
    if blob.len() > 1000 {
        return Err(Fail::from("a long SRAT"));
    }
    append_slit(blob, machine)?;
    Ok(())
}

// The node of each processor, and that of each range.
static ENTRIES: [SratEntry; 5] = [
    SratEntry::Apic(ApicAffinity {
        node: 1,
        apic: 7,
        flags: 1,
    }),
    SratEntry::Apic(ApicAffinity {
        node: 0,
        apic: 254,
        flags: 1,
    }),
    SratEntry::X2Apic(X2ApicAffinity {
        node: 2,
        apic: 0x0102_0304,
        flags: 1,
    }),
    SratEntry::Memory(MemoryAffinity {
        node: 0,
        base: 0,
        length: 0x0400_0000,
        flags: 1,
    }),
    SratEntry::Memory(MemoryAffinity {
        node: 2,
        base: 0x1_0000_0000,
        length: 0xF_FFFF_0000_0000,
        flags: 1,
    }),
];

// What the statics below are made of.
const REVISION_1: Head = Head {
    revision: 1,
    oem_id: *b"ACME  ",
    oem_table_id: *b"VMTABLE ",
    oem_revision: 1,
    creator_id: *b"VMTB",
    creator_revision: 1,
};

static SRAT_FRONT: SratFront = SratFront {
    head: Head {
        revision: 3,
        ..REVISION_1
    },
};

static SLIT_FRONT: SlitFront = SlitFront {
    head: REVISION_1,
    count: 3,
};

#[test]
fn the_records_of_nodes(rt: HostRuntime) -> Result<(), Fail> {
    let inventory = inventory_of_three(rt.alloc())?;
    has_acpi_tables(&rt, &inventory);
    drop(inventory);
    Ok(())
}

fn inventory_of_three(alloc: Global) -> Result<Inventory, Fail> {
    let mut machine = machine_of(alloc, &SKETCH)?;
    let inventory = inventory_with_three(alloc, &mut machine);
    drop(machine);
    inventory
}

fn inventory_with_three(alloc: Global, machine: &mut Machine) -> Result<Inventory, Fail> {
    put_controllers(machine, &CONTROLLERS)?;
    put_nodes(alloc, machine, &THREE)?;
    inventory_of_accepted(alloc, machine)
}

fn has_acpi_tables(rt: &impl Abort, inventory: &Inventory) {
    match &inventory.acpi {
        Some(acpi) => has_both(rt, acpi),
        None => panic!(rt; "no ACPI tables"),
    }
}

fn has_both(rt: &impl Abort, tables: &AcpiTables) {
    match (&tables.srat, &tables.slit) {
        (Some(srat), Some(slit)) => are_both(rt, srat, slit),
        _ => panic!(rt; "no SRAT, or no SLIT"),
    }
}

fn are_both(rt: &impl Abort, srat: &Srat, slit: &Slit) {
    is(rt, &srat.front(), &SRAT_FRONT);
    is(rt, &srat.entries.as_slice(), &ENTRIES.as_slice());
    is(rt, &slit.front(), &SLIT_FRONT);
    is(rt, &slit.distances.as_slice(), &THREE.distance);
}

// The SLIT begins at 192.
#[test]
fn fronts_are_read(rt: HostRuntime) {
    match read::<SratFront>(rt.alloc(), &TABLES_OF_THREE[..48], &[]) {
        Ok(front) => is(&rt, &front, &SRAT_FRONT),
        Err(_) => panic!(&rt; "no front of an SRAT"),
    }
    match read::<SlitFront>(rt.alloc(), &TABLES_OF_THREE[192..236], &[]) {
        Ok(front) => is(&rt, &front, &SLIT_FRONT),
        Err(_) => panic!(&rt; "no front of a SLIT"),
    }
}

// As many nodes as a machine may have, the distance from each to each other being 20.
#[test]
fn the_slit_of_the_most_nodes(rt: HostRuntime) -> Result<(), Fail> {
    let distances = distances(rt.alloc(), 64)?;
    let told = is_the_slit_of(&rt, rt.alloc(), distances.as_slice());
    drop(distances);
    told
}

fn is_the_slit_of(rt: &impl Abort, alloc: Global, distance: &[u8]) -> Result<(), Fail> {
    let nodes = Nodes {
        nodes: 64,
        distance,
        ranges: &[],
    };
    let parts = file_of(alloc, &NO_CPUS, &nodes)?;
    let told = has_the_slit(rt, &parts, distance);
    drop(parts);
    told
}

// The SRAT has 48 bytes from 16 on, and the SLIT 4,140.
fn has_the_slit(rt: &impl Abort, parts: &Parts, distance: &[u8]) -> Result<(), Fail> {
    let bytes = parts.bytes.as_slice();
    if bytes.len() != 4204 {
        return Err(Fail::from("another size than 4204 bytes"));
    }
    is(rt, &&bytes[64..72], &b"SLIT\x2C\x10\0\0".as_slice());
    is(rt, &&bytes[100..108], &b"\x40\0\0\0\0\0\0\0".as_slice());
    is(rt, &&bytes[108..], &distance);
    Ok(())
}

fn distances(alloc: Global, nodes: u32) -> Result<Bytes, OutOfMemory> {
    let mut distances = Bytes::new(alloc);
    for node in 0..nodes {
        push_row(&mut distances, nodes, node)?;
    }
    Ok(distances)
}

// The distances from a node.
fn push_row(distances: &mut Bytes, nodes: u32, node: u32) -> Result<(), OutOfMemory> {
    for to in 0..nodes {
        distances.push(if to == node { 10 } else { 20 })?;
    }
    Ok(())
}
