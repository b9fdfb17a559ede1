//! An MCFG of 2^20 allocations, a structure of 300,000 strings, and 100,000 structures. A reader whose time grew with the square of the bytes
//! wouldn't end.

use crate::records::{is, read};
use crate::rsdp::rsdp_of;
use acpi_model::{Mcfg, McfgAllocation};
use anchor_scan::scan;
use fixtures::{mend, put};
use guest_memory::GuestMemory;
use smbios_model::{Body, Structure};
use std::alloc::Global;
use std::process::Abort;
use std::test::Fail;
use table_model::Inventory;
use vt_outside::{Bytes, OutOfMemory};

const RSDP: u64 = 0xE_0000;

const XSDT: u64 = 0x380_0000;

// An XSDT of one entry, without its sum.
const XSDT_BYTES: &[u8; 44] =
    b"XSDT\x2c\0\0\0\x01\0ABCDEFGHIJKLMN\x01\0\0\0OPQR\x01\0\0\0\0\0\0\x02\0\0\0\0";

const MCFG: u64 = 0x200_0000;

// The MCFG in front of its allocations.
const MCFG_FRONT: &[u8; 44] =
    b"MCFG\x2c\0\0\x01\x01\xe1ABCDEFGHIJKLMN\x01\0\0\0OPQR\x01\0\0\0\0\0\0\0\0\0\0\0";

const ALLOCATIONS: usize = 1 << 20;

// The last allocation, and what it tells. The others are zeros.
const LAST: u64 = MCFG + 44 + 16 * (ALLOCATIONS as u64 - 1);

const LAST_BYTES: &[u8; 16] = b"\0\0\0\x10\x32\x54\x76\x98\x01\0\0\x02\0\0\0\0";

const LAST_ALLOCATION: McfgAllocation = McfgAllocation {
    base: 0x9876_5432_1000_0000,
    segment: 1,
    last_bus: 2,
};

// A structure that is read as a raw one, in front of its strings, and one without an area and strings.
const RAW: &[u8] = b"\x0c\x05\x00\x0c\xff";

const SMALL: &[u8] = b"\x02\x04\x00\x00\0\0";

const END: &[u8] = b"\x7f\x04\x00\x7f\0\0";

#[test]
fn an_mcfg_of_1048576_allocations(rt: HostRuntime) -> Result<(), Fail> {
    let mut memory = GuestMemory::begin(rt.alloc(), 0x400_0000, 0)?;
    let read = is_mcfg_read(&rt, rt.alloc(), &mut memory);
    drop(memory);
    read
}

fn is_mcfg_read(rt: &impl Abort, alloc: Global, memory: &mut GuestMemory) -> Result<(), Fail> {
    put_mcfg(memory)?;
    let inventory = scan(alloc, memory)?;
    has_allocations(rt, &inventory);
    drop(inventory);
    Ok(())
}

fn put_mcfg(memory: &mut GuestMemory) -> Result<(), Fail> {
    put(memory, MCFG, MCFG_FRONT)?;
    put(memory, LAST, LAST_BYTES)?;
    put(memory, XSDT, XSDT_BYTES)?;
    mend(memory, XSDT)?;
    put(memory, RSDP, &rsdp_of(XSDT))
}

fn has_allocations(rt: &impl Abort, inventory: &Inventory) {
    let Some(mcfg) = mcfg_of(inventory) else {
        panic!(rt; "no MCFG");
    };
    let allocations = mcfg.allocations.as_slice();
    is(rt, &allocations.len(), &ALLOCATIONS, "allocations");
    is(
        rt,
        &allocations.last().copied(),
        &Some(LAST_ALLOCATION),
        "the last allocation",
    );
}

fn mcfg_of(inventory: &Inventory) -> Option<&Mcfg> {
    inventory.acpi.as_ref()?.mcfg.as_ref()
}

#[test]
fn a_structure_of_300000_strings(rt: HostRuntime) -> Result<(), Fail> {
    let mut bytes = Bytes::new(rt.alloc());
    push_strings(&mut bytes, 300_000)?;
    has_strings(&rt, rt.alloc(), bytes.as_slice(), 300_000)
}

fn push_strings(bytes: &mut Bytes, count: usize) -> Result<(), OutOfMemory> {
    bytes.extend(RAW)?;
    for _ in 0..count {
        bytes.extend(b"a\0")?;
    }
    bytes.push(0)?;
    bytes.extend(END)
}

fn has_strings(rt: &impl Abort, alloc: Global, bytes: &[u8], wanted: usize) -> Result<(), Fail> {
    let structures = read(alloc, bytes)?;
    is(
        rt,
        &strings_of(structures.as_slice()),
        &Some(wanted),
        "strings",
    );
    Ok(())
}

// How many strings the first structure has, where that is a raw one.
fn strings_of(structures: &[Structure]) -> Option<usize> {
    match &structures.first()?.body {
        Body::Raw { strings, .. } => Some(strings.len()),
        _ => None,
    }
}

#[test]
fn structures_of_100000(rt: HostRuntime) -> Result<(), Fail> {
    let mut bytes = Bytes::new(rt.alloc());
    push_structures(&mut bytes, 100_000)?;
    has_structures(&rt, rt.alloc(), bytes.as_slice(), 100_001)
}

fn push_structures(bytes: &mut Bytes, count: usize) -> Result<(), OutOfMemory> {
    for _ in 0..count {
        bytes.extend(SMALL)?;
    }
    bytes.extend(END)
}

fn has_structures(rt: &impl Abort, alloc: Global, bytes: &[u8], wanted: usize) -> Result<(), Fail> {
    let structures = read(alloc, bytes)?;
    is(rt, &structures.len(), &wanted, "structures");
    Ok(())
}
