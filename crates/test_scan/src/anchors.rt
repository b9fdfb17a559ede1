//! Where the two anchors are found in the memory of a guest that has several, and in one that has none. They were made by hand from ACPI 6.5,
//! 5.2.5, and DSP0134, 5.2.2.

use crate::structures::SMALL;
use anchor_scan::{find_rsdp, find_smbios, scan_smbios};
use fixtures::{Put, put_all};
use guest_memory::GuestMemory;
use smbios_model::SmbiosTable;
use std::alloc::Global;
use std::process::Abort;
use std::test::Fail;

const RSDP: &[u8] = b"RSD PTR JABCDEF\x02\0\0\0\0$\0\0\0\0\0\0\x03\0\0\0\0\xd9\0\0\0";

// One whose first 20 bytes sum to zero, but all 36 don't.
const WRONG_SUM: &[u8] = b"RSD PTR JABCDEF\x02\0\0\0\0$\0\0\0\0\0\0\x03\0\0\0\0\xda\0\0\0";

/// A 64-bit entry point of version 3.5.7, for at most 42 bytes at 0x03000000.
pub const ANCHOR: &[u8] = b"_SM3_\x1a\x18\x03\x05\x07\x01\x00\x2a\0\0\0\0\0\0\x03\0\0\0\0";

const WRONG_ANCHOR: &[u8] = b"_SM3_\x1b\x18\x03\x05\x07\x01\x00\x2a\0\0\0\0\0\0\x03\0\0\0\0";

// Of each kind the first isn't valid, and two others are.
static PUTS: [Put; 7] = [
    (0xE_0000, WRONG_SUM),
    (0xE_0100, RSDP),
    (0xF_0200, RSDP),
    (0xF_0000, WRONG_ANCHOR),
    (0xF_0100, ANCHOR),
    (0xF_0300, ANCHOR),
    (0x300_0000, SMALL),
];

#[test]
fn least_anchors(rt: HostRuntime) -> Result<(), Fail> {
    let mut memory = GuestMemory::begin(rt.alloc(), 0x400_0000, 0)?;
    let found = least_are_found(&rt, rt.alloc(), &mut memory);
    drop(memory);
    found
}

fn least_are_found(rt: &impl Abort, alloc: Global, memory: &mut GuestMemory) -> Result<(), Fail> {
    put_all(memory, &PUTS)?;
    are_found(rt, memory, Some(0xE_0100), Some(0xF_0100));
    let table = scan_smbios(alloc, memory)?;
    is_small(rt, &table);
    drop(table);
    Ok(())
}

#[test]
fn no_anchors(rt: HostRuntime) -> Result<(), Fail> {
    let memory = GuestMemory::begin(rt.alloc(), 0x400_0000, 0)?;
    let found = none_is_found(&rt, rt.alloc(), &memory);
    drop(memory);
    found
}

fn none_is_found(rt: &impl Abort, alloc: Global, memory: &GuestMemory) -> Result<(), Fail> {
    are_found(rt, memory, None, None);
    let table = scan_smbios(alloc, memory)?;
    assert!(rt; table.is_none());
    drop(table);
    Ok(())
}

fn are_found(rt: &impl Abort, memory: &GuestMemory, rsdp: Option<u64>, anchor: Option<u64>) {
    assert_eq!(rt; find_rsdp(memory), rsdp);
    assert_eq!(rt; find_smbios(memory), anchor);
}

// The table is that of the anchor's version with two structures.
fn is_small(rt: &impl Abort, table: &Option<SmbiosTable>) {
    let Some(table) = table else {
        panic!(rt; "no table");
    };
    assert_eq!(rt; [table.major, table.minor, table.docrev], [3, 5, 7]);
    assert_eq!(rt; table.structures.len(), 2);
}
