//! Where the old anchor of SMBIOS structures is found in the memory of a guest that has several, and what it leads to; and which anchor counts
//! where one of each form stands. They were made by hand from DSP0134, 5.2.1: 31 bytes that sum to zero, and so do the 15 from offset 0x10 on.

use crate::anchors::ANCHOR as ENTRY_POINT;
use crate::scans::told_of;
use crate::structures::SMALL;
use crate::told::are_words;
use anchor_scan::{find_smbios, find_smbios_by, find_smbios2, scan_by, scan_smbios_by};
use fixtures::{Put, put, put_all};
use guest_memory::GuestMemory;
use smbios_model::AnchorForm;
use std::alloc::Global;
use std::process::Abort;
use std::test::Fail;
use table_model::Search;

// Version 2.8, 42 bytes at 0x03000000, two structures.
const ANCHOR: &[u8] = b"_SM_U\x1f\x02\x08$\0\0\0\0\0\0\0_DMI_\x11*\0\0\0\0\x03\x02\0(";

// The same with another sum of its last 15 bytes, which all 31 make up for; with a length of 30; and without the mark of its second part.
const WRONG_RANGE_SUM: &[u8] = b"_SM_T\x1f\x02\x08$\0\0\0\0\0\0\0_DMI_\x12*\0\0\0\0\x03\x02\0(";

const WRONG_LENGTH: &[u8] = b"_SM_V\x1e\x02\x08$\0\0\0\0\0\0\0_DMI_\x11*\0\0\0\0\x03\x02\0(";

const WRONG_MARK: &[u8] = b"_SM_U\x1f\x02\x08$\0\0\0\0\0\0\0_DMJ_\x10*\0\0\0\0\x03\x02\0(";

static PUTS: [Put; 6] = [
    (0xF_0000, WRONG_RANGE_SUM),
    (0xF_0040, WRONG_LENGTH),
    (0xF_0080, WRONG_MARK),
    (0xF_0100, ANCHOR),
    (0xF_0300, ANCHOR),
    (0x300_0000, SMALL),
];

const NONE_TOLD: &str = "
top 04000000";

const OLD_TOLD: &str = "
top 04000000
smbios 02 08 00 02";

const NEW_TOLD: &str = "
top 04000000
smbios 03 05 07 02";

#[test]
fn least_old_anchor(rt: HostRuntime) -> Result<(), Fail> {
    let mut memory = GuestMemory::begin(rt.alloc(), 0x400_0000, 0)?;
    let found = least_is_found(&rt, rt.alloc(), &mut memory);
    drop(memory);
    found
}

fn least_is_found(rt: &impl Abort, alloc: Global, memory: &mut GuestMemory) -> Result<(), Fail> {
    put_all(memory, &PUTS)?;
    assert_eq!(rt; find_smbios_by(memory, AnchorForm::Smbios2), Some(0xF_0100));
    assert_eq!(rt; find_smbios(memory), None);
    let Some(table) = scan_smbios_by(alloc, memory, AnchorForm::Smbios2)? else {
        panic!(rt; "no table");
    };
    assert_eq!(rt; [table.major, table.minor, table.docrev], [2, 8, 0]);
    assert_eq!(rt; table.structures.len(), 2);
    drop(table);
    Ok(())
}

#[test]
fn first_of_either_form(rt: HostRuntime) -> Result<(), Fail> {
    let mut memory = GuestMemory::begin(rt.alloc(), 0x400_0000, 0)?;
    let told = first_is_told(&rt, rt.alloc(), &mut memory);
    drop(memory);
    told
}

// A 64-bit entry point is put above the old anchor, and then one below it.
fn first_is_told(rt: &impl Abort, alloc: Global, memory: &mut GuestMemory) -> Result<(), Fail> {
    put_all(memory, &PUTS)?;
    assert_eq!(rt; find_smbios2(memory), Some(0xF_0100));
    is_scanned(rt, alloc, memory, Search::of(false, false), NONE_TOLD)?;
    is_scanned(rt, alloc, memory, Search::of(false, true), OLD_TOLD)?;
    is_scanned(rt, alloc, memory, Search::any(), OLD_TOLD)?;
    put(memory, 0xF_0200, ENTRY_POINT)?;
    is_scanned(rt, alloc, memory, Search::of(false, false), NEW_TOLD)?;
    is_scanned(rt, alloc, memory, Search::any(), OLD_TOLD)?;
    put(memory, 0xF_00C0, ENTRY_POINT)?;
    is_scanned(rt, alloc, memory, Search::of(false, true), OLD_TOLD)?;
    is_scanned(rt, alloc, memory, Search::any(), NEW_TOLD)
}

fn is_scanned(
    rt: &impl Abort,
    alloc: Global,
    memory: &GuestMemory,
    search: Search,
    wanted: &str,
) -> Result<(), Fail> {
    let told = told_of(alloc, scan_by(alloc, memory, search)?)?;
    are_words(rt, told.as_slice(), wanted.as_bytes());
    Ok(())
}
