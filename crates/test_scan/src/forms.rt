//! What a scan by each form of the tables tells of a memory that has two: a legacy RSDP with its RSDT, and one of revision 2 with its XSDT,
//! which name the same FADT of 116 bytes; and what one by any form tells, which goes by the RSDP at the lower address. They were made by hand
//! from ACPI 6.5, 5.2.5.1, 5.2.5.3, 5.2.7, 5.2.8 and 5.2.9.

use crate::scans::told_of;
use crate::told::are_words;
use acpi_decode::AcpiFault;
use acpi_legacy::{LEGACY_FORM, find_legacy, scan_legacy};
use acpi_model::Form;
use anchor_scan::{ScanFault, find_rsdp, scan, scan_by};
use fixtures::{Put, mend_all, put_all};
use guest_memory::GuestMemory;
use smbios_model::AnchorForm;
use std::alloc::Global;
use std::process::Abort;
use std::test::Fail;
use table_model::{AnchorSearch, Inventory, RootSearch, Search};

const LEGACY_RSDP: u64 = 0xE_0100;

const RSDP: u64 = 0xE_0000;

const RSDT: u64 = 0x300_0000;

const XSDT: u64 = 0x300_0100;

const FADT: u64 = 0x300_0200;

// The tables of ACPI 2.0 to 5.1: an XSDT, and an FADT of any length from 116 bytes on.
const ANY_FADT: Form = Form {
    extended: true,
    least_fadt: 116,
};

// The RSDP of revision 2, which leads to the XSDT.
const EXTENDED_RSDP: &[u8] = b"RSD PTR JABCDEF\x02\0\0\0\0$\0\0\0\0\x01\0\x03\0\0\0\0\xd8\0\0\0";

// The first entry of each root is zero. The sums of the tables are still to be set.
static PUTS: [Put; 5] = [
    (LEGACY_RSDP, b"RSD PTR IABCDEF\0\0\0\0\x03"),
    (RSDP, EXTENDED_RSDP),
    (
        RSDT,
        b"RSDT\x2c\0\0\0\x01\0ABCDEFGHIJKLMN\x05\0\0\0OPQR\x06\0\0\0\0\0\0\0\0\x02\0\x03",
    ),
    (
        XSDT,
        b"XSDT\x34\0\0\0\x02\0ABCDEFGHIJKLMN\x05\0\0\0OPQR\x06\0\0\0\0\0\0\0\0\0\0\0\0\x02\0\x03\0\0\0\0",
    ),
    // Its ports are 0x600, 0x604, 0x608 and 0x620, and its GPE block has 32 bytes.
    (
        FADT,
        b"FACPt\0\0\0\x01\0ABCDEFGHIJKLMN\x05\0\0\0OPQR\x06\0\0\0\
        \0\0\0\0\0\0\0\0\0\x07\x09\0\0\0\0\0\0\0\0\0\0\x06\0\0\0\0\0\0\x04\x06\0\0\0\0\0\0\
        \0\0\0\0\x08\x06\0\0\x20\x06\0\0\0\0\0\0\0\0\0\0\x20\0\0\0\0\0\0\0\0\0\0\0\0\0\0\0\
        \x33\0\0\0\xa5\x01\0\0",
    ),
];

// No RSDP of revision 2 stands below the legacy one any more, but one above it.
static MOVED: [Put; 2] = [(RSDP, b"\0"), (0xE_0200, EXTENDED_RSDP)];

const LEGACY_TOLD: &str = "
top 04000000
rsdp 414243444546
xsdt 01 414243444546 4748494a4b4c4d4e 05 4f505152 06
fadt 06 414243444546 4748494a4b4c4d4e 05 4f505152 06 07 09 0608 01a5 05 0608 00";

const ANY_FADT_TOLD: &str = "
top 04000000
rsdp 414243444546
xsdt 02 414243444546 4748494a4b4c4d4e 05 4f505152 06
fadt 06 414243444546 4748494a4b4c4d4e 05 4f505152 06 07 09 0608 01a5 05 0608 00";

#[test]
fn tables_of_two_forms(rt: HostRuntime) -> Result<(), Fail> {
    let mut memory = GuestMemory::begin(rt.alloc(), 0x400_0000, 0)?;
    let told = each_is_told(&rt, rt.alloc(), &mut memory);
    drop(memory);
    told
}

fn each_is_told(rt: &impl Abort, alloc: Global, memory: &mut GuestMemory) -> Result<(), Fail> {
    put_all(memory, &PUTS)?;
    mend_all(memory, &[RSDT, XSDT, FADT])?;
    assert_eq!(rt; find_legacy(memory), Some(LEGACY_RSDP));
    assert_eq!(rt; find_rsdp(memory), Some(RSDP));
    is_told(rt, alloc, scan_legacy(alloc, memory)?, LEGACY_TOLD)?;
    is_scanned(rt, alloc, memory, search_for(LEGACY_FORM), LEGACY_TOLD)?;
    is_scanned(rt, alloc, memory, search_for(ANY_FADT), ANY_FADT_TOLD)?;
    is_too_short(rt, alloc, memory);
    lower_counts(rt, alloc, memory)
}

// By any form that RSDP counts which stands at the lower address, whatever its revision.
fn lower_counts(rt: &impl Abort, alloc: Global, memory: &mut GuestMemory) -> Result<(), Fail> {
    is_scanned(rt, alloc, memory, Search::any(), ANY_FADT_TOLD)?;
    put_all(memory, &MOVED)?;
    assert_eq!(rt; find_rsdp(memory), Some(0xE_0200));
    is_scanned(rt, alloc, memory, Search::any(), LEGACY_TOLD)
}

// The search for an RSDP of one form.
fn search_for(form: Form) -> Search {
    Search {
        root: RootSearch::One(form),
        anchor: AnchorSearch::One(AnchorForm::Smbios3),
    }
}

fn is_scanned(
    rt: &impl Abort,
    alloc: Global,
    memory: &GuestMemory,
    search: Search,
    wanted: &str,
) -> Result<(), Fail> {
    is_told(rt, alloc, scan_by(alloc, memory, search)?, wanted)
}

fn is_told(rt: &impl Abort, alloc: Global, inventory: Inventory, wanted: &str) -> Result<(), Fail> {
    has_made_registers(rt, &inventory);
    let told = told_of(alloc, inventory)?;
    are_words(rt, told.as_slice(), wanted.as_bytes());
    Ok(())
}

// The registers that lie behind its bytes are made of its ports.
fn has_made_registers(rt: &impl Abort, inventory: &Inventory) {
    let Some(tables) = &inventory.acpi else {
        panic!(rt; "no tables");
    };
    let Some(fadt) = &tables.fadt else {
        panic!(rt; "no FADT");
    };
    let register = fadt.x_gpe0;
    assert_eq!(rt;
        [register.space, register.width, register.access],
        [1, 255, 1]
    );
    assert_eq!(rt; register.address, 0x620);
    assert_eq!(rt;
        [fadt.x_pm1a_evt.address, fadt.x_pm1a_cnt.address],
        [0x600, 0x604]
    );
    assert_eq!(rt; fadt.reset_reg.address, 0);
}

// By the form of ACPI 6.5 the FADT has too few bytes.
fn is_too_short(rt: &impl Abort, alloc: Global, memory: &GuestMemory) {
    match scan(alloc, memory) {
        Ok(inventory) => {
            drop(inventory);
            panic!(rt; "an FADT of 116 bytes was read");
        }
        Err(fault) => assert_eq!(rt; fault, ScanFault::Acpi(AcpiFault::BadLength(FADT))),
    }
}
