//! What a scan from both anchors tells of the memory of a machine with power management. The memory is a worked row, and what is expected was
//! made by hand from ACPI 6.5, 5.2, and DSP0134, 5.2.2.

use crate::told::{are_words, push_generation, push_tables};
use crate::words::{push_name, push_number};
use anchor_scan::scan;
use fixtures::{WITH_POWER_DUMP, memory_of};
use guest_memory::GuestMemory;
use std::alloc::Global;
use std::test::Fail;
use table_model::Inventory;
use vt_outside::{Bytes, OutOfMemory};

const BOTH_TOLD: &str = "
top 04000000
rsdp 424f43485320
xsdt 01 424f43485320 4258504320202020 01 564d5442 01
fadt 06 424f43485320 4258504320202020 01 564d5442 01 00 09 0608 01a5 05 0608 00
facs 00 00 00 00 00 02 00
dsdt 02 424f43485320 4258504320202020 01 564d5442 01 terms
scope \\_SB_
device RTC_
name _HID int 0bd041
name _CRS buffer 47017000700001022200017900
end
device KBD_
name _HID int 0303d041
name _CRS buffer 470160006000010147016400640001012202007900
end
end
smbios 03 00 00 02";

#[test]
fn both_anchors(rt: HostRuntime) -> Result<(), Fail> {
    let memory = memory_of(rt.alloc(), WITH_POWER_DUMP)?;
    let told = scanned(rt.alloc(), &memory);
    drop(memory);
    are_words(&rt, told?.as_slice(), BOTH_TOLD.as_bytes());
    Ok(())
}

// What a scan tells, in words.
fn scanned(alloc: Global, memory: &GuestMemory) -> Result<Bytes, Fail> {
    Ok(told_of(alloc, scan(alloc, memory)?)?)
}

/// Tells an inventory, in words.
pub fn told_of(alloc: Global, inventory: Inventory) -> Result<Bytes, OutOfMemory> {
    let mut told = Bytes::new(alloc);
    let pushed = push_inventory(&mut told, &inventory);
    drop(inventory);
    pushed?;
    Ok(told)
}

fn push_inventory(told: &mut Bytes, inventory: &Inventory) -> Result<(), OutOfMemory> {
    push_name(told, b"top")?;
    push_number(told, u64::from(inventory.top))?;
    if let Some(tables) = &inventory.acpi {
        push_tables(told, tables)?;
    }
    if let Some(table) = &inventory.smbios {
        push_name(told, b"smbios")?;
        push_number(told, u64::from(table.major))?;
        push_number(told, u64::from(table.minor))?;
        push_number(told, u64::from(table.docrev))?;
        push_number(told, table.structures.len() as u64)?;
    }
    push_generation(told, inventory.generation)?;
    Ok(())
}
