//! Inventories that no memory shows: made by hand, and hostile.

use crate::got_back::inventory_in;
use fixtures::MINIMAL;
use smbios_model::{Body, MappedInfo, SmbiosTable, Structure};
use std::alloc::Global;
use std::process::Abort;
use std::test::Fail;
use table_describe::{DescribeFault, describe};
use table_model::Inventory;
use vt_outside::{List, OutOfMemory, Text};

const TOP: u32 = 0x400_0000;

/// Asserts the item of an inventory that fails, or that none does.
pub fn fails(
    rt: &impl Abort,
    alloc: Global,
    case: &str,
    inventory: &Inventory,
    wanted: Option<u8>,
) -> Result<(), Fail> {
    assert_eq!(rt; failing(alloc, inventory)?, wanted, "{case}");
    Ok(())
}

fn failing(alloc: Global, inventory: &Inventory) -> Result<Option<u8>, Fail> {
    match describe(alloc, inventory) {
        Ok(machine) => {
            drop(machine);
            Ok(None)
        }
        Err(DescribeFault::NotProfile { item }) => Ok(Some(item)),
        Err(DescribeFault::OutOfMemory) => Err(Fail::from(OutOfMemory)),
    }
}

// An id needs power management.
#[test]
fn an_id_without_tables(rt: HostRuntime) -> Result<(), Fail> {
    let inventory = Inventory {
        top: TOP,
        smbios: None,
        acpi: None,
        generation: Some([1; 16]),
    };
    let told = fails(&rt, rt.alloc(), "an id alone", &inventory, Some(0));
    drop(inventory);
    told
}

// A top is told in whole MiB, and no fewer than 64.
static TOPS: [(u32, Option<u8>); 5] = [
    (TOP, None),
    (TOP + 1, Some(1)),
    (TOP + 0xF_FFFF, Some(1)),
    (TOP - 1, Some(0)),
    (u32::MAX, Some(0)),
];

#[test]
fn tops(rt: HostRuntime) -> Result<(), Fail> {
    for (top, wanted) in &TOPS {
        is_told_of_top(&rt, rt.alloc(), *top, *wanted)?;
    }
    Ok(())
}

fn is_told_of_top(
    rt: &impl Abort,
    alloc: Global,
    top: u32,
    wanted: Option<u8>,
) -> Result<(), Fail> {
    let mut inventory = inventory_in(alloc, MINIMAL)?;
    inventory.top = top;
    let told = fails(rt, alloc, "a top", &inventory, wanted);
    drop(inventory);
    told
}

const RANGE: MappedInfo = MappedInfo {
    start: 0,
    end: 0xFFFF,
    array: 0x1000,
    width: 1,
    ext_start: 0,
    ext_end: 0,
};

#[test]
fn a_million_structures(rt: HostRuntime) -> Result<(), Fail> {
    let mut structures = List::new(rt.alloc());
    for _ in 0..1_000_000 {
        push(&mut structures, Body::Mapped(RANGE))?;
    }
    is_unlawful(&rt, rt.alloc(), "a million ranges", structures)
}

// A structure of OEM Strings with a text of so many bytes.
static TEXTS: [(&str, u8, usize); 3] = [
    ("a text of 64 KiB", b'A', 65_536),
    ("a text of 65 bytes", b'A', 65),
    ("a NUL in a text", 0, 1),
];

#[test]
fn texts(rt: HostRuntime) -> Result<(), Fail> {
    for (case, byte, count) in &TEXTS {
        let structures = structures_with(rt.alloc(), *byte, *count)?;
        is_unlawful(&rt, rt.alloc(), case, structures)?;
    }
    Ok(())
}

fn structures_with(alloc: Global, byte: u8, count: usize) -> Result<List<Structure>, OutOfMemory> {
    let mut structures = List::new(alloc);
    let texts = texts_of(alloc, byte, count)?;
    push(&mut structures, Body::OemStrings(texts))?;
    Ok(structures)
}

fn texts_of(alloc: Global, byte: u8, count: usize) -> Result<List<Text>, OutOfMemory> {
    let mut texts = List::new(alloc);
    let mut text = Text::new(alloc);
    for _ in 0..count {
        text.push(byte)?;
    }
    texts.push(text)?;
    Ok(texts)
}

fn push(structures: &mut List<Structure>, body: Body) -> Result<(), OutOfMemory> {
    structures.push(Structure { handle: 0, body })
}

// Item 0 of an inventory with these structures fails.
fn is_unlawful(
    rt: &impl Abort,
    alloc: Global,
    case: &str,
    structures: List<Structure>,
) -> Result<(), Fail> {
    let inventory = Inventory {
        top: TOP,
        smbios: Some(SmbiosTable {
            major: 3,
            minor: 0,
            docrev: 0,
            structures,
        }),
        acpi: None,
        generation: None,
    };
    let told = fails(rt, alloc, case, &inventory, Some(0));
    drop(inventory);
    told
}
