//! A machine whose six texts have as many bytes as one may have, 64 each: its inventory and its structures. What is expected was made
//! by hand from DSP0134, 6.1 and 7.2.

ghost use Rattle.std.specs.Prelude.{◌<◌, ◌≤◌, ◌+◌, length, IfOk, OnOk};
ghost use Rattle.vt_layout.specs.Strings.{HasNoNul};

use crate::tables::built::{are_built, inventory_of_sketch, is, structures_of_sketch};
use fixtures::{Sketch, SystemTexts};
use smbios_build::StringSet;
use smbios_model::{Body, Structure, SystemInfo};
use std::alloc::Global;
use std::process::Abort;
use std::test::Fail;
use table_model::Inventory;
use vt_outside::{Bytes, OutOfMemory, Text};

static LONGEST: Sketch = Sketch {
    top_mib: 64,
    texts: SystemTexts {
        manufacturer: "AAAAAAAAAAAAAAAAAAAAAAAAAAAAAAAAAAAAAAAAAAAAAAAAAAAAAAAAAAAAAAAA",
        product: "BBBBBBBBBBBBBBBBBBBBBBBBBBBBBBBBBBBBBBBBBBBBBBBBBBBBBBBBBBBBBBBB",
        version: "CCCCCCCCCCCCCCCCCCCCCCCCCCCCCCCCCCCCCCCCCCCCCCCCCCCCCCCCCCCCCCCC",
        serial: "DDDDDDDDDDDDDDDDDDDDDDDDDDDDDDDDDDDDDDDDDDDDDDDDDDDDDDDDDDDDDDDD",
        sku: "EEEEEEEEEEEEEEEEEEEEEEEEEEEEEEEEEEEEEEEEEEEEEEEEEEEEEEEEEEEEEEEE",
        family: "FFFFFFFFFFFFFFFFFFFFFFFFFFFFFFFFFFFFFFFFFFFFFFFFFFFFFFFFFFFFFFFF",
    },
    uuid: None,
    acpi: None,
    power: None,
    hpet: None,
};

// The formatted area of System Information, in which the texts have the numbers 1 to 6.
const FORMATTED: &[u8] =
    b"\x01\x1b\x00\x01\x01\x02\x03\x04\0\0\0\0\0\0\0\0\0\0\0\0\0\0\0\0\x06\x05\x06";

// The end of the strings, and the structure that is the end.
const END: &[u8] = b"\0\x7f\x04\x00\x7f\0\0";

#[test]
fn the_inventory_of_the_longest_texts(rt: HostRuntime) -> Result<(), Fail> {
    let inventory = inventory_of_sketch(rt.alloc(), &LONGEST)?;
    has_the_texts(&rt, &inventory);
    drop(inventory);
    Ok(())
}

fn has_the_texts(rt: &impl Abort, inventory: &Inventory) {
    match &inventory.smbios {
        Some(smbios) => are_first(rt, smbios.structures.as_slice()),
        None => panic!(rt; "no SMBIOS table"),
    }
}

// The texts are those of the first structure.
fn are_first(rt: &impl Abort, structures: &[Structure]) {
    match structures.first().map(|structure| &structure.body) {
        Some(Body::System(info)) => are_the_texts(rt, info),
        _ => panic!(rt; "another structure before the system"),
    }
}

fn are_the_texts(rt: &impl Abort, info: &SystemInfo) {
    is_text(rt, &info.manufacturer, b'A');
    is_text(rt, &info.product, b'B');
    is_text(rt, &info.version, b'C');
    is_text(rt, &info.serial, b'D');
    is_text(rt, &info.sku, b'E');
    is_text(rt, &info.family, b'F');
}

fn is_text(rt: &impl Abort, text: &Text, byte: u8) {
    is(rt, &text.as_slice(), &[byte; 64].as_slice());
}

#[test]
fn the_structures_of_the_longest_texts(rt: HostRuntime) -> Result<(), Fail> {
    let wanted = wanted(rt.alloc())?;
    let structures = structures_of_sketch(rt.alloc(), &LONGEST)?;
    are_built(&rt, rt.alloc(), structures.as_slice(), wanted.as_slice());
    Ok(())
}

// The formatted area, each text with its NUL, and the end.
fn wanted(alloc: Global) -> Result<Bytes, OutOfMemory> {
    let mut bytes = Bytes::new(alloc);
    bytes.extend(FORMATTED)?;
    for byte in b'A'..=b'F' {
        bytes.extend(&[byte; 64])?;
        bytes.push(0)?;
    }
    bytes.extend(END)?;
    Ok(bytes)
}

// A structure has at most 255 strings, since a string's number is a byte.
#[test]
fn the_most_strings(rt: HostRuntime) -> Result<(), Fail> {
    let last = last_number(rt.alloc())?;
    is(&rt, &last, &255);
    Ok(())
}

fn last_number(alloc: Global) -> Result<u8, OutOfMemory> {
    let text = longest_text(alloc)?;
    let mut strings = StringSet::new(alloc);
    let mut last = 0;
    for _place in 0..255_usize {
        last = add(&mut strings, &text)?;
    }
    Ok(last)
}

fn add(strings: &mut StringSet, text: &Text) -> Result<u8, OutOfMemory>
    requires few { length strings.old < 255 }
    requires no_nul { HasNoNul text.now }
    ensures { OnOk result (length strings.new ≤ length strings.old + 1) }
{
    strings.add(text)
}

fn longest_text(alloc: Global) -> Result<Text, OutOfMemory>
    ensures { IfOk result HasNoNul }
{
    let mut text = Text::new(alloc);
    text.extend(&[b'A'; 64])?;
    Ok(text)
}
