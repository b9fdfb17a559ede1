//! Numbers of structures at their borders, where another field takes over. What is expected was made by hand from DSP0134, 7.17, 7.18
//! and 7.20.

use crate::tables::built::is;
use machine_desc::{Dimm, MemRange};
use smbios_model::{ArrayInfo, MappedInfo, array_of, device_of, mapped_of};
use std::alloc::Global;
use std::test::Fail;
use vt_outside::{OutOfMemory, Text};

// An array of one module of 2 TiB less 1 MiB.
const BELOW_TWO_TIB: ArrayInfo = ArrayInfo {
    location: 3,
    purpose: 3,
    correction: 3,
    capacity: 0x7FFF_FC00,
    error: 0xFFFE,
    devices: 1,
    extended: 0,
};

// One of 2 TiB.
const TWO_TIB: ArrayInfo = ArrayInfo {
    capacity: 0x8000_0000,
    extended: 0x200_0000_0000,
    ..BELOW_TWO_TIB
};

// How many MiB one module has, and the array of it.
static ARRAYS: [(u32, ArrayInfo); 2] = [(2_097_151, BELOW_TWO_TIB), (2_097_152, TWO_TIB)];

#[test]
fn arrays_around_2_tib(rt: HostRuntime) {
    for (size_mib, wanted) in &ARRAYS {
        is(&rt, &array(rt.alloc(), *size_mib), wanted);
    }
}

fn array(alloc: Global, size_mib: u32) -> ArrayInfo {
    array_of(&[dimm(alloc, size_mib)])
}

fn dimm(alloc: Global, size_mib: u32) -> Dimm {
    Dimm {
        locator: Text::new(alloc),
        bank: Text::new(alloc),
        manufacturer: Text::new(alloc),
        serial: Text::new(alloc),
        asset: Text::new(alloc),
        part: Text::new(alloc),
        size_mib,
        speed: 0,
    }
}

// How many MiB a module has, and the two fields of its size.
static SIZES: [(u32, (u16, u32)); 4] = [
    (1, (1, 0)),
    (32_766, (0x7FFE, 0)),
    (32_767, (0x7FFF, 32_767)),
    (16_777_216, (0x7FFF, 16_777_216)),
];

#[test]
fn devices_around_32767_mib(rt: HostRuntime) -> Result<(), Fail> {
    for (size_mib, wanted) in &SIZES {
        is(&rt, &size_fields(rt.alloc(), *size_mib)?, wanted);
    }
    Ok(())
}

fn size_fields(alloc: Global, size_mib: u32) -> Result<(u16, u32), OutOfMemory> {
    let dimm = dimm(alloc, size_mib);
    let fields = size_fields_of(&dimm);
    drop(dimm);
    fields
}

fn size_fields_of(dimm: &Dimm) -> Result<(u16, u32), OutOfMemory> {
    let device = device_of(dimm)?;
    let fields = (device.size, device.extended);
    drop(device);
    Ok(fields)
}

// From 4 GiB to 4 TiB less 1 MiB.
const BELOW_FOUR_TIB: MappedInfo = MappedInfo {
    start: 0x0040_0000,
    end: 0xFFFF_FBFF,
    array: 0x1000,
    width: 1,
    ext_start: 0,
    ext_end: 0,
};

// From 4 GiB to 4 TiB.
const TO_FOUR_TIB: MappedInfo = MappedInfo {
    start: 0xFFFF_FFFF,
    end: 0xFFFF_FFFF,
    array: 0x1000,
    width: 1,
    ext_start: 0x1_0000_0000,
    ext_end: 0x3FF_FFFF_FFFF,
};

// How many MiB a range has, and what is told of it.
static RANGES: [(u32, MappedInfo); 2] = [(4_190_207, BELOW_FOUR_TIB), (4_190_208, TO_FOUR_TIB)];

#[test]
fn ranges_around_4_tib(rt: HostRuntime) {
    for (size_mib, wanted) in &RANGES {
        is(&rt, &mapped(*size_mib), wanted);
    }
}

// A range of so many MiB from 4 GiB on.
fn mapped(size_mib: u32) -> MappedInfo {
    mapped_of(MemRange {
        base_mib: 4096,
        size_mib,
        node: 0,
    })
}
