//! A machine with each part that SMBIOS tells: its structures as bytes, which were made by hand from DSP0134, 6.1 and chapter 7.

ghost use Rattle.std.specs.Prelude.{IfOk};
ghost use Rattle.smbios_build.specs.Buildable.{AreBuildable};

use crate::tables::built::{accepted_structures, are_built, text_of};
use fixtures::{MINIMAL_MACHINE, Sketch, machine_of};
use machine_desc::{Chassis, Dimm, Firmware, Machine, MemRange, Slot, Socket};
use smbios_model::Structure;
use std::alloc::Global;
use std::test::Fail;
use vt_outside::{List, OutOfMemory, Text};

static SKETCH: Sketch = Sketch {
    uuid: None,
    ..MINIMAL_MACHINE
};

// The firmware lies in the segment 0xE800, supports no characteristic, and is release 1.2.
const BIOS: &[u8] =
    b"\x00\x18\x00\x00\x01\x02\x00\xe8\x03\x00\x08\0\0\0\0\0\0\0\x00\x10\x01\x02\xff\xff\
    FW\x001.2\x0001/02/2024\0\0";

const SYSTEM: &[u8] =
    b"\x01\x1b\x00\x01\x01\x02\x00\x00\0\0\0\0\0\0\0\0\0\0\0\0\0\0\0\0\x06\x00\x00ACME\0VM\0\0";

// Of its texts, the version and the asset tag are empty.
const CHASSIS: &[u8] =
    b"\x03\x16\x00\x03\x01\x17\x00\x02\x00\x03\x03\x03\x02\0\0\0\0\0\0\0\0\x03ACME\0C1\0K\0\0";

// 255 cores and 256 threads at 2,000 MHz.
const FIRST_PROCESSOR: &[u8] =
    b"\x04\x30\x00\x04\x01\x03\x01\x02\0\0\0\0\0\0\0\0\x00\x00\0\0\xd0\x07\xd0\x07\x41\x01\
    \xff\xff\xff\xff\xff\xff\x00\x00\x03\xff\xff\xff\x02\x00\x01\x00\xff\x00\xff\x00\x00\x01CPU 0\0ACME\0P\0\0";

// 256 cores and threads at an unknown speed, and no texts.
const SECOND_PROCESSOR: &[u8] =
    b"\x04\x30\x01\x04\x00\x03\x01\x00\0\0\0\0\0\0\0\0\x00\x00\0\0\0\0\0\0\x41\x01\
    \xff\xff\xff\xff\xff\xff\x00\x00\x00\xff\xff\xff\x02\x00\x01\x00\x00\x01\x00\x01\x00\x01\0\0";

// A used slot at bus 3, device 4 and function 5, and a free one at device 31 and function 7.
const SLOTS: &[u8] = b"\x09\x11\x00\x09\x01\xa5\x08\x04\x01\x02\x01\x01\x00\0\0\x03\x25PCI 1\0\0\
    \x09\x11\x01\x09\x00\x06\x05\x03\x01\x02\x00\x01\x00\0\0\x00\xff\0\0";

const OEM_STRINGS: &[u8] = b"\x0b\x05\x00\x0e\x02one\0two\0\0";

// 32,766 and 32,767 MiB are 0x03fff400 KiB.
const ARRAY: &[u8] =
    b"\x10\x17\x00\x10\x03\x03\x03\x00\xf4\xff\x03\xfe\xff\x02\x00\0\0\0\0\0\0\0\0\0\0";

// 32,766 MiB, set to 3,200 MT/s, with one text.
const FIRST_DEVICE: &[u8] =
    b"\x11\x28\x00\x11\x00\x10\xfe\xff\xff\xff\xff\xff\xfe\x7f\x09\x00\x01\x00\x07\x02\x00\
    \x80\x0c\x00\x00\x00\x00\x00\0\0\0\0\x80\x0c\0\0\0\0\0\0A1\0\0";

// 32,767 MiB at an unknown speed, with six texts.
const SECOND_DEVICE: &[u8] =
    b"\x11\x28\x01\x11\x00\x10\xfe\xff\xff\xff\xff\xff\xff\x7f\x09\x00\x01\x02\x07\x02\x00\
    \x00\x00\x03\x04\x05\x06\x00\xff\x7f\x00\x00\x00\x00\0\0\0\0\0\0B1\0B\0M\0S\0T\0P\0\0";

// The first 64 MiB, and from 4 GiB on all below 4 TiB.
const RANGES: &[u8] =
    b"\x13\x1f\x00\x13\x00\x00\x00\x00\xff\xff\x00\x00\x00\x10\x01\0\0\0\0\0\0\0\0\0\0\0\0\0\0\0\0\0\0\
    \x13\x1f\x01\x13\xff\xff\xff\xff\xff\xff\xff\xff\x00\x10\x01\x00\x00\x00\x00\x01\x00\x00\x00\xff\xff\xff\xff\xff\x03\x00\x00\0\0";

const BOOT_AND_END: &[u8] = b"\x20\x0b\x00\x20\0\0\0\0\0\0\x00\0\0\x7f\x04\x00\x7f\0\0";

// All of them, in order.
static WANTED: [&[u8]; 12] = [
    BIOS,
    SYSTEM,
    CHASSIS,
    FIRST_PROCESSOR,
    SECOND_PROCESSOR,
    SLOTS,
    OEM_STRINGS,
    ARRAY,
    FIRST_DEVICE,
    SECOND_DEVICE,
    RANGES,
    BOOT_AND_END,
];

#[test]
fn the_structures_of_every_part(rt: HostRuntime) -> Result<(), Fail> {
    let wanted = wanted(rt.alloc())?;
    let structures = structures(rt.alloc())?;
    are_built(&rt, rt.alloc(), structures.as_slice(), wanted.as_slice());
    Ok(())
}

fn wanted(alloc: Global) -> Result<List<u8>, OutOfMemory> {
    let mut bytes = List::new(alloc);
    for part in &WANTED {
        bytes.extend(part)?;
    }
    Ok(bytes)
}

fn structures(alloc: Global) -> Result<List<Structure>, Fail>
    ensures { IfOk result (λ structures. AreBuildable structures) }
{
    let mut machine = machine_of(alloc, &SKETCH)?;
    let structures = described_structures(alloc, &mut machine);
    drop(machine);
    structures
}

fn described_structures(alloc: Global, machine: &mut Machine) -> Result<List<Structure>, Fail>
    ensures { IfOk result (λ structures. AreBuildable structures) }
{
    describe(alloc, machine)?;
    accepted_structures(alloc, machine)
}

// Adds the parts.
fn describe(alloc: Global, machine: &mut Machine) -> Result<(), OutOfMemory> {
    put_firmware(alloc, machine)?;
    put_chassis(alloc, machine)?;
    push_parts(alloc, machine)
}

fn put_firmware(alloc: Global, machine: &mut Machine) -> Result<(), OutOfMemory> {
    drop(machine.firmware.replace(firmware(alloc)?));
    Ok(())
}

fn put_chassis(alloc: Global, machine: &mut Machine) -> Result<(), OutOfMemory> {
    drop(machine.chassis.replace(chassis(alloc)?));
    Ok(())
}

fn push_parts(alloc: Global, machine: &mut Machine) -> Result<(), OutOfMemory> {
    push_sockets(alloc, &mut machine.sockets)?;
    push_slots(alloc, &mut machine.slots)?;
    push_texts(alloc, &mut machine.oem_strings)?;
    push_dimms(alloc, &mut machine.dimms)?;
    push_ranges(&mut machine.ranges)
}

fn firmware(alloc: Global) -> Result<Firmware, OutOfMemory> {
    let (vendor, version, date) = three_texts(alloc, b"FW", b"1.2", b"01/02/2024")?;
    Ok(Firmware {
        vendor,
        version,
        date,
        major: 1,
        minor: 2,
    })
}

fn three_texts(
    alloc: Global,
    first: &[u8],
    second: &[u8],
    third: &[u8],
) -> Result<(Text, Text, Text), OutOfMemory> {
    let first = text_of(alloc, first)?;
    let second = text_of(alloc, second)?;
    Ok((first, second, text_of(alloc, third)?))
}

fn chassis(alloc: Global) -> Result<Chassis, OutOfMemory> {
    let (manufacturer, serial, sku) = three_texts(alloc, b"ACME", b"C1", b"K")?;
    Ok(Chassis {
        manufacturer,
        version: Text::new(alloc),
        serial,
        asset: Text::new(alloc),
        sku,
        kind: 23,
    })
}

fn push_sockets(alloc: Global, sockets: &mut List<Socket>) -> Result<(), OutOfMemory> {
    sockets.push(first_socket(alloc)?)?;
    sockets.push(second_socket(alloc))
}

fn first_socket(alloc: Global) -> Result<Socket, OutOfMemory> {
    let (designation, manufacturer, part) = three_texts(alloc, b"CPU 0", b"ACME", b"P")?;
    Ok(Socket {
        designation,
        manufacturer,
        version: Text::new(alloc),
        serial: Text::new(alloc),
        asset: Text::new(alloc),
        part,
        cores: 255,
        threads: 256,
        mhz: 2000,
    })
}

fn second_socket(alloc: Global) -> Socket {
    Socket {
        designation: Text::new(alloc),
        manufacturer: Text::new(alloc),
        version: Text::new(alloc),
        serial: Text::new(alloc),
        asset: Text::new(alloc),
        part: Text::new(alloc),
        cores: 256,
        threads: 256,
        mhz: 0,
    }
}

fn push_slots(alloc: Global, slots: &mut List<Slot>) -> Result<(), OutOfMemory> {
    let designation = text_of(alloc, b"PCI 1")?;
    slots.push(Slot {
        designation,
        kind: 0xA5,
        width: 8,
        used: true,
        id: 0x0102,
        bus: 3,
        device: 4,
        function: 5,
    })?;
    slots.push(Slot {
        designation: Text::new(alloc),
        kind: 6,
        width: 5,
        used: false,
        id: 2,
        bus: 0,
        device: 31,
        function: 7,
    })
}

fn push_texts(alloc: Global, texts: &mut List<Text>) -> Result<(), OutOfMemory> {
    texts.push(text_of(alloc, b"one")?)?;
    texts.push(text_of(alloc, b"two")?)
}

fn push_dimms(alloc: Global, dimms: &mut List<Dimm>) -> Result<(), OutOfMemory> {
    dimms.push(first_dimm(alloc)?)?;
    dimms.push(second_dimm(alloc)?)
}

fn first_dimm(alloc: Global) -> Result<Dimm, OutOfMemory> {
    let locator = text_of(alloc, b"A1")?;
    Ok(Dimm {
        locator,
        bank: Text::new(alloc),
        manufacturer: Text::new(alloc),
        serial: Text::new(alloc),
        asset: Text::new(alloc),
        part: Text::new(alloc),
        size_mib: 32_766,
        speed: 3200,
    })
}

fn second_dimm(alloc: Global) -> Result<Dimm, OutOfMemory> {
    let (locator, bank, manufacturer) = three_texts(alloc, b"B1", b"B", b"M")?;
    let (serial, asset, part) = three_texts(alloc, b"S", b"T", b"P")?;
    Ok(Dimm {
        locator,
        bank,
        manufacturer,
        serial,
        asset,
        part,
        size_mib: 32_767,
        speed: 0,
    })
}

fn push_ranges(ranges: &mut List<MemRange>) -> Result<(), OutOfMemory> {
    ranges.push(MemRange {
        base_mib: 0,
        size_mib: 64,
        node: 0,
    })?;
    ranges.push(MemRange {
        base_mib: 4096,
        size_mib: 4_190_208,
        node: 0,
    })
}
