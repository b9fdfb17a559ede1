//! Each number and each text of the records of a table with every type. What is expected was made by hand from DSP0134, chapter 7: a
//! number stands with its low byte first.

use crate::structures::every_structure;
use smbios_decode::{SmbiosFault, decode_table};
use smbios_model::{
    ArrayInfo, BiosInfo, Body, BootInfo, ChassisInfo, DeviceInfo, MappedInfo, ProcessorInfo,
    SlotInfo, Structure, SystemInfo,
};
use std::alloc::Global;
use std::fmt::Debug;
use std::process::Abort;
use std::test::Fail;
use vt_outside::{List, Text};

static ARRAY: ArrayInfo = ArrayInfo {
    location: 3,
    purpose: 4,
    correction: 5,
    capacity: 0x0804_0200,
    error: 0xFFFE,
    devices: 0x0102,
    extended: 0x100F_0E0D_0C0B_0A09,
};

static MAPPED: MappedInfo = MappedInfo {
    start: 0x0403_0201,
    end: 0x0807_0605,
    array: 7,
    width: 0x0A,
    ext_start: 0x1817_1615_1413_1211,
    ext_end: 0x2827_2625_2423_2221,
};

static BOOT: BootInfo = BootInfo { status: 0x85 };

// A record's name, its texts in the order of its fields, and what its bytes and its numbers of two bytes are.
struct Record {
    name: &'static str,
    texts: &'static [&'static [u8]],
    bytes: &'static [u8],
    words: &'static [u16],
}

static BIOS: Record = Record {
    name: "BIOS",
    texts: &[b"FW", b"1.2", b"01/02/2024"],
    bytes: &[5, 0x0A, 0x0B, 0x0C, 0x0D, 0x0E, 0x0F],
    words: &[0x1234],
};

static SYSTEM: Record = Record {
    name: "system",
    texts: &[b"ACME", b"VM", b"", b"SN 7", b"K", b"VM"],
    bytes: &[
        0x33, 0x22, 0x11, 0x00, 0x55, 0x44, 0x77, 0x66, 0x88, 0x99, 0xAA, 0xBB, 0xCC, 0xDD, 0xEE,
        0xFF,
    ],
    words: &[],
};

static CHASSIS: Record = Record {
    name: "chassis",
    texts: &[b"ACME", b"", b"C1", b"A7", b"K"],
    bytes: &[0x17, 3, 4, 5, 6, 7, 8, 0, 9],
    words: &[],
};

static PROCESSOR: Record = Record {
    name: "processor",
    texts: &[b"CPU 0", b"ACME", b"V", b"S1", b"A1", b"P1"],
    bytes: &[3, 0xB3, 0x8D, 0x41, 6, 0x10, 0x11, 0x12],
    words: &[
        100, 4000, 3000, 0x0701, 0x0702, 0x0703, 0xFC, 0xB4, 0x0109, 0x010A, 0x010B,
    ],
};

static SLOT: Record = Record {
    name: "slot",
    texts: &[b"PCI 1"],
    bytes: &[0xA5, 0x0D, 4, 3, 0x0C, 5, 8, 0x25],
    words: &[0x0102, 0x0706],
};

static DEVICE: Record = Record {
    name: "memory device",
    texts: &[b"A1", b"B", b"M", b"", b"B", b"P"],
    bytes: &[9, 0x0B, 0x1A, 0x0D],
    words: &[
        7, 0xFFFE, 72, 64, 0x7FFF, 0x2080, 3200, 400, 1200, 1300, 1400,
    ],
};

#[test]
fn fields_of_records(rt: HostRuntime) -> Result<(), Fail> {
    let bytes = every_structure(rt.alloc())?;
    are_read_as_made(&rt, rt.alloc(), bytes.as_slice())
}

fn are_read_as_made(rt: &impl Abort, alloc: Global, bytes: &[u8]) -> Result<(), Fail> {
    let structures = read(alloc, bytes)?;
    are_as_made(rt, structures.as_slice());
    Ok(())
}

// There are twelve structures, the last of which is the end, and their handles count up from 1.
fn are_as_made(rt: &impl Abort, structures: &[Structure]) {
    let mut handle = 0_u16;
    for structure in structures {
        handle = handle.saturating_add(1);
        is(rt, &structure.handle, &handle, "handle");
        is_as_made(rt, structure);
    }
    is(rt, &structures.len(), &12, "structures");
}

fn is_as_made(rt: &impl Abort, structure: &Structure) {
    match &structure.body {
        Body::Bios(info) => is_bios(rt, info),
        Body::System(info) => is_system(rt, info),
        Body::Chassis(info) => is_chassis(rt, info),
        Body::Processor(info) => is_processor(rt, info),
        Body::Slot(info) => is_slot(rt, info),
        Body::Array(info) => is(rt, info, &ARRAY, "array"),
        Body::Device(info) => is_device(rt, info),
        Body::Mapped(info) => is(rt, info, &MAPPED, "mapped range"),
        Body::Boot(info) => is(rt, info, &BOOT, "boot"),
        Body::OemStrings(texts) => are_listed(rt, texts.as_slice(), &[b"one", b"two"]),
        Body::Raw {
            kind,
            area,
            strings,
        } => {
            is(rt, kind, &2, "raw");
            is(rt, &area.as_slice(), &b"\x01\x02\x00\x09".as_slice(), "raw");
            are_listed(rt, strings.as_slice(), &[b"", b"AB"]);
        }
        Body::End => {}
    }
}

fn is_bios(rt: &impl Abort, info: &BiosInfo) {
    are_texts(rt, &[&info.vendor, &info.version, &info.date], &BIOS);
    is_number(rt, info.characteristics, 0x8877_6655_4433_2211, &BIOS);
    are_words(rt, &[info.segment], &BIOS);
    are_bytes(
        rt,
        &[
            info.rom_size,
            info.ext1,
            info.ext2,
            info.major,
            info.minor,
            info.ec_major,
            info.ec_minor,
        ],
        &BIOS,
    );
}

fn is_system(rt: &impl Abort, info: &SystemInfo) {
    are_texts(
        rt,
        &[
            &info.manufacturer,
            &info.product,
            &info.version,
            &info.serial,
            &info.sku,
            &info.family,
        ],
        &SYSTEM,
    );
    is_number(rt, u64::from(info.wake_up), 6, &SYSTEM);
    are_bytes(rt, &info.uuid, &SYSTEM);
}

fn is_chassis(rt: &impl Abort, info: &ChassisInfo) {
    are_texts(
        rt,
        &[
            &info.manufacturer,
            &info.version,
            &info.serial,
            &info.asset,
            &info.sku,
        ],
        &CHASSIS,
    );
    is_number(rt, u64::from(info.oem), 0x1234_5678, &CHASSIS);
    are_chassis_bytes(rt, info);
}

fn are_chassis_bytes(rt: &impl Abort, info: &ChassisInfo) {
    are_bytes(
        rt,
        &[
            info.kind,
            info.boot,
            info.supply,
            info.thermal,
            info.security,
            info.height,
            info.cords,
            info.elements,
            info.element_length,
        ],
        &CHASSIS,
    );
}

fn is_processor(rt: &impl Abort, info: &ProcessorInfo) {
    are_texts(
        rt,
        &[
            &info.designation,
            &info.manufacturer,
            &info.version,
            &info.serial,
            &info.asset,
            &info.part,
        ],
        &PROCESSOR,
    );
    is_number(rt, info.id, 0x0807_0605_0403_0201, &PROCESSOR);
    are_processor_bytes(rt, info);
    are_processor_words(rt, info);
}

fn are_processor_bytes(rt: &impl Abort, info: &ProcessorInfo) {
    are_bytes(
        rt,
        &[
            info.kind,
            info.family,
            info.voltage,
            info.status,
            info.upgrade,
            info.cores,
            info.enabled,
            info.threads,
        ],
        &PROCESSOR,
    );
}

fn are_processor_words(rt: &impl Abort, info: &ProcessorInfo) {
    are_words(
        rt,
        &[
            info.clock,
            info.max_speed,
            info.speed,
            info.l1,
            info.l2,
            info.l3,
            info.characteristics,
            info.family2,
            info.cores2,
            info.enabled2,
            info.threads2,
        ],
        &PROCESSOR,
    );
}

fn is_slot(rt: &impl Abort, info: &SlotInfo) {
    are_texts(rt, &[&info.designation], &SLOT);
    are_words(rt, &[info.id, info.segment], &SLOT);
    are_bytes(
        rt,
        &[
            info.kind,
            info.width,
            info.usage,
            info.length,
            info.char1,
            info.char2,
            info.bus,
            info.device_function,
        ],
        &SLOT,
    );
}

fn is_device(rt: &impl Abort, info: &DeviceInfo) {
    are_texts(
        rt,
        &[
            &info.locator,
            &info.bank,
            &info.manufacturer,
            &info.serial,
            &info.asset,
            &info.part,
        ],
        &DEVICE,
    );
    are_bytes(
        rt,
        &[info.form, info.set, info.kind, info.attributes],
        &DEVICE,
    );
    is_number(rt, u64::from(info.extended), 0x0403_0201, &DEVICE);
    are_device_words(rt, info);
}

fn are_device_words(rt: &impl Abort, info: &DeviceInfo) {
    are_words(
        rt,
        &[
            info.array,
            info.error,
            info.total_width,
            info.data_width,
            info.size,
            info.detail,
            info.speed,
            info.configured,
            info.min_voltage,
            info.max_voltage,
            info.voltage,
        ],
        &DEVICE,
    );
}

fn are_texts(rt: &impl Abort, texts: &[&Text], record: &Record) {
    is(rt, &texts.len(), &record.texts.len(), record.name);
    for (text, wanted) in texts.iter().zip(record.texts) {
        is(rt, &text.as_slice(), wanted, record.name);
    }
}

fn are_listed(rt: &impl Abort, texts: &[Text], wanted: &[&[u8]]) {
    is(rt, &texts.len(), &wanted.len(), "texts");
    for (text, wanted) in texts.iter().zip(wanted) {
        is(rt, &text.as_slice(), wanted, "text");
    }
}

fn are_bytes(rt: &impl Abort, bytes: &[u8], record: &Record) {
    is(rt, &bytes, &record.bytes, record.name);
}

fn are_words(rt: &impl Abort, words: &[u16], record: &Record) {
    is(rt, &words, &record.words, record.name);
}

fn is_number(rt: &impl Abort, number: u64, wanted: u64, record: &Record) {
    is(rt, &number, &wanted, record.name);
}

/// Asserts that a value is what is wanted. A failure tells what it is of.
pub fn is<T: Debug + PartialEq>(rt: &impl Abort, is: &T, wanted: &T, of: &str) {
    assert_eq!(rt; *is, *wanted, "{of}");
}

/// Reads `bytes`, of which no test has as many as the reader doesn't take.
pub fn read(alloc: Global, bytes: &[u8]) -> Result<List<Structure>, SmbiosFault> {
    if bytes.len() >= 1 << 32 {
        return Err(SmbiosFault::OutOfMemory);
    }
    decode_table(alloc, bytes)
}
