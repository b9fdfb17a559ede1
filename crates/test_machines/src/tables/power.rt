//! The FACS and the FADT of power management, as records and as files with holes. What is expected was made by hand from ACPI 6.5, 5.2.9
//! and 5.2.10; each checksum is still zero, and each address is an offset of the file of the tables.

ghost use Rattle.std.specs.Prelude.{◌≡◌, length, IsSome};

use crate::tables::built::is;
use crate::tables::files::five_bytes;
use acpi_fixed::{TABLES_FILE, append_facs, append_fadt};
use acpi_model::{Facs, Fadt, GenericAddress, Head};
use blob_holes::{Blob, Parts, PointerHole, SumHole};
use fixtures::{FULL_MACHINE, MINIMAL_MACHINE, Sketch, machine_of};
use machine_desc::{Machine, Power};
use std::alloc::Global;
use std::fmt::Debug;
use std::process::Abort;
use std::test::Fail;
use vt_layout::{Laid, read};
use vt_outside::{Bytes, Name, OutOfMemory};

/// The FACS of each machine.
pub static FACS: Facs = Facs {
    hardware_signature: 0,
    waking: 0,
    lock: 0,
    flags: 0,
    x_waking: 0,
    version: 2,
    ospm_flags: 0,
};

/// The FADT of the machine `FULL_MACHINE`.
pub static FADT: Fadt = Fadt {
    head: Head {
        revision: 6,
        oem_id: *b"ACME  ",
        oem_table_id: *b"VMTABLE ",
        oem_revision: 1,
        creator_id: *b"VMTB",
        creator_revision: 1,
    },
    profile: 3,
    sci: 0x0102,
    smi_cmd: 0,
    acpi_enable: 0,
    acpi_disable: 0,
    s4bios_req: 0,
    pstate_cnt: 0,
    pm1a_evt: 0x0604,
    pm1b_evt: 0,
    pm1a_cnt: 0x0608,
    pm1b_cnt: 0,
    pm2_cnt: 0,
    pm_tmr: 0x060C,
    gpe0: 0x0620,
    gpe1: 0,
    pm1_evt_len: 4,
    pm1_cnt_len: 2,
    pm2_cnt_len: 0,
    pm_tmr_len: 4,
    gpe0_len: 16,
    gpe1_len: 0,
    gpe1_base: 0,
    cst_cnt: 0,
    p_lvl2_lat: 0x0FFF,
    p_lvl3_lat: 0x0FFF,
    flush_size: 0,
    flush_stride: 0,
    duty_offset: 0,
    duty_width: 0,
    day_alrm: 0,
    mon_alrm: 0,
    century: 0x32,
    iapc_boot_arch: 3,
    flags: 0x5A5,
    reset_reg: GenericAddress {
        width: 8,
        access: 1,
        address: 0x0CF9,
        ..PORT
    },
    reset_value: 15,
    arm_boot_arch: 0,
    minor: 5,
    x_pm1a_evt: GenericAddress {
        width: 32,
        access: 2,
        address: 0x0604,
        ..PORT
    },
    x_pm1b_evt: NO_REGISTER,
    x_pm1a_cnt: GenericAddress {
        width: 16,
        access: 2,
        address: 0x0608,
        ..PORT
    },
    x_pm1b_cnt: NO_REGISTER,
    x_pm2_cnt: NO_REGISTER,
    x_pm_tmr: GenericAddress {
        width: 32,
        access: 3,
        address: 0x060C,
        ..PORT
    },
    x_gpe0: GenericAddress {
        width: 128,
        access: 1,
        address: 0x0620,
        ..PORT
    },
    x_gpe1: NO_REGISTER,
    sleep_control: NO_REGISTER,
    sleep_status: NO_REGISTER,
    hypervisor: 0,
};

const NO_REGISTER: GenericAddress = GenericAddress {
    space: 0,
    width: 0,
    offset: 0,
    access: 0,
    address: 0,
};

// A register in I/O space.
const PORT: GenericAddress = GenericAddress {
    space: 1,
    ..NO_REGISTER
};

// Five bytes up to the next multiple of 16.
const FIVE_BYTES: &[u8] = b"\x07\x07\x07\x07\x07\0\0\0\0\0\0\0\0\0\0\0";

// The fields of a FACS that aren't zero, at their offsets: signature, length and version.
static FACS_FIELDS: &[(usize, &[u8])] = &[(0, b"FACS"), (4, b"\x40\0\0\0"), (32, b"\x02")];

// Those of that FADT, which leads to a FACS at 16 and to a DSDT at 0x05060780.
static FADT_FIELDS: &[(usize, &[u8])] = &[
    // signature, length and revision
    (0, b"FACP\x14\x01\0\0\x06"),
    // the maker, and the revisions
    (10, b"ACME  VMTABLE \x01\0\0\0VMTB\x01\0\0\0"),
    // DSDT
    (40, b"\x80\x07\x06\x05"),
    // the profile, and the interrupt
    (45, b"\x03\x02\x01"),
    // the ports of PM1a_EVT_BLK, PM1a_CNT_BLK, PM_TMR_BLK and GPE0_BLK
    (56, b"\x04\x06\0\0"),
    (64, b"\x08\x06\0\0"),
    (76, b"\x0C\x06\0\0"),
    (80, b"\x20\x06\0\0"),
    // PM1_EVT_LEN, PM1_CNT_LEN, PM_TMR_LEN and GPE0_LEN
    (88, b"\x04"),
    (89, b"\x02"),
    (91, b"\x04"),
    (92, b"\x10"),
    // P_LVL2_LAT and P_LVL3_LAT
    (96, b"\xFF\x0F"),
    (98, b"\xFF\x0F"),
    // CENTURY, IAPC_BOOT_ARCH and the flags
    (108, b"\x32"),
    (109, b"\x03\0"),
    (112, b"\xA5\x05\0\0"),
    // RESET_REG and RESET_VALUE
    (116, b"\x01\x08\0\x01\xF9\x0C\0\0\0\0\0\0"),
    (128, b"\x0F"),
    // the minor version
    (131, b"\x05"),
    // X_FIRMWARE_CTRL and X_DSDT
    (132, b"\x10\0\0\0\0\0\0\0"),
    (140, b"\x80\x07\x06\x05\0\0\0\0"),
    // X_PM1a_EVT_BLK, X_PM1a_CNT_BLK, X_PM_TMR_BLK and X_GPE0_BLK
    (148, b"\x01\x20\0\x02\x04\x06\0\0\0\0\0\0"),
    (172, b"\x01\x10\0\x02\x08\x06\0\0\0\0\0\0"),
    (208, b"\x01\x20\0\x03\x0C\x06\0\0\0\0\0\0"),
    (220, b"\x01\x80\0\x01\x20\x06\0\0\0\0\0\0"),
];

// Those of the FADT of a machine that has no more than it needs, with ports at the border, and which leads to a FACS at 0x01020340 and to
// a DSDT at 0x40000000.
static LEAST_FIELDS: &[(usize, &[u8])] = &[
    (0, b"FACP\x14\x01\0\0\x06"),
    (10, b"BOCHS BXPC    \x01\0\0\0VMTB\x01\0\0\0"),
    (40, b"\0\0\0\x40"),
    (56, b"\xFF\xFF\0\0"),
    (64, b"\x01\0\0\0"),
    (76, b"\0\x01\0\0"),
    (88, b"\x04\x02"),
    (91, b"\x04"),
    (96, b"\xFF\x0F\xFF\x0F"),
    (112, b"\xA5\x01\0\0"),
    (131, b"\x05"),
    (132, b"\x40\x03\x02\x01\0\0\0\0\0\0\0\x40\0\0\0\0"),
    (148, b"\x01\x20\0\x02\xFF\xFF\0\0\0\0\0\0"),
    (172, b"\x01\x10\0\x02\x01\0\0\0\0\0\0\0"),
    (208, b"\x01\x20\0\x03\0\x01\0\0\0\0\0\0"),
];

// Those of the FADT of a machine with the greatest numbers.
static MOST_FIELDS: &[(usize, &[u8])] = &[
    (0, b"FACP\x14\x01\0\0\x06"),
    (10, b"BOCHS BXPC    \x01\0\0\0VMTB\x01\0\0\0"),
    (40, b"\0\0\0\x40"),
    (45, b"\xFF\xFF\xFF"),
    (56, b"\xFF\xFF\0\0"),
    (64, b"\xFF\xFF\0\0"),
    (76, b"\xFF\xFF\0\0\xFF\xFF\0\0"),
    (88, b"\x04\x02"),
    (91, b"\x04\x1E"),
    (96, b"\xFF\x0F\xFF\x0F"),
    (108, b"\xFF\x03\0"),
    (112, b"\xA5\x05\0\0"),
    (116, b"\x01\x08\0\x01\xFF\xFF\0\0\0\0\0\0\xFF"),
    (131, b"\x05"),
    (132, b"\x40\x03\x02\x01\0\0\0\0\0\0\0\x40\0\0\0\0"),
    (148, b"\x01\x20\0\x02\xFF\xFF\0\0\0\0\0\0"),
    (172, b"\x01\x10\0\x02\xFF\xFF\0\0\0\0\0\0"),
    (208, b"\x01\x20\0\x03\xFF\xFF\0\0\0\0\0\0"),
    (220, b"\x01\xF0\0\x01\xFF\xFF\0\0\0\0\0\0"),
];

const LEAST: Power = Power {
    sci: 0,
    profile: 0,
    event: 0xFFFF,
    control: 1,
    timer: 0x0100,
    gpe: 0,
    gpe_len: 0,
    reset: 0,
    reset_value: 0,
    century: 0,
    rtc: false,
    keyboard: false,
};

const MOST: Power = Power {
    sci: 0xFFFF,
    profile: 0xFF,
    event: 0xFFFF,
    control: 0xFFFF,
    timer: 0xFFFF,
    gpe: 0xFFFF,
    gpe_len: 30,
    reset: 0xFFFF,
    reset_value: 0xFF,
    century: 0xFF,
    rtc: true,
    keyboard: true,
};

// Statics, since a constant is made anew in the proof of whoever lends it.
static FULL: Sketch = FULL_MACHINE;

static LEAST_MACHINE: Sketch = Sketch {
    acpi: Some(("BOCHS", "BXPC")),
    power: Some(LEAST),
    ..MINIMAL_MACHINE
};

static MOST_MACHINE: Sketch = Sketch {
    acpi: Some(("BOCHS", "BXPC")),
    power: Some(MOST),
    ..MINIMAL_MACHINE
};

#[test]
fn power_management_behind_five_bytes(rt: HostRuntime) -> Result<(), Fail> {
    let tables = Name::of(TABLES_FILE)?;
    let parts = file_of_full(rt.alloc())?;
    let told = are_behind_five_bytes(&rt, rt.alloc(), &parts, &tables);
    drop(parts);
    told
}

// The FACS is at the next multiple of 16, and has no checksum; the FADT is behind it, and leads to it and to a DSDT.
fn are_behind_five_bytes(
    rt: &impl Abort,
    alloc: Global,
    parts: &Parts,
    tables: &Name,
) -> Result<(), Fail> {
    has_pointers(rt, parts.pointers.as_slice(), 80, tables);
    has_a_sum(rt, parts.sums.as_slice(), 80);
    let bytes = parts.bytes.as_slice();
    if bytes.len() != 356 {
        return Err(Fail::from("another size than 356 bytes"));
    }
    is(rt, &&bytes[..16], &FIVE_BYTES);
    are_fields(rt, alloc, &bytes[16..80], FACS_FIELDS)?;
    are_fields(rt, alloc, &bytes[80..], FADT_FIELDS)
}

#[test]
fn fadts_of_the_least_and_the_greatest_numbers(rt: HostRuntime) -> Result<(), Fail> {
    is_fadt(&rt, rt.alloc(), &LEAST_MACHINE, LEAST_FIELDS)?;
    is_fadt(&rt, rt.alloc(), &MOST_MACHINE, MOST_FIELDS)
}

// The FADT of the machine, which leads to a FACS at 0x01020340 and to a DSDT at 0x40000000, has these fields.
fn is_fadt(
    rt: &impl Abort,
    alloc: Global,
    sketch: &Sketch,
    fields: &[(usize, &[u8])],
) -> Result<(), Fail>
    requires { IsSome sketch.now.power }
{
    let tables = Name::of(TABLES_FILE)?;
    let parts = fadt_alone(alloc, sketch)?;
    has_pointers(rt, parts.pointers.as_slice(), 0, &tables);
    has_a_sum(rt, parts.sums.as_slice(), 0);
    let told = are_fields(rt, alloc, parts.bytes.as_slice(), fields);
    drop(parts);
    told
}

// There are three pointers to places in that file, of an FADT at `start`: DSDT, X_FIRMWARE_CTRL and X_DSDT.
fn has_pointers(rt: &impl Abort, pointers: &[PointerHole], start: u32, tables: &Name) {
    match pointers {
        [dsdt, x_firmware_ctrl, x_dsdt] => {
            is_pointer(rt, dsdt, start.saturating_add(40), 4, tables);
            is_pointer(rt, x_firmware_ctrl, start.saturating_add(132), 8, tables);
            is_pointer(rt, x_dsdt, start.saturating_add(140), 8, tables);
        }
        _ => panic!(rt; "another number of pointers than three"),
    }
}

fn is_pointer(rt: &impl Abort, pointer: &PointerHole, place: u32, size: u8, tables: &Name) {
    is(
        rt,
        &(pointer.at, pointer.size, pointer.target),
        &(place, size, *tables),
    );
}

// There is one sum, over a table of 276 bytes at `start`.
fn has_a_sum(rt: &impl Abort, sums: &[SumHole], start: u32) {
    match sums {
        [sum] => is(
            rt,
            &(sum.at.saturating_sub(9), sum.start, sum.length),
            &(start, start, 276),
        ),
        _ => panic!(rt; "another number of sums than one"),
    }
}

// The bytes have these fields at their offsets, and are else zero.
fn are_fields(
    rt: &impl Abort,
    alloc: Global,
    bytes: &[u8],
    fields: &[(usize, &[u8])],
) -> Result<(), Fail> {
    let wanted = with_fields(alloc, fields, bytes.len())?;
    is(rt, &bytes, &wanted.as_slice());
    Ok(())
}

fn with_fields(
    alloc: Global,
    fields: &[(usize, &[u8])],
    size: usize,
) -> Result<Bytes, OutOfMemory> {
    let mut bytes = Bytes::new(alloc);
    for (offset, field) in fields {
        put_at(&mut bytes, *offset, field)?;
    }
    put_at(&mut bytes, size, &[])?;
    Ok(bytes)
}

// Appends zeros up to an offset, and a field there.
fn put_at(bytes: &mut Bytes, offset: usize, field: &[u8]) -> Result<(), OutOfMemory> {
    for _place in bytes.len()..offset {
        bytes.push(0)?;
    }
    bytes.extend(field)
}

fn file_of_full(alloc: Global) -> Result<Parts, Fail> {
    let mut blob = five_bytes(alloc)?;
    append_of_full(alloc, &mut blob)?;
    Ok(blob.finish())
}

// Whoever has the blob doesn't own the machine.
fn append_of_full(alloc: Global, blob: &mut Blob) -> Result<(), Fail>
    requires { length blob.old.bytes ≡ 5 }
{
    let machine = machine_of(alloc, &FULL)?;
    let appended = append_both(blob, &machine);
    drop(machine);
    appended
}

fn append_both(blob: &mut Blob, machine: &Machine) -> Result<(), Fail>
    requires bytes { length blob.old.bytes ≡ 5 }
    requires power { IsSome machine.now.power }
{
    if machine.check().is_err() {
        return Err(Fail::from("a machine that breaks a rule"));
    }
    let facs = append_facs(blob)?;
    append_fadt(blob, machine, facs, 0x0506_0780)?;
    Ok(())
}

fn fadt_alone(alloc: Global, sketch: &Sketch) -> Result<Parts, Fail>
    requires { IsSome sketch.now.power }
{
    let mut blob = Blob::new(alloc);
    append_alone(alloc, &mut blob, sketch)?;
    Ok(blob.finish())
}

fn append_alone(alloc: Global, blob: &mut Blob, sketch: &Sketch) -> Result<(), Fail>
    requires bytes { length blob.old.bytes ≡ 0 }
    requires power { IsSome sketch.now.power }
{
    let machine = machine_of(alloc, sketch)?;
    let appended = append_to_facs(blob, &machine);
    drop(machine);
    appended
}

fn append_to_facs(blob: &mut Blob, machine: &Machine) -> Result<(), Fail>
    requires bytes { length blob.old.bytes ≡ 0 }
    requires power { IsSome machine.now.power }
{
    if machine.check().is_err() {
        return Err(Fail::from("a machine that breaks a rule"));
    }
    append_fadt(blob, machine, 0x0102_0340, 0x4000_0000)?;
    Ok(())
}

#[test]
fn a_facs_and_an_fadt_are_read(rt: HostRuntime) -> Result<(), Fail> {
    let facs = with_fields(rt.alloc(), FACS_FIELDS, 64)?;
    is_read(&rt, rt.alloc(), facs.as_slice(), &FACS);
    let fadt = with_fields(rt.alloc(), FADT_FIELDS, 276)?;
    is_read(&rt, rt.alloc(), fadt.as_slice(), &FADT);
    Ok(())
}

// The record is read of the bytes, and none of fewer.
fn is_read<T: Laid + Debug + PartialEq>(rt: &impl Abort, alloc: Global, bytes: &[u8], wanted: &T) {
    match read::<T>(alloc, bytes, &[]) {
        Ok(record) => is(rt, &record, wanted),
        Err(_) => panic!(rt; "no record"),
    }
    if let Some((_, fewer)) = bytes.split_first() {
        assert!(rt; read::<T>(alloc, fewer, &[]).is_err());
    }
}
