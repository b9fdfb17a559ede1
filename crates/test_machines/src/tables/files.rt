//! ACPI tables as files with holes. The bytes were made by hand from ACPI 6.5, 5.2.5.3, 5.2.6 and 5.2.8, and IA-PC HPET
//! 1.0a, 3.2.4; each checksum is still zero, and each address is an offset of the file of the tables.

ghost use Rattle.std.specs.Prelude.{◌≡◌, length, IfOk, IsSome};

use crate::tables::built::is;
use acpi_fixed::{TABLES_FILE, append_hpet, append_rsdp, append_xsdt};
use blob_holes::{Blob, Parts, PointerHole, SumHole};
use fixtures::full_machine;
use machine_desc::Machine;
use std::alloc::Global;
use std::process::Abort;
use std::test::Fail;
use vt_outside::{Name, OutOfMemory};

// Five bytes, and each table at the next multiple of 16.
const FILE: &[u8] = b"\x07\x07\x07\x07\x07\0\0\0\0\0\0\0\0\0\0\0\
    HPET\x38\0\0\0\x01\0ACME  VMTABLE \x01\0\0\0VMTB\x01\0\0\0\
    \x04\x03\x02\x01\0\x40\0\0\0\x04\xD0\xFE\0\0\0\0\x05\x07\x06\0\
    \0\0\0\0\0\0\0\0\
    XSDT\x34\0\0\0\x01\0ACME  VMTABLE \x01\0\0\0VMTB\x01\0\0\0\
    \x10\0\0\0\0\0\0\0\x40\x03\x02\x01\0\0\0\0\
    \0\0\0\0\0\0\0\0\0\0\0\0\
    RSD PTR \0ACME  \x02\0\0\0\0\x24\0\0\0\
    \x50\0\0\0\0\0\0\0\0\0\0\0";

// The checksums of the HPET table, the XSDT and the RSDP, and the RSDP's extended one.
static SUMS: [SumHole; 4] = [
    SumHole {
        at: 25,
        start: 16,
        length: 56,
    },
    SumHole {
        at: 89,
        start: 80,
        length: 52,
    },
    SumHole {
        at: 152,
        start: 144,
        length: 20,
    },
    SumHole {
        at: 176,
        start: 144,
        length: 36,
    },
];

#[test]
fn acpi_tables(rt: HostRuntime) -> Result<(), Fail> {
    is(&rt, &TABLES_FILE, &"etc/acpi/tables");
    let tables = Name::of("etc/acpi/tables")?;
    let parts = file(rt.alloc())?;
    are_parts(&rt, &parts, &tables);
    drop(parts);
    Ok(())
}

fn are_parts(rt: &impl Abort, parts: &Parts, tables: &Name) {
    is(rt, &parts.bytes.as_slice(), &FILE);
    are_pointers_to(rt, parts.pointers.as_slice(), tables);
    is(rt, &parts.sums.as_slice(), &SUMS.as_slice());
}

// They are the two entries of the XSDT, and the RSDP's address of the XSDT.
fn are_pointers_to(rt: &impl Abort, pointers: &[PointerHole], tables: &Name) {
    match pointers {
        [first, second, address] => {
            is_pointer_to(rt, first, 116, tables);
            is_pointer_to(rt, second, 124, tables);
            is_pointer_to(rt, address, 168, tables);
        }
        _ => panic!(rt; "another number of pointers than three"),
    }
}

fn is_pointer_to(rt: &impl Abort, pointer: &PointerHole, place: u32, tables: &Name) {
    is(
        rt,
        &(pointer.at, pointer.size, pointer.target),
        &(place, 8, *tables),
    );
}

// A file that begins with five bytes, and has an HPET table, an XSDT with another entry, and an RSDP.
fn file(alloc: Global) -> Result<Parts, Fail> {
    let mut blob = five_bytes(alloc)?;
    append_tables_of_full(alloc, &mut blob)?;
    Ok(blob.finish())
}

// Whoever has the blob doesn't own the machine.
fn append_tables_of_full(alloc: Global, blob: &mut Blob) -> Result<(), Fail>
    requires { length blob.old.bytes ≡ 5 }
{
    let machine = full_machine(alloc)?;
    let appended = append_tables(blob, &machine);
    drop(machine);
    appended
}

fn append_tables(blob: &mut Blob, machine: &Machine) -> Result<(), Fail>
    requires bytes { length blob.old.bytes ≡ 5 }
    requires acpi { IsSome machine.now.acpi }
    requires hpet { IsSome machine.now.hpet }
{
    if machine.check().is_err() {
        return Err(Fail::from("a machine that breaks a rule"));
    }
    let hpet = append_hpet(blob, machine)?;
    let xsdt = append_xsdt(blob, machine, &[hpet, 0x0102_0340])?;
    append_rsdp(blob, machine, xsdt)?;
    Ok(())
}

/// Returns a file of five bytes.
pub fn five_bytes(alloc: Global) -> Result<Blob, OutOfMemory>
    ensures { IfOk result (λ blob. length blob.bytes ≡ 5) }
{
    let mut blob = Blob::new(alloc);
    blob.append(b"\x07\x07\x07\x07\x07")?;
    Ok(blob)
}
