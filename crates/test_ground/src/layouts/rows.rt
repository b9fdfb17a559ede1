//! Layouts as rows, and the bytes that they are written as, which were made by hand.

ghost use Rattle.std.specs.Prelude.{◌<◌, ◌^◌};
ghost use Rattle.std.specs.List.{AllByRecursion};
ghost use Rattle.vt_layout.specs.Rows.{IsRow, size};

use std::alloc::Global;
use std::fmt::Debug;
use std::process::Abort;
use std::test::Fail;
use vt_layout::{Row, ShortBytes, entry_head, put_rows, size_of};
use vt_outside::{Bytes, Name, OutOfMemory};

#[test]
fn rows_of_numbers(rt: HostRuntime) -> Result<(), Fail> {
    are_written(
        &rt,
        rt.alloc(),
        &[
            Row::Number(2, 0x0102),
            Row::BigEndian(3, 0x01_0203),
            Row::Ignored(1, 6),
            Row::Reserved(3),
        ],
        b"\x02\x01\x01\x02\x03\x06\0\0\0",
    )
}

#[test]
fn rows_of_bytes(rt: HostRuntime) -> Result<(), Fail> {
    are_written(
        &rt,
        rt.alloc(),
        &[Row::Bytes(4, ShortBytes::of(b"RSD ")), Row::Sum(5)],
        b"RSD \0",
    )
}

#[test]
fn rows_with_pointers(rt: HostRuntime) -> Result<(), Fail> {
    let (a, b) = (Name::of("a")?, Name::of("b")?);
    are_written(
        &rt,
        rt.alloc(),
        &[
            Row::Number(1, 5),
            Row::Pointer(8, a, 0x10),
            Row::Pointer(4, b, 0x0102),
        ],
        b"\x05\x10\0\0\0\0\0\0\0\x02\x01\0\0",
    )
}

// The rows have as many bytes as they are written as.
fn are_written(rt: &impl Abort, alloc: Global, rows: &[Row], wanted: &[u8]) -> Result<(), Fail>
    requires rows { AllByRecursion IsRow rows.now }
    requires short { size rows.now < 2 ^ 32 }
{
    is(rt, &(size_of(rows) as usize), &wanted.len());
    let mut bytes = Bytes::new(alloc);
    put_rows(&mut bytes, rows)?;
    is(rt, &bytes.as_slice(), &wanted);
    Ok(())
}

// The entry of processor 1's local APIC in a MADT (ACPI 6.5, 5.2.12.2): its APIC has the id 2, and it is enabled.
#[test]
fn rows_of_an_entry(rt: HostRuntime) -> Result<(), Fail> {
    let bytes = an_entry(rt.alloc())?;
    is(
        &rt,
        &bytes.as_slice(),
        &b"\0\x08\x01\x02\x01\0\0\0".as_slice(),
    );
    Ok(())
}

fn an_entry(alloc: Global) -> Result<Bytes, OutOfMemory> {
    let body = [Row::Number(1, 1), Row::Number(1, 2), Row::Number(4, 1)];
    let mut bytes = Bytes::new(alloc);
    put_rows(&mut bytes, &entry_head(0, &body))?;
    put_rows(&mut bytes, &body)?;
    Ok(bytes)
}

pub(crate) fn is<T: Debug + PartialEq>(rt: &impl Abort, is: &T, wanted: &T) {
    assert_eq!(rt; *is, *wanted);
}
