//! Layouts with parts behind their rows, at the next multiple of 4 behind three bytes.

ghost use Rattle.std.specs.Prelude.{◌≡◌, []};

use crate::layouts::blobs::are_parts;
use crate::layouts::rows::is;
use blob_holes::{Blob, Part, PointerHole, SumHole, append_layout, size_of_parts};
use std::process::Abort;
use std::test::Fail;
use vt_layout::Row;
use vt_outside::{Name, OutOfMemory};

#[test]
fn bytes(rt: HostRuntime) -> Result<(), Fail> {
    let mut blob = Blob::new(rt.alloc());
    put_bytes(&mut blob)?;
    let sum = SumHole {
        at: 4,
        start: 4,
        length: 7,
    };
    are_parts(
        &rt,
        blob.finish(),
        b"\x07\x07\x07\0\0\x02\x01\x05abc",
        &[],
        &[sum],
    );
    Ok(())
}

// The sum covers the rows and the bytes behind them.
fn put_bytes(blob: &mut Blob) -> Result<(), OutOfMemory>
    requires { blob.old ≡ record { bytes = []; pointers = []; sums = [] } }
{
    blob.append(&[7, 7, 7])?;
    append_layout(
        blob,
        4,
        &[Row::Sum(7), Row::Number(2, 0x0102)],
        &[Row::Number(1, 5)],
        &[Part::Bytes(b"abc")],
    )?;
    Ok(())
}

// The sum's range ends with the last bytes, and the pointer lies in it.
#[test]
fn a_pointer_between_bytes(rt: HostRuntime) -> Result<(), Fail> {
    let target = Name::of("etc/vmgenid_guid")?;
    let mut blob = Blob::new(rt.alloc());
    put_pointer_between_bytes(&mut blob, target)?;
    let pointer = PointerHole {
        at: 11,
        size: 4,
        target,
    };
    let sum = SumHole {
        at: 4,
        start: 4,
        length: 16,
    };
    are_parts(
        &rt,
        blob.finish(),
        b"\x07\x07\x07\0\0\x02\x01\x05abc\x28\0\0\0defgh",
        &[pointer],
        &[sum],
    );
    Ok(())
}

fn put_pointer_between_bytes(blob: &mut Blob, target: Name) -> Result<(), OutOfMemory>
    requires { blob.old ≡ record { bytes = []; pointers = []; sums = [] } }
{
    blob.append(&[7, 7, 7])?;
    append_layout(
        blob,
        4,
        &[Row::Sum(16), Row::Number(2, 0x0102)],
        &[Row::Number(1, 5)],
        &[
            Part::Bytes(b"abc"),
            Part::Pointer { target, offset: 40 },
            Part::Bytes(b"defgh"),
        ],
    )?;
    Ok(())
}

// The second has the greatest offset that fits a dword wherever its file is placed below 3 GiB.
#[test]
fn two_pointers(rt: HostRuntime) -> Result<(), Fail> {
    let (target, other) = (Name::of("etc/a")?, Name::of("etc/b")?);
    let mut blob = Blob::new(rt.alloc());
    put_two_pointers(&mut blob, target, other)?;
    let first = PointerHole {
        at: 5,
        size: 4,
        target,
    };
    let second = PointerHole {
        at: 9,
        size: 4,
        target: other,
    };
    are_parts(
        &rt,
        blob.finish(),
        b"\x07\x07\x07\0\x09\x02\x01\0\0\0\0\0\x40",
        &[first, second],
        &[],
    );
    Ok(())
}

fn put_two_pointers(blob: &mut Blob, target: Name, other: Name) -> Result<(), OutOfMemory>
    requires { blob.old ≡ record { bytes = []; pointers = []; sums = [] } }
{
    blob.append(&[7, 7, 7])?;
    append_layout(
        blob,
        4,
        &[Row::Number(1, 9)],
        &[],
        &[
            Part::Pointer {
                target,
                offset: 0x0102,
            },
            Part::Pointer {
                target: other,
                offset: 0x4000_0000,
            },
        ],
    )?;
    Ok(())
}

#[test]
fn no_parts(rt: HostRuntime) -> Result<(), Fail> {
    let mut blob = Blob::new(rt.alloc());
    put_no_parts(&rt, &mut blob)?;
    are_parts(&rt, blob.finish(), &[7, 7, 7, 0, 2, 1, 0], &[], &[]);
    Ok(())
}

fn put_no_parts(rt: &impl Abort, blob: &mut Blob) -> Result<(), OutOfMemory>
    requires { blob.old ≡ record { bytes = []; pointers = []; sums = [] } }
{
    blob.append(&[7, 7, 7])?;
    let place = append_layout(blob, 4, &[Row::Number(2, 0x0102)], &[Row::Reserved(1)], &[])?;
    is(rt, &place, &4);
    Ok(())
}

#[test]
fn empty_bytes(rt: HostRuntime) -> Result<(), Fail> {
    let target = Name::of("etc/a")?;
    let mut blob = Blob::new(rt.alloc());
    put_empty_bytes(&mut blob, target)?;
    let pointer = PointerHole {
        at: 5,
        size: 4,
        target,
    };
    are_parts(
        &rt,
        blob.finish(),
        b"\x07\x07\x07\0\x09\x01\0\0\0",
        &[pointer],
        &[],
    );
    Ok(())
}

fn put_empty_bytes(blob: &mut Blob, target: Name) -> Result<(), OutOfMemory>
    requires { blob.old ≡ record { bytes = []; pointers = []; sums = [] } }
{
    blob.append(&[7, 7, 7])?;
    append_layout(
        blob,
        4,
        &[Row::Number(1, 9)],
        &[],
        &[
            Part::Bytes(b""),
            Part::Pointer { target, offset: 1 },
            Part::Bytes(b""),
        ],
    )?;
    Ok(())
}

// A pointer has four bytes, whatever its file and its offset are.
#[test]
fn sizes(rt: HostRuntime) -> Result<(), Fail> {
    let target = Name::of("etc/vmgenid_guid")?;
    is(&rt, &size_of_parts(&[]), &0);
    is(&rt, &Part::Bytes(b"abcde").width(), &5);
    let parts = [
        Part::Bytes(b"abc"),
        Part::Pointer { target, offset: 40 },
        Part::Bytes(b"defgh"),
    ];
    is(&rt, &size_of_parts(&parts), &12);
    Ok(())
}
