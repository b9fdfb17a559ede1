//! Files with holes. A file is filled by a function that doesn't own it, since each step of one that does is dear to prove.

ghost use Rattle.std.specs.Prelude.{◌≡◌, []};

use crate::layouts::rows::is;
use blob_holes::{Blob, Parts, PointerHole, SumHole, append_rows};
use std::process::Abort;
use std::test::Fail;
use vt_layout::{Row, ShortBytes};
use vt_outside::{Name, OutOfMemory};

#[test]
fn bytes_and_zeros(rt: HostRuntime) -> Result<(), Fail> {
    let mut blob = Blob::new(rt.alloc());
    put_nine(&rt, &mut blob)?;
    are_parts(&rt, blob.finish(), &[9, 9, 9, 0, 0, 0, 0, 0, 7], &[], &[]);
    Ok(())
}

// Three bytes, zeros up to 8, and one byte.
fn put_nine(rt: &impl Abort, blob: &mut Blob) -> Result<(), OutOfMemory>
    requires { blob.old ≡ record { bytes = []; pointers = []; sums = [] } }
{
    is(rt, &blob.append(&[9, 9, 9])?, &0);
    blob.align(8)?;
    is(rt, &blob.len(), &8);
    is(rt, &blob.append(&[7])?, &8);
    Ok(())
}

#[test]
fn a_pointer(rt: HostRuntime) -> Result<(), Fail> {
    let target = Name::of("etc/acpi/tables")?;
    let mut blob = Blob::new(rt.alloc());
    put_pointer(&mut blob, target)?;
    let pointer = PointerHole {
        at: 1,
        size: 4,
        target,
    };
    are_parts(&rt, blob.finish(), &[9, 2, 1, 0, 0, 9], &[pointer], &[]);
    Ok(())
}

fn put_pointer(blob: &mut Blob, target: Name) -> Result<(), OutOfMemory>
    requires { blob.old ≡ record { bytes = []; pointers = []; sums = [] } }
{
    blob.append(&[9; 6])?;
    blob.hole_pointer(1, 4, target, 0x0102)
}

#[test]
fn a_sum(rt: HostRuntime) -> Result<(), Fail> {
    let mut blob = Blob::new(rt.alloc());
    put_sum(&mut blob)?;
    let sum = SumHole {
        at: 1,
        start: 0,
        length: 4,
    };
    are_parts(&rt, blob.finish(), &[9, 0, 9, 9], &[], &[sum]);
    Ok(())
}

fn put_sum(blob: &mut Blob) -> Result<(), OutOfMemory>
    requires { blob.old ≡ record { bytes = []; pointers = []; sums = [] } }
{
    blob.append(&[9; 4])?;
    blob.hole_sum(1, 0, 4)
}

// The sum covers the layout's first 8 bytes, which begin behind those that were there.
#[test]
fn rows(rt: HostRuntime) -> Result<(), Fail> {
    let target = Name::of("etc/file")?;
    let mut blob = Blob::new(rt.alloc());
    put_rows(&mut blob, target)?;
    let pointer = PointerHole {
        at: 7,
        size: 8,
        target,
    };
    let sum = SumHole {
        at: 6,
        start: 1,
        length: 8,
    };
    are_parts(
        &rt,
        blob.finish(),
        b"\x07\x01\x02abc\0\x04\x03\0\0\0\0\0\0",
        &[pointer],
        &[sum],
    );
    Ok(())
}

fn put_rows(blob: &mut Blob, target: Name) -> Result<(), OutOfMemory>
    requires { blob.old ≡ record { bytes = []; pointers = []; sums = [] } }
{
    blob.append(&[7])?;
    append_rows(
        blob,
        &[
            Row::BigEndian(2, 0x0102),
            Row::Bytes(3, ShortBytes::of(b"abc")),
            Row::Sum(8),
            Row::Pointer(8, target, 0x0304),
        ],
    )
}

pub(crate) fn are_parts(
    rt: &impl Abort,
    parts: Parts,
    bytes: &[u8],
    pointers: &[PointerHole],
    sums: &[SumHole],
) {
    are_as_wanted(rt, &parts, bytes, pointers, sums);
    drop(parts);
}

fn are_as_wanted(
    rt: &impl Abort,
    parts: &Parts,
    bytes: &[u8],
    pointers: &[PointerHole],
    sums: &[SumHole],
) {
    is(rt, &parts.bytes.as_slice(), &bytes);
    is(rt, &parts.sums.as_slice(), &sums);
    are_pointers(rt, parts.pointers.as_slice(), pointers);
}

fn are_pointers(rt: &impl Abort, pointers: &[PointerHole], wanted: &[PointerHole]) {
    is(rt, &pointers.len(), &wanted.len());
    for (pointer, wanted) in pointers.iter().zip(wanted) {
        is_pointer(rt, pointer, wanted);
    }
}

fn is_pointer(rt: &impl Abort, pointer: &PointerHole, wanted: &PointerHole) {
    is(
        rt,
        &(pointer.at, pointer.size, pointer.target),
        &(wanted.at, wanted.size, wanted.target),
    );
}
