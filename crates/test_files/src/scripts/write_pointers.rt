//! WRITE_POINTER as bytes, and why it is refused.

ghost use Rattle.std.specs.Prelude.{◌+◌, ◌^◌, ◌≤◌};
ghost use Rattle.loader_script.specs.Spelling.{CanBeWritten};

use crate::scripts::scripts::{a, b, cause_at, is_cause};
use loader_script::{Cause, Entry, decode_entry, encode_script, entry_size};
use std::alloc::Global;
use std::process::Abort;
use std::test::Fail;
use vt_outside::Name;

// WRITE_POINTER of 8 bytes into "b" at 0x01020304, of the place of "a" plus 0x05060708. What follows a name's NUL, and the last
// 3 bytes, are `others`.
fn entry_among(others: u8) -> [u8; 128] {
    let mut entry = [others; 128];
    entry[..6].copy_from_slice(b"\x04\0\0\0b\0");
    entry[60..62].copy_from_slice(b"a\0");
    entry[116..125].copy_from_slice(&[4, 3, 2, 1, 8, 7, 6, 5, 8]);
    entry
}

#[test]
fn fields(rt: HostRuntime) -> Result<(), Fail> {
    let Entry::WritePointer {
        dest,
        src,
        dst_offset,
        src_offset,
        size,
    } = decode_entry(&entry_among(0xFF))
    else {
        return Err(Fail::from("no WritePointer"));
    };
    assert!(rt; dest == b());
    assert!(rt; src == a());
    assert_eq!(rt;
        (dst_offset, src_offset, size),
        (0x0102_0304, 0x0506_0708, 8)
    );
    let entry = write_pointer(dest, src, dst_offset, src_offset, size);
    assert_eq!(rt; entry_size(&entry), 128);
    let again = encode_script(rt.alloc(), &[entry])?;
    assert_eq!(rt; again.as_slice(), entry_among(0).as_slice());
    Ok(())
}

// Each cause, and each before those that follow it. "a" has 16 bytes, and "b" 8, which the guest may write.
#[test]
fn causes(rt: HostRuntime) -> Result<(), Fail> {
    files(&rt, rt.alloc(), a(), b(), Name::of("etc/other")?);
    sizes(&rt, rt.alloc(), a(), b());
    ranges(&rt, rt.alloc(), a(), b());
    Ok(())
}

fn files(rt: &impl Abort, alloc: Global, a: Name, b: Name, other: Name) {
    is_cause(rt, alloc, &write_pointer(b, a, 0, 0, 8), None);
    is_cause(
        rt,
        alloc,
        &write_pointer(other, a, 0, 0, 8),
        Some(Cause::NoFile),
    );
    is_cause(
        rt,
        alloc,
        &write_pointer(b, other, 0, 0, 8),
        Some(Cause::NoFile),
    );
    is_cause(
        rt,
        alloc,
        &write_pointer(other, b, 0, 0, 3),
        Some(Cause::NoFile),
    );
    is_cause(
        rt,
        alloc,
        &write_pointer(b, b, 0, 0, 8),
        Some(Cause::NotPlaced),
    );
    is_cause(
        rt,
        alloc,
        &write_pointer(b, b, 9, 9, 3),
        Some(Cause::NotPlaced),
    );
}

fn sizes(rt: &impl Abort, alloc: Global, a: Name, b: Name) {
    is_cause(
        rt,
        alloc,
        &write_pointer(b, a, 0, 0, 0),
        Some(Cause::BadSize),
    );
    is_cause(
        rt,
        alloc,
        &write_pointer(b, a, 0, 0, 3),
        Some(Cause::BadSize),
    );
    is_cause(
        rt,
        alloc,
        &write_pointer(b, a, 0, 0, 16),
        Some(Cause::BadSize),
    );
    is_cause(
        rt,
        alloc,
        &write_pointer(a, a, 16, 16, 3),
        Some(Cause::BadSize),
    );
    is_cause(
        rt,
        alloc,
        &write_pointer(a, a, 0, 0, 8),
        Some(Cause::ReadOnly),
    );
    is_cause(
        rt,
        alloc,
        &write_pointer(a, a, 9, 0, 8),
        Some(Cause::ReadOnly),
    );
    is_cause(
        rt,
        alloc,
        &write_pointer(a, a, 0, 16, 8),
        Some(Cause::ReadOnly),
    );
    is_cause(
        rt,
        alloc,
        &write_pointer(a, a, 0, 0, 1),
        Some(Cause::ReadOnly),
    );
}

fn ranges(rt: &impl Abort, alloc: Global, a: Name, b: Name) {
    is_cause(
        rt,
        alloc,
        &write_pointer(b, a, 1, 0, 8),
        Some(Cause::OutOfRange),
    );
    is_cause(rt, alloc, &write_pointer(b, a, 4, 0, 4), None);
    is_cause(
        rt,
        alloc,
        &write_pointer(b, a, 5, 0, 4),
        Some(Cause::OutOfRange),
    );
    is_cause(
        rt,
        alloc,
        &write_pointer(b, a, 0xFFFF_FFFF, 0, 4),
        Some(Cause::OutOfRange),
    );
    is_cause(rt, alloc, &write_pointer(b, a, 0, 15, 8), None);
    is_cause(
        rt,
        alloc,
        &write_pointer(b, a, 0, 16, 8),
        Some(Cause::OutOfRange),
    );
    is_cause(
        rt,
        alloc,
        &write_pointer(b, a, 8, 0, 1),
        Some(Cause::OutOfRange),
    );
    is_cause(
        rt,
        alloc,
        &write_pointer(b, a, 0, 16, 1),
        Some(Cause::OutOfRange),
    );
    is_cause(
        rt,
        alloc,
        &write_pointer(b, a, 7, 0, 1),
        Some(Cause::TooFar),
    );
    is_cause(
        rt,
        alloc,
        &write_pointer(b, a, 6, 15, 2),
        Some(Cause::TooFar),
    );
}

// The largest number that fits, and the next one. A placed file ends at or below 2^32, so what is in it fits 4 bytes.
#[test]
fn numbers_that_fit(rt: HostRuntime) {
    is_cause_at(&rt, rt.alloc(), 0xF8, 7, 1, None);
    is_cause_at(&rt, rt.alloc(), 0xF8, 8, 1, Some(Cause::TooFar));
    is_cause_at(&rt, rt.alloc(), 0xFFF8, 7, 2, None);
    is_cause_at(&rt, rt.alloc(), 0xFFF8, 8, 2, Some(Cause::TooFar));
    is_cause_at(&rt, rt.alloc(), 0xFFFF_FFF0, 15, 4, None);
    is_cause_at(&rt, rt.alloc(), 0xFFFF_FFF0, 16, 4, Some(Cause::OutOfRange));
    is_cause_at(&rt, rt.alloc(), 0xFFFF_FFF0, 15, 8, None);
}

// The place of "a" plus an offset is refused for this cause, or not refused, where "a" is at an address.
fn is_cause_at(
    rt: &impl Abort,
    alloc: Global,
    place: u64,
    src_offset: u32,
    size: u8,
    cause: Option<Cause>,
)
    requires { place + 16 ≤ 2 ^ 32 }
{
    assert_eq!(rt;
        cause_at(alloc, place, &write_pointer(b(), a(), 0, src_offset, size)),
        Ok(cause),
        "at {place:#X} and {src_offset}"
    );
}

fn write_pointer(dest: Name, src: Name, dst_offset: u32, src_offset: u32, size: u8) -> Entry
    ensures { CanBeWritten result }
{
    Entry::WritePointer {
        dest,
        src,
        dst_offset,
        src_offset,
        size,
    }
}
