//! Bytes and their first fault, with its place.

use crate::rows::are_told;
use crate::told::is_told;
use std::alloc::Global;
use std::process::Abort;
use std::test::Fail;
use vt_outside::{Bytes, OutOfMemory};

static TERMS: [(&[u8], &str); 25] = [
    (b"\x14", "outside 00000000 "),
    (b"\x5b", "truncated 00000001 "),
    (b"\x5b\x00", "outside 00000000 "),
    (b"\x5b\x82", "truncated 00000002 "),
    // a value stands in a name alone
    (b"\x00", "outside 00000000 "),
    (b"\x10\x06ABCD\x0d", "outside 00000006 "),
    // package lengths
    (b"\x10\x09\x5c", "length 00000001 "),
    (b"\x10\x40", "truncated 00000002 "),
    (b"\x10\x70", "length 00000001 "),
    (b"\x10\x50\x04", "length 00000001 "),
    (b"\x10\x00", "length 00000001 "),
    (b"\x10\x01", "truncated 00000002 "),
    (b"\x10\x3f", "length 00000001 "),
    (b"\x10\xc0\x00\x00", "truncated 00000004 "),
    (b"\x10\x41\x00ABCD", "length 00000001 "),
    // names
    (b"\x08\x31", "bad name 00000001 "),
    (b"\x08", "truncated 00000001 "),
    (b"\x08\x2f\x00", "bad name 00000002 "),
    (b"\x08\x2f", "truncated 00000002 "),
    (b"\x08\x5c\x5e", "bad name 00000002 "),
    (b"\x08\x5e\x5c", "bad name 00000002 "),
    (b"\x08ABCa", "bad name 00000004 "),
    (b"\x08A", "truncated 00000002 "),
    (b"\x10\x07ABCD\x08\x5b", "bad name 00000007 "),
    // a name in a scope ends with the scope
    (b"\x10\x09ABCD\x08ABC\x00", "truncated 0000000a "),
];

static VALUES: [(&[u8], &str); 18] = [
    (b"\x08_UID\x0b\x01", "truncated 00000007 "),
    (b"\x08ABCD", "truncated 00000005 "),
    (b"\x08ABCD\x08ABCD\x00", "outside 00000005 "),
    (b"\x08ABCD\x0d\x80\x00", "outside 00000006 "),
    (b"\x08ABCD\x0dA", "truncated 00000007 "),
    (b"\x08ABCD\x11\x01", "truncated 00000007 "),
    (b"\x08ABCD\x11\x02\x0a", "truncated 00000008 "),
    (b"\x08ABCD\x11\x02\x0a\x00", "truncated 00000008 "),
    (b"\x08ABCD\x11\x03\x0a\x01", "outside 00000007 "),
    (b"\x08ABCD\x11\x02\xff", "outside 00000007 "),
    (b"\x08ABCD\x11\x03\x0d\x00", "outside 00000007 "),
    (b"\x08ABCD\x12\x01", "truncated 00000007 "),
    (b"\x08ABCD\x12\x03\x02\x00", "outside 00000007 "),
    (b"\x08ABCD\x12\x03\x00\x00", "outside 00000007 "),
    (b"\x08ABCD\x12\x03\x01\x14", "outside 00000008 "),
    // the fault of a value comes before that of the count
    (b"\x08ABCD\x12\x03\x07\x14", "outside 00000008 "),
    (b"\x08ABCD\x12\x04\x01\x0b\x00", "truncated 0000000a "),
    (b"\x08ABCD\x12\x05\x01\x12\x02\x01", "outside 0000000a "),
];

#[test]
fn faults_of_terms(rt: HostRuntime) -> Result<(), Fail> {
    are_told(&rt, rt.alloc(), &TERMS)
}

#[test]
fn faults_of_values(rt: HostRuntime) -> Result<(), Fail> {
    are_told(&rt, rt.alloc(), &VALUES)
}

// At most 255 levels up: the next byte would have to begin a segment.
#[test]
fn levels_up(rt: HostRuntime) -> Result<(), Fail> {
    let mut bytes = Bytes::new(rt.alloc());
    let told = is_far_up(&rt, rt.alloc(), &mut bytes);
    drop(bytes);
    told
}

fn is_far_up(rt: &impl Abort, alloc: Global, bytes: &mut Bytes) -> Result<(), Fail> {
    put_levels_up(bytes, 256)?;
    is_told(rt, alloc, bytes.as_slice(), "bad name 00000100 ")?;
    put_levels_up(bytes, 255)?;
    is_told(rt, alloc, bytes.as_slice(), "truncated 00000100 ")
}

fn put_levels_up(bytes: &mut Bytes, count: usize) -> Result<(), OutOfMemory> {
    bytes.cut(0);
    bytes.push(0x08)?;
    for _ in 0..count {
        bytes.push(0x5E)?;
    }
    Ok(())
}
