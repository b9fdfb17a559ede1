//! Structures that name a string that isn't there, and the number that is told of it. What is expected was made by hand from DSP0134, 6.1 and
//! chapter 7.

use crate::records::read;
use smbios_decode::SmbiosFault;
use std::alloc::Global;
use std::process::Abort;
use std::test::Fail;
use vt_outside::{Bytes, OutOfMemory};

// Bytes, the place of the structure and the number of the string.
static ROWS: [(&[u8], u32, u8); 5] = [
    (b"\x0b\x05\x00\x0e\x01\x00\x00", 0, 1),
    (b"\x0b\x05\x00\x0e\x09A\0B\0\0\x7f\x04\x00\x7f\0\0", 0, 3),
    // the first in the order of the offsets that isn't there
    (
        b"\x02\x04\x00\x00\0\0\
        \x01\x1b\x00\x01\x01\x00\x09\x07\0\0\0\0\0\0\0\0\0\0\0\0\0\0\0\0\x06\x08\x02A\0\0\x7f\x04\x00\x7f\0\0",
        6,
        9,
    ),
    (
        b"\x00\x18\x01\x00\xff\x00\0\0\x01\0\0\0\0\0\0\0\0\0\0\0\0\0\0\0A\0\0",
        0,
        0xFF,
    ),
    // of faults in two structures the first
    (b"\x0b\x05\x00\x0e\x01\x00\x00\x7f\x03\x00\x7f", 0, 1),
];

#[test]
fn strings_that_are_not_there(rt: HostRuntime) -> Result<(), Fail> {
    for (bytes, place, number) in &ROWS {
        lacks(&rt, rt.alloc(), bytes, *place, *number);
    }
    Ok(())
}

fn lacks(rt: &impl Abort, alloc: Global, bytes: &[u8], place: u32, number: u8) {
    let fault = SmbiosFault::NoSuchString { place, number };
    assert_eq!(rt; read(alloc, bytes).err(), Some(fault), "{bytes:?}");
}

// OEM Strings with a count of 255 and one string less.
#[test]
fn the_last_of_255_strings(rt: HostRuntime) -> Result<(), Fail> {
    let mut bytes = Bytes::new(rt.alloc());
    push_strings(&mut bytes)?;
    lacks(&rt, rt.alloc(), bytes.as_slice(), 0, 0xFF);
    Ok(())
}

fn push_strings(bytes: &mut Bytes) -> Result<(), OutOfMemory> {
    bytes.extend(b"\x0b\x05\x00\x0e\xff")?;
    for _ in 0..254 {
        bytes.extend(b"a\0")?;
    }
    bytes.extend(b"\0\x7f\x04\x00\x7f\0\0")
}
