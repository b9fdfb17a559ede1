//! Bytes and the terms that they are read as, in words.

use crate::every::{EVERY, EVERY_TOLD};
use crate::told::is_told;
use std::alloc::Global;
use std::process::Abort;
use std::test::Fail;

static ROWS: [(&[u8], &str); 19] = [
    (b"", ""),
    // each width of an integer, whatever its value
    (b"\x08ABCD\x00", "name .ABCD int 0000000000000000 "),
    (b"\x08ABCD\x01", "name .ABCD int 0000000000000001 "),
    (b"\x08ABCD\x0a\x01", "name .ABCD int 0000000000000001 "),
    (b"\x08ABCD\x0b\x01\x00", "name .ABCD int 0000000000000001 "),
    (
        b"\x08ABCD\x0c\x01\x00\x00\x00",
        "name .ABCD int 0000000000000001 ",
    ),
    (
        b"\x08ABCD\x0e\x01\x00\x00\x00\x00\x00\x00\x00",
        "name .ABCD int 0000000000000001 ",
    ),
    (
        b"\x08ABCD\x0e\xff\xff\xff\xff\xff\xff\xff\xff",
        "name .ABCD int ffffffffffffffff ",
    ),
    (b"\x08ABCD\xff", "name .ABCD ones "),
    // texts, buffers and packages, some of them empty
    (b"\x08ABCD\x0d\x01\x7f\x00", "name .ABCD text 017f "),
    (b"\x08ABCD\x0d\x00", "name .ABCD text  "),
    (b"\x08ABCD\x11\x03\x01A", "name .ABCD buffer 41 "),
    (
        b"\x08ABCD\x11\x0b\x0e\x01\x00\x00\x00\x00\x00\x00\x00A",
        "name .ABCD buffer 41 ",
    ),
    (b"\x08ABCD\x12\x02\x00", "name .ABCD package [ ] "),
    (
        b"\x08ABCD\x12\x05\x01\x12\x02\x00",
        "name .ABCD package [ package [ ] ] ",
    ),
    // paths: of one segment and of two behind a number, too
    (b"\x08\x2f\x01ABCD\x00", "name .ABCD int 0000000000000000 "),
    (
        b"\x08\x5c\x2f\x02ABCDE__9\x00",
        "name \\.ABCD.E__9 int 0000000000000000 ",
    ),
    (b"\x10\x06\x5c_SB_", "scope \\._SB_ [ ] "),
    (b"\x5b\x82\x05_A09", "device ._A09 [ ] "),
];

#[test]
fn rows(rt: HostRuntime) -> Result<(), Fail> {
    are_told(&rt, rt.alloc(), &ROWS)
}

#[test]
fn terms_of_every_kind(rt: HostRuntime) -> Result<(), Fail> {
    is_told(&rt, rt.alloc(), &EVERY, EVERY_TOLD)
}

/// Asserts what each row's bytes are read as.
pub fn are_told(rt: &impl Abort, alloc: Global, rows: &[(&[u8], &str)]) -> Result<(), Fail> {
    for row in rows {
        let (bytes, wanted) = row;
        is_told(rt, alloc, *bytes, *wanted)?;
    }
    Ok(())
}
