//! A directory and a script that are larger than the buffer.

use crate::files::{SMALL_FILES, items_of};
use crate::plans::{ANCHOR, PLACE_ANCHOR, PLACE_TABLES, POINT, SUM, TABLES};
use crate::rig::Transfer::{self, Read};
use crate::rig::{End, ends_without_events};
use crate::scripts::Line::{self, Zeros};
use std::test::Fail;

// 94 commands, which have 12,032 bytes.
static LINES: [Line; 7] = [
    Zeros(31 * 128),
    PLACE_ANCHOR,
    PLACE_TABLES,
    Zeros(31 * 128),
    POINT,
    SUM,
    Zeros(28 * 128),
];

// The entries of 131 files have 8,384 bytes.
static READS: [Transfer; 9] = [
    Read(0x19, 0, 4, 0x8000),
    Read(0x19, 4, 4096, 0x8000),
    Read(0x19, 4100, 4096, 0x8000),
    Read(0x19, 8196, 192, 0x8000),
    Read(0xA2, 0, 4096, 0x8000),
    Read(0xA2, 4096, 4096, 0x8000),
    Read(0xA2, 8192, 3840, 0x8000),
    Read(0x20, 0, 9, 0xF_0000),
    Read(0x21, 0, 5, 0x300_0000),
];

#[test]
fn several_reads(rt: HostRuntime) -> Result<(), Fail> {
    let items = items_of(rt.alloc(), &SMALL_FILES, 127, &LINES)?;
    let end = End {
        answer: Ok(()),
        transfers: &READS,
        contents: &[],
        left: &[ANCHOR, TABLES],
        others: false,
    };
    ends_without_events(&rt, rt.alloc(), items, &[], &end)
}
