//! WritePointers that are refused: none of them skips or writes, and what was written before stays.

use crate::files::{LOADER, WRITTEN_FILES, items_of};
use crate::rig::Transfer::{self, Read, Skip, Write};
use crate::rig::{Content, End, FILL, Held, ends_without_events};
use crate::scripts::Line::{self, Allocate, Number, WritePointer};
use crate::scripts::{FSEG, HIGH};
use firmware_load::LoadFault;
use loader_script::Cause;
use std::alloc::Global;
use std::process::Abort;
use std::test::Fail;

// The command has the index 2, behind one that is carried out. The one behind it isn't.
static BEFORE: [Line; 2] = [
    Allocate("etc/goal", 64, HIGH),
    WritePointer("etc/cell", "etc/goal", 2, 3, 4),
];

static BEHIND: Line = WritePointer("etc/word", "etc/goal", 0, 0, 8);

static TRANSFERS: [Transfer; 6] = [
    Read(0x19, 0, 4, 0x8000),
    Read(0x19, 4, 256, 0x8000),
    Read(0x23, 0, 512, 0x8000),
    Read(0x21, 0, 5, 0x300_0000),
    Skip(0x20, 2),
    Write(0x20, 2, 4),
];

static CONTENTS: [Content<'static>; 3] = [
    Content(0x20, b"\x10\x11\x03\0\0\x03\x16\x17\x18\x19\x1a\x1b"),
    Content(0x21, b"\xe1\xe2\xe3\xe4\xe5"),
    Content(0x22, b"\x71\x72\x73\x74\x75\x76\x77\x78"),
];

// The descriptor of the write, which is over, its number and what is left of the first command behind it, and the placed file.
static LEFT: [Held<'static>; 3] = [
    Held(0x7000, b"\0\0\0\0\0\0\0\x04\0\0\0\0\0\0\x80\0"),
    Held(0x8000, b"\x03\0\0\x03etc/goal\0"),
    Held(0x300_0000, b"\xe1\xe2\xe3\xe4\xe5\xa5"),
];

// The first rows of each cause have the later causes too.
static REFUSED: [(Line, Cause); 22] = [
    (Number(4), Cause::BadName),
    (
        WritePointer("etc/none", "etc/word", 99, 99, 3),
        Cause::NoFile,
    ),
    (
        WritePointer("etc/goal", "etc/none", 99, 99, 3),
        Cause::NoFile,
    ),
    (
        WritePointer("etc/goal", "etc/word", 99, 99, 3),
        Cause::NotPlaced,
    ),
    (
        WritePointer("etc/cell", "etc/cell", 0, 0, 4),
        Cause::NotPlaced,
    ),
    (
        WritePointer("etc/goal", "etc/goal", 99, 99, 0),
        Cause::BadSize,
    ),
    (
        WritePointer("etc/goal", "etc/goal", 99, 99, 3),
        Cause::BadSize,
    ),
    (
        WritePointer("etc/cell", "etc/goal", 0, 0, 5),
        Cause::BadSize,
    ),
    (
        WritePointer("etc/cell", "etc/goal", 0, 0, 16),
        Cause::BadSize,
    ),
    (
        WritePointer("etc/goal", "etc/goal", 99, 99, 1),
        Cause::ReadOnly,
    ),
    (WritePointer(LOADER, "etc/goal", 0, 0, 4), Cause::ReadOnly),
    // a field that ends past its file, by its offset or its size
    (
        WritePointer("etc/cell", "etc/goal", 9, 0, 4),
        Cause::OutOfRange,
    ),
    (
        WritePointer("etc/cell", "etc/goal", 5, 0, 8),
        Cause::OutOfRange,
    ),
    (
        WritePointer("etc/cell", "etc/goal", 12, 0, 1),
        Cause::OutOfRange,
    ),
    (
        WritePointer("etc/cell", "etc/goal", 0xFFFF_FFFF, 0, 8),
        Cause::OutOfRange,
    ),
    // the end of the file that is pointed to
    (
        WritePointer("etc/cell", "etc/goal", 0, 5, 4),
        Cause::OutOfRange,
    ),
    (
        WritePointer("etc/cell", "etc/goal", 0, 5, 1),
        Cause::OutOfRange,
    ),
    (
        WritePointer("etc/cell", "etc/goal", 0, 0xFFFF_FFFF, 8),
        Cause::OutOfRange,
    ),
    // a number of more than two bytes, which each place is
    (WritePointer("etc/cell", "etc/goal", 0, 0, 1), Cause::TooFar),
    (
        WritePointer("etc/cell", "etc/goal", 11, 4, 1),
        Cause::TooFar,
    ),
    (WritePointer("etc/cell", "etc/goal", 0, 0, 2), Cause::TooFar),
    (
        WritePointer("etc/cell", "etc/goal", 10, 4, 2),
        Cause::TooFar,
    ),
];

#[test]
fn causes_of_writes(rt: HostRuntime) -> Result<(), Fail> {
    for (line, cause) in &REFUSED {
        is_refused(&rt, rt.alloc(), line, *cause)?;
    }
    Ok(())
}

fn is_refused(rt: &impl Abort, alloc: Global, line: &Line, cause: Cause) -> Result<(), Fail> {
    let end = End {
        answer: Err(LoadFault::Command { index: 2, cause }),
        transfers: &TRANSFERS,
        contents: &CONTENTS,
        left: &LEFT,
        others: false,
    };
    let items = items_of(
        alloc,
        &WRITTEN_FILES,
        0,
        &[BEFORE[0], BEFORE[1], *line, BEHIND],
    )?;
    ends_without_events(rt, alloc, items, &[], &end)
}

// The least place that there is, in the F segment, is 0xF0000, which doesn't fit two bytes either. Nothing is written yet, so that the
// descriptor of the read of the file is left.
static LOWEST: [Line; 2] = [
    Allocate("etc/goal", 1, FSEG),
    WritePointer("etc/word", "etc/goal", 6, 0, 2),
];

static LOWEST_LEFT: [Held<'static>; 4] = [
    Held(0x7000, b"\0\0\0\0\0\0\0\x05\0\0\0\0\0\x0f\0\0"),
    Held(0x8000, b"\x01\0\0\0etc/goal\0"),
    Held(0xF_0000, b"\xe1\xe2\xe3\xe4\xe5\xa5"),
    Held(0x300_0000, &[FILL; 16]),
];

static LOWEST_TRANSFERS: [Transfer; 4] = [
    Read(0x19, 0, 4, 0x8000),
    Read(0x19, 4, 256, 0x8000),
    Read(0x23, 0, 256, 0x8000),
    Read(0x21, 0, 5, 0xF_0000),
];

#[test]
fn two_bytes_of_the_lowest_place(rt: HostRuntime) -> Result<(), Fail> {
    let end = End {
        answer: Err(LoadFault::Command {
            index: 1,
            cause: Cause::TooFar,
        }),
        transfers: &LOWEST_TRANSFERS,
        contents: &[],
        left: &LOWEST_LEFT,
        others: false,
    };
    let items = items_of(rt.alloc(), &WRITTEN_FILES, 0, &LOWEST)?;
    ends_without_events(&rt, rt.alloc(), items, &[], &end)
}
