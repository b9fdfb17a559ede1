//! Scripts that write places into files of the device, over no events, and all that they leave.

use crate::files::{WRITTEN_FILES, items_of};
use crate::rig::Transfer::{self, Read, Skip, Write};
use crate::rig::{Content, End, Held, ends_without_events};
use crate::scripts::Line::{self, AddChecksum, AddPointer, Allocate, WritePointer};
use crate::scripts::{FSEG, HIGH};
use std::alloc::Global;
use std::process::Abort;
use std::test::Fail;

// A script that is carried out, its transfers, what the files of the device hold then, and all that is left in memory.
#[derive(Clone, Copy)]
struct Writes {
    script: &'static [Line],
    transfers: &'static [Transfer],
    contents: &'static [Content<'static>],
    left: &'static [Held<'static>],
}

const PLACE_CELL: Line = Allocate("etc/cell", 16, FSEG);

const PLACE_GOAL: Line = Allocate("etc/goal", 64, HIGH);

// The files as they are before a load, and the copies of two of them.
const CELL: Content<'static> = Content(0x20, b"\x10\x11\x12\x13\x14\x15\x16\x17\x18\x19\x1a\x1b");

const GOAL: Content<'static> = Content(0x21, b"\xe1\xe2\xe3\xe4\xe5");

const WORD: Content<'static> = Content(0x22, b"\x71\x72\x73\x74\x75\x76\x77\x78");

const CELL_COPY: Held<'static> = Held(
    0xF_0000,
    b"\x10\x11\x12\x13\x14\x15\x16\x17\x18\x19\x1a\x1b\xa5",
);

const GOAL_COPY: Held<'static> = Held(0x300_0000, b"\xe1\xe2\xe3\xe4\xe5\xa5");

// Each load first reads the number of files and the entries of four.
const COUNT: Transfer = Read(0x19, 0, 4, 0x8000);

const ENTRIES: Transfer = Read(0x19, 4, 256, 0x8000);

const READ_CELL: Transfer = Read(0x20, 0, 12, 0xF_0000);

const READ_GOAL: Transfer = Read(0x21, 0, 5, 0x300_0000);

static WRITES: [Writes; 9] = [
    // A file that is placed before it is written: its copy stays. The number is 0x3000000 + 3.
    Writes {
        script: &[
            PLACE_CELL,
            PLACE_GOAL,
            WritePointer("etc/cell", "etc/goal", 2, 3, 4),
        ],
        transfers: &[
            COUNT,
            ENTRIES,
            Read(0x23, 0, 384, 0x8000),
            READ_CELL,
            READ_GOAL,
            Skip(0x20, 2),
            Write(0x20, 2, 4),
        ],
        contents: &[
            Content(0x20, b"\x10\x11\x03\0\0\x03\x16\x17\x18\x19\x1a\x1b"),
            GOAL,
            WORD,
        ],
        left: &[CELL_COPY, GOAL_COPY],
    },
    // One that is placed behind: its copy has the number.
    Writes {
        script: &[
            PLACE_GOAL,
            WritePointer("etc/cell", "etc/goal", 2, 3, 4),
            PLACE_CELL,
        ],
        transfers: &[
            COUNT,
            ENTRIES,
            Read(0x23, 0, 384, 0x8000),
            READ_GOAL,
            Skip(0x20, 2),
            Write(0x20, 2, 4),
            READ_CELL,
        ],
        contents: &[
            Content(0x20, b"\x10\x11\x03\0\0\x03\x16\x17\x18\x19\x1a\x1b"),
            GOAL,
            WORD,
        ],
        left: &[
            Held(
                0xF_0000,
                b"\x10\x11\x03\0\0\x03\x16\x17\x18\x19\x1a\x1b\xa5",
            ),
            GOAL_COPY,
        ],
    },
    // One that is written with a place in itself, all of it: 0x3000000 + 7, its last byte's.
    Writes {
        script: &[
            Allocate("etc/word", 8, HIGH),
            WritePointer("etc/word", "etc/word", 0, 7, 8),
        ],
        transfers: &[
            COUNT,
            ENTRIES,
            Read(0x23, 0, 256, 0x8000),
            Read(0x22, 0, 8, 0x300_0000),
            Skip(0x22, 0),
            Write(0x22, 0, 8),
        ],
        contents: &[CELL, GOAL, Content(0x22, b"\x07\0\0\x03\0\0\0\0")],
        left: &[Held(0x300_0000, b"\x71\x72\x73\x74\x75\x76\x77\x78\xa5")],
    },
    // Numbers of four bytes at both ends of a file.
    Writes {
        script: &[
            PLACE_GOAL,
            WritePointer("etc/cell", "etc/goal", 0, 0, 4),
            WritePointer("etc/cell", "etc/goal", 8, 4, 4),
        ],
        transfers: &[
            COUNT,
            ENTRIES,
            Read(0x23, 0, 384, 0x8000),
            READ_GOAL,
            Skip(0x20, 0),
            Write(0x20, 0, 4),
            Skip(0x20, 8),
            Write(0x20, 8, 4),
        ],
        contents: &[
            Content(0x20, b"\0\0\0\x03\x14\x15\x16\x17\x04\0\0\x03"),
            GOAL,
            WORD,
        ],
        left: &[GOAL_COPY],
    },
    // One of eight bytes at the end, of a place in the F segment: 0xF0040 + 2.
    Writes {
        script: &[
            PLACE_CELL,
            Allocate("etc/goal", 64, FSEG),
            WritePointer("etc/cell", "etc/goal", 4, 2, 8),
        ],
        transfers: &[
            COUNT,
            ENTRIES,
            Read(0x23, 0, 384, 0x8000),
            READ_CELL,
            Read(0x21, 0, 5, 0xF_0040),
            Skip(0x20, 4),
            Write(0x20, 4, 8),
        ],
        contents: &[
            Content(0x20, b"\x10\x11\x12\x13\x42\0\x0f\0\0\0\0\0"),
            GOAL,
            WORD,
        ],
        left: &[CELL_COPY, Held(0xF_0040, b"\xe1\xe2\xe3\xe4\xe5\xa5")],
    },
    // Two numbers in one field, of which the later stands, and a copy from between them, which has the first.
    Writes {
        script: &[
            PLACE_GOAL,
            WritePointer("etc/cell", "etc/goal", 6, 1, 4),
            PLACE_CELL,
            WritePointer("etc/cell", "etc/goal", 6, 2, 4),
        ],
        transfers: &[
            COUNT,
            ENTRIES,
            Read(0x23, 0, 512, 0x8000),
            READ_GOAL,
            Skip(0x20, 6),
            Write(0x20, 6, 4),
            READ_CELL,
            Skip(0x20, 6),
            Write(0x20, 6, 4),
        ],
        contents: &[
            Content(0x20, b"\x10\x11\x12\x13\x14\x15\x02\0\0\x03\x1a\x1b"),
            GOAL,
            WORD,
        ],
        left: &[
            Held(
                0xF_0000,
                b"\x10\x11\x12\x13\x14\x15\x01\0\0\x03\x1a\x1b\xa5",
            ),
            GOAL_COPY,
        ],
    },
    // Two fields that share bytes: the first has the bytes 3 to 10, and the second 5 to 8.
    Writes {
        script: &[
            PLACE_GOAL,
            WritePointer("etc/cell", "etc/goal", 3, 3, 8),
            WritePointer("etc/cell", "etc/goal", 5, 4, 4),
        ],
        transfers: &[
            COUNT,
            ENTRIES,
            Read(0x23, 0, 384, 0x8000),
            READ_GOAL,
            Skip(0x20, 3),
            Write(0x20, 3, 8),
            Skip(0x20, 5),
            Write(0x20, 5, 4),
        ],
        contents: &[
            Content(0x20, b"\x10\x11\x12\x03\0\x04\0\0\x03\0\0\x1b"),
            GOAL,
            WORD,
        ],
        left: &[GOAL_COPY],
    },
    // Other commands change the copy alone, and sum what it holds. 0x17161514 + 0x3000000 is 0x1A161514, and the bytes 0x10 to 0x1B sum to
    // 0x102, so that with 3 more the first one is 0x10 - 5.
    Writes {
        script: &[
            PLACE_CELL,
            PLACE_GOAL,
            AddPointer("etc/cell", "etc/goal", 4, 4),
            WritePointer("etc/cell", "etc/goal", 4, 0, 4),
            AddChecksum("etc/cell", 0, 0, 12),
        ],
        transfers: &[
            COUNT,
            ENTRIES,
            Read(0x23, 0, 640, 0x8000),
            READ_CELL,
            READ_GOAL,
            Skip(0x20, 4),
            Write(0x20, 4, 4),
        ],
        contents: &[
            Content(0x20, b"\x10\x11\x12\x13\0\0\0\x03\x18\x19\x1a\x1b"),
            GOAL,
            WORD,
        ],
        left: &[
            Held(
                0xF_0000,
                b"\x0b\x11\x12\x13\x14\x15\x16\x1a\x18\x19\x1a\x1b\xa5",
            ),
            GOAL_COPY,
        ],
    },
    // A number that was written is added to, where its file is placed behind: 0x3000001 + 0x3000000.
    Writes {
        script: &[
            PLACE_GOAL,
            WritePointer("etc/cell", "etc/goal", 8, 1, 4),
            PLACE_CELL,
            AddPointer("etc/cell", "etc/goal", 8, 4),
        ],
        transfers: &[
            COUNT,
            ENTRIES,
            Read(0x23, 0, 512, 0x8000),
            READ_GOAL,
            Skip(0x20, 8),
            Write(0x20, 8, 4),
            READ_CELL,
        ],
        contents: &[
            Content(0x20, b"\x10\x11\x12\x13\x14\x15\x16\x17\x01\0\0\x03"),
            GOAL,
            WORD,
        ],
        left: &[
            Held(
                0xF_0000,
                b"\x10\x11\x12\x13\x14\x15\x16\x17\x01\0\0\x06\xa5",
            ),
            GOAL_COPY,
        ],
    },
];

#[test]
fn files_that_are_written(rt: HostRuntime) -> Result<(), Fail> {
    for writes in &WRITES {
        are_done(&rt, rt.alloc(), writes)?;
    }
    Ok(())
}

fn are_done(rt: &impl Abort, alloc: Global, writes: &Writes) -> Result<(), Fail> {
    let end = End {
        answer: Ok(()),
        transfers: writes.transfers,
        contents: writes.contents,
        left: writes.left,
        others: false,
    };
    let items = items_of(alloc, &WRITTEN_FILES, 0, writes.script)?;
    ends_without_events(rt, alloc, items, &[], &end)
}
