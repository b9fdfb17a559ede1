//! A script whose file the guest may write, and that writes there while it runs. The run goes on as the script was read.

use crate::files::{File, LOADER, WRITTEN_FILES, items_with};
use crate::rig::Transfer::{self, Read, Skip, Write};
use crate::rig::{Content, End, Held, ends_without_events};
use crate::scripts::Line::{self, AddPointer, Allocate, WritePointer};
use crate::scripts::{FSEG, HIGH, script_of};
use cfg_directory::Items;
use std::alloc::Global;
use std::process::Abort;
use std::test::Fail;

// A script, the transfers of its load, the script that its file spells then, and all that is left in memory.
#[derive(Clone, Copy)]
struct Rewritten {
    script: &'static [Line],
    transfers: &'static [Transfer],
    becomes: &'static [Line],
    left: &'static [Held<'static>],
}

const PLACE_GOAL: Line = Allocate("etc/goal", 64, HIGH);

const GOAL_COPY: Held<'static> = Held(0x300_0000, b"\xe1\xe2\xe3\xe4\xe5\xa5");

const COUNT: Transfer = Read(0x19, 0, 4, 0x8000);

const ENTRIES: Transfer = Read(0x19, 4, 256, 0x8000);

const READ_GOAL: Transfer = Read(0x21, 0, 5, 0x300_0000);

// In a command, the bytes 60 to 63 are the align of an Allocate; the bytes 116 to 119 are the offset of an AddPointer, and the first offset of
// a WritePointer, behind which the second one stands. The command of index 1 begins at 128, and the one of index 2 at 256.
static REWRITTEN: [Rewritten; 4] = [
    // An align that is no power of two any more: 0x3000000.
    Rewritten {
        script: &[
            PLACE_GOAL,
            WritePointer(LOADER, "etc/goal", 316, 0, 4),
            Allocate("etc/word", 16, FSEG),
        ],
        transfers: &[
            COUNT,
            ENTRIES,
            Read(0x23, 0, 384, 0x8000),
            READ_GOAL,
            Skip(0x23, 316),
            Write(0x23, 316, 4),
            Read(0x22, 0, 8, 0xF_0000),
        ],
        becomes: &[
            PLACE_GOAL,
            WritePointer(LOADER, "etc/goal", 316, 0, 4),
            Allocate("etc/word", 0x300_0000, FSEG),
        ],
        left: &[
            GOAL_COPY,
            Held(0xF_0000, b"\x71\x72\x73\x74\x75\x76\x77\x78\xa5"),
        ],
    },
    // An offset that is in no file any more. 0x74737271 + 0x3000000 is 0x77737271.
    Rewritten {
        script: &[
            PLACE_GOAL,
            Allocate("etc/word", 16, FSEG),
            WritePointer(LOADER, "etc/goal", 500, 4, 4),
            AddPointer("etc/word", "etc/goal", 0, 4),
        ],
        transfers: &[
            COUNT,
            ENTRIES,
            Read(0x23, 0, 512, 0x8000),
            READ_GOAL,
            Read(0x22, 0, 8, 0xF_0000),
            Skip(0x23, 500),
            Write(0x23, 500, 4),
        ],
        becomes: &[
            PLACE_GOAL,
            Allocate("etc/word", 16, FSEG),
            WritePointer(LOADER, "etc/goal", 500, 4, 4),
            AddPointer("etc/word", "etc/goal", 0x300_0004, 4),
        ],
        left: &[
            GOAL_COPY,
            Held(0xF_0000, b"\x71\x72\x73\x77\x75\x76\x77\x78\xa5"),
        ],
    },
    // The offsets of the command itself, and then the second offset of the one before it.
    Rewritten {
        script: &[
            PLACE_GOAL,
            WritePointer(LOADER, "etc/goal", 244, 1, 8),
            WritePointer(LOADER, "etc/goal", 248, 2, 4),
        ],
        transfers: &[
            COUNT,
            ENTRIES,
            Read(0x23, 0, 384, 0x8000),
            READ_GOAL,
            Skip(0x23, 244),
            Write(0x23, 244, 8),
            Skip(0x23, 248),
            Write(0x23, 248, 4),
        ],
        becomes: &[
            PLACE_GOAL,
            WritePointer(LOADER, "etc/goal", 0x300_0001, 0x300_0002, 8),
            WritePointer(LOADER, "etc/goal", 248, 2, 4),
        ],
        left: &[GOAL_COPY],
    },
    // The align of a command that is over, and then an offset of the last one, behind a copy of the script: 0xF0000 + 255 in the script itself.
    // The copy has the first number, and not the second.
    Rewritten {
        script: &[
            PLACE_GOAL,
            WritePointer(LOADER, "etc/goal", 60, 0, 4),
            Allocate(LOADER, 256, FSEG),
            WritePointer(LOADER, LOADER, 500, 255, 4),
        ],
        transfers: &[
            COUNT,
            ENTRIES,
            Read(0x23, 0, 512, 0x8000),
            READ_GOAL,
            Skip(0x23, 60),
            Write(0x23, 60, 4),
            Read(0x23, 0, 512, 0xF_0000),
            Skip(0x23, 500),
            Write(0x23, 500, 4),
        ],
        becomes: &[
            Allocate("etc/goal", 0x300_0000, HIGH),
            WritePointer(LOADER, "etc/goal", 60, 0, 4),
            Allocate(LOADER, 256, FSEG),
            WritePointer(LOADER, LOADER, 0xF_00FF, 255, 4),
        ],
        left: &[
            GOAL_COPY,
            Held(0xF_0000, b"\x01\0\0\0etc/goal"),
            Held(0xF_000C, &[0; 48]),
            Held(0xF_003C, b"\0\0\0\x03\x01"),
            Held(0xF_0041, &[0; 63]),
            Held(0xF_0080, b"\x04\0\0\0etc/table-loader"),
            Held(0xF_0094, &[0; 40]),
            Held(0xF_00BC, b"etc/goal"),
            Held(0xF_00C4, &[0; 48]),
            Held(0xF_00F4, b"\x3c\0\0\0\0\0\0\0\x04\0\0\0"),
            Held(0xF_0100, b"\x01\0\0\0etc/table-loader"),
            Held(0xF_0114, &[0; 40]),
            Held(0xF_013C, b"\0\x01\0\0\x02"),
            Held(0xF_0141, &[0; 63]),
            Held(0xF_0180, b"\x04\0\0\0etc/table-loader"),
            Held(0xF_0194, &[0; 40]),
            Held(0xF_01BC, b"etc/table-loader"),
            Held(0xF_01CC, &[0; 40]),
            Held(0xF_01F4, b"\xf4\x01\0\0\xff\0\0\0\x04\0\0\0\xa5"),
        ],
    },
];

#[test]
fn scripts_that_write_themselves(rt: HostRuntime) -> Result<(), Fail> {
    for rewritten in &REWRITTEN {
        is_rewritten(&rt, rt.alloc(), rewritten)?;
    }
    Ok(())
}

fn is_rewritten(rt: &impl Abort, alloc: Global, rewritten: &Rewritten) -> Result<(), Fail> {
    let becomes = script_of(alloc, rewritten.becomes)?;
    let items = rewritable_items(alloc, rewritten.script)?;
    becomes_so(rt, alloc, items, rewritten, becomes.as_slice())
}

fn becomes_so(
    rt: &impl Abort,
    alloc: Global,
    items: Items,
    rewritten: &Rewritten,
    becomes: &[u8],
) -> Result<(), Fail> {
    let end = End {
        answer: Ok(()),
        transfers: rewritten.transfers,
        contents: &[Content(0x23, becomes)],
        left: rewritten.left,
        others: false,
    };
    ends_without_events(rt, alloc, items, &[], &end)
}

// The files of a device, of which the guest may write the script too.
fn rewritable_items(alloc: Global, lines: &[Line]) -> Result<Items, Fail> {
    let script = script_of(alloc, lines)?;
    let loader = File {
        name: LOADER,
        writable: true,
        bytes: script.as_slice(),
    };
    items_with(alloc, &WRITTEN_FILES, 0, &[loader])
}
