//! Single steps of a WritePointer: the skip, the write in pieces, and what memory and the file hold between them.

use crate::files::{WRITTEN_FILES, items_of};
use crate::rig::Transfer::{self, Read, Skip, Write};
use crate::rig::{Content, Held};
use crate::scripts::HIGH;
use crate::scripts::Line::{self, Allocate, WritePointer};
use crate::steps::{Seen, TURN, Turns, Unseen, WHOLE, Walk, walks};
use firmware_load::Event::{Device, Firmware, Other, Reset};
use firmware_load::{Event, State};
use std::alloc::Global;
use std::process::Abort;
use std::test::Fail;

// The number is 0x3000000 + 3.
static SCRIPT: [Line; 2] = [
    Allocate("etc/goal", 64, HIGH),
    WritePointer("etc/cell", "etc/goal", 2, 3, 4),
];

static TRANSFERS: [Transfer; 6] = [
    Read(0x19, 0, 4, 0x8000),
    Read(0x19, 4, 256, 0x8000),
    Read(0x23, 0, 256, 0x8000),
    Read(0x21, 0, 5, 0x300_0000),
    Skip(0x20, 2),
    Write(0x20, 2, 4),
];

const UNWRITTEN: Content<'static> = Content(
    0x20,
    b"\x10\x11\x12\x13\x14\x15\x16\x17\x18\x19\x1a\x1b",
);

// Three bytes of the number are moved, and then all.
const PARTLY: Content<'static> = Content(0x20, b"\x10\x11\x03\0\0\x15\x16\x17\x18\x19\x1a\x1b");

const WHOLLY: Content<'static> = Content(0x20, b"\x10\x11\x03\0\0\x03\x16\x17\x18\x19\x1a\x1b");

// The placed file.
const GOAL: Held<'static> = Held(0x300_0000, b"\xe1\xe2\xe3\xe4\xe5");

// What the buffer holds of the script but for its first four bytes: the Allocate with its file, align and zone, and the WritePointer with its files,
// offsets and size.
const SCRIPT_READ: &[Held<'static>] = &[
    Held(0x8004, b"etc/goal"),
    Held(0x800C, &[0; 48]),
    Held(0x803C, b"\x40\0\0\0\x01"),
    Held(0x8041, &[0; 63]),
    Held(0x8080, b"\x04\0\0\0etc/cell"),
    Held(0x808C, &[0; 48]),
    Held(0x80BC, b"etc/goal"),
    Held(0x80C4, &[0; 48]),
    Held(0x80F4, b"\x02\0\0\0\x03\0\0\0\x04\0\0\0"),
];

// These four bytes are the number of an Allocate, and then the number that is written.
const COMMAND: Held<'static> = Held(0x8000, b"\x01\0\0\0");

const NUMBER: Held<'static> = Held(0x8000, b"\x03\0\0\x03");

// The file is placed, and its read is over.
const PLACED: Seen = Seen {
    state: State::Running,
    busy: false,
    count: 4,
    held: &[
        Held(0x7000, b"\0\0\0\0\0\0\0\x05\0\0\0\0\x03\0\0\0"),
        COMMAND,
        GOAL,
    ],
    buffer: SCRIPT_READ,
    contents: &[UNWRITTEN],
};

// The skip of 2 bytes is over at once.
const SKIPPED: Seen = Seen {
    count: 5,
    held: &[
        Held(0x7000, b"\0\0\0\0\0\0\0\x02\0\0\0\0\0\0\0\0"),
        COMMAND,
        GOAL,
    ],
    ..PLACED
};

const ASKED: Seen = Seen {
    busy: true,
    count: 5,
    held: &[
        Held(0x7000, b"\0\0\0\x10\0\0\0\x04\0\0\0\0\0\0\x80\0"),
        NUMBER,
        GOAL,
    ],
    ..PLACED
};

const IN_PIECES: Seen = Seen {
    contents: &[PARTLY],
    ..ASKED
};

const WRITTEN: Seen = Seen {
    count: 6,
    held: &[
        Held(0x7000, b"\0\0\0\0\0\0\0\x04\0\0\0\0\0\0\x80\0"),
        NUMBER,
        GOAL,
    ],
    contents: &[WHOLLY],
    ..PLACED
};

const DONE: Seen = Seen {
    state: State::Done,
    held: &[GOAL],
    buffer: &[],
    ..WRITTEN
};

// Writes of other processors, which have no effect: to the lowest byte of the control word, and to both ends of the number.
const CONTROL: Event = Other {
    addr: 0x7003,
    byte: 0,
};

const FIRST: Event = Other {
    addr: 0x8000,
    byte: 0xEE,
};

const LAST: Event = Other {
    addr: 0x8003,
    byte: 0xEE,
};

// It takes two steps each for the number of files, the entries, the script and the placed file; then one that comes to the WritePointer and
// skips, one that sees this, one that asks for the write, steps that look until it is over, and one for the end.
static TURNS: [Turns; 10] = [
    Turns(8, &[Firmware, WHOLE], PLACED),
    Turns(1, &[Firmware], SKIPPED),
    Turns(1, &[Device(9), Firmware, Device(9)], SKIPPED),
    Turns(1, &[Firmware], ASKED),
    Turns(2, &[Firmware, Device(0), CONTROL, FIRST, LAST], ASKED),
    Turns(3, &[Device(1), FIRST, LAST, Firmware, CONTROL], IN_PIECES),
    Turns(2, &[Firmware, Device(0)], IN_PIECES),
    Turns(1, &[Device(1), Device(9)], WRITTEN),
    Turns(1, &[Firmware], WRITTEN),
    Turns(2, &[Firmware, WHOLE], DONE),
];

#[test]
fn steps_of_a_write(rt: HostRuntime) -> Result<(), Fail> {
    let items = items_of(rt.alloc(), &WRITTEN_FILES, 0, &SCRIPT)?;
    let walk = Walk {
        before: &[],
        transfers: &TRANSFERS,
        turns: &TURNS,
    };
    walks(&rt, rt.alloc(), items, &walk)
}

// A reset takes back what was moved of the number, and leaves the rest. Behind it the write is over no more.
const TAKEN_BACK: Seen = Seen {
    busy: false,
    count: 0,
    ..ASKED
};

static RESETS: [Turns; 7] = [
    Turns(8, TURN, PLACED),
    Turns(3, &[Firmware], ASKED),
    Turns(3, &[Device(1)], IN_PIECES),
    Turns(1, &[Reset], TAKEN_BACK),
    Turns(2, &[WHOLE, Reset], TAKEN_BACK),
    Turns(13, TURN, DONE),
    Turns(1, &[Reset], GIVEN_BACK),
];

// So it does of a load that is done, whose work range holds the fill byte.
const GIVEN_BACK: Seen = Seen {
    state: State::Running,
    count: 0,
    contents: &[UNWRITTEN],
    ..DONE
};

#[test]
fn reset_within_a_write(rt: HostRuntime) -> Result<(), Fail> {
    let items = items_of(rt.alloc(), &WRITTEN_FILES, 0, &SCRIPT)?;
    let walk = Walk {
        before: &[],
        transfers: &TRANSFERS,
        turns: &RESETS,
    };
    walks(&rt, rt.alloc(), items, &walk)
}

static WHOLE_LOAD: [Turns; 1] = [Turns(13, TURN, DONE)];

// Each byte of the number, and each turn: with all that was before it forgotten, the number is written once more.
static BEFORE: [[Unseen; 3]; 7] = [
    [(9, TURN), (1, &[Firmware]), (1, &[Reset])],
    [(10, TURN), (1, &[Firmware]), (1, &[Reset])],
    [(10, TURN), (1, &[Firmware, Device(1)]), (1, &[Reset])],
    [(10, TURN), (1, &[Firmware, Device(2)]), (1, &[Reset])],
    [(10, TURN), (1, &[Firmware, Device(3)]), (1, &[Reset])],
    [(11, TURN), (1, &[Firmware]), (1, &[Reset])],
    [(12, TURN), (1, &[Firmware]), (2, &[Reset])],
];

#[test]
fn number_written_again(rt: HostRuntime) -> Result<(), Fail> {
    for before in &BEFORE {
        is_written_again(&rt, rt.alloc(), before)?;
    }
    Ok(())
}

fn is_written_again(rt: &impl Abort, alloc: Global, before: &[Unseen]) -> Result<(), Fail> {
    let items = items_of(alloc, &WRITTEN_FILES, 0, &SCRIPT)?;
    let walk = Walk {
        before,
        transfers: &TRANSFERS,
        turns: &WHOLE_LOAD,
    };
    walks(rt, alloc, items, &walk)
}
