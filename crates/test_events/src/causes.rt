//! Commands that are refused.

use crate::cases::{Case, case_ends};
use crate::rig::Held;
use crate::scripts::Line::{self, AddChecksum, AddPointer, Allocate, Number};
use crate::scripts::{FSEG, HIGH};
use firmware_load::LoadFault;
use loader_script::Cause;
use std::alloc::Global;
use std::process::Abort;
use std::test::Fail;

// The command has the index 2, behind two files that are placed and stay. The one behind it isn't carried out.
static BEFORE: [Line; 2] = [
    Allocate("etc/holder", 16, HIGH),
    Allocate("etc/edge", 16, HIGH),
];

static BEHIND: Line = Allocate("etc/ones", 16, HIGH);

static LEFT: [Held<'static>; 2] = [
    Held(0x300_0000, b"\x11\x22\x08\0\0\0\x33\x44\x55"),
    Held(0x300_0010, b"\xff\xff\xff\xfc\0\0\0\xfd"),
];

static REFUSED: [(Line, Cause); 33] = [
    // of Allocates
    (Number(1), Cause::BadName),
    (Allocate("etc/none", 1, HIGH), Cause::NoFile),
    (Allocate("etc/holder", 16, HIGH), Cause::AlreadyPlaced),
    (Allocate("etc/edge", 1, FSEG), Cause::AlreadyPlaced),
    (Allocate("etc/empty", 1, HIGH), Cause::Empty),
    (Allocate("etc/target", 0, HIGH), Cause::BadAlign),
    (Allocate("etc/target", 3, HIGH), Cause::BadAlign),
    (Allocate("etc/target", 0xFFFF_FFFF, FSEG), Cause::BadAlign),
    (Allocate("etc/target", 1, 0), Cause::BadZone),
    (Allocate("etc/target", 1, 3), Cause::BadZone),
    (Allocate("etc/target", 1, 0xFF), Cause::BadZone),
    // of pointers
    (Number(2), Cause::BadName),
    (AddPointer("etc/none", "etc/holder", 0, 4), Cause::NoFile),
    (AddPointer("etc/holder", "etc/none", 0, 4), Cause::NoFile),
    (
        AddPointer("etc/holder", "etc/target", 0, 4),
        Cause::NotPlaced,
    ),
    (
        AddPointer("etc/target", "etc/holder", 0, 1),
        Cause::NotPlaced,
    ),
    (AddPointer("etc/holder", "etc/edge", 0, 0), Cause::BadSize),
    (AddPointer("etc/holder", "etc/edge", 0, 3), Cause::BadSize),
    (
        AddPointer("etc/holder", "etc/edge", 9, 1),
        Cause::OutOfRange,
    ),
    (AddPointer("etc/holder", "etc/edge", 0, 1), Cause::TooFar),
    // of checksums
    (Number(3), Cause::BadName),
    (AddChecksum("etc/none", 0, 0, 1), Cause::NoFile),
    (AddChecksum("etc/target", 0, 0, 1), Cause::NotPlaced),
    (AddChecksum("etc/holder", 9, 0, 1), Cause::OutOfRange),
    // the first cause of several
    (Allocate("etc/none", 3, 9), Cause::NoFile),
    (Allocate("etc/holder", 0, 0), Cause::AlreadyPlaced),
    (Allocate("etc/empty", 3, 9), Cause::Empty),
    (Allocate("etc/target", 3, 9), Cause::BadAlign),
    (AddPointer("etc/target", "etc/none", 99, 3), Cause::NoFile),
    (
        AddPointer("etc/holder", "etc/target", 99, 3),
        Cause::NotPlaced,
    ),
    (
        AddPointer("etc/holder", "etc/holder", 99, 3),
        Cause::BadSize,
    ),
    (
        AddPointer("etc/holder", "etc/holder", 99, 1),
        Cause::OutOfRange,
    ),
    (AddChecksum("etc/target", 9, 9, 9), Cause::NotPlaced),
];

#[test]
fn causes(rt: HostRuntime) -> Result<(), Fail> {
    for (line, cause) in &REFUSED {
        is_refused(&rt, rt.alloc(), line, *cause)?;
    }
    Ok(())
}

fn is_refused(rt: &impl Abort, alloc: Global, line: &Line, cause: Cause) -> Result<(), Fail> {
    let script = [BEFORE[0], BEFORE[1], *line, BEHIND];
    let case = Case {
        script: &script,
        answer: Err(LoadFault::Command { index: 2, cause }),
        left: &LEFT,
    };
    case_ends(rt, alloc, &[], &case)
}

// A pointer into no file behind one that was added, in which the sum that would be next isn't taken either.
static CUT_SHORT: Case<'static> = Case {
    script: &[
        Allocate("etc/holder", 16, HIGH),
        Allocate("etc/target", 64, HIGH),
        AddPointer("etc/holder", "etc/target", 2, 4),
        AddPointer("etc/holder", "etc/none", 2, 4),
        AddChecksum("etc/holder", 0, 0, 8),
    ],
    answer: Err(LoadFault::Command {
        index: 3,
        cause: Cause::NoFile,
    }),
    left: &[
        Held(0x300_0000, b"\x11\x22\x48\0\0\x03\x33\x44\x55"),
        Held(0x300_0040, b"\xa1\xa2\xa3"),
    ],
};

#[test]
fn a_script_cut_short(rt: HostRuntime) -> Result<(), Fail> {
    case_ends(&rt, rt.alloc(), &[], &CUT_SHORT)
}
