//! Files that have no place, and an allocator that refuses some.

use crate::cases::{Case, all_end, case_ends, items_end};
use crate::done::SMALL;
use crate::files::{FILES, File, LOADER, items_with};
use crate::rig::Held;
use crate::scripts::Line::{self, AddPointer, Allocate, Zeros};
use crate::scripts::{FSEG, HIGH, script_of};
use cfg_directory::Items;
use firmware_load::LoadFault;
use loader_script::Cause;
use std::alloc::Global;
use std::process::Abort;
use std::test::Fail;
use vt_outside::{Bytes, List, OutOfMemory};

static NO_ROOM: [Case<'static>; 3] = [
    // No multiple of 2^31 is in high memory, and none of 0x20000 in the F segment.
    Case {
        script: &[Allocate("etc/target", 0x8000_0000, HIGH)],
        answer: Err(LoadFault::NoRoom { index: 0 }),
        left: &[],
    },
    Case {
        script: &[Allocate("etc/target", 0x2_0000, FSEG)],
        answer: Err(LoadFault::NoRoom { index: 0 }),
        left: &[],
    },
    // The only multiple of 16 MiB is another file's.
    Case {
        script: &[
            Zeros(128),
            Allocate("etc/holder", 0x100_0000, HIGH),
            Allocate("etc/target", 0x100_0000, HIGH),
            AddPointer("etc/holder", "etc/holder", 2, 4),
        ],
        answer: Err(LoadFault::NoRoom { index: 2 }),
        left: &[Held(0x300_0000, b"\x11\x22\x08\0\0\0\x33\x44\x55")],
    },
];

#[test]
fn no_multiple_of_the_align(rt: HostRuntime) -> Result<(), Fail> {
    all_end(&rt, rt.alloc(), &NO_ROOM)
}

// The requests that are refused, and a load.
static FAILING: [(&[u32], Case<'static>); 4] = [
    (
        &[1],
        Case {
            script: &[
                Zeros(128),
                Allocate("etc/holder", 1, HIGH),
                Zeros(128),
                Allocate("etc/target", 1, HIGH),
                Allocate("etc/edge", 1, HIGH),
            ],
            answer: Err(LoadFault::NoRoom { index: 3 }),
            left: &[Held(0x300_0000, b"\x11\x22\x08\0\0\0\x33\x44\x55")],
        },
    ),
    (
        &[0],
        Case {
            script: &[Allocate("etc/target", 1, FSEG)],
            answer: Err(LoadFault::NoRoom { index: 0 }),
            left: &[],
        },
    ),
    // It isn't asked for a file that has no bytes, nor for more files than are placed.
    (
        &[0],
        Case {
            script: &[Allocate("etc/empty", 1, HIGH)],
            answer: Err(LoadFault::Command {
                index: 0,
                cause: Cause::Empty,
            }),
            left: &[],
        },
    ),
    (&[2], SMALL),
];

#[test]
fn refused_requests(rt: HostRuntime) -> Result<(), Fail> {
    for (fails, case) in &FAILING {
        case_ends(&rt, rt.alloc(), fails, case)?;
    }
    Ok(())
}

// What the large file holds.
const BYTE: u8 = 0x5C;

static LARGE_SCRIPT: [Line; 1] = [Allocate("etc/large", 1, HIGH)];

// Bytes of a file past 16 MiB, how its load ends, and how many frames of high memory hold its bytes then.
static LARGE: [(u8, Result<(), LoadFault>, u32); 2] = [
    (0, Ok(()), 4096),
    (1, Err(LoadFault::NoRoom { index: 0 }), 0),
];

#[test]
fn files_as_large_as_a_zone(rt: HostRuntime) -> Result<(), Fail> {
    for (more, answer, frames) in &LARGE {
        large_ends(&rt, rt.alloc(), *more, *answer, *frames)?;
    }
    Ok(())
}

fn large_ends(
    rt: &impl Abort,
    alloc: Global,
    more: u8,
    answer: Result<(), LoadFault>,
    frames: u32,
) -> Result<(), Fail> {
    let left = large_left(alloc, frames)?;
    let items = large_items(alloc, more)?;
    let case = Case {
        script: &[],
        answer,
        left: left.as_slice(),
    };
    items_end(rt, alloc, items, &[], &case)
}

// So many frames of high memory, from its first on.
fn large_left(alloc: Global, frames: u32) -> Result<List<Held<'static>>, OutOfMemory> {
    let mut left = List::new(alloc);
    for frame in 0..frames {
        left.push(Held(0x300_0000 + u64::from(frame) * 4096, &[BYTE; 4096]))?;
    }
    Ok(left)
}

// The files of a device: one of 16 MiB and some bytes more, and a script that places it.
fn large_items(alloc: Global, more: u8) -> Result<Items, Fail> {
    let large = large_bytes(alloc, more)?;
    items_with_large(alloc, large.as_slice())
}

fn items_with_large(alloc: Global, large: &[u8]) -> Result<Items, Fail> {
    let script = script_of(alloc, &LARGE_SCRIPT)?;
    let loader = File {
        name: LOADER,
        writable: false,
        bytes: script.as_slice(),
    };
    let file = File {
        name: "etc/large",
        writable: false,
        bytes: large,
    };
    items_with(alloc, &FILES, 0, &[loader, file])
}

fn large_bytes(alloc: Global, more: u8) -> Result<Bytes, OutOfMemory> {
    let mut bytes = Bytes::new(alloc);
    put_large(&mut bytes, more)?;
    Ok(bytes)
}

fn put_large(bytes: &mut Bytes, more: u8) -> Result<(), OutOfMemory> {
    for _ in 0..256 {
        bytes.extend(&[BYTE; 65_536])?;
    }
    for _ in 0..more {
        bytes.push(BYTE)?;
    }
    Ok(())
}
