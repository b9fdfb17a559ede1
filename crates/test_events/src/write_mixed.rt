//! One load that writes, which ends alike over any events: those of plans by pieces of any size, with other processors, and those of seeds.

use crate::files::{WRITTEN_FILES, items_of};
use crate::plans::{count_left, plan_of};
use crate::rig::Transfer::{self, Read, Skip, Write};
use crate::rig::{Content, End, Held, begin, ends, ends_without_events};
use crate::scripts::Line::{self, Allocate, WritePointer};
use crate::scripts::{FSEG, HIGH};
use crate::seeds::begun_ends_over;
use cfg_directory::Items;
use firmware_load::{ListSchedule, World};
use std::alloc::Global;
use std::process::Abort;
use std::test::Fail;
use zone_alloc::Policy;

// A file that is placed before it is written, one that is placed behind, and two numbers in one field.
static SCRIPT: [Line; 7] = [
    Allocate("etc/cell", 16, FSEG),
    Allocate("etc/goal", 64, HIGH),
    WritePointer("etc/cell", "etc/goal", 2, 3, 4),
    WritePointer("etc/word", "etc/goal", 0, 1, 8),
    Allocate("etc/word", 8, HIGH),
    WritePointer("etc/cell", "etc/word", 8, 7, 4),
    WritePointer("etc/cell", "etc/word", 8, 6, 4),
];

// The second file has the bytes 0 to 4 of high memory, and the third one those from 8 on.
static TRANSFERS: [Transfer; 14] = [
    Read(0x19, 0, 4, 0x8000),
    Read(0x19, 4, 256, 0x8000),
    Read(0x23, 0, 896, 0x8000),
    Read(0x20, 0, 12, 0xF_0000),
    Read(0x21, 0, 5, 0x300_0000),
    Skip(0x20, 2),
    Write(0x20, 2, 4),
    Skip(0x22, 0),
    Write(0x22, 0, 8),
    Read(0x22, 0, 8, 0x300_0008),
    Skip(0x20, 8),
    Write(0x20, 8, 4),
    Skip(0x20, 8),
    Write(0x20, 8, 4),
];

// The numbers are 0x3000003, 0x3000001, and at last 0x3000008 + 6.
static CONTENTS: [Content<'static>; 3] = [
    Content(0x20, b"\x10\x11\x03\0\0\x03\x16\x17\x0e\0\0\x03"),
    Content(0x21, b"\xe1\xe2\xe3\xe4\xe5"),
    Content(0x22, b"\x01\0\0\x03\0\0\0\0"),
];

static LEFT: [Held<'static>; 3] = [
    Held(
        0xF_0000,
        b"\x10\x11\x12\x13\x14\x15\x16\x17\x18\x19\x1a\x1b\xa5",
    ),
    Held(0x300_0000, b"\xe1\xe2\xe3\xe4\xe5\xa5\xa5\xa5"),
    Held(0x300_0008, b"\x01\0\0\x03\0\0\0\0\xa5"),
];

fn mixed_items(alloc: Global) -> Result<Items, Fail> {
    items_of(alloc, &WRITTEN_FILES, 0, &SCRIPT)
}

// How the load ends, where other processors wrote below 640 KiB, or nowhere.
fn mixed_end(others: bool) -> End<'static> {
    End {
        answer: Ok(()),
        transfers: &TRANSFERS,
        contents: &CONTENTS,
        left: &LEFT,
        others,
    }
}

#[test]
fn no_events_of_writes(rt: HostRuntime) -> Result<(), Fail> {
    let items = mixed_items(rt.alloc())?;
    ends_without_events(&rt, rt.alloc(), items, &[], &mixed_end(false))
}

// The work range's first bytes: the descriptor, and the longest number.
const WORKED: [u64; 24] = [
    0x7000, 0x7001, 0x7002, 0x7003, 0x7004, 0x7005, 0x7006, 0x7007, 0x7008, 0x7009, 0x700A, 0x700B,
    0x700C, 0x700D, 0x700E, 0x700F, 0x8000, 0x8001, 0x8002, 0x8003, 0x8004, 0x8005, 0x8006, 0x8007,
];

// A plan of so many rounds: how many bytes a piece has, where is written behind each event, and how many events are left.
struct Plan(u16, u32, &'static [u64], u32);

// A read takes a round for each piece, and one in which the firmware sees the end. A write takes a round that skips, one that sees this,
// and then as many as a read. The last round has one event. By single bytes the reads take 5, 257, 897, 13, 6 and 9 rounds, and the writes
// 7, 11, 7 and 7: 1,219 in all. By pieces of 3 bytes the reads take 3, 87, 300, 5, 3 and 4, and the writes 5, 6, 5 and 5: 423 in all. By
// pieces of 100 bytes the reads take 2, 4, 10, 2, 2 and 2, and the writes 4 each: 38 in all.
static PLANS: [Plan; 5] = [
    Plan(1300, 1, &[], 161),
    Plan(1250, 1, &WORKED, 1549),
    Plan(450, 3, &[], 53),
    Plan(450, 3, &WORKED, 1349),
    Plan(50, 100, &WORKED, 599),
];

#[test]
fn plans_of_writes(rt: HostRuntime) -> Result<(), Fail> {
    for plan in &PLANS {
        ends_within(&rt, rt.alloc(), plan)?;
    }
    Ok(())
}

fn ends_within(rt: &impl Abort, alloc: Global, plan: &Plan) -> Result<(), Fail> {
    let Plan(count, bytes, addresses, events) = *plan;
    let mut schedule = plan_of(alloc, count, bytes, addresses)?;
    let done = ends_over(rt, alloc, &mut schedule, events);
    drop(schedule);
    done
}

fn ends_over(
    rt: &impl Abort,
    alloc: Global,
    schedule: &mut ListSchedule,
    events: u32,
) -> Result<(), Fail> {
    let items = mixed_items(alloc)?;
    ends(rt, alloc, items, &[], schedule, &mixed_end(false))?;
    assert_eq!(rt; count_left(schedule), events);
    Ok(())
}

#[test]
fn seeds_of_writes(rt: HostRuntime) -> Result<(), Fail> {
    for seed in 1..=100 {
        ends_over_seed(&rt, rt.alloc(), seed)?;
    }
    Ok(())
}

fn ends_over_seed(rt: &impl Abort, alloc: Global, seed: u64) -> Result<(), Fail> {
    let mut world = World::idle();
    let done = ends_over_seed_in(rt, alloc, &mut world, seed);
    drop(world);
    done
}

fn ends_over_seed_in(
    rt: &impl Abort,
    alloc: Global,
    world: &mut World,
    seed: u64,
) -> Result<(), Fail> {
    let items = mixed_items(alloc)?;
    begin(alloc, world, items)?;
    begun_ends_over(rt, alloc, world, Policy::Low, seed, &mixed_end(true))
}
