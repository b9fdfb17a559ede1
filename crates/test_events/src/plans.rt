//! A small load over plans that are lists of events. However the events are mixed, it makes the same transfers and leaves the same files.

ghost use Rattle.std.specs.Prelude.{◌≡◌, IfSome, IsSomeAnd, OnOk};
ghost use Rattle.load_states.specs.Loads.{IsBegun};
ghost use Rattle.load_states.specs.LoadState.{memory_of, opening_of};

use crate::files::{SMALL_FILES, items_of};
use crate::rig::Transfer::{self, Read};
use crate::rig::{End, FILL, Held, begin, ends};
use crate::scripts::Line::{self, AddChecksum, AddPointer, Allocate, Zeros};
use crate::scripts::{FSEG, HIGH};
use cfg_directory::Items;
use firmware_load::{Event, ListSchedule, Schedule, World};
use std::alloc::Global;
use std::process::Abort;
use std::test::Fail;
use vt_outside::{List, OutOfMemory};

/// Places the first file in the F segment at a multiple of 16, and the second in high memory at one of 64.
pub(crate) const PLACE_ANCHOR: Line = Allocate("etc/anchor", 16, FSEG);

pub(crate) const PLACE_TABLES: Line = Allocate("etc/tables", 64, HIGH);

/// Adds the place of the second file to the number in the first one, and gives the first one its sum.
pub(crate) const POINT: Line = AddPointer("etc/anchor", "etc/tables", 2, 4);

pub(crate) const SUM: Line = AddChecksum("etc/anchor", 8, 0, 9);

/// A command that changes nothing, as QEMU pads its scripts with.
pub(crate) const PADDING: Line = Zeros(128);

/// What the small load leaves: 5 + 0x3000000 is 0x3000005, and 0x41 + 0x42 + 5 + 3 + 0x77 + 0x88 + 0x76 is 0x200.
pub(crate) const ANCHOR: Held<'static> = Held(0xF_0000, b"\x41\x42\x05\0\0\x03\x77\x88\x76");

pub(crate) const TABLES: Held<'static> = Held(0x300_0000, b"\xc1\xc2\xc3\xc4\xc5");

/// Makes the files of the small load's device.
pub(crate) fn small_items(alloc: Global) -> Result<Items, Fail> {
    let lines = [PLACE_ANCHOR, PLACE_TABLES, POINT, SUM, PADDING];
    items_of(alloc, &SMALL_FILES, 0, &lines)
}

/// Begins the small load in a world.
pub(crate) fn begin_small(alloc: Global, world: &mut World) -> Result<(), Fail>
    ensures fresh { OnOk result (IsSomeAnd world.new.load (λ w. IsBegun (opening_of w) w)) }
    ensures top { OnOk result (IfSome world.new.load (λ w. (memory_of w).top ≡ 0x4000000)) }
{
    let items = small_items(alloc)?;
    begin(alloc, world, items)?;
    Ok(())
}

/// The transfers of the small load at its lowest places: the number of files, the entries of four files, five commands, and both files.
pub(crate) static READS: [Transfer; 5] = [
    Read(0x19, 0, 4, 0x8000),
    Read(0x19, 4, 256, 0x8000),
    Read(0x23, 0, 640, 0x8000),
    Read(0x20, 0, 9, 0xF_0000),
    Read(0x21, 0, 5, 0x300_0000),
];

/// Returns the first so many of them.
pub(crate) fn first_reads(count: usize) -> &'static [Transfer] {
    &READS[..count.min(5)]
}

/// Returns them where both files go elsewhere.
pub(crate) fn reads_to(anchor: u64, tables: u64) -> [Transfer; 5] {
    let [number, entries, script, ..] = READS;
    [
        number,
        entries,
        script,
        Read(0x20, 0, 9, anchor),
        Read(0x21, 0, 5, tables),
    ]
}

/// Places that no other processor writes: both ends of the descriptor, of the buffer, of the BIOS area and of high memory, which begins
/// with a placed file, and both ends of the other file.
pub(crate) const GUARDED: [u64; 10] = [
    0x7000, 0x700F, 0x8000, 0x8FFF, 0xE_0000, 0xF_FFFF, 0x300_0000, 0x3FF_FFFF, 0xF_0000, 0xF_0008,
];

/// Places beside these that they do write, and two that are no RAM.
pub(crate) const WRITTEN: [u64; 7] = [
    0x1_2345, 0x6FFF, 0x7010, 0x9000, 0x2FF_FFFF, 0xA_0000, 0x400_0000,
];

/// The guarded places that hold no table keep the fill byte.
pub(crate) const UNWRITTEN: [Held<'static>; 5] = [
    ANCHOR,
    TABLES,
    Held(0xE_0000, &[FILL]),
    Held(0xF_FFFF, &[FILL]),
    Held(0x3FF_FFFF, &[FILL]),
];

// The others hold what was written last, in round 21.
const LEFT: [Held<'static>; 7] = [
    ANCHOR,
    TABLES,
    Held(0x1_2345, &[21]),
    Held(0x6FFF, &[21]),
    Held(0x7010, &[21]),
    Held(0x9000, &[21]),
    Held(0x2FF_FFFF, &[21]),
];

// A plan of so many rounds; how many bytes a piece has, and where is written behind each event; what the load leaves, and how many events
// are left.
struct Plan {
    count: u16,
    bytes: u32,
    addresses: &'static [u64],
    left: &'static [Held<'static>],
    events: u32,
}

// By single bytes the transfers take 4, 256, 640, 9 and 5 rounds, each with one round more in which the firmware sees the end, the other
// three commands one each, and the load ends with the first event of round 923. By pieces of 100 bytes they take 1, 3, 7, 1 and 1, and
// the load ends with the first event of round 22.
static PLANS: [Plan; 4] = [
    Plan {
        count: 0,
        bytes: 0,
        addresses: &[],
        left: &[ANCHOR, TABLES],
        events: 0,
    },
    Plan {
        count: 1000,
        bytes: 1,
        addresses: &[],
        left: &[ANCHOR, TABLES],
        events: 155,
    },
    Plan {
        count: 30,
        bytes: 100,
        addresses: &GUARDED,
        left: &UNWRITTEN,
        events: 197,
    },
    Plan {
        count: 30,
        bytes: 100,
        addresses: &WRITTEN,
        left: &LEFT,
        events: 143,
    },
];

#[test]
fn plans(rt: HostRuntime) -> Result<(), Fail> {
    for plan in &PLANS {
        ends_within(&rt, rt.alloc(), plan)?;
    }
    Ok(())
}

fn ends_within(rt: &impl Abort, alloc: Global, plan: &Plan) -> Result<(), Fail> {
    let mut schedule = plan_of(alloc, plan.count, plan.bytes, plan.addresses)?;
    let done = ends_over(rt, alloc, &mut schedule, plan);
    drop(schedule);
    done
}

fn ends_over(
    rt: &impl Abort,
    alloc: Global,
    schedule: &mut ListSchedule,
    plan: &Plan,
) -> Result<(), Fail> {
    small_load_ends(rt, alloc, schedule, plan.left)?;
    assert_eq!(rt; count_left(schedule), plan.events);
    Ok(())
}

// The small load over these events is done, and leaves these bytes.
fn small_load_ends(
    rt: &impl Abort,
    alloc: Global,
    schedule: &mut ListSchedule,
    left: &[Held],
) -> Result<(), Fail> {
    let end = End {
        answer: Ok(()),
        transfers: first_reads(5),
        contents: &[],
        left,
        others: false,
    };
    let items = small_items(alloc)?;
    ends(rt, alloc, items, &[], schedule, &end)
}

/// Makes a plan of so many rounds, all of which are left: a step of the firmware and a piece of so many bytes, and behind each of them
/// the round's number, modulo 256, is written at these addresses.
pub(crate) fn plan_of(
    alloc: Global,
    count: u16,
    bytes: u32,
    addresses: &[u64],
) -> Result<ListSchedule, OutOfMemory> {
    let mut events = List::new(alloc);
    put_rounds(&mut events, count, bytes, addresses)?;
    let mut plan = ListSchedule::new(events);
    plan.begin(0);
    Ok(plan)
}

/// Adds so many rounds to events, as [`plan_of`] says.
pub(crate) fn put_rounds(
    events: &mut List<Event>,
    count: u16,
    bytes: u32,
    addresses: &[u64],
) -> Result<(), OutOfMemory> {
    for round in 1..=count {
        put_round(events, (round % 256) as u8, bytes, addresses)?;
    }
    Ok(())
}

fn put_round(
    events: &mut List<Event>,
    byte: u8,
    bytes: u32,
    addresses: &[u64],
) -> Result<(), OutOfMemory> {
    put_event(events, Event::Firmware, byte, addresses)?;
    put_event(events, Event::Device(bytes), byte, addresses)
}

// An event, and writes behind it.
fn put_event(
    events: &mut List<Event>,
    event: Event,
    byte: u8,
    addresses: &[u64],
) -> Result<(), OutOfMemory> {
    events.push(event)?;
    for addr in addresses {
        events.push(Event::Other { addr: *addr, byte })?;
    }
    Ok(())
}

/// How many events are left of a plan, which has at most 2,000.
pub(crate) fn count_left(plan: &mut ListSchedule) -> u32 {
    let mut count = 0u32;
    for _ in 0..2000 {
        count = count.saturating_add(u32::from(plan.next().is_some()));
    }
    count
}
