//! The small load over the events of seeds, with each policy of an allocator, and all of memory then: both files, what other processors left
//! below 640 KiB, and else the fill byte.

ghost use Rattle.std.specs.Prelude.{◌≡◌, IfSome, IsSomeAnd};
ghost use Rattle.load_states.specs.Loads.{IsBegun};
ghost use Rattle.load_states.specs.LoadState.{memory_of, opening_of};

use crate::others::{are_written, events_taken};
use crate::plans::{ANCHOR, TABLES, begin_small, reads_to};
use crate::rig::{End, Held, ends_placed};
use firmware_load::{Schedule, SeededSchedule, World};
use std::alloc::Global;
use std::ops::Range;
use std::process::Abort;
use std::test::Fail;
use zone_alloc::{Policy, ShelfAlloc};

/// What the small load leaves at the greatest places.
///
/// Both files are at the last multiples of their aligns. 5 + 0x3FFFFC0 is 0x3FFFFC5, and 0x41 + 0x42 + 0xC5 + 0xFF + 0xFF + 3 + 0x77 + 0x88
/// + 0xB8 is 0x500.
pub(crate) const AT_TOP: [Held<'static>; 2] = [
    Held(0xF_FFF0, b"\x41\x42\xc5\xff\xff\x03\x77\x88\xb8"),
    Held(0x3FF_FFC0, b"\xc1\xc2\xc3\xc4\xc5"),
];

/// What it leaves at the scattered places of seed 0.
///
/// The words of seed 0 begin with 11cdd903 and fc843fd7, so that the goals are 0xFD903 and 0x3843FD7. 5 + 0x3844000 is 0x3844005, and
/// 0x41 + 0x42 + 5 + 0x40 + 0x84 + 3 + 0x77 + 0x88 + 0xB2 is 0x300.
pub(crate) const SCATTERED: [Held<'static>; 2] = [
    Held(0xF_D910, b"\x41\x42\x05\x40\x84\x03\x77\x88\xb2"),
    Held(0x384_4000, b"\xc1\xc2\xc3\xc4\xc5"),
];

#[test]
fn low_places(rt: HostRuntime) -> Result<(), Fail> {
    all_end(&rt, rt.alloc(), Policy::Low, 0..200, &[ANCHOR, TABLES])
}

#[test]
fn more_low_places(rt: HostRuntime) -> Result<(), Fail> {
    all_end(&rt, rt.alloc(), Policy::Low, 200..400, &[ANCHOR, TABLES])
}

#[test]
fn top_places(rt: HostRuntime) -> Result<(), Fail> {
    all_end(&rt, rt.alloc(), Policy::Top, 400..600, &AT_TOP)
}

#[test]
fn scattered_places(rt: HostRuntime) -> Result<(), Fail> {
    all_end(&rt, rt.alloc(), Policy::Scatter(0), 600..800, &SCATTERED)
}

#[test]
fn more_scattered_places(rt: HostRuntime) -> Result<(), Fail> {
    all_end(&rt, rt.alloc(), Policy::Scatter(0), 800..1001, &SCATTERED)
}

fn all_end(
    rt: &impl Abort,
    alloc: Global,
    by: Policy,
    seeds: Range<u64>,
    left: &[Held; 2],
) -> Result<(), Fail> {
    let end = End {
        answer: Ok(()),
        transfers: &reads_to(left[0].0, left[1].0),
        contents: &[],
        left,
        others: true,
    };
    for seed in seeds {
        ends_over(rt, alloc, by, seed, &end)?;
    }
    Ok(())
}

// The load ends so over the events of a seed.
fn ends_over(
    rt: &impl Abort,
    alloc: Global,
    by: Policy,
    seed: u64,
    end: &End<'_>,
) -> Result<(), Fail> {
    let mut world = World::idle();
    let done = ends_over_in(rt, alloc, &mut world, by, seed, end);
    drop(world);
    done
}

// The load in this world.
fn ends_over_in(
    rt: &impl Abort,
    alloc: Global,
    world: &mut World,
    by: Policy,
    seed: u64,
    end: &End<'_>,
) -> Result<(), Fail> {
    begin_small(alloc, world)?;
    begun_ends_over(rt, alloc, world, by, seed, end)
}

/// The load that was begun ends so over the events of a seed, with the places of a policy, and memory below 640 KiB is as others left it.
pub(crate) fn begun_ends_over(
    rt: &impl Abort,
    alloc: Global,
    world: &mut World,
    by: Policy,
    seed: u64,
    end: &End<'_>,
) -> Result<(), Fail>
    requires fresh { IsSomeAnd world.old.load (λ w. IsBegun (opening_of w) w) }
    requires top { IfSome world.old.load (λ w. (memory_of w).top ≡ 0x4000000) }
{
    let mut plan = SeededSchedule::new();
    plan.begin(seed);
    let mut shelf = ShelfAlloc::new();
    let done = ends_placed(rt, alloc, world, &mut shelf, by, &mut plan, end);
    drop(shelf);
    done?;
    let taken = events_taken(&mut plan, seed);
    are_written(rt, alloc, world.memory(), seed, taken)
}
