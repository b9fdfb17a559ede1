//! States of a world from one load to the next, and memories below other tops.

ghost use Rattle.std.specs.Prelude.{◌≡◌, IfSome, IsSome, IsSomeAnd};
ghost use Rattle.vt_bytes.specs.Memory.{IsTop};
ghost use Rattle.load_states.specs.Loads.{IsBegun};
ghost use Rattle.load_states.specs.LoadState.{memory_of, opening_of};

use crate::cases::{Case, end_of};
use crate::done::SMALL;
use crate::files::{FILES, items_of};
use crate::rig::{FILL, Held, TOP, are_all, begin, ends_as, ends_placed, is_in, no_events};
use crate::scripts::HIGH;
use crate::scripts::Line::Allocate;
use firmware_load::{LoadFault, State, World};
use guest_memory::GuestMemory;
use loader_script::Cause;
use std::alloc::Global;
use std::process::Abort;
use std::test::Fail;
use zone_alloc::{Policy, ShelfAlloc, ZoneAlloc, zones_of};

// Loads in one world, one after the other.
static LOADS: [Case<'static>; 4] = [
    SMALL,
    SMALL,
    Case {
        script: &[
            Allocate("etc/edge", 1, HIGH),
            Allocate("etc/empty", 1, HIGH),
        ],
        answer: Err(LoadFault::Command {
            index: 1,
            cause: Cause::Empty,
        }),
        left: &[Held(0x300_0000, b"\xff\xff\xff\xfc\0\0\0\xfd")],
    },
    SMALL,
];

#[test]
fn loads_in_one_world(rt: HostRuntime) -> Result<(), Fail> {
    let mut world = World::idle();
    let done = begin_idle(&rt, rt.alloc(), &mut world);
    drop(world);
    done
}

fn begin_idle(rt: &impl Abort, alloc: Global, world: &mut World) -> Result<(), Fail> {
    is_in(rt, world, State::Idle);
    let mut shelf = ShelfAlloc::new();
    let done = are_loaded(rt, alloc, world, &mut shelf);
    drop(shelf);
    done
}

fn are_loaded(
    rt: &impl Abort,
    alloc: Global,
    world: &mut World,
    shelf: &mut ShelfAlloc,
) -> Result<(), Fail> {
    for case in &LOADS {
        is_loaded(rt, alloc, world, shelf, case)?;
    }
    Ok(())
}

// A load is begun, whatever the world was before, and ends as its case says.
fn is_loaded(
    rt: &impl Abort,
    alloc: Global,
    world: &mut World,
    shelf: &mut ShelfAlloc,
    case: &Case<'_>,
) -> Result<(), Fail> {
    let items = items_of(alloc, &FILES, 0, case.script)?;
    begin(alloc, world, items)?;
    is_begun(rt, world);
    let mut plan = no_events(alloc);
    let done = ends_placed(
        rt,
        alloc,
        world,
        shelf,
        Policy::Low,
        &mut plan,
        &end_of(case),
    );
    drop(plan);
    done
}

// A load was begun.
fn is_begun(rt: &impl Abort, world: &World)
    requires { IsSome world.now.load }
{
    is_in(rt, world, State::Running);
    is_filled(rt, world.memory());
}

fn is_filled(rt: &impl Abort, memory: &GuestMemory) {
    assert_eq!(rt; (memory.top(), memory.fill()), (TOP, FILL));
    are_all(rt, memory, &[], &[]);
}

// A top, an align, and the place of a file. The second align has a multiple in high memory only below the third top.
static TOPS: [(u32, u32, u64); 3] = [
    (0x400_0000, 1, 0x300_0000),
    (0xC000_0000, 1, 0xBF00_0000),
    (0x8010_0000, 0x8000_0000, 0x8000_0000),
];

#[test]
fn other_tops(rt: HostRuntime) -> Result<(), Fail> {
    for (top, align, place) in &TOPS {
        is_placed(&rt, rt.alloc(), *top, *align, *place)?;
    }
    Ok(())
}

fn is_placed(rt: &impl Abort, alloc: Global, top: u32, align: u32, place: u64) -> Result<(), Fail> {
    let script = [Allocate("etc/target", align, HIGH)];
    let case = Case {
        script: &script,
        answer: Ok(()),
        left: &[Held(place, b"\xa1\xa2\xa3")],
    };
    let mut world = World::idle();
    let done = loads_below(rt, alloc, top, &mut world, &case);
    drop(world);
    done
}

// Apart from the function that owns the world, since each step that may fail costs more to prove beside it.
fn loads_below(
    rt: &impl Abort,
    alloc: Global,
    top: u32,
    world: &mut World,
    case: &Case<'_>,
) -> Result<(), Fail> {
    assert!(rt; top >= 0x400_0000 && top <= 0xC000_0000 && top % 0x10_0000 == 0);
    let items = items_of(alloc, &FILES, 0, case.script)?;
    world.begin(alloc, items, top, 0)?;
    loads_begun(rt, alloc, top, world, case)
}

fn loads_begun(
    rt: &impl Abort,
    alloc: Global,
    top: u32,
    world: &mut World,
    case: &Case<'_>,
) -> Result<(), Fail>
    requires lawful { IsTop top }
    requires fresh { IsSomeAnd world.old.load (λ w. IsBegun (opening_of w) w) }
    requires top { IfSome world.old.load (λ w. (memory_of w).top ≡ top) }
{
    let mut shelf = ShelfAlloc::new();
    let done = loads_begun_on(rt, alloc, top, world, &mut shelf, case);
    drop(shelf);
    done
}

// Apart from the function that owns the shelf, for the same reason.
fn loads_begun_on(
    rt: &impl Abort,
    alloc: Global,
    top: u32,
    world: &mut World,
    shelf: &mut ShelfAlloc,
    case: &Case<'_>,
) -> Result<(), Fail>
    requires lawful { IsTop top }
    requires fresh { IsSomeAnd world.old.load (λ w. IsBegun (opening_of w) w) }
    requires top { IfSome world.old.load (λ w. (memory_of w).top ≡ top) }
{
    shelf.begin(alloc, zones_of(top), Policy::Low)?;
    let mut plan = no_events(alloc);
    ends_as(rt, world, shelf, &mut plan, &end_of(case));
    drop(plan);
    Ok(())
}
