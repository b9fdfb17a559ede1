//! Loads over plans in which the guest is reset: each ends as one that was just begun, whatever came before.

ghost use Rattle.std.specs.Prelude.{◌≡◌, true, [], ◌∷◌, IfSome, IsSome, IsSomeAnd, OnOk};
ghost use Rattle.command_acts.specs.Allocators.{AreZonesOf, MayAnswer};
ghost use Rattle.command_acts.specs.FilesInMemory.{placed_ranges};
ghost use Rattle.load_states.specs.Kept.{IsKept};
ghost use Rattle.load_states.specs.Loads.{IsBegun};
ghost use Rattle.load_states.specs.LoadState.{begun_with, memory_of};

use crate::ends::{TOO_FAR, items_refused};
use crate::plans::{
    ANCHOR, GUARDED, TABLES, UNWRITTEN, WRITTEN, put_rounds, reads_to, small_items,
};
use crate::rig::{
    End, FILL, Held, TOP, begin, begin_filled, begin_zones, ends_placed, failing_places, is_in,
};
use crate::seeds::{AT_TOP, SCATTERED};
use crate::steps::{TURN, take_turns};
use cfg_directory::Items;
use firmware_load::{Event, ListSchedule, LoadFault, Schedule, State, World};
use loader_script::Cause;
use std::alloc::Global;
use std::process::Abort;
use std::test::Fail;
use vt_outside::{List, OutOfMemory};
use zone_alloc::{Policy, ShelfAlloc, ZoneAlloc};

// A plan: how many rounds come before each reset, how many bytes a piece has, and where is written behind each event of a round. And what the
// small load leaves over it.
#[derive(Clone, Copy)]
struct Plan {
    rounds: &'static [u16],
    bytes: u32,
    addresses: &'static [u64],
    left: &'static [Held<'static>],
}

// The places that others write hold what they wrote last, in round 4 behind the first reset.
const WRITTEN_LAST: [Held<'static>; 7] = [
    ANCHOR,
    TABLES,
    Held(0x1_2345, &[4]),
    Held(0x6FFF, &[4]),
    Held(0x7010, &[4]),
    Held(0x9000, &[4]),
    Held(0x2FF_FFFF, &[4]),
];

static PLANS: [Plan; 7] = [
    Plan {
        rounds: &[0],
        bytes: 1,
        addresses: &[],
        left: &[ANCHOR, TABLES],
    },
    Plan {
        rounds: &[0, 0, 7, 0, 0],
        bytes: u32::MAX,
        addresses: &[],
        left: &[ANCHOR, TABLES],
    },
    Plan {
        rounds: &[13, 12, 11, 10, 9],
        bytes: u32::MAX,
        addresses: &[],
        left: &[ANCHOR, TABLES],
    },
    Plan {
        rounds: &[922, 3, 914, 261],
        bytes: 1,
        addresses: &[],
        left: &[ANCHOR, TABLES],
    },
    Plan {
        rounds: &[13, 4],
        bytes: u32::MAX,
        addresses: &GUARDED,
        left: &UNWRITTEN,
    },
    Plan {
        rounds: &[13, 4],
        bytes: u32::MAX,
        addresses: &WRITTEN,
        left: &WRITTEN_LAST,
    },
    Plan {
        rounds: &[0, 4],
        bytes: 100,
        addresses: &WRITTEN,
        left: &WRITTEN_LAST,
    },
];

#[test]
fn plans_with_resets(rt: HostRuntime) -> Result<(), Fail> {
    for plan in &PLANS {
        ends_over(&rt, rt.alloc(), Policy::Low, FILL, plan)?;
    }
    Ok(())
}

// Policies, with fill bytes, and what the small load leaves by each.
static POLICIES: [(Policy, u8, &[Held<'static>]); 5] = [
    (Policy::Low, 0x00, &[ANCHOR, TABLES]),
    (Policy::Low, 0xFF, &[ANCHOR, TABLES]),
    (Policy::Top, 0x00, &AT_TOP),
    (Policy::Scatter(0), 0xFF, &SCATTERED),
    (Policy::Scatter(0), 0x00, &SCATTERED),
];

#[test]
fn policies_and_fill_bytes(rt: HostRuntime) -> Result<(), Fail> {
    for (by, fill, left) in &POLICIES {
        let plan = Plan {
            rounds: &[13, 9, 7],
            bytes: u32::MAX,
            addresses: &[],
            left,
        };
        ends_over(&rt, rt.alloc(), *by, *fill, &plan)?;
    }
    Ok(())
}

// The small load over the plan ends as one over no events.
fn ends_over(
    rt: &impl Abort,
    alloc: Global,
    by: Policy,
    fill: u8,
    plan: &Plan,
) -> Result<(), Fail> {
    let mut schedule = schedule_of(alloc, plan)?;
    let mut world = World::idle();
    let done = ends_in(rt, alloc, &mut world, by, fill, &mut schedule, plan.left);
    drop(world);
    drop(schedule);
    done
}

fn schedule_of(alloc: Global, plan: &Plan) -> Result<ListSchedule, OutOfMemory> {
    let mut events = List::new(alloc);
    for rounds in plan.rounds {
        put_rounds(&mut events, *rounds, plan.bytes, plan.addresses)?;
        events.push(Event::Reset)?;
    }
    let mut schedule = ListSchedule::new(events);
    schedule.begin(0);
    Ok(schedule)
}

fn ends_in(
    rt: &impl Abort,
    alloc: Global,
    world: &mut World,
    by: Policy,
    fill: u8,
    schedule: &mut ListSchedule,
    left: &[Held],
) -> Result<(), Fail> {
    let items = small_items(alloc)?;
    begin_filled(alloc, world, items, fill)?;
    let [anchor, tables, ..] = left else {
        panic!(rt; "the small load leaves two files")
    };
    let end = End {
        answer: Ok(()),
        transfers: &reads_to(anchor.0, tables.0),
        contents: &[],
        left,
        others: false,
    };
    let mut shelf = ShelfAlloc::new();
    let done = ends_placed(rt, alloc, world, &mut shelf, by, schedule, &end);
    drop(shelf);
    done
}

// The second file's place is refused, and nothing is behind the reset.
#[test]
fn refused_by_the_allocator(rt: HostRuntime) -> Result<(), Fail> {
    let mut failing = failing_places(rt.alloc(), &[1])?;
    let items = small_items(rt.alloc())?;
    let without_room = State::Refused(LoadFault::NoRoom { index: 1 });
    let done = ends_both_times(
        &rt,
        rt.alloc(),
        items,
        &mut failing,
        without_room,
        State::Done,
    );
    drop(failing);
    done
}

// A command is refused, and again behind the reset.
#[test]
fn refused_for_its_cause(rt: HostRuntime) -> Result<(), Fail> {
    let mut failing = failing_places(rt.alloc(), &[])?;
    let items = items_refused(rt.alloc(), TOO_FAR)?;
    let too_far = State::Refused(LoadFault::Command {
        index: 2,
        cause: Cause::TooFar,
    });
    let done = ends_both_times(&rt, rt.alloc(), items, &mut failing, too_far, too_far);
    drop(failing);
    done
}

fn ends_both_times<A: ZoneAlloc>(
    rt: &impl Abort,
    alloc: Global,
    items: Items,
    place: &mut A,
    first: State,
    second: State,
) -> Result<(), Fail> {
    let mut world = World::idle();
    let done = ends_in_both(rt, alloc, &mut world, items, place, first, second);
    drop(world);
    done
}

fn ends_in_both<A: ZoneAlloc>(
    rt: &impl Abort,
    alloc: Global,
    world: &mut World,
    items: Items,
    place: &mut A,
    first: State,
    second: State,
) -> Result<(), Fail> {
    begin(alloc, world, items)?;
    begin_zones(alloc, place, Policy::Low)?;
    comes_to(rt, world, place, TURN, first);
    comes_to(rt, world, place, &[Event::Reset], State::Running);
    comes_to(rt, world, place, TURN, second);
    Ok(())
}

// The events come more often in turn than a load takes turns, and the world is then in a state.
fn comes_to<A: ZoneAlloc>(
    rt: &impl Abort,
    world: &mut World,
    place: &mut A,
    events: &[Event],
    state: State,
)
    requires some { IsSome world.old.load }
    requires begun { (A.state place.old).begun.ready ≡ true }
    requires zones { AreZonesOf 0x4000000 (A.state place.old).begun.zones }
    requires handed { IfSome world.old.load (λ w. (A.state place.old).handed ≡ placed_ranges w.placed) }
    ensures some { IsSome world.new.load }
    ensures begun { (A.state place.new).begun.ready ≡ true }
    ensures zones { AreZonesOf 0x4000000 (A.state place.new).begun.zones }
    ensures handed { IfSome world.new.load (λ w. (A.state place.new).handed ≡ placed_ranges w.placed) }
{
    take_turns(rt, world, place, 20, events);
    is_in(rt, world, state);
}

// Two events behind the beginning of a load.
static FIRST_EVENTS: [(Event, Event); 4] = [
    (Event::Firmware, Event::Device(4)),
    (Event::Reset, Event::Firmware),
    (Event::Firmware, Event::Reset),
    (
        Event::Other {
            addr: 0x1000,
            byte: 7,
        },
        Event::Reset,
    ),
];

#[test]
fn what_is_kept_from_the_beginning(rt: HostRuntime) -> Result<(), Fail> {
    let mut shelf = ShelfAlloc::new();
    let done = are_kept(&rt, rt.alloc(), &mut shelf);
    drop(shelf);
    done
}

fn are_kept<A: ZoneAlloc>(rt: &impl Abort, alloc: Global, place: &mut A) -> Result<(), Fail> {
    for (first, second) in &FIRST_EVENTS {
        is_kept_in(rt, alloc, place, *first, *second)?;
    }
    Ok(())
}

fn is_kept_in<A: ZoneAlloc>(
    rt: &impl Abort,
    alloc: Global,
    place: &mut A,
    first: Event,
    second: Event,
) -> Result<(), Fail> {
    let items = small_items(alloc)?;
    begin_zones(alloc, place, Policy::Low)?;
    let mut world = World::idle();
    let done = keeps_over_two(rt, alloc, &mut world, place, items, first, second);
    is_in(rt, &world, State::Running);
    drop(world);
    Ok(done?)
}

// What a world keeps from its beginning on is known behind any two events.
fn keeps_over_two<A: ZoneAlloc>(
    rt: &impl Abort,
    alloc: Global,
    world: &mut World,
    place: &mut A,
    items: Items,
    first: Event,
    second: Event,
) -> Result<(), OutOfMemory>
    requires begun { (A.state place.old).begun.ready ≡ true }
    requires zones { AreZonesOf 0x4000000 (A.state place.old).begun.zones }
    requires handed { (A.state place.old).handed ≡ [] }
    ensures { OnOk result (IsSomeAnd world.new.load (IsKept (MayAnswer A.state A.gives (A.state place.new).begun)
        (begun_with items 0x4000000 0xA5) (first ∷ second ∷ []))) }
{
    world.begin(alloc, items, TOP, FILL)?;
    world.step(place, first);
    assert_eq!(rt; world.memory().top(), TOP);
    world.step(place, second);
    Ok(())
}
