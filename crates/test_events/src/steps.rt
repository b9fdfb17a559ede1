//! Single steps of a world.

ghost use Rattle.std.specs.Prelude.{◌≡◌, true, IfSome, IsSome, IsSomeAnd};
ghost use Rattle.command_acts.specs.Allocators.{AreZonesOf};
ghost use Rattle.command_acts.specs.FilesInMemory.{placed_ranges};
ghost use Rattle.load_states.specs.Loads.{IsBegun};
ghost use Rattle.load_states.specs.LoadState.{memory_of, opening_of};

use crate::plans::{ANCHOR, READS, TABLES, small_items};
use crate::rig::{
    Content, Held, TOP, Transfer, are_all, begin, begin_zones, contain, has_moved, is_in,
};
use cfg_directory::Items;
use cfg_dma::Device as CfgDevice;
use firmware_load::Event::{Device, Firmware, Other, Reset};
use firmware_load::{Event, State, World};
use std::alloc::Global;
use std::process::Abort;
use std::test::Fail;
use zone_alloc::{Policy, ShelfAlloc, ZoneAlloc};

/// What is seen of a world: its state, whether a transfer is in flight, how many of the load are over, what memory holds, and what files of the
/// device hold. Each byte of RAM that neither `held` nor `buffer` lists is the fill byte.
#[derive(Clone, Copy)]
pub(crate) struct Seen {
    pub(crate) state: State,
    pub(crate) busy: bool,
    pub(crate) count: usize,
    pub(crate) held: &'static [Held<'static>],
    pub(crate) buffer: &'static [Held<'static>],
    pub(crate) contents: &'static [Content<'static>],
}

// Before its first step, and after a piece with nothing in flight.
const BEGUN: Seen = Seen {
    state: State::Running,
    busy: false,
    count: 0,
    held: &[],
    buffer: &[],
    contents: &[],
};

// The descriptor of a read of 4 bytes of the directory into the buffer.
const ASKED: Seen = Seen {
    busy: true,
    held: &[Held(0x7000, b"\0\x19\0\x0a\0\0\0\x04\0\0\0\0\0\0\x80\0")],
    ..BEGUN
};

// Three of its bytes are there.
const PARTLY: Seen = Seen {
    buffer: &[Held(0x8000, b"\0\0\0")],
    ..ASKED
};

// The transfer is over: its control word is 0, and the number of files is in the buffer.
const OVER: Seen = Seen {
    count: 1,
    held: &[Held(0x7000, b"\0\0\0\0\0\0\0\x04\0\0\0\0\0\0\x80\0")],
    buffer: &[Held(0x8000, b"\0\0\0\x04")],
    ..BEGUN
};

const DONE: Seen = Seen {
    state: State::Done,
    count: 5,
    held: &[ANCHOR, TABLES],
    ..BEGUN
};

/// Events, how often they come in turn, and what is seen then.
pub(crate) struct Turns(pub(crate) u8, pub(crate) &'static [Event], pub(crate) Seen);

/// Events that come so often in turn.
pub(crate) type Unseen = (u8, &'static [Event]);

/// How a load goes on: events first behind which nothing is looked at, and then what is seen; and all of its transfers.
#[derive(Clone, Copy)]
pub(crate) struct Walk<'a> {
    pub(crate) before: &'a [Unseen],
    pub(crate) transfers: &'a [Transfer],
    pub(crate) turns: &'a [Turns],
}

/// A piece as long as any transfer.
pub(crate) const WHOLE: Event = Device(u32::MAX);

// The firmware waits until the transfer is over. It then takes a step for the number of files, two each for the entries, the script and
// both files, and one for each command behind these and for the end.
static TURNS: [Turns; 7] = [
    Turns(0, &[], BEGUN),
    Turns(1, &[Device(7)], BEGUN),
    Turns(3, &[Firmware], ASKED),
    Turns(3, &[Device(0), Device(1), Firmware], PARTLY),
    Turns(1, &[Device(1)], OVER),
    Turns(13, &[Firmware, WHOLE], DONE),
    Turns(
        2,
        &[
            Firmware,
            Device(5),
            Other {
                addr: 0x8000,
                byte: 1,
            },
        ],
        DONE,
    ),
];

#[test]
fn steps(rt: HostRuntime) -> Result<(), Fail> {
    let items = small_items(rt.alloc())?;
    let walk = Walk {
        before: &[],
        transfers: &READS,
        turns: &TURNS,
    };
    walks(&rt, rt.alloc(), items, &walk)
}

/// A step of the firmware and a piece as long as any transfer.
pub(crate) const TURN: &[Event] = &[Firmware, WHOLE];

// The small load takes 14 turns: one for each command behind the two that place files, one for the end, and two for each transfer.
static WHOLE_LOAD: [Turns; 1] = [Turns(14, TURN, DONE)];

const RESET: &[Event] = &[Reset];

// Wherever its guest is reset, also where it is done, the load then goes as one that was just begun.
#[test]
fn reset_behind_each_turn(rt: HostRuntime) -> Result<(), Fail> {
    for count in 0..=16 {
        goes_again(&rt, rt.alloc(), &[(count, TURN), (1, RESET)])?;
    }
    Ok(())
}

// So it is within each transfer. Their bytes are 4, 256, 640, 9 and 5, and each ends with a step that sees it over.
static WITHIN: [[Unseen; 4]; 5] = [
    [
        (0, TURN),
        (1, &[Firmware]),
        (3, &[Device(1)]),
        (1, &[Reset]),
    ],
    [
        (2, TURN),
        (1, &[Firmware]),
        (255, &[Device(1), Firmware]),
        (2, &[Reset]),
    ],
    [
        (4, TURN),
        (1, &[Firmware]),
        (250, &[Device(2)]),
        (1, &[Reset]),
    ],
    [
        (6, TURN),
        (1, &[Firmware]),
        (8, &[Firmware, Device(1)]),
        (1, &[Reset, WHOLE]),
    ],
    [
        (8, TURN),
        (1, &[Firmware]),
        (4, &[Device(1)]),
        (3, &[Reset, WHOLE]),
    ],
];

#[test]
fn reset_within_each_transfer(rt: HostRuntime) -> Result<(), Fail> {
    for before in &WITHIN {
        goes_again(&rt, rt.alloc(), before)?;
    }
    Ok(())
}

fn goes_again(rt: &impl Abort, alloc: Global, before: &[Unseen]) -> Result<(), Fail> {
    let items = small_items(alloc)?;
    let walk = Walk {
        before,
        transfers: &READS,
        turns: &WHOLE_LOAD,
    };
    walks(rt, alloc, items, &walk)
}

// A reset leaves the descriptor and the buffer as they are. The transfer that was in flight moves nothing more.
const BROKEN_OFF: Seen = Seen {
    busy: false,
    ..PARTLY
};

// Of a load that is done it leaves what stands in high memory, and nothing in the F segment.
const GIVEN_BACK: Seen = Seen {
    held: &[TABLES],
    ..BEGUN
};

static RESETS: [Turns; 8] = [
    Turns(1, &[Reset], BEGUN),
    Turns(1, &[Firmware, Device(3)], PARTLY),
    Turns(1, &[Reset], BROKEN_OFF),
    Turns(2, &[WHOLE, Reset], BROKEN_OFF),
    Turns(14, TURN, DONE),
    Turns(1, &[Reset], GIVEN_BACK),
    Turns(2, &[Reset, WHOLE], GIVEN_BACK),
    Turns(14, TURN, DONE),
];

#[test]
fn what_a_reset_leaves(rt: HostRuntime) -> Result<(), Fail> {
    let items = small_items(rt.alloc())?;
    let walk = Walk {
        before: &[],
        transfers: &READS,
        turns: &RESETS,
    };
    walks(&rt, rt.alloc(), items, &walk)
}

/// The load of `items` goes on so, with the least places.
pub(crate) fn walks(
    rt: &impl Abort,
    alloc: Global,
    items: Items,
    walk: &Walk<'_>,
) -> Result<(), Fail> {
    let mut world = World::idle();
    let done = begins_and_goes_on(rt, alloc, &mut world, items, walk);
    drop(world);
    done
}

fn begins_and_goes_on(
    rt: &impl Abort,
    alloc: Global,
    world: &mut World,
    items: Items,
    walk: &Walk<'_>,
) -> Result<(), Fail> {
    is_in(rt, world, State::Idle);
    begin(alloc, world, items)?;
    goes_on(rt, alloc, world, walk)
}

// The world that was begun goes on as it should, with the least places.
fn goes_on(rt: &impl Abort, alloc: Global, world: &mut World, walk: &Walk<'_>) -> Result<(), Fail>
    requires fresh { IsSomeAnd world.old.load (λ w. IsBegun (opening_of w) w) }
    requires top { IfSome world.old.load (λ w. (memory_of w).top ≡ 0x4000000) }
{
    let mut shelf = ShelfAlloc::new();
    let done = goes_on_with(rt, alloc, world, &mut shelf, walk);
    drop(shelf);
    done
}

fn goes_on_with<A: ZoneAlloc>(
    rt: &impl Abort,
    alloc: Global,
    world: &mut World,
    place: &mut A,
    walk: &Walk<'_>,
) -> Result<(), Fail>
    requires fresh { IsSomeAnd world.old.load (λ w. IsBegun (opening_of w) w) }
    requires top { IfSome world.old.load (λ w. (memory_of w).top ≡ 0x4000000) }
{
    begin_zones(alloc, place, Policy::Low)?;
    goes(rt, world, place, walk);
    Ok(())
}

// The world goes on as it should.
fn goes<A: ZoneAlloc>(rt: &impl Abort, world: &mut World, place: &mut A, walk: &Walk<'_>)
    requires some { IsSome world.old.load }
    requires begun { (A.state place.old).begun.ready ≡ true }
    requires zones { AreZonesOf 0x4000000 (A.state place.old).begun.zones }
    requires handed { IfSome world.old.load (λ w. (A.state place.old).handed ≡ placed_ranges w.placed) }
{
    come_behind(rt, world, place, walk.before);
    for Turns(count, events, seen) in walk.turns {
        take_turns(rt, world, place, *count, events);
        is_seen(rt, world, walk.transfers, seen);
    }
}

// The world takes the steps of events behind which nothing is looked at.
fn come_behind<A: ZoneAlloc>(rt: &impl Abort, world: &mut World, place: &mut A, before: &[Unseen])
    requires some { IsSome world.old.load }
    requires begun { (A.state place.old).begun.ready ≡ true }
    requires zones { AreZonesOf 0x4000000 (A.state place.old).begun.zones }
    requires handed { IfSome world.old.load (λ w. (A.state place.old).handed ≡ placed_ranges w.placed) }
    ensures some { IsSome world.new.load }
    ensures begun { (A.state place.new).begun.ready ≡ true }
    ensures zones { AreZonesOf 0x4000000 (A.state place.new).begun.zones }
    ensures handed { IfSome world.new.load (λ w. (A.state place.new).handed ≡ placed_ranges w.placed) }
{
    for (count, events) in before {
        take_turns(rt, world, place, *count, events);
    }
}

/// The world takes the steps of events, so often in turn.
pub(crate) fn take_turns<A: ZoneAlloc>(
    rt: &impl Abort,
    world: &mut World,
    place: &mut A,
    count: u8,
    events: &[Event],
)
    requires some { IsSome world.old.load }
    requires begun { (A.state place.old).begun.ready ≡ true }
    requires zones { AreZonesOf 0x4000000 (A.state place.old).begun.zones }
    requires handed { IfSome world.old.load (λ w. (A.state place.old).handed ≡ placed_ranges w.placed) }
    ensures some { IsSome world.new.load }
    ensures begun { (A.state place.new).begun.ready ≡ true }
    ensures zones { AreZonesOf 0x4000000 (A.state place.new).begun.zones }
    ensures handed { IfSome world.new.load (λ w. (A.state place.new).handed ≡ placed_ranges w.placed) }
{
    for _ in 0..count {
        take_all(rt, world, place, events);
    }
}

fn take_all<A: ZoneAlloc>(rt: &impl Abort, world: &mut World, place: &mut A, events: &[Event])
    requires some { IsSome world.old.load }
    requires begun { (A.state place.old).begun.ready ≡ true }
    requires zones { AreZonesOf 0x4000000 (A.state place.old).begun.zones }
    requires handed { IfSome world.old.load (λ w. (A.state place.old).handed ≡ placed_ranges w.placed) }
    ensures some { IsSome world.new.load }
    ensures begun { (A.state place.new).begun.ready ≡ true }
    ensures zones { AreZonesOf 0x4000000 (A.state place.new).begun.zones }
    ensures handed { IfSome world.new.load (λ w. (A.state place.new).handed ≡ placed_ranges w.placed) }
{
    for event in events {
        take(rt, world, place, *event);
    }
}

// The world takes the step of an event.
fn take<A: ZoneAlloc>(rt: &impl Abort, world: &mut World, place: &mut A, event: Event)
    requires some { IsSome world.old.load }
    requires begun { (A.state place.old).begun.ready ≡ true }
    requires zones { AreZonesOf 0x4000000 (A.state place.old).begun.zones }
    requires handed { IfSome world.old.load (λ w. (A.state place.old).handed ≡ placed_ranges w.placed) }
    ensures some { IsSome world.new.load }
    ensures begun { (A.state place.new).begun.ready ≡ true }
    ensures zones { AreZonesOf 0x4000000 (A.state place.new).begun.zones }
    ensures handed { IfSome world.new.load (λ w. (A.state place.new).handed ≡ placed_ranges w.placed) }
{
    assert_eq!(rt; world.memory().top(), TOP);
    world.step(place, event);
}

// This is seen of the world; the transfers are all of its load's.
fn is_seen(rt: &impl Abort, world: &World, transfers: &[Transfer], seen: &Seen)
    requires { IsSome world.now.load }
{
    is_in(rt, world, seen.state);
    are_all(rt, world.memory(), seen.held, seen.buffer);
    has_come_to(rt, world.device(), seen.busy, first(transfers, seen.count));
    contain(rt, world.device(), seen.contents);
}

fn has_come_to(rt: &impl Abort, device: &CfgDevice, busy: bool, transfers: &[Transfer]) {
    assert_eq!(rt; device.busy(), busy);
    has_moved(rt, device, transfers);
}

// The first so many.
fn first(transfers: &[Transfer], count: usize) -> &[Transfer] {
    &transfers[..count.min(transfers.len())]
}
