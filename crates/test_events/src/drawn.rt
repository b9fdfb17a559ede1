//! The events that seeds draw.
//!
//! They, and how many there are of each kind, were worked out by a program in Python from the definitions of PCG's XSH RR 64/32 and of
//! `seed_from_u64` of Rust's crate `rand_pcg`. Its words for seed 0 begin with 11cdd903 and fc843fd7, which are the halves of the number
//! 18195738587432868099 that the tests of that crate have for seed 0.

use crate::giving::{are_given, none_is_left};
use firmware_load::Event::{Device, Firmware, Other, Reset};
use firmware_load::{Event, Schedule, SeededSchedule};
use std::process::Abort;
use std::test::Fail;

// The words of seed 1 begin with 33a70be6, 7dbcf3ee, cadf4751, 11ac71c0, and f8ffee3b with 291f2ee8 and ddacaf38 behind it.
static OF_ONE: [Event; 10] = [
    Device(762),
    Device(3324),
    Device(469),
    Firmware,
    Other {
        addr: 0xF_2EE8,
        byte: 0x38,
    },
    Firmware,
    Firmware,
    Firmware,
    Other {
        addr: 0x6_AAD4,
        byte: 0x57,
    },
    Device(2393),
];

static OF_GREATEST: [Event; 12] = [
    Device(1632),
    Device(2466),
    Firmware,
    Device(2064),
    Device(2355),
    Firmware,
    Device(2768),
    Device(3516),
    Device(2319),
    Firmware,
    Other {
        addr: 0x4AE1,
        byte: 0x34,
    },
    Device(1373),
];

// A seed whose low 32 bits are those of seed 0.
static OF_HIGH: [Event; 4] = [
    Device(1992),
    Firmware,
    Device(3538),
    Other {
        addr: 0x437,
        byte: 0x1D,
    },
];

#[test]
fn first_events(rt: HostRuntime) -> Result<(), Fail> {
    let mut schedule = SeededSchedule::new();
    none_is_left(&rt, &mut schedule);
    schedule.begin(1);
    are_given(&rt, &mut schedule, &OF_ONE);
    schedule.begin(0xFFFF_FFFF_FFFF_FFFF);
    are_given(&rt, &mut schedule, &OF_GREATEST);
    schedule.begin(0x1_0000_0000);
    are_given(&rt, &mut schedule, &OF_HIGH);
    schedule.begin(1);
    are_given(&rt, &mut schedule, &OF_ONE);
    Ok(())
}

#[test]
fn seed_zero_has_none(rt: HostRuntime) -> Result<(), Fail> {
    let mut schedule = SeededSchedule::new();
    schedule.begin(0);
    none_is_left(&rt, &mut schedule);
    schedule.begin(1);
    are_given(&rt, &mut schedule, &OF_ONE);
    schedule.begin(0);
    none_is_left(&rt, &mut schedule);
    Ok(())
}

// Seeds, and which of their events are resets.
static RESETS: [(u64, &[usize]); 6] = [
    (1, &[]),
    (0x7FFF_FFFF_FFFF_FFFE, &[]),
    (0x7FFF_FFFF_FFFF_FFFF, &[]),
    (0x8000_0000_0000_0000, &[16, 48]),
    (0x8000_0000_0000_0001, &[16, 48]),
    (0xFFFF_FFFF_FFFF_FFFF, &[16, 48]),
];

#[test]
fn resets_of_seeds(rt: HostRuntime) -> Result<(), Fail> {
    for (seed, places) in &RESETS {
        resets_at(&rt, *seed, places);
    }
    Ok(())
}

// Of all events of a seed, those at these places are resets, and no others.
fn resets_at(rt: &impl Abort, seed: u64, places: &[usize]) {
    let mut schedule = SeededSchedule::new();
    schedule.begin(seed);
    for place in 0..4096 {
        is_reset_or_not(rt, schedule.next(), places.contains(&place), place);
    }
    none_is_left(rt, &mut schedule);
}

fn is_reset_or_not(rt: &impl Abort, event: Option<Event>, is_reset: bool, place: usize) {
    assert_eq!(rt; event == Some(Reset), is_reset, "event {place}");
}

// Events 14 to 18 of the least seed with resets.
static ABOUT_FIRST_RESET: [Event; 5] = [Device(2716), Device(1140), Reset, Device(110), Firmware];

// Its events 46 to 50. Event 48 is drawn as a write, from three words.
static ABOUT_SECOND_RESET: [Event; 5] = [
    Other {
        addr: 0xD7BD,
        byte: 0x35,
    },
    Other {
        addr: 0xB_E43D,
        byte: 0x56,
    },
    Reset,
    Device(2860),
    Device(3116),
];

#[test]
fn events_about_resets(rt: HostRuntime) -> Result<(), Fail> {
    are_given_from(&rt, 0x8000_0000_0000_0000, 14, &ABOUT_FIRST_RESET);
    are_given_from(&rt, 0x8000_0000_0000_0000, 46, &ABOUT_SECOND_RESET);
    Ok(())
}

// The events of a seed from this place on begin with these.
fn are_given_from(rt: &impl Abort, seed: u64, place: usize, events: &[Event]) {
    let mut schedule = SeededSchedule::new();
    schedule.begin(seed);
    for _ in 0..place {
        assert!(rt; schedule.next().is_some());
    }
    are_given(rt, &mut schedule, events);
}

// How many events there are of each kind, how many bytes the pieces have in all, and the sums of the addresses and of the bytes of
// the writes.
#[derive(Clone, Copy, Debug, PartialEq, Eq)]
struct Tally {
    steps: u64,
    pieces: u64,
    piece_bytes: u64,
    resets: u32,
    writes: u64,
    addresses: u64,
    bytes: u64,
}

// What seeds have in all: 1, the greatest seed with no resets, the least two with resets, and the greatest.
//
// Without its resets, the first of those with resets would have a piece of 276 bytes and a write of 0x5E at 0xA8291 too, the second a piece
// of 1,662 bytes and a write of 0x2D at 0xEDDF9, and the greatest pieces of 3,768 and 3,904 bytes.
static IN_ALL: [(u64, Tally); 5] = [
    (
        1,
        Tally {
            steps: 1019,
            pieces: 2062,
            piece_bytes: 4_285_442,
            resets: 0,
            writes: 1015,
            addresses: 540_685_738,
            bytes: 132_182,
        },
    ),
    (
        0x7FFF_FFFF_FFFF_FFFF,
        Tally {
            steps: 1033,
            pieces: 2028,
            piece_bytes: 4_184_306,
            resets: 0,
            writes: 1035,
            addresses: 552_017_858,
            bytes: 132_817,
        },
    ),
    (
        0x8000_0000_0000_0000,
        Tally {
            steps: 1016,
            pieces: 2030,
            piece_bytes: 4_197_002,
            resets: 2,
            writes: 1048,
            addresses: 541_592_085,
            bytes: 134_835,
        },
    ),
    (
        0x8000_0000_0000_0001,
        Tally {
            steps: 1017,
            pieces: 2020,
            piece_bytes: 4_153_672,
            resets: 2,
            writes: 1057,
            addresses: 555_526_251,
            bytes: 137_469,
        },
    ),
    (
        0xFFFF_FFFF_FFFF_FFFF,
        Tally {
            steps: 1048,
            pieces: 2041,
            piece_bytes: 4_158_119,
            resets: 2,
            writes: 1005,
            addresses: 519_717_133,
            bytes: 131_215,
        },
    ),
];

#[test]
fn all_events(rt: HostRuntime) -> Result<(), Fail> {
    for (seed, all) in &IN_ALL {
        has_in_all(&rt, *seed, all);
    }
    Ok(())
}

// A seed has 4,096 events, which are these in all.
fn has_in_all(rt: &impl Abort, seed: u64, all: &Tally) {
    let mut schedule = SeededSchedule::new();
    schedule.begin(seed);
    assert_eq!(rt; tally_of(&mut schedule, 4096), *all);
    none_is_left(rt, &mut schedule);
}

// The next `count` events, or as many as are left, in all.
fn tally_of(schedule: &mut SeededSchedule, count: u32) -> Tally {
    let mut tally = Tally {
        steps: 0,
        pieces: 0,
        piece_bytes: 0,
        writes: 0,
        addresses: 0,
        bytes: 0,
        resets: 0,
    };
    for _ in 0..count {
        if let Some(event) = schedule.next() {
            tally = with_event(tally, event);
        }
    }
    tally
}

fn with_event(tally: Tally, event: Event) -> Tally {
    match event {
        Firmware => Tally {
            steps: tally.steps.saturating_add(1),
            ..tally
        },
        Device(bytes) => Tally {
            pieces: tally.pieces.saturating_add(1),
            piece_bytes: tally.piece_bytes.saturating_add(u64::from(bytes)),
            ..tally
        },
        Other { addr, byte } => Tally {
            writes: tally.writes.saturating_add(1),
            addresses: tally.addresses.saturating_add(addr),
            bytes: tally.bytes.saturating_add(u64::from(byte)),
            ..tally
        },
        Reset => Tally {
            resets: tally.resets.saturating_add(1),
            ..tally
        },
    }
}
