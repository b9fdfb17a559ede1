//! A schedule that has a list of events for every seed.

use crate::giving::{are_given, none_is_left};
use firmware_load::Event::{Device, Firmware, Other, Reset};
use firmware_load::{Event, ListSchedule, Schedule};
use std::alloc::Global;
use std::process::Abort;
use std::test::Fail;
use vt_outside::{List, OutOfMemory};

static EVENTS: [Event; 5] = [
    Firmware,
    Device(0),
    Device(0xFFFF_FFFF),
    Other {
        addr: 0xFFFF_FFFF_FFFF_FFFF,
        byte: 0xFF,
    },
    Firmware,
];

#[test]
fn a_list(rt: HostRuntime) -> Result<(), Fail> {
    let mut schedule = listed(rt.alloc(), &EVENTS)?;
    none_is_left(&rt, &mut schedule);
    are_given_by_each_seed(&rt, &mut schedule, &EVENTS);
    drop(schedule);
    Ok(())
}

// Resets at the first place, at the last, one behind the other, and between others.
static RESETS: [Event; 7] = [
    Reset,
    Firmware,
    Reset,
    Reset,
    Other { addr: 0, byte: 0 },
    Device(1),
    Reset,
];

#[test]
fn a_list_with_resets(rt: HostRuntime) -> Result<(), Fail> {
    let mut schedule = listed(rt.alloc(), &RESETS)?;
    are_given_by_each_seed(&rt, &mut schedule, &RESETS);
    drop(schedule);
    Ok(())
}

// Seeds with resets of their own, and others: a list has the same events for each.
const SEEDS: [u64; 4] = [0, 1, 0x8000_0000_0000_0000, 0xFFFF_FFFF_FFFF_FFFF];

fn are_given_by_each_seed(rt: &impl Abort, schedule: &mut ListSchedule, events: &[Event]) {
    for seed in &SEEDS {
        schedule.begin(*seed);
        are_given(rt, schedule, events);
        none_is_left(rt, schedule);
    }
}

// A begin among the events has all of them left again.
#[test]
fn a_list_that_is_begun_again(rt: HostRuntime) -> Result<(), Fail> {
    let mut schedule = listed(rt.alloc(), &EVENTS)?;
    schedule.begin(7);
    are_given(&rt, &mut schedule, &EVENTS[..2]);
    schedule.begin(7);
    are_given(&rt, &mut schedule, &EVENTS);
    none_is_left(&rt, &mut schedule);
    Ok(())
}

#[test]
fn a_list_of_none(rt: HostRuntime) -> Result<(), Fail> {
    let mut schedule = listed(rt.alloc(), &[])?;
    none_is_left(&rt, &mut schedule);
    schedule.begin(1);
    none_is_left(&rt, &mut schedule);
    Ok(())
}

fn listed(alloc: Global, events: &[Event]) -> Result<ListSchedule, OutOfMemory> {
    let mut list = List::new(alloc);
    list.extend(events)?;
    Ok(ListSchedule::new(list))
}
