//! What other processors leave in memory over the events of a seed.

use crate::rig::{count_low, is_working};
use firmware_load::{Event, Schedule, SeededSchedule};
use guest_memory::GuestMemory;
use std::alloc::Global;
use std::process::Abort;
use std::test::Fail;

// How many events a seed has at most.
const MOST_EVENTS: usize = 4096;

// Where memory below the video memory ends. A seed's writes are below 1 MiB; from there on they have no effect, since there is no RAM or it is
// guarded.
const LOW_BYTES: u64 = 0xA_0000;

/// Returns how many events a load took of a seed's, of which the others are left in `plan`. None is left behind.
pub(crate) fn events_taken(plan: &mut SeededSchedule, seed: u64) -> usize {
    let left = count_left(plan);
    plan.begin(seed);
    let all = count_left(plan);
    all - left.min(all)
}

// Takes the events that are left, and counts them.
fn count_left(plan: &mut SeededSchedule) -> usize {
    let mut count: usize = 0;
    for _event in 0..MOST_EVENTS {
        if plan.next().is_some() {
            count = count.saturating_add(1);
        }
    }
    count
}

// A byte that another processor left at an address.
#[derive(Clone, Copy)]
struct Left {
    addr: u64,
    byte: u8,
}

/// Memory below 640 KiB, which was the fill byte, is as others left it over the first events of a seed. The work range, which is guarded, has the
/// fill byte again.
pub(crate) fn are_written(
    rt: &impl Abort,
    alloc: Global,
    memory: &GuestMemory,
    seed: u64,
    taken: usize,
) -> Result<(), Fail> {
    let mut all = Vec::new(alloc);
    take_writes(&mut all, seed, taken)?;
    are_left(rt, memory, &all);
    drop(all);
    Ok(())
}

fn take_writes(all: &mut Vec<Left>, seed: u64, taken: usize) -> Result<(), Fail> {
    let mut plan = SeededSchedule::new();
    plan.begin(seed);
    for _event in 0..taken {
        take_write(all, plan.next())?;
    }
    Ok(())
}

fn take_write(all: &mut Vec<Left>, event: Option<Event>) -> Result<(), Fail> {
    match event {
        Some(Event::Other { addr, byte }) if addr < LOW_BYTES && !is_working(addr) => {
            leave(all, addr, byte)
        }
        _ => Ok(()),
    }
}

// A later byte at an address takes the place of an earlier one.
fn leave(all: &mut Vec<Left>, addr: u64, byte: u8) -> Result<(), Fail> {
    for left in all.iter_mut() {
        if left.addr == addr {
            left.byte = byte;
            return Ok(());
        }
    }
    all.push(Left { addr, byte })?;
    Ok(())
}

// These bytes are there, and no others but the fill byte.
fn are_left(rt: &impl Abort, memory: &GuestMemory, all: &[Left]) {
    let mut count = 0u64;
    for left in all {
        is_left(rt, memory, left);
        count = count.saturating_add(u64::from(left.byte != memory.fill()));
    }
    assert_eq!(rt; count_low(memory), count);
}

fn is_left(rt: &impl Abort, memory: &GuestMemory, left: &Left) {
    assert!(rt; memory.is_ram(left.addr));
    assert_eq!(rt; memory.read(left.addr), left.byte, "at {}", left.addr);
}
