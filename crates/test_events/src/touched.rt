//! Which frames a load over the events of seeds touches, with each policy of an allocator: those of the work range, those of the files where
//! they are placed, and those in which another processor wrote a byte. No others.

ghost use Rattle.std.specs.Prelude.{◌≡◌, IfSome, IsSome, IsSomeAnd};
ghost use Rattle.load_states.specs.Loads.{IsBegun};
ghost use Rattle.load_states.specs.LoadState.{memory_of, opening_of};

use crate::others::events_taken;
use crate::plans::begin_small;
use crate::rig::{begin_zones, is_working};
use firmware_load::{Event, Schedule, SeededSchedule, World};
use guest_memory::GuestMemory;
use std::alloc::Global;
use std::process::Abort;
use std::test::Fail;
use zone_alloc::{Policy, ShelfAlloc};

// Policies, and the frames of the two files at the places that they give: in the F segment and in high memory, which begins with frame 256 at
// 0x2000000. The scattered ones are at 0xFD910 and 0x3844000.
static PLACED: [(Policy, u64, [usize; 2]); 12] = [
    (Policy::Low, 0, [0xF0, 0x1100]),
    (Policy::Low, 1, [0xF0, 0x1100]),
    (Policy::Low, 2, [0xF0, 0x1100]),
    (Policy::Low, 0xFFFF_FFFF_FFFF_FFFF, [0xF0, 0x1100]),
    (Policy::Top, 0, [0xFF, 0x20FF]),
    (Policy::Top, 3, [0xFF, 0x20FF]),
    (Policy::Top, 4, [0xFF, 0x20FF]),
    (Policy::Top, 5, [0xFF, 0x20FF]),
    (Policy::Scatter(0), 0, [0xFD, 0x1944]),
    (Policy::Scatter(0), 6, [0xFD, 0x1944]),
    (Policy::Scatter(0), 7, [0xFD, 0x1944]),
    (Policy::Scatter(0), 8, [0xFD, 0x1944]),
];

// The frames of the descriptor and of the buffer.
const WORK: [usize; 2] = [7, 8];

#[test]
fn loads_over_seeds(rt: HostRuntime) -> Result<(), Fail> {
    for (by, seed, placed) in &PLACED {
        load_touches(&rt, rt.alloc(), *by, *seed, placed)?;
    }
    Ok(())
}

fn load_touches(
    rt: &impl Abort,
    alloc: Global,
    by: Policy,
    seed: u64,
    placed: &[usize],
) -> Result<(), Fail> {
    let mut world = World::idle();
    let done = load_touches_in(rt, alloc, &mut world, by, seed, placed);
    drop(world);
    done
}

fn load_touches_in(
    rt: &impl Abort,
    alloc: Global,
    world: &mut World,
    by: Policy,
    seed: u64,
    placed: &[usize],
) -> Result<(), Fail> {
    begin_small(alloc, world)?;
    let taken = load_by(rt, alloc, world, by, seed)?;
    let mut frames = vec![in alloc; false; 8448]?;
    note_all(&mut frames, &WORK);
    note_all(&mut frames, placed);
    note_written(&mut frames, seed, taken);
    are_touched(rt, world.memory(), &frames);
    drop(frames);
    Ok(())
}

// Loads over the events of a seed, and returns how many of them were taken.
fn load_by(
    rt: &impl Abort,
    alloc: Global,
    world: &mut World,
    by: Policy,
    seed: u64,
) -> Result<usize, Fail>
    requires fresh { IsSomeAnd world.old.load (λ w. IsBegun (opening_of w) w) }
    requires top { IfSome world.old.load (λ w. (memory_of w).top ≡ 0x4000000) }
    ensures { IsSome world.new.load }
{
    let mut plan = SeededSchedule::new();
    plan.begin(seed);
    let mut shelf = ShelfAlloc::new();
    begin_zones(alloc, &mut shelf, by)?;
    assert_eq!(rt; world.load(&mut shelf, &mut plan), Ok(()));
    drop(shelf);
    Ok(events_taken(&mut plan, seed))
}

fn note_all(frames: &mut Vec<bool>, touched: &[usize]) {
    for frame in touched {
        note(frames, *frame);
    }
}

fn note(frames: &mut Vec<bool>, frame: usize) {
    if frame < frames.len() {
        frames[frame] = true;
    }
}

// Notes the frames in which other processors wrote over the first events of a seed, which write below 1 MiB. From 640 KiB to the BIOS area
// there is no RAM; the work range and the BIOS area are guarded.
fn note_written(frames: &mut Vec<bool>, seed: u64, taken: usize) {
    let mut plan = SeededSchedule::new();
    plan.begin(seed);
    for _event in 0..taken {
        if let Some(Event::Other { addr, .. }) = plan.next() {
            note_write(frames, addr);
        }
    }
}

fn note_write(frames: &mut Vec<bool>, addr: u64) {
    if addr < 0xA_0000 && !is_working(addr) {
        note(frames, (addr / 4096) as usize);
    }
}

fn are_touched(rt: &impl Abort, memory: &GuestMemory, frames: &[bool]) {
    for (frame, touched) in frames.iter().enumerate() {
        assert!(rt; frame < 8448);
        assert_eq!(rt; memory.touched(frame as u32), *touched, "{frame}");
    }
}
