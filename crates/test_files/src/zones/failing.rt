//! An allocator that refuses the calls that it is told to.

use crate::zones::rows::{Row, are_placed_from_begin};
use std::alloc::Global;
use std::process::Abort;
use std::test::Fail;
use vt_outside::{List, OutOfMemory};
use zone_alloc::Zone::High;
use zone_alloc::{FailingAlloc, Policy, zones_of};

// The calls 0 to 3.
static FIRST: [Row; 4] = [
    Row(High, 1, 1, None),
    Row(High, 1, 1, Some(0x300_0000)),
    Row(High, 1, 1, None),
    Row(High, 1, 1, Some(0x300_0001)),
];

// The calls 4 to 6, after another begin. The last one would be refused by a shelf too.
static AGAIN: [Row; 3] = [
    Row(High, 1, 1, None),
    Row(High, 1, 1, Some(0x300_0000)),
    Row(High, 0x100_0000, 1, None),
];

// Call 7, by the greatest address, and the calls 8 to 11, by the goals of seed 0 (words 11cdd903, fc843fd7): neither a listed call nor
// another one that is refused takes a word.
static TOP: [Row; 1] = [Row(High, 1, 1, Some(0x3FF_FFFF))];

static SCATTERED: [Row; 4] = [
    Row(High, 1, 1, Some(0x3CD_D903)),
    Row(High, 1, 1, None),
    Row(High, 0x100_0000, 1, None),
    Row(High, 1, 1, Some(0x384_3FD7)),
];

#[test]
fn listed_calls(rt: HostRuntime) -> Result<(), Fail> {
    let mut failing = failing(rt.alloc())?;
    let done = are_listed(&rt, rt.alloc(), &mut failing);
    drop(failing);
    done
}

fn failing(alloc: Global) -> Result<FailingAlloc, OutOfMemory> {
    let mut numbers = List::new(alloc);
    numbers.extend(&[0, 2, 4, 9])?;
    Ok(FailingAlloc::new(numbers))
}

fn are_listed(rt: &impl Abort, alloc: Global, failing: &mut FailingAlloc) -> Result<(), Fail> {
    let zones = zones_of(0x400_0000);
    are_placed_from_begin(rt, alloc, failing, zones, Policy::Low, &FIRST)?;
    are_placed_from_begin(rt, alloc, failing, zones, Policy::Low, &AGAIN)?;
    are_placed_from_begin(rt, alloc, failing, zones, Policy::Top, &TOP)?;
    are_placed_from_begin(rt, alloc, failing, zones, Policy::Scatter(0), &SCATTERED)?;
    Ok(())
}
