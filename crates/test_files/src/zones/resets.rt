//! Allocators that are reset: they give their first places again.

use crate::zones::rows::{Row, are_placed_from_begin, are_placed_from_reset};
use std::alloc::Global;
use std::process::Abort;
use std::test::Fail;
use vt_outside::{List, OutOfMemory};
use zone_alloc::Zone::High;
use zone_alloc::{FailingAlloc, Policy, ShelfAlloc, ZoneAlloc, zones_of};

// The first two bytes of high memory, and a call that is refused.
const FIRST: Row = Row(High, 1, 1, Some(0x300_0000));

const SECOND: Row = Row(High, 1, 1, Some(0x300_0001));

const REFUSED: Row = Row(High, 1, 1, None);

// Calls before a reset and behind it, of an allocator that refuses call 2, counted from 0 and over the reset.
static CALLS: [(&[Row], &[Row]); 4] = [
    (&[], &[FIRST, SECOND, REFUSED]),
    (&[FIRST], &[FIRST, REFUSED, SECOND]),
    (&[FIRST, SECOND], &[REFUSED, FIRST, SECOND]),
    (&[FIRST, SECOND, REFUSED], &[FIRST, SECOND]),
];

#[test]
fn calls_are_counted_on(rt: HostRuntime) -> Result<(), Fail> {
    for (before, behind) in &CALLS {
        are_counted_on(&rt, rt.alloc(), before, behind)?;
    }
    Ok(())
}

fn are_counted_on(
    rt: &impl Abort,
    alloc: Global,
    before: &[Row],
    behind: &[Row],
) -> Result<(), Fail> {
    let mut numbers = List::new(alloc);
    numbers.push(2)?;
    let mut failing = FailingAlloc::new(numbers);
    let done = are_placed_both_times(rt, alloc, &mut failing, before, behind);
    drop(failing);
    Ok(done?)
}

fn are_placed_both_times<A: ZoneAlloc>(
    rt: &impl Abort,
    alloc: Global,
    place: &mut A,
    before: &[Row],
    behind: &[Row],
) -> Result<(), OutOfMemory> {
    assert!(rt; before.len() <= 1024 && behind.len() <= 1024);
    are_placed_from_begin(rt, alloc, place, zones_of(0x400_0000), Policy::Low, before)?;
    are_placed_from_reset(rt, place, behind);
    Ok(())
}

// As many ranges as an allocator hands out, and as many behind a reset.
#[test]
fn as_many_ranges_again(rt: HostRuntime) -> Result<(), Fail> {
    let rows = bytes_in_turn(rt.alloc())?;
    let mut shelf = ShelfAlloc::new();
    let done = are_placed_both_times(
        &rt,
        rt.alloc(),
        &mut shelf,
        rows.as_slice(),
        rows.as_slice(),
    );
    drop(shelf);
    drop(rows);
    Ok(done?)
}

// 1,024 bytes of high memory, one behind the other.
fn bytes_in_turn(alloc: Global) -> Result<List<Row>, OutOfMemory> {
    let mut rows = List::new(alloc);
    for at in 0x300_0000..0x300_0400 {
        rows.push(Row(High, 1, 1, Some(at)))?;
    }
    Ok(rows)
}
