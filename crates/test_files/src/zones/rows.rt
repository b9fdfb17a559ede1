//! Requests, one after the other, and the places that are to be given.

ghost use Rattle.std.specs.Prelude.{◌≡◌, true, ◌+◌, ◌<◌, ◌≤◌, length, OnOk};
ghost use Rattle.zone_alloc.specs.Places.{HaveAddresses};

use std::alloc::Global;
use std::process::Abort;
use vt_outside::OutOfMemory;
use zone_alloc::{Policy, ShelfAlloc, Zone, ZoneAlloc, Zones};

/// High memory of seven multiples of 2^31, at the last of which one byte has room, and an F segment of one byte.
pub(crate) const WIDE: Zones = Zones {
    high_start: 1,
    high_end: 0x3_8000_0001,
    fseg_start: 5,
    fseg_end: 6,
};

/// A request, and the place that is to be given, or `None` for a refusal.
#[derive(Clone, Copy)]
pub(crate) struct Row(
    pub(crate) Zone,
    pub(crate) u32,
    pub(crate) u32,
    pub(crate) Option<u64>,
);

/// A shelf that begins with these zones and this policy answers each row as it says, again once it is reset, and again once it has begun again.
pub(crate) fn are_places(
    rt: &impl Abort,
    alloc: Global,
    zones: Zones,
    by: Policy,
    rows: &[Row],
) -> Result<(), OutOfMemory>
    requires addresses { HaveAddresses zones }
    requires room { length rows.now ≤ 1024 }
{
    let mut shelf = ShelfAlloc::new();
    let done = are_placed_each_time(rt, alloc, &mut shelf, zones, by, rows);
    drop(shelf);
    done
}

fn are_placed_each_time(
    rt: &impl Abort,
    alloc: Global,
    shelf: &mut ShelfAlloc,
    zones: Zones,
    by: Policy,
    rows: &[Row],
) -> Result<(), OutOfMemory>
    requires addresses { HaveAddresses zones }
    requires room { length rows.now ≤ 1024 }
{
    are_placed_from_begin(rt, alloc, shelf, zones, by, rows)?;
    are_placed_from_reset(rt, shelf, rows);
    are_placed_from_begin(rt, alloc, shelf, zones, by, rows)
}

/// Once an allocator begins with these zones and this policy, it answers each row as it says.
pub(crate) fn are_placed_from_begin<A: ZoneAlloc>(
    rt: &impl Abort,
    alloc: Global,
    place: &mut A,
    zones: Zones,
    by: Policy,
    rows: &[Row],
) -> Result<(), OutOfMemory>
    requires addresses { HaveAddresses zones }
    requires room { length rows.now ≤ 1024 }
    ensures { OnOk result ((A.state place.new).begun.ready ≡ true) }
{
    place.begin(alloc, zones, by)?;
    are_placed(rt, place, rows);
    Ok(())
}

/// Once an allocator is reset, it answers each row as it says.
pub(crate) fn are_placed_from_reset<A: ZoneAlloc>(rt: &impl Abort, place: &mut A, rows: &[Row])
    requires begun { (A.state place.old).begun.ready ≡ true }
    requires room { length rows.now ≤ 1024 }
    ensures { (A.state place.new).begun.ready ≡ true }
{
    place.reset();
    are_placed(rt, place, rows);
}

// Each row is answered as it says, in turn.
fn are_placed<A: ZoneAlloc>(rt: &impl Abort, alloc: &mut A, rows: &[Row])
    requires begun { (A.state alloc.old).begun.ready ≡ true }
    requires room { length (A.state alloc.old).handed + length rows.now ≤ 1024 }
    ensures { (A.state alloc.new).begun.ready ≡ true }
{
    for row in rows {
        is_placed(rt, alloc, row);
    }
}

// A row is answered as it says.
fn is_placed<A: ZoneAlloc>(rt: &impl Abort, alloc: &mut A, row: &Row)
    requires begun { (A.state alloc.old).begun.ready ≡ true }
    requires room { length (A.state alloc.old).handed < 1024 }
    ensures begun { (A.state alloc.new).begun.ready ≡ true }
    ensures grown { length (A.state alloc.new).handed ≤ length (A.state alloc.old).handed + 1 }
{
    let Row(zone, size, align, place) = row;
    assert!(rt; *size > 0 && align.is_power_of_two());
    let given = alloc.place(*zone, *size, *align);
    assert_eq!(rt; given.ok(), *place, "{size} bytes at {align}");
}
