//! The places that shelves give: the least ones that are free, the greatest, and those that are the same by each policy.

use crate::zones::rows::{Row, WIDE, are_places};
use std::process::Abort;
use std::test::Fail;
use zone_alloc::Zone::{Fseg, High};
use zone_alloc::{Policy, Zones, zones_of};

// High memory is 0x300_0000 to 0x3FF_FFFF, and the F segment 0xF_0000 to 0xF_FFFF.
static LOW: [Row; 10] = [
    Row(High, 3, 1, Some(0x300_0000)),
    Row(High, 1, 1, Some(0x300_0003)),
    Row(High, 5, 16, Some(0x300_0010)),
    // It fits between two others.
    Row(High, 12, 4, Some(0x300_0004)),
    Row(High, 1, 1, Some(0x300_0015)),
    Row(High, 1, 0x1000, Some(0x300_1000)),
    // The zone's only multiple is taken, and there is none at all.
    Row(High, 1, 0x100_0000, None),
    Row(High, 1, 0x8000_0000, None),
    Row(Fseg, 36, 16, Some(0xF_0000)),
    Row(Fseg, 36, 16, Some(0xF_0030)),
];

static TOP: [Row; 12] = [
    Row(High, 3, 1, Some(0x3FF_FFFD)),
    Row(High, 1, 1, Some(0x3FF_FFFC)),
    Row(High, 5, 16, Some(0x3FF_FFF0)),
    // It has to go below the last one, and the next fits between.
    Row(High, 11, 1, Some(0x3FF_FFE5)),
    Row(High, 7, 1, Some(0x3FF_FFF5)),
    Row(High, 12, 4, Some(0x3FF_FFD8)),
    Row(High, 1, 0x1000, Some(0x3FF_F000)),
    Row(High, 1, 0x100_0000, Some(0x300_0000)),
    Row(High, 1, 0x100_0000, None),
    Row(High, 1, 0x8000_0000, None),
    Row(Fseg, 36, 16, Some(0xF_FFD0)),
    Row(Fseg, 36, 16, Some(0xF_FFA0)),
];

// Files as large as their zones, and one byte larger.
static FULL: [Row; 6] = [
    Row(Fseg, 0x1_0001, 1, None),
    Row(Fseg, 0x1_0000, 1, Some(0xF_0000)),
    Row(Fseg, 1, 1, None),
    Row(High, 0xFFFF_FFFF, 1, None),
    Row(High, 0x100_0000, 0x100_0000, Some(0x300_0000)),
    Row(High, 1, 1, None),
];

// One byte is left between two ranges.
static LOW_GAP: [Row; 5] = [
    Row(Fseg, 0x7FFF, 1, Some(0xF_0000)),
    Row(Fseg, 1, 0x8000, Some(0xF_8000)),
    Row(Fseg, 2, 1, Some(0xF_8001)),
    Row(Fseg, 1, 1, Some(0xF_7FFF)),
    Row(Fseg, 1, 1, Some(0xF_8003)),
];

static TOP_GAP: [Row; 5] = [
    Row(Fseg, 0x7FFE, 1, Some(0xF_8002)),
    Row(Fseg, 1, 0x8000, Some(0xF_8000)),
    Row(Fseg, 2, 1, Some(0xF_7FFE)),
    Row(Fseg, 1, 1, Some(0xF_8001)),
    Row(Fseg, 1, 1, Some(0xF_7FFD)),
];

// The last 255 addresses below 2^64 - 1, and a zone of one byte.
const ENDS: Zones = Zones {
    high_start: 0xFFFF_FFFF_FFFF_FF00,
    high_end: 0xFFFF_FFFF_FFFF_FFFF,
    fseg_start: 5,
    fseg_end: 6,
};

static AT_ENDS: [Row; 7] = [
    Row(High, 1, 0x100, Some(0xFFFF_FFFF_FFFF_FF00)),
    // The next multiple is 2^64.
    Row(High, 1, 0x100, None),
    Row(High, 255, 1, None),
    Row(High, 254, 1, Some(0xFFFF_FFFF_FFFF_FF01)),
    Row(High, 1, 1, None),
    Row(Fseg, 1, 2, None),
    Row(Fseg, 1, 1, Some(5)),
];

static LOW_WIDE: [Row; 4] = [
    Row(High, 2, 0x8000_0000, Some(0x8000_0000)),
    Row(High, 1, 0x8000_0000, Some(0x1_0000_0000)),
    Row(High, 0x8000_0001, 0x8000_0000, Some(0x1_8000_0000)),
    Row(High, 0xFFFF_FFFF, 0x8000_0000, Some(0x2_8000_0000)),
];

static TOP_WIDE: [Row; 4] = [
    Row(High, 2, 0x8000_0000, Some(0x3_0000_0000)),
    Row(High, 1, 0x8000_0000, Some(0x3_8000_0000)),
    Row(High, 0x8000_0001, 0x8000_0000, Some(0x2_0000_0000)),
    Row(High, 0xFFFF_FFFF, 0x8000_0000, Some(0x1_0000_0000)),
];

#[test]
fn least_places(rt: HostRuntime) -> Result<(), Fail> {
    let alloc = rt.alloc();
    are_places(&rt, alloc, zones_of(0x400_0000), Policy::Low, &LOW)?;
    are_places(&rt, alloc, zones_of(0x400_0000), Policy::Low, &LOW_GAP)?;
    are_places(&rt, alloc, WIDE, Policy::Low, &LOW_WIDE)?;
    Ok(())
}

#[test]
fn greatest_places(rt: HostRuntime) -> Result<(), Fail> {
    let alloc = rt.alloc();
    are_places(&rt, alloc, zones_of(0x400_0000), Policy::Top, &TOP)?;
    are_places(&rt, alloc, zones_of(0x400_0000), Policy::Top, &TOP_GAP)?;
    are_places(&rt, alloc, WIDE, Policy::Top, &TOP_WIDE)?;
    Ok(())
}

// Where each request leaves one choice, all policies give the same places.
#[test]
fn full_zones(rt: HostRuntime) -> Result<(), Fail> {
    for by in &[Policy::Low, Policy::Top, Policy::Scatter(7)] {
        are_places(&rt, rt.alloc(), zones_of(0x400_0000), *by, &FULL)?;
    }
    Ok(())
}

#[test]
fn ends_of_the_addresses(rt: HostRuntime) -> Result<(), Fail> {
    for by in &[Policy::Low, Policy::Top, Policy::Scatter(7)] {
        are_places(&rt, rt.alloc(), ENDS, *by, &AT_ENDS)?;
    }
    Ok(())
}
