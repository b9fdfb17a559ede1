//! The zones of memory below a few tops: 16 MiB, which is the least that there may be, 64 MiB, and 3 GiB.

use std::process::Abort;
use zone_alloc::{Zones, zones_of};

#[test]
fn zones_below_a_top(rt: HostRuntime) {
    are_zones(&rt, zones_of(0x100_0000), 0, 0x100_0000);
    are_zones(&rt, zones_of(0x400_0000), 0x300_0000, 0x400_0000);
    are_zones(&rt, zones_of(0xC000_0000), 0xBF00_0000, 0xC000_0000);
}

// The zones are this range of high memory, and the F segment.
fn are_zones(rt: &impl Abort, zones: Zones, high_start: u64, high_end: u64) {
    let wanted = Zones {
        high_start,
        high_end,
        fseg_start: 0xF_0000,
        fseg_end: 0x10_0000,
    };
    assert_eq!(rt; zones, wanted);
}
