//! The places that shelves give from the goals of a seed on.
//!
//! The words of a seed are those of `Pcg32::seed_from_u64` of Rust's crate `rand_pcg`: for seed 0 they begin with 11cdd903 and
//! fc843fd7, which are the halves of the number 18195738587432868099 that its own tests have for seed 0. These two and the others
//! were worked out by a program in Python from the definitions of PCG's XSH RR 64/32 and of `seed_from_u64`, and the places from them
//! by hand.

use crate::zones::rows::{Row, WIDE, are_places};
use std::process::Abort;
use std::test::Fail;
use zone_alloc::Zone::{Fseg, High};
use zone_alloc::{Policy, zones_of};

// High memory is 0x300_0000 to 0x3FF_FFFF, and the F segment 0xF_0000 to 0xF_FFFF.
static SCATTERED: [Row; 10] = [
    // 11cdd903, fc843fd7.
    Row(High, 42, 16, Some(0x3CD_D910)),
    Row(Fseg, 36, 16, Some(0xF_3FE0)),
    // 140833d3 is taken by the first of three that isn't refused.
    Row(Fseg, 0x1_0001, 1, None),
    Row(High, 0x100_0000, 1, None),
    Row(Fseg, 24, 16, Some(0xF_33E0)),
    // 3efaaf3e, 3f353b9b.
    Row(High, 0x1000, 0x1000, Some(0x3FA_B000)),
    Row(High, 1, 0x8000_0000, None),
    Row(High, 64, 64, Some(0x335_3BC0)),
    // 605eec85: so many bytes have no room behind the goal 0xF_EC85. 1de85c8e.
    Row(Fseg, 0x1400, 1, Some(0xF_0000)),
    Row(Fseg, 1, 1, Some(0xF_5C8E)),
];

static FILLED: [Row; 5] = [
    // There is no multiple behind the goal 0xF_D903. The goal 0xF_3FD7 is taken then.
    Row(Fseg, 0x8000, 0x8000, Some(0xF_0000)),
    Row(Fseg, 0x8000, 1, Some(0xF_8000)),
    Row(Fseg, 1, 1, None),
    // 140833d3, 3efaaf3e.
    Row(High, 1, 1, Some(0x308_33D3)),
    Row(High, 1, 1, Some(0x3FA_AF3E)),
];

// The words of the greatest seed begin with 982f997e and 513da686.
static GREATEST_SEED: [Row; 2] = [
    Row(High, 1, 1, Some(0x32F_997E)),
    Row(High, 1, 1, Some(0x33D_A686)),
];

// The zone has more addresses than there are words: the goals are the words themselves, from the address 1 on.
static IN_WIDE: [Row; 5] = [
    Row(High, 2, 0x8000_0000, Some(0x8000_0000)),
    Row(High, 1, 0x8000_0000, Some(0x1_0000_0000)),
    Row(High, 0x8000_0001, 0x8000_0000, Some(0x1_8000_0000)),
    Row(High, 1, 1, Some(0x3EFA_AF3F)),
    Row(Fseg, 1, 1, Some(5)),
];

#[test]
fn scattered_places(rt: HostRuntime) -> Result<(), Fail> {
    let alloc = rt.alloc();
    are_places(
        &rt,
        alloc,
        zones_of(0x400_0000),
        Policy::Scatter(0),
        &SCATTERED,
    )?;
    are_places(
        &rt,
        alloc,
        zones_of(0x400_0000),
        Policy::Scatter(0),
        &FILLED,
    )?;
    are_places(&rt, alloc, WIDE, Policy::Scatter(0), &IN_WIDE)?;
    are_places(
        &rt,
        alloc,
        zones_of(0x400_0000),
        Policy::Scatter(u64::MAX),
        &GREATEST_SEED,
    )?;
    Ok(())
}
