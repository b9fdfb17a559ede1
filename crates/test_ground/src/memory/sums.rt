//! Sums over frames of which some are touched: one that is summed whole and isn't touched sums to zero, whatever the fill byte is.

use guest_memory::GuestMemory;
use std::alloc::Global;
use std::process::Abort;
use std::test::Fail;

// Runs of bytes by their address and their number, in a memory of which frames 1 and 3 are touched: a frame that is touched and one that
// isn't, both with their neighbours, with a byte more on each side, a part of one that isn't touched, the end of one and the start of one
// that is, and all high memory, which isn't touched.
static RUNS: [(u64, u32); 7] = [
    (0x1000, 0x1000),
    (0x2000, 0x1000),
    (0, 0x4000),
    (0xFFF, 0x3002),
    (0x2001, 0xFFF),
    (0x2FFF, 2),
    (0x200_0000, 0x200_0000),
];

// Fill bytes, and the sums of the runs above where one byte of frame 1 is 0x10, and one of frame 3 is 0x22.
static SUMS: [(u8, &[u8]); 4] = [
    (0x00, &[0x10, 0, 0x32, 0x32, 0x00, 0x00, 0]),
    (0x01, &[0x0F, 0, 0x30, 0x32, 0xFF, 0x02, 0]),
    (0xA5, &[0x6B, 0, 0xE8, 0x32, 0x5B, 0x4A, 0]),
    (0xFF, &[0x11, 0, 0x34, 0x32, 0x01, 0xFE, 0]),
];

#[test]
fn frames_that_are_not_touched_sum_to_zero(rt: HostRuntime) -> Result<(), Fail> {
    for (fill, sums) in &SUMS {
        sum_up(&rt, rt.alloc(), *fill, sums)?;
    }
    Ok(())
}

fn sum_up(rt: &impl Abort, alloc: Global, fill: u8, sums: &[u8]) -> Result<(), Fail> {
    let mut memory = GuestMemory::begin(alloc, 0x400_0000, fill)?;
    memory.write(0x1800, 0x10);
    memory.write(0x3FFF, 0x22);
    are_sums(rt, &memory, sums);
    drop(memory);
    Ok(())
}

fn are_sums(rt: &impl Abort, memory: &GuestMemory, sums: &[u8]) {
    assert_eq!(rt; sums.len(), RUNS.len());
    for (index, (address, len)) in RUNS.iter().enumerate() {
        assert!(rt; memory.is_ram_range(*address, *len), "{address}");
        assert_eq!(rt;
            memory.sum_range(*address, *len),
            sums[index],
            "at {address}"
        );
    }
}
