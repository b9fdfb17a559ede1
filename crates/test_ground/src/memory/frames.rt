//! Guest memory in runs of bytes and frame by frame.

use guest_memory::{GuestMemory, TooFar};
use std::alloc::Global;
use std::process::Abort;
use std::test::Fail;

// Runs of bytes by their address and their number, and whether each byte is RAM where the top is 64 MiB.
static RUNS: [(u64, u32, bool); 18] = [
    (0, 0xA_0000, true),
    (0, 0xA_0001, false),
    (0, u32::MAX, false),
    (0x9_FFFF, 1, true),
    (0x9_FFFF, 2, false),
    (0xA_0000, 0, true),
    (0xA_0000, 1, false),
    (0xD_FFFF, 2, false),
    (0xE_0000, 0x2_0000, true),
    (0xE_0000, 0x2_0001, false),
    (0x1FF_FFFF, 2, false),
    (0x200_0000, 0x200_0000, true),
    (0x200_0000, 0x200_0001, false),
    (0x3FF_FFFF, 2, false),
    (0x400_0000, 1, false),
    (u64::MAX, 0, true),
    (u64::MAX, 1, false),
    (u64::MAX, u32::MAX, false),
];

#[test]
fn runs_of_ram(rt: HostRuntime) -> Result<(), Fail> {
    let memory = GuestMemory::begin(rt.alloc(), 0x400_0000, 0)?;
    are_runs(&rt, &memory);
    drop(memory);
    Ok(())
}

fn are_runs(rt: &impl Abort, memory: &GuestMemory) {
    for (address, len, is_ram) in &RUNS {
        assert_eq!(rt;
            memory.is_ram_range(*address, *len),
            *is_ram,
            "{len} from {address}"
        );
    }
}

// Runs of bytes by their address and their number, and the frames that they meet, where the top is 64 MiB: within one frame, over the end
// of one, at both ends of each range of RAM, and none at all.
static MEETS: [(u64, u32, &[u32]); 13] = [
    (0x9_FFFF, 1, &[159]),
    (0x9_EFFF, 0x1001, &[158, 159]),
    (0xFFF, 2, &[0, 1]),
    (0x1000, 4096, &[1]),
    (0xFFE, 4100, &[0, 1, 2]),
    (0xE_0000, 1, &[224]),
    (0xF_FFFF, 1, &[255]),
    (0xE_FFFF, 0x2, &[239, 240]),
    (0x200_0000, 1, &[256]),
    (0x3FF_F000, 4096, &[8447]),
    (0x3FF_EFFF, 4097, &[8446, 8447]),
    (0x5000, 0, &[]),
    (u64::MAX, 0, &[]),
];

#[test]
fn runs_touch_the_frames_that_they_meet(rt: HostRuntime) -> Result<(), Fail> {
    for (address, len, frames) in &MEETS {
        touch(&rt, rt.alloc(), *address, *len, frames)?;
    }
    Ok(())
}

// Puts so many bytes at an address of a new memory, which touches these frames.
fn touch(
    rt: &impl Abort,
    alloc: Global,
    address: u64,
    len: u32,
    frames: &[u32],
) -> Result<(), Fail> {
    let mut memory = GuestMemory::begin(alloc, 0x400_0000, 0xAB)?;
    let bytes = vec![in alloc; 1; len as usize]?;
    assert!(rt; memory.is_ram_range(address, len), "{address}");
    memory.copy_in(address, bytes.as_slice());
    are_touched(rt, &memory, frames);
    drop(memory);
    Ok(())
}

// Of all frames these alone are touched.
fn are_touched(rt: &impl Abort, memory: &GuestMemory, frames: &[u32]) {
    for frame in 0..8448 {
        assert_eq!(rt; memory.touched(frame), frames.contains(&frame), "{frame}");
    }
}

#[test]
fn runs_at_the_greatest_top(rt: HostRuntime) -> Result<(), Fail> {
    let mut memory = GuestMemory::begin(rt.alloc(), 0xC000_0000, 0)?;
    memory.copy_in(0xBE00_0FFF, &[1, 2]);
    memory.copy_in(0xBFFF_FFFF, &[3]);
    are_touched(&rt, &memory, &[256, 257, 8447]);
    drop(memory);
    Ok(())
}

// Frames that are touched once bytes were changed at the end of a frame, over the end of another one, and at the top, and a number was
// added to that doesn't fit its field, which lies in two frames.
static TOUCHED: [u32; 6] = [0, 1, 15, 239, 240, 8447];

#[test]
fn frames_are_touched_by_changes(rt: HostRuntime) -> Result<(), Fail> {
    let mut memory = GuestMemory::begin(rt.alloc(), 0x400_0000, 0xAB)?;
    are_blank(&rt, &memory);
    memory.window_mut(0xFFFF, 1)[0] = 1;
    memory.copy_in(0xE_FFFF, &[2, 3]);
    memory.write(0x3FF_FFFF, 4);
    is_too_far(&rt, &mut memory);
    lend_nothing(&rt, &mut memory);
    are_touched(&rt, &memory, &TOUCHED);
    are_ends(&rt, &memory);
    are_touched(&rt, &memory, &TOUCHED);
    drop(memory);
    Ok(())
}

// No frame of a new memory is touched, and what is read of it touches none: each window has fill bytes.
fn are_blank(rt: &impl Abort, memory: &GuestMemory) {
    are_touched(rt, memory, &[]);
    is_part(rt, memory, 0x1FFC, 8, &[0xAB; 4]);
    is_part(rt, memory, 0x3FF_F000, 2, &[0xAB; 2]);
    are_bytes(rt, memory.window(0x1000, 4096), &[0xAB; 4096]);
    is_sum(rt, memory);
    are_touched(rt, memory, &[]);
}

// The sum of the last bytes below a gap, and the byte behind it.
fn is_sum(rt: &impl Abort, memory: &GuestMemory) {
    assert!(rt; memory.is_ram_range(0x9_EFFF, 0x1001) && memory.is_ram(0xE_0000));
    assert_eq!(rt; memory.sum_range(0x9_EFFF, 0x1001), 0xAB);
    assert_eq!(rt; memory.read(0xE_0000), 0xAB);
}

// A number of fill bytes to which nothing can be added.
fn is_too_far(rt: &impl Abort, memory: &mut GuestMemory) {
    assert_eq!(rt; memory.patch_add(0xFFE, 4, 0x5454_5455), Err(TooFar));
    is_part(rt, memory, 0xFFE, 2, &[0xAB; 2]);
}

// A window of no bytes, to be changed, at the start of a frame, and at its end.
fn lend_nothing(rt: &impl Abort, memory: &mut GuestMemory) {
    are_bytes(rt, memory.window_mut(0x5000, 0), &[]);
    are_bytes(rt, memory.window_mut(0x5FFF, 0), &[]);
}

// Beside what was changed stands the fill byte, in frames that are touched and in others.
fn are_ends(rt: &impl Abort, memory: &GuestMemory) {
    is_part(rt, memory, 0xFFFE, 9, &[0xAB, 1]);
    is_part(rt, memory, 0x1_0000, 2, &[0xAB; 2]);
    is_part(rt, memory, 0xE_FFFE, 9, &[0xAB, 2]);
    is_part(rt, memory, 0xF_0000, 2, &[3, 0xAB]);
    is_part(rt, memory, 0x3FF_FFFE, 9, &[0xAB, 4]);
}

#[test]
fn all_high_memory_is_touched_at_once(rt: HostRuntime) -> Result<(), Fail> {
    let mut memory = GuestMemory::begin(rt.alloc(), 0x400_0000, 0)?;
    let bytes = vec![in rt.alloc(); 7; 0x200_0000]?;
    memory.copy_in(0x200_0000, bytes.as_slice());
    drop(bytes);
    is_high(&rt, &memory);
    drop(memory);
    Ok(())
}

// All frames of high memory are touched, and no other is.
fn is_high(rt: &impl Abort, memory: &GuestMemory) {
    for frame in 0..8448 {
        assert_eq!(rt; memory.touched(frame), frame >= 256, "{frame}");
    }
    is_part(rt, memory, 0x3FF_FFFE, 9, &[7, 7]);
    is_part(rt, memory, 0x200_0000, 1, &[7]);
}

// The block of a memory that is dropped is given back: else a thousand would take 33 GB.
#[test]
fn memories_are_given_back(rt: HostRuntime) -> Result<(), Fail> {
    for round in 0..1000 {
        use_once(rt.alloc(), round)?;
    }
    Ok(())
}

fn use_once(alloc: Global, round: u32) -> Result<(), Fail> {
    let mut memory = GuestMemory::begin(alloc, 0x400_0000, 1)?;
    memory.write(0x200_0000, (round % 256) as u8);
    drop(memory);
    Ok(())
}

#[test]
fn bytes_over_a_frame_are_read(rt: HostRuntime) -> Result<(), Fail> {
    let mut memory = GuestMemory::begin(rt.alloc(), 0x400_0000, 9)?;
    memory.copy_in(0xFFE, &[1, 2, 3, 4, 5]);
    are_read(&rt, &memory);
    drop(memory);
    Ok(())
}

fn are_read(rt: &impl Abort, memory: &GuestMemory) {
    let mut bytes = [0; 7];
    memory.copy_out(0xFFD, &mut bytes);
    are_bytes(rt, &bytes, &[9, 1, 2, 3, 4, 5, 9]);
    is_part(rt, memory, 0xFFD, 7, &[9, 1, 2]);
    is_part(rt, memory, 0x1000, 4, &[3, 4, 5, 9]);
}

// The part in one frame of so many bytes from an address on.
fn is_part(rt: &impl Abort, memory: &GuestMemory, address: u64, len: usize, part: &[u8]) {
    assert!(rt; len > 0 && memory.is_ram(address));
    are_bytes(rt, memory.part_in_frame(address, len), part);
}

fn are_bytes(rt: &impl Abort, bytes: &[u8], wanted: &[u8]) {
    assert_eq!(rt; bytes, wanted);
}
