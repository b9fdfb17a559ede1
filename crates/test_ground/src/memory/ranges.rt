//! Guest memory, address by address and in ranges.

ghost use Rattle.std.specs.Prelude.{◌≡◌, ◌≤◌, ◌⊎◌, length};
ghost use Rattle.vt_bytes.specs.Memory.{IsRamRange};

use guest_memory::{FRAME_BYTES, GuestMemory, TooFar, ram_ranges};
use std::process::Abort;
use std::test::Fail;
use vt_bytes::AddressRange;

// Addresses on both sides of each border, and whether each is RAM where the top is 64 MiB.
static ADDRESSES: [(u64, bool); 14] = [
    (0, true),
    (0x9_FFFF, true),
    (0xA_0000, false),
    (0xD_FFFF, false),
    (0xE_0000, true),
    (0xF_FFFF, true),
    (0x10_0000, false),
    (0x1FF_FFFF, false),
    (0x200_0000, true),
    (0x3FF_FFFF, true),
    (0x400_0000, false),
    (0x1_0000_0000, false),
    (0x1_0200_0000, false),
    (u64::MAX, false),
];

#[test]
fn memory(rt: HostRuntime) -> Result<(), Fail> {
    let mut memory = GuestMemory::begin(rt.alloc(), 0x400_0000, 0xAB)?;
    are_addresses(&rt, &mut memory);
    drop(memory);
    Ok(())
}

fn are_addresses(rt: &impl Abort, memory: &mut GuestMemory) {
    assert_eq!(rt; memory.top(), 0x400_0000);
    for (address, is_ram) in &ADDRESSES {
        is_address(rt, memory, *address, *is_ram);
    }
}

// An address is RAM or not, and holds the fill byte until another is written there.
fn is_address(rt: &impl Abort, memory: &mut GuestMemory, address: u64, is_ram: bool) {
    assert_eq!(rt; memory.is_ram(address), is_ram, "at {address}");
    assert_eq!(rt; memory.fill(), 0xAB, "at {address}");
    if memory.is_ram(address) {
        holds(rt, memory, address, 0xAB);
        memory.write(address, 1);
        holds(rt, memory, address, 1);
        assert_eq!(rt; memory.fill(), 0xAB, "at {address}");
    }
}

// An address is RAM, and holds a byte.
fn holds(rt: &impl Abort, memory: &GuestMemory, address: u64, byte: u8) {
    assert!(rt; memory.is_ram(address), "at {address}");
    assert_eq!(rt; memory.read(address), byte, "at {address}");
}

#[test]
fn the_ram_map(rt: HostRuntime) {
    are_ranges(&rt, ram_ranges(0x400_0000), 0x200_0000, 0x400_0000);
    are_ranges(&rt, ram_ranges(0xC000_0000), 0xBE00_0000, 0xC000_0000);
}

// The two ranges below 1 MiB, and the one that ends at the top.
fn are_ranges(rt: &impl Abort, ranges: [AddressRange; 3], start: u64, end: u64) {
    let [low, bios, high] = ranges;
    is_range(rt, low, 0, 0xA_0000);
    is_range(rt, bios, 0xE_0000, 0x10_0000);
    is_range(rt, high, start, end);
}

fn is_range(rt: &impl Abort, range: AddressRange, start: u64, end: u64) {
    assert_eq!(rt; range, AddressRange { start, end });
    assert!(rt; range.contains(start));
    assert!(rt; !range.contains(end));
}

// What the ranges of memory hold once bytes were put there and numbers were added.
static LEFT: [(u64, u8); 14] = [
    (0xFFD, 0),
    (0xFFE, 0xFF),
    (0xFFF, 0xFF),
    (0x1000, 2),
    (0x1001, 6),
    (0x1002, 5),
    (0x1003, 0x80),
    (0x1004, 8),
    (0x1005, 7),
    (0x100B, 1),
    (0x100C, 0),
    (0x3FF_FFFD, 0),
    (0x3FF_FFFE, 6),
    (0x3FF_FFFF, 7),
];

#[test]
fn ranges_of_memory(rt: HostRuntime) -> Result<(), Fail> {
    let mut memory = GuestMemory::begin(rt.alloc(), 0x400_0000, 0)?;
    change_ranges(&rt, &mut memory);
    hold(&rt, &memory, &LEFT);
    drop(memory);
    Ok(())
}

fn change_ranges(rt: &impl Abort, memory: &mut GuestMemory)
    requires { memory.old.memory.top ≡ 0x4000000 }
{
    put_ranges(memory);
    are_sums(rt, memory);
    are_windows(rt, memory);
    add_numbers(rt, memory);
    add_long_numbers(rt, memory);
}

// Addresses are RAM, and each holds a byte.
fn hold(rt: &impl Abort, memory: &GuestMemory, rows: &[(u64, u8)]) {
    for (address, byte) in rows {
        holds(rt, memory, *address, *byte);
    }
}

fn put_ranges(memory: &mut GuestMemory)
    requires { memory.old.memory.top ≡ 0x4000000 }
    ensures { memory.new.memory.top ≡ 0x4000000 }
{
    // over the end of a frame
    memory.copy_in(0xFFE, &[0xFF, 2, 3, 4, 5]);
    memory.copy_in(0x3FF_FFFE, &[6, 7]);
    memory.copy_in(0x5000, &[]);
}

fn are_sums(rt: &impl Abort, memory: &GuestMemory)
    requires { memory.now.memory.top ≡ 0x4000000 }
{
    is_sum(rt, memory, 0xFFE, 5, 13);
    is_sum(rt, memory, 0x3FF_FFFE, 2, 13);
    is_sum(rt, memory, 0, 0, 0);
}

// The sum of so many bytes from an address on, modulo 256.
fn is_sum(rt: &impl Abort, memory: &GuestMemory, address: u64, len: u32, sum: u8)
    requires { IsRamRange memory.now.memory.top address len }
{
    assert_eq!(rt; memory.sum_range(address, len), sum, "at {address}");
}

// Bytes that memory holds from an address on. Each window is in one frame: to the frame's end, from its start, and none at all.
static WINDOWS: [(u64, &[u8]); 4] = [
    (0xFFD, &[0, 0xFF, 2]),
    (0x1000, &[3, 4, 5, 0]),
    (0x3FF_FFFD, &[0, 6, 7]),
    (0x1000, &[]),
];

fn are_windows(rt: &impl Abort, memory: &GuestMemory) {
    assert_eq!(rt; FRAME_BYTES, 4096);
    for (address, bytes) in &WINDOWS {
        is_window(rt, memory, *address, bytes);
    }
}

fn is_window(rt: &impl Abort, memory: &GuestMemory, address: u64, bytes: &[u8]) {
    assert!(rt; bytes.len() <= 4 && memory.is_ram(address), "at {address}");
    let len = bytes.len() as u32;
    assert!(rt; address % 4096 + u64::from(len) <= 4096, "at {address}");
    assert_eq!(rt; memory.window(address, len), bytes, "at {address}");
}

// What the frames of memory hold once bytes were put over three ends of frames, and others at the ends of RAM's ranges.
static IN_FRAMES: [(u64, u8); 11] = [
    (0x7FEF, 0),
    (0x7FF0, 9),
    (0x8FFF, 9),
    (0x9000, 9),
    (0xA317, 9),
    (0xA318, 0),
    (0x9_FFFE, 0),
    (0x9_FFFF, 3),
    (0xE_0000, 4),
    (0xF_FFFE, 5),
    (0xF_FFFF, 6),
];

#[test]
fn frames_of_memory(rt: HostRuntime) -> Result<(), Fail> {
    let mut memory = GuestMemory::begin(rt.alloc(), 0x400_0000, 0)?;
    let bytes = vec![in rt.alloc(); 9; 9000]?;
    put_frames(&rt, &mut memory, bytes.as_slice());
    change_windows(&rt, &mut memory);
    hold(&rt, &memory, &IN_FRAMES);
    drop(memory);
    Ok(())
}

fn put_frames(rt: &impl Abort, memory: &mut GuestMemory, bytes: &[u8])
    requires { length bytes.now ≡ 9000 }
{
    memory.copy_in(0x7FF0, bytes);
    is_sum(rt, memory, 0x7FF0, 9000, 104);
    is_sum(rt, memory, 0x7FEF, 9002, 104);
    is_sum(rt, memory, 0x9000, 4096, 0);
}

fn change_windows(rt: &impl Abort, memory: &mut GuestMemory) {
    memory.window_mut(0x9_FFFE, 2)[1] = 3;
    memory.window_mut(0xE_0000, 4096)[0] = 4;
    memory.window_mut(0xF_FFFE, 2).copy_from_slice(&[5, 6]);
    is_window(rt, memory, 0xF_FFFD, &[0, 5, 6]);
}

// Adds to numbers of one byte and of two that overlap.
fn add_numbers(rt: &impl Abort, memory: &mut GuestMemory) {
    adds(rt, memory, 0xFFE, 1, 1, Err(TooFar));
    holds(rt, memory, 0xFFE, 0xFF);
    adds(rt, memory, 0xFFF, 1, 0xFD, Ok(()));
    adds(rt, memory, 0xFFE, 2, 1, Err(TooFar));
    adds(rt, memory, 0x1000, 2, 0x1FF, Ok(()));
}

// Adds to numbers of four bytes and of eight that overlap.
fn add_long_numbers(rt: &impl Abort, memory: &mut GuestMemory) {
    adds(rt, memory, 0x1000, 4, 0x8000_0000, Ok(()));
    adds(rt, memory, 0x1000, 4, 0x8000_0000, Err(TooFar));
    adds(rt, memory, 0x1000, 8, u64::MAX, Err(TooFar));
    adds(rt, memory, 0x1004, 8, 0x0102_0304_0506_0708, Ok(()));
}

// Adds to the number of `size` bytes at an address of the low window, and compares the answer.
fn adds(
    rt: &impl Abort,
    memory: &mut GuestMemory,
    address: u64,
    size: u8,
    amount: u64,
    answer: Result<(), TooFar>,
)
    requires low { address ≤ 0x2000 }
    requires size { (size ≡ 1) ⊎ ((size ≡ 2) ⊎ ((size ≡ 4) ⊎ (size ≡ 8))) }
{
    assert_eq!(rt;
        memory.patch_add(address, size, amount),
        answer,
        "at {address}"
    );
}

#[test]
fn the_text_of_an_error(rt: HostRuntime) -> Result<(), Fail> {
    let text = TooFar.to_string(rt.alloc())?;
    assert_eq!(rt; text.as_str(), "the number does not fit its field");
    Ok(())
}
