//! The greatest dump: each byte of RAM is another than the fill byte. And a long text that has no line at all.

ghost use Rattle.std.specs.Prelude.{◌<◌, ◌^◌, length};

use crate::dumps_again::{is_read_again, write};
use fixtures::{is_same, sink};
use guest_memory::{FRAME_BYTES, GuestMemory};
use memory_dump::{DumpFault, read_dump};
use std::alloc::Global;
use std::test::Fail;
use vt_outside::{Bytes, ListSink, OutOfMemory};

// The first line, 2,146,304 lines of rows, and the last line.
const GREATEST: usize = 90_144_793;

#[test]
fn the_greatest_dump_is_read_again(rt: HostRuntime) -> Result<(), Fail> {
    let mut out = sink(rt.alloc(), GREATEST, &[])?;
    let done = is_greatest(rt.alloc(), &mut out);
    drop(out);
    done
}

fn is_greatest(alloc: Global, out: &mut ListSink) -> Result<(), Fail> {
    write_greatest(alloc, out)?;
    is_same(
        "the greatest dump",
        "its length",
        &out.taken().len(),
        &GREATEST,
    )?;
    is_read_again(alloc, out.taken())
}

fn write_greatest(alloc: Global, out: &mut ListSink) -> Result<(), Fail> {
    let mut memory = GuestMemory::begin(alloc, 0xC000_0000, 0xFF)?;
    fill(&mut memory);
    let written = write(&memory, out);
    drop(memory);
    written
}

// Where each range of RAM begins below a top of 3 GiB, and how many frames it has.
static RANGES: [(u64, u32); 3] = [(0, 160), (0xE_0000, 32), (0xBE00_0000, 8192)];

fn fill(memory: &mut GuestMemory) {
    for (start, frames) in &RANGES {
        fill_range(memory, *start, *frames);
    }
}

fn fill_range(memory: &mut GuestMemory, start: u64, frames: u32) {
    let mut address = start;
    for _ in 0..frames {
        fill_frame(memory, address);
        address = address.wrapping_add(FRAME_BYTES);
    }
}

fn fill_frame(memory: &mut GuestMemory, address: u64) {
    if memory.is_ram(address) && address % FRAME_BYTES == 0 {
        memory.window_mut(address, FRAME_BYTES as u32).fill(0xA5);
    }
}

#[test]
fn a_long_text_without_a_line(rt: HostRuntime) -> Result<(), Fail> {
    let mut text = Bytes::new(rt.alloc());
    let done = is_cut_off(rt.alloc(), &mut text);
    drop(text);
    done
}

fn is_cut_off(alloc: Global, text: &mut Bytes) -> Result<(), Fail> {
    put_digits(text)?;
    has_fault(
        alloc,
        "64 MiB without a line feed",
        text.as_slice(),
        Some(DumpFault::Truncated),
    )
}

// Tells where a text, at most 4 GiB, doesn't have this fault.
fn has_fault(
    alloc: Global,
    case: &str,
    text: &[u8],
    wanted: Option<DumpFault>,
) -> Result<(), Fail> {
    if text.len() > 0xFFFF_FFFF {
        return Err(Fail::new(format_args!("{case} is too long")));
    }
    is_same(case, "fault", &fault_of(alloc, text), &wanted)
}

// The fault of a text, or none where it is read as a memory.
fn fault_of(alloc: Global, text: &[u8]) -> Option<DumpFault>
    requires { length text.now < 2 ^ 32 }
{
    match read_dump(alloc, text) {
        Ok(memory) => {
            drop(memory);
            None
        }
        Err(fault) => Some(fault),
    }
}

// 64 MiB of zeros in digits.
fn put_digits(text: &mut Bytes) -> Result<(), OutOfMemory> {
    for _ in 0..16_384 {
        text.extend(&[b'0'; 4096])?;
    }
    Ok(())
}
