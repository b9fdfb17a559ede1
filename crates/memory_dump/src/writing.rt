ghost use Rattle.std.specs.Prelude.{◌≡◌, ◌+◌, ◌*◌, ◌%◌, ◌<◌, ◌≤◌, false, [], length, take, OnOk, OnErr};
ghost use Rattle.vt_bytes.specs.Memory.{IsMemory, IsTop, IsRam, IsRamRange, ram_ranges};
ghost use Rattle.guest_memory.specs.Bytes.{HoldsBytes};
ghost use Rattle.memory_dump.specs.Dump.{dump, ranges_text, rows_text};
ghost use Rattle.guest_memory.specs.Frames.{frame_limit, frame_start};
ghost use Rattle.guest_memory.specs.Touched.{touched_count};
ghost use Rattle.vt_outside.specs.Stream.{Took, TookFront, line_feeds};

use crate::header::header_text;
use crate::row::{LINE, ROW, is_filled_row, line};
use guest_memory::{FRAME_BYTES, GuestMemory, ram_ranges};
use vt_bytes::BYTES_IN_MIB;
use vt_outside::{Failed, Sink, write_all};

// How many rows a frame has, and how many bytes their lines have at most.
const ROWS: usize = 256;

const FRAME_TEXT: usize = ROWS * LINE;

// How many bytes the frames below the top have. The others are those of the first MiB.
const HIGH_BYTES: u64 = 0x200_0000;

/// Writes the dump of `memory` to `out`: a line with the top and the fill byte, then one for each 16 bytes of RAM that aren't all
/// the fill byte, then `end`. Each line is offered whole in one `write`, and then what is left of it. It takes no memory, and doesn't
/// flush `out`. Returns `Failed` when a write fails; `out` then took a part of the dump from its front.
pub fn dump_to<K: Sink>(memory: &GuestMemory, out: &mut K) -> Result<(), Failed>
    ensures ok { OnOk result (Took (dump memory.now.memory) (K.seen out.old) (K.seen out.new)) }
    ensures front { OnErr result (TookFront (dump memory.now.memory) (K.seen out.old) (K.seen out.new)) }
    // It has a line for each of at most 256 rows of a frame that is touched, and two more.
    ensures few { line_feeds (dump memory.now.memory) ≤ 2 + 256 * touched_count memory.now.touched }
    // So that the memory is the only one with this text.
    ensures lawful { IsMemory memory.now.memory }
    ensures holds { HoldsBytes memory.now.memory }
{
    memory.holds_bytes();
    write_all(out, &header_text(memory.top(), memory.fill()))?;
    dump_ranges(memory, out)?;
    write_all(out, b"end\n")
}

// Writes the lines of each range of RAM.
fn dump_ranges<K: Sink>(memory: &GuestMemory, out: &mut K) -> Result<(), Failed>
    ensures ok { OnOk result (Took (ranges_text memory.now.memory (ram_ranges memory.now.memory.top)) (K.seen out.old) (K.seen out.new)) }
    ensures front { OnErr result (TookFront (ranges_text memory.now.memory (ram_ranges memory.now.memory.top)) (K.seen out.old) (K.seen out.new)) }
{
    for range in ram_ranges(memory.top()) {
        let frames = (range.end - range.start) / FRAME_BYTES;
        dump_frames(memory, out, range.start, frames)?;
    }
    Ok(())
}

// Writes the lines of so many frames from an address on.
fn dump_frames<K: Sink>(
    memory: &GuestMemory,
    out: &mut K,
    start: u64,
    count: u64,
) -> Result<(), Failed>
    requires lawful { IsTop memory.now.memory.top }
    requires ram { IsRamRange memory.now.memory.top start (4096 * count) }
    requires aligned { start % 4096 ≡ 0 }
    ensures ok { OnOk result (Took (rows_text memory.now.memory start (256 * count)) (K.seen out.old) (K.seen out.new)) }
    ensures front { OnErr result (TookFront (rows_text memory.now.memory start (256 * count)) (K.seen out.old) (K.seen out.new)) }
{
    for k in 0..count {
        let address = start + FRAME_BYTES * k;
        if may_have_lines(memory, address) {
            dump_frame(memory, out, address)?;
        }
    }
    Ok(())
}

// Whether the frame at an address may have lines. Most of RAM is as it was at the beginning: a frame that wasn't touched isn't looked
// at.
fn may_have_lines(memory: &GuestMemory, address: u64) -> bool
    requires lawful { IsTop memory.now.memory.top }
    requires ram { IsRamRange memory.now.memory.top address 4096 }
    requires aligned { address % 4096 ≡ 0 }
    ensures { result ≡ false → rows_text memory.now.memory address 256 ≡ [] }
{
    memory.touched(frame_at(address, memory.top()))
}

// The number of the frame that begins at an address.
fn frame_at(address: u64, top: u32) -> u32
    requires lawful { IsTop top }
    requires ram { IsRam top address }
    requires aligned { address % 4096 ≡ 0 }
    ensures place { frame_start top result ≡ address }
    ensures limit { result < frame_limit }
{
    let number = if address < BYTES_IN_MIB {
        address / FRAME_BYTES
    } else {
        BYTES_IN_MIB / FRAME_BYTES + (address - (u64::from(top) - HIGH_BYTES)) / FRAME_BYTES
    };
    number as u32
}

// Writes the lines of the frame at an address. Their text is made at once.
fn dump_frame<K: Sink>(memory: &GuestMemory, out: &mut K, address: u64) -> Result<(), Failed>
    requires lawful { IsTop memory.now.memory.top }
    requires ram { IsRamRange memory.now.memory.top address 4096 }
    requires aligned { address % 4096 ≡ 0 }
    ensures ok { OnOk result (Took (rows_text memory.now.memory address 256) (K.seen out.old) (K.seen out.new)) }
    ensures front { OnErr result (TookFront (rows_text memory.now.memory address 256) (K.seen out.old) (K.seen out.new)) }
{
    let mut text = [0; FRAME_TEXT];
    let len = put_rows(&mut text, memory, address);
    write_lines(out, &text[..len])
}

// Writes lines of rows, each in a piece of its own.
fn write_lines<K: Sink>(out: &mut K, text: &[u8]) -> Result<(), Failed>
    ensures ok { OnOk result (Took text.now (K.seen out.old) (K.seen out.new)) }
    ensures front { OnErr result (TookFront text.now (K.seen out.old) (K.seen out.new)) }
{
    let mut rest = text;
    while !rest.is_empty() {
        let size = rest.len().min(LINE);
        write_all(out, &rest[..size])?;
        rest = &rest[size..];
    }
    Ok(())
}

// Puts the lines of the frame at an address at the front of `text`, and returns how many bytes they have.
fn put_rows(text: &mut [u8; FRAME_TEXT], memory: &GuestMemory, address: u64) -> usize
    requires lawful { IsTop memory.now.memory.top }
    requires ram { IsRamRange memory.now.memory.top address 4096 }
    requires aligned { address % 4096 ≡ 0 }
    ensures fits { result ≤ 10752 }
    ensures lines { take result text.new ≡ rows_text memory.now.memory address 256 }
{
    let frame = memory.window(address, FRAME_BYTES as u32);
    let fill = memory.fill();
    let mut len = 0;
    for k in 0..ROWS {
        let row = &frame[ROW * k..ROW * k + ROW];
        if !is_filled_row(row, fill) {
            text[len..len + LINE].copy_from_slice(&line((address as usize + ROW * k) as u32, row));
            len += LINE;
        }
    }
    len
}
