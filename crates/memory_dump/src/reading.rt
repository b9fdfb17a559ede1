ghost use Rattle.std.specs.Prelude.{◌≡◌, ◌≢◌, ◌+◌, ◌%◌, ◌<◌, ◌^◌, ◌++◌, ℕ, Ok, Err, None, Some, OnOk, IfOk, IfErr, length, take, drop};
ghost use Rattle.vt_outside.specs.Readings.{Agrees};
ghost use Rattle.vt_bytes.specs.Memory.{Memory, IsMemory, IsTop, with_bytes};
ghost use Rattle.memory_dump.specs.declared.fault.DumpFault.TheVariants.{OutOfMemory as NoMemory};
ghost use Rattle.memory_dump.specs.Dump.{dump, header_line, last_line};
ghost use Rattle.guest_memory.specs.Bytes.{HoldsBytes};
ghost use Rattle.memory_dump.specs.Reading.{behind_so, fault_of_row, header_of, read_so, row_of, reported};

use crate::fault::DumpFault;
use crate::header::{HEADER, Header, header_in_front};
use crate::line::has_whole_line;
use crate::row::{LINE, Row, is_filled_row, row_in_front};
use guest_memory::GuestMemory;
use std::alloc::Global;

// How many bytes the last line has.
const LAST: usize = 4;

/// Reads the memory of which `bytes`, fewer than 2^32, are the dump. Its room, as `GuestMemory::begin` says, comes from `alloc`. It
/// fails where `bytes` are no dump, with the first line at fault, and with `OutOfMemory` where memory runs out; then nothing is kept.
pub fn read_dump(alloc: Global, bytes: &[u8]) -> Result<GuestMemory, DumpFault>
    requires { length bytes.now < 2 ^ 32 }
    // What is read is a memory whose text the bytes are.
    ensures found { IfOk result (λ held. dump held.memory ≡ bytes.now) }
    ensures lawful { IfOk result (λ held. IsMemory held.memory) }
    ensures holds { IfOk result (λ held. HoldsBytes held.memory) }
    // A memory whose text the bytes are is read, unless memory runs out.
    ensures only { (m : Memory) → IsMemory m → HoldsBytes m → dump m ≡ bytes.now → Agrees reported (λ held. held.memory) result (Ok m) }
    // Which fault it is.
    ensures exact { Agrees reported (λ held. held.memory) result (read_so bytes.now) }
    // Memory is needed only once the first line is a dump's.
    ensures no_memory { result ≡ Err NoMemory → header_of (take 21 bytes.now) ≢ None }
{
    let header = read_header(bytes)?;
    let mut memory = GuestMemory::begin(alloc, header.top, header.fill)?;
    read_rows(&mut memory, bytes.split_at(HEADER).1)?;
    Ok(memory)
}

// What the first line tells, or why it is refused.
fn read_header(bytes: &[u8]) -> Result<Header, DumpFault>
    ensures header { IfOk result (λ header. header_of (take 21 bytes.now) ≡ Some header) }
    ensures err { IfErr result (λ fault. read_so bytes.now ≡ Err fault) }
{
    match header_in_front(bytes) {
        Some(header) => Ok(header),
        None => Err(if has_whole_line(bytes) {
            DumpFault::BadHeader
        } else {
            DumpFault::Truncated
        }),
    }
}

// Puts the rows of the lines behind the first one in a memory, up to the last line.
fn read_rows(memory: &mut GuestMemory, text: &[u8]) -> Result<(), DumpFault>
    requires { length text.now + 3 < 2 ^ 32 }
    ensures ok { OnOk result (behind_so memory.old.memory 2 0 text.now ≡ Ok memory.new.memory) }
    ensures err { IfErr result (λ fault. behind_so memory.old.memory 2 0 text.now ≡ Err fault) }
{
    let mut rest = text;
    let mut number = 2;
    let mut from = 0;
    while let Some(row) = row_in_front(rest) {
        put_row(memory, &row, number, from)?;
        rest = rest.split_at(LINE).1;
        number += 1;
        from = u64::from(row.address) + 1;
    }
    end(rest, number)
}

// Puts the row of the line of this number in a memory, or says why it isn't taken. Rows are awaited from the address `from` on.
fn put_row(memory: &mut GuestMemory, row: &Row, number: u32, from: u64) -> Result<(), DumpFault>
    requires { row.now.address % 16 ≡ 0 }
    ensures taken { OnOk result (fault_of_row memory.old.memory number from row.now ≡ None) }
    ensures after { OnOk result (memory.new.memory ≡ with_bytes memory.old.memory row.now.address row.now.bytes) }
    ensures err { IfErr result (λ fault. fault_of_row memory.old.memory number from row.now ≡ Some fault) }
{
    // That a memory is lawful is said by its top's call.
    let _top = memory.top();
    let address = u64::from(row.address);
    if !memory.is_ram(address) {
        return Err(DumpFault::NotRam(number));
    }
    if address < from {
        return Err(DumpFault::OutOfOrder(number));
    }
    if is_filled_row(&row.bytes, memory.fill()) {
        return Err(DumpFault::AllFill(number));
    }
    memory.copy_in(address, &row.bytes);
    Ok(())
}

// What stands behind the rows: the last line, and nothing behind it, or else the line of this number is at fault, or the one behind it,
// or the text was cut off.
fn end(text: &[u8], number: u32) -> Result<(), DumpFault>
    requires none { row_of (take 42 text.now) ≡ None }
    requires few { number + 1 < 2 ^ 32 }
    ensures ok { OnOk result ((m : Memory) (from : ℕ) → behind_so m number from text.now ≡ Ok m) }
    ensures err { IfErr result (λ fault. (m : Memory) (from : ℕ) → behind_so m number from text.now ≡ Err fault) }
{
    if text.starts_with(b"end\n") {
        return if text.len() == LAST {
            Ok(())
        } else {
            Err(DumpFault::BadLine(number + 1))
        };
    }
    Err(if has_whole_line(text) {
        DumpFault::BadLine(number)
    } else {
        DumpFault::Truncated
    })
}
