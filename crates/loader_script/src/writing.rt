ghost use Rattle.std.specs.Prelude.{◌≡◌, ◌++◌, ◌<◌, ◌^◌, length, IfOk, OnOk};
ghost use Rattle.std.specs.List.{flat_map, AllByRecursion};
ghost use Rattle.vt_layout.specs.Rows.{IsRow, size, spelled};
ghost use Rattle.loader_script.specs.Spelling.{CanBeWritten, Fits, entry_bytes};

use crate::entry::Entry;
use crate::rows::{
    add_checksum_rows, add_pointer_rows, allocate_rows, command_rows, write_pointer_rows,
};
use std::alloc::Global;
use vt_layout::{Row, put_rows, size_of};
use vt_outside::{Bytes, OutOfMemory};

/// Encodes `script` as 128 bytes for each entry, in memory from `alloc`. `script` must hold no `Misnamed`, and the number of
/// each `Skipped` must be 0 or at least 5. It fails with `OutOfMemory` only where memory runs out.
pub fn encode_script(alloc: Global, script: &[Entry]) -> Result<Bytes, OutOfMemory>
    requires { AllByRecursion CanBeWritten script.now }
    ensures spelled { IfOk result (λ bytes. bytes ≡ flat_map entry_bytes script.now) }
    ensures fits { OnOk result (AllByRecursion Fits script.now) }
{
    let mut bytes = Bytes::new(alloc);
    for entry in script {
        put_entry(&mut bytes, entry)?;
    }
    Ok(bytes)
}

fn put_entry(bytes: &mut Bytes, entry: &Entry) -> Result<(), OutOfMemory>
    ensures spelled { OnOk result (bytes.new ≡ bytes.old ++ entry_bytes entry.now) }
    ensures fits { Fits entry.now }
{
    match entry {
        Entry::Allocate { file, align, zone } => {
            put_rows(bytes, &allocate_rows(file, *align, *zone))
        }
        Entry::AddPointer {
            dest,
            src,
            offset,
            size,
        } => put_rows(bytes, &add_pointer_rows(dest, src, *offset, *size)),
        Entry::AddChecksum {
            file,
            offset,
            start,
            length,
        } => put_rows(bytes, &add_checksum_rows(file, *offset, *start, *length)),
        Entry::WritePointer {
            dest,
            src,
            dst_offset,
            src_offset,
            size,
        } => put_rows(
            bytes,
            &write_pointer_rows(dest, src, *dst_offset, *src_offset, *size),
        ),
        Entry::Misnamed(command) | Entry::Skipped(command) => {
            put_rows(bytes, &command_rows(*command))
        }
    }
}

/// Returns how many bytes `entry` is written as. It takes no memory.
pub fn entry_size(entry: &Entry) -> usize
    ensures { result ≡ length (entry_bytes entry.now) }
{
    match entry {
        Entry::Allocate { file, align, zone } => rows_size(&allocate_rows(file, *align, *zone)),
        Entry::AddPointer {
            dest,
            src,
            offset,
            size,
        } => rows_size(&add_pointer_rows(dest, src, *offset, *size)),
        Entry::AddChecksum {
            file,
            offset,
            start,
            length,
        } => rows_size(&add_checksum_rows(file, *offset, *start, *length)),
        Entry::WritePointer {
            dest,
            src,
            dst_offset,
            src_offset,
            size,
        } => rows_size(&write_pointer_rows(dest, src, *dst_offset, *src_offset, *size)),
        Entry::Misnamed(command) | Entry::Skipped(command) => rows_size(&command_rows(*command)),
    }
}

// How many bytes rows are written as.
fn rows_size(rows: &[Row]) -> usize
    requires fit { AllByRecursion IsRow rows.now }
    requires few { size rows.now < 2 ^ 32 }
    ensures { result ≡ length (spelled rows.now) }
{
    size_of(rows) as usize
}
