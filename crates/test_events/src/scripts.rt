//! Scripts as tables of lines.

ghost use Rattle.std.specs.Prelude.{IfOk};
ghost use Rattle.loader_script.specs.Spelling.{CanBeWritten};

use loader_script::{Entry, encode_script};
use std::alloc::Global;
use std::test::Fail;
use vt_outside::{Bytes, Name, NameFault};

/// The zone of high memory, and the F segment.
pub(crate) const HIGH: u8 = 1;

pub(crate) const FSEG: u8 = 2;

/// A command of a script, with its files as text.
#[derive(Clone, Copy, Debug)]
pub(crate) enum Line {
    /// A file, its align and its zone.
    Allocate(&'static str, u32, u8),
    /// The file that is changed, the one that is pointed to, an offset and a size.
    AddPointer(&'static str, &'static str, u32, u8),
    /// A file, an offset, a start and a length.
    AddChecksum(&'static str, u32, u32, u32),
    /// The file that is written, the one whose place is written, an offset in each, and a size.
    WritePointer(&'static str, &'static str, u32, u32, u8),
    /// A command's number, with zeros behind it, which are no name.
    Number(u32),
    /// So many zeros, of which 128 are a command that changes nothing.
    Zeros(u32),
}

/// Returns the bytes of a script.
pub(crate) fn script_of(alloc: Global, lines: &[Line]) -> Result<Bytes, Fail> {
    let mut script = Bytes::new(alloc);
    for line in lines {
        put_line(alloc, &mut script, line)?;
    }
    Ok(script)
}

/// Appends the bytes of a line.
pub(crate) fn put_line(alloc: Global, script: &mut Bytes, line: &Line) -> Result<(), Fail> {
    match line {
        Line::Number(number) => put_number(script, *number),
        Line::Zeros(count) => put_zeros(script, *count),
        Line::Allocate(file, align, zone) => {
            put_entry(alloc, script, allocate(file, *align, *zone))
        }
        Line::AddPointer(dest, src, offset, size) => {
            put_entry(alloc, script, add_pointer(dest, src, *offset, *size))
        }
        Line::AddChecksum(file, offset, start, length) => {
            put_entry(alloc, script, add_checksum(file, *offset, *start, *length))
        }
        Line::WritePointer(dest, src, dst_offset, src_offset, size) => {
            let entry = write_pointer(dest, src, *dst_offset, *src_offset, *size);
            put_entry(alloc, script, entry)
        }
    }
}

fn allocate(file: &str, align: u32, zone: u8) -> Result<Entry, NameFault>
    ensures { IfOk result CanBeWritten }
{
    let file = Name::of(file)?;
    Ok(Entry::Allocate { file, align, zone })
}

fn add_pointer(dest: &str, src: &str, offset: u32, size: u8) -> Result<Entry, NameFault>
    ensures { IfOk result CanBeWritten }
{
    let dest = Name::of(dest)?;
    let src = Name::of(src)?;
    Ok(Entry::AddPointer {
        dest,
        src,
        offset,
        size,
    })
}

fn add_checksum(file: &str, offset: u32, start: u32, length: u32) -> Result<Entry, NameFault>
    ensures { IfOk result CanBeWritten }
{
    let file = Name::of(file)?;
    Ok(Entry::AddChecksum {
        file,
        offset,
        start,
        length,
    })
}

fn write_pointer(
    dest: &str,
    src: &str,
    dst_offset: u32,
    src_offset: u32,
    size: u8,
) -> Result<Entry, NameFault>
    ensures { IfOk result CanBeWritten }
{
    let dest = Name::of(dest)?;
    let src = Name::of(src)?;
    Ok(Entry::WritePointer {
        dest,
        src,
        dst_offset,
        src_offset,
        size,
    })
}

fn put_entry(alloc: Global, script: &mut Bytes, entry: Result<Entry, NameFault>) -> Result<(), Fail>
    requires { IfOk entry CanBeWritten }
{
    let bytes = encode_script(alloc, &[entry?])?;
    script.extend(bytes.as_slice())?;
    Ok(())
}

fn put_number(script: &mut Bytes, number: u32) -> Result<(), Fail> {
    script.extend(&number.to_le_bytes())?;
    script.extend(&[0; 124])?;
    Ok(())
}

fn put_zeros(script: &mut Bytes, count: u32) -> Result<(), Fail> {
    for _ in 0..count {
        script.push(0)?;
    }
    Ok(())
}
