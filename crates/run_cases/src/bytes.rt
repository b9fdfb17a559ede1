//! Bytes that lines tell.

use crate::fault::Fault;
use crate::rows::{put_row, take_row};
use hex::decode;
use std::alloc::Global;
use vt_outside::{Bytes, OutOfMemory};

/// Tells whether a line tells bytes by its first one.
pub(crate) fn is_of_bytes(line: &str) -> bool {
    line.starts_with('|')
        || line.starts_with('<')
        || line.starts_with('x')
        || line.starts_with('~')
        || line.starts_with('-')
}

/// Adds the bytes that a line tells, or changes the row that it tells.
pub(crate) fn put_line(alloc: Global, bytes: &mut Bytes, line: &str) -> Result<(), Fault> {
    if let Some(text) = line.strip_prefix('|') {
        return Ok(put_whole(bytes, text)?);
    }
    if let Some(text) = line.strip_prefix('<') {
        return Ok(bytes.extend(text.as_bytes())?);
    }
    if let Some(row) = line.strip_prefix('~') {
        return put_row(alloc, bytes, row);
    }
    if let Some(address) = line.strip_prefix('-') {
        return take_row(alloc, bytes, address);
    }
    put_digits(alloc, bytes, line)
}

fn put_whole(bytes: &mut Bytes, text: &str) -> Result<(), OutOfMemory> {
    bytes.extend(text.as_bytes())?;
    bytes.push(b'\n')
}

fn put_digits(alloc: Global, bytes: &mut Bytes, line: &str) -> Result<(), Fault> {
    let digits = line.strip_prefix('x').ok_or(Fault::UnknownWord)?;
    let more = decode(alloc, digits).map_err(|_| Fault::BadValue)?;
    Ok(bytes.extend(more.as_slice())?)
}

/// Adds a byte until there are `count` of them. More are a fault.
pub(crate) fn pad(alloc: Global, bytes: &mut Bytes, count: usize, byte: u8) -> Result<(), Fault> {
    let missing = count.checked_sub(bytes.len()).ok_or(Fault::BadValue)?;
    let padding = vec![in alloc; byte; missing]?;
    Ok(bytes.extend(padding.as_slice())?)
}

/// Adds bytes so many times over.
pub(crate) fn repeat(bytes: &mut Bytes, piece: &[u8], times: usize) -> Result<(), Fault> {
    for _ in 0..times {
        bytes.extend(piece)?;
    }
    Ok(())
}

/// Adds bytes so many times over, and behind each a number, from `first` on, and a line feed.
pub(crate) fn repeat_numbered(
    alloc: Global,
    bytes: &mut Bytes,
    piece: &[u8],
    times: u32,
    first: u32,
) -> Result<(), Fault> {
    for place in 0..times {
        bytes.extend(piece)?;
        put_number(alloc, bytes, first.saturating_add(place))?;
    }
    Ok(())
}

fn put_number(alloc: Global, bytes: &mut Bytes, number: u32) -> Result<(), Fault> {
    let line = format!(in alloc; "{number}\n")?;
    Ok(bytes.extend(line.as_bytes())?)
}

/// Puts the bytes that a line tells in the place of those from `place` on. They end within them.
pub(crate) fn put_over(
    alloc: Global,
    bytes: &mut Bytes,
    place: usize,
    line: &str,
) -> Result<(), Fault> {
    let mut piece = Bytes::new(alloc);
    put_line(alloc, &mut piece, line)?;
    match bytes.len().checked_sub(place) {
        Some(behind) if piece.len() <= behind => {
            bytes.put(place, piece.as_slice());
            Ok(())
        }
        _ => Err(Fault::BadValue),
    }
}
