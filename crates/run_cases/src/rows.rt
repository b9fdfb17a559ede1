//! Rows of a dump: eight digits of an address, a blank, and 32 digits of bytes.

use crate::fault::Fault;
use std::alloc::Global;
use vt_outside::{Bytes, OutOfMemory};

/// How many digits an address has.
const ADDRESS: usize = 8;

/// How many bytes a row has, without its line feed.
const ROW: usize = 41;

// Where a row stands among bytes, or is to stand: from the first place to the second, which is the first one where it isn't there.
#[derive(Clone, Copy)]
struct Span {
    start: usize,
    end: usize,
}

/// Puts a row in the place of that of its address, or where it stands by its address: in front of the first row of a greater one, or of the
/// line that ends the dump.
pub(crate) fn put_row(alloc: Global, bytes: &mut Bytes, row: &str) -> Result<(), Fault> {
    if row.len() != ROW || !is_row(row.as_bytes()) {
        return Err(Fault::BadValue);
    }
    let span = span_of(bytes.as_slice(), front(row.as_bytes(), ADDRESS));
    replace(alloc, bytes, span, row.as_bytes())
}

/// Takes the row of an address out.
pub(crate) fn take_row(alloc: Global, bytes: &mut Bytes, address: &str) -> Result<(), Fault> {
    let span = span_of(bytes.as_slice(), address.as_bytes());
    if span.start == span.end {
        return Err(Fault::NoRow);
    }
    replace(alloc, bytes, span, b"")
}

fn span_of(bytes: &[u8], address: &[u8]) -> Span {
    let mut start = 0usize;
    for line in bytes.split(|byte| *byte == b'\n') {
        let end = start.saturating_add(line.len()).saturating_add(1);
        if is_row(line) && front(line, ADDRESS) == address {
            return Span { start, end };
        }
        if line == b"end".as_slice()
            || line.is_empty()
            || (is_row(line) && is_above(line, address))
        {
            return Span { start, end: start };
        }
        start = end;
    }
    Span { start, end: start }
}

// Whether the row's address is greater: digits of one length have the order of their numbers.
fn is_above(line: &[u8], address: &[u8]) -> bool {
    front(line, ADDRESS) > address
}

fn is_row(line: &[u8]) -> bool {
    match line.get(ADDRESS) {
        Some(blank) => *blank == b' ' && front(line, ADDRESS).iter().all(|digit| is_digit(*digit)),
        None => false,
    }
}

fn is_digit(digit: u8) -> bool {
    digit.is_ascii_digit() || (b'a'..=b'f').contains(&digit)
}

// The first `count` bytes, or all of them where there are fewer.
fn front(bytes: &[u8], count: usize) -> &[u8] {
    &bytes[..count.min(bytes.len())]
}

fn behind(bytes: &[u8], count: usize) -> &[u8] {
    &bytes[count.min(bytes.len())..]
}

// Puts a line, or none where it has no bytes, in the place of a span.
fn replace(alloc: Global, bytes: &mut Bytes, span: Span, line: &[u8]) -> Result<(), Fault> {
    let mut changed = Bytes::new(alloc);
    let put = put_parts(&mut changed, bytes.as_slice(), span, line);
    *bytes = changed;
    Ok(put?)
}

fn put_parts(
    changed: &mut Bytes,
    bytes: &[u8],
    span: Span,
    line: &[u8],
) -> Result<(), OutOfMemory> {
    changed.extend(front(bytes, span.start))?;
    changed.extend(line)?;
    if !line.is_empty() {
        changed.push(b'\n')?;
    }
    changed.extend(behind(bytes, span.end))
}
