ghost use Rattle.std.specs.Prelude.{◌≡◌, ◌<◌, ◌^◌, length, take};
ghost use Rattle.memory_dump.specs.Dump.{header_line};
ghost use Rattle.memory_dump.specs.Reading.{header_of, header_read, is_first_line_of, is_top};

use crate::digits::{put_bytes, put_hex};

/// How many bytes the first line has.
pub(crate) const HEADER: usize = 21;

/// What the first line of a dump tells: the top of RAM, and the fill byte.
#[derive(Clone, Copy, Debug, PartialEq, Eq)]
pub(crate) struct Header {
    pub(crate) top: u32,
    pub(crate) fill: u8,
}

/// The first line of a dump.
pub(crate) fn header_text(top: u32, fill: u8) -> [u8; HEADER]
    ensures { result ≡ header_line top fill }
{
    let mut text = *b"top ........ fill ..\n";
    put_hex(&mut text[4..12], &top.to_be_bytes());
    put_hex(&mut text[18..20], &[fill]);
    text
}

/// What the first line of `text` tells, if it is that of a dump.
pub(crate) fn header_in_front(text: &[u8]) -> Option<Header>
    ensures { result ≡ header_of (take 21 text.now) }
{
    if text.len() < HEADER {
        return None;
    }
    let line = &text[..HEADER];
    let header = read(line);
    if is_first_line_of(line, header) {
        Some(header)
    } else {
        None
    }
}

// Whether a line is the first one with this top, which is lawful, and this fill byte.
fn is_first_line_of(line: &[u8], header: Header) -> bool
    ensures { result ≡ is_first_line_of line.now header }
{
    header_text(header.top, header.fill).as_slice() == line && is_top(header.top)
}

// What a line tells, if it is the first of a dump.
fn read(line: &[u8]) -> Header
    requires { length line.now ≡ 21 }
    ensures { result ≡ header_read line.now }
{
    let mut top = [0; 4];
    let mut fill = [0];
    put_bytes(&mut top, &line[4..12]);
    put_bytes(&mut fill, &line[18..20]);
    Header {
        top: u32::from_be_bytes(top),
        fill: fill[0],
    }
}

// Whether RAM may end at an address: a multiple of 1 MiB from 64 MiB to 3 GiB.
fn is_top(top: u32) -> bool
    ensures { result ≡ is_top top }
{
    0x400_0000 <= top && top <= 0xC000_0000 && top % 0x10_0000 == 0
}
