//! Containers as bytes, made by hand.

ghost use Rattle.std.specs.Prelude.{◌<◌};

use std::alloc::Global;
use vt_outside::{Bytes, OutOfMemory};

/// One file: "a", which is only read, with 5, 6 and 7.
pub(crate) fn one_file() -> [u8; 72] {
    let mut image = [0; 72];
    image[..13].copy_from_slice(b"\0\0\0\x01\0\0\0\x03\0\x20\0\0a");
    image[69..].copy_from_slice(&[5, 6, 7]);
    image
}

/// Two files: "a", which is only read, with 5, 6 and 7, and "b", which may be written, with nothing.
pub(crate) fn two_files() -> [u8; 137] {
    let mut image = [0; 137];
    image[..13].copy_from_slice(b"\0\0\0\x02\0\0\0\x03\0\x20\0\0a");
    image[73] = 0x21;
    image[76] = b'b';
    image[133..].copy_from_slice(&[1, 5, 6, 7]);
    image
}

/// Makes the entry of the file of a number, below 1,024: its size in bytes, its selector, and its name.
pub(crate) fn entry_of(number: u16, size: u32) -> [u8; 64]
    requires { number < 1024 }
{
    let mut entry = [0; 64];
    entry[..4].copy_from_slice(&size.to_be_bytes());
    entry[4..6].copy_from_slice(&(0x20 + number).to_be_bytes());
    entry[8..].copy_from_slice(&field_of(number));
    entry
}

/// Makes the name of a file in its field: its number in four digits.
pub(crate) fn field_of(number: u16) -> [u8; 56] {
    let mut field = [0; 56];
    field[0] = digit(number / 1000);
    field[1] = digit(number / 100);
    field[2] = digit(number / 10);
    field[3] = digit(number);
    field
}

// The last digit of a number.
fn digit(number: u16) -> u8 {
    b'0' + (number % 10) as u8
}

/// Adds the flags of so many files that are only read.
pub(crate) fn put_flags(image: &mut Bytes, count: u16) -> Result<(), OutOfMemory> {
    for _ in 0..count {
        image.push(0)?;
    }
    Ok(())
}
