ghost use Rattle.std.specs.Prelude.{◌≡◌, ◌<◌, ◌^◌};
ghost use Rattle.vt_layout.specs.Rows.{width_of, size};

use crate::short_bytes::ShortBytes;
use vt_outside::Name;

/// A row of a layout: how many bytes it has, and what stands there. Widths are in bytes, and at most 8 for numbers.
#[derive(Drop)]
pub enum Row {
    /// A number, low byte first: its width, and its value.
    Number(u8, u64),
    /// A number, high byte first: its width, and its value.
    BigEndian(u8, u64),
    /// Bytes: how many, and which.
    Bytes(u8, ShortBytes),
    /// The name of a file in 56 bytes. A reader takes what stands before the first NUL.
    Named(Name),
    /// The number of a string of an SMBIOS structure in one byte: strings count from 1, and 0 is none (DSP0134 6.1.3).
    StringNumber(u8),
    /// A number, low byte first, that no reader looks at: its width, and the value that is written.
    Ignored(u8, u64),
    /// So many bytes that no reader looks at, and that are written as zeros.
    Reserved(u8),
    /// The address of a file with an offset added, low byte first: its width, which is 1, 2, 4 or 8, the file, and the offset
    /// in bytes.
    Pointer(u8, Name, u32),
    /// One byte, which makes the first bytes of the layout sum to zero, modulo 256: how many those are.
    Sum(u32),
}

impl Row {
    /// Returns the width of the row in bytes.
    pub fn width(&self) -> u32
        ensures { result ≡ width_of self.now }
    {
        match self {
            Row::Number(width, _)
            | Row::BigEndian(width, _)
            | Row::Bytes(width, _)
            | Row::Ignored(width, _)
            | Row::Reserved(width)
            | Row::Pointer(width, _, _) => u32::from(*width),
            Row::Named(_) => 56,
            Row::StringNumber(_) | Row::Sum(_) => 1,
        }
    }
}

/// Returns the sum of the widths of `rows` in bytes, which must be below 2^32.
pub fn size_of(rows: &[Row]) -> u32
    requires { size rows.now < 2 ^ 32 }
    ensures { result ≡ size rows.now }
{
    let mut total = 0;
    for row in rows {
        total += row.width();
    }
    total
}
