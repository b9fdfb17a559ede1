ghost use Rattle.std.specs.Prelude.{◌≡◌, ◌^◌, ◌<◌, ◌≤◌, length, codes};
ghost use Rattle.vt_layout.specs.Rows.{width_of};
ghost use Rattle.vt_layout.specs.Reading.{row_at, bytes_at_row, read_number, read_name, IsNumber, IsNamed, Reach};

use crate::row::{Row, size_of};
use crate::row_value::number_at;
use vt_outside::{Name, NameFault};

/// Reads the number of one byte at the row `rows[index]`, in the byte order of that row. The row must be a `Number` or a
/// `BigEndian` that is one byte wide. `bytes` begins with the first of `rows` and must reach to the end of the last. `rows`
/// must have fewer than 2^32 bytes.
///
/// Only the kinds and the widths of `rows` matter, not the values in them.
pub fn read_u8(bytes: &[u8], rows: &[Row], index: usize) -> u8
    requires row { IsNumber 1 (row_at index rows.now) }
    requires within { Reach bytes.now rows.now }
    ensures { result ≡ read_number index rows.now bytes.now }
{
    number(bytes, rows, index) as u8
}

/// Reads the number of two bytes at the row `rows[index]`, which must be a `Number` or a `BigEndian` that is two bytes wide.
/// `bytes` and `rows` are as for [`read_u8`].
pub fn read_u16(bytes: &[u8], rows: &[Row], index: usize) -> u16
    requires row { IsNumber 2 (row_at index rows.now) }
    requires within { Reach bytes.now rows.now }
    ensures { result ≡ read_number index rows.now bytes.now }
{
    number(bytes, rows, index) as u16
}

/// Reads the number of four bytes at the row `rows[index]`, which must be a `Number` or a `BigEndian` that is four bytes wide.
/// `bytes` and `rows` are as for [`read_u8`].
pub fn read_u32(bytes: &[u8], rows: &[Row], index: usize) -> u32
    requires row { IsNumber 4 (row_at index rows.now) }
    requires within { Reach bytes.now rows.now }
    ensures { result ≡ read_number index rows.now bytes.now }
{
    number(bytes, rows, index) as u32
}

/// Reads the number of eight bytes at the row `rows[index]`, which must be a `Number` or a `BigEndian` that is eight bytes wide.
/// `bytes` and `rows` are as for [`read_u8`].
pub fn read_u64(bytes: &[u8], rows: &[Row], index: usize) -> u64
    requires row { IsNumber 8 (row_at index rows.now) }
    requires within { Reach bytes.now rows.now }
    ensures { result ≡ read_number index rows.now bytes.now }
{
    number(bytes, rows, index)
}

/// Reads the file name at the row `rows[index]`, which must be a `Named`. `bytes` and `rows` are as for [`read_u8`].
///
/// The errors are those of [`Name::read`]: `NoNul` if the 56 bytes have no NUL, `EmptyName` if they begin with one, and
/// `BadNameByte` if a byte before it isn't 0x20 to 0x7E.
pub fn read_name(bytes: &[u8], rows: &[Row], index: usize) -> Result<Name, NameFault>
    requires row { IsNamed (row_at index rows.now) }
    requires within { Reach bytes.now rows.now }
    ensures { result ≡ read_name index rows.now bytes.now }
{
    Name::read(read_bytes(bytes, rows, index).as_array().unwrap())
}

/// Returns the name "-", for rows that say only where to read, and whose values aren't used.
pub fn blank_name() -> Name
    ensures { result ≡ codes "-" }
{
    Name::of("-").unwrap()
}

// The number at the row with this index.
fn number(bytes: &[u8], rows: &[Row], index: usize) -> u64
    requires row { index < length rows.now }
    requires some { (1 ≤ width_of (row_at index rows.now)) × (width_of (row_at index rows.now) ≤ 8) }
    requires within { Reach bytes.now rows.now }
    ensures number { result ≡ read_number index rows.now bytes.now }
    ensures fits { result < 256 ^ width_of (row_at index rows.now) }
{
    number_at(&rows[index], read_bytes(bytes, rows, index))
}

/// Reads the bytes at the row `rows[index]`, of which there must be one. `bytes` and `rows` are as for [`read_u8`].
pub fn read_bytes<'a>(bytes: &'a [u8], rows: &[Row], index: usize) -> &'a [u8]
    requires row { index < length rows.now }
    requires within { Reach bytes.now rows.now }
    ensures bytes { result.now ≡ bytes_at_row index rows.now bytes.now }
    ensures size { length result.now ≡ width_of (row_at index rows.now) }
{
    let start = size_of(&rows[..index]) as usize;
    &bytes[start..start + rows[index].width() as usize]
}
