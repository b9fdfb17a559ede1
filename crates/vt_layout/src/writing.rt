ghost use Rattle.std.specs.Prelude.{◌≡◌, ◌≤◌, ◌++◌, replicate, OnOk, OnErr};
ghost use Rattle.std.specs.List.{AllByRecursion};
ghost use Rattle.vt_bytes.specs.Numbers.{le_bytes, be_bytes};
ghost use Rattle.vt_layout.specs.Rows.{IsRow, bytes_of, spelled};

use crate::row::Row;
use vt_outside::{Bytes, OutOfMemory};

/// Appends the bytes of `rows` to `bytes`, in order. A pointer is written as its offset, without the address of its file, and a
/// sum's byte as zero.
///
/// A number must fit its width, which is at most 8 bytes, and bytes must fill theirs. A pointer must have 1, 2, 4 or 8 bytes,
/// and its offset must fit them with any address below 3 GiB added. On `OutOfMemory` nothing is said of `bytes`, which may end
/// in some of the rows.
pub fn put_rows(bytes: &mut Bytes, rows: &[Row]) -> Result<(), OutOfMemory>
    requires { AllByRecursion IsRow rows.now }
    ensures { OnOk result (bytes.new ≡ bytes.old ++ spelled rows.now) }
{
    for row in rows {
        put_row(bytes, row)?;
    }
    Ok(())
}

/// Appends the bytes of `row` to `bytes`, under the conditions of [`put_rows`]. On `OutOfMemory` nothing is appended, and
/// `bytes` is what it was.
pub fn put_row(bytes: &mut Bytes, row: &Row) -> Result<(), OutOfMemory>
    requires { IsRow row.now }
    ensures ok { OnOk result (bytes.new ≡ bytes.old ++ bytes_of row.now) }
    ensures err { OnErr result (bytes.new ≡ bytes.old) }
{
    match row {
        Row::Number(width, value) | Row::Ignored(width, value) => put_number(bytes, *width, *value),
        Row::BigEndian(width, value) => put_big_endian(bytes, *width, *value),
        Row::Bytes(_, text) => bytes.extend(text.as_slice()),
        Row::Named(name) => bytes.extend(&name.bytes()),
        Row::StringNumber(number) => put_number(bytes, 1, u64::from(*number)),
        Row::Reserved(width) => put_zeros(bytes, *width),
        Row::Pointer(width, _, offset) => put_number(bytes, *width, u64::from(*offset)),
        Row::Sum(_) => bytes.push(0),
    }
}

fn put_number(bytes: &mut Bytes, width: u8, value: u64) -> Result<(), OutOfMemory>
    requires { width ≤ 8 }
    ensures ok { OnOk result (bytes.new ≡ bytes.old ++ le_bytes width value) }
    ensures err { OnErr result (bytes.new ≡ bytes.old) }
{
    bytes.extend(&value.to_le_bytes()[..usize::from(width)])
}

fn put_big_endian(bytes: &mut Bytes, width: u8, value: u64) -> Result<(), OutOfMemory>
    requires { width ≤ 8 }
    ensures ok { OnOk result (bytes.new ≡ bytes.old ++ be_bytes width value) }
    ensures err { OnErr result (bytes.new ≡ bytes.old) }
{
    bytes.extend(&value.to_be_bytes()[8 - usize::from(width)..])
}

fn put_zeros(bytes: &mut Bytes, count: u8) -> Result<(), OutOfMemory>
    ensures ok { OnOk result (bytes.new ≡ bytes.old ++ replicate count 0) }
    ensures err { OnErr result (bytes.new ≡ bytes.old) }
{
    bytes.extend(&[0; 255][..usize::from(count)])
}
