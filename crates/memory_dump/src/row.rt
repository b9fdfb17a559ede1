ghost use Rattle.std.specs.Prelude.{◌≡◌, ◌==◌, length, take};
ghost use Rattle.std.specs.List.{list_all};
ghost use Rattle.memory_dump.specs.Dump.{row_text};
ghost use Rattle.memory_dump.specs.Reading.{is_line_of, row_of, row_read};

use crate::digits::{digits, put_bytes};

/// How many bytes of RAM a row has.
pub(crate) const ROW: usize = 16;

/// How many bytes the line of a row has.
pub(crate) const LINE: usize = 42;

/// 16 bytes, and the address at which they stand.
#[derive(Clone, Copy, Debug, PartialEq, Eq)]
pub(crate) struct Row {
    pub(crate) address: u32,
    pub(crate) bytes: [u8; ROW],
}

/// The line of 16 bytes at an address.
pub(crate) fn line(address: u32, row: &[u8]) -> [u8; LINE]
    requires { length row.now ≡ 16 }
    ensures { result ≡ row_text address row.now }
{
    // Both become digits in one loop, over zeros too, since its last bytes would be taken one by one where they were only four.
    let mut bytes = [0; 24];
    bytes[..4].copy_from_slice(&address.to_be_bytes());
    bytes[4..20].copy_from_slice(row);
    let digits = digits(&bytes);
    let mut text = [b' '; LINE];
    text[..8].copy_from_slice(&digits[..8]);
    text[9..41].copy_from_slice(&digits[8..40]);
    text[41] = b'\n';
    text
}

/// Whether the 16 bytes of a row, a number that the compiler knows, are all the fill byte. It doesn't stop at the first that isn't, so
/// that the compiler compares them all at once.
pub(crate) fn is_filled_row(row: &[u8], fill: u8) -> bool
    requires { length row.now ≡ 16 }
    ensures { result ≡ list_all (λ byte. byte == fill) row.now }
{
    let mut filled = true;
    for i in 0..ROW {
        filled &= row[i] == fill;
    }
    filled
}

/// The row that the first line of `text` tells, if it is a row's line.
pub(crate) fn row_in_front(text: &[u8]) -> Option<Row>
    ensures { result ≡ row_of (take 42 text.now) }
{
    if text.len() < LINE {
        return None;
    }
    let line = &text[..LINE];
    let row = read(line);
    if is_line_of(line, &row) {
        Some(row)
    } else {
        None
    }
}

// Whether a line is that of a row at a multiple of 16.
fn is_line_of(told: &[u8], row: &Row) -> bool
    requires { length told.now ≡ 42 }
    ensures { result ≡ is_line_of told.now row.now }
{
    line(row.address, &row.bytes).as_slice() == told && row.address % 16 == 0
}

// The row that a line tells, if it is a row's line.
fn read(line: &[u8]) -> Row
    requires { length line.now ≡ 42 }
    ensures { result ≡ row_read line.now }
{
    let mut address = [0; 4];
    let mut bytes = [0; ROW];
    put_bytes(&mut address, &line[..8]);
    put_bytes(&mut bytes, &line[9..41]);
    Row {
        address: u32::from_be_bytes(address),
        bytes,
    }
}
